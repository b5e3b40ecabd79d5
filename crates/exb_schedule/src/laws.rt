//! What is true of each step, and of a run that has played its input. Each law is a function that
//! does nothing and ensures it.
ghost use Rattle.exb_schedule.specs.OneBridgeRuns.{EventsGoOn, PlayedStands, RoundsAreWholeOn, RunsStayStanding, SettledOwes, SettlingCounts};
ghost use Rattle.exb_schedule.specs.SegmentLaws.{PlayedIsUnderWay, PlayedSaysPassed, PlayedWritesEagerly, PlayedWritesLegally};

use exb_settling_laws::laws::rounds_are_whole;
use exb_world_laws::laws::runs::{
    events_last, plays_stand, runs_are_under_way, runs_last, runs_say_passed, runs_stay_low,
    runs_write_eagerly, runs_write_legally,
};
use exb_world_laws::laws::steps::{
    begins_kept, kept_is_clean, kept_stands, setups_go_on, setups_may_start, stands_go_on,
    stands_owes_nothing, steps_keep, steps_tell_so,
};

/// Of a network that has played the opening and some segments of an input the next index of each
/// port, the number of commands and the clock follow what was played, and each frame that has left
/// is a copy of one of its arrivals.
pub fn played_is_under_way()
    ensures { PlayedIsUnderWay }
{
    runs_are_under_way();
}

/// A network that has played all segments of the eager mode told the eager history, and what has
/// left each external port is what one VLAN bridge sends there over it.
pub fn played_writes_eagerly()
    ensures { PlayedWritesEagerly }
{
    runs_write_eagerly();
}

/// A network that has played all segments of either mode told a history that the input allows, and
/// what has left each external port is what one VLAN bridge sends there over it.
pub fn played_writes_legally()
    ensures { PlayedWritesLegally }
{
    runs_write_legally();
}

/// And it said of each frame that it relayed, in order, whether it passed in the configuration
/// before it.
pub fn played_says_passed()
    ensures { PlayedSaysPassed }
{
    runs_say_passed();
}

/// Any steps of a network that a run of a valid setup reaches leave it standing, with whatever it
/// stood before them: with what they gave, the events that were added and what has left since. Its
/// links are clean and its ageing time stays; it was said of each Relay whether it passed; and what
/// has left are copies of what was given, at external ports. A world says of itself that it is
/// reached (`World::is_reached`), and rounds, settling and segments say which steps they made.
pub fn runs_stay_standing()
    ensures { RunsStayStanding }
{
    runs_last();
}

/// A network that has played the opening and some segments of an input stands with what they give,
/// and its links are clean.
pub fn played_stands()
    ensures { PlayedStands }
{
    plays_stand();
}

/// What has left each port of a settled network that stands is what the one bridge sends there.
pub fn settled_owes()
    ensures { SettledOwes }
{
    stands_owes_nothing();
}

/// A settled network that is given an arrival or a command, and settles by moves, tells just what
/// becomes of that by the rule of the eager history, and just that leaves which the one bridge
/// sends for it.
pub fn events_go_on()
    ensures { EventsGoOn }
{
    events_last();
}

/// A round is made of moves and counts one beat; of the words that stood in a direction control
/// words alone are left, and those and the words that were lost are at most as many as the fate's
/// number fell by.
pub fn rounds_go_through()
    ensures { RoundsAreWholeOn }
{
    rounds_are_whole();
}

/// Settling raises the number of beats by its answer, and no further than to the last one.
pub fn settling_counts()
    ensures { SettlingCounts }
{
    rounds_are_whole();
}
