//! What is true of a world after every step and every list of steps.
ghost use Rattle.exb_world_laws.specs.WorldInvariant.{SetupsMayStart, BeginsKept, StepsKeep, KeptStands, KeptIsClean, SettledOwesNothing, RunsStand, StandsGoOn};
ghost use Rattle.exb_world_laws.specs.StepEvents.{StepsTellSo};
ghost use Rattle.exb_world_laws.specs.FrameBytes.{StepsGoOn, RunsGoOn, SetupsGoOn};
ghost use Rattle.exb_world_laws.specs.SegmentRuns.{RunsPlayLegally, RunsPlayEagerly, SettlingPlays};
ghost use Rattle.exb_world_laws.specs.SettledHistories.{SettledIsOrderly, SegmentsArePlayed};
ghost use Rattle.exb_world_laws.specs.OneBridgeSteps.{RunsLeaveStanding, RunsTellPassed, StandsOwesNothing, EventsAreTold, EventsGoAlone};

use exb_control_spec::laws::steps_tell;
use exb_frame::laws::tag_round_trip;
use exb_relay::laws::{sends_are_words, sends_leave_as_flat};
use exb_world_spec::laws::steps_stay_written;

/// The world of each valid setup begins where these laws begin.
pub fn setups_may_start()
    ensures { SetupsMayStart }
{}

/// As it begins, with nothing given, told or left, a world has what each step keeps.
pub fn begins_kept()
    ensures { BeginsKept }
{}

/// Each step that may be made keeps it: for what was given followed by the step's arrival or
/// command, the history followed by the events that the step adds, and what has left followed by
/// what leaves in it. Whatever is lost, repeated or overtaken.
pub fn steps_keep()
    ensures { StepsKeep }
{
    tag_round_trip();
    sends_are_words();
    sends_leave_as_flat();
    steps_tell();
}

/// A step leaves a world standing whatever was given, was told and has left before it, so far as
/// the world stands with that; that a run from the beginning comes to the world says all else.
pub fn stands_go_on()
    ensures { StandsGoOn }
{
    tag_round_trip();
    sends_are_words();
    sends_leave_as_flat();
    steps_tell();
}

/// The events that a step adds are by its kind, and it adds no others: one of each frame that comes
/// to the bridge, Ignored where an extender ignores an arrival, those of jobs where the bridge
/// takes a control word or a command, a Tick, a Settled.
pub fn steps_tell_so()
    ensures { StepsTellSo }
{}

/// A world that has it stands: configuration, clock and live entries are those of the history; what
/// has left each port, followed by what is owed to it, is what the one bridge sends there; each
/// arrival is named once, in order; each command and each automatic up is decided once, in order,
/// or waits; and each event stands where it may.
pub fn kept_stands()
    ensures { KeptStands }
{}

/// And its links are clean: no word on the way down has a number that is free, and each on the way
/// up has the channel of its port.
pub fn kept_is_clean()
    ensures { KeptIsClean }
{}

/// Over a settled world nothing is owed: what has left each port is what the one bridge sends
/// there.
pub fn settled_owes_nothing()
    ensures { SettledOwesNothing }
{}

/// So over every list of steps from the beginning the world stands, and its links are clean.
pub fn runs_stand()
    ensures { RunsStand }
{
    tag_round_trip();
    sends_are_words();
    sends_leave_as_flat();
    steps_tell();
}

/// The history of a settled world is orderly: each automatic up and each command is decided once,
/// in order, as refusals say; each arrival is named once, in the order of its port, relayed exactly
/// where the bridge relays.
pub fn settled_is_orderly()
    ensures { SettledIsOrderly }
{}

/// And between two settled moments just what was given in between is decided and named, each once.
/// So a run that gives the commands and arrivals of a segment and settles plays that segment.
pub fn segments_are_played()
    ensures { SegmentsArePlayed }
{
    tag_round_trip();
    sends_are_words();
    sends_leave_as_flat();
    steps_tell();
}

/// Of a world that is kept and whose words are bytes and short, each step that may be made is one
/// of which these laws speak, and words stay so: that words are bytes is no premise of a run.
pub fn steps_go_on()
    ensures { StepsGoOn }
{
    steps_stay_written();
}

/// So each run from the beginning is one of which all laws speak, and at its end each word on a
/// link is a list of bytes, and of at most 9,232.
pub fn runs_go_on()
    ensures { RunsGoOn }
{
    tag_round_trip();
    sends_are_words();
    sends_leave_as_flat();
    steps_tell();
    steps_stay_written();
}

/// And so is each run of the world of a valid setup.
pub fn setups_go_on()
    ensures { SetupsGoOn }
{
    tag_round_trip();
    sends_are_words();
    sends_leave_as_flat();
    steps_tell();
    steps_stay_written();
}

/// A run that plays the opening and then the segments of an input, in the eager mode or in a seeded
/// one, each settled and marked, tells a history that the input allows: of each segment the seconds
/// pass in one tick, its commands are given in order, and its arrivals, each once and in any order.
pub fn runs_play_legally()
    ensures { RunsPlayLegally }
{
    tag_round_trip();
    sends_are_words();
    sends_leave_as_flat();
    steps_tell();
    steps_stay_written();
}

/// Where it plays the segments of the eager mode, the seconds of each first, it tells exactly the
/// eager history, whatever the links do.
pub fn runs_play_eagerly()
    ensures { RunsPlayEagerly }
{
    tag_round_trip();
    sends_are_words();
    sends_leave_as_flat();
    steps_tell();
    steps_stay_written();
}

/// Steps that give a segment play it with the settling after them, where that ends settled:
/// settling gives nothing, lets no second pass and marks nothing.
pub fn settling_plays()
    ensures { SettlingPlays }
{}

/// Any steps leave a world standing with what they give, tell and make leave, whatever was given,
/// told and has left before them; its links are clean, and its ageing time stays.
pub fn runs_leave_standing()
    ensures { RunsLeaveStanding }
{
    tag_round_trip();
    sends_are_words();
    sends_leave_as_flat();
    steps_tell();
}

/// They say of each Relay among their events, in order, whether its frame passes in the
/// configuration before it.
pub fn runs_tell_passed()
    ensures { RunsTellPassed }
{
    tag_round_trip();
    sends_are_words();
    sends_leave_as_flat();
    steps_tell();
}

/// What has left each port of a settled world that stands is what the one bridge sends there.
pub fn stands_owes_nothing()
    ensures { StandsOwesNothing }
{}

/// A settled world that is given an arrival or a command, and settles by moves, tells just what
/// becomes of that by its configuration.
pub fn events_are_told()
    ensures { EventsAreTold }
{
    tag_round_trip();
    sends_are_words();
    sends_leave_as_flat();
    steps_tell();
}

/// And just that leaves each port which the one bridge sends there for it.
pub fn events_go_alone()
    ensures { EventsGoAlone }
{
    tag_round_trip();
    sends_are_words();
    sends_leave_as_flat();
    steps_tell();
}
