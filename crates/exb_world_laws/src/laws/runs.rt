//! What is true of the runs of a valid setup.
ghost use Rattle.exb_world_laws.specs.Runs.Settling.{RunsAreReady, RunsStayLow, Settles, SettlingAlwaysPlays};
ghost use Rattle.exb_world_laws.specs.Runs.Crossings.{LeavesMayCross, CommandsSendNothing, CrossingsMayArrive};
ghost use Rattle.exb_world_laws.specs.Runs.OneBridge.{EventsLast, PlaysStand, RunsLast};
ghost use Rattle.exb_world_laws.specs.Runs.SegmentRuns.{RunsAreFew, RunsAreUnderWay, RunsSayPassed, RunsWriteLegally, RunsWriteEagerly, RunsWriteFronts};

use crate::laws::steps::settled_is_orderly;
use exb_control_spec::laws::steps_tell;
use exb_frame::laws::tag_round_trip;
use exb_relay::laws::{sends_are_words, sends_leave_as_flat};
use exb_world_spec::laws::steps_stay_written;

/// Every world that a run of a valid setup reaches, whatever arrives, is ordered, lost, repeated or
/// overtaken, keeps the facts that the bound on settling asks, and each serial is below 2 to the
/// power of 38.
pub fn runs_are_ready()
    ensures { RunsAreReady }
{
    tag_round_trip();
    sends_are_words();
    sends_leave_as_flat();
    steps_tell();
    steps_stay_written();
}

/// So that serials fit their field is no premise of a run.
pub fn runs_stay_low()
    ensures { RunsStayLow }
{
    tag_round_trip();
    sends_are_words();
    sends_leave_as_flat();
    steps_tell();
    steps_stay_written();
}

/// From every world that a run of a valid setup reaches settling ends settled, whatever the
/// verdicts are, of which at most b aren't Pass: within 64 rounds for each of them, for each
/// exchange that is planned, and for one more.
pub fn settles()
    ensures { Settles }
{
    tag_round_trip();
    sends_are_words();
    sends_leave_as_flat();
    steps_tell();
    steps_stay_written();
}

/// So steps that give a segment, from a world that a run of a valid setup reaches, play it with the
/// settling after them: that settling ends settled is no premise of playing.
pub fn settling_always_plays()
    ensures { SettlingAlwaysPlays }
{
    tag_round_trip();
    sends_are_words();
    sends_leave_as_flat();
    steps_tell();
    steps_stay_written();
}

/// Of a run that has played the opening and some segments of an input, in either mode, the next
/// index of each port, the number of commands and the clock follow what was played, and each frame
/// that has left is a copy of one of its arrivals.
pub fn runs_are_under_way()
    ensures { RunsAreUnderWay }
{
    tag_round_trip();
    sends_are_words();
    sends_leave_as_flat();
    steps_tell();
    steps_stay_written();
}

/// In such a run each arrival was relayed or ignored, once, each command took effect or was
/// refused, once, a port has sent at most one frame for each arrival.
pub fn runs_are_few()
    ensures { RunsAreFew }
{
    tag_round_trip();
    sends_are_words();
    sends_leave_as_flat();
    steps_tell();
    steps_stay_written();
    settled_is_orderly();
}

/// A run that has played all segments of an input, in the eager mode or in a seeded one, told a
/// history that the input allows, and what has left each external port is what one VLAN bridge
/// sends there over it.
pub fn runs_write_legally()
    ensures { RunsWriteLegally }
{
    tag_round_trip();
    sends_are_words();
    sends_leave_as_flat();
    steps_tell();
    steps_stay_written();
    settled_is_orderly();
}

/// Such a run said of each Relay that it told, in order, whether its frame passed in the
/// configuration before it.
pub fn runs_say_passed()
    ensures { RunsSayPassed }
{
    tag_round_trip();
    sends_are_words();
    sends_leave_as_flat();
    steps_tell();
    steps_stay_written();
    settled_is_orderly();
}

/// A run that has played all segments of the eager mode told the eager history, and what has left
/// each external port is what one VLAN bridge sends there over it.
pub fn runs_write_eagerly()
    ensures { RunsWriteEagerly }
{
    tag_round_trip();
    sends_are_words();
    sends_leave_as_flat();
    steps_tell();
    steps_stay_written();
    settled_is_orderly();
}

/// A run that has played some segments of the eager mode, so far, told a front of the eager
/// history, and what has left each external port is what one VLAN bridge sends there over that
/// front.
pub fn runs_write_fronts()
    ensures { RunsWriteFronts }
{
    tag_round_trip();
    sends_are_words();
    sends_leave_as_flat();
    steps_tell();
    steps_stay_written();
}

/// What leaves a settled world for one arrival, until it is settled again, leaves at external
/// ports, at each at most once, at the moment of the arrival and with at most 9,220 bytes.
pub fn leaves_may_cross()
    ensures { LeavesMayCross }
{
    tag_round_trip();
    sends_are_words();
    sends_leave_as_flat();
    steps_tell();
    steps_stay_written();
}

/// For a command nothing leaves.
pub fn commands_send_nothing()
    ensures { CommandsSendNothing }
{
    tag_round_trip();
    sends_are_words();
    sends_leave_as_flat();
    steps_tell();
    steps_stay_written();
}

/// A frame of at most 9,220 bytes may arrive at each external port of which fewer than 2 to the
/// power of 63 arrivals came, with its next index.
pub fn crossings_may_arrive()
    ensures { CrossingsMayArrive }
{}

/// From each world that a run of a valid setup reaches any steps leave it standing, with whatever
/// it stood before them, with what they give, tell and make leave. They say which relayed frames
/// passed, and what leaves are copies of what was given, at external ports.
pub fn runs_last()
    ensures { RunsLast }
{
    tag_round_trip();
    sends_are_words();
    sends_leave_as_flat();
    steps_tell();
    steps_stay_written();
}

/// And where it is settled, is given an arrival or a command and settles by moves, it tells just
/// what becomes of that by its configuration, and just that leaves which the one bridge sends for
/// it; with whatever it stood before.
pub fn events_last()
    ensures { EventsLast }
{
    tag_round_trip();
    sends_are_words();
    sends_leave_as_flat();
    steps_tell();
    steps_stay_written();
}

/// A run that has played the opening and some segments of an input stands with what they give, and
/// its links are clean.
pub fn plays_stand()
    ensures { PlaysStand }
{
    tag_round_trip();
    sends_are_words();
    sends_leave_as_flat();
    steps_tell();
    steps_stay_written();
}
