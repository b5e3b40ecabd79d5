//! What is true of every step and every run of the world.
ghost use Rattle.exb_world_spec.specs.Runs.SessionLaws.{BeginsSound, StepsStaySound, RunsStaySound, ControlGoesOn, SettledIsAtRest, RoundsAreSteps, SettledExactly, TakingLeavesItsDirection, DirectionsGoInOrder, SetupsBeginSound};
ghost use Rattle.exb_world_spec.specs.Runs.Journal.{StepsTellByKind, StepsTellJobs, RunsTellJobs, JournalDecidesOnce, SetupsDecideOnce, IdleTellsAll};
ghost use Rattle.exb_world_spec.specs.Runs.Requests.{AsksCanBeSent};
ghost use Rattle.exb_world_spec.specs.Runs.Stamps.{DataIsStamped, CarriesTellOnce, ExtendersIgnore};
ghost use Rattle.exb_world_spec.specs.Runs.PassedFrames.{StepsTellPassed};
ghost use Rattle.exb_world_spec.specs.Runs.FrameBytes.{BeginsWritten, StepsStayWritten, WrittenAreShort};

use exb_control_spec::laws::{held_are_numbers, ready_midway, steps_tell};
use exb_frame::laws::tag_round_trip;
use exb_relay::laws::sends_are_words;

/// The world is sound as it begins: nothing is on its links, no request was asked, and the machine
/// of changes stands beside the tables of all extenders.
pub fn begins_sound()
    ensures { BeginsSound }
{}

/// Each step keeps the world sound, whatever frames and control messages do on their way as bytes.
/// Each request on a link or in an end of the transport is one that was asked of the extender to
/// which it goes: none has a later serial, and the one with the last serial is the outstanding one.
/// Each answer there is one that its extender stored. For the machine of changes the step is
/// nothing or one step, and the events of jobs that the world tells are those of that step.
pub fn steps_stay_sound()
    ensures { StepsStaySound }
{
    tag_round_trip();
}

/// So each run of the world is a run of the machine of changes, and all laws over its runs hold. It
/// gives the commands of that run, and the events of jobs in its history are those of that run.
pub fn runs_stay_sound()
    ensures { RunsStaySound }
{
    tag_round_trip();
}

/// In a sound world each message that the machine of changes asks at an answer, an announcement, a
/// command or a beat goes to an extender of the tree, can be written, fits and is short, where the
/// serials after the step fit their field.
pub fn asks_can_be_sent()
    ensures { AsksCanBeSent }
{}

/// As a world begins, what stands on its links and what the ends of the transport send is bytes,
/// and short.
pub fn begins_written()
    ensures { BeginsWritten }
{}

/// Each step that may be made keeps it, where a frame that arrives is a list of bytes and PVIDs are
/// VLANs: so that words are bytes is no premise of a run.
pub fn steps_stay_written()
    ensures { StepsStayWritten }
{
    tag_round_trip();
    sends_are_words();
    ready_midway();
    held_are_numbers();
}

/// So each word on a link is a list of bytes, and of at most 9,232.
pub fn written_are_short()
    ensures { WrittenAreShort }
{}

/// A control frame for a deeper extender is sent on towards it as it is, at its port without the
/// E-TAG, and nowhere else.
pub fn control_goes_on()
    ensures { ControlGoesOn }
{
    tag_round_trip();
}

/// Where a world is settled just what is held is laid in the tables of all extenders, and just what
/// the configuration needs is held.
pub fn settled_is_at_rest()
    ensures { SettledIsAtRest }
{}

/// Rounds and settling are made of steps in which words are carried, delivered or lost, and of
/// beats, alone.
pub fn rounds_are_steps()
    ensures { RoundsAreSteps }
{}

/// The test of a settled world passes exactly where the world is settled.
pub fn settled_exactly()
    ensures { SettledExactly }
{}

/// Whoever takes a word puts none on the direction from which it came; so the words that stand
/// there when a round reaches it are those that it goes through.
pub fn taking_leaves_its_direction()
    ensures { TakingLeavesItsDirection }
{}

/// Where just control words stand before a word, that word is the next one, and may be taken.
pub fn directions_go_in_order()
    ensures { DirectionsGoInOrder }
{}

/// The world of each valid setup is sound as it begins.
pub fn setups_begin_sound()
    ensures { SetupsBeginSound }
{}

/// The events of a step, by its kind.
pub fn steps_tell_by_kind()
    ensures { StepsTellByKind }
{}

/// A step says of each Relay among its events, in order, whether its frame passes in the
/// configuration before the step, and of no more frames.
pub fn steps_tell_passed()
    ensures { StepsTellPassed }
{}

/// Each step tells of jobs what those tell that it decides, in order, and no more; and just the
/// ports that their commands made go down are forgotten.
pub fn steps_tell_jobs()
    ensures { StepsTellJobs }
{
    tag_round_trip();
    steps_tell();
}

/// So it is over each run.
pub fn runs_tell_jobs()
    ensures { RunsTellJobs }
{
    tag_round_trip();
    steps_tell();
}

/// Over each run from the beginning each job is decided once, in order, and the journal tells so: a
/// command is refused exactly where the configuration that those before it left refuses it, with
/// the cause of that; else it commits.
pub fn journal_decides_once()
    ensures { JournalDecidesOnce }
{
    tag_round_trip();
    steps_tell();
}

/// So it is over each run of the world of a valid setup.
pub fn setups_decide_once()
    ensures { SetupsDecideOnce }
{
    tag_round_trip();
    steps_tell();
}

/// Where such a run ends with an empty queue and no change at work, all its commands and all ups of
/// the extenders' ports are decided.
pub fn idle_tells_all()
    ensures { IdleTellsAll }
{}

/// Over each run from the beginning each data word on a link has a stamp.
pub fn data_is_stamped()
    ensures { DataIsStamped }
{}

/// So of a data word that the bridge takes exactly one event is told, with its stamp, where an
/// external port holds its channel.
pub fn carries_tell_once()
    ensures { CarriesTellOnce }
{}

/// In a sound world an extender ignores a frame that arrives at an external port exactly where the
/// port has no channel or the frame is short, long or reserved. A port that has a channel holds it.
pub fn extenders_ignore()
    ensures { ExtendersIgnore }
{}
