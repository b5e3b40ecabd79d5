//! What is true of the traces of all runs.
ghost use Rattle.exb_trace_laws.specs.TraceLaws.{BeginsTraced, StepsStayTraced, SettledIsLegal, BeginsServing, StepsStayServing, RunsStayTraced, RunsAreLegal};
ghost use Rattle.exb_trace_laws.specs.RunTraces.{SetupsTellLegally, StandingStaysTraced, RunsTellLegally};
ghost use Rattle.exb_trace_laws.specs.TracePrefixes.{RunsTellSoFar};
ghost use Rattle.exb_trace_laws.specs.JournalHistories.{InputsReadBack, InputsHaveOneHistory, LegalRelaysFit};

use exb_control_spec::laws::{held_are_numbers, ready_midway, steps_tell};
use exb_frame::laws::tag_round_trip;
use exb_relay::laws::{at_most_two, sends_are_words, sends_leave_as_flat};
use exb_world_laws::laws::steps::settled_is_orderly;
use exb_world_spec::laws::{begins_sound, runs_stay_sound, steps_stay_sound, steps_stay_written};

/// Before anything has happened nothing is told, and the world stands beside the empty trace.
pub fn begins_traced()
    ensures { BeginsTraced }
{}

/// Each step keeps the trace legal so far, with the lines of the step behind it: what the journal
/// says, what each extender does, the words of each link in order, the frames of captures and
/// output files, and what the bridge says and sends of each frame that comes to it.
pub fn steps_stay_traced()
    ensures { StepsStayTraced }
{
    sends_are_words();
    at_most_two();
    ready_midway();
    held_are_numbers();
}

/// As the world begins no external port is a cascade port, and each port awaits its first record.
pub fn begins_serving()
    ensures { BeginsServing }
{}

/// Each step keeps that: whatever requests an extender executes, none of its external ports becomes
/// a cascade port; each port awaits the index of its next record; and each data word on its way up
/// has the stamp of a record, which is its frame without the E-TAG.
pub fn steps_stay_serving()
    ensures { StepsStayServing }
{
    tag_round_trip();
    sends_are_words();
    at_most_two();
    ready_midway();
    held_are_numbers();
    steps_stay_sound();
    runs_stay_sound();
}

/// In a settled world no word is on its way, and the trace is legal whole.
pub fn settled_is_legal()
    ensures { SettledIsLegal }
{}

/// So it is over each run.
pub fn runs_stay_traced()
    ensures { RunsStayTraced }
{
    begins_traced();
    steps_stay_traced();
    settled_is_legal();
    begins_sound();
    runs_stay_sound();
    steps_stay_serving();
}

/// A run from the beginning to a settled world has a legal trace: of its journal, of the frames
/// that arrived at each external port, and of those that left there.
pub fn runs_are_legal()
    ensures { RunsAreLegal }
{
    begins_traced();
    steps_stay_traced();
    settled_is_legal();
    begins_sound();
    runs_stay_sound();
    steps_stay_serving();
}

/// Over all steps that may be made of a valid setup the trace is legal so far, and whole where the
/// world is settled: each of its worlds is ready to tell, since PVIDs stay VLANs and links stay
/// clean.
pub fn setups_tell_legally()
    ensures { SetupsTellLegally }
{
    tag_round_trip();
    sends_are_words();
    sends_leave_as_flat();
    steps_tell();
    steps_stay_written();
    begins_traced();
    begins_serving();
    begins_sound();
    runs_stay_traced();
    settled_is_legal();
}

/// From each world that a run of a valid setup reaches, and with whatever history, files and trace
/// it stands and is tied to: any steps keep it tied to the trace with their lines behind it. A
/// world says of itself that it is reached.
pub fn standing_stays_traced()
    ensures { StandingStaysTraced }
{
    tag_round_trip();
    sends_are_words();
    sends_leave_as_flat();
    steps_tell();
    steps_stay_written();
    steps_stay_sound();
    runs_stay_traced();
}

/// The trace of a run that plays an input, in the eager mode or in a seeded one, is legal whole: of
/// the history that it told, of the captures of the input, and of what one VLAN bridge sends at
/// each external port over that history.
pub fn runs_tell_legally()
    ensures { RunsTellLegally }
{
    tag_round_trip();
    sends_are_words();
    sends_leave_as_flat();
    steps_tell();
    steps_stay_written();
    settled_is_orderly();
    setups_tell_legally();
}

/// Wherever a run that plays an input, in the eager mode or in a seeded one, has played some
/// segments: the history that it told is legal so far, each external port has what one VLAN bridge
/// sends there over that history, and the trace is legal of it, of the frames that have arrived and
/// of those that were sent.
pub fn runs_tell_so_far()
    ensures { RunsTellSoFar }
{
    tag_round_trip();
    sends_are_words();
    sends_leave_as_flat();
    steps_tell();
    steps_stay_written();
    setups_tell_legally();
}

/// The text of a journal that an input allows, and that input, give the history: each Relay is of
/// an arrival of the input.
pub fn inputs_read_back()
    ensures { InputsReadBack }
{}

/// So an input allows one history with a journal's text.
pub fn inputs_have_one_history()
    ensures { InputsHaveOneHistory }
{}

/// The moments of a history that an input allows can be written into a capture, where those of the
/// input's records can.
pub fn legal_relays_fit()
    ensures { LegalRelaysFit }
{}
