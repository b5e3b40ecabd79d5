//! That what a run writes is read back and judged legal.
ghost use Rattle.exb_audit.specs.Audits.{RunsAreAudited};
ghost use Rattle.exb_audit.specs.FlatCaptures.{FlatCanBeWritten};

use exb_capture::laws::written_is_read;
use exb_trace_spec::checker_laws::all_are_judged;
use exb_trace_spec::laws::{journals_are_lines, legal_lines_are_spelled, traces_read_back};

/// Each frame that the one bridge sends can be written into a capture, where the moments of its
/// history can be.
pub fn flat_can_be_written()
    ensures { FlatCanBeWritten }
{}

/// The texts that a run wrote are in their grammars, and what is read back from them is judged
/// legal.
pub fn runs_are_audited()
    ensures { RunsAreAudited }
{
    all_are_judged();
    legal_lines_are_spelled();
    journals_are_lines();
    traces_read_back();
    written_is_read();
    flat_can_be_written();
}
