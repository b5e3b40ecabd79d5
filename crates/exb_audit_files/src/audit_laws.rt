//! What holds of every audit. Each law is a function that does nothing and ensures it.
ghost use Rattle.exb_audit_files.specs.AuditLaws.{HasOneEnd};
ghost use Rattle.exb_audit_files.specs.RunFiles.{RunsAreFoundLegal};

use exb_audit::laws::flat_can_be_written;
use exb_capture::laws::written_is_read;
use exb_trace_spec::laws::{journals_are_lines, legal_lines_are_spelled, traces_read_back};

/// One thing stops an audit, and nothing where it finds the trace legal.
pub fn audits_have_one_end()
    ensures { HasOneEnd }
{}

/// What a run of a topology wrote is found legal: where its captures are good and all is within the
/// limits, no file and no rule stops its audit.
pub fn runs_are_found_legal()
    ensures { RunsAreFoundLegal }
{
    legal_lines_are_spelled();
    journals_are_lines();
    traces_read_back();
    written_is_read();
    flat_can_be_written();
}
