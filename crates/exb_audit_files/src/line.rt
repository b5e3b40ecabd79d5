//! A line of a text, by its grammar.
ghost use Rattle.std.specs.Prelude.{◌≡◌, ℕ, List, Option, IfOk};

use exb_audit::{is_entry, read_line};
use exb_model::bytes::Bytes;
use exb_model::memory::NoMemory;
use exb_model::trace::TraceLine;
use std::alloc::Global;

/// What a line of a text is read as.
pub(crate) trait Line: Drop {
    /// What a line without its newline is read as; none where it isn't in the grammar.
    ghost reads: { List ℕ → Option Self };

    /// Reads a line without its newline.
    fn read(alloc: Global, line: &[u8]) -> Result<Option<Self>, NoMemory>
        ensures { IfOk result (λ read. read ≡ reads line.now) };
}

/// A line of a journal, kept as its text.
impl Line for Bytes {
    ghost use Rattle.exb_audit_files.specs.LineFeeds.{journal_line};

    ghost reads = { journal_line };

    fn read(alloc: Global, line: &[u8]) -> Result<Option<Bytes>, NoMemory> {
        if !is_entry(line) {
            return Ok(None);
        }
        Ok(Some(Bytes::from_slice(alloc, line)?))
    }
}

/// A line of a trace.
impl Line for TraceLine {
    ghost use Rattle.exb_trace_spec.specs.TraceTexts.{read_line};

    ghost reads = { read_line };

    fn read(alloc: Global, line: &[u8]) -> Result<Option<TraceLine>, NoMemory> {
        read_line(alloc, line)
    }
}
