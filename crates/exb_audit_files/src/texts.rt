//! The lines of a journal and of a trace.
ghost use Rattle.std.specs.Prelude.{◌≡◌, ◌⊎◌, IfOk, IfErr};
ghost use Rattle.exb_trace_spec.specs.JournalLines.{entry_in};
ghost use Rattle.exb_trace_spec.specs.TraceTexts.{read_line};
ghost use Rattle.exb_shelf.specs.Files.{SameFiles};
ghost use Rattle.exb_shelf.specs.Shelf.{IsReadingOf, Opens};
ghost use Rattle.exb_audit_files.specs.Lines.{CountsLines, HoldsLines, IsJournal, IsLinesFault, IsTrace};

use crate::lines::read_lines;
use exb_model::bytes::Bytes;
use exb_model::trace::TraceLine;
use exb_shelf::Shelf;
use std::alloc::Global;

/// Why a text can't be read line by line.
#[derive(Clone, Copy, Debug)]
pub enum LinesFault {
    /// Memory ran out.
    Memory,
    /// The shelf failed.
    Read,
    /// There is no such file.
    Missing,
    /// It has more bytes than the limit.
    Large,
    /// The line of this number, from 1, is the first that isn't in its grammar or has no newline.
    Bad { number: u64 },
}

/// Reads a journal of at most `limit` bytes, line by line. It is read in pieces.
///
/// Where the files are told, it answers its lines without their newlines; Missing only where there
/// is no such file; Large exactly where it has more bytes than the limit; and else Bad exactly
/// where a line isn't in the grammar of a journal, or the last one has no newline, with the number
/// of the first such line.
pub fn read_journal<S: Shelf>(
    alloc: Global,
    shelf: &mut S,
    name: &str,
    limit: u32,
) -> Result<Vec<Bytes>, LinesFault>
    ensures lines { S.tells
        → IfOk result (λ lines. HoldsLines IsJournal limit (S.file shelf.old name.now)
        lines.items) }
    ensures refused { S.tells
        → IfErr result (λ fault. IsLinesFault entry_in limit (S.file shelf.old name.now) fault
        ⊎ (fault ≡ LinesFault.Read) ⊎ (fault ≡ LinesFault.Memory)) }

    // What is opened, and what stays.
    ensures opened { Opens (IsReadingOf name.now) (S.ids shelf.old) (S.ids shelf.new) }
    ensures files { SameFiles (S.file shelf.old) (S.file shelf.new) }

    ensures faults { CountsLines result (S.faults shelf.old) (S.faults shelf.new) }
{
    read_lines(alloc, shelf, name, limit)
}

/// Reads a trace of at most `limit` bytes, line by line. It is read in pieces.
///
/// Where the files are told, it answers its lines; and its faults are those of a journal, by the
/// grammar of a trace.
pub fn read_trace<S: Shelf>(
    alloc: Global,
    shelf: &mut S,
    name: &str,
    limit: u32,
) -> Result<Vec<TraceLine>, LinesFault>
    ensures lines { S.tells
        → IfOk result (λ lines. HoldsLines IsTrace limit (S.file shelf.old name.now) lines.items) }
    ensures refused { S.tells
        → IfErr result (λ fault. IsLinesFault read_line limit (S.file shelf.old name.now) fault
        ⊎ (fault ≡ LinesFault.Read) ⊎ (fault ≡ LinesFault.Memory)) }

    // What is opened, and what stays.
    ensures opened { Opens (IsReadingOf name.now) (S.ids shelf.old) (S.ids shelf.new) }
    ensures files { SameFiles (S.file shelf.old) (S.file shelf.new) }

    ensures faults { CountsLines result (S.faults shelf.old) (S.faults shelf.new) }
{
    read_lines(alloc, shelf, name, limit)
}
