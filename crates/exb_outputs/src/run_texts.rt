//! All that a world tells, written in the files of its kinds.
ghost use Rattle.std.specs.Prelude.{ℕ, List, All, OnErr, OnOk};
ghost use Rattle.exb_model.specs.FlatBridge.{Sent};
ghost use Rattle.exb_shelf.specs.Files.{Files};
ghost use Rattle.exb_journal.specs.declared.file_names.OutputKind.{OutputKind};
ghost use Rattle.exb_outputs.specs.CaptureSizes.{AreCountedAt, HasSent};
ghost use Rattle.exb_outputs.specs.ShelfEffects.{CountsWrites, OnlyWrites};
ghost use Rattle.exb_outputs.specs.WrittenTexts.{AreCut, HasTexts, IsReady, pieces_of};
ghost use Rattle.exb_outputs.specs.Counts.{AreCountsOf};
ghost use Rattle.exb_outputs.specs.SentFrames.{CanBeWritten, sent_with};
ghost use Rattle.exb_outputs.specs.TextUpdates.{with_end, with_told};

use crate::counter_lines::write_counters;
use crate::journal_lines::write_events;
use crate::sent_frames::write_left;
use crate::trace_lines::write_trace;
use crate::{Manifest, Outputs};
use exb_counters::Counters;
use exb_journal::JournalScratch;
use exb_model::event::Event;
use exb_model::trace::TraceLine;
use exb_shelf::{Shelf, ShelfFault};
use exb_world::Left;
use std::alloc::Global;

/// Room for one line of the journal and for one of the trace.
#[derive(Drop)]
pub struct LineScratch {
    line: JournalScratch,
    text: Vec<u8>,
}

impl LineScratch {
    /// Room that grows with what is put there.
    pub fn new(alloc: Global) -> LineScratch {
        LineScratch {
            line: JournalScratch::new(alloc),
            text: Vec::new(alloc),
        }
    }
}

/// Writes what was told: the events, the frames that left, and the lines of the trace.
#[inline(always)]
pub fn write_told<S: Shelf>(
    shelf: &mut S,
    manifest: &Manifest,
    outputs: &mut Outputs,
    room: &mut LineScratch,
    events: &[Event],
    left: &[Left],
    lines: &[TraceLine],
) -> Result<(), ShelfFault>
    requires ready { IsReady manifest.now (S.ids shelf.old) outputs.old }
    requires frames { All (λ x. CanBeWritten manifest.now x) left.now }
    ensures ready { IsReady manifest.now (S.ids shelf.new) outputs.new }
    ensures texts { S.tells → OnOk result ((orig : Files) (text : OutputKind → List ℕ)
        → HasTexts manifest.now (pieces_of outputs.old) orig (S.file shelf.old) text
        → HasTexts manifest.now (pieces_of outputs.new) orig (S.file shelf.new)
        (with_told text events.now left.now lines.now)) }
    ensures cut { S.tells → OnErr result ((orig : Files) (text : OutputKind → List ℕ)
        → HasTexts manifest.now (pieces_of outputs.old) orig (S.file shelf.old) text
        → AreCut manifest.now orig (S.file shelf.new)
        (with_told text events.now left.now lines.now)) }
    ensures sent { OnOk result ((sent : ℕ → List Sent) → HasSent manifest.now outputs.old sent
        → HasSent manifest.now outputs.new (sent_with sent left.now)) }
    ensures only { OnlyWrites S.tells manifest.now (S.file shelf.old) (S.file shelf.new)
        (S.ids shelf.old) (S.ids shelf.new) }
    ensures faults { CountsWrites result (S.faults shelf.old) (S.faults shelf.new) }
{
    write_events(shelf, manifest, outputs, &mut room.line, events)?;
    write_left(shelf, manifest, outputs, left)?;
    write_trace(shelf, manifest, outputs, &mut room.text, lines)
}

/// Writes what stands in files once nothing more is told: the counters, where they are asked for.
pub fn write_end<S: Shelf>(
    shelf: &mut S,
    manifest: &Manifest,
    outputs: &mut Outputs,
    room: &mut LineScratch,
    ports: &Option<Counters>,
) -> Result<(), ShelfFault>
    requires ready { IsReady manifest.now (S.ids shelf.old) outputs.old }
    requires counted { AreCountsOf manifest.now ports.now }
    requires sent { AreCountedAt manifest.now outputs.old }
    ensures ready { IsReady manifest.now (S.ids shelf.new) outputs.new }
    ensures texts { S.tells → OnOk result ((orig : Files) (text : OutputKind → List ℕ)
        → HasTexts manifest.now (pieces_of outputs.old) orig (S.file shelf.old) text
        → HasTexts manifest.now (pieces_of outputs.new) orig (S.file shelf.new)
        (with_end text manifest.now ports.now outputs.old)) }
    ensures cut { S.tells → OnErr result ((orig : Files) (text : OutputKind → List ℕ)
        → HasTexts manifest.now (pieces_of outputs.old) orig (S.file shelf.old) text
        → AreCut manifest.now orig (S.file shelf.new)
        (with_end text manifest.now ports.now outputs.old)) }
    ensures only { OnlyWrites S.tells manifest.now (S.file shelf.old) (S.file shelf.new)
        (S.ids shelf.old) (S.ids shelf.new) }
    ensures faults { CountsWrites result (S.faults shelf.old) (S.faults shelf.new) }
{
    match ports {
        Some(counters) => write_counters(shelf, manifest, outputs, &mut room.text, counters),
        None => Ok(()),
    }
}
