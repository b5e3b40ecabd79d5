//! Events as lines of the journal.
ghost use Rattle.std.specs.Prelude.{◌++◌, ◌∷◌, [], ℕ, List, OnErr, OnOk};
ghost use Rattle.exb_model.specs.Texts.{line_of};
ghost use Rattle.exb_shelf.specs.Files.{Files};
ghost use Rattle.exb_journal.specs.declared.file_names.OutputKind.{OutputKind};
ghost use Rattle.exb_journal.specs.declared.file_names.OutputKind.TheVariants as output;
ghost use Rattle.exb_outputs.specs.CaptureSizes.{SameCaptures};
ghost use Rattle.exb_outputs.specs.ShelfEffects.{CountsWrites, OnlyWrites};
ghost use Rattle.exb_outputs.specs.WrittenTexts.{AreCut, HasTexts, IsReady, lines_of, pieces_of, with_more};

use crate::{Manifest, Outputs};
use exb_journal::{JournalScratch, OutputKind};
use exb_model::event::Event;
use exb_shelf::{Shelf, ShelfFault};

/// Puts the line of an event behind the journal.
#[inline(always)]
fn add_event<S: Shelf>(
    shelf: &mut S,
    manifest: &Manifest,
    outputs: &mut Outputs,
    room: &mut JournalScratch,
    event: &Event,
) -> Result<(), ShelfFault>
    requires ready { IsReady manifest.now (S.ids shelf.old) outputs.old }
    ensures ready { IsReady manifest.now (S.ids shelf.new) outputs.new }
    ensures texts { S.tells → OnOk result ((orig : Files) (text : OutputKind → List ℕ)
        → HasTexts manifest.now (pieces_of outputs.old) orig (S.file shelf.old) text
        → HasTexts manifest.now (pieces_of outputs.new) orig (S.file shelf.new)
        (with_more text output.Journal (line_of event.now ++ 10 ∷ []))) }
    ensures cut { S.tells → OnErr result ((orig : Files) (text : OutputKind → List ℕ)
        → HasTexts manifest.now (pieces_of outputs.old) orig (S.file shelf.old) text
        → AreCut manifest.now orig (S.file shelf.new)
        (with_more text output.Journal (line_of event.now ++ 10 ∷ []))) }
    ensures same { OnOk result (SameCaptures manifest.now outputs.old outputs.new) }
    ensures only { OnlyWrites S.tells manifest.now (S.file shelf.old) (S.file shelf.new)
        (S.ids shelf.old) (S.ids shelf.new) }
    ensures faults { CountsWrites result (S.faults shelf.old) (S.faults shelf.new) }
{
    match room.line(event) {
        Ok(line) => outputs.write(shelf, manifest, OutputKind::Journal, line),
        Err(_) => Err(ShelfFault::Memory),
    }
}

/// Puts the lines of events behind the journal, one after another.
#[inline(never)]
fn write_each<S: Shelf>(
    shelf: &mut S,
    manifest: &Manifest,
    outputs: &mut Outputs,
    room: &mut JournalScratch,
    events: &[Event],
) -> Result<(), ShelfFault>
    requires ready { IsReady manifest.now (S.ids shelf.old) outputs.old }
    ensures ready { IsReady manifest.now (S.ids shelf.new) outputs.new }
    ensures texts { S.tells → OnOk result ((orig : Files) (text : OutputKind → List ℕ)
        → HasTexts manifest.now (pieces_of outputs.old) orig (S.file shelf.old) text
        → HasTexts manifest.now (pieces_of outputs.new) orig (S.file shelf.new)
        (with_more text output.Journal (lines_of events.now))) }
    ensures cut { S.tells → OnErr result ((orig : Files) (text : OutputKind → List ℕ)
        → HasTexts manifest.now (pieces_of outputs.old) orig (S.file shelf.old) text
        → AreCut manifest.now orig (S.file shelf.new)
        (with_more text output.Journal (lines_of events.now))) }
    ensures same { OnOk result (SameCaptures manifest.now outputs.old outputs.new) }
    ensures only { OnlyWrites S.tells manifest.now (S.file shelf.old) (S.file shelf.new)
        (S.ids shelf.old) (S.ids shelf.new) }
    ensures faults { CountsWrites result (S.faults shelf.old) (S.faults shelf.new) }
{
    for event in events {
        add_event(shelf, manifest, outputs, room, event)?;
    }
    Ok(())
}

/// Puts the lines of events behind the journal: those of a frame at once.
#[inline(always)]
pub fn write_events<S: Shelf>(
    shelf: &mut S,
    manifest: &Manifest,
    outputs: &mut Outputs,
    room: &mut JournalScratch,
    events: &[Event],
) -> Result<(), ShelfFault>
    requires ready { IsReady manifest.now (S.ids shelf.old) outputs.old }
    ensures ready { IsReady manifest.now (S.ids shelf.new) outputs.new }
    ensures texts { S.tells → OnOk result ((orig : Files) (text : OutputKind → List ℕ)
        → HasTexts manifest.now (pieces_of outputs.old) orig (S.file shelf.old) text
        → HasTexts manifest.now (pieces_of outputs.new) orig (S.file shelf.new)
        (with_more text output.Journal (lines_of events.now))) }
    ensures cut { S.tells → OnErr result ((orig : Files) (text : OutputKind → List ℕ)
        → HasTexts manifest.now (pieces_of outputs.old) orig (S.file shelf.old) text
        → AreCut manifest.now orig (S.file shelf.new)
        (with_more text output.Journal (lines_of events.now))) }
    ensures same { OnOk result (SameCaptures manifest.now outputs.old outputs.new) }
    ensures only { OnlyWrites S.tells manifest.now (S.file shelf.old) (S.file shelf.new)
        (S.ids shelf.old) (S.ids shelf.new) }
    ensures faults { CountsWrites result (S.faults shelf.old) (S.faults shelf.new) }
{
    match room.lines(events) {
        Some(lines) => outputs.write(shelf, manifest, OutputKind::Journal, lines),
        None => write_each(shelf, manifest, outputs, room, events),
    }
}
