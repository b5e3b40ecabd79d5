//! Lines of the trace.
ghost use Rattle.std.specs.Prelude.{◌≡◌, ◌++◌, ◌∷◌, [], ℕ, List, true, OnErr, OnOk};
ghost use Rattle.exb_model.specs.Traces.{trace_line, trace_text};
ghost use Rattle.exb_shelf.specs.Files.{Files};
ghost use Rattle.exb_journal.specs.declared.file_names.OutputKind.{OutputKind};
ghost use Rattle.exb_journal.specs.declared.file_names.OutputKind.TheVariants as output;
ghost use Rattle.exb_outputs.specs.CaptureSizes.{SameCaptures};
ghost use Rattle.exb_outputs.specs.ShelfEffects.{CountsWrites, OnlyWrites};
ghost use Rattle.exb_outputs.specs.WrittenTexts.{AreCut, HasTexts, IsReady, pieces_of, with_more};

use crate::{Manifest, Outputs};
use exb_journal::{OutputKind, write_trace_line};
use exb_model::trace::TraceLine;
use exb_shelf::{Shelf, ShelfFault};

/// Puts a line behind the trace, which is asked for.
#[cold]
#[inline(never)]
fn add_line<S: Shelf>(
    shelf: &mut S,
    manifest: &Manifest,
    outputs: &mut Outputs,
    line: &mut Vec<u8>,
    one: &TraceLine,
) -> Result<(), ShelfFault>
    requires traced { manifest.now.options.trace ≡ true }
    requires ready { IsReady manifest.now (S.ids shelf.old) outputs.old }
    ensures ready { IsReady manifest.now (S.ids shelf.new) outputs.new }
    ensures texts { S.tells → OnOk result ((orig : Files) (text : OutputKind → List ℕ)
        → HasTexts manifest.now (pieces_of outputs.old) orig (S.file shelf.old) text
        → HasTexts manifest.now (pieces_of outputs.new) orig (S.file shelf.new)
        (with_more text output.Trace (trace_line one.now ++ 10 ∷ []))) }
    ensures cut { S.tells → OnErr result ((orig : Files) (text : OutputKind → List ℕ)
        → HasTexts manifest.now (pieces_of outputs.old) orig (S.file shelf.old) text
        → AreCut manifest.now orig (S.file shelf.new)
        (with_more text output.Trace (trace_line one.now ++ 10 ∷ []))) }
    ensures same { OnOk result (SameCaptures manifest.now outputs.old outputs.new) }
    ensures only { OnlyWrites S.tells manifest.now (S.file shelf.old) (S.file shelf.new)
        (S.ids shelf.old) (S.ids shelf.new) }
    ensures faults { CountsWrites result (S.faults shelf.old) (S.faults shelf.new) }
{
    line.clear();
    if write_trace_line(line, one).is_err() {
        return Err(ShelfFault::Memory);
    }
    outputs.write(shelf, manifest, OutputKind::Trace, line.as_slice())
}

/// Puts lines behind the trace, where it is asked for. `line` is room for one line.
#[inline(always)]
pub fn write_trace<S: Shelf>(
    shelf: &mut S,
    manifest: &Manifest,
    outputs: &mut Outputs,
    line: &mut Vec<u8>,
    lines: &[TraceLine],
) -> Result<(), ShelfFault>
    requires ready { IsReady manifest.now (S.ids shelf.old) outputs.old }
    ensures ready { IsReady manifest.now (S.ids shelf.new) outputs.new }
    ensures texts { S.tells → OnOk result ((orig : Files) (text : OutputKind → List ℕ)
        → HasTexts manifest.now (pieces_of outputs.old) orig (S.file shelf.old) text
        → HasTexts manifest.now (pieces_of outputs.new) orig (S.file shelf.new)
        (with_more text output.Trace (trace_text lines.now))) }
    ensures cut { S.tells → OnErr result ((orig : Files) (text : OutputKind → List ℕ)
        → HasTexts manifest.now (pieces_of outputs.old) orig (S.file shelf.old) text
        → AreCut manifest.now orig (S.file shelf.new)
        (with_more text output.Trace (trace_text lines.now))) }
    ensures same { OnOk result (SameCaptures manifest.now outputs.old outputs.new) }
    ensures only { OnlyWrites S.tells manifest.now (S.file shelf.old) (S.file shelf.new)
        (S.ids shelf.old) (S.ids shelf.new) }
    ensures faults { CountsWrites result (S.faults shelf.old) (S.faults shelf.new) }
{
    if !manifest.options().trace {
        return Ok(());
    }
    for one in lines {
        add_line(shelf, manifest, outputs, line, one)?;
    }
    Ok(())
}
