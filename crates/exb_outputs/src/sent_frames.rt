//! What leaves goes behind the captures of its ports.
ghost use Rattle.std.specs.Prelude.{◌≡◌, ◌++◌, ℕ, List, OnErr, OnOk, All};
ghost use Rattle.exb_shelf.specs.Files.{Files};
ghost use Rattle.exb_model.specs.FlatBridge.{Sent};
ghost use Rattle.exb_model.specs.Texts.{record_text as record_of};
ghost use Rattle.exb_journal.specs.declared.file_names.OutputKind.{OutputKind};
ghost use Rattle.exb_bridge.specs.BridgeWorlds.{copies_of};
ghost use Rattle.exb_outputs.specs.ShelfEffects.{CountsWrites, OnlyWrites};
ghost use Rattle.exb_outputs.specs.CaptureSizes.{HasSent};
ghost use Rattle.exb_outputs.specs.WrittenTexts.{AreCut, HasTexts, IsReady, pieces_of};
ghost use Rattle.exb_outputs.specs.SentFrames.{CanBeWritten, sent_with, sent_with_copies, with_copies, with_left_frames};

use crate::{Manifest, Outputs};
use exb_capture::record_text;
use exb_shelf::{Shelf, ShelfFault};
use exb_world::Left;

/// Puts a record, of which what stands before the frame's bytes is given, behind the capture of
/// each port of a row.
#[inline(always)]
fn write_row<S: Shelf>(
    shelf: &mut S,
    manifest: &Manifest,
    outputs: &mut Outputs,
    left: &Left,
    head: &[u8; 16],
) -> Result<(), ShelfFault>
    requires ready { IsReady manifest.now (S.ids shelf.old) outputs.old }
    requires frame { CanBeWritten manifest.now left.now }
    requires head { record_of (left.now.moment, left.now.bytes) ≡ head.now ++ left.now.bytes }
    ensures ready { IsReady manifest.now (S.ids shelf.new) outputs.new }
    ensures texts { S.tells → OnOk result ((orig : Files) (text : OutputKind → List ℕ)
        → HasTexts manifest.now (pieces_of outputs.old) orig (S.file shelf.old) text
        → HasTexts manifest.now (pieces_of outputs.new) orig (S.file shelf.new)
        (with_copies text (copies_of left.now))) }
    ensures cut { S.tells → OnErr result ((orig : Files) (text : OutputKind → List ℕ)
        → HasTexts manifest.now (pieces_of outputs.old) orig (S.file shelf.old) text
        → AreCut manifest.now orig (S.file shelf.new) (with_copies text (copies_of left.now))) }
    ensures sent { OnOk result ((sent : ℕ → List Sent) → HasSent manifest.now outputs.old sent
        → HasSent manifest.now outputs.new (sent_with_copies sent (copies_of left.now))) }
    ensures only { OnlyWrites S.tells manifest.now (S.file shelf.old) (S.file shelf.new)
        (S.ids shelf.old) (S.ids shelf.new) }
    ensures faults { CountsWrites result (S.faults shelf.old) (S.faults shelf.new) }
{
    let bytes = left.bytes.as_slice();
    let mut rest = left.row;
    while let Some(port) = rest.next() {
        outputs.write_record(shelf, manifest, port, head, bytes)?;
    }
    Ok(())
}

/// Puts a frame that left behind the capture of each port of its row. What stands before its bytes
/// is made once.
#[inline(always)]
fn add_left<S: Shelf>(
    shelf: &mut S,
    manifest: &Manifest,
    outputs: &mut Outputs,
    left: &Left,
) -> Result<(), ShelfFault>
    requires ready { IsReady manifest.now (S.ids shelf.old) outputs.old }
    requires frame { CanBeWritten manifest.now left.now }
    ensures ready { IsReady manifest.now (S.ids shelf.new) outputs.new }
    ensures texts { S.tells → OnOk result ((orig : Files) (text : OutputKind → List ℕ)
        → HasTexts manifest.now (pieces_of outputs.old) orig (S.file shelf.old) text
        → HasTexts manifest.now (pieces_of outputs.new) orig (S.file shelf.new)
        (with_copies text (copies_of left.now))) }
    ensures cut { S.tells → OnErr result ((orig : Files) (text : OutputKind → List ℕ)
        → HasTexts manifest.now (pieces_of outputs.old) orig (S.file shelf.old) text
        → AreCut manifest.now orig (S.file shelf.new) (with_copies text (copies_of left.now))) }
    ensures sent { OnOk result ((sent : ℕ → List Sent) → HasSent manifest.now outputs.old sent
        → HasSent manifest.now outputs.new (sent_with_copies sent (copies_of left.now))) }
    ensures only { OnlyWrites S.tells manifest.now (S.file shelf.old) (S.file shelf.new)
        (S.ids shelf.old) (S.ids shelf.new) }
    ensures faults { CountsWrites result (S.faults shelf.old) (S.faults shelf.new) }
{
    if left.row.is_empty() {
        return Ok(());
    }
    let head = record_text(left.moment, left.bytes.as_slice().len() as u32);
    write_row(shelf, manifest, outputs, left, &head)
}

/// Puts frames that left behind the captures of their ports.
#[inline(always)]
pub fn write_left<S: Shelf>(
    shelf: &mut S,
    manifest: &Manifest,
    outputs: &mut Outputs,
    left: &[Left],
) -> Result<(), ShelfFault>
    requires ready { IsReady manifest.now (S.ids shelf.old) outputs.old }
    requires frames { All (λ x. CanBeWritten manifest.now x) left.now }
    ensures ready { IsReady manifest.now (S.ids shelf.new) outputs.new }
    ensures texts { S.tells → OnOk result ((orig : Files) (text : OutputKind → List ℕ)
        → HasTexts manifest.now (pieces_of outputs.old) orig (S.file shelf.old) text
        → HasTexts manifest.now (pieces_of outputs.new) orig (S.file shelf.new)
        (with_left_frames text left.now)) }
    ensures cut { S.tells → OnErr result ((orig : Files) (text : OutputKind → List ℕ)
        → HasTexts manifest.now (pieces_of outputs.old) orig (S.file shelf.old) text
        → AreCut manifest.now orig (S.file shelf.new) (with_left_frames text left.now)) }
    ensures sent { OnOk result ((sent : ℕ → List Sent) → HasSent manifest.now outputs.old sent
        → HasSent manifest.now outputs.new (sent_with sent left.now)) }
    ensures only { OnlyWrites S.tells manifest.now (S.file shelf.old) (S.file shelf.new)
        (S.ids shelf.old) (S.ids shelf.new) }
    ensures faults { CountsWrites result (S.faults shelf.old) (S.faults shelf.new) }
{
    for frame in left {
        add_left(shelf, manifest, outputs, frame)?;
    }
    Ok(())
}
