//! What one bridge of a net writes and counts.
ghost use Rattle.std.specs.Prelude.{◌≡◌, ◌∷◌, ℕ, List, [], All, OnErr, OnOk};
ghost use Rattle.exb_world_spec.specs.Steps.{Stepped};
ghost use Rattle.exb_model.specs.FlatBridge.{Sent};
ghost use Rattle.exb_shelf.specs.Files.{Files};
ghost use Rattle.exb_journal.specs.declared.file_names.OutputKind.{OutputKind};
ghost use Rattle.exb_journal.specs.declared.file_names.OutputKind.TheVariants as output;
ghost use Rattle.exb_journal.specs.Tallies.{FitsTally, counts_of};
ghost use Rattle.exb_outputs.specs.CaptureSizes.{AreCountedAt, HasSent};
ghost use Rattle.exb_outputs.specs.ShelfEffects.{CountsWrites, OnlyWrites};
ghost use Rattle.exb_outputs.specs.WrittenTexts.{AreCut, HasTexts, IsReady, lines_of, pieces_of, with_more};
ghost use Rattle.exb_outputs.specs.Counts.{AreCountsOf, GoTogether, counts_text};
ghost use Rattle.exb_outputs.specs.SentFrames.{CanBeWritten, sent_with, with_left_frames};
ghost use Rattle.exb_net.specs.WrittenOutputs.{AreFronts, CanNote, IsMore, IsNoted, IsWhole, text_of};
ghost use Rattle.exb_net.specs.Summaries.{added};

use exb_journal::{JournalScratch, Tally};
use exb_outputs::{Manifest, Outputs, RunCounts, write_counters, write_events, write_left};
use exb_schedule::{World, count_left};
use exb_shelf::{Shelf, ShelfFault};

/// Room for a line of a journal and for one of counters.
#[derive(Drop)]
pub(crate) struct NetLineScratch {
    pub(crate) line: JournalScratch,
    pub(crate) text: Vec<u8>,
}

/// The files of a bridge, and what is counted of it.
#[derive(Drop)]
pub(crate) struct BridgeOutputs {
    pub(crate) manifest: Manifest,
    pub(crate) outputs: Outputs,
    pub(crate) counted: RunCounts,
}

/// Writes what a bridge told, and what left it, since its world was cleared.
fn write_new<S: Shelf>(
    shelf: &mut S,
    room: &mut NetLineScratch,
    manifest: &Manifest,
    outputs: &mut Outputs,
    world: &World,
) -> Result<(), ShelfFault>
    requires ready { IsReady manifest.now (S.ids shelf.old) outputs.old }
    requires frames { All (λ x. CanBeWritten manifest.now x) world.now.log.left }
    ensures ready { IsReady manifest.now (S.ids shelf.new) outputs.new }
    ensures texts { S.tells → OnOk result ((orig : Files) (text : OutputKind → List ℕ)
        → HasTexts manifest.now (pieces_of outputs.old) orig (S.file shelf.old) text
        → HasTexts manifest.now (pieces_of outputs.new) orig (S.file shelf.new)
        (with_left_frames (with_more text output.Journal (lines_of world.now.log.events))
        world.now.log.left)) }
    ensures cut { S.tells → OnErr result ((orig : Files) (text : OutputKind → List ℕ)
        → HasTexts manifest.now (pieces_of outputs.old) orig (S.file shelf.old) text
        → AreCut manifest.now orig (S.file shelf.new)
        (with_left_frames (with_more text output.Journal (lines_of world.now.log.events))
        world.now.log.left)) }
    ensures sent { OnOk result ((sent : ℕ → List Sent) → HasSent manifest.now outputs.old sent
        → HasSent manifest.now outputs.new (sent_with sent world.now.log.left)) }
    ensures only { OnlyWrites S.tells manifest.now (S.file shelf.old) (S.file shelf.new)
        (S.ids shelf.old) (S.ids shelf.new) }
    ensures faults { CountsWrites result (S.faults shelf.old) (S.faults shelf.new) }
{
    write_events(shelf, manifest, outputs, &mut room.line, world.events())?;
    write_left(shelf, manifest, outputs, world.left())
}

/// Writes and counts what a bridge told, and what left it, since its world was cleared.
pub(crate) fn note<S: Shelf>(
    shelf: &mut S,
    room: &mut NetLineScratch,
    desk: &mut BridgeOutputs,
    world: &World,
) -> Result<(), ShelfFault>
    requires ready { IsReady desk.old.manifest (S.ids shelf.old) desk.old.outputs }
    requires can { CanNote desk.old.manifest desk.old.counted world.now }
    ensures manifest { desk.new.manifest ≡ desk.old.manifest }
    ensures ready { IsReady desk.new.manifest (S.ids shelf.new) desk.new.outputs }
    ensures noted { OnOk result ((told done : Stepped) → GoTogether told.events told.passed
        → IsMore told done world.now
        → IsNoted S.tells (S.file shelf.old) desk.old told
        → IsNoted S.tells (S.file shelf.new) desk.new done) }
    ensures cut { S.tells → OnErr result ((told done : Stepped) → IsMore told done world.now
        → IsNoted S.tells (S.file shelf.old) desk.old told
        → AreFronts desk.old.manifest (S.file shelf.new) done) }
    ensures only { OnlyWrites S.tells desk.old.manifest (S.file shelf.old) (S.file shelf.new)
        (S.ids shelf.old) (S.ids shelf.new) }
    ensures faults { CountsWrites result (S.faults shelf.old) (S.faults shelf.new) }
{
    write_new(shelf, room, &desk.manifest, &mut desk.outputs, world)?;
    desk.counted.note(
        world.events(),
        world.passed(),
        count_left(world.left()) as usize,
    );
    Ok(())
}

/// Writes the counters of a bridge, where they are asked for.
fn write_counts<S: Shelf>(
    shelf: &mut S,
    room: &mut NetLineScratch,
    manifest: &Manifest,
    outputs: &mut Outputs,
    counted: &RunCounts,
) -> Result<(), ShelfFault>
    requires ready { IsReady manifest.now (S.ids shelf.old) outputs.old }
    requires counted { AreCountsOf manifest.now counted.now.ports }
    requires sent { AreCountedAt manifest.now outputs.old }
    ensures ready { IsReady manifest.now (S.ids shelf.new) outputs.new }
    ensures texts { S.tells → OnOk result ((orig : Files) (text : OutputKind → List ℕ)
        → HasTexts manifest.now (pieces_of outputs.old) orig (S.file shelf.old) text
        → HasTexts manifest.now (pieces_of outputs.new) orig (S.file shelf.new)
        (with_more text output.Counters (counts_text manifest.now counted.now.ports outputs.old))) }
    ensures cut { S.tells → OnErr result ((orig : Files) (text : OutputKind → List ℕ)
        → HasTexts manifest.now (pieces_of outputs.old) orig (S.file shelf.old) text
        → AreCut manifest.now orig (S.file shelf.new)
        (with_more text output.Counters (counts_text manifest.now counted.now.ports outputs.old))) }
    ensures only { OnlyWrites S.tells manifest.now (S.file shelf.old) (S.file shelf.new)
        (S.ids shelf.old) (S.ids shelf.new) }
    ensures faults { CountsWrites result (S.faults shelf.old) (S.faults shelf.new) }
{
    match &counted.ports {
        Some(counters) => write_counters(shelf, manifest, outputs, &mut room.text, counters),
        None => Ok(()),
    }
}

/// Writes the counters of a bridge, where they are asked for, and all that isn't written yet.
pub(crate) fn finish<S: Shelf>(
    shelf: &mut S,
    room: &mut NetLineScratch,
    desk: &mut BridgeOutputs,
) -> Result<(), ShelfFault>
    requires ready { IsReady desk.old.manifest (S.ids shelf.old) desk.old.outputs }
    requires counted { AreCountsOf desk.old.manifest desk.old.counted.ports }
    requires sent { AreCountedAt desk.old.manifest desk.old.outputs }
    ensures manifest { desk.new.manifest ≡ desk.old.manifest }
    ensures counted { desk.new.counted ≡ desk.old.counted }
    ensures texts { S.tells → OnOk result ((done : Stepped)
        → IsNoted S.tells (S.file shelf.old) desk.old done
        → IsWhole desk.old.manifest (S.file shelf.new)
        (text_of done (counts_text desk.old.manifest desk.old.counted.ports desk.old.outputs))) }
    ensures cut { S.tells → OnErr result ((done : Stepped)
        → IsNoted S.tells (S.file shelf.old) desk.old done
        → AreFronts desk.old.manifest (S.file shelf.new) done) }
    ensures only { OnlyWrites S.tells desk.old.manifest (S.file shelf.old) (S.file shelf.new)
        (S.ids shelf.old) (S.ids shelf.new) }
    ensures faults { CountsWrites result (S.faults shelf.old) (S.faults shelf.new) }
{
    write_counts(
        shelf,
        room,
        &desk.manifest,
        &mut desk.outputs,
        &desk.counted,
    )?;
    desk.outputs.finish(shelf, &desk.manifest)
}

/// Adds what one bridge counted to what those before it did.
pub(crate) fn add(total: &mut Tally, tally: &Tally)
    requires { FitsTally (added (counts_of total.old ∷ counts_of tally.now ∷ [])) }
    ensures { counts_of total.new ≡ added (counts_of total.old ∷ counts_of tally.now ∷ []) }
{
    total.relayed += tally.relayed;
    total.ignored += tally.ignored;
    total.left += tally.left;
    total.commits += tally.commits;
    total.refusals += tally.refusals;
}
