//! Captures that were checked are opened again.
ghost use Rattle.std.specs.Prelude.{[], ◌≡◌, ◌≤◌, ◌<◌, ◌+◌, ◌++◌, ◌∷◌, ℕ, List, true, false, map, sum_by, IfOk, OnOk, IfErr, IfSome};
ghost use Rattle.std.specs.List.{AllByRecursion};
ghost use Rattle.exb_model.specs.Input.{second_of};
ghost use Rattle.exb_timeline.specs.CaptureMerges.{AreOpened, AreReplays, AreToldSince, HasPort, ids_in, left_in, standings};
ghost use Rattle.exb_timeline.specs.Streams.{Stream};
ghost use Rattle.exb_inputs.specs.CaptureChecks.{AreChecked, IsToldOf, most_bytes};
ghost use Rattle.exb_inputs.specs.ReplayStart.{AreSince, earlier, earliest_told, first_standing, start_told, stream_told};
ghost use Rattle.exb_inputs.specs.Inputs.{is_named};
ghost use Rattle.exb_inputs.specs.ShelfEffects.{ReadsCapture, CountsFaults};
ghost use Rattle.exb_inputs.specs.FaultPhases.{IsChange, IsOfPlay};
ghost use Rattle.exb_shelf.specs.Files.{SameFiles};
ghost use Rattle.exb_shelf.specs.Shelf.{Opens};

use crate::captures::{CheckedCapture, name_of};
use crate::fault::Fault;
use exb_model::moment::SECOND;
use exb_shelf::Shelf;
use exb_timeline::CaptureMerge;
use exb_topology_tables::Named;
use std::alloc::Global;

/// The second of the first record of a capture, and the least of those before it.
fn earlier(least: Option<u64>, told: Option<u64>) -> Option<u64>
    ensures { result ≡ earlier least told }
{
    match (least, told) {
        (None, None) => None,
        (Some(least), None) => Some(least),
        (None, Some(first)) => Some(first / SECOND),
        (Some(least), Some(first)) => Some(least.min(first / SECOND)),
    }
}

/// The least whole second of the first record of any of these captures, with the least of those
/// `before` them, if there is any.
pub fn earliest_in(before: Option<u64>, checked: &[CheckedCapture]) -> Option<u64>
    ensures { result ≡ earliest_told before checked.now }
{
    let mut least = before;
    'telling: for one in checked {
        least = earlier(least, one.told.first);
    }
    least
}

/// The second from which commands count: the least whole second of any first record that was told,
/// or 0.
pub fn start_of(checked: &[CheckedCapture]) -> u64
    ensures { result ≡ start_told checked.now }
{
    earliest_in(None, checked).unwrap_or(0)
}

/// Opens the capture again of which this was told, puts it behind those so far, and looks as far as
/// its first record.
fn open_one<S: Shelf>(
    alloc: Global,
    shelf: &mut S,
    names: &[Named],
    one: &CheckedCapture,
    captures: &mut CaptureMerge,
) -> Result<(), Fault>
    requires opened { AreOpened (S.ids shelf.old) captures.old }
    requires named { is_named names.now one.now.port ≡ true }
    requires port { HasPort one.now.port (standings captures.old) → ⊥ }
    requires small { one.now.told.bytes ≤ most_bytes }
    ensures opened { OnOk result (AreOpened (S.ids shelf.new) captures.new) }
    ensures named { OnOk result (AllByRecursion (λ k. ReadsCapture names.now (S.ids shelf.old k))
        (ids_in captures.old) → AllByRecursion (λ k. ReadsCapture names.now (S.ids shelf.new k))
        (ids_in captures.new)) }
    ensures standings { OnOk result (standings captures.new ≡ standings captures.old
        ++ first_standing one.now ∷ []) }
    ensures left { OnOk result (left_in captures.new ≤ left_in captures.old
        + (one.now.told.bytes + 1)) }
    ensures since { OnOk result ((second : ℕ)
        → IfSome one.now.told.first (λ first. second ≤ second_of first)
        → AreToldSince second captures.old → AreToldSince second captures.new) }
    ensures streams { S.tells → OnOk result (IsToldOf names.now (S.file shelf.old) one.now
        → (streams : List Stream) → AreReplays (S.file shelf.old) (S.ids shelf.old)
        captures.old.sources.items streams
        → AreReplays (S.file shelf.new) (S.ids shelf.new) captures.new.sources.items
        (streams ++ stream_told names.now (S.file shelf.old) one.now ∷ [])) }
    ensures never { S.tells → IfErr result (λ fault. IsChange fault
        → IsToldOf names.now (S.file shelf.old) one.now → ⊥) }
    ensures id { OnOk result ((id : ℕ) × (ids_in captures.new ≡ ids_in captures.old ++ id ∷ [])
        × ((S.ids shelf.old id).given ≡ false)) }
    ensures opens { Opens (ReadsCapture names.now) (S.ids shelf.old) (S.ids shelf.new) }
    ensures files { SameFiles (S.file shelf.old) (S.file shelf.new) }
    ensures port { IfErr result (λ fault. (p at : ℕ) → fault ≡ Fault.Changed p at
        → is_named names.now p ≡ true) }
    ensures causes { IfErr result IsOfPlay }
    ensures faults { CountsFaults result (S.faults shelf.old) (S.faults shelf.new) }
{
    let name = name_of(names, one.port).unwrap();
    captures.add(alloc, shelf, one.port, name, one.told)?;
    Ok(())
}

/// Opens the captures again that are named, in port order, and looks at each as far as its first
/// record.
pub fn open_all<S: Shelf>(
    alloc: Global,
    shelf: &mut S,
    names: &[Named],
    checked: &[CheckedCapture],
) -> Result<CaptureMerge, Fault>
    requires checked { AreChecked S.tells names.now (S.file shelf.old) checked.now }
    ensures opened { IfOk result (AreOpened (S.ids shelf.new)) }
    ensures named { IfOk result (λ captures.
        AllByRecursion (λ k. ReadsCapture names.now (S.ids shelf.new k)) (ids_in captures)) }
    ensures fresh { IfOk result (λ captures. AllByRecursion (λ k. (S.ids shelf.old k).given ≡ false)
        (ids_in captures)) }
    ensures standings { IfOk result (λ captures. standings captures
        ≡ map first_standing checked.now) }
    ensures left { IfOk result (λ captures. left_in captures
        ≤ sum_by (λ c. c.told.bytes + 1) checked.now) }
    ensures since { IfOk result (λ captures. (second : ℕ) → AreSince second checked.now
        → AreToldSince second captures) }
    ensures streams { S.tells → IfOk result (λ captures.
        AreReplays (S.file shelf.new) (S.ids shelf.new) captures.sources.items
        (map (stream_told names.now (S.file shelf.old)) checked.now)) }
    ensures never { S.tells → IfErr result (λ fault. IsChange fault → ⊥) }
    ensures opens { Opens (ReadsCapture names.now) (S.ids shelf.old) (S.ids shelf.new) }
    ensures files { SameFiles (S.file shelf.old) (S.file shelf.new) }
    ensures port { IfErr result (λ fault. (p at : ℕ) → fault ≡ Fault.Changed p at
        → is_named names.now p ≡ true) }
    ensures causes { IfErr result IsOfPlay }
    ensures faults { CountsFaults result (S.faults shelf.old) (S.faults shelf.new) }
{
    let mut captures = CaptureMerge::new(alloc);
    'opening: for one in checked {
        open_one(alloc, shelf, names, one, &mut captures)?;
    }
    Ok(captures)
}
