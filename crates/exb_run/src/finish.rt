//! Bringing what was written to where it is to stay.
ghost use Rattle.std.specs.Prelude.{◌≡◌, ℕ, OnOk, OnErr};
ghost use Rattle.exb_inputs.specs.ShelfEffects.{CountsFaults};
ghost use Rattle.exb_run.specs.Outcomes.{IsFinished};
ghost use Rattle.exb_shelf.specs.Files.{SameFiles};

use exb_inputs::Fault;
use exb_shelf::Shelf;

/// Where all was played and written, brings it to where it is to stay, as to the disk, and answers
/// the same, or why that failed.
pub(crate) fn finished<S: Shelf>(
    shelf: &mut S,
    played: Result<String, Fault>,
) -> Result<String, Fault>
    ensures ends { IsFinished played result }
    ensures files { SameFiles (S.file shelf.old) (S.file shelf.new) }
    ensures ids { (j : ℕ) → S.ids shelf.new j ≡ S.ids shelf.old j }
    ensures faults { OnOk played (CountsFaults result (S.faults shelf.old) (S.faults shelf.new)) }
    ensures none { OnErr played (S.faults shelf.new ≡ S.faults shelf.old) }
{
    let line = played?;
    shelf.finish()?;
    Ok(line)
}
