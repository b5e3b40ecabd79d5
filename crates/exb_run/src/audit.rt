//! Judging what a run wrote.
ghost use Rattle.std.specs.Prelude.{Some};
ghost use Rattle.exb_cli.specs.CommandLines.{Audit};
ghost use Rattle.exb_inputs.specs.Answers.{status_of};
ghost use Rattle.exb_inputs.specs.ShelfEffects.{CountsFaults};
ghost use Rattle.exb_run.specs.OpenedFiles.{OpensBy};
ghost use Rattle.exb_run.specs.Outcomes.{CameOut};

use exb_audit_files::audit;
use exb_inputs::{Fault, read_topology};
use exb_shelf::Shelf;
use std::alloc::Global;

/// Reads the topology of this name and what a run of it wrote, and answers the line that says that
/// its trace is legal.
pub(crate) fn audit_topology<S: Shelf>(
    alloc: Global,
    shelf: &mut S,
    name: &str,
) -> Result<String, Fault>
    ensures came { CameOut S.tells (Some (Audit name.now)) result (S.file shelf.old)
        (S.file shelf.new) }
    ensures opens { OpensBy S.tells (status_of result) (Some (Audit name.now)) (S.file shelf.old)
        (S.ids shelf.old) (S.ids shelf.new) }
    ensures faults { CountsFaults result (S.faults shelf.old) (S.faults shelf.new) }
{
    let topology = read_topology(alloc, shelf, name)?;
    let audited = audit(alloc, shelf, &topology);
    // By a call, since a block's end is far longer to prove where it lets a topology go.
    drop(topology);
    audited
}
