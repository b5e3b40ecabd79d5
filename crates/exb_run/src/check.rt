//! What a topology needs.
ghost use Rattle.std.specs.Prelude.{◌≡◌, Some, IfOk, IfErr, string_bytes};
ghost use Rattle.exb_model.specs.Setup.{IsValid, limits_of};
ghost use Rattle.exb_capacity.specs.Lines.{lines_of};
ghost use Rattle.exb_capacity.specs.NeededNumbers.{needs_of};
ghost use Rattle.exb_cli.specs.CommandLines.{Check};
ghost use Rattle.exb_inputs.specs.Answers.{status_of};
ghost use Rattle.exb_run.specs.OpenedFiles.{OpensBy};
ghost use Rattle.exb_run.specs.Outcomes.{CameOut};
ghost use Rattle.exb_inputs.specs.ShelfEffects.{CountsFaults};

use exb_capacity::Needs;
use exb_inputs::{Fault, read_topology};
use exb_model::setup::Setup;
use exb_shelf::Shelf;
use std::alloc::Global;

/// The two lines that say what a setup needs.
fn lines_of(alloc: Global, setup: &Setup) -> Result<String, Fault>
    requires { IsValid setup.now }
    ensures lines { IfOk result (λ lines. string_bytes lines
        ≡ lines_of (needs_of setup.now) (limits_of setup.now)) }
    ensures memory { IfErr result (λ fault. fault ≡ Fault.Memory) }
{
    let needs = Needs::of(alloc, setup)?;
    Ok(needs.lines(alloc, setup)?)
}

/// Reads the topology of this name, and answers the lines that say what it needs.
pub(crate) fn check_topology<S: Shelf>(
    alloc: Global,
    shelf: &mut S,
    name: &str,
) -> Result<String, Fault>
    ensures came { CameOut S.tells (Some (Check name.now)) result (S.file shelf.old)
        (S.file shelf.new) }
    ensures opens { OpensBy S.tells (status_of result) (Some (Check name.now)) (S.file shelf.old)
        (S.ids shelf.old) (S.ids shelf.new) }
    ensures faults { CountsFaults result (S.faults shelf.old) (S.faults shelf.new) }
{
    let topology = read_topology(alloc, shelf, name)?;
    let lines = lines_of(alloc, &topology.setup);
    // By a call, since a block's end is far longer to prove where it lets a topology go.
    drop(topology);
    lines
}
