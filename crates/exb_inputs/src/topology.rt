//! Reading the topology.
ghost use Rattle.std.specs.Prelude.{◌≡◌, ◌⊎◌, Some, Ok, Err, IfOk, IfErr};
ghost use Rattle.exb_model.specs.Setup.{IsValid};
ghost use Rattle.exb_shelf.specs.Files.{SameFiles};
ghost use Rattle.exb_shelf.specs.Shelf.{IsReadingOf, Opens};
ghost use Rattle.exb_topology.specs.Soundness.{IsSound};
ghost use Rattle.exb_topology.specs.Topologies.{topology_of, topology_view};
ghost use Rattle.exb_inputs.specs.Answers.{HoldsTopology, IsRefusal, IsRefused, fault_by};
ghost use Rattle.exb_inputs.specs.FaultPhases.{IsOfTopology};
ghost use Rattle.exb_inputs.specs.ShelfEffects.{CountsFaults};

use crate::captures::missing;
use crate::fault::Fault;
use crate::topology_weight::is_heavy;
use exb_shelf::{ReadFault, Shelf, read_file};
use exb_toml_keys::faults::TopoFault;
use exb_topology::{Topology, read};
use std::alloc::Global;

/// The most bytes of a topology file.
const LIMIT: usize = 16_777_216;

/// Why a run ends where a topology is refused.
fn refused(fault: TopoFault) -> Fault
    ensures { result ≡ fault_by fault }
{
    match fault {
        TopoFault::Memory => Fault::Memory,
        TopoFault::NotToml => Fault::Topology { fault },
        TopoFault::Large => Fault::Topology { fault },
        TopoFault::At { fault, key } => {
            let fault = TopoFault::At { fault, key };
            Fault::Topology { fault }
        }
    }
}

/// What a topology file says. Memory is wanted too where it could take more than there is to be for
/// it.
fn parse(alloc: Global, file: &[u8]) -> Result<Topology, Fault>
    ensures read { IfOk result (λ topology. topology_of file.now ≡ Ok (topology_view topology)) }
    ensures valid { IfOk result (λ topology. IsValid topology.setup) }
    ensures sound { IfOk result IsSound }
    ensures refused { IfErr result (λ fault. IsRefusal file.now fault ⊎ (fault ≡ Fault.Memory)) }
{
    if is_heavy(file) {
        return Err(Fault::Memory);
    }
    match read(alloc, file) {
        Ok(topology) => Ok(topology),
        Err(fault) => Err(refused(fault)),
    }
}

/// Reads the bytes of the topology file of this name.
#[tactic(auto, using(crate::proofs::UnreadTopology::large_refused))]
fn read_bytes<S: Shelf>(alloc: Global, shelf: &mut S, name: &str) -> Result<Vec<u8>, Fault>
    ensures there { S.tells → IfOk result (λ file. S.file shelf.old name.now ≡ Some file.items) }
    ensures refused { S.tells
        → IfErr result (λ fault. IsRefused name.now (S.file shelf.old name.now) fault
        ⊎ (fault ≡ Fault.Read) ⊎ (fault ≡ Fault.Memory)) }
    ensures causes { IfErr result IsOfTopology }
    ensures opened { Opens (IsReadingOf name.now) (S.ids shelf.old) (S.ids shelf.new) }
    ensures files { SameFiles (S.file shelf.old) (S.file shelf.new) }
    ensures faults { CountsFaults result (S.faults shelf.old) (S.faults shelf.new) }
{
    match read_file(alloc, shelf, name, LIMIT) {
        Ok(file) => Ok(file),
        Err(ReadFault::Missing) => Err(missing(alloc, name)),
        Err(ReadFault::Large) => {
            let fault = TopoFault::Large;
            Err(Fault::Topology { fault })
        }
        Err(ReadFault::Failed) => Err(Fault::Read),
        Err(ReadFault::Memory) => Err(Fault::Memory),
    }
}

/// Reads the topology file of this name.
pub fn read_topology<S: Shelf>(alloc: Global, shelf: &mut S, name: &str) -> Result<Topology, Fault>
    ensures read { S.tells → IfOk result (HoldsTopology name.now (S.file shelf.old)) }
    ensures valid { IfOk result (λ topology. IsValid topology.setup) }
    ensures sound { IfOk result IsSound }
    ensures refused { S.tells
        → IfErr result (λ fault. IsRefused name.now (S.file shelf.old name.now) fault
        ⊎ (fault ≡ Fault.Read) ⊎ (fault ≡ Fault.Memory)) }
    ensures causes { IfErr result IsOfTopology }
    ensures opened { Opens (IsReadingOf name.now) (S.ids shelf.old) (S.ids shelf.new) }
    ensures files { SameFiles (S.file shelf.old) (S.file shelf.new) }
    ensures faults { CountsFaults result (S.faults shelf.old) (S.faults shelf.new) }
{
    let file = read_bytes(alloc, shelf, name)?;
    parse(alloc, file.as_slice())
}
