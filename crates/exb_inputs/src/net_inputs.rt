//! Reading a net: its file, the topologies that this names, and its wires.
ghost use Rattle.std.specs.Prelude.{◌≡◌, ◌≤◌, ◌⊎◌, ℕ, List, Some, Ok, All, IfOk, IfErr, length, map};
ghost use Rattle.exb_model.specs.Setup.{IsValid};
ghost use Rattle.exb_shelf.specs.Files.{SameFiles};
ghost use Rattle.exb_shelf.specs.Shelf.{IsReadingOf, Opens};
ghost use Rattle.exb_topology.specs.Soundness.{IsSound};
ghost use Rattle.exb_net_file.specs.NetFiles.{IsNetFile, net_file_of};
ghost use Rattle.exb_net_file.specs.Soundness.{AreValid, MakesNets};
ghost use Rattle.exb_net_file.specs.Wires.{wires_of};
ghost use Rattle.exb_inputs.specs.declared.fault.Fault.{Fault};
ghost use Rattle.exb_inputs.specs.ShelfEffects.{CountsFaults};
ghost use Rattle.exb_inputs.specs.NetContents.{AreRead, HoldsMember, HoldsMembers, HoldsNet, HoldsNetFile};
ghost use Rattle.exb_inputs.specs.OpenedNetFiles.{OpensNet, OpensTopologies};
ghost use Rattle.exb_inputs.specs.NetFaultPhases.{IsOfNet};
ghost use Rattle.exb_inputs.specs.NetRefusals.{FirstRefused, IsFileRefused, IsNetRefusal, IsNetRefused, IsOwnRefusal};

use crate::member_faults::{of_member, refused};
use crate::{Fault, missing, read_topology};
use exb_model::list::List;
use exb_model::text::Text;
use exb_net_file::{NetBridge, NetFile, NetMember, NetWire, read, wired};
use exb_net_spec::wires::Wire;
use exb_shelf::{ReadFault, Shelf, read_file};
use exb_toml_keys::faults::TopoFault;
use std::alloc::Global;

/// The most bytes of the file of a net.
const LIMIT: usize = 1_048_576;

/// What a net is given: its bridges, each with its topology, and its wires.
#[derive(Drop)]
pub struct NetInputs {
    pub members: List<NetMember>,
    pub wires: List<Wire>,
}

/// What the file of a net says.
fn parse(alloc: Global, file: &[u8]) -> Result<NetFile, Fault>
    ensures read { IfOk result (λ net. net_file_of file.now ≡ Ok net) }
    ensures sound { IfOk result IsNetFile }
    ensures refused { IfErr result (λ fault. IsNetRefusal (net_file_of file.now) fault
        ⊎ (fault ≡ Fault.Memory)) }
{
    match read(alloc, file) {
        Ok(net) => Ok(net),
        Err(fault) => Err(refused(fault)),
    }
}

/// Reads the bytes of the file of a net.
#[tactic(auto, using(crate::proofs::MemberFaults::large_refused))]
fn read_bytes<S: Shelf>(alloc: Global, shelf: &mut S, name: &str) -> Result<Vec<u8>, Fault>
    ensures there { S.tells → IfOk result (λ file. S.file shelf.old name.now ≡ Some file.items) }
    ensures refused { S.tells
        → IfErr result (λ fault. IsFileRefused name.now (S.file shelf.old name.now) fault
        ⊎ (fault ≡ Fault.Read) ⊎ (fault ≡ Fault.Memory)) }
    ensures causes { IfErr result IsOfNet }
    ensures opened { Opens (IsReadingOf name.now) (S.ids shelf.old) (S.ids shelf.new) }
    ensures files { SameFiles (S.file shelf.old) (S.file shelf.new) }
    ensures faults { CountsFaults result (S.faults shelf.old) (S.faults shelf.new) }
{
    match read_file(alloc, shelf, name, LIMIT) {
        Ok(file) => Ok(file),
        Err(ReadFault::Missing) => Err(missing(alloc, name)),
        Err(ReadFault::Large) => {
            let fault = TopoFault::Large;
            Err(Fault::Net { fault })
        }
        Err(ReadFault::Failed) => Err(Fault::Read),
        Err(ReadFault::Memory) => Err(Fault::Memory),
    }
}

/// Reads the file of a net.
fn read_net_file<S: Shelf>(alloc: Global, shelf: &mut S, name: &str) -> Result<NetFile, Fault>
    ensures read { S.tells → IfOk result (HoldsNetFile name.now (S.file shelf.old)) }
    ensures sound { IfOk result IsNetFile }
    ensures refused { S.tells
        → IfErr result (λ fault. IsFileRefused name.now (S.file shelf.old name.now) fault
        ⊎ (fault ≡ Fault.Read) ⊎ (fault ≡ Fault.Memory)) }
    ensures causes { IfErr result IsOfNet }
    ensures opened { Opens (IsReadingOf name.now) (S.ids shelf.old) (S.ids shelf.new) }
    ensures files { SameFiles (S.file shelf.old) (S.file shelf.new) }
    ensures faults { CountsFaults result (S.faults shelf.old) (S.faults shelf.new) }
{
    let file = read_bytes(alloc, shelf, name)?;
    parse(alloc, file.as_slice())
}

/// Reads the topology of a bridge.
fn read_member<S: Shelf>(
    alloc: Global,
    shelf: &mut S,
    bridge: &NetBridge,
) -> Result<NetMember, Fault>
    ensures read { S.tells → IfOk result (HoldsMember (S.file shelf.old) bridge.now) }
    ensures name { IfOk result (λ member. member.name ≡ bridge.now.name) }
    ensures valid { IfOk result (λ member. IsValid member.topology.setup) }
    ensures sound { IfOk result (λ member. IsSound member.topology) }
    ensures refused { S.tells
        → IfErr result (λ fault. IsOwnRefusal (S.file shelf.old) bridge.now fault
        ⊎ (fault ≡ Fault.Read) ⊎ (fault ≡ Fault.Memory)) }
    ensures causes { IfErr result IsOfNet }
    ensures opened { Opens (IsReadingOf bridge.now.topology) (S.ids shelf.old) (S.ids shelf.new) }
    ensures files { SameFiles (S.file shelf.old) (S.file shelf.new) }
    ensures faults { CountsFaults result (S.faults shelf.old) (S.faults shelf.new) }
{
    let name = bridge.name.as_str();
    match read_topology(alloc, shelf, bridge.topology.as_str()) {
        Err(fault) => Err(of_member(alloc, name, fault)),
        Ok(topology) => match Text::from_str(alloc, name) {
            Ok(name) => Ok(NetMember { name, topology }),
            Err(_) => {
                // By a call, since a block's end is far longer to prove where it lets a topology
                // go.
                drop(topology);
                Err(Fault::Memory)
            }
        },
    }
}

/// Reads the topologies of these bridges, in order, up to the first that is missing or refused.
fn read_members<S: Shelf>(
    alloc: Global,
    shelf: &mut S,
    bridges: &[NetBridge],
) -> Result<List<NetMember>, Fault>
    ensures read { S.tells → IfOk result (HoldsMembers bridges.now (S.file shelf.old)) }
    ensures names { IfOk result (λ members. map (λ m. m.name) members
        ≡ map (λ b. b.name) bridges.now) }
    ensures valid { IfOk result AreValid }
    ensures sound { IfOk result (λ members. All (λ m. IsSound m.topology) members) }
    ensures refused { S.tells
        → IfErr result (λ fault. FirstRefused bridges.now (S.file shelf.old) fault
        ⊎ (fault ≡ Fault.Read) ⊎ (fault ≡ Fault.Memory)) }
    ensures causes { IfErr result IsOfNet }
    ensures opened { OpensTopologies S.tells bridges.now (S.file shelf.old) result (S.ids shelf.old)
        (S.ids shelf.new) }
    ensures files { SameFiles (S.file shelf.old) (S.file shelf.new) }
    ensures faults { CountsFaults result (S.faults shelf.old) (S.faults shelf.new) }
{
    let mut members = List::new(alloc);
    'reading: for bridge in bridges {
        let member = read_member(alloc, shelf, bridge)?;
        members.push(member)?;
    }
    Ok(members)
}

/// The wires of bridges that were read.
fn wire_all(alloc: Global, members: &[NetMember], wires: &[NetWire]) -> Result<List<Wire>, Fault>
    requires valid { AreValid members.now }
    requires few { length members.now ≤ 16 }
    ensures wired { IfOk result (λ joined. wires_of members.now wires.now ≡ Ok joined) }
    ensures nets { IfOk result (MakesNets members.now) }
    ensures refused { IfErr result (λ fault. IsNetRefusal (wires_of members.now wires.now) fault
        ⊎ (fault ≡ Fault.Memory)) }
{
    match wired(alloc, members, wires) {
        Ok(joined) => Ok(joined),
        Err(fault) => Err(refused(fault)),
    }
}

/// Reads what the file of a net names: the topology of each bridge in order, and its wires over all
/// of them. Another function owns what the file says, since an early end is far longer to prove
/// where it lets it go.
fn read_named<S: Shelf>(alloc: Global, shelf: &mut S, net: &NetFile) -> Result<NetInputs, Fault>
    requires sound { IsNetFile net.now }
    ensures read { S.tells → (name : List ℕ) → HoldsNetFile name (S.file shelf.old) net.now
        → IfOk result (λ inputs. HoldsNet name (S.file shelf.old) inputs.members inputs.wires) }
    ensures sound { IfOk result (λ inputs. AreRead inputs.members inputs.wires) }
    ensures names { IfOk result (λ inputs. map (λ m. m.name) inputs.members
        ≡ map (λ b. b.name) net.now.bridges) }
    ensures refused { S.tells → (name : List ℕ) → HoldsNetFile name (S.file shelf.old) net.now
        → IfErr result (λ fault. IsNetRefused name (S.file shelf.old) fault ⊎ (fault ≡ Fault.Read)
        ⊎ (fault ≡ Fault.Memory)) }
    ensures causes { IfErr result IsOfNet }
    ensures opened { OpensTopologies S.tells net.now.bridges (S.file shelf.old) result
        (S.ids shelf.old) (S.ids shelf.new) }
    ensures files { SameFiles (S.file shelf.old) (S.file shelf.new) }
    ensures faults { CountsFaults result (S.faults shelf.old) (S.faults shelf.new) }
{
    let bridges = net.bridges.as_slice();
    let members = read_members(alloc, shelf, bridges)?;
    let joined = members.as_slice();
    let written = net.wires.as_slice();
    match wire_all(alloc, joined, written) {
        Ok(wires) => Ok(NetInputs { members, wires }),
        Err(fault) => {
            drop(members);
            Err(fault)
        }
    }
}

/// Reads a net: the file of this name, then the topology of each bridge in order, and its wires
/// over all of them.
pub fn read_net<S: Shelf>(alloc: Global, shelf: &mut S, name: &str) -> Result<NetInputs, Fault>
    ensures read { S.tells
        → IfOk result (λ net. HoldsNet name.now (S.file shelf.old) net.members net.wires) }
    ensures sound { IfOk result (λ net. AreRead net.members net.wires) }
    ensures refused { S.tells
        → IfErr result (λ fault. IsNetRefused name.now (S.file shelf.old) fault
        ⊎ (fault ≡ Fault.Read) ⊎ (fault ≡ Fault.Memory)) }
    ensures causes { IfErr result IsOfNet }
    ensures opened { OpensNet S.tells name.now (S.file shelf.old) result (S.ids shelf.old)
        (S.ids shelf.new) }
    ensures files { SameFiles (S.file shelf.old) (S.file shelf.new) }
    ensures faults { CountsFaults result (S.faults shelf.old) (S.faults shelf.new) }
{
    let net = read_net_file(alloc, shelf, name)?;
    let inputs = read_named(alloc, shelf, &net);
    drop(net);
    inputs
}
