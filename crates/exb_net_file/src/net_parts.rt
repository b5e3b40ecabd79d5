//! The parts of a net as they are played: its setups and wires, and beside them what else is said
//! of each bridge.
ghost use Rattle.std.specs.Prelude.{◌≡◌, ◌∷◌, ◌++◌, [], IfOk, OnOk, map, reverse};
ghost use Rattle.exb_net_file.specs.SetupParts.{IsTakenApart, rest_of, setup_in};

use crate::members::NetMember;
use exb_model::list::List;
use exb_model::memory::NoMemory;
use exb_model::setup::{Setup, Timed, Verdict};
use exb_model::text::Text;
use exb_net_spec::wires::{NetSetup, Wire};
use exb_topology::{Named, Topology};
use std::alloc::Global;

/// What is said of a bridge of a net beside its setup. Its outputs have a prefix of the net's, so
/// that of its topology is gone.
#[derive(Drop)]
pub struct BridgeInputs {
    pub name: Text,
    /// The commands, by the second at which they come.
    pub commands: List<Timed>,
    /// What becomes of the first control frames.
    pub fate: List<Verdict>,
    /// The captures that are read, each for an external port.
    pub captures: List<Named>,
}

/// The setups and wires of a net, and what else is said of each bridge, in the order of the file.
#[derive(Drop)]
pub struct NetParts {
    pub setup: NetSetup,
    pub rests: List<BridgeInputs>,
}

/// The last one first.
fn turned(alloc: Global, members: &mut List<NetMember>) -> Result<List<NetMember>, NoMemory>
    ensures { IfOk result (λ back. back ≡ reverse members.old) }
{
    let mut back = List::new(alloc);
    while let Some(member) = members.pop() {
        back.push(member)?;
    }
    Ok(back)
}

/// Puts the parts of a bridge behind those of the bridges before it.
fn part(
    member: NetMember,
    setups: &mut List<Setup>,
    rests: &mut List<BridgeInputs>,
) -> Result<(), NoMemory>
    ensures setups { OnOk result (setups.new ≡ setups.old ++ setup_in member ∷ []) }
    ensures rests { OnOk result (rests.new ≡ rests.old ++ rest_of member ∷ []) }
{
    let NetMember { name, topology } = member;
    let Topology {
        setup,
        commands,
        fate,
        captures,
        prefix: _,
    } = topology;
    setups.push(setup)?;
    rests.push(BridgeInputs {
        name,
        commands,
        fate,
        captures,
    })
}

/// So the parts of all bridges, of which the first stands at the end.
fn part_all(
    back: &mut List<NetMember>,
    setups: &mut List<Setup>,
    rests: &mut List<BridgeInputs>,
) -> Result<(), NoMemory>
    ensures setups { OnOk result (setups.new ≡ setups.old ++ map setup_in (reverse back.old)) }
    ensures rests { OnOk result (rests.new ≡ rests.old ++ map rest_of (reverse back.old)) }
{
    while let Some(member) = back.pop() {
        part(member, setups, rests)?;
    }
    Ok(())
}

/// Takes the bridges of a net apart, of which the wires are known.
pub fn take_apart(
    alloc: Global,
    members: List<NetMember>,
    wires: List<Wire>,
) -> Result<NetParts, NoMemory>
    ensures { IfOk result (λ parts. IsTakenApart members wires parts) }
{
    let mut members = members;
    let mut back = turned(alloc, &mut members)?;
    let mut setups = List::new(alloc);
    let mut rests = List::new(alloc);
    part_all(&mut back, &mut setups, &mut rests)?;
    Ok(NetParts {
        setup: NetSetup { setups, wires },
        rests,
    })
}
