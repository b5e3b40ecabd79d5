//! The bridges of a net as they are made of their setups.
ghost use Rattle.std.specs.Prelude.{All, ◌≡◌, ◌∷◌, ◌++◌, ◌+◌, [], ◌<◌, OnOk, length};
ghost use Rattle.exb_model.specs.Setup.{IsValid};
ghost use Rattle.exb_net.specs.PairedLists.{AreEach};
ghost use Rattle.exb_net.specs.Assembly.{AreFirst};

use crate::node::Node;
use exb_fate::Fate;
use exb_model::memory::NoMemory;
use exb_net_spec::wires::NetSetup;
use std::alloc::Global;

/// Puts the next bridge behind those that are made, with this fate.
fn make_one(
    alloc: Global,
    setup: &NetSetup,
    fate: Box<dyn Fate>,
    nodes: &mut Vec<Node>,
) -> Result<(), NoMemory>
    requires valid { All IsValid setup.now.setups }
    requires within { length nodes.old.items < length setup.now.setups }
    ensures ok { OnOk result (AreFirst setup.now.wires setup.now.setups nodes.old.items
        → AreFirst setup.now.wires setup.now.setups nodes.new.items) }
    ensures long { OnOk result (length nodes.new.items ≡ length nodes.old.items + 1) }
    ensures fate { OnOk result ((fs : _) → AreEach (λ b f x. left x.fate ≡ left f) fs
        nodes.old.items → AreEach (λ b f x. left x.fate ≡ left f) (fs ++ fate ∷ [])
        nodes.new.items) }
{
    let bridge = nodes.len();
    let setups = setup.setups.as_slice();
    let wires = setup.wires.as_slice();
    let node = Node::new(alloc, bridge, &setups[bridge], wires, fate)?;
    nodes.push(node)?;
    Ok(())
}

/// Makes a bridge of each setup, with the fate at its place.
pub(crate) fn make_all(
    alloc: Global,
    setup: &NetSetup,
    fates: &mut Vec<Box<dyn Fate>>,
    nodes: &mut Vec<Node>,
) -> Result<(), NoMemory>
    requires valid { All IsValid setup.now.setups }
    requires whole { length fates.old.items ≡ length setup.now.setups }
    requires none { nodes.old.items ≡ [] }
    ensures ok { OnOk result (AreFirst setup.now.wires setup.now.setups nodes.new.items) }
    ensures long { OnOk result (length nodes.new.items ≡ length setup.now.setups) }
    ensures fates { OnOk result (AreEach (λ b f x. left x.fate ≡ left f) fates.old.items
        nodes.new.items) }
{
    for _bridge in 0..setup.setups.as_slice().len() {
        make_one(alloc, setup, fates.remove(0), nodes)?;
    }
    Ok(())
}
