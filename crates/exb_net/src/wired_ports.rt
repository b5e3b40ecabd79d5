//! The wired ports of a bridge.
ghost use Rattle.std.specs.Prelude.{◌≡◌, ◌++◌, [], if◌then◌else◌, map, IfOk, OnOk};
ghost use Rattle.exb_model.specs.Tree.{external_ports, is_external};
ghost use Rattle.exb_net_spec.specs.Nets.{across, far_end, is_at};
ghost use Rattle.exb_net.specs.WiredPorts.{end_at, ends_over, next_in, with_next};

use exb_model::memory::NoMemory;
use exb_model::port::{PORTS, PortId};
use exb_model::tree::Tree;
use exb_net_spec::wires::{End, Wire};
use std::alloc::Global;

/// A wired port of a bridge: what is at the far end of its wire, and the index of the next frame
/// that arrives at it.
#[derive(Clone, Copy)]
pub struct WiredPort {
    pub port: PortId,
    pub far: End,
    pub next: u64,
}

/// Whether an end is this port of this bridge.
fn is_at(end: End, bridge: usize, port: PortId) -> bool
    ensures { result ≡ is_at end bridge port }
{
    usize::from(end.bridge) == bridge && end.port == port
}

/// The other end of a wire, if one of its ends is this port.
fn across(wire: &Wire, bridge: usize, port: PortId) -> Option<End>
    ensures { result ≡ across wire.now bridge port }
{
    if is_at(wire.a, bridge, port) {
        return Some(wire.b);
    }
    if is_at(wire.b, bridge, port) {
        return Some(wire.a);
    }
    None
}

/// What is wired to a port of a bridge.
#[tactic(auto, using(crate::proofs::WiredPorts::far_next, crate::proofs::WiredPorts::far_none))]
fn far_end(wires: &[Wire], bridge: usize, port: PortId) -> Option<End>
    ensures { result ≡ far_end wires.now bridge port }
{
    for wire in wires {
        if let Some(end) = across(wire, bridge, port) {
            return Some(end);
        }
    }
    None
}

/// Puts a port of a bridge behind others, where it is an external one and wired. No frame has
/// arrived there.
fn add_end(
    wires: &[Wire],
    bridge: usize,
    tree: &Tree,
    port: PortId,
    ends: &mut Vec<WiredPort>,
) -> Result<(), NoMemory>
    ensures { OnOk result (ends.new.items ≡ ends.old.items
        ++ (if is_external tree.now port then end_at 1 port (far_end wires.now bridge port)
        else [])) }
{
    if !tree.is_external(port) {
        return Ok(());
    }
    match far_end(wires, bridge, port) {
        Some(far) => {
            ends.push(WiredPort { port, far, next: 1 })?;
            Ok(())
        }
        None => Ok(()),
    }
}

/// The wired ports of a bridge with this tree, in port order.
pub(crate) fn ends_of(
    alloc: Global,
    wires: &[Wire],
    bridge: usize,
    tree: &Tree,
) -> Result<Vec<WiredPort>, NoMemory>
    ensures { IfOk result (λ ends. ends.items ≡ ends_over wires.now bridge (λ q. 1)
        (external_ports tree.now)) }
{
    let mut ends = Vec::new(alloc);
    for number in 0..PORTS {
        let port = PortId::new(number).unwrap();
        add_end(wires, bridge, tree, port, &mut ends)?;
    }
    Ok(ends)
}

/// The index of the next frame that arrives at a port, 1 where it isn't wired.
#[tactic(auto, using(crate::proofs::WiredPorts::next_next, crate::proofs::WiredPorts::next_none))]
pub(crate) fn next_at(ends: &[WiredPort], port: PortId) -> u64
    ensures { result ≡ next_in ends.now port }
{
    for end in ends {
        if end.port == port {
            return end.next;
        }
    }
    1
}

/// Sets the index of an end, if it is of this port.
fn renumber(end: &mut WiredPort, port: PortId, next: u64)
    ensures { end.new ≡ with_next port next end.old }
{
    if end.port == port {
        end.next = next;
    }
}

/// Sets the index of the next frame that arrives at a port.
pub(crate) fn set_next(ends: &mut Vec<WiredPort>, port: PortId, next: u64)
    ensures { ends.new.items ≡ map (with_next port next) ends.old.items }
{
    for end in ends.iter_mut() {
        renumber(end, port, next);
    }
}
