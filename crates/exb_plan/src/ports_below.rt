//! The ports of extenders below a port of the bridge.
ghost use Rattle.std.specs.Prelude.{◌≡◌, ◌-◌, ◌≤◌};
ghost use Rattle.exb_model.specs.Tree.{is_under, is_cascade_under, cascades_under};

use exb_model::port::{PORTS, PortId};
use exb_model::role::Role;
use exb_model::tree::Tree;

// Whether a port is a cascade port of an extender under a bridge port, which is numbered from 1.
fn is_cascade_under(tree: &Tree, bridge_port: u8, port: PortId) -> bool
    requires { 1 ≤ bridge_port }
    ensures { result ≡ is_cascade_under tree.now (bridge_port - 1) port }
{
    tree.is_tree();
    let extender = port.device();
    if extender == 0 {
        return false;
    }
    match tree.role(port) {
        Role::Cascade { .. } => tree.trunk(extender) == bridge_port,
        _ => false,
    }
}

/// Whether a port is an extended port under a bridge port, which is numbered from 1.
pub fn is_under(tree: &Tree, bridge_port: u8, port: PortId) -> bool
    requires { 1 ≤ bridge_port }
    ensures { result ≡ is_under tree.now (bridge_port - 1) port }
{
    if !tree.is_extended(port) {
        return false;
    }
    tree.trunk(port.device()) == bridge_port
}

/// How many cascade ports the extenders under a bridge port have.
pub fn cascades_under(tree: &Tree, bridge_port: u8) -> u16
    requires { 1 ≤ bridge_port }
    ensures value { result ≡ cascades_under tree.now (bridge_port - 1) }
    ensures few { result ≤ 4160 }
{
    let mut count = 0;
    for number in 0..PORTS {
        if is_cascade_under(tree, bridge_port, PortId::new(number).unwrap()) {
            count += 1;
        }
    }
    count
}
