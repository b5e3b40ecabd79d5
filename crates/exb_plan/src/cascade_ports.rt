//! The ports of the bridge that have groups.
ghost use Rattle.std.specs.Prelude.{◌≡◌, ◌-◌, ◌≤◌};
ghost use Rattle.exb_model.specs.Tree.{is_cascade};

use exb_model::port::PortId;
use exb_model::tree::Tree;

/// Whether an extender hangs on a port of the bridge, which is numbered from 1.
pub fn is_cascade(tree: &Tree, bridge_port: u8) -> bool
    requires from1 { 1 ≤ bridge_port }
    requires to64 { bridge_port ≤ 64 }
    ensures { result ≡ is_cascade tree.now (bridge_port - 1) }
{
    tree.is_cascade(PortId::at(0, bridge_port - 1))
}
