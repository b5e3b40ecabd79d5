//! Which channels ports hold.
ghost use Rattle.std.specs.Prelude.{◌≡◌, ◌-◌, ◌≤◌, true};
ghost use Rattle.exb_model.specs.Tree.{is_cascade};
ghost use Rattle.exb_control.specs.ActiveConfigs.{held_in};
ghost use Rattle.exb_control.specs.Controls.{channel_at_trunk};

use crate::active_config::ActiveConfig;
use exb_model::port::PortId;

/// The channel that a port of an extender holds at its trunk.
pub(crate) fn channel_of(active: &ActiveConfig, port: PortId) -> Option<u16>
    ensures { result ≡ channel_at_trunk active.now.shape (held_in active.now) port }
{
    active.is_active_config();
    let extender = port.device();
    if !active.tree().is_extender(extender) {
        return None;
    }
    let trunk = active.tree().trunk(extender);
    active.spaces().channels(trunk).of(port)
}

/// The port that holds a channel of a cascade port of the bridge.
pub(crate) fn port_of(active: &ActiveConfig, bridge_port: u8, channel: u16) -> Option<PortId>
    requires from1 { 1 ≤ bridge_port }
    requires to64 { bridge_port ≤ 64 }
    requires cascade { is_cascade active.now.shape (bridge_port - 1) ≡ true }
    ensures { result ≡ (held_in active.now).port (bridge_port - 1) channel }
{
    active.is_active_config();
    active.spaces().channels(bridge_port).port(channel)
}
