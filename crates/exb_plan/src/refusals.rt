//! Whether the numbers suffice for a change.
ghost use Rattle.std.specs.Prelude.{◌≡◌, ◌-◌, ◌/◌, ◌≤◌, ◌&&◌, true, Some};
ghost use Rattle.exb_model.specs.Tree.{is_extender, is_under, trunk};
ghost use Rattle.exb_model.specs.Setup.{Limits};
ghost use Rattle.exb_model.specs.Refusals.{present_under, channels_short};
ghost use Rattle.exb_config.specs.Tables.{bridge_of};
ghost use Rattle.exb_numbers.specs.Spaces.{has_space};
ghost use Rattle.exb_plan.specs.SpaceContents.{HasSpaces};

use crate::ports_below::{cascades_under, is_under};
use exb_config::Config;
use exb_model::event::Cause;
use exb_model::port::{PORTS, PortId};
use exb_model::tree::Tree;
use exb_numbers::Spaces;

// Whether a port is a present extended port under a bridge port.
fn is_present_under(tree: &Tree, config: &Config, bridge_port: u8, port: PortId) -> bool
    requires { 1 ≤ bridge_port }
    ensures { result ≡ (is_under tree.now (bridge_port - 1) port
        && (bridge_of config.now).present port) }
{
    let is_under = is_under(tree, bridge_port, port);
    is_under && config.present(port)
}

// How many extended ports under a bridge port are present.
fn present_under(tree: &Tree, config: &Config, bridge_port: u8) -> u16
    requires { 1 ≤ bridge_port }
    ensures value { result ≡ present_under tree.now (bridge_port - 1) (bridge_of config.now) }
    ensures few { result ≤ 4160 }
{
    let mut count = 0;
    for number in 0..PORTS {
        let port = PortId::new(number).unwrap();
        if is_present_under(tree, config, bridge_port, port) {
            count += 1;
        }
    }
    count
}

/// Why a port can't get a channel more, if it can't.
pub fn channels_short(tree: &Tree, spaces: &Spaces, config: &Config, port: PortId) -> Option<Cause>
    requires extender { is_extender tree.now (port / 64) ≡ true }
    requires cascade { has_space spaces.now (trunk tree.now (port / 64)) ≡ true }
    ensures { (l : Limits) → HasSpaces tree.now l spaces.now
        → result ≡ channels_short tree.now l (bridge_of config.now)
        (Some (trunk tree.now (port / 64))) }
{
    let trunk = tree.trunk(port.device());
    let needed = cascades_under(tree, trunk) as u64 + present_under(tree, config, trunk) as u64 + 1;
    let limit = spaces.channels(trunk).limit() as u32;
    if needed > limit as u64 {
        Some(Cause::Channels { needed, limit })
    } else {
        None
    }
}
