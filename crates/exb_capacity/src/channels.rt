//! How many channels are needed.
ghost use Rattle.std.specs.Prelude.{◌≡◌, ◌-◌, ◌≤◌, ◌<◌, count_by};
ghost use Rattle.exb_model.specs.Ports.{all_ports};
ghost use Rattle.exb_model.specs.Tree.{is_under};
ghost use Rattle.exb_capacity.specs.NeededNumbers.{greatest_below, channels_below};

use exb_model::port::{PORTS, PortId};
use exb_model::tree::Tree;
use exb_plan::{cascades_under, is_under};

/// How many external ports the extenders below a bridge port have.
fn extended_under(tree: &Tree, bridge_port: u8) -> u16
    requires { 1 ≤ bridge_port }
    ensures value { result ≡ count_by (is_under tree.now (bridge_port - 1)) all_ports }
    ensures few { result ≤ 4160 }
{
    let mut count = 0;
    for number in 0..PORTS {
        if is_under(tree, bridge_port, PortId::new(number).unwrap()) {
            count += 1;
        }
    }
    count
}

/// How many channels a bridge port needs, which is counted from 0.
#[tactic(auto, unfolding(crate::specs::NeededNumbers::channels_below))]
fn channels_below(tree: &Tree, place: u8) -> u64
    requires { place < 64 }
    ensures { result ≡ channels_below tree.now place }
{
    let bridge_port = place + 1;
    u64::from(cascades_under(tree, bridge_port)) + u64::from(extended_under(tree, bridge_port))
}

/// How many channels the fullest cascade port of the bridge needs.
pub(crate) fn channels(tree: &Tree) -> u64
    ensures { result ≡ greatest_below tree.now (channels_below tree.now) }
{
    let mut most: u64 = 0;
    for place in 0..64u8 {
        if tree.is_cascade(PortId::at(0, place)) {
            most = most.max(channels_below(tree, place));
        }
    }
    most
}
