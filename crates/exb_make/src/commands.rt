//! The commands that come later.
ghost use Rattle.std.specs.Prelude.{◌≡◌, ◌<◌, OnOk};
ghost use Rattle.exb_make.specs.Draws.{Adds, drawn};
ghost use Rattle.exb_make.specs.GeneratedTree.{site_ports, port_at};
ghost use Rattle.exb_make.specs.DrawOrder.{membership_command, order, orders};

use crate::draws::draw;
use crate::start::draw_vid;
use exb_model::command::Command;
use exb_model::list::List;
use exb_model::memory::NoMemory;
use exb_model::port::PortId;
use exb_model::setup::Timed;
use exb_model::vlan::Kind;
use rand_pcg::Lcg64Xsh32;
use std::alloc::Global;

/// How many commands there are.
const ORDERS: u32 = 20;

/// One of the external ports.
pub(crate) fn port_at(places: &[PortId], number: u32) -> PortId
    requires ports { places.now ≡ site_ports }
    requires number { number < 46 }
    ensures { result ≡ port_at number }
{
    places[number as usize]
}

/// A command by which any port becomes a member of any VLAN.
#[tactic(auto, unfolding(crate::specs::DrawOrder::membership_command))]
fn membership_command(rng: &mut Lcg64Xsh32, places: &[PortId]) -> Command
    requires { places.now ≡ site_ports }
    ensures value { result ≡ (membership_command rng.old).0 }
    ensures gone_on { rng.new ≡ (membership_command rng.old).1 }
{
    let vid = draw_vid(rng);
    let number = draw(rng, 46);
    let port = port_at(places, number);
    let kind = match draw(rng, 2) {
        0 => Kind::Tagged,
        _ => Kind::Untagged,
    };
    Command::Member { vid, port, kind }
}

/// Draws a command that comes at a time.
#[tactic(auto, unfolding(crate::specs::DrawOrder::order))]
fn add_order(
    alloc: Global,
    rng: &mut Lcg64Xsh32,
    places: &[PortId],
    number: u32,
    timed: &mut List<Timed>,
) -> Result<(), NoMemory>
    requires ports { places.now ≡ site_ports }
    requires number { number < 20 }
    ensures { OnOk result (Adds (order number) timed.old timed.new rng.old rng.new) }
{
    let command = membership_command(rng, places);
    timed.push(Timed {
        at: 5 * number,
        command,
        fate: List::new(alloc),
    })
}

/// Draws all commands.
pub(crate) fn add_orders(
    alloc: Global,
    rng: &mut Lcg64Xsh32,
    places: &[PortId],
    timed: &mut List<Timed>,
) -> Result<(), NoMemory>
    requires { places.now ≡ site_ports }
    ensures { OnOk result (Adds orders timed.old timed.new rng.old rng.new) }
{
    for number in 0..ORDERS {
        add_order(alloc, rng, places, number, timed)?;
    }
    Ok(())
}
