//! The configuration to start with.
ghost use Rattle.std.specs.Prelude.{◌≡◌, ◌+◌, OnOk};
ghost use Rattle.exb_make.specs.Draws.{Adds, drawn};
ghost use Rattle.exb_make.specs.GeneratedTree.{site_ports};
ghost use Rattle.exb_make.specs.DrawOrder.{membership, members, memberships, pvid, pvids};

use crate::draws::draw;
use exb_model::command::Command;
use exb_model::list::List;
use exb_model::memory::NoMemory;
use exb_model::port::PortId;
use exb_model::vlan::{Kind, Vid};
use rand_pcg::Lcg64Xsh32;

/// Draws whether a port is a member of a VLAN, and of which kind.
#[tactic(auto, unfolding(crate::specs::DrawOrder::membership))]
fn add_membership(
    rng: &mut Lcg64Xsh32,
    vid: Vid,
    port: PortId,
    start: &mut List<Command>,
) -> Result<(), NoMemory>
    ensures { OnOk result (Adds (membership vid port) start.old start.new rng.old rng.new) }
{
    match draw(rng, 3) {
        0 => Ok(()),
        1 => start.push(Command::Member {
            vid,
            port,
            kind: Kind::Tagged,
        }),
        _ => start.push(Command::Member {
            vid,
            port,
            kind: Kind::Untagged,
        }),
    }
}

/// Draws the members of a VLAN.
fn add_members(
    rng: &mut Lcg64Xsh32,
    vid: Vid,
    places: &[PortId],
    start: &mut List<Command>,
) -> Result<(), NoMemory>
    requires { places.now ≡ site_ports }
    ensures { OnOk result (Adds (members vid) start.old start.new rng.old rng.new) }
{
    for port in places {
        add_membership(rng, vid, *port, start)?;
    }
    Ok(())
}

/// Draws the members of all VLANs.
pub(crate) fn add_memberships(
    rng: &mut Lcg64Xsh32,
    places: &[PortId],
    start: &mut List<Command>,
) -> Result<(), NoMemory>
    requires { places.now ≡ site_ports }
    ensures { OnOk result (Adds memberships start.old start.new rng.old rng.new) }
{
    for number in 1..5u16 {
        let vid = Vid::new(number).unwrap();
        add_members(rng, vid, places, start)?;
    }
    Ok(())
}

/// One of the VLANs.
pub(crate) fn draw_vid(rng: &mut Lcg64Xsh32) -> Vid
    ensures value { result ≡ 1 + (drawn 4 rng.old).0 }
    ensures gone_on { rng.new ≡ (drawn 4 rng.old).1 }
{
    Vid::new(1 + draw(rng, 4) as u16).unwrap()
}

/// Draws the VLAN of a port's frames without a tag.
#[tactic(auto, unfolding(crate::specs::DrawOrder::pvid))]
fn add_pvid(rng: &mut Lcg64Xsh32, port: PortId, start: &mut List<Command>) -> Result<(), NoMemory>
    ensures { OnOk result (Adds (pvid port) start.old start.new rng.old rng.new) }
{
    let vid = draw_vid(rng);
    start.push(Command::Pvid { port, vid })
}

/// Draws the VLAN of each port's frames without a tag.
pub(crate) fn add_pvids(
    rng: &mut Lcg64Xsh32,
    places: &[PortId],
    start: &mut List<Command>,
) -> Result<(), NoMemory>
    requires { places.now ≡ site_ports }
    ensures { OnOk result (Adds pvids start.old start.new rng.old rng.new) }
{
    for port in places {
        add_pvid(rng, *port, start)?;
    }
    Ok(())
}
