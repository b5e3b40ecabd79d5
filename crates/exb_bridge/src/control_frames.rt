//! What the bridge hears from its extenders: announcements (LLDP, IEEE 802.1AB), acknowledgements
//! and requests (ECP), and the answers that these carry.
ghost use Rattle.std.specs.Prelude.{◌≡◌, ℕ, List, true, OnOk, Ok};
ghost use Rattle.exb_ecp.specs.Frames.{pdu_in};
ghost use Rattle.exb_model.specs.Tree.{is_extender};
ghost use Rattle.exb_world_spec.specs.BridgeLearning.{address_of, is_of};
ghost use Rattle.exb_world_spec.specs.ControlFrames.{hears, hears_frame, hears_message, hears_pdu, hears_request, stops};
ghost use Rattle.exb_world_spec.specs.Worlds.{World};
ghost use Rattle.exb_world_spec.specs.Runs.Requests.{AsksWell};
ghost use Rattle.exb_ecp.specs.Ends.{near_of};
ghost use Rattle.exb_model.specs.DeviceSets.{IsNumber};
ghost use Rattle.exb_bridge.specs.TreeIndexes.{limits_in};
ghost use Rattle.exb_bridge.specs.BridgeWorlds.{Rest, whole, world_in, IsAt, Does};

use crate::bridge::Bridge;
use crate::requests::{follow, send_to_extender, spell_acknowledgement};
use crate::scratch::StepScratch;
use crate::tree_index::TreeIndex;
use exb_control::Taken;
use exb_csp::{ECP_SUBTYPE, Message};
use exb_ecp::{Ends, PAYLOAD_AT};
use exb_lldp::Announce;
use exb_model::address::Mac;
use exb_model::memory::NoMemory;

/// The address by which an extender is known: 02-45-42-01-00 and its number.
fn address_of(extender: u8) -> Mac
    ensures { result.0 ≡ address_of extender }
{
    Mac([0x02, 0x45, 0x42, 0x01, 0x00, extender])
}

/// Whether an announcement has the address and the port count of an extender.
fn is_of(site: &TreeIndex, extender: u8, announce: &Announce) -> bool
    requires { is_extender site.now.tree extender ≡ true }
    ensures { result ≡ is_of site.now.tree extender announce.now }
{
    announce.chassis == address_of(extender) && announce.ports == site.ports(extender)
}

/// An announcement of an extender. It is heard where it has the extender's address and port count.
fn hear_announcement(
    site: &TreeIndex,
    number: u8,
    announce: &Announce,
    room: &mut StepScratch,
    bridge: &mut Bridge,
) -> Result<(), NoMemory>
    ghost rest: { Rest }
    requires at { IsAt site.now (whole rest bridge.old) }
    requires there { is_extender site.now.tree number ≡ true }
    requires asks { AsksWell site.now.tree (limits_in site.now)
        (world_in (whole rest bridge.old)).control }
    ensures { OnOk result ((f : List ℕ)
        → Does (hears_frame site.now.tree (limits_in site.now) number (Ok announce.now) f
        (world_in (whole rest bridge.old))) site.now (whole rest bridge.new) room.old.post.log
        room.new.post.log) }
{
    if !is_of(site, number, announce) {
        return Ok(());
    }
    if bridge.control.heard(number, &mut room.outbox).is_err() {
        return Err(NoMemory);
    }
    follow(site, room, bridge)
}

/// An answer that is taken ends the sending of its request.
fn stop_answered(taken: &Taken, number: u8, near: &mut Ends)
    requires { IsNumber number }
    ensures { (w : World) → w.near ≡ near_of near.old → stops taken.now number w
        ≡ record w { near = near_of near.new } }
{
    match taken {
        Taken::Answer { .. } => near.stop(number),
        Taken::Stale => {}
        Taken::NotOurs => {}
    }
}

/// A message of an extender. An answer that is taken ends the sending of its request.
fn hear_message(
    site: &TreeIndex,
    number: u8,
    message: &Message,
    room: &mut StepScratch,
    bridge: &mut Bridge,
) -> Result<(), NoMemory>
    ghost rest: { Rest }
    requires at { IsAt site.now (whole rest bridge.old) }
    requires there { is_extender site.now.tree number ≡ true }
    requires asks { AsksWell site.now.tree (limits_in site.now)
        (world_in (whole rest bridge.old)).control }
    ensures { OnOk result (Does (hears_message site.now.tree (limits_in site.now) number
        (Ok message.now) (world_in (whole rest bridge.old))) site.now (whole rest bridge.new)
        room.old.post.log room.new.post.log) }
{
    site.has_low_number(number);
    let Ok(taken) = bridge.control.answered(number, message, &mut room.outbox) else {
        return Err(NoMemory);
    };
    stop_answered(&taken, number, &mut bridge.near);
    follow(site, room, bridge)
}

/// A request of an extender over the transport: it is acknowledged first; where its sequence
/// differs from the last received its payload is taken.
fn hear_request(
    site: &TreeIndex,
    number: u8,
    sequence: u16,
    payload: &[u8],
    room: &mut StepScratch,
    bridge: &mut Bridge,
) -> Result<(), NoMemory>
    ghost rest: { Rest }
    requires at { IsAt site.now (whole rest bridge.old) }
    requires there { is_extender site.now.tree number ≡ true }
    requires asks { AsksWell site.now.tree (limits_in site.now)
        (world_in (whole rest bridge.old)).control }
    ensures { OnOk result (Does (hears_request site.now.tree (limits_in site.now) number sequence
        payload.now (world_in (whole rest bridge.old))) site.now (whole rest bridge.new)
        room.old.post.log room.new.post.log) }
{
    site.has_low_number(number);
    spell_acknowledgement(sequence, &mut room.buffers.control);
    let frame = room.buffers.control.as_slice();
    send_to_extender(site, number, frame, bridge, &mut room.post)?;
    if !bridge.near.received(number, sequence) {
        return Ok(());
    }
    match exb_csp::read(payload) {
        Ok(message) => hear_message(site, number, &message, room, bridge),
        Err(_) => Ok(()),
    }
}

/// A control frame of an extender that is no announcement.
fn hear_pdu(
    site: &TreeIndex,
    number: u8,
    frame: &[u8],
    room: &mut StepScratch,
    bridge: &mut Bridge,
) -> Result<(), NoMemory>
    ghost rest: { Rest }
    requires at { IsAt site.now (whole rest bridge.old) }
    requires there { is_extender site.now.tree number ≡ true }
    requires asks { AsksWell site.now.tree (limits_in site.now)
        (world_in (whole rest bridge.old)).control }
    ensures { OnOk result (Does (hears_pdu site.now.tree (limits_in site.now) number
        (pdu_in frame.now) frame.now (world_in (whole rest bridge.old))) site.now
        (whole rest bridge.new) room.old.post.log room.new.post.log) }
{
    site.has_low_number(number);
    let Ok(pdu) = exb_ecp::read(frame) else {
        return Ok(());
    };
    if pdu.subtype != ECP_SUBTYPE {
        return Ok(());
    }
    if pdu.acknowledgement {
        bridge.near.acked(number, pdu.sequence);
        return Ok(());
    }
    hear_request(
        site,
        number,
        pdu.sequence,
        &frame[PAYLOAD_AT..],
        room,
        bridge,
    )
}

/// A control frame of an extender, without an E-TAG.
#[tactic(auto, unfolding(exb_world_spec::specs::ControlFrames::hears))]
pub(crate) fn hear(
    site: &TreeIndex,
    number: u8,
    frame: &[u8],
    room: &mut StepScratch,
    bridge: &mut Bridge,
) -> Result<(), NoMemory>
    ghost rest: { Rest }
    requires at { IsAt site.now (whole rest bridge.old) }
    requires there { is_extender site.now.tree number ≡ true }
    requires asks { AsksWell site.now.tree (limits_in site.now)
        (world_in (whole rest bridge.old)).control }
    ensures { OnOk result (Does (hears site.now.tree (limits_in site.now) number frame.now
        (world_in (whole rest bridge.old))) site.now (whole rest bridge.new) room.old.post.log
        room.new.post.log) }
{
    match exb_lldp::read(frame) {
        Ok(announce) => hear_announcement(site, number, &announce, room, bridge),
        Err(_) => hear_pdu(site, number, frame, room, bridge),
    }
}
