//! What the bridge sends to its extenders: messages, in control frames over the acknowledged
//! transport (ECP, IEEE 802.1Q, clause 43).
ghost use Rattle.std.specs.Prelude.{◌≡◌, ◌<◌, ◌≤◌, true, OnOk, length};
ghost use Rattle.exb_model.specs.Tree.{is_extender, on, trunk};
ghost use Rattle.exb_extender.specs.Machine.{control_pdu};
ghost use Rattle.exb_learn.specs.Entries.{table_of};
ghost use Rattle.exb_control_spec.specs.Machine.{Moved};
ghost use Rattle.exb_world_spec.specs.BridgeLearning.{channel_at_trunk, forgotten_all};
ghost use Rattle.exb_world_spec.specs.Effects.{each};
ghost use Rattle.exb_world_spec.specs.ExtenderSteps.{hung_on};
ghost use Rattle.exb_world_spec.specs.ControlFrames.{asks, bridge_acknowledgement, bridge_request, moves, puts, puts_tagged, to_extender};
ghost use Rattle.exb_world_spec.specs.Worlds.{World, with_control};
ghost use Rattle.exb_world_spec.specs.Runs.Requests.{CanGo};
ghost use Rattle.exb_world_spec.specs.Runs.Sessions.{AreLow, Each};
ghost use Rattle.exb_model.specs.DeviceSets.{IsNumber};
ghost use Rattle.exb_bridge.specs.BridgeWorlds.{Rest, whole, world_in, IsAt, Does};

use crate::bridge::Bridge;
use crate::scratch::{Buffers, StepScratch};
use crate::tree_index::{TreeIndex, hung_on};
use exb_control_spec::Asked;
use exb_csp::ECP_SUBTYPE;
use exb_ecp::{PAYLOAD_AT, Pdu};
use exb_extender::forms::channel_tag;
use exb_frame::etag::tag_into;
use exb_learn::Learned;
use exb_model::address::Mac;
use exb_model::buffers::ControlBuf;
use exb_model::bytes::Bytes;
use exb_model::memory::NoMemory;
use exb_model::port::PortId;
use exb_outbox::StepOutput;
use exb_outbox::log::{add_events, note_out};

/// The bridge's address: 02-45-42-00-00-00.
const BRIDGE: Mac = Mac([0x02, 0x45, 0x42, 0x00, 0x00, 0x00]);

/// The header of the bridge's control frames.
fn header(acknowledgement: bool, sequence: u16) -> Pdu
    ensures { result ≡ control_pdu acknowledgement sequence }
{
    Pdu {
        acknowledgement,
        subtype: ECP_SUBTYPE,
        sequence,
        payload_at: PAYLOAD_AT as u32,
    }
}

/// A request with a payload, in place of what was in `into`.
pub(crate) fn spell_request(sequence: u16, payload: &[u8], into: &mut ControlBuf)
    requires { length payload.now ≤ 1024 }
    ensures bytes { into.new.items ≡ bridge_request sequence payload.now }
    ensures long { 12 ≤ length into.new.items }
{
    exb_ecp::write(BRIDGE, &header(false, sequence), payload, into);
}

/// The acknowledgement of a request, in place of what was in `into`.
pub(crate) fn spell_acknowledgement(sequence: u16, into: &mut ControlBuf)
    ensures bytes { into.new.items ≡ bridge_acknowledgement sequence }
    ensures long { 12 ≤ length into.new.items }
{
    exb_ecp::write(BRIDGE, &header(true, sequence), &[], into);
}

/// A control frame goes out at a port of the bridge, counted from 0, onto the link of the extender
/// that hangs there.
fn put(
    site: &TreeIndex,
    place: u8,
    below: u8,
    frame: Bytes,
    bridge: &mut Bridge,
    post: &mut StepOutput,
) -> Result<(), NoMemory>
    ghost rest: { Rest }
    requires at { IsAt site.now (whole rest bridge.old) }
    requires place { place < 64 }
    requires known { IsNumber below }
    ensures { OnOk result (Does (puts place below frame (world_in (whole rest bridge.old))) site.now
        (whole rest bridge.new) post.old.log post.new.log) }
{
    let _ = site;
    note_out(
        post.alloc,
        post.log.tracing,
        0,
        place + 1,
        frame.as_slice(),
        &mut post.log.outs,
    )?;
    let word = post.store.boxed(post.alloc, frame, None)?;
    bridge.down.push(below, word)
}

/// A control frame goes to a deeper extender, with the channel of the port on which that hangs, by
/// way of the extender on the bridge port above it.
#[cold]
#[inline(never)]
fn put_deeper(
    site: &TreeIndex,
    extender: u8,
    frame: &[u8],
    bridge: &mut Bridge,
    post: &mut StepOutput,
) -> Result<(), NoMemory>
    ghost rest: { Rest }
    requires at { IsAt site.now (whole rest bridge.old) }
    requires there { is_extender site.now.tree extender ≡ true }
    requires long { 12 ≤ length frame.now }
    ensures { OnOk result (Does (puts_tagged (trunk site.now.tree extender)
        (hung_on site.now.tree (trunk site.now.tree extender))
        (channel_at_trunk site.now.tree (world_in (whole rest bridge.old)).control.held
        (on site.now.tree extender)) frame.now (world_in (whole rest bridge.old))) site.now
        (whole rest bridge.new) post.old.log post.new.log) }
{
    let tree = site.tree();
    tree.is_tree();
    let trunk = tree.trunk(extender);
    let place = trunk - 1;
    let Some(below) = hung_on(tree, PortId::at(0, place)) else {
        return Ok(());
    };
    let Some(channel) = bridge.control.of(site.on(extender)) else {
        return Ok(());
    };
    let mut buffer = post.store.buffer(post.alloc);
    tag_into(frame, &channel_tag(channel), &mut buffer)?;
    put(site, place, below, Bytes::from_vec(buffer), bridge, post)
}

/// A control frame goes to an extender.
#[cold]
#[inline(never)]
pub(crate) fn send_to_extender(
    site: &TreeIndex,
    extender: u8,
    frame: &[u8],
    bridge: &mut Bridge,
    post: &mut StepOutput,
) -> Result<(), NoMemory>
    ghost rest: { Rest }
    requires at { IsAt site.now (whole rest bridge.old) }
    requires there { is_extender site.now.tree extender ≡ true }
    requires long { 12 ≤ length frame.now }
    ensures { OnOk result (Does (to_extender site.now.tree extender frame.now
        (world_in (whole rest bridge.old))) site.now (whole rest bridge.new) post.old.log
        post.new.log) }
{
    site.has_low_number(extender);
    let port = site.on(extender);
    if port.device() == 0 {
        let bytes = post.store.copy(post.alloc, frame)?;
        put(site, port.place(), extender, bytes, bridge, post)
    } else {
        put_deeper(site, extender, frame, bridge, post)
    }
}

/// A message is submitted to an extender, in place of what is sent to it, and goes out.
#[cold]
#[inline(never)]
fn ask(
    site: &TreeIndex,
    asked: &Asked,
    buffers: &mut Buffers,
    bridge: &mut Bridge,
    post: &mut StepOutput,
) -> Result<(), NoMemory>
    ghost rest: { Rest }
    requires at { IsAt site.now (whole rest bridge.old) }
    requires askable { CanGo site.now.tree asked.now }
    ensures { OnOk result (Does (asks site.now.tree asked.now (world_in (whole rest bridge.old)))
        site.now (whole rest bridge.new) post.old.log post.new.log) }
{
    site.has_low_number(asked.extender);
    exb_csp::write(&asked.message, &mut buffers.message);
    let payload = buffers.message.as_slice();
    let sequence = bridge.near.submit(asked.extender, payload);
    spell_request(sequence, payload, &mut buffers.control);
    let frame = buffers.control.as_slice();
    send_to_extender(site, asked.extender, frame, bridge, post)
}

/// All messages go out, in order.
fn ask_all(
    site: &TreeIndex,
    asked: &[Asked],
    buffers: &mut Buffers,
    bridge: &mut Bridge,
    post: &mut StepOutput,
) -> Result<(), NoMemory>
    ghost rest: { Rest }
    requires at { IsAt site.now (whole rest bridge.old) }
    requires askable { Each (CanGo site.now.tree) asked.now }
    ensures { OnOk result
        (Does (each (asks site.now.tree) asked.now (world_in (whole rest bridge.old))) site.now
        (whole rest bridge.new) post.old.log post.new.log) }
{
    for one in asked {
        ask(site, one, buffers, bridge, post)?;
    }
    Ok(())
}

/// What was learned at ports that went down is forgotten.
fn forget_all(downs: &[PortId], learned: &mut Learned)
    ensures { table_of learned.new ≡ forgotten_all downs.now (table_of learned.old) }
{
    for port in downs {
        learned.forget(*port);
    }
}

/// What was learned at the ports that went down is forgotten, what the control told is told, and
/// what it asked goes out: the rest of a step of the machine of changes, once the control has made
/// it.
pub(crate) fn follow(
    site: &TreeIndex,
    room: &mut StepScratch,
    bridge: &mut Bridge,
) -> Result<(), NoMemory>
    ghost rest: { Rest }
    requires at { IsAt site.now (whole rest bridge.old) }
    requires askable { AreLow (world_in (whole rest bridge.old)).control.askers
        → Each (CanGo site.now.tree) room.old.outbox.asks }
    ensures { OnOk result ((m : Moved) (w : World) → world_in (whole rest bridge.old)
        ≡ with_control m.state w
        → room.old.outbox.events ≡ m.events → room.old.outbox.asks ≡ m.asks
        → room.old.outbox.downs ≡ m.downs → Does (moves site.now.tree m w) site.now
        (whole rest bridge.new) room.old.post.log room.new.post.log) }
{
    forget_all(room.outbox.downs.as_slice(), &mut bridge.learned);
    bridge.control.has_low_serials();
    add_events(
        room.post.alloc,
        &mut room.outbox.events,
        &mut room.post.log.events,
    )?;
    let asked = room.outbox.asks.as_slice();
    ask_all(site, asked, &mut room.buffers, bridge, &mut room.post)
}
