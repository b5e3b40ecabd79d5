//! What the bridge does with words that come up to it, and with frames: it hears the one, and
//! relays the other.
ghost use Rattle.std.specs.Prelude.{◌≡◌, ◌-◌, ◌≤◌, ◌++◌, ◌∷◌, [], true, IfOk, OnOk, Some};
ghost use Rattle.std.specs.List.{All};
ghost use Rattle.exb_model.specs.EagerHistory.{is_relayed};
ghost use Rattle.exb_model.specs.ETags.{read_etag, stripped};
ghost use Rattle.exb_model.specs.Traces.{Out};
ghost use Rattle.exb_model.specs.Tree.{HangsOn, is_cascade, is_external};
ghost use Rattle.exb_extender.specs.Forwarding.{has_etag_type};
ghost use Rattle.exb_world_spec.specs.Effects.{each};
ghost use Rattle.exb_world_spec.specs.ExtenderSteps.{hung_on};
ghost use Rattle.exb_world_spec.specs.DataFrames.{arrival_by, bridge_takes, comes, comes_from, holder_by, puts_word, sends_for, sends_in, takes_control};
ghost use Rattle.exb_world_spec.specs.Runs.Requests.{AsksWell};
ghost use Rattle.exb_outbox.specs.declared.log.Log.{Log};
ghost use Rattle.exb_bridge.specs.Sends.{CanSend, HasPassed, ingress_for, is_passed, learns, sent_for};
ghost use Rattle.exb_bridge.specs.TreeIndexes.{limits_in};
ghost use Rattle.exb_bridge.specs.BridgeWorlds.{Rest, whole, world_in, IsAt, Does, HasLeft, KeepsTrace};

use crate::arrivals::{ignore, stamp_of};
use crate::bridge::Bridge;
use crate::control_frames::hear;
use crate::relayed_frames::{Outgoing, relay_and_learn};
use crate::scratch::StepScratch;
use crate::tree_index::{TreeIndex, hung_on};
use exb_frame::egress::{VlanTag, egress_into, tagged_egress_into};
use exb_frame::etag::{E_TAG_AT, E_TAG_TYPE, ETag, strip_in_place, strip_into};
use exb_link::{BoxedFrame, Stamp};
use exb_model::arrival::Arrival;
use exb_model::bytes::{Bytes, are_bytes, number_at};
use exb_model::event::Event;
use exb_model::memory::NoMemory;
use exb_model::port::PortId;
use exb_outbox::log::note_out;
use exb_outbox::{Left, Log, PortMap, StepOutput};
use exb_relay::laws::spaces_number;
use exb_relay::{Ingress, SendTo};

/// A frame leaves at a port of the bridge.
#[inline(always)]
fn leave_bridge(
    bridge_port: u8,
    moment: u64,
    frame: Bytes,
    post: &mut StepOutput,
) -> Result<(), NoMemory>
    requires from1 { 1 ≤ bridge_port }
    requires to64 { bridge_port ≤ 64 }
    ensures { OnOk result (HasLeft (record {
      port = bridge_port - 1;
      moment = moment;
      bytes = frame;
    }) (Out 0 bridge_port frame) post.old.log post.new.log) }
{
    note_out(
        post.alloc,
        post.log.tracing,
        0,
        bridge_port,
        frame.as_slice(),
        &mut post.log.outs,
    )?;
    post.log.left.push(Left {
        row: PortMap::of(PortId::at(0, bridge_port - 1)),
        moment,
        bytes: frame,
    })
}

/// A word goes onto the link of the extender that hangs on a port of the bridge.
#[inline(always)]
fn put_word(
    site: &TreeIndex,
    bridge_port: u8,
    frame: Bytes,
    stamp: Stamp,
    bridge: &mut Bridge,
    post: &mut StepOutput,
) -> Result<(), NoMemory>
    ghost rest: { Rest }
    requires at { IsAt site.now (whole rest bridge.old) }
    requires from1 { 1 ≤ bridge_port }
    requires to64 { bridge_port ≤ 64 }
    ensures { OnOk result (Does (puts_word bridge_port (hung_on site.now.tree (bridge_port - 1))
        (record { bytes = frame; stamp = Some stamp }) (world_in (whole rest bridge.old))) site.now
        (whole rest bridge.new) post.old.log post.new.log) }
{
    let tree = site.tree();
    tree.is_tree();
    let Some(below) = hung_on(tree, PortId::at(0, bridge_port - 1)) else {
        return Ok(());
    };
    note_out(
        post.alloc,
        post.log.tracing,
        0,
        bridge_port,
        frame.as_slice(),
        &mut post.log.outs,
    )?;
    let word = post.store.boxed(post.alloc, frame, Some(stamp))?;
    bridge.down.push(below, word)
}

/// One send of the bridge for a frame that passed with this VLAN tag: it leaves there, or goes down
/// there with an E-TAG.
fn send(
    site: &TreeIndex,
    arrival: &Arrival,
    tag: &VlanTag,
    send: &SendTo,
    bridge: &mut Bridge,
    post: &mut StepOutput,
) -> Result<(), NoMemory>
    ghost rest: { Rest }
    requires at { IsAt site.now (whole rest bridge.old) }
    requires passed { HasPassed arrival.now.bytes tag.now }
    requires send { CanSend send.now }
    ensures { OnOk result (Does (sends_in site.now.tree arrival.now tag.now.vid send.now
        (world_in (whole rest bridge.old))) site.now (whole rest bridge.new) post.old.log
        post.new.log) }
{
    let frame = arrival.bytes.as_slice();
    let mut buffer = post.store.buffer(post.alloc);
    match &send.tag {
        None => {
            egress_into(frame, send.kind, tag, &mut buffer)?;
            let bytes = Bytes::from_vec(buffer);
            leave_bridge(send.bridge_port, arrival.moment, bytes, post)
        }
        Some(etag) => {
            let stamp = stamp_of(arrival);
            tagged_egress_into(frame, send.kind, tag, etag, &mut buffer)?;
            let bytes = Bytes::from_vec(buffer);
            put_word(site, send.bridge_port, bytes, stamp, bridge, post)
        }
    }
}

/// All sends of the bridge for a frame that passed, in order.
fn send_all(
    site: &TreeIndex,
    arrival: &Arrival,
    tag: &VlanTag,
    sends: &[SendTo],
    bridge: &mut Bridge,
    post: &mut StepOutput,
) -> Result<(), NoMemory>
    ghost rest: { Rest }
    requires at { IsAt site.now (whole rest bridge.old) }
    requires passed { HasPassed arrival.now.bytes tag.now }
    requires sends { All CanSend sends.now }
    ensures { OnOk result (Does (each (sends_in site.now.tree arrival.now tag.now.vid) sends.now
        (world_in (whole rest bridge.old))) site.now (whole rest bridge.new) post.old.log
        post.new.log) }
{
    for one in sends {
        send(site, arrival, tag, one, bridge, post)?;
    }
    Ok(())
}

/// Whether a frame passed at its port.
#[inline(always)]
fn has_passed(ingress: &Ingress) -> bool
    ensures { result ≡ is_passed ingress.now }
{
    matches!(ingress, Ingress::Passed { .. })
}

/// A frame comes to the bridge; the answer is whether it is relayed, and then it is learned from.
/// What is sent for it is noted.
#[inline(always)]
fn relay(
    site: &TreeIndex,
    arrival: &Arrival,
    outgoing: &mut Outgoing,
    bridge: &mut Bridge,
) -> Result<bool, NoMemory>
    ghost rest: { Rest }
    requires at { IsAt site.now (whole rest bridge.old) }
    requires external { is_external site.now.tree arrival.now.port ≡ true }
    ensures relayed { IfOk result (λ relayed. relayed
        ≡ is_relayed (world_in (whole rest bridge.old)).control.bridge arrival.now.port
        arrival.now.bytes) }
    ensures does { OnOk result ((log : Log)
        → Does (learns arrival.now (world_in (whole rest bridge.old))) site.now
        (whole rest bridge.new) log log) }
    ensures sends { OnOk result (outgoing.new.sends.items
        ≡ sends_for site.now.tree (world_in (whole rest bridge.old)) arrival.now) }
    ensures can { OnOk result (All CanSend outgoing.new.sends.items) }
    ensures ingress { OnOk result (outgoing.new.ingress
        ≡ ingress_for (world_in (whole rest bridge.old)).control.bridge arrival.now.port
        arrival.now.bytes) }
{
    let active = bridge.control.active();
    active.is_active_config();
    spaces_number();
    let _ = site;
    let frame = arrival.bytes.as_slice();
    are_bytes(frame);
    relay_and_learn(active, &mut bridge.learned, arrival.port, frame, outgoing)
}

/// A frame comes to the bridge; the answer is whether it is relayed. It is learned from, and all
/// that is sent for it goes out.
#[inline(never)]
fn relay_on(
    site: &TreeIndex,
    arrival: &Arrival,
    room: &mut StepScratch,
    bridge: &mut Bridge,
) -> Result<bool, NoMemory>
    ghost rest: { Rest }
    requires at { IsAt site.now (whole rest bridge.old) }
    requires external { is_external site.now.tree arrival.now.port ≡ true }
    ensures relayed { IfOk result (λ relayed. relayed
        ≡ is_relayed (world_in (whole rest bridge.old)).control.bridge arrival.now.port
        arrival.now.bytes) }
    ensures does { OnOk result
        (Does (sent_for site.now.tree arrival.now (world_in (whole rest bridge.old))) site.now
        (whole rest bridge.new) room.old.post.log room.new.post.log) }
    ensures ingress { OnOk result (room.new.outgoing.ingress
        ≡ ingress_for (world_in (whole rest bridge.old)).control.bridge arrival.now.port
        arrival.now.bytes) }
{
    are_bytes(arrival.bytes.as_slice());
    let relayed = relay(site, arrival, &mut room.outgoing, bridge)?;
    match &room.outgoing.ingress {
        Ingress::Dropped => Ok(relayed),
        Ingress::Passed { vid, pcp, dei } => {
            let tag = VlanTag {
                pcp: *pcp,
                dei: *dei,
                vid: *vid,
            };
            let sends = room.outgoing.sends.as_slice();
            send_all(site, arrival, &tag, sends, bridge, &mut room.post)?;
            Ok(relayed)
        }
    }
}

/// Tells that a frame was relayed, and whether it passed. Its bytes go into what is told.
#[inline(always)]
fn tell(arrival: Arrival, passed: bool, log: &mut Log) -> Result<(), NoMemory>
    ensures events { OnOk result (log.new.events ≡ log.old.events ++ Event.Relay arrival.port
        arrival.index arrival.moment arrival.bytes ∷ []) }
    ensures passed { OnOk result (log.new.passed ≡ log.old.passed ++ passed ∷ []) }
    ensures left { log.new.left ≡ log.old.left }
    ensures trace { KeepsTrace log.old log.new }
{
    log.passed.push(passed)?;
    let Arrival {
        port,
        index,
        moment,
        bytes,
    } = arrival;
    log.events.push(Event::Relay {
        port,
        index,
        moment,
        bytes,
    })
}

/// A frame comes to the bridge: it is ignored, or relayed and then learned from.
pub fn come(
    site: &TreeIndex,
    arrival: &Arrival,
    room: &mut StepScratch,
    bridge: &mut Bridge,
) -> Result<(), NoMemory>
    ghost rest: { Rest }
    requires at { IsAt site.now (whole rest bridge.old) }
    requires external { is_external site.now.tree arrival.now.port ≡ true }
    ensures { OnOk result (Does (comes site.now.tree arrival.now (world_in (whole rest bridge.old)))
        site.now (whole rest bridge.new) room.old.post.log room.new.post.log) }
{
    let relayed = relay_on(site, arrival, room, bridge)?;
    if !relayed {
        return ignore(arrival, &mut room.post.log);
    }
    let passed = has_passed(&room.outgoing.ingress);
    let bytes = room
        .post
        .store
        .copy(room.post.alloc, arrival.bytes.as_slice())?;
    let copy = Arrival {
        port: arrival.port,
        index: arrival.index,
        moment: arrival.moment,
        bytes,
    };
    tell(copy, passed, &mut room.post.log)
}

/// The frame of a word comes to the bridge, as `come`: its bytes are not copied.
#[inline(always)]
fn come_in(
    site: &TreeIndex,
    stamp: &Stamp,
    bytes: Bytes,
    room: &mut StepScratch,
    bridge: &mut Bridge,
) -> Result<(), NoMemory>
    ghost rest: { Rest }
    requires at { IsAt site.now (whole rest bridge.old) }
    requires external { is_external site.now.tree stamp.now.port ≡ true }
    ensures { OnOk result (Does (comes site.now.tree (arrival_by stamp.now.port stamp.now bytes)
        (world_in (whole rest bridge.old))) site.now (whole rest bridge.new) room.old.post.log
        room.new.post.log) }
{
    let arrival = Arrival {
        port: stamp.port,
        index: stamp.index,
        moment: stamp.moment,
        bytes,
    };
    let relayed = relay_on(site, &arrival, room, bridge)?;
    if !relayed {
        return ignore(&arrival, &mut room.post.log);
    }
    let passed = has_passed(&room.outgoing.ingress);
    tell(arrival, passed, &mut room.post.log)
}

/// The port whose channel the E-TAG of a frame names, at a cascade port of the bridge.
#[inline(always)]
fn holder(site: &TreeIndex, bridge: &Bridge, bridge_port: u8, frame: &[u8]) -> Option<PortId>
    ghost rest: { Rest }
    requires at { IsAt site.now (whole rest bridge.now) }
    requires from1 { 1 ≤ bridge_port }
    requires to64 { bridge_port ≤ 64 }
    requires cascade { is_cascade site.now.tree (bridge_port - 1) ≡ true }
    ensures { result ≡ holder_by (world_in (whole rest bridge.now)) (bridge_port - 1)
        (read_etag frame.now) }
{
    let _ = site;
    let tag = ETag::read(frame)?;
    bridge.control.port(bridge_port, tag.ecid)
}

/// Whether a frame has the type of an E-TAG.
fn has_etag_type(frame: &[u8]) -> bool
    ensures { result ≡ has_etag_type frame.now }
{
    if frame.len() < 14 {
        return false;
    }
    number_at(frame, E_TAG_AT) == E_TAG_TYPE
}

/// A control word comes to a cascade port of the bridge, from the extender that hangs there or one
/// below it.
#[cold]
#[inline(never)]
fn take_control(
    site: &TreeIndex,
    bridge_port: u8,
    below: u8,
    frame: &[u8],
    room: &mut StepScratch,
    bridge: &mut Bridge,
) -> Result<(), NoMemory>
    ghost rest: { Rest }
    requires at { IsAt site.now (whole rest bridge.old) }
    requires from1 { 1 ≤ bridge_port }
    requires to64 { bridge_port ≤ 64 }
    requires hangs { HangsOn site.now.tree below (bridge_port - 1) }
    requires asks { AsksWell site.now.tree (limits_in site.now)
        (world_in (whole rest bridge.old)).control }
    ensures { OnOk result (Does (takes_control site.now.tree (limits_in site.now)
        (bridge_port - 1) below frame.now (world_in (whole rest bridge.old))) site.now
        (whole rest bridge.new) room.old.post.log room.new.post.log) }
{
    let tree = site.tree();
    tree.is_tree();
    if !has_etag_type(frame) {
        return hear(site, below, frame, room, bridge);
    }
    let Some(port) = holder(site, bridge, bridge_port, frame) else {
        return Ok(());
    };
    let Some(number) = hung_on(tree, port) else {
        return Ok(());
    };
    let mut inner = room.post.store.buffer(room.post.alloc);
    strip_into(frame, &mut inner)?;
    hear(site, number, inner.as_slice(), room, bridge)?;
    room.post.store.keep(Bytes::from_vec(inner));
    Ok(())
}

/// A data word comes to a cascade port of the bridge: its frame comes from the port whose channel
/// it has. The E-TAG is taken out where it stands.
#[inline(always)]
fn take_data(
    site: &TreeIndex,
    bridge_port: u8,
    word: BoxedFrame,
    room: &mut StepScratch,
    bridge: &mut Bridge,
) -> Result<(), NoMemory>
    ghost rest: { Rest }
    requires at { IsAt site.now (whole rest bridge.old) }
    requires from1 { 1 ≤ bridge_port }
    requires to64 { bridge_port ≤ 64 }
    requires cascade { is_cascade site.now.tree (bridge_port - 1) ≡ true }
    ensures { OnOk result
        (Does (comes_from site.now.tree (holder_by (world_in (whole rest bridge.old))
        (bridge_port - 1) (read_etag word.bytes)) word.stamp (stripped word.bytes)
        (world_in (whole rest bridge.old))) site.now (whole rest bridge.new) room.old.post.log
        room.new.post.log) }
{
    let Some(port) = holder(site, bridge, bridge_port, word.bytes()) else {
        return Ok(());
    };
    let Some(stamp) = word.stamp() else {
        return Ok(());
    };
    if !site.tree().is_external(port) {
        return Ok(());
    }
    let mut bytes = room.post.store.unboxed(room.post.alloc, word);
    strip_in_place(&mut bytes);
    let stamp = Stamp { port, ..stamp };
    come_in(site, &stamp, bytes, room, bridge)
}

/// The bridge takes a word at its port on which an extender hangs.
#[inline(always)]
pub fn take(
    site: &TreeIndex,
    bridge_port: u8,
    below: u8,
    word: BoxedFrame,
    room: &mut StepScratch,
    bridge: &mut Bridge,
) -> Result<(), NoMemory>
    ghost rest: { Rest }
    requires at { IsAt site.now (whole rest bridge.old) }
    requires from1 { 1 ≤ bridge_port }
    requires to64 { bridge_port ≤ 64 }
    requires hangs { HangsOn site.now.tree below (bridge_port - 1) }
    requires asks { AsksWell site.now.tree (limits_in site.now)
        (world_in (whole rest bridge.old)).control }
    ensures { OnOk result (Does (bridge_takes site.now.tree (limits_in site.now)
        (bridge_port - 1) below word (world_in (whole rest bridge.old))) site.now
        (whole rest bridge.new) room.old.post.log room.new.post.log) }
{
    site.tree().is_tree();
    if word.is_control() {
        let frame = word.bytes();
        take_control(site, bridge_port, below, frame, room, bridge)?;
        room.post.store.keep_word(room.post.alloc, word);
        Ok(())
    } else {
        take_data(site, bridge_port, word, room, bridge)
    }
}
