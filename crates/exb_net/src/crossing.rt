//! Frames between bridges.
ghost use Rattle.std.specs.Prelude.{◌≡◌, ◌-◌, ◌∷◌, ◌++◌, [], Some, OnOk, drop, length};
ghost use Rattle.exb_world_spec.specs.Worlds.{left_at};
ghost use Rattle.exb_bridge.specs.BridgeWorlds.{all_left, copies_at, copies_of};
ghost use Rattle.exb_net_spec.specs.NetHistory.{crosses};
ghost use Rattle.exb_net.specs.WiredPorts.{sent_over};
ghost use Rattle.exb_net.specs.Crossings.{all_crossing};

use crate::wired_ports::WiredPort;
use exb_model::bytes::Bytes;
use exb_model::memory::NoMemory;
use exb_model::port::PortId;
use exb_net_spec::wires::End;
use exb_schedule::Left;
use std::alloc::Global;
use std::collections::VecDeque;

/// A frame that left a wired port, on its way to the far end of the wire, with the moment of its
/// record.
#[derive(Drop)]
pub struct Crossing {
    pub to: End,
    pub moment: u64,
    pub bytes: Bytes,
}

/// Puts a copy of a frame at the end of the queue, where it left this wired port.
fn put(
    alloc: Global,
    end: &WiredPort,
    port: PortId,
    frame: &Left,
    queue: &mut VecDeque<Crossing>,
) -> Result<(), NoMemory>
    ensures { OnOk result (all_crossing queue.new.items ≡ all_crossing queue.old.items
        ++ crosses (Some end.now.far) (left_at end.now.port
        (copies_at frame.now.moment frame.now.bytes (port ∷ [])))) }
{
    if port != end.port {
        return Ok(());
    }
    queue.push_back(Crossing {
        to: end.far,
        moment: frame.moment,
        bytes: Bytes::from_slice(alloc, frame.bytes.as_slice())?,
    })?;
    Ok(())
}

/// So, unless the copy is among those that are to be skipped.
fn put_or_skip(
    alloc: Global,
    end: &WiredPort,
    port: PortId,
    frame: &Left,
    skip: &mut u128,
    queue: &mut VecDeque<Crossing>,
) -> Result<(), NoMemory>
    ensures skip { skip.new ≡ skip.old - 1 }
    ensures put { OnOk result (all_crossing queue.new.items ≡ all_crossing queue.old.items
        ++ crosses (Some end.now.far) (left_at end.now.port
        (drop skip.old (copies_at frame.now.moment frame.now.bytes (port ∷ []))))) }
{
    if *skip > 0 {
        *skip -= 1;
        return Ok(());
    }
    put(alloc, end, port, frame, queue)
}

/// So for each port of a row.
fn put_row(
    alloc: Global,
    end: &WiredPort,
    frame: &Left,
    skip: &mut u128,
    queue: &mut VecDeque<Crossing>,
) -> Result<(), NoMemory>
    ensures skip { OnOk result (skip.new ≡ skip.old - length (copies_of frame.now)) }
    ensures put { OnOk result (all_crossing queue.new.items ≡ all_crossing queue.old.items
        ++ crosses (Some end.now.far) (left_at end.now.port
        (drop skip.old (copies_of frame.now)))) }
{
    let mut rest = frame.row;
    while let Some(port) = rest.next() {
        put_or_skip(alloc, end, port, frame, skip, queue)?;
    }
    Ok(())
}

/// Puts copies of the frames that left a wired port, but for the first so many that left at all, at
/// the end of the queue.
fn send_over(
    alloc: Global,
    end: &WiredPort,
    left: &[Left],
    before: u128,
    queue: &mut VecDeque<Crossing>,
) -> Result<(), NoMemory>
    ensures { OnOk result (all_crossing queue.new.items ≡ all_crossing queue.old.items
        ++ crosses (Some end.now.far) (left_at end.now.port (drop before (all_left left.now)))) }
{
    let mut skip = before;
    for frame in left {
        put_row(alloc, end, frame, &mut skip, queue)?;
    }
    Ok(())
}

/// So for each wired port, in port order.
pub(crate) fn send(
    alloc: Global,
    ends: &[WiredPort],
    left: &[Left],
    before: u128,
    queue: &mut VecDeque<Crossing>,
) -> Result<(), NoMemory>
    ensures { OnOk result (all_crossing queue.new.items ≡ all_crossing queue.old.items
        ++ sent_over (drop before (all_left left.now)) ends.now) }
{
    for end in ends {
        send_over(alloc, end, left, before, queue)?;
    }
    Ok(())
}
