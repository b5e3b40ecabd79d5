//! The lines of a step in a trace: what comes in, then the journal, then what goes out. Where no
//! trace is kept none is told.
ghost use Rattle.std.specs.Prelude.{◌≡◌, ◌++◌, ◌≤◌, ◌∷◌, [], true, OnOk, IfOk, drop, length, map};
ghost use Rattle.std.specs.Option.{option_copied};
ghost use Rattle.exb_model.specs.Traces.{line_by};
ghost use Rattle.exb_model.specs.Tree.{is_extender};
ghost use Rattle.exb_world_spec.specs.Steps.{control_at, first_data, line_at, line_of_any, words_on};
ghost use Rattle.exb_world_spec.specs.TraceLines.{all_told, told};
ghost use Rattle.exb_world_spec.specs.Worlds.{BeatLine, Journal};
ghost use Rattle.exb_world.specs.StepLines.{IsBegun, IsTold};
ghost use Rattle.exb_world.specs.Steps.{way_of};
ghost use Rattle.exb_world.specs.MachineWorlds.{world_in};

use crate::parts::WorldParts;
use crate::step::Way;
use crate::world::link_of;
use exb_bridge::TreeIndex;
use exb_journal::event_bytes;
use exb_link::BoxedFrame;
use exb_model::arrival::Arrival;
use exb_model::bytes::Bytes;
use exb_model::event::Event;
use exb_model::list::List;
use exb_model::memory::NoMemory;
use exb_model::port::PortId;
use exb_model::trace::{TraceLine, TraceWay};
use exb_outbox::{Log, StepOutput};
use std::alloc::Global;
use std::mem;

/// Puts a line behind others.
fn put(
    alloc: Global,
    way: TraceWay,
    who: u8,
    side: u8,
    bytes: &[u8],
    to: &mut List<TraceLine>,
) -> Result<(), NoMemory>
    ensures { OnOk result (to.new ≡ to.old ++ line_by way who side bytes.now ∷ []) }
{
    to.push(TraceLine {
        who,
        way,
        side,
        bytes: Bytes::from_slice(alloc, bytes)?,
    })
}

/// A step begins, and a trace is kept: nothing has gone out in it yet. It gives how many events
/// were told before it.
fn begin(log: &mut Log) -> usize
    ensures { IsBegun [] result log.old log.new }
{
    log.outs.clear();
    log.events.as_slice().len()
}

/// A step begins in which something comes in, and a trace is kept.
#[cold]
#[inline(never)]
fn begin_in(
    way: TraceWay,
    who: u8,
    side: u8,
    bytes: &[u8],
    post: &mut StepOutput,
) -> Result<usize, NoMemory>
    requires { post.old.log.tracing ≡ true }
    ensures { IfOk result (λ from. IsBegun (line_by way who side bytes.now ∷ []) from post.old.log
        post.new.log) }
{
    let from = begin(&mut post.log);
    put(post.alloc, way, who, side, bytes, &mut post.log.lines)?;
    Ok(from)
}

/// A step begins in which a frame comes in by a port, and a trace is kept.
fn begin_at(port: PortId, frame: &[u8], post: &mut StepOutput) -> Result<usize, NoMemory>
    requires { post.old.log.tracing ≡ true }
    ensures { IfOk result (λ from. IsBegun (told (line_at port frame.now) ∷ []) from post.old.log
        post.new.log) }
{
    begin_in(TraceWay::In, port.device(), port.place() + 1, frame, post)
}

/// A step begins in which a word, if there is one, comes in at the end of its direction, and a
/// trace is kept.
#[cold]
#[inline(never)]
fn begin_word(
    site: &TreeIndex,
    number: u8,
    way: Way,
    word: Option<&BoxedFrame>,
    post: &mut StepOutput,
) -> Result<usize, NoMemory>
    requires there { is_extender site.now.tree number ≡ true }
    requires tracing { post.old.log.tracing ≡ true }
    ensures { IfOk result (λ from.
        IsBegun (all_told (line_of_any site.now.tree number (way_of way)
        (option_copied word.entry))) from post.old.log post.new.log) }
{
    let Some(word) = word else {
        return Ok(begin(&mut post.log));
    };
    match way {
        Way::Up => begin_at(site.on(number), word.bytes(), post),
        Way::Down => begin_in(TraceWay::In, number, 0, word.bytes(), post),
    }
}

/// A step begins in which nothing comes in. Like all that tell a beginning it gives how many events
/// were told before it, where a trace is kept.
pub(crate) fn tell_nothing(log: &mut Log) -> usize
    ensures { IsBegun [] result log.old log.new }
{
    if log.tracing { begin(log) } else { 0 }
}

/// A step begins in which a frame arrives.
#[inline(always)]
pub(crate) fn tell_arrival(arrival: &Arrival, post: &mut StepOutput) -> Result<usize, NoMemory>
    ensures { IfOk result (λ from. IsBegun (told (line_at arrival.now.port arrival.now.bytes) ∷ [])
        from post.old.log post.new.log) }
{
    if !post.log.tracing {
        return Ok(0);
    }
    begin_at(arrival.port, arrival.bytes.as_slice(), post)
}

/// A step begins in which the first data word of a direction is taken.
#[inline(always)]
pub(crate) fn tell_data(
    site: &TreeIndex,
    number: u8,
    way: Way,
    core: &WorldParts,
    post: &mut StepOutput,
) -> Result<usize, NoMemory>
    requires { is_extender site.now.tree number ≡ true }
    ensures { IfOk result (λ from.
        IsBegun (all_told (line_of_any site.now.tree number (way_of way)
        (first_data (words_on number (way_of way) (world_in core.now))))) from post.old.log
        post.new.log) }
{
    if !post.log.tracing {
        return Ok(0);
    }
    site.has_low_number(number);
    let word = link_of(core, number, way).first_data();
    begin_word(site, number, way, word, post)
}

/// A step begins in which the control word at a position of a direction is taken.
pub(crate) fn tell_control(
    site: &TreeIndex,
    number: u8,
    way: Way,
    at: u64,
    core: &WorldParts,
    post: &mut StepOutput,
) -> Result<usize, NoMemory>
    requires { is_extender site.now.tree number ≡ true }
    ensures { IfOk result (λ from.
        IsBegun (all_told (line_of_any site.now.tree number (way_of way)
        (control_at (words_on number (way_of way) (world_in core.now)) at))) from post.old.log
        post.new.log) }
{
    if !post.log.tracing {
        return Ok(0);
    }
    site.has_low_number(number);
    let word = link_of(core, number, way).control_at(at);
    begin_word(site, number, way, word, post)
}

/// A beat begins.
#[inline(always)]
pub(crate) fn tell_beat(post: &mut StepOutput) -> Result<usize, NoMemory>
    ensures { IfOk result (λ from. IsBegun (told BeatLine ∷ []) from post.old.log post.new.log) }
{
    if !post.log.tracing {
        return Ok(0);
    }
    begin_in(TraceWay::Beat, 0, 0, &[], post)
}

/// A line of the journal.
fn put_event(alloc: Global, event: &Event, to: &mut List<TraceLine>) -> Result<(), NoMemory>
    ensures { OnOk result (to.new ≡ to.old ++ told (Journal event.now) ∷ []) }
{
    to.push(TraceLine {
        who: 0,
        way: TraceWay::Journal,
        side: 0,
        bytes: event_bytes(alloc, event)?,
    })
}

/// The lines of the journal for events.
fn put_events(alloc: Global, events: &[Event], to: &mut List<TraceLine>) -> Result<(), NoMemory>
    ensures { OnOk result (to.new ≡ to.old ++ all_told (map Journal events.now)) }
{
    for event in events {
        put_event(alloc, event, to)?;
    }
    Ok(())
}

/// Moves lines behind others.
fn put_outs(outs: Vec<TraceLine>, to: &mut List<TraceLine>) -> Result<(), NoMemory>
    ensures { OnOk result (to.new ≡ to.old ++ outs.items) }
{
    for line in outs {
        to.push(line)?;
    }
    Ok(())
}

/// Tells the events from a place on, and what went out.
#[cold]
#[inline(never)]
fn end(from: usize, post: &mut StepOutput) -> Result<(), NoMemory>
    requires few { from ≤ length post.old.log.events }
    requires tracing { post.old.log.tracing ≡ true }
    ensures { OnOk result (IsTold (drop from post.old.log.events) post.old.log post.new.log) }
{
    let alloc = post.alloc;
    let log = &mut post.log;
    let (_, events) = log.events.as_slice().split_at(from);
    put_events(alloc, events, &mut log.lines)?;
    put_outs(mem::replace(&mut log.outs, Vec::new(alloc)), &mut log.lines)
}

/// A step ends: the events from a place on, which happened in it, and what went out are told.
#[inline(always)]
pub(crate) fn tell_rest(from: usize, post: &mut StepOutput) -> Result<(), NoMemory>
    requires { from ≤ length post.old.log.events }
    ensures { OnOk result (IsTold (drop from post.old.log.events) post.old.log post.new.log) }
{
    if post.log.tracing {
        end(from, post)
    } else {
        Ok(())
    }
}
