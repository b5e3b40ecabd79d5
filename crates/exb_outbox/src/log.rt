//! What happened in a network.
ghost use Rattle.std.specs.Prelude.{◌≡◌, ◌++◌, ◌∷◌, [], OnOk, IfOk};
ghost use Rattle.exb_model.specs.Traces.{Out};
ghost use Rattle.exb_outbox.specs.PortMaps.{ports_in};
ghost use Rattle.exb_outbox.specs.Logs.{if_tracing, row_outs};

use crate::free_list::FreeList;
use crate::port_map::PortMap;
use exb_model::bytes::Bytes;
use exb_model::event::Event;
use exb_model::list::List;
use exb_model::memory::NoMemory;
use exb_model::trace::{TraceLine, TraceWay};
use std::alloc::Global;
use std::mem;

/// A frame that left a device, at each port of a row, with the moment of its records in
/// nanoseconds.
#[derive(Drop)]
pub struct Left {
    /// The ports at which it left.
    pub row: PortMap,
    /// The moment of its records.
    pub moment: u64,
    /// The frame.
    pub bytes: Bytes,
}

/// What has happened since the last `clear`, in order.
pub struct Log {
    /// What was told.
    pub events: List<Event>,
    /// For each Relay among the events whether its frame passed at its port.
    pub passed: List<bool>,
    /// What left.
    pub left: List<Left>,
    /// What passed and happened, as lines of the trace.
    pub lines: List<TraceLine>,
    /// Whether a trace is kept, which never changes; else there are no lines.
    pub tracing: bool,
    /// What the step that is being made has sent so far, as lines of the trace.
    pub outs: Vec<TraceLine>,
}

impl Drop for Log {
    fn drop(self) {
        let Log {
            events: _,
            passed: _,
            left: _,
            lines: _,
            tracing: _,
            outs: _,
        } = self;
    }
}

impl Log {
    /// Nothing has happened.
    pub fn new(alloc: Global, tracing: bool) -> Log
        ensures events { result.events ≡ [] }
        ensures passed { result.passed ≡ [] }
        ensures left { result.left ≡ [] }
        ensures lines { result.lines ≡ [] }
        ensures tracing { result.tracing ≡ tracing }
    {
        Log {
            events: List::new(alloc),
            passed: List::new(alloc),
            left: List::new(alloc),
            lines: List::new(alloc),
            tracing,
            outs: Vec::new(alloc),
        }
    }

    /// Forgets what happened. Its lists keep their memory, and the store keeps that of the frames
    /// that were relayed and of those that left.
    #[inline(always)]
    pub fn clear(&mut self, store: &mut FreeList)
        ensures events { self.new.events ≡ [] }
        ensures passed { self.new.passed ≡ [] }
        ensures left { self.new.left ≡ [] }
        ensures lines { self.new.lines ≡ [] }
        ensures tracing { self.new.tracing ≡ self.old.tracing }
    {
        keep_events(&mut self.events, store);
        self.passed.clear();
        self.lines.clear();
        keep_all(&mut self.left, store);
    }
}

/// Forgets events, and keeps the buffers of frames that were relayed.
#[inline(always)]
fn keep_events(events: &mut List<Event>, store: &mut FreeList)
    ensures { events.new ≡ [] }
{
    while let Some(event) = events.pop() {
        if let Event::Relay { bytes, .. } = event {
            store.keep(bytes);
        }
    }
}

/// Forgets frames that left, and keeps their buffers.
#[inline(always)]
fn keep_all(left: &mut List<Left>, store: &mut FreeList)
    ensures { left.new ≡ [] }
{
    while let Some(frame) = left.pop() {
        store.keep(frame.bytes);
    }
}

/// A copy of an event.
#[cold]
#[inline(never)]
pub(crate) fn copy_of(alloc: Global, event: &Event) -> Result<Event, NoMemory>
    ensures { IfOk result (λ copy. copy ≡ event.now) }
{
    match event {
        Event::Relay {
            port,
            index,
            moment,
            bytes,
        } => Ok(Event::Relay {
            port: *port,
            index: *index,
            moment: *moment,
            bytes: Bytes::from_slice(alloc, bytes.as_slice())?,
        }),
        Event::Ignored { port, index } => Ok(Event::Ignored {
            port: *port,
            index: *index,
        }),
        Event::Tick { seconds } => Ok(Event::Tick { seconds: *seconds }),
        Event::Commit { number } => Ok(Event::Commit { number: *number }),
        Event::Refuse { number, cause } => Ok(Event::Refuse {
            number: *number,
            cause: *cause,
        }),
        Event::Up { port } => Ok(Event::Up { port: *port }),
        Event::NoUp { port, cause } => Ok(Event::NoUp {
            port: *port,
            cause: *cause,
        }),
        Event::Settled => Ok(Event::Settled),
    }
}

/// Puts copies of events behind others.
#[cold]
#[inline(never)]
fn copy_events(alloc: Global, events: &[Event], to: &mut List<Event>) -> Result<(), NoMemory>
    ensures { OnOk result (to.new ≡ to.old ++ events.now) }
{
    for event in events {
        to.push(copy_of(alloc, event)?)?;
    }
    Ok(())
}

/// Puts events behind others. Where there were none these are moved, and not copied; and so is the
/// last one.
#[inline(always)]
pub fn add_events(
    alloc: Global,
    events: &mut List<Event>,
    to: &mut List<Event>,
) -> Result<(), NoMemory>
    ensures { OnOk result (to.new ≡ to.old ++ events.old) }
{
    if to.as_slice().is_empty() {
        mem::swap(events, to);
        return Ok(());
    }
    add_behind(alloc, events, to)
}

/// Puts events behind others: copies of all but the last one, which is moved.
#[cold]
#[inline(never)]
fn add_behind(alloc: Global, events: &mut List<Event>, to: &mut List<Event>) -> Result<(), NoMemory>
    ensures { OnOk result (to.new ≡ to.old ++ events.old) }
{
    let Some(last) = events.pop() else {
        return Ok(());
    };
    copy_events(alloc, events.as_slice(), to)?;
    to.push(last)
}

/// A frame goes out by a side of a device: 0 is upstream, else a port's number. Where no trace is
/// kept nothing is copied.
#[inline(always)]
pub fn note_out(
    alloc: Global,
    tracing: bool,
    who: u8,
    side: u8,
    frame: &[u8],
    outs: &mut Vec<TraceLine>,
) -> Result<(), NoMemory>
    ensures { OnOk result (outs.new.items ≡ outs.old.items ++ if_tracing tracing
        (Out who side frame.now ∷ [])) }
{
    if !tracing {
        return Ok(());
    }
    put_out(alloc, who, side, frame, outs)
}

/// A frame goes out by each port of a row. Where no trace is kept nothing is copied.
#[inline(always)]
pub fn note_row(
    alloc: Global,
    tracing: bool,
    row: &PortMap,
    frame: &[u8],
    outs: &mut Vec<TraceLine>,
) -> Result<(), NoMemory>
    ensures { OnOk result (outs.new.items ≡ outs.old.items ++ if_tracing tracing
        (row_outs frame.now (ports_in row.now))) }
{
    if !tracing {
        return Ok(());
    }
    put_row(alloc, *row, frame, outs)
}

/// Puts the lines of a frame that goes out by each port of a row behind others.
#[cold]
#[inline(never)]
fn put_row(
    alloc: Global,
    row: PortMap,
    frame: &[u8],
    outs: &mut Vec<TraceLine>,
) -> Result<(), NoMemory>
    ensures { OnOk result (outs.new.items ≡ outs.old.items ++ row_outs frame.now (ports_in row)) }
{
    let mut rest = row;
    while let Some(port) = rest.next() {
        put_out(alloc, port.device(), port.place() + 1, frame, outs)?;
    }
    Ok(())
}

/// Puts the line of a frame that goes out behind others.
#[cold]
#[inline(never)]
fn put_out(
    alloc: Global,
    who: u8,
    side: u8,
    frame: &[u8],
    outs: &mut Vec<TraceLine>,
) -> Result<(), NoMemory>
    ensures { OnOk result (outs.new.items ≡ outs.old.items ++ Out who side frame.now ∷ []) }
{
    outs.push(TraceLine {
        who,
        way: TraceWay::Out,
        side,
        bytes: Bytes::from_slice(alloc, frame)?,
    })?;
    Ok(())
}

/// What a step is lent for what goes out and what it tells: memory, buffers, and what has happened.
pub struct StepOutput {
    /// The memory that all of it comes from.
    pub alloc: Global,
    /// Buffers of words that are gone, for those that are to come.
    pub store: FreeList,
    /// What has happened.
    pub log: Log,
}

impl Drop for StepOutput {
    fn drop(self) {
        let StepOutput {
            alloc: _,
            store: _,
            log: _,
        } = self;
    }
}
