//! Rule 3: the words of each direction of each link.
ghost use Rattle.std.specs.Prelude.{◌≡◌, ◌+◌, ◌^◌, ◌<◌, ◌==◌, ◌&&◌, ◌∷◌, ℕ, [], List, None, true, false, length, IfOk, OnOk};
ghost use Rattle.std.specs.Bool.{Decides};
ghost use Rattle.exb_model.specs.Tree.{Shape};
ghost use Rattle.exb_trace_spec.specs.TraceChecker.{comes_in, goes_out, is_used_up, link_line, new_link, some_within, through, Link};
ghost use Rattle.exb_trace_spec.specs.Rules.{KeepsLinks};
ghost use Rattle.exb_audit.specs.Frames.{is_next};
ghost use Rattle.exb_audit.specs.Rule3Links.{before_in, both_used_up, noted, place_in, some_or, words_of, IsDirection};

use exb_model::address::is_control_frame;
use exb_model::memory::NoMemory;
use exb_model::port::{DEVICES, PortId};
use exb_model::trace::{TraceLine, TraceWay};
use exb_trace_spec::checker_laws::rule_3_is_decided;
use std::alloc::Global;
use std::collections::BTreeMap;

/// A side of a device: 0 is upstream.
#[derive(Clone, Copy)]
pub(crate) struct DeviceSide {
    who: u8,
    at: u8,
}

/// What went one way over a link.
#[derive(Drop)]
pub(crate) struct LinkDirection<'a> {
    /// Of each control word that went out, how many data words went out before it first did.
    before: BTreeMap<&'a [u8], usize>,
    /// The data words that went out.
    sent: Vec<&'a [u8]>,
    /// How many of them came in.
    came: usize,
}

/// Notes how many data words went out before a control word, where it goes out for the first time.
fn note<'a>(
    before: &mut BTreeMap<&'a [u8], usize>,
    frame: &'a [u8],
    count: usize,
) -> Result<(), NoMemory>
    ensures { OnOk result ((g : List ℕ) → before_in before.new g
        ≡ some_or (before_in before.old g) (noted frame.now count g)) }
{
    if before.contains_key(frame) {
        return Ok(());
    }
    before.insert(frame, count)?;
    Ok(())
}

/// Whether a side of a device is that place.
fn is_at(place: &DeviceSide, who: u8, side: u8) -> bool
    ensures { result ≡ ((who == place.now.who) && (side == place.now.at)) }
{
    who == place.who && side == place.at
}

impl<'a> LinkDirection<'a> {
    /// Nothing went out.
    fn new(alloc: Global) -> LinkDirection<'a>
        ensures { IsDirection result new_link }
    {
        LinkDirection {
            before: BTreeMap::new(alloc),
            sent: Vec::new(alloc),
            came: 0,
        }
    }

    /// A word goes out.
    fn put(&mut self, frame: &'a [u8]) -> Result<(), NoMemory>
        ensures { OnOk result ((x : Link) → IsDirection self.old x
            → IsDirection self.new (goes_out (frame.now ∷ []) x)) }
    {
        if is_control_frame(frame) {
            return note(&mut self.before, frame, self.sent.len());
        }
        self.sent.push(frame)?;
        Ok(())
    }

    /// Whether it is the data word that is the next to come in.
    fn is_next(&self, frame: &[u8]) -> bool
        ensures value { result ≡ is_next (words_of self.now.sent.items) self.now.came frame.now }
        ensures fits { result ≡ true → self.now.came + 1 < 2 ^ 64 }
    {
        let sent = self.sent.as_slice();
        if self.came >= sent.len() {
            return false;
        }
        sent[self.came] == frame
    }

    /// Whether a control word may come in: it went out, and the data words that went out before it
    /// first did came in.
    fn may_come(&self, frame: &[u8]) -> bool
        ensures { result ≡ some_within self.now.came (before_in self.now.before frame.now) }
    {
        match self.before.get(frame) {
            Some(count) => *count <= self.came,
            None => false,
        }
    }

    /// A word comes in; false exactly where it may not.
    fn take(&mut self, frame: &[u8]) -> bool
        ensures yes { result ≡ true → (x : Link) → IsDirection self.old x
            → IsDirection self.new (comes_in (frame.now ∷ []) x) }
        ensures no { result ≡ false → (x : Link) → IsDirection self.old x
            → (comes_in (frame.now ∷ []) x).waiting ≡ None }
    {
        if is_control_frame(frame) {
            return self.may_come(frame);
        }
        if !self.is_next(frame) {
            return false;
        }
        self.came += 1;
        true
    }

    /// Takes a line; false exactly where a word comes in that may not.
    fn follow(
        &mut self,
        from: &DeviceSide,
        to: &DeviceSide,
        line: &'a TraceLine,
    ) -> Result<bool, NoMemory>
        ensures yes { IfOk result (λ good. good ≡ true → (x : Link) → IsDirection self.old x
            → IsDirection self.new (link_line (place_in from.now) (place_in to.now) x line.now)) }
        ensures no { IfOk result (λ good. good ≡ false → (x : Link) → IsDirection self.old x
            → (link_line (place_in from.now) (place_in to.now) x line.now).waiting ≡ None) }
    {
        match line.way {
            TraceWay::In => {
                if !is_at(to, line.who, line.side) {
                    return Ok(true);
                }
                Ok(self.take(line.bytes.as_slice()))
            }
            TraceWay::Out => {
                if !is_at(from, line.who, line.side) {
                    return Ok(true);
                }
                self.put(line.bytes.as_slice())?;
                Ok(true)
            }
            TraceWay::Beat | TraceWay::Journal => Ok(true),
        }
    }

    /// Whether all data words that went out came in.
    fn is_empty(&self) -> bool
        ensures { (x : Link) → IsDirection self.now x → result ≡ is_used_up x.waiting }
    {
        self.came >= self.sent.len()
    }
}

/// Goes through the lines with a direction in which nothing went out.
fn carry_all<'a>(
    direction: &mut LinkDirection<'a>,
    from: &DeviceSide,
    to: &DeviceSide,
    trace: &'a [TraceLine],
) -> Result<bool, NoMemory>
    requires { IsDirection direction.old new_link }
    ensures { IfOk result (λ good. good
        ≡ is_used_up (through (link_line (place_in from.now) (place_in to.now)) new_link
        trace.now).waiting) }
{
    for line in trace {
        if !direction.follow(from, to, line)? {
            return Ok(false);
        }
    }
    Ok(direction.is_empty())
}

/// Whether the words from one place to another come in as they may, and no data word is still to
/// come at the end.
fn carries(
    alloc: Global,
    from: &DeviceSide,
    to: &DeviceSide,
    trace: &[TraceLine],
) -> Result<bool, NoMemory>
    ensures { IfOk result (λ good. good
        ≡ is_used_up (through (link_line (place_in from.now) (place_in to.now)) new_link
        trace.now).waiting) }
{
    let mut direction = LinkDirection::new(alloc);
    carry_all(&mut direction, from, to, trace)
}

/// Whether both directions of the link of an extender do so, which hangs on a port.
fn carries_both(
    alloc: Global,
    number: u8,
    port: PortId,
    trace: &[TraceLine],
) -> Result<bool, NoMemory>
    ensures { IfOk result (λ good. good ≡ both_used_up number port trace.now) }
{
    let low = DeviceSide { who: number, at: 0 };
    let high = DeviceSide {
        who: port.device(),
        at: port.place() + 1,
    };
    if !carries(alloc, &low, &high, trace)? {
        return Ok(false);
    }
    carries(alloc, &high, &low, trace)
}

/// Whether they do so at a device, if it is an extender: it has ports then.
fn carries_if(
    alloc: Global,
    number: u8,
    ports: u8,
    port: PortId,
    trace: &[TraceLine],
) -> Result<bool, NoMemory>
    ensures yes { IfOk result (λ good. good ≡ true → 0 < ports → both_used_up number port trace.now
        ≡ true) }
    ensures no { IfOk result (λ good. good ≡ false → (0 < ports)
        × (both_used_up number port trace.now ≡ false)) }
{
    if ports == 0 {
        return Ok(true);
    }
    carries_both(alloc, number, port, trace)
}

/// Whether the words of each direction of each link do so.
pub(crate) fn keep_links(
    alloc: Global,
    ports: &[u8],
    hanging: &[PortId],
    trace: &[TraceLine],
) -> Result<bool, NoMemory>
    requires ports { length ports.now ≡ 65 }
    requires hanging { length hanging.now ≡ 65 }
    ensures { IfOk result (λ good. (t : Shape) → t.ports ≡ ports.now → t.on ≡ hanging.now
        → Decides good (KeepsLinks t trace.now)) }
{
    rule_3_is_decided();
    for number in 1..DEVICES {
        let at = number as usize;
        if !carries_if(alloc, number, ports[at], hanging[at], trace)? {
            return Ok(false);
        }
    }
    Ok(true)
}
