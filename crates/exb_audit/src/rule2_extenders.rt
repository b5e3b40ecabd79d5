//! Rule 2: each extender does what the machine of an extender does.
ghost use Rattle.std.specs.Prelude.{◌≡◌, ◌++◌, ◌<◌, ◌≤◌, ℕ, List, Some, true, false, length, take, drop, slice_index, All, IfOk, OnOk};
ghost use Rattle.std.specs.Bool.{Decides};
ghost use Rattle.std.specs.Str.{bytes_eq};
ghost use Rattle.exb_model.specs.ETags.{etag_bytes, stripped, tagged};
ghost use Rattle.exb_model.specs.Tree.{Shape};
ghost use Rattle.exb_extender.specs.Forwarding.{channel_tag};
ghost use Rattle.exb_extender.specs.Machine.{Arrives, Beats};
ghost use Rattle.exb_extender.specs.SentFrames.{bytes_in, own_sent, sent_by};
ghost use Rattle.exb_trace_spec.specs.TraceChecker.{is_done, is_first, may_stand, owes_none, through, watch_line};
ghost use Rattle.exb_trace_spec.specs.Rule1Places.{NamesPlace};
ghost use Rattle.exb_trace_spec.specs.Traversals.{Each};
ghost use Rattle.exb_trace_spec.specs.Rule2Extenders.{given, side_number, side_of, watched, without_first, FollowMachines};
ghost use Rattle.exb_audit.specs.Rule2Extenders.{done_at, is_rest, powered_on, watch_of, HasPorts, IsSideOf};

use exb_extender::{Extender, Form, Sends, Side};
use exb_model::memory::NoMemory;
use exb_model::port::DEVICES;
use exb_model::trace::{TraceLine, TraceWay};
use exb_trace_spec::checker_laws::rule_2_is_decided;
use std::alloc::Global;

/// An extender that is watched: what came last, what it sends for it, and how much of that went
/// out.
#[derive(Drop)]
pub(crate) struct Watcher {
    extender: Extender,
    sends: Sends,
    frame: Vec<u8>,
    gone: usize,
}

/// What stands behind so many bytes of a frame, where the other begins with them.
pub(crate) fn behind<'a>(frame: &'a [u8], part: &[u8]) -> Option<&'a [u8]>
    ensures { (more : List ℕ) → bytes_eq (part.now ++ more) frame.now ≡ is_rest more result }
{
    frame.strip_prefix(part)
}

/// The first bytes of a frame, at most so many, and those behind them.
fn parted(frame: &[u8], size: usize) -> (&[u8], &[u8])
    ensures first { result.0.now ≡ take size frame.now }
    ensures rest { result.1.now ≡ drop size frame.now }
{
    if size >= frame.len() {
        return (frame, &[]);
    }
    frame.split_at(size)
}

/// The bytes of the E-TAG that an extender puts in: that of a channel alone.
fn tag_bytes(channel: u16) -> [u8; 8]
    ensures { result ≡ etag_bytes (channel_tag channel) }
{
    let [high, low] = channel.to_be_bytes();
    [0x89, 0x3F, 0, 0, high, low, 0, 0]
}

/// Whether bytes are those of a frame without the eight bytes at byte 12.
fn is_stripped(frame: &[u8], bytes: &[u8]) -> bool
    ensures { result ≡ bytes_eq (stripped frame.now) bytes.now }
{
    let (head, _) = parted(frame, 12);
    let (_, tail) = parted(frame, 20);
    match behind(bytes, head) {
        Some(rest) => tail == rest,
        None => false,
    }
}

/// Whether bytes are those of a frame with the E-TAG of a channel at byte 12.
fn is_tagged(frame: &[u8], channel: u16, bytes: &[u8]) -> bool
    ensures { result ≡ bytes_eq (tagged frame.now (channel_tag channel)) bytes.now }
{
    let (head, tail) = parted(frame, 12);
    let Some(rest) = behind(bytes, head) else {
        return false;
    };
    match behind(rest, &tag_bytes(channel)) {
        Some(rest) => tail == rest,
        None => false,
    }
}

/// Whether bytes are those of a frame in a form.
fn has_form(frame: &[u8], form: &Form, bytes: &[u8]) -> bool
    ensures { result ≡ bytes_eq (bytes_in frame.now form.now) bytes.now }
{
    match form {
        Form::AsIs => frame == bytes,
        Form::Stripped => is_stripped(frame, bytes),
        Form::Tagged { channel } => is_tagged(frame, *channel, bytes),
    }
}

/// The number of a side: 0 is upstream.
fn side_number(side: &Side) -> u8
    ensures { result ≡ side_number side.now }
{
    match side {
        Side::Up => 0,
        Side::Port { port } => *port,
    }
}

/// A side by its number.
fn side_of(number: u8) -> Side
    ensures { result ≡ side_of number }
{
    if number == 0 {
        Side::Up
    } else {
        Side::Port { port: number }
    }
}

/// Whether it is the one frame at a place, from 0, where one stands if it isn't empty.
fn is_only(frame: &[u8], place: usize, bytes: &[u8]) -> bool
    ensures value { result ≡ is_first 0 bytes.now (drop place (own_sent frame.now)) }
    ensures within { result ≡ true → place ≡ 0 }
{
    if frame.is_empty() {
        return false;
    }
    if place != 0 {
        return false;
    }
    frame == bytes
}

/// Whether it is the control frame of the extender's own at a place, from 0: of the two those that
/// aren't empty.
fn is_own(sends: &Sends, place: usize, side: u8, bytes: &[u8]) -> bool
    ensures value { result ≡ is_first side bytes.now
        (drop place (own_sent sends.now.first.items ++ own_sent sends.now.second.items)) }
    ensures within { result ≡ true → place ≤ 1 }
{
    let first = sends.first.as_slice();
    let second = sends.second.as_slice();
    if side != 0 {
        return false;
    }
    if first.is_empty() {
        return is_only(second, place, bytes);
    }
    if place == 0 {
        return first == bytes;
    }
    is_only(second, place - 1, bytes)
}

/// Whether it is what is sent at a place, from 0.
fn is_sent(sends: &Sends, frame: &[u8], place: usize, side: u8, bytes: &[u8]) -> bool
    ensures value { result ≡ is_first side bytes.now (drop place (sent_by frame.now sends.now)) }
    ensures within { result ≡ true → place < 100 }
{
    let frames = sends.frames.as_slice();
    if place >= frames.len() {
        return is_own(sends, place - frames.len(), side, bytes);
    }
    let out = frames[place];
    side_number(&out.to) == side && has_form(frame, &out.form, bytes)
}

/// How much is sent.
fn sent_count(sends: &Sends) -> usize
    ensures { (frame : List ℕ) → result ≡ length (sent_by frame sends.now) }
{
    let mut count = sends.frames.len();
    if !sends.first.is_empty() {
        count += 1;
    }
    if !sends.second.is_empty() {
        count += 1;
    }
    count
}

impl Watcher {
    /// An extender at power-on.
    fn new(alloc: Global, number: u8, ports: u8) -> Result<Watcher, NoMemory>
        requires numbered { (1 ≤ number) × (number ≤ 64) }
        requires ports { (1 ≤ ports) × (ports ≤ 64) }
        ensures watch { IfOk result (λ made. watch_of made ≡ powered_on number ports) }
        ensures ports { IfOk result (λ made. HasPorts ports made) }
    {
        Ok(Watcher {
            extender: Extender::new(alloc, number, ports)?,
            sends: Sends::new(),
            frame: Vec::new(alloc),
            gone: 0,
        })
    }

    /// Whether all that it sends went out.
    fn is_done(&self) -> bool
        ensures { result ≡ owes_none (watch_of self.now).owed }
    {
        self.gone >= sent_count(&self.sends)
    }

    /// A frame comes in at a side.
    fn take(&mut self, side: u8, frame: &[u8]) -> Result<(), NoMemory>
        requires { (ports : ℕ) × (HasPorts ports self.old × (side ≤ ports)) }
        ensures watch { OnOk result (watch_of self.new ≡ given (Arrives (side_of side) frame.now)
            (watch_of self.old)) }
        ensures ports { OnOk result ((ports : ℕ) → HasPorts ports self.old
            → HasPorts ports self.new) }
    {
        self.frame.clear();
        self.frame.extend_from_slice(frame)?;
        self.gone = 0;
        if side == 0 || self.extender.cascade(side) {
            self.extender.take(side_of(side), frame, &mut self.sends);
        } else {
            self.extender.arrive(side, frame, &mut self.sends);
        }
        Ok(())
    }

    /// A beat passes.
    fn beat(&mut self)
        ensures watch { watch_of self.new ≡ given Beats (watch_of self.old) }
        ensures ports { (ports : ℕ) → HasPorts ports self.old → HasPorts ports self.new }
    {
        self.frame.clear();
        self.gone = 0;
        self.extender.beat(&mut self.sends);
    }

    /// A frame goes out at a side; false exactly where it isn't the next that it sends.
    fn send(&mut self, side: u8, frame: &[u8]) -> bool
        ensures right { result ≡ is_first side frame.now (watch_of self.old).owed }
        ensures watch { result ≡ true → watch_of self.new
            ≡ record (watch_of self.old) { owed = without_first (watch_of self.old).owed } }
        ensures ports { (ports : ℕ) → HasPorts ports self.old → HasPorts ports self.new }
    {
        if !is_sent(&self.sends, self.frame.as_slice(), self.gone, side, frame) {
            return false;
        }
        self.gone += 1;
        true
    }

    /// Takes a line; false exactly where it may not stand there.
    fn follow(&mut self, number: u8, line: &TraceLine) -> Result<bool, NoMemory>
        requires { (ports : ℕ) × (HasPorts ports self.old × IsSideOf number ports line.now) }
        ensures right { IfOk result (λ good. good ≡ may_stand number (watch_of self.old) line.now) }
        ensures watch { IfOk result (λ good. good ≡ true → watch_of self.new
            ≡ watched number (watch_of self.old) line.now) }
        ensures ports { OnOk result ((ports : ℕ) → HasPorts ports self.old
            → HasPorts ports self.new) }
    {
        match line.way {
            TraceWay::In => {
                if line.who != number {
                    return Ok(true);
                }
                if !self.is_done() {
                    return Ok(false);
                }
                self.take(line.side, line.bytes.as_slice())?;
                Ok(true)
            }
            TraceWay::Out => {
                if line.who != number {
                    return Ok(true);
                }
                Ok(self.send(line.side, line.bytes.as_slice()))
            }
            TraceWay::Beat => {
                if !self.is_done() {
                    return Ok(false);
                }
                self.beat();
                Ok(true)
            }
            TraceWay::Journal => Ok(true),
        }
    }
}

/// Goes through the lines with a watcher at power-on.
fn follow_all(watcher: &mut Watcher, number: u8, trace: &[TraceLine]) -> Result<bool, NoMemory>
    requires { (ports : ℕ) × (HasPorts ports watcher.old × All (IsSideOf number ports) trace.now) }
    ensures { IfOk result (λ good. good
        ≡ is_done (through (watch_line number) (Some (watch_of watcher.old)) trace.now)) }
{
    for line in trace {
        if !watcher.follow(number, line)? {
            return Ok(false);
        }
    }
    Ok(watcher.is_done())
}

/// Whether an extender does what the machine of an extender does.
fn follows(alloc: Global, number: u8, ports: u8, trace: &[TraceLine]) -> Result<bool, NoMemory>
    requires numbered { (1 ≤ number) × (number ≤ 64) }
    requires ports { (1 ≤ ports) × (ports ≤ 64) }
    requires sides { All (IsSideOf number ports) trace.now }
    ensures { IfOk result (λ good. good ≡ done_at number ports trace.now) }
{
    let mut watcher = Watcher::new(alloc, number, ports)?;
    follow_all(&mut watcher, number, trace)
}

/// Whether a device does so, if it is an extender: it has ports then.
fn follows_if(alloc: Global, number: u8, ports: u8, trace: &[TraceLine]) -> Result<bool, NoMemory>
    requires numbered { (1 ≤ number) × (number ≤ 64) }
    requires ports { ports ≤ 64 }
    requires sides { All (IsSideOf number ports) trace.now }
    ensures yes { IfOk result (λ good. good ≡ true → 0 < ports → done_at number ports trace.now
        ≡ true) }
    ensures no { IfOk result (λ good. good ≡ false → (0 < ports)
        × (done_at number ports trace.now ≡ false)) }
{
    if ports == 0 {
        return Ok(true);
    }
    follows(alloc, number, ports, trace)
}

/// Whether each extender does what the machine of an extender does.
pub(crate) fn follow_machines(
    alloc: Global,
    ports: &[u8],
    trace: &[TraceLine],
) -> Result<bool, NoMemory>
    requires sized { length ports.now ≡ 65 }
    requires few { (n : ℕ) → slice_index ports.now n ≤ 64 }
    requires places { (t : Shape) × ((t.ports ≡ ports.now) × Each (NamesPlace t) trace.now) }
    ensures { IfOk result (λ good. (t : Shape) → t.ports ≡ ports.now
        → Decides good (FollowMachines t trace.now)) }
{
    rule_2_is_decided();
    for number in 1..DEVICES {
        if !follows_if(alloc, number, ports[number as usize], trace)? {
            return Ok(false);
        }
    }
    Ok(true)
}
