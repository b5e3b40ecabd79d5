//! Rule 5: what the journal says of each frame that comes to the bridge, and what the bridge sends
//! for it.
ghost use Rattle.std.specs.Prelude.{◌≡◌, ◌-◌, ◌<◌, ◌&&◌, ◌∷◌, ◌++◌, ℕ, [], List, true, false, length, slice_index, is_some, option_map, if◌then◌else◌};
ghost use Rattle.std.specs.List.{list_all};
ghost use Rattle.std.specs.Str.{bytes_eq};
ghost use Rattle.exb_model.specs.ETags.{read_etag, stripped};
ghost use Rattle.exb_model.specs.Lists.{numbered};
ghost use Rattle.exb_model.specs.Traces.{TraceLine as Line};
ghost use Rattle.exb_model.specs.Tree.{is_external};
ghost use Rattle.exb_trace_spec.specs.TraceChecker.{few_at, holds_frame, is_entered, is_here, is_step, no_data, says_none, sends_by_relay};
ghost use Rattle.exb_trace_spec.specs.Rule5Relays.{entries, is_arrival, is_data_at, relays};
ghost use Rattle.exb_trace_spec.specs.Traversals.{begins, until_next};
ghost use Rattle.exb_audit.specs.Rule5Relays.{are_right, each_is_right, is_entry_line, is_relay_line, is_sending, is_told, AreCounts, HasLowSide, IsFirstEntry};
ghost use Rattle.exb_audit.specs.Frames.{frames_by, IsTable};
ghost use Rattle.exb_audit.specs.LineWords.{AreFew};

use crate::frames::{PortFrames, frames_at};
use crate::journal_lines::{RecordName, record_in};
use crate::rule2_extenders::behind;
use exb_frame::etag::ETag;
use exb_model::address::is_control_frame;
use exb_model::port::PortId;
use exb_model::trace::{TraceLine, TraceWay};
use exb_model::tree::Tree;

/// The captures, and by port the place at which those of a port stand.
#[derive(Clone, Copy)]
pub(crate) struct CaptureTable<'a> {
    pub(crate) all: &'a [PortFrames],
    pub(crate) table: &'a [usize],
}

/// Whether a line is one of the journal that says that a record was relayed.
#[tactic(auto, unfolding(exb_trace_spec::specs::Rule5Relays::is_relay))]
fn is_relay_line(line: &TraceLine) -> bool
    ensures { result ≡ is_relay_line line.now }
{
    match line.way {
        TraceWay::Journal => line.bytes.as_slice().starts_with(b"relay "),
        _ => false,
    }
}

/// Whether a line is one of the journal that says what became of a record.
#[tactic(auto, unfolding(exb_trace_spec::specs::Rule5Relays::is_relay, exb_trace_spec::specs::Rule5Relays::is_ignore))]
fn is_entry_line(line: &TraceLine) -> bool
    ensures { result ≡ is_entry_line line.now }
{
    match line.way {
        TraceWay::Journal => {
            let text = line.bytes.as_slice();
            text.starts_with(b"relay ") || text.starts_with(b"ignore ")
        }
        _ => false,
    }
}

/// Whether no line says that a record was relayed.
fn has_no_relay(lines: &[TraceLine]) -> bool
    ensures { result ≡ says_none (relays lines.now) }
{
    for line in lines {
        if is_relay_line(line) {
            return false;
        }
    }
    true
}

/// The place of the first line that says what became of a record.
fn first_entry(lines: &[TraceLine]) -> Option<usize>
    ensures { IsFirstEntry lines.now result }
{
    for (i, line) in lines.iter().enumerate() {
        if is_entry_line(line) {
            return Some(i);
        }
    }
    None
}

/// Whether a side of the bridge is a local port.
fn is_local(tree: &Tree, side: u8) -> bool
    ensures { result ≡ is_external tree.now (side - 1) }
{
    let number = u16::from(side.saturating_sub(1));
    tree.is_external(PortId::new(number).unwrap())
}

/// Whether a frame at a side of the bridge is data: at a local port it is, whatever its
/// destination.
fn is_data(tree: &Tree, side: u8, frame: &[u8]) -> bool
    ensures { result ≡ is_data_at tree.now side frame.now }
{
    is_local(tree, side) || !is_control_frame(frame)
}

/// Whether a line is a data frame that comes to the bridge.
fn is_arrival(tree: &Tree, line: &TraceLine) -> bool
    ensures { result ≡ is_arrival tree.now line.now }
{
    match line.way {
        TraceWay::In => line.who == 0 && is_data(tree, line.side, line.bytes.as_slice()),
        _ => false,
    }
}

/// Whether a line is a data frame that the bridge sends.
fn is_sending(tree: &Tree, line: &TraceLine) -> bool
    ensures { result ≡ is_sending tree.now line.now }
{
    match line.way {
        TraceWay::Out => line.who == 0 && is_data(tree, line.side, line.bytes.as_slice()),
        _ => false,
    }
}

/// Whether the bridge sends no data.
fn is_quiet(tree: &Tree, lines: &[TraceLine]) -> bool
    ensures { result ≡ list_all (no_data tree.now) lines.now }
{
    for line in lines {
        if is_sending(tree, line) {
            return false;
        }
    }
    true
}

/// Whether the bridge sends no data where nothing is relayed.
fn sends_by_relay(tree: &Tree, lines: &[TraceLine]) -> bool
    ensures { result ≡ sends_by_relay tree.now lines.now }
{
    if !has_no_relay(lines) {
        return true;
    }
    is_quiet(tree, lines)
}

/// Whether a frame holds another with an E-TAG put in at byte 12.
fn holds_tagged(frame: &[u8], bare: &[u8]) -> bool
    ensures { result ≡ (bytes_eq (stripped frame.now) bare.now && is_some (read_etag frame.now)) }
{
    if ETag::read(frame).is_none() {
        return false;
    }
    if frame.len() < 20 {
        return false;
    }
    match behind(bare, &frame[..12]) {
        Some(rest) => &frame[20..] == rest,
        None => false,
    }
}

/// Whether a frame that comes to the bridge is that of a record.
fn holds(tree: &Tree, side: u8, frame: &[u8], bare: &[u8]) -> bool
    ensures { result ≡ holds_frame tree.now side frame.now bare.now }
{
    if is_local(tree, side) {
        return frame == bare;
    }
    holds_tagged(frame, bare)
}

/// The frame of a record.
fn record_at<'a>(captures: &CaptureTable<'a>, named: &RecordName) -> Option<&'a [u8]>
    requires table { IsTable captures.now.all.now captures.now.table.now }
    requires port { named.now.port < 4160 }
    ensures { option_map (λ f. f.now) result
        ≡ numbered (frames_by captures.now.all.now named.now.port) named.now.index }
{
    let port = PortId::new(named.port)?;
    let frames = frames_at(captures.all, captures.table, port);
    if named.index == 0 || named.index > frames.len() as u64 {
        return None;
    }
    Some(frames[named.index as usize - 1].as_slice())
}

/// Whether a record of a port may be named by what comes in at a side of the bridge: at a local
/// port it is one of that port.
fn is_here(tree: &Tree, side: u8, port: u16) -> bool
    ensures { result ≡ is_here tree.now side port }
{
    if !is_local(tree, side) {
        return true;
    }
    port == u16::from(side.saturating_sub(1))
}

/// Whether a line of the journal names the record of a frame that comes to the bridge: at a local
/// port one of that port.
fn names(tree: &Tree, captures: &CaptureTable, side: u8, frame: &[u8], text: &[u8]) -> bool
    requires { IsTable captures.now.all.now captures.now.table.now }
    ensures { AreFew (frames_by captures.now.all.now)
        → result ≡ is_entered tree.now (frames_by captures.now.all.now) side frame.now
        (text.now ∷ []) }
{
    let Some(named) = record_in(text) else {
        return false;
    };
    if !is_here(tree, side, named.port) {
        return false;
    }
    match record_at(captures, &named) {
        Some(bare) => holds(tree, side, frame, bare),
        None => false,
    }
}

/// Whether exactly one line says what became of a frame that comes to the bridge, and names its
/// record.
fn is_entered(
    tree: &Tree,
    captures: &CaptureTable,
    side: u8,
    frame: &[u8],
    rest: &[TraceLine],
) -> bool
    requires { IsTable captures.now.all.now captures.now.table.now }
    ensures { AreFew (frames_by captures.now.all.now)
        → result ≡ is_entered tree.now (frames_by captures.now.all.now) side frame.now
        (entries rest.now) }
{
    let Some(i) = first_entry(rest) else {
        return false;
    };
    if first_entry(&rest[i + 1..]).is_some() {
        return false;
    }
    let line = &rest[i];
    names(tree, captures, side, frame, line.bytes.as_slice())
}

/// Counts a data frame that the bridge sends; false where it is the third at its port.
fn count(tree: &Tree, line: &TraceLine, counts: &mut [u8]) -> bool
    requires { length counts.old ≡ 256 }
    ensures length { length counts.new ≡ 256 }
    ensures low { HasLowSide line.now }
    ensures yes { result ≡ true → (before : List Line) → AreCounts tree.now before counts.old
        → AreCounts tree.now (before ++ line.now ∷ []) counts.new }
    ensures no { result ≡ false → (before after : List Line) → AreCounts tree.now before counts.old
        → few_at tree.now (before ++ line.now ∷ after) line.now ≡ false }
{
    let at = line.side as usize;
    if !is_sending(tree, line) {
        return true;
    }
    if counts[at] >= 2 {
        return false;
    }
    counts[at] += 1;
    true
}

/// Whether the bridge sends at most two data frames at each port.
fn sends_few(tree: &Tree, lines: &[TraceLine]) -> bool
    ensures { result ≡ list_all (few_at tree.now lines.now) lines.now }
{
    let mut counts = [0u8; 256];
    count_all(tree, lines, &mut counts)
}

/// Counts all of them, with counts by port that are 0.
fn count_all(tree: &Tree, lines: &[TraceLine], counts: &mut [u8]) -> bool
    requires length { length counts.old ≡ 256 }
    requires none { (k : ℕ) → slice_index counts.old k ≡ 0 }
    ensures { result ≡ list_all (few_at tree.now lines.now) lines.now }
{
    for line in lines {
        if !count(tree, line, counts) {
            return false;
        }
    }
    true
}

/// Whether lines are those of a step: what comes to the bridge is told of, and the bridge sends
/// data for no others.
fn is_step(tree: &Tree, captures: &CaptureTable, first: &TraceLine, rest: &[TraceLine]) -> bool
    requires { IsTable captures.now.all.now captures.now.table.now }
    ensures { AreFew (frames_by captures.now.all.now)
        → result ≡ is_step tree.now (frames_by captures.now.all.now) first.now rest.now }
{
    if !is_told(tree, captures, first, rest) {
        return false;
    }
    if !sends_by_relay(tree, rest) {
        return false;
    }
    sends_few(tree, rest)
}

/// Whether a frame that comes to the bridge is told of, and nothing else is relayed.
fn is_told(tree: &Tree, captures: &CaptureTable, first: &TraceLine, rest: &[TraceLine]) -> bool
    requires { IsTable captures.now.all.now captures.now.table.now }
    ensures { AreFew (frames_by captures.now.all.now)
        → result ≡ is_told tree.now (frames_by captures.now.all.now) first.now rest.now }
{
    if !is_arrival(tree, first) {
        return has_no_relay(rest);
    }
    is_entered(tree, captures, first.side, first.bytes.as_slice(), rest)
}

/// Whether a step begins with a line: a frame comes in, or a beat passes.
fn begins(line: &TraceLine) -> bool
    ensures { result ≡ begins line.now }
{
    match line.way {
        TraceWay::In | TraceWay::Beat => true,
        TraceWay::Out | TraceWay::Journal => false,
    }
}

/// The lines up to the next with which a step begins.
fn until_next(lines: &[TraceLine]) -> &[TraceLine]
    ensures { result.now ≡ until_next lines.now }
{
    for (i, line) in lines.iter().enumerate() {
        if begins(line) {
            return &lines[..i];
        }
    }
    lines
}

/// Whether the step that begins with a line is right, if one does.
fn is_right(tree: &Tree, captures: &CaptureTable, line: &TraceLine, behind: &[TraceLine]) -> bool
    requires { IsTable captures.now.all.now captures.now.table.now }
    ensures { AreFew (frames_by captures.now.all.now)
        → result ≡ (if begins line.now then is_step tree.now (frames_by captures.now.all.now)
        line.now (until_next behind.now) else true) }
{
    if !begins(line) {
        return true;
    }
    is_step(tree, captures, line, until_next(behind))
}

/// Whether each step is right.
fn are_steps(tree: &Tree, captures: &CaptureTable, trace: &[TraceLine]) -> bool
    requires { IsTable captures.now.all.now captures.now.table.now }
    ensures { AreFew (frames_by captures.now.all.now)
        → result ≡ each_is_right tree.now (frames_by captures.now.all.now) trace.now }
{
    for (i, line) in trace.iter().enumerate() {
        if !is_right(tree, captures, line, &trace[i + 1..]) {
            return false;
        }
    }
    true
}

/// Whether each step is right, and what stands before the first is.
pub(crate) fn all_entered(tree: &Tree, captures: &CaptureTable, trace: &[TraceLine]) -> bool
    requires { IsTable captures.now.all.now captures.now.table.now }
    ensures { AreFew (frames_by captures.now.all.now)
        → result ≡ are_right tree.now (frames_by captures.now.all.now) trace.now }
{
    let before = until_next(trace);
    if !has_no_relay(before) {
        return false;
    }
    if !is_quiet(tree, before) {
        return false;
    }
    are_steps(tree, captures, trace)
}
