//! Rule 4: what comes in at the external ports is captured, and what goes out there is written.
ghost use Rattle.std.specs.Prelude.{◌≡◌, ◌↔◌, ◌+◌, ◌^◌, ◌<◌, ◌∷◌, ◌++◌, ℕ, [], List, true, false, length, slice_index, IsTrue, IfOk, IfSome, IfNone};
ghost use Rattle.std.specs.Bool.{Decides};
ghost use Rattle.exb_model.specs.Traces.{TraceLine as Line};
ghost use Rattle.exb_model.specs.Tree.{is_external};
ghost use Rattle.exb_audit.specs.Rule4Captures.{goes, AreAll, AreSoFar, AreCounted, IsAtPort, IsNowhere};
ghost use Rattle.exb_audit.specs.Frames.{frames_by, is_next, IsTable};

use crate::frames::{PortFrames, frames_at, table_of};
use exb_model::bytes::Bytes;
use exb_model::memory::NoMemory;
use exb_model::port::{PORTS, PortId};
use exb_model::trace::{TraceLine, TraceWay};
use exb_model::tree::Tree;
use std::alloc::Global;

/// Whether it is a frame that goes that way.
fn goes(line: &TraceLine, comes_in: bool) -> bool
    ensures { result ≡ goes comes_in line.now }
{
    match line.way {
        TraceWay::In => comes_in,
        TraceWay::Out => !comes_in,
        TraceWay::Beat | TraceWay::Journal => false,
    }
}

/// The external port at which a frame goes that way.
fn external_port(tree: &Tree, line: &TraceLine, comes_in: bool) -> Option<PortId>
    ensures some { IfSome result (λ p. IsAtPort tree.now comes_in line.now p) }
    ensures none { IfNone result (IsNowhere tree.now comes_in line.now) }
{
    if !goes(line, comes_in) {
        return None;
    }
    tree.is_tree();
    if line.who >= 65 {
        return None;
    }
    if line.side == 0 {
        return None;
    }
    if line.side > 64 {
        return None;
    }
    let port = PortId::at(line.who, line.side - 1);
    if !tree.is_external(port) {
        return None;
    }
    Some(port)
}

/// Whether a frame is the one at a place.
pub(crate) fn stands_at(frames: &[Bytes], place: usize, frame: &[u8]) -> bool
    ensures value { result ≡ is_next frames.now place frame.now }
    ensures within { result ≡ true → place < length frames.now }
    ensures fits { result ≡ true → place + 1 < 2 ^ 64 }
{
    if place >= frames.len() {
        return false;
    }
    let next = &frames[place];
    next.as_slice() == frame
}

/// Counts a line, if it is a frame that goes that way at an external port; false exactly where it
/// isn't the next frame of that port.
fn count(
    tree: &Tree,
    all: &[PortFrames],
    table: &[usize],
    line: &TraceLine,
    comes_in: bool,
    counts: &mut [usize],
) -> bool
    requires table { IsTable all.now table.now }
    requires counts { length counts.old ≡ 4160 }
    ensures length { length counts.new ≡ 4160 }
    ensures yes { result ≡ true → (before : List Line)
        → AreSoFar comes_in tree.now all.now before counts.old
        → AreSoFar comes_in tree.now all.now (before ++ line.now ∷ []) counts.new }
    ensures no { result ≡ false → (before after : List Line)
        → AreSoFar comes_in tree.now all.now before counts.old
        → AreAll comes_in tree.now all.now (before ++ line.now ∷ after) → ⊥ }
{
    let Some(port) = external_port(tree, line, comes_in) else {
        return true;
    };
    let at = port.number() as usize;
    let frames = frames_at(all, table, port);
    let place = counts[at];
    if !stands_at(frames, place, line.bytes.as_slice()) {
        return false;
    }
    counts[at] = place + 1;
    true
}

/// Whether all frames of a port stand there, if it is an external port.
fn is_whole(
    tree: &Tree,
    all: &[PortFrames],
    table: &[usize],
    counts: &[usize],
    port: PortId,
) -> bool
    requires table { IsTable all.now table.now }
    requires counts { length counts.now ≡ 4160 }
    ensures { IsTrue result ↔ (is_external tree.now port ≡ true → slice_index counts.now port
        ≡ length (frames_by all.now port)) }
{
    if !tree.is_external(port) {
        return true;
    }
    counts[port.number() as usize] == frames_at(all, table, port).len()
}

/// Whether all frames of all external ports stand there.
fn are_whole(tree: &Tree, all: &[PortFrames], table: &[usize], counts: &[usize]) -> bool
    requires table { IsTable all.now table.now }
    requires counts { length counts.now ≡ 4160 }
    ensures { IsTrue result ↔ AreCounted tree.now all.now counts.now }
{
    tree.is_tree();
    for number in 0..PORTS {
        if let Some(port) = PortId::new(number) {
            if !is_whole(tree, all, table, counts, port) {
                return false;
            }
        }
    }
    true
}

/// Goes through the lines with counts by port that are 0.
fn count_all(
    tree: &Tree,
    all: &[PortFrames],
    table: &[usize],
    trace: &[TraceLine],
    comes_in: bool,
    counts: &mut [usize],
) -> bool
    requires table { IsTable all.now table.now }
    requires counts { length counts.old ≡ 4160 }
    requires none { (p : ℕ) → slice_index counts.old p ≡ 0 }
    ensures { Decides result (AreAll comes_in tree.now all.now trace.now) }
{
    for line in trace {
        if !count(tree, all, table, line, comes_in, counts) {
            return false;
        }
    }
    are_whole(tree, all, table, counts)
}

/// Whether the frames that go that way at each external port are those of its file, in order.
pub(crate) fn are_captured(
    alloc: Global,
    tree: &Tree,
    all: &[PortFrames],
    trace: &[TraceLine],
    comes_in: bool,
) -> Result<bool, NoMemory>
    ensures { IfOk result (λ good. Decides good (AreAll comes_in tree.now all.now trace.now)) }
{
    let table = table_of(alloc, all)?;
    let mut counts = vec![in alloc; 0usize; PORTS as usize]?;
    Ok(count_all(
        tree,
        all,
        table.as_slice(),
        trace,
        comes_in,
        counts.as_mut_slice(),
    ))
}
