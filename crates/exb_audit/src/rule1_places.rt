//! Rule 1: the journal's lines, and that each other line names a place that is there.
ghost use Rattle.std.specs.Prelude.{◌≡◌, ◌∷◌, ◌++◌, ◌≤◌, ℕ, [], List, length, IfSome, IfNone};
ghost use Rattle.std.specs.Bool.{Decides};
ghost use Rattle.exb_model.specs.Setup.{IsPlace, IsValid, port_at, shape_of};
ghost use Rattle.exb_model.specs.Traces.{TraceLine as Line};
ghost use Rattle.exb_model.specs.Tree.{Shape};
ghost use Rattle.exb_trace_spec.specs.Rule1Places.{is_place, HasPlaces};
ghost use Rattle.exb_audit.specs.Rule1Places.{IsToldSoFar};

use crate::rule4_captures::stands_at;
use exb_model::bytes::Bytes;
use exb_model::port::{DEVICES, PortId};
use exb_model::setup::{Place, Setup};
use exb_model::trace::{TraceLine, TraceWay};

/// The port at a place of a setup.
fn port_at(place: &Place) -> PortId
    requires { IsPlace place.now }
    ensures { result ≡ port_at place.now }
{
    match place {
        Place::Bridge { port } => PortId::at(0, *port - 1),
        Place::Extender { number, port } => PortId::at(*number, *port - 1),
    }
}

/// The port on which each extender of a setup hangs.
pub(crate) fn hanging(setup: &Setup) -> [PortId; DEVICES as usize]
    requires { IsValid setup.now }
    ensures { result ≡ (shape_of setup.now).on }
{
    let first = PortId::at(0, 0);
    let mut places = [first; DEVICES as usize];
    for extender in setup.extenders.as_slice() {
        places[extender.number as usize] = port_at(&extender.on);
    }
    places
}

/// Whether it is the bridge and a port of it, or an extender and upstream or a port of it.
fn is_place(ports: &[u8], who: u8, side: u8) -> bool
    ensures { (t : Shape) → t.ports ≡ ports.now → result ≡ is_place t who side }
{
    let count = if (who as usize) < ports.len() {
        ports[who as usize]
    } else {
        0
    };
    if who == 0 {
        return side > 0 && side <= count;
    }
    count > 0 && side <= count
}

/// How many lines of the journal stand up to this line, where so many stand before it; none where
/// the line may not stand there.
fn told(ports: &[u8], journal: &[Bytes], line: &TraceLine, count: usize) -> Option<usize>
    requires { count ≤ length journal.now }
    ensures some { IfSome result (λ next. (t : Shape) → t.ports ≡ ports.now → (before : List Line)
        → IsToldSoFar t journal.now before count
        → IsToldSoFar t journal.now (before ++ line.now ∷ []) next) }
    ensures low { IfSome result (λ next. next ≤ length journal.now) }
    ensures none { IfNone result ((t : Shape) → t.ports ≡ ports.now → (before after : List Line)
        → IsToldSoFar t journal.now before count
        → HasPlaces t journal.now (before ++ line.now ∷ after) → ⊥) }
{
    match line.way {
        TraceWay::In | TraceWay::Out => {
            if is_place(ports, line.who, line.side) {
                Some(count)
            } else {
                None
            }
        }
        TraceWay::Beat => Some(count),
        TraceWay::Journal => {
            if stands_at(journal, count, line.bytes.as_slice()) {
                Some(count + 1)
            } else {
                None
            }
        }
    }
}

/// Whether the trace has the journal's lines, in order, and each line names a place that is there.
pub(crate) fn has_places(ports: &[u8], journal: &[Bytes], trace: &[TraceLine]) -> bool
    ensures { (t : Shape) → t.ports ≡ ports.now
        → Decides result (HasPlaces t journal.now trace.now) }
{
    let mut count = 0;
    for line in trace {
        let Some(next) = told(ports, journal, line, count) else {
            return false;
        };
        count = next;
    }
    count == journal.len()
}
