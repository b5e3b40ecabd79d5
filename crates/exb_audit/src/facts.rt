//! Facts of the types of what a run writes.
ghost use Rattle.std.specs.Prelude.{All};
ghost use Rattle.exb_trace_spec.specs.JournalLines.{IsCounted};
ghost use Rattle.exb_trace_spec.specs.WritableLines.{HasBytes};
ghost use Rattle.exb_trace_spec.specs.RoundTrips.{IsOfNumbers};

use exb_model::bytes::are_bytes;
use exb_model::event::{Cause, Event};
use exb_model::trace::TraceLine;

/// That the frame of a line is bytes. It does nothing.
pub fn line_bytes(line: &TraceLine)
    ensures { HasBytes line.now }
{
    are_bytes(line.bytes.as_slice());
}

/// So the frames of lines. It does nothing.
pub fn lines_bytes(lines: &[TraceLine])
    ensures { All HasBytes lines.now }
{
    for line in lines {
        line_bytes(line);
    }
}

/// That the numbers of an event have 64 bits, and its port is a port. It does nothing.
pub fn event_numbers(event: &Event)
    ensures { IsOfNumbers event.now }
{
    match event {
        Event::Relay { port, index, .. } => {
            let _at = port.number();
            let _number = *index;
        }
        Event::Ignored { port, index } => {
            let _at = port.number();
            let _number = *index;
        }
        Event::Tick { seconds } => {
            let _number = *seconds;
        }
        Event::Commit { number } => {
            let _number = *number;
        }
        Event::Refuse { number, cause } => {
            let _number = *number;
            cause_numbers(cause);
        }
        Event::Up { port } => {
            let _at = port.number();
        }
        Event::NoUp { port, cause } => {
            let _at = port.number();
            cause_numbers(cause);
        }
        Event::Settled => {}
    }
}

/// So the numbers of events. It does nothing.
pub fn events_numbers(events: &[Event])
    ensures { All IsOfNumbers events.now }
{
    for event in events {
        event_numbers(event);
    }
}

// That the numbers of a cause have 64 bits.
fn cause_numbers(cause: &Cause)
    ensures { IsCounted cause.now }
{
    match cause {
        Cause::Channels { needed, limit } => {
            let _needed = *needed;
            let _limit = *limit;
        }
        Cause::Groups { needed, limit } => {
            let _needed = *needed;
            let _limit = *limit;
        }
    }
}
