//! The steps of a network.

use exb_model::arrival::Arrival;
use exb_model::command::Command;

/// A direction of the link above an extender: up to the bridge, or down from it.
#[derive(Clone, Copy)]
pub enum Way {
    Up,
    Down,
}

/// One step.
#[derive(Clone, Copy)]
pub enum Step<'a> {
    /// A frame of at most 262,144 bytes arrives at an external port.
    Arrive {
        arrival: &'a Arrival,
    },
    /// The first data word of a direction is taken.
    Carry {
        link: u8,
        way: Way,
    },
    /// The control word at a position, before which no data word is left, is delivered; it stays on
    /// the link too if it is kept.
    Control {
        link: u8,
        way: Way,
        at: u64,
        keep: bool,
    },
    /// The control word at a position is lost.
    Lose {
        link: u8,
        way: Way,
        at: u64,
    },
    /// A beat passes at all ends.
    Beat,
    /// The clock goes on, by at least one second. It stays below 2^63.
    Tick {
        seconds: u32,
    },
    /// A command is given.
    Command {
        command: &'a Command,
    },
    /// Nothing is left to be done.
    Mark,
}
