//! What the controlling bridge does one after another.
use exb_model::command::Command;
use exb_model::port::PortId;

/// A job in the queue of changes.
#[derive(Clone, Copy)]
pub enum Job {
    /// Opens an extender once it was heard: it is asked to begin its session, and its cascade ports
    /// are created.
    Opening { extender: u8 },
    /// Lets an external port of an opened extender go up.
    AutomaticUp { port: PortId },
    /// Does a command. Commands are numbered from 1 in the order in which they were given.
    Ordered { number: u32, command: Command },
}

/// How far the change at work is.
#[derive(Clone, Copy)]
pub enum Phase {
    /// What it needs is asked for; the old configuration is in force.
    Preparing,
    /// The new configuration is in force; what is no longer needed is cleared.
    Cleaning,
}
