//! What is played, and how.
use exb_model::setup::{Setup, Timed, Verdict};

/// How the events of an input are played.
#[derive(Clone, Copy)]
pub enum Schedule {
    /// One after another: all settles after each.
    Eager,
    /// Those of one second together, in an order that is drawn from the generator of this number.
    Seeded {
        /// The number.
        seed: u64,
    },
}

/// A setup, the commands of its run with their fates, and the fate of its opening.
#[derive(Clone, Copy)]
pub struct Script<'a> {
    /// The setup.
    pub setup: &'a Setup,
    /// The commands, in the order of their seconds.
    pub commands: &'a [Timed],
    /// What becomes of the first control words.
    pub fate: &'a [Verdict],
}
