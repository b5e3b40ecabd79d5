//! Inputs that are made from a number: one tree of six extenders, members of four VLANs, commands
//! and a thousand frames, all drawn from the generator of that number. Upwards it promises that the
//! setup is valid, and that setup, commands and captures are exactly those of the defined input. It
//! stands on `exb_capture` and `exb_model`, and on `rand_pcg` for its draws.
#![tactic(auto)]

mod captures;
mod commands;
mod draws;
mod frames;
mod generated_input;
pub mod laws;
mod start;
mod tree;

pub use captures::GeneratedCapture;
pub use generated_input::{GeneratedInput, make};
