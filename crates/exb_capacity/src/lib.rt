//! What numbers a setup needs with all its ports present: how many E-channels the fullest cascade
//! port of the bridge needs (IEEE 802.1BR), and how many groups. Upwards it promises exactly the
//! numbers that are defined, and the two lines that say them. It stands on `exb_plan` and its sets.
#![tactic(auto)]

mod all_ports_present;
mod channels;
pub mod laws;
pub mod needs;
mod sets;

pub use needs::Needs;
