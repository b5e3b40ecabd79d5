//! The numbers of a space (IEEE 802.1BR, E-CIDs): channels 1 to 4094, each of one port, and groups
//! 4096 to 16383, each of one set of ports. Upwards it promises that a claim gives the lowest free
//! number, and that each look-up is exact both ways. Each cascade port of the bridge has a space of
//! its own. It stands on `exb_model`.
#![tactic(auto)]

pub mod channels;
pub mod groups;
pub mod laws;
pub mod spaces;

pub use channels::{Channels, NoChannel};
pub use groups::{Groups, NoGroup};
pub use spaces::Spaces;
