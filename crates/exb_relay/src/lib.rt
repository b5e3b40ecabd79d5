//! What the controlling bridge sends for a frame (IEEE 802.1Q forwarding, IEEE 802.1BR E-channels):
//! at a local port the frame itself, and below a cascade port a word for a learned port or at most
//! two words for sets of ports. Upwards it promises that the sends are exactly those, and by its
//! laws that they make leave exactly what the one VLAN bridge sends. It stands on `exb_config`,
//! `exb_learn` and `exb_numbers` for its look-ups, and on `exb_frame` and `exb_model`. It takes no
//! memory.
#![tactic(auto)]

pub mod choice;
pub mod forwarding;
mod hearers;
mod hearers_below;
mod ingress;
pub mod laws;
mod members;
pub mod send;
mod send_list;
mod source;

pub use choice::EgressChoice;
pub use forwarding::relay;
pub use send::{Ingress, SendTo};
