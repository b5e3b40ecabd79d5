//! LLDP announcements (IEEE 802.1AB-2009): the frame by which an extender tells the bridge its
//! chassis address and its number of ports. It promises that `write` gives the one spelling of an
//! announcement, that `read` gives what a frame announces or exactly its first fault, and that what
//! is written is read again. It stands on exb_model.
#![tactic(auto)]

mod announce;
pub mod laws;
mod reader;
mod tlv;
mod writer;

pub use announce::{Announce, LldpFault};
pub use reader::read;
pub use writer::write;
