//! Frames and their tags: the kind of a frame and the bytes with which it leaves a port (IEEE
//! 802.1Q), and the E-TAG put in, read and taken out (after IEEE 802.1BR). Each call gives exactly
//! the bytes that the definitions of `exb_model` give, and takes memory for a buffer alone that has
//! to grow. It stands on `exb_model`.
#![tactic(auto)]

mod addresses;
mod append;
pub mod classify;
pub mod egress;
pub mod etag;
pub mod laws;

pub use addresses::{destination, source};
pub use classify::is_relayed_kind;
