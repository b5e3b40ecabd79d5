//! The controlling bridge as a box: it hears its extenders (announcements, acknowledgements,
//! requests and answers), asks them what its control wants, and relays frames and learns from them.
//! It stands on the bridge's control (`exb_control`), on what relays (`exb_relay`) and on what is
//! learned (`exb_learn`), and knows of the network no more than the tree and the links down: each
//! call does what the machine of `exb_world_spec` does, whatever the rest of the network is.
#![tactic(auto)]

mod arrivals;
pub mod bridge;
mod bridge_beats;
mod commands;
mod control_frames;
mod extender_order;
mod incoming;
mod relayed_frames;
mod requests;
pub mod scratch;
pub mod tree_index;

pub use arrivals::{ignore, stamp_of};
pub use bridge::Bridge;
pub use bridge_beats::{beat_control, beat_ends};
pub use commands::{order, tick};
pub use incoming::{come, take};
pub use relayed_frames::Outgoing;
pub use scratch::StepScratch;
pub use tree_index::{TreeIndex, hung_on};
