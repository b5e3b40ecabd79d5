//! The records of several captures, and the commands of a topology among them, in the order in
//! which they are played: by moment, and at the same moment the commands first and then the
//! captures in their order. Upwards it promises that what comes next is always the first of what is
//! still to come, and that the commands and captures of an input give what is merged of it.
//! `NetTimeline` has those of several bridges, and gives what a net is given, in its order. It
//! stands on `exb_capture`, `exb_net_spec`, `exb_shelf` and `exb_model`.
#![tactic(auto)]

mod bridge_timeline;
mod capture_merge;
pub mod laws;
mod net_timeline;
pub mod tournament;

pub use bridge_timeline::{Next, Timeline};
pub use capture_merge::{CaptureFault, CaptureMerge};
pub use net_timeline::{BridgeFault, NetNext, NetTimeline};
