//! One port extender (after IEEE 802.1BR): it forwards frames by its tables, and the controlling
//! bridge sets these by requests.
//!
//! Upwards it promises that each call is a step of the machine in `specs/Machine`: the same state
//! afterwards, and the same frames sent to the same sides in the same order, for any frame. Only
//! its constructor takes memory, and no call copies a frame that it forwards. `members` is the map
//! by which it replicates: a row of ports for each E-CID. It stands on `exb_frame`, `exb_lldp`,
//! `exb_ecp` and `exb_csp`.
#![tactic(auto)]

mod control;
mod extender;
pub mod extenders;
pub mod forms;
mod forwarding;
pub mod laws;
pub mod members;
mod sends;
mod tables;

pub use extender::Extender;
pub use extenders::Extenders;
pub use members::MemberSets;
pub use sends::{Entry, Form, Out, Sends, Side};
