//! ECP, the edge control protocol (after IEEE 802.1Qbg-2012): frames that carry a payload with a
//! sequence, and the machine that sends one payload until it is acknowledged. It promises exact
//! frames both ways, exact steps of the machine, and, as laws over those steps, that what is handed
//! up is what was submitted, in order and each at most once. It stands on exb_model.
#![tactic(auto)]

pub mod ends;
pub mod laws;
mod pdu;
mod stop_and_wait;

pub use ends::Ends;
pub use pdu::{EcpFault, PAYLOAD_AT, Pdu, read, write};
pub use stop_and_wait::{Beat, Ecp};
