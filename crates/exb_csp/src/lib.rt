//! The control protocol between the controlling bridge and its extenders: its messages, and the
//! sessions in which they are asked and answered.
//!
//! Messages: what the bridge asks, what an extender answers, and the bytes of both. `read` and
//! `write` are exact in both directions. What executing a request does to an extender's tables,
//! alone and among all extenders, is defined here for everyone above, with its laws in `laws`;
//! `exb_wire_tests` has a plain program of it.
//!
//! Sessions (`session`, `specs/Sessions`): the bridge's end asks one request at a time and takes
//! its answer; the extender's end executes each request once and answers it again where it comes
//! again. Both are exact pure machines, and over every order in which their messages come, are lost
//! or repeated, what is executed is a front of what was asked, and what is answered a front of what
//! was stored. No call of either takes memory.
//!
//! The crate stands on `exb_model` and `arrayvec`.
#![tactic(auto)]

mod ask_at;
mod ecid_ranges;
mod ecids;
mod fault;
mod group_rows;
pub mod laws;
mod message;
mod message_kind;
mod reader;
mod session;
mod writer;

pub use ask_at::AskAt;
pub use ecid_ranges::{is_channel, is_ecid};
pub use ecids::Ecids;
pub use fault::CspFault;
pub use group_rows::{GroupRow, GroupRows};
pub use message::{Body, Message, Request, RequestKind, Response};
pub use reader::read;
pub use session::{Answerer, Asker, Due, Taken};
pub use writer::write;

/// The subtype of ECP by which control messages travel.
pub const ECP_SUBTYPE: u16 = 2;
