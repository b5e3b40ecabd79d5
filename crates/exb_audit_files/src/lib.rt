//! The command `audit`: it reads what a run of a topology wrote, and judges it by the rules of a
//! legal trace alone. It makes no file.
//!
//! It reads the frames of captures and output files by port, and the lines of the journal and the
//! trace, each within its limit. Upwards it promises of files that are told that its answer is what
//! they hold, or the first fault of all in their order; that it answers a read fault or a missing
//! file only if the shelf counted one; and that it changes no file and opens only those that are
//! named. It stands on `exb_audit` (the judge), `exb_trace_spec`, `exb_capture` and `exb_shelf`.
#![tactic(auto)]

mod audit_command;
pub mod audit_laws;
mod captured_frames;
pub mod file_laws;
mod frame_files;
mod line;
mod lines;
mod port_files;
mod texts;

pub use audit_command::audit;
pub use port_files::{FramesFault, Grammar, LIMIT, PortFile, read_frames};
pub use texts::{LinesFault, read_journal, read_trace};
