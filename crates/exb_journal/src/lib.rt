//! The texts that a run writes and prints: the lines of the journal and of a trace, the summary,
//! and the names of the files. Upwards it promises that each is byte for byte the text that the
//! definitions say, that want of memory leaves no part of a line, and that under one prefix all
//! files, of each kind and of each port, have different names. It stands on `exb_model`, and writes
//! the digits of a frame's line by the pack's `itoa`.
#![tactic(auto)]

mod event_line;
mod file_names;
mod frame_lines;
pub mod laws;
mod port_name;
mod tally;
mod trace_line;

pub use event_line::{EventLine, JournalScratch, write_line};
pub use file_names::{
    OutputKind, add_name, add_other_names, capture_file_name, counters_file_name, file_name,
    journal_file_name, trace_file_name,
};
pub use port_name::PortName;
pub use tally::Tally;
pub use trace_line::{event_bytes, write_trace_line};
