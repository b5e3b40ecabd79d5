//! What a run writes: which output files there are, in which order they are made, and the text of
//! each.
//!
//! `Manifest` has the files below a prefix, in their order and with their names. `Outputs` has the
//! files while they are written. The writers append what a world tells: events as lines of the
//! journal, frames that left to the captures of their ports, lines of the trace, and the counters.
//!
//! Upwards it promises that the files are made in that order and each once; that each file,
//! followed by the piece that isn't written yet, is its text so far; that a file whose writing
//! ended early holds a prefix of its text; that no other file changes; and that the summary and the
//! counters count exactly what was told. It stands on the shelf, on the names and lines of
//! `exb_journal`, on the records of `exb_capture`, and on what a world tells (`exb_world`).
#![tactic(auto)]

mod counter_lines;
mod journal_lines;
mod manifest;
mod outputs;
mod run_counts;
mod run_texts;
mod sent_frames;
mod trace_lines;

pub use counter_lines::write_counters;
pub use journal_lines::write_events;
pub use manifest::Manifest;
pub use outputs::{Outputs, create_all};
pub use run_counts::RunCounts;
pub use run_texts::{LineScratch, write_end, write_told};
pub use sent_frames::write_left;
pub use trace_lines::write_trace;
