//! Legal traces: the five rules, the texts of lines of traces and journals, and how these are read.
//!
//! No code stands here but laws. The rules are said over lists of lines, the tree, the journal's
//! lines and the frames of captures and output files; nothing of a world is in them. So code that
//! decides them stands on this crate alone, and the law that every run keeps them stands above
//! (`exb_trace_laws`).
#![tactic(auto)]

pub mod checker_laws;
pub mod laws;
