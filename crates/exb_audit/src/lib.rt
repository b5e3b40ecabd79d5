//! An audit: the files of a run are read and judged by the rules of a legal trace alone.
//!
//! `read_line` reads a line of a trace, and `judge` decides the five rules over lines that are
//! read; each rule has a module. Of the switch they use no code but the extender's machine, which
//! rule 2 names, and what tells an E-TAG.
#![tactic(auto)]

pub mod facts;
mod frames;
mod journal_lines;
mod judgement;
pub mod laws;
mod line_words;
mod rule1_places;
mod rule2_extenders;
mod rule3_links;
mod rule4_captures;
mod rule5_relays;
mod trace_lines;

pub use frames::PortFrames;
pub use journal_lines::is_entry;
pub use judgement::{Judged, judge};
pub use trace_lines::read_line;
