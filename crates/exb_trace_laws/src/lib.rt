//! The trace of a run: its lines as texts, the rules of a legal trace, and that the world's steps
//! keep them.
//!
//! No code stands here but laws. A legal trace is defined over lists of lines alone, so a checker
//! that is given the files of a run can decide it. That the world keeps it is a law over the steps
//! of `exb_world_spec`; that each world of a run of a valid setup has what this law asks follows
//! from what `exb_world_laws` proves of runs (`specs/RunTraces`).
#![tactic(auto)]

pub mod laws;
