//! The top call: from the words of the command line over topology, captures, world and schedule to
//! captures, journal, trace and summary line; to what a topology needs; to the run of an input that
//! is made; and to that of a net. It reaches bridge and extenders through `exb_schedule` alone, and
//! files through `exb_shelf`'s traits.
#![tactic(auto)]

mod audit;
mod check;
mod fates;
mod finish;
mod generated_run;
pub mod laws;
mod net;
mod top;

pub use fates::{add_fate, run_armed};
pub use top::run;
