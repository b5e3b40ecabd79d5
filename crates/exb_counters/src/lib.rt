//! What a switch counts at each of its external ports: frames that came in and were relayed, those
//! of them that a rule let pass nowhere, frames that were ignored, frames that left, and their
//! bytes; and the text of it. Upwards it promises that each call counts what it says and leaves all
//! other ports as they were, that a line is byte for byte that of the definition (`CountText`),
//! and, by its laws, that the counts of all ports together are those of a run's summary. It stands
//! on `exb_model` and on the names of ports (`exb_journal`).
#![tactic(auto)]

mod count_line;
mod counters;
pub mod laws;

pub use count_line::write_count_line;
pub use counters::{Counters, Counts5};
