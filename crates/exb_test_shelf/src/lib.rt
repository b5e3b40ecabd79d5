//! Files and a sink in memory of which calls are disturbed: a call fails, wants memory, or moves
//! fewer bytes than it could. Both keep a list of their calls. Others, whose clauses say that they
//! fail exactly at the calls whose numbers they are given. And files of which one is another one
//! when it is opened again. That they keep all that [`exb_shelf::Shelf`] and [`exb_shelf::Sink`]
//! ask for is proved, so whatever they do a shelf and a sink may do. It stands on `exb_shelf`, and
//! tests alone stand on it.
#![tactic(auto)]

mod changing_shelf;
mod disturbance;
mod faulty_shelf;
mod faulty_sink;
mod memory_shelf;

pub use changing_shelf::ChangingShelf;
pub use disturbance::{Call, CallKind, Disturbance};
pub use faulty_shelf::FaultyShelf;
pub use faulty_sink::FaultySink;
pub use memory_shelf::{MemShelf, MemSink};
