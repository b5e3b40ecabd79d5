//! Plans of changes, and the machine that carries changes out one after another, as definitions
//! (after IEEE 802.1BR; the protocol is this project's own), with what is true of both. No code
//! stands here but laws.
//!
//! Plans (`planning`, `specs/Plans`): the rows of a set of ports, the sets that a configuration
//! needs, the numbers that are held, and the plan of a change between two configurations: what is
//! asked of the extenders, which numbers are claimed and freed, or why it is refused. Their laws:
//! rows carry words to exactly the ports of a set, a plan is refused where a command is, the next
//! plan may follow, and what a command touches.
//!
//! The machine has jobs in a queue, of which the first is worked on alone. Each is refused, or its
//! plan's requests are asked one at a time; it takes effect in one moment between its prepare and
//! its cleanup, and its old numbers are free when all is answered. The other `specs` say that, how
//! it begins, and how many exchanges are still planned.
//!
//! `specs/Runs` and `laws` say what holds over its runs, together with the tables of the extenders.
//! Commands come, extenders are heard, execute what is asked of them and answer, and other messages
//! come from them, in any order. No extender answers another code than 0. At rest just what is held
//! is laid in the tables, and just what the configuration needs is held; at every moment, also in
//! the middle of a change, the configuration in force has its numbers and the tables have their
//! rows. Each job is decided once, in order, by the refusals of commands. Each answer makes one
//! planned exchange less, and an asker waits exactly for the outstanding request. Below that: what
//! the requests of plans and openings do to the tables of all extenders. Where just what the bridge
//! holds is laid in the tables, executing the requests in order gives code 0 each time, and then
//! just what it holds next is laid.
//!
//! The crate stands on `exb_csp` and `exb_model`.
#![tactic(auto)]

pub mod extender_message;
pub mod job;
pub mod laws;
pub mod plan;

pub use extender_message::Asked;
pub use job::{Job, Phase};
pub use plan::{Change, Decision, GroupAt, Number, Row, RowAction, SetAt};
