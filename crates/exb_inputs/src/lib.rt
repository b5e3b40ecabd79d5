//! What the program is given: topologies and captures are read and checked here, before any file is
//! made.
//!
//! For one bridge it reads the topology, checks the captures that this names, and opens them again
//! to be played. For a net it does so for each bridge, and reads the file of the net and its wires
//! first. The first fault in the order of reading ends the call; `messages` has the status and the
//! line of each.
#![tactic(auto)]

mod captures;
mod fault;
mod member_captures;
mod member_faults;
mod messages;
mod net_inputs;
pub mod net_laws;
mod replay_start;
mod topology;
mod topology_weight;

pub use captures::{CheckedCapture, check_captures, missing, name_of};
pub use fault::{AuditInput, Fault, InputFlaw};
pub use member_captures::check_members;
pub use member_faults::of_member;
pub use messages::report;
pub use net_inputs::{NetInputs, read_net};
pub use replay_start::{earliest_in, open_all, start_of};
pub use topology::read_topology;
