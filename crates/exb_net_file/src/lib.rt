//! The file of a net: which bridges it has, each with its topology, and which external ports are
//! wired to one another. Upwards it promises that `read` answers exactly what the definition
//! `net_file_of` says of the file alone, that `wired`, over the topologies of all bridges, answers
//! exactly what `wires_of` says, and that the wires which it answers make a valid net (`IsNet`). It
//! stands on `exb_topology`, which reads each topology, and on `exb_net_spec`, which says when a
//! net is valid.
#![tactic(auto)]

mod elements;
mod end_names;
pub mod laws;
mod members;
mod net_file;
mod net_parts;
mod schema;
mod wires;

pub use elements::{NetBridge, NetWire};
pub use end_names::EndName;
pub use members::{NetMember, prefix_of};
pub use net_file::{NetFile, read};
pub use net_parts::{BridgeInputs, NetParts, take_apart};
pub use schema::NetSchema;
pub use wires::wired;
