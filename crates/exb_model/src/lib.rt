//! The types that every layer speaks of, and, in `specs/`, the definitions that every contract
//! cites: frames, the VLAN bridge's configuration, histories, and the texts that a run writes. It
//! stands on no other crate of the project, and promises exact answers of each call.
#![tactic(auto)]

pub mod address;
pub mod arrival;
pub mod buffers;
pub mod bytes;
pub mod command;
pub mod device_set;
pub mod event;
pub mod frame_kind;
mod layout;
pub mod list;
pub mod memory;
pub mod moment;
pub mod port;
pub mod port_set;
pub mod role;
pub mod rules;
pub mod setup;
pub mod station;
pub mod text;
pub mod trace;
pub mod tree;
mod tree_tables;
pub mod vlan;
