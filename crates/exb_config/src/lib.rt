//! The configuration of the bridge (IEEE 802.1Q): which ports are present, the members of each
//! VLAN, the rules of each port, and the static entries in their order. Upwards it promises that it
//! is the configuration that the commands leave, and that each look-up answers by it, without a
//! walk through other VLANs, ports or entries. It stands on `exb_model`, and on `indexmap` for its
//! tables.
#![tactic(auto)]

pub mod config;
mod initial_config;
pub mod members;
pub mod port_rules;
pub mod static_entries;
pub mod vlan_row;
pub mod vlan_table;

pub use config::Config;
