//! What the bridge has learned (IEEE 802.1Q, clause 8.8.3): the port at which an address was seen
//! last in a VLAN, while that was less than the ageing time ago and the port didn't go down since.
//! Upwards it promises that over every list of calls a look-up answers just that. It stands on
//! `exb_model` and a hash map in insertion order (`indexmap`).
#![tactic(auto)]

pub mod ageing;
pub mod entries;
pub mod key;
pub mod laws;
pub mod learned;
pub mod rings;
pub mod slots;
pub mod store;

pub use learned::Learned;
