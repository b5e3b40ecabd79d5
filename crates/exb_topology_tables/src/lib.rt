//! The tables of a topology file, each with its own keys, types, ranges and words, or the first
//! fault of shape in the order of the file's reference. What the words mean in a tree of extenders
//! is left to the layer above. Upwards it promises that `tables_of` answers exactly what the
//! definition of the same name says, and that the numbers of the bridge and of extenders are in
//! their ranges. It stands on `exb_toml_keys`.
#![tactic(auto)]

mod commands;
mod elements;
mod schema;
mod tables;

pub use commands::{Action, CommandElement, Op};
pub use elements::{BridgeTable, Named, PortElement, StaticElement, VlanElement};
pub use schema::Schema;
pub use tables::{TopologyTables, tables_of};
