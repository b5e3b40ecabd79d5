//! Reading a topology file: the bridge, its tree of extenders, what the start sets, commands and
//! captures, or the first fault of the file with the key where it stands. Upwards it promises that
//! `read` answers exactly what the definition `topology_of` says, and that what it answers is
//! sound: a valid setup, and commands and captures that name external ports alone. It stands on
//! `exb_topology_tables`, which reads the tables.
#![tactic(auto)]

mod checks;
mod commands;
pub mod laws;
mod outputs;
mod port_sets;
mod topology;
mod trees;

pub use checks::{is_output, refuse};
pub use exb_toml_keys::faults::{KeyFault, TopoFault};
pub use exb_topology_tables::Named;
pub use outputs::output_names;
pub use topology::{Topology, read};
