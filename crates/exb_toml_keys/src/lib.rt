//! Reading the keys of a TOML file: a value of the right type, in its range and of its form, or the
//! fault at that key, as it is printed. Upwards it promises that each reader answers exactly what
//! the definitions say, where memory doesn't run out. It stands on the crate `toml`, whose tables
//! it reads, and on `exb_model`.
#![tactic(auto)]

pub mod document;
pub mod faults;
pub mod key_path;
pub mod keys;
pub mod tables;
pub mod text_values;
mod values;
