//! Tests of what an audit reads, as rows of tables. Nothing stands on this crate.
#![tactic(auto)]

#[cfg(test)]
mod compare;
#[cfg(test)]
mod frames;
#[cfg(test)]
mod lines;
