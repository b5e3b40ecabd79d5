//! Tests of the bridge's crates, of what no run of the program shows: how many entries the learned
//! table holds. What a control asks, tells and sends is said by rows of
//! `crates/exb_cases/exchanges.py`. Nothing stands on this crate.
#![tactic(auto)]

#[cfg(test)]
mod learning;
