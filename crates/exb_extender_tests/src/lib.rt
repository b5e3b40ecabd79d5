//! Tests of one port extender: what it announces, acknowledges and answers, where frames of every
//! kind go, and what becomes of those that are cut or have a bit turned. One driver goes through
//! tables of steps. Nothing stands on this crate.
#![tactic(auto)]

#[cfg(test)]
mod control;
#[cfg(test)]
mod driver;
#[cfg(test)]
mod fixture;
#[cfg(test)]
mod forwarding;
#[cfg(test)]
mod mutations;
#[cfg(test)]
mod row_words;
