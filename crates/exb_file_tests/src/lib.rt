//! Tests of files: captures in pieces, checked and read again, and shelves. What is read of
//! captures, good ones and broken ones, the built program shows in `crates/exb_cases`. A table is
//! one text with a row a line, `>` before what must come of it, and `#` before a comment. Nothing
//! stands on this crate.
#![tactic(auto)]

#[cfg(test)]
mod capture_reads;
#[cfg(test)]
mod captures;
#[cfg(test)]
mod compare;
#[cfg(test)]
mod replays;
#[cfg(test)]
mod scans;
#[cfg(test)]
mod shelves;
#[cfg(test)]
mod test_rows;
