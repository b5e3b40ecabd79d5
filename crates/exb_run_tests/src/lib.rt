//! Tests of whole runs: of which calls of the shelf or the sink fail, want memory, or move few
//! bytes; and of captures that change before they are read again. Nothing stands on this crate: it
//! serves tests alone, above `exb_run`. Whole runs whose files are known, and generated ones, are
//! cases of `exb_cases`.
#![tactic(auto)]

#[cfg(test)]
mod changed_captures;
#[cfg(test)]
mod compare;
#[cfg(test)]
mod hex;
#[cfg(test)]
mod runs;
#[cfg(test)]
mod sweep;
