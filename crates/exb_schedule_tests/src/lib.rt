//! Tests of schedules: a world that words move by single steps, what is on its links and planned,
//! and how often its fate is asked where it keeps no trace. Whole runs, of seeds and over links
//! that disturb too, are cases of `exb_cases`. Nothing stands on this crate.
#![tactic(auto)]

#[cfg(test)]
mod steps;
#[cfg(test)]
mod world_driver;
#[cfg(test)]
mod worlds;
