//! One bridge is played: its setup with commands and fates (`Script`) and the captures that were
//! checked, in one order or the other (`Schedule`). Upwards it promises that, where all went well,
//! the outputs of a manifest hold the texts of a history that the input allows, the eager one in an
//! eager run, and that however it ended they hold fronts of the texts of what was told so far. It
//! reaches bridge and extenders through `exb_schedule` alone, and files through `exb_shelf`'s
//! trait.
//!
//! `src`: `playing` (outputs made, captures opened again), `feed` (what comes for one segment),
//! `game` (the world under way, what is written of it and counted), `script` (what is played, and
//! how).
#![tactic(auto)]

mod bridge_player;
mod fault;
mod feed;
mod ghost_run;
mod input_fault;
mod script;
mod segments;

pub use fault::PlayFault;
pub use ghost_run::OfRun;
pub use script::{Schedule, Script};
pub use segments::play;
