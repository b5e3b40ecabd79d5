//! Schedules: in which order the network is moved. A round goes once through the words that stand
//! on the links, asks the fate at each control word, and then one beat passes; settling makes
//! rounds until nothing is left to be done, within a stated number of them. The eager run plays one
//! event after another, and settles after each; a seeded one draws the order within each second.
//! Upwards it promises that what is told and what leaves, from the opening on, is what one VLAN
//! bridge does over a history that the input allows, in the eager run over the eager one. It moves
//! the network of `exb_world` by single steps alone, and stands on the laws of worlds in motion
//! (`exb_world_laws`) and of settling (`exb_settling_laws`), and on the fates of `exb_fate`.
#![tactic(auto)]

mod arrival_queues;
mod delivery;
mod drawn_steps;
pub mod laws;
mod remaining_input;
mod round_progress;
mod seeded_segments;
pub mod segment;
mod segment_input;
mod settling;
mod step_choices;

pub use delivery::round;
pub use exb_world::{Left, Step, Way, World, WorldFault, count_left};
pub use seeded_segments::seeded;
pub use segment::{eager, open};
pub use settling::settle;
