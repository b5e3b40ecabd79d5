//! The tree as one value: the controlling bridge, the extenders below it, and the links between
//! them, moved by single steps.
//!
//! Upwards it promises that each call is exactly one step of the machine of `exb_world_spec`: the
//! same world, events and departing frames, so that all laws on that machine hold of it. The crate
//! is wires and steps. What is done with a frame at the end of a link is done by a box: the bridge
//! (`exb_bridge`) or an extender (`exb_extender`).
#![tactic(auto)]

mod allowed_steps;
mod bridge_steps;
mod command_facts;
mod extender_sends;
mod extender_steps;
mod forwarding;
mod incoming_frame;
mod indices;
pub mod left_count;
pub mod link_turns;
mod live_steps;
mod parts;
pub mod step;
mod step_execution;
mod trace_lines;
pub mod world;
mod world_beat;

pub use exb_outbox::{Left, PortMap};
pub use left_count::count_left;
pub use link_turns::LinkTurn;
pub use step::{Step, Way};
pub use world::{World, WorldFault};
