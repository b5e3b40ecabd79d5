//! The controlling bridge's control (after IEEE 802.1BR; the protocol is this project's own). Its
//! `ActiveConfig` is the configuration in force with its numbers and the change at work, and
//! decides and does each change as the machine of `exb_control_spec` says. The control opens each
//! extender once that was heard, lets ports go up, carries out commands one after another. Upwards
//! it promises that each call is exactly a step of the machine of changes, with its events and
//! messages and the ports that went down. Of frames it knows nothing: `exb_bridge` relays them by
//! the configuration that this lends. It stands on `exb_control_spec`, `exb_plan`, `exb_csp` and
//! what these stand on.
#![tactic(auto)]

pub mod active_config;
mod announcements;
mod change_execution;
pub mod control;
mod decision;
mod held_channels;
mod initial_channels;
mod initial_jobs;
mod job_turns;
pub mod outbox;
mod planned_exchanges;
mod queue;
mod release;
mod sessions;
mod space_copies;
pub mod stage;

pub use active_config::ActiveConfig;
pub use control::{Control, ControlFault};
pub use exb_control_spec::{Asked, Job};
pub use exb_csp::Taken;
pub use outbox::Outbox;
pub use stage::Stage;
