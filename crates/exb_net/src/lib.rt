//! A net is played: FILE and topologies are read and captures checked (`exb_inputs`), the outputs
//! of all bridges are made, and what comes to the net (`exb_timeline::NetTimeline`) is given to its
//! bridge, event after event, and what follows is played. What each bridge tells and sends is
//! written and counted as it happens. Upwards it promises that the files of each bridge are those
//! of its history in the net's eager run, and hold fronts of them where the call ends early.
//!
//! The bridges, wired to one another, are one value, `Net`: each has a world of links, with a fate
//! of its own, and its wired ports, each with what is at the far end of its wire and the index of
//! its next frame. What is given to one of them, a frame or a command, is played as a segment of
//! the eager run is, and then each frame that leaves a wired port for it at the far end of its
//! wire, in the order of their queue, until none is between bridges: so its worlds do what
//! `exb_net_laws` says of runs of several worlds. It moves each world by `exb_schedule` alone.
//!
//! `src`: `wired_ports` (of one bridge), `crossing` (the queue), `node` (one bridge), `bridge_set`,
//! `assembly` and `net` (all bridges); `bridge_outputs` (what one bridge writes and counts),
//! `net_player` (one event after another), `preparation` (what is made before the first event),
//! `play` (the whole call). `specs`: `NodeViews` and `NetStates` say where the bridges are and what
//! a call of `Net` does.
#![tactic(auto)]

mod assembly;
mod bridge_outputs;
mod bridge_set;
pub mod crossing;
pub mod net;
mod net_player;
pub mod node;
mod play;
mod preparation;
pub mod wired_ports;

pub use crossing::Crossing;
pub use net::Net;
pub use node::Node;
pub use play::play_net;
pub use wired_ports::WiredPort;
