//! Several worlds of links whose external ports are wired to one another: what a run of them does,
//! event by event, and that each of them is told the history that the net's input gives it, with
//! what the one bridge sends over it at each of its ports. No code stands here but laws. Upwards it
//! promises just that, for every run in which each event settles by moves, whatever words are lost,
//! repeated and overtaken; it stands on the nets of `exb_net_spec` and on worlds in motion
//! (`exb_world_laws`).
//!
//! `specs`: `NetRuns` (runs of several worlds), `NetRunLaws`. `proofs`: `BridgeRuns` (one world
//! after any steps), `Handling` (it is given something), `Opening`, `NetRunLaws` (queues and
//! events).
#![tactic(auto)]

pub mod laws;
