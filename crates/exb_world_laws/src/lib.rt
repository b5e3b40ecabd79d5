//! A tree in motion is one bridge. After what was given to a world of links (`exb_world_spec`),
//! what happened and what has left its ports it is one VLAN bridge, but for what is still on its
//! way; also while the configuration changes and frames fly. No code stands here but laws, in two
//! parts of which the second stands on the first.
//!
//! `laws::motion`, on the flight (`exb_flight`). `specs`: `WorldInput` (arrivals and commands),
//! `OneBridge` (when a world stands), `WorldInvariant` (what each step keeps, and the laws),
//! `StepEvents`, `OneBridgeSteps`, `SettledHistories`, `FrameBytes` and `SegmentRuns` (runs that
//! play an input). `proofs`: `QuietLinks`, `UpwardFrames` (what steps do to upward words),
//! `NamedArrivals` (each arrival is named once), `LongerHistories` (more commands change nothing so
//! far), `DecidedJobs`, `JobOrder` (each command is decided once, as refusals say),
//! `InvariantSteps` (each step), `OneBridge` (runs), `Setups`, `InputOrder` and `SegmentArrivals`
//! (the segments of an input have its commands in order and its arrivals, each once).
//!
//! `laws::runs`, on that and on the bound on settling (`exb_settling_laws`): what holds of the runs
//! of a valid setup, with no premise but that each of their steps may be made.
//! `specs/Runs/Settling`: from each world that they reach settling ends settled within its bound.
//! `specs/Runs/SegmentRuns` speaks of runs that play the segments of an input, in the eager mode or
//! in a seeded one, each settled and marked: what is known of them after some segments
//! (`runs_are_under_way`), that a whole run told a history that the input allows and wrote what the
//! one bridge sends over it (`runs_write_legally`), and that this is the eager history in the eager
//! mode (`runs_write_eagerly`). `Crossings` speaks of what leaves for one event: that frames leave
//! at external ports alone is shown step by step in `proofs/Runs/ExternalPorts`; `OneBridge` of
//! what steps leave standing.
#![tactic(auto)]

pub mod laws;
