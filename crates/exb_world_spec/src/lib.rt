//! The whole world as a pure machine, and what is true of its every step and run. The machine is
//! the bridge's control and what it has learned, the extenders, both ends of the transport between
//! them, and the words on the links. It is moved by steps, in which frames and control messages
//! travel as bytes over links that may lose, repeat and reorder control frames.
//!
//! `specs` says what a world and its steps are (`Worlds`, `Effects`, `ExtenderSteps`,
//! `BridgeLearning`, `ControlFrames`, `DataFrames`, `Steps`), which steps may be made
//! (`AllowedSteps`), and what rounds and settling are (`Settling`). A code over this machine meets
//! `stepped` exactly.
//!
//! `specs/Runs` and `laws` say, over the bytes of all words, that each request on its way was asked
//! and each answer was stored, by serial (`Sessions`); and that for the machine of changes and the
//! tables of all extenders each step of the world is nothing or one step, which gives the same
//! command and tells the same events of jobs (`Simulation`). So all laws of `exb_control_spec` over
//! runs hold of each run of the world, and the journal tells of each job once, in order
//! (`Journal`). And what a step tells by its kind (`Journal`, `Stamps`). No code stands here but
//! laws.
#![tactic(auto)]

pub mod laws;
