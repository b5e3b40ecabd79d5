//! Laws over the definitions of `exb_model`, for readers and tests. No part of the product stands
//! on them.
//!
//! - What one VLAN bridge never does (`forbidden_behaviour`) and what it always does
//!   (`required_behaviour`). An empty bridge, or one that forgets, meets none of the latter.
//! - Which histories an input allows (`history_laws`). They play all of it, each record and each
//! command
//!   once; there is one in either mode, and a journal tells which one it is.
//! - When a setup is valid, in words of its extenders, with setups at each limit (`setup_laws`).
//!
//! The plain bridge that computes the definitions over a history is in Python
//! (`crates/exb_cases/bridge.py`). Runs of the program are compared with it.
#![tactic(auto)]

pub mod forbidden_behaviour;
pub mod history_laws;
pub mod required_behaviour;
pub mod setup_laws;
