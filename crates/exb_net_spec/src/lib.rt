//! Several bridges whose external ports are wired to one another: what a net is given, when it is
//! valid, and which history each of its bridges has (`NetEager`). Upwards it promises, by its laws,
//! that a valid input has exactly one history by bridge, and that of a net of one bridge is that of
//! its run. It has the types of wires, definitions and laws, and stands on `exb_model`.
#![tactic(auto)]

pub mod laws;
pub mod wires;
