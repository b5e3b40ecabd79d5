//! Bridges whose external ports are wired to one another, as a file of a net gives them.
use exb_model::list::List;
use exb_model::port::PortId;
use exb_model::setup::Setup;

/// A port of a bridge of a net.
#[derive(Clone, Copy)]
pub struct End {
    /// The bridge, counted from 0 in the order of the file.
    pub bridge: u8,
    pub port: PortId,
}

/// A wire between two external ports.
#[derive(Clone, Copy)]
pub struct Wire {
    pub a: End,
    pub b: End,
}

/// The setups of the bridges of a net, and the wires between them, both in the order of the file.
#[derive(Drop)]
pub struct NetSetup {
    pub setups: List<Setup>,
    pub wires: List<Wire>,
}
