//! Groups with their sets.
use exb_model::port_set::PortSet;

/// A group with its set, in the space of a bridge port, which is numbered from 1.
#[derive(Clone, Copy)]
pub struct GroupAt {
    /// The bridge port.
    pub bridge_port: u8,
    /// The number of the group.
    pub number: u16,
    /// Its set.
    pub set: PortSet,
}
