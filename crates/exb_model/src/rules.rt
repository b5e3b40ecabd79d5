//! What is configured for a port, and for an address.
use crate::address::Mac;
use crate::port_set::PortSet;
use crate::vlan::Vid;

/// The frame types that a port accepts (IEEE 802.1Q, acceptable frame types).
#[derive(Clone, Copy, Default)]
pub enum Accept {
    #[default]
    All,
    /// Frames with a VLAN tag alone.
    TaggedOnly,
    /// Frames without a VLAN tag, and priority-tagged ones.
    UntaggedOnly,
}

/// The rules of a port: its PVID, the frame types that it accepts, whether ingress filtering is on,
/// and whether it is isolated. Isolated ports exchange nothing with one another.
#[derive(Clone, Copy, Default)]
pub struct PortRule {
    pub pvid: Vid,
    pub accept: Accept,
    pub filter: bool,
    pub isolated: bool,
}

/// A static entry: the ports to which frames for an address in a VLAN go (IEEE 802.1Q, static
/// filtering entries).
#[derive(Clone, Copy)]
pub struct StaticAt {
    pub vid: Vid,
    pub address: Mac,
    pub ports: PortSet,
}
