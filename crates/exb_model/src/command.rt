//! Commands that change the configuration.
use crate::address::Mac;
use crate::port::PortId;
use crate::port_set::PortSet;
use crate::rules::Accept;
use crate::vlan::{Kind, Vid};

/// A change of the configuration. Each is total over external ports and VLANs.
#[derive(Clone, Copy)]
pub enum Command {
    /// Sets the members of a VLAN exactly. A port in both sets is untagged.
    Vlan {
        vid: Vid,
        tagged: PortSet,
        untagged: PortSet,
    },
    /// Puts a port into a VLAN, tagged or untagged.
    Member {
        vid: Vid,
        port: PortId,
        kind: Kind,
    },
    /// Takes a port out of a VLAN.
    Unmember {
        vid: Vid,
        port: PortId,
    },
    /// Sets the VLAN of a port's frames without a VLAN tag.
    Pvid {
        port: PortId,
        vid: Vid,
    },
    /// Sets the frame types that a port accepts.
    Accept {
        port: PortId,
        accept: Accept,
    },
    /// Turns a port's ingress filtering on or off.
    Filter {
        port: PortId,
        on: bool,
    },
    /// Isolates a port from the other isolated ports, or ends that.
    Isolate {
        port: PortId,
        on: bool,
    },
    /// Puts a static entry. One that is there takes the new ports and keeps its place.
    Static {
        vid: Vid,
        address: Mac,
        ports: PortSet,
    },
    /// Removes a static entry.
    Unstatic {
        vid: Vid,
        address: Mac,
    },
    /// Makes a port present.
    Up {
        port: PortId,
    },
    /// Makes a port absent.
    Down {
        port: PortId,
    },
}
