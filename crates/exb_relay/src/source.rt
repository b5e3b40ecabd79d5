//! Where a frame comes from.
ghost use Rattle.std.specs.Prelude.{◌≡◌, ◌<◌};
ghost use Rattle.exb_relay.specs.SendsBySource.{ingress_for};

use exb_config::members::Members;
use exb_model::port::PortId;
use exb_model::vlan::Vid;

/// The way up of a port of an extender: the port of the bridge above it, 1 to 64, and the channel
/// that the port has in the number space there.
#[derive(Clone, Copy)]
pub(crate) struct Uplink {
    pub trunk: u8,
    pub channel: u16,
}

/// The port of a frame that passes, with its way up where it is a port of an extender, and the
/// priority of the frame (`pcp` is below 8).
#[derive(Clone, Copy)]
pub(crate) struct Source {
    pub port: PortId,
    pub uplink: Option<Uplink>,
    pub pcp: u8,
    pub dei: bool,
}

/// A frame that passed: where it comes from, and its VLAN with the members.
#[derive(Clone, Copy)]
pub(crate) struct Passed<'a> {
    pub source: Source,
    pub vid: Vid,
    pub members: &'a Members,
}

impl Source {
    /// The number by which extenders below a port of the bridge, counted from 0, know the source:
    /// its channel where it is below that port too, and 0 elsewhere, since its channel is another
    /// port's there.
    pub fn ingress(&self, place: u8) -> u16
        requires { place < 64 }
        ensures { result ≡ ingress_for self.now.uplink place }
    {
        match self.uplink {
            Some(uplink) if uplink.trunk == place + 1 => uplink.channel,
            _ => 0,
        }
    }
}
