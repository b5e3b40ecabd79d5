//! Frames that arrive at the bridge from outside.
use crate::bytes::Bytes;
use crate::port::PortId;

/// A frame that arrives at an external port: a record of a capture, or a frame that crossed a wire.
#[derive(Drop)]
pub struct Arrival {
    /// The port.
    pub port: PortId,
    /// Its number among the arrivals of the port, from 1.
    pub index: u64,
    /// Its moment: its time in nanoseconds since the epoch, or the moment of the arrival before it
    /// at this port if that is greater.
    pub moment: u64,
    /// The frame.
    pub bytes: Bytes,
}
