//! What is announced, and what a frame may lack.
use exb_model::address::Mac;

/// What an extender announces of itself.
#[derive(Clone, Copy, Debug)]
pub struct Announce {
    /// The address by which the extender is known.
    pub chassis: Mac,
    /// How many ports it has, 1 to 64.
    pub ports: u8,
}

/// Why a frame announces nothing. An offset counts bytes from the frame's beginning.
#[derive(Clone, Copy, Debug)]
pub enum LldpFault {
    /// It has no destination and EtherType, or others than those of an announcement.
    NotLldp,
    /// The TLV at this offset runs past the end; where the frame ends without an End, that offset
    /// is its length.
    Cut { at: u64 },
    /// The TLV at this offset may not stand at its place: Chassis ID, Port ID and TTL come first,
    /// in this order, and none of them comes again (IEEE 802.1AB-2009, 8.2).
    Order { at: u64 },
    /// There is no extension TLV with a port count.
    NoExtension,
}
