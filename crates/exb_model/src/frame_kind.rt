//! The kinds of frames.
use crate::vlan::Vid;

/// What a frame is to a VLAN bridge (IEEE 802.1Q): the first of these that fits it.
#[derive(Clone, Copy, Debug)]
pub enum Seen {
    /// Under 14 bytes.
    Short,
    /// Over 9,216 bytes.
    Long,
    /// Its destination is one of 01-80-C2-00-00-00 to 01-80-C2-00-00-0F, which no bridge forwards.
    Reserved,
    /// Its type is that of a VLAN tag, but it ends within the tag or its VLAN is 4095.
    BadTag,
    /// Without a VLAN tag.
    Plain,
    /// With a VLAN tag whose VLAN is 0. `pcp` is below 8.
    Priority { pcp: u8, dei: bool },
    /// With the VLAN tag of a VLAN. `pcp` is below 8.
    Tagged { pcp: u8, dei: bool, vid: Vid },
}
