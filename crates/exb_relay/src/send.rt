//! What is sent for a frame.
use exb_frame::etag::ETag;
use exb_model::vlan::{Kind, Vid};

/// One send at a port of the bridge, `b1` to `b64` as 1 to 64. Without an E-TAG the frame leaves at
/// that port at once; with one it goes into the extender that hangs there. `kind` says whether it
/// has a VLAN tag.
#[derive(Clone, Copy, Default)]
pub struct SendTo {
    pub bridge_port: u8,
    pub tag: Option<ETag>,
    pub kind: Kind,
}

/// What the bridge makes of a frame at its port: it is dropped, or it passes in a VLAN with the
/// priority of its VLAN tag (`pcp` is below 8), which is 0 without one.
#[derive(Clone, Copy)]
pub enum Ingress {
    Dropped,
    Passed { vid: Vid, pcp: u8, dei: bool },
}
