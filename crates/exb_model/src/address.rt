//! MAC addresses.
ghost use Rattle.std.specs.Prelude.{◌≡◌};
ghost use Rattle.exb_model.specs.Frames.{is_control_frame, is_group};

/// The destination of control frames, 01-80-C2-00-00-0E (IEEE 802.1Q, clause 8.6.3: nearest
/// bridge).
pub const CONTROL_ADDRESS: [u8; 6] = [0x01, 0x80, 0xC2, 0x00, 0x00, 0x0E];

/// Whether the destination of a frame is that of control frames; a shorter frame has no
/// destination.
#[tactic(auto, unfolding(crate::specs::Frames::is_control_frame))]
pub fn is_control_frame(frame: &[u8]) -> bool
    ensures { result ≡ is_control_frame frame.now }
{
    frame.starts_with(&CONTROL_ADDRESS)
}

/// A MAC address (IEEE 802), its first byte first.
#[derive(Clone, Copy, Debug, PartialEq, Eq, Default)]
pub struct Mac(pub [u8; 6]);

impl Mac {
    /// Whether it is a group's address: the lowest bit of its first byte is 1.
    pub fn is_group(&self) -> bool
        ensures { result ≡ is_group self.now.0 }
    {
        self.0[0] % 2 == 1
    }
}
