//! The addresses of a frame.
ghost use Rattle.std.specs.Prelude.{◌≡◌, ◌≤◌, length};
ghost use Rattle.exb_model.specs.Frames.{destination, source};

use exb_model::address::Mac;

/// The address to which a frame goes: its first six bytes.
pub fn destination(frame: &[u8]) -> Mac
    requires { 6 ≤ length frame.now }
    ensures { result.0 ≡ destination frame.now }
{
    let mut address = [0u8; 6];
    address.copy_from_slice(&frame[..6]);
    Mac(address)
}

/// The address from which a frame comes: the six bytes after its destination.
pub fn source(frame: &[u8]) -> Mac
    requires { 12 ≤ length frame.now }
    ensures { result.0 ≡ source frame.now }
{
    let mut address = [0u8; 6];
    address.copy_from_slice(&frame[6..12]);
    Mac(address)
}
