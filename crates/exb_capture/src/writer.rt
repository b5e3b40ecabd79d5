//! Writing an output capture.
ghost use Rattle.std.specs.Prelude.{◌≡◌, ◌<◌, ◌*◌, ◌^◌, ◌/◌, ◌%◌, ◌++◌, ℕ, List, length as length_of};
ghost use Rattle.exb_model.specs.Texts.{capture_header, record_text as record_of};

use exb_model::moment::SECOND;

const MICROSECOND: u64 = 1_000;

/// Microseconds in a second.
const MICROSECONDS: u64 = 1_000_000;

/// The front of every output capture: classic pcap, little-endian, in microseconds, version 2.4,
/// link type 1 (Ethernet).
pub fn header_text() -> [u8; 24]
    ensures { result ≡ capture_header }
{
    [
        0xD4, 0xC3, 0xB2, 0xA1, 2, 0, 4, 0, 0, 0, 0, 0, 0, 0, 0, 0, 0xFF, 0xFF, 0, 0, 1, 0, 0, 0,
    ]
}

/// The whole microseconds of a moment, in nanoseconds, behind its second. They come of a
/// difference, since of a quotient each of its bytes would be computed by itself.
#[inline(always)]
fn micros_of(moment: u64) -> u32
    ensures { result ≡ moment % 1_000_000_000 / 1_000 }
{
    (moment / MICROSECOND - moment / SECOND * MICROSECONDS) as u32
}

/// What stands before the bytes of a frame of this length that left at this moment, in nanoseconds.
/// The moment is written in whole microseconds.
pub fn record_text(moment: u64, length: u32) -> [u8; 16]
    requires { moment < 2 ^ 32 * 1_000_000_000 }
    ensures { (bytes : List ℕ) → length_of bytes ≡ length → record_of (moment, bytes)
        ≡ result ++ bytes }
{
    let seconds = ((moment / SECOND) as u32).to_le_bytes();
    let micros = micros_of(moment).to_le_bytes();
    let size = length.to_le_bytes();
    [
        seconds[0], seconds[1], seconds[2], seconds[3], micros[0], micros[1], micros[2], micros[3],
        size[0], size[1], size[2], size[3], size[0], size[1], size[2], size[3],
    ]
}
