//! How numbers stand in a capture.
ghost use Rattle.std.specs.Prelude.{◌≡◌, ◌≤◌, ◌+◌, length};
ghost use Rattle.exb_capture.specs.Fields.{word, half_word};

/// The order of the bytes of every field.
#[derive(Clone, Copy)]
pub enum ByteOrder {
    Big,
    Little,
}

// The 32 bits at a place.
#[inline(always)]
pub(crate) fn word_at(order: ByteOrder, bytes: &[u8], at: usize) -> u32
    requires { at + 4 ≤ length bytes.now }
    ensures { result ≡ word order bytes.now at }
{
    let four = [bytes[at], bytes[at + 1], bytes[at + 2], bytes[at + 3]];
    match order {
        ByteOrder::Big => u32::from_be_bytes(four),
        ByteOrder::Little => u32::from_le_bytes(four),
    }
}

// The 16 bits at a place.
#[inline(always)]
pub(crate) fn half_word_at(order: ByteOrder, bytes: &[u8], at: usize) -> u16
    requires { at + 2 ≤ length bytes.now }
    ensures { result ≡ half_word order bytes.now at }
{
    let two = [bytes[at], bytes[at + 1]];
    match order {
        ByteOrder::Big => u16::from_be_bytes(two),
        ByteOrder::Little => u16::from_le_bytes(two),
    }
}
