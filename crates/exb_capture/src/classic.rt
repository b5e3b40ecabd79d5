//! Classic pcap: a header, and then record by record.
ghost use Rattle.std.specs.Prelude.{◌≡◌, ◌&&◌, ◌≤◌, ◌<◌, ◌-◌, ◌*◌, ◌^◌, ◌∷◌, [], length, IfOk};
ghost use Rattle.exb_capture.specs.Classic.{digits, classic_front, magic_front, record_front, form, form_of};
ghost use Rattle.exb_capture.specs.Fields.{agrees, byte_agrees};
ghost use Rattle.exb_capture.specs.FieldRanges.{told, IsWithin, Shows};

use crate::byte_order::{ByteOrder, half_word_at, word_at};
use crate::fault::{Flaw, FormatFault};
use crate::format::{Format, Front, RecordSpan};
use exb_model::bytes::LONGEST_FRAME;
use exb_model::moment::SECOND;

/// What a record's fraction of a second counts.
#[derive(Clone, Copy, Drop)]
pub enum Resolution {
    Micros,
    Nanos,
}

/// What the magic number says of all that follows it.
#[derive(Clone, Copy, Drop)]
pub struct ClassicEncoding {
    pub order: ByteOrder,
    pub resolution: Resolution,
}

/// How far a classic file was read: to its header, or behind it.
#[derive(Clone, Copy, Drop)]
pub enum ClassicFormat {
    Start,
    Behind(ClassicEncoding),
}

impl Resolution {
    // How many units make a second, and how many nanoseconds a unit.
    #[inline(always)]
    fn units(self) -> (u32, u64)
        ensures { result ≡ (10 ^ digits self, 10 ^ (9 - digits self)) }
    {
        match self {
            Resolution::Micros => (1_000_000, 1_000),
            Resolution::Nanos => (1_000_000_000, 1),
        }
    }
}

// Whether the byte at this place is that one, where it is there.
fn byte_agrees(byte: u8, bytes: &[u8], at: usize) -> bool
    ensures { result ≡ byte_agrees byte bytes.now at }
{
    bytes.len() <= at || byte == bytes[at]
}

// Whether these bytes are those of a magic number, as far as both go.
#[tactic(auto, using(crate::proofs::MagicNumbers::agrees_by))]
pub(crate) fn agrees(a: u8, b: u8, c: u8, d: u8, bytes: &[u8]) -> bool
    ensures { result ≡ agrees (a ∷ b ∷ c ∷ d ∷ []) bytes.now }
{
    let first = byte_agrees(a, bytes, 0);
    let second = byte_agrees(b, bytes, 1);
    let third = byte_agrees(c, bytes, 2);
    let fourth = byte_agrees(d, bytes, 3);
    first & second & third & fourth
}

// What the magic number says, as far as it is there.
fn form_of(left: &[u8]) -> Option<ClassicEncoding>
    ensures { result ≡ form_of left.now }
{
    let (order, resolution) = if agrees(0xA1, 0xB2, 0xC3, 0xD4, left) {
        (ByteOrder::Big, Resolution::Micros)
    } else if agrees(0xA1, 0xB2, 0x3C, 0x4D, left) {
        (ByteOrder::Big, Resolution::Nanos)
    } else if agrees(0xD4, 0xC3, 0xB2, 0xA1, left) {
        (ByteOrder::Little, Resolution::Micros)
    } else if agrees(0x4D, 0x3C, 0xB2, 0xA1, left) {
        (ByteOrder::Little, Resolution::Nanos)
    } else {
        return None;
    };
    Some(ClassicEncoding { order, resolution })
}

// The record at the front of what is left.
#[tactic(auto, using(crate::proofs::ClassicLemmas::record_is))]
#[inline(always)]
fn record_of(order: ByteOrder, resolution: Resolution, held: &[u8]) -> Front
    ensures value { told result (ClassicFormat.Behind (form order resolution)) held.now
        ≡ record_front (form order resolution) held.now }
    ensures within { IsWithin held.now result }
{
    if held.is_empty() {
        return Front::Nothing;
    }
    if held.len() < 16 {
        return Front::Short(FormatFault::new(Flaw::Cut, 0));
    }
    let head = &held[..16];
    let (units, unit) = resolution.units();
    let fraction = word_at(order, head, 4);
    if fraction >= units {
        return Front::Bad(FormatFault::new(Flaw::Time, 4));
    }
    let bytes = word_at(order, head, 8);
    if bytes > LONGEST_FRAME {
        return Front::Bad(FormatFault::new(Flaw::Length, 8));
    }
    let size = 16 + bytes;
    if held.len() < size as usize {
        return Front::Short(FormatFault::new(Flaw::Cut, 0));
    }
    let moment = (word_at(order, head, 0) as u64) * SECOND + (fraction as u64) * unit;
    let from = 16;
    let seen = RecordSpan {
        moment,
        from,
        bytes,
    };
    Front::Holds(seen, size)
}

impl ClassicFormat {
    // What stands at the front of a file.
    #[cold]
    #[inline(never)]
    fn at_start(&mut self, held: &[u8]) -> Front
        requires { self.old ≡ ClassicFormat.Start }
        ensures { Shows (magic_front (form_of held.now) held.now) held.now result self.old
            self.new }
    {
        let Some(form) = form_of(held) else {
            return Front::Bad(FormatFault::new(Flaw::NotPcap, 0));
        };
        if held.len() < 4 {
            return Front::Short(FormatFault::new(Flaw::NotPcap, 0));
        }
        if held.len() < 24 {
            return Front::Short(FormatFault::new(Flaw::Cut, 0));
        }
        let header = &held[..24];
        if half_word_at(form.order, header, 4) != 2 || half_word_at(form.order, header, 6) != 4 {
            return Front::Bad(FormatFault::new(Flaw::Version, 4));
        }
        if word_at(form.order, header, 20) != 1 {
            return Front::Bad(FormatFault::new(Flaw::LinkType, 20));
        }
        *self = ClassicFormat::Behind(form);
        Front::Over(24)
    }
}

impl Format for ClassicFormat {
    ghost use Rattle.exb_capture.specs.Classic.{classic_front};

    ghost stands = { classic_front };

    #[inline(always)]
    fn front(&mut self, held: &[u8]) -> Front {
        match *self {
            ClassicFormat::Start => self.at_start(held),
            // The order of the bytes is asked once for all fields.
            ClassicFormat::Behind(form) => match form.order {
                ByteOrder::Little => record_of(ByteOrder::Little, form.resolution, held),
                ByteOrder::Big => record_of(ByteOrder::Big, form.resolution, held),
            },
        }
    }

    fn is_a_format(&self) {}
}
