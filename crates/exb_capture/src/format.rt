//! What a format is to the code above it, what it finds at the front of the bytes that are held,
//! and the two formats as one.
ghost use Rattle.std.specs.Prelude.{◌≡◌, List, ℕ};
ghost use Rattle.exb_capture.specs.Blocks.{most_held};
ghost use Rattle.exb_capture.specs.Captures.{unknown_front};
ghost use Rattle.exb_capture.specs.declared.format.AnyFormat.TheVariants.{Unknown};
ghost use Rattle.exb_capture.specs.Formats.{Front as Stood};
ghost use Rattle.exb_capture.specs.ReaderMachine.{IsFormat};
ghost use Rattle.exb_capture.specs.FieldRanges.{Shows};

use crate::classic::{ClassicFormat, agrees};
use crate::fault::{Flaw, FormatFault};
use crate::pcapng::PcapngFormat;

/// A record that was looked at: its moment in nanoseconds since the epoch, below 2^32 seconds;
/// where in what was looked at its frame begins; and how many bytes that has, at most 262,144.
#[derive(Clone, Copy)]
pub struct RecordSpan {
    pub moment: u64,
    pub from: u32,
    pub bytes: u32,
}

/// What stands at the front: nothing; what more bytes decide, with its fault where the file ends; a
/// fault whatever follows; so many bytes that are no record and needn't all be there yet; or a
/// record, and how many bytes the whole takes.
#[derive(Clone, Copy)]
pub enum Front {
    Nothing,
    Short(FormatFault),
    Bad(FormatFault),
    Over(u32),
    Holds(RecordSpan, u32),
}

impl Front {
    // The same, taken from where a call left it: what stands at most fronts, for which there is no
    // call, then stays in registers.
    #[inline(always)]
    pub(crate) fn taken(self) -> Front
        ensures { result ≡ self }
    {
        match self {
            Front::Nothing => Front::Nothing,
            Front::Short(fault) => Front::Short(fault),
            Front::Bad(fault) => Front::Bad(fault),
            Front::Over(n) => Front::Over(n),
            Front::Holds(seen, size) => Front::Holds(seen, size),
        }
    }
}

/// A format of captures. A value of it is how far a file was read; it says what stands at the front
/// of what is left, and the records of a file follow from that alone.
pub trait Format: Drop {
    /// What stands at a front.
    ghost stands: { Self → List ℕ → Stood Self };

    /// What stands at the front of these bytes; what was read is known from then on.
    fn front(&mut self, held: &[u8]) -> Front
        ensures { Shows (stands self.old held.now) held.now result self.old self.new };

    /// That it stands whatever follows. It does nothing.
    fn is_a_format(&self)
        ensures { IsFormat most_held stands };
}

/// How far a capture was read, in the format that its first four bytes tell.
#[derive(Drop)]
pub enum AnyFormat {
    Unknown,
    Classic(ClassicFormat),
    Blocks(PcapngFormat),
}

impl AnyFormat {
    // What stands at the front of a file, whose first four bytes tell its format.
    #[cold]
    #[inline(never)]
    fn begin(&mut self, held: &[u8]) -> Front
        requires { self.old ≡ Unknown }
        ensures { Shows (unknown_front held.now) held.now result self.old self.new }
    {
        if agrees(0x0A, 0x0D, 0x0D, 0x0A, held) {
            if held.len() < 4 {
                return Front::Short(FormatFault::new(Flaw::NotPcap, 0));
            }
            let mut blocks = PcapngFormat::new();
            let front = blocks.front(held);
            match front {
                Front::Over(_) | Front::Holds(_, _) => *self = AnyFormat::Blocks(blocks),
                _ => {}
            }
            return front;
        }
        let mut reached = ClassicFormat::Start;
        let front = reached.front(held);
        match front {
            Front::Over(_) | Front::Holds(_, _) => *self = AnyFormat::Classic(reached),
            _ => {}
        }
        front
    }
}

impl Format for AnyFormat {
    ghost use Rattle.exb_capture.specs.Captures.{capture_front};

    ghost stands = { capture_front };

    #[tactic(auto, unfolding(crate::specs::Captures::capture_front))]
    #[inline(always)]
    fn front(&mut self, held: &[u8]) -> Front {
        match self {
            AnyFormat::Unknown => self.begin(held).taken(),
            AnyFormat::Classic(reached) => reached.front(held),
            AnyFormat::Blocks(blocks) => blocks.front(held),
        }
    }

    fn is_a_format(&self) {}
}
