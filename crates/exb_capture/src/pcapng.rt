//! pcapng, block by block.
ghost use Rattle.std.specs.Prelude.{◌≡◌, ◌≤◌};
ghost use Rattle.exb_capture.specs.Blocks.{Sections, no_section, whole_front, block_front};
ghost use Rattle.exb_capture.specs.FieldRanges.{IsHead, Shows};

use crate::block::{BlockContent, BlockHeader, Interface, PACKET, head_of, is_read, whole_block};
use crate::byte_order::{ByteOrder, word_at};
use crate::fault::{Flaw, FormatFault};
use crate::format::{Format, Front};
use arrayvec::ArrayVec;
use std::marker::Model;

/// How far a pcapng file was read: the order of bytes and the interfaces of its section, and the
/// moment of the record before, or 0.
#[derive(Drop)]
pub struct PcapngFormat {
    order: Option<ByteOrder>,
    interfaces: ArrayVec<Interface, 256>,
    last: u64,
}

// Whether a packet stands at the front, in a section of this order. Where it does, order and kind
// are known, and are asked no more.
#[inline(always)]
fn is_packet(order: ByteOrder, held: &[u8]) -> bool {
    held.len() >= 12 && word_at(order, held, 0) == PACKET
}

impl Model for PcapngFormat {
    ghost use Rattle.exb_capture.specs.Blocks.{Sections};
    ghost use Rattle.exb_capture.specs.FieldRanges.{IsBlocks, section_of};

    ghost Value = { Sections };

    ghost view = { λ b. record { section = section_of b.order b.interfaces.items; last = b.last } };

    ghost invariant = { λ b. IsBlocks b.order b.interfaces.items b.last };
}

impl PcapngFormat {
    /// Before the first block.
    pub fn new() -> PcapngFormat
        ensures { result ≡ no_section }
    {
        PcapngFormat {
            order: None,
            interfaces: ArrayVec::new(),
            last: 0,
        }
    }

    // What stands there, where it is a block that is looked into.
    #[inline(always)]
    fn whole(&mut self, head: BlockHeader, held: &[u8]) -> Front
        requires sized { IsHead head }
        requires most { head.size ≤ 327_680 }
        ensures { Shows (whole_front self.old head held.now) held.now result self.old self.new }
    {
        let size = head.size as usize;
        if held.len() < size {
            return Front::Short(FormatFault::new(Flaw::Cut, 0));
        }
        match whole_block(head, self.interfaces.as_slice(), self.last, &held[..size]) {
            Ok(BlockContent::Skipped) => Front::Over(head.size),
            Ok(BlockContent::NewSection) => {
                self.order = Some(head.order);
                self.interfaces.clear();
                Front::Over(head.size)
            }
            Ok(BlockContent::NewInterface(interface)) => {
                self.order = Some(head.order);
                self.interfaces.push(interface);
                Front::Over(head.size)
            }
            Ok(BlockContent::Packet(seen)) => {
                self.last = seen.moment;
                Front::Holds(seen, head.size)
            }
            Err(fault) => Front::Bad(fault),
        }
    }

    // What stands at the front of these bytes.
    #[tactic(auto, unfolding(crate::specs::Blocks::block_front))]
    #[inline(always)]
    fn stands(&mut self, held: &[u8]) -> Front
        ensures { Shows (block_front self.old held.now) held.now result self.old self.new }
    {
        if held.is_empty() {
            return Front::Nothing;
        }
        if held.len() < 12 {
            return Front::Short(FormatFault::new(Flaw::Cut, 0));
        }
        match head_of(self.order, &held[..12]) {
            Ok(head) if is_read(head.kind) => self.whole(head, held),
            Ok(head) => Front::Over(head.size),
            Err(fault) => Front::Bad(fault),
        }
    }

    // The same, apart: with that of a little-endian packet, code that isn't called would grow too
    // large to stand in its place.
    #[cold]
    #[inline(never)]
    fn stands_apart(&mut self, held: &[u8]) -> Front
        ensures { Shows (block_front self.old held.now) held.now result self.old self.new }
    {
        match self.order {
            Some(ByteOrder::Big) if is_packet(ByteOrder::Big, held) => self.stands(held),
            _ => self.stands(held),
        }
    }
}

impl Format for PcapngFormat {
    ghost use Rattle.exb_capture.specs.Blocks.{block_front};

    ghost stands = { block_front };

    /// What stands at the front of these bytes; what was read is known from then on.
    #[inline(always)]
    fn front(&mut self, held: &[u8]) -> Front {
        match self.order {
            Some(ByteOrder::Little) if is_packet(ByteOrder::Little, held) => self.stands(held),
            _ => self.stands_apart(held).taken(),
        }
    }

    fn is_a_format(&self) {}
}
