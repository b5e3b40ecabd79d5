//! The blocks of a pcapng file, each looked at once.
ghost use Rattle.std.specs.Prelude.{◌≡◌, ◌≤◌, ◌<◌, ◌*◌, ◌^◌, ◌+◌, ◌-◌, ◌%◌, All, None, length, IfOk};
ghost use Rattle.exb_capture.specs.Blocks.{new_order, old_order, kind_of, is_read, head_at, is_no_frame, or_option, resolution_from, interface_at, enhanced_at, simple_at, block_at};
ghost use Rattle.exb_capture.specs.FieldRanges.{HasDigits, HasResolution, IsIn, IsHead, IsReadable};

use crate::byte_order::{ByteOrder, half_word_at, word_at};
use crate::fault::{Flaw, FormatFault, refuse};
use crate::format::RecordSpan;
use exb_model::bytes::LONGEST_FRAME;

// The numbers of the blocks that are looked into.
const SECTION_HEADER: u32 = 0x0A0D_0D0A;

const INTERFACE: u32 = 1;

pub(crate) const PACKET: u32 = 6;

const SIMPLE_PACKET: u32 = 3;

const SECTION_MAGIC: u32 = 0x1A2B_3C4D;

const MOST_SIZE: u32 = 327_680;

const SECONDS: u64 = 4_294_967_296;

/// An interface of a section.
#[derive(Clone, Copy, Default, Drop)]
pub struct Interface {
    /// Its link type.
    pub link: u16,
    /// The most bytes of a frame that are stored, 0 where that is not limited.
    pub snap: u32,
    /// A time counts units of 10 to the power of minus this, 0 to 9.
    pub digits: u8,
}

/// What the first twelve bytes of a block say.
#[derive(Clone, Copy)]
pub struct BlockHeader {
    pub order: ByteOrder,
    /// The number of its kind.
    pub kind: u32,
    pub size: u32,
}

/// What a block says: nothing that is read; that a section begins; an interface; or a frame of the
/// block.
#[derive(Clone, Copy)]
pub enum BlockContent {
    Skipped,
    NewSection,
    NewInterface(Interface),
    Packet(RecordSpan),
}

// Whether a block of this kind is looked into.
#[inline(always)]
pub(crate) fn is_read(kind: u32) -> bool
    ensures { result ≡ is_read (kind_of kind) }
{
    match kind {
        SECTION_HEADER | INTERFACE | PACKET | SIMPLE_PACKET => true,
        _ => false,
    }
}

// The order of bytes of the section that this header begins.
#[cold]
#[inline(never)]
fn new_order(twelve: &[u8]) -> Option<ByteOrder>
    requires { 12 ≤ length twelve.now }
    ensures { old_order result ≡ new_order twelve.now }
{
    if word_at(ByteOrder::Big, twelve, 8) == SECTION_MAGIC {
        Some(ByteOrder::Big)
    } else if word_at(ByteOrder::Little, twelve, 8) == SECTION_MAGIC {
        Some(ByteOrder::Little)
    } else {
        None
    }
}

/// What the first twelve bytes of a block say, in a section of this order.
#[inline(always)]
pub(crate) fn head_of(old: Option<ByteOrder>, twelve: &[u8]) -> Result<BlockHeader, FormatFault>
    requires { 12 ≤ length twelve.now }
    ensures value { result ≡ head_at old twelve.now }
    ensures sized { IfOk result IsHead }
{
    let known = if word_at(ByteOrder::Big, twelve, 0) == SECTION_HEADER {
        new_order(twelve)
    } else {
        old
    };
    let Some(order) = known else {
        return Err(FormatFault::new(Flaw::Magic, 8));
    };
    let kind = word_at(order, twelve, 0);
    let size = word_at(order, twelve, 4);
    if size < 12 || size % 4 != 0 || is_read(kind) && size > MOST_SIZE {
        return Err(FormatFault::new(Flaw::Length, 4));
    }
    Ok(BlockHeader { order, kind, size })
}

// Whether a frame is too long, or doesn't fit into a block of this size behind so many bytes.
#[inline(always)]
fn is_no_frame(size: u32, head: u32, n: u32) -> bool
    requires { head ≤ 32 }
    ensures { result ≡ is_no_frame size head n }
{
    n > LONGEST_FRAME || size < head + (n + 3) / 4 * 4
}

// How many units of this resolution make a second.
#[inline(always)]
fn units(digits: u8) -> u64
    requires { digits ≤ 9 }
    ensures { result ≡ 10 ^ digits }
{
    match digits {
        0 => 1,
        1 => 10,
        2 => 100,
        3 => 1_000,
        4 => 10_000,
        5 => 100_000,
        6 => 1_000_000,
        7 => 10_000_000,
        8 => 100_000_000,
        9 => 1_000_000_000,
        _ => unreachable!(),
    }
}

// With the option at this place, where none before it was an option 9.
fn or_option(
    first: Option<Result<u8, FormatFault>>,
    order: ByteOrder,
    block: &[u8],
    at: usize,
) -> Option<Result<u8, FormatFault>>
    requires there { at + 8 ≤ length block.now }
    requires digits { HasDigits first }
    ensures value { result ≡ or_option first order at block.now }
    ensures digits { HasDigits result }
{
    if first.is_some() || half_word_at(order, block, at) != 9 {
        return first;
    }
    if half_word_at(order, block, at + 2) == 1 && block[at + 4] <= 9 {
        return Some(Ok(block[at + 4]));
    }
    Some(Err(FormatFault::new(Flaw::Resolution, at as u64)))
}

// What the options of an interface block say of its resolution.
#[tactic(auto, using(crate::proofs::OptionLemmas::from_end, crate::proofs::OptionLemmas::from_zero, crate::proofs::OptionLemmas::from_past, crate::proofs::OptionLemmas::from_next))]
fn resolution(order: ByteOrder, block: &[u8]) -> Result<u8, FormatFault>
    requires long { 20 ≤ length block.now }
    requires most { length block.now ≤ 327_680 }
    requires fours { length block.now % 4 ≡ 0 }
    ensures value { result ≡ resolution_from order None 16 (length block.now - 4) block.now }
    ensures digits { IfOk result (λ digits. digits ≤ 9) }
{
    let to = block.len() - 4;
    let mut at = 16usize;
    let mut first: Option<Result<u8, FormatFault>> = None;
    'options: while at < to && half_word_at(order, block, at) != 0 {
        let size = half_word_at(order, block, at + 2) as usize;
        refuse!(to < at + 4 + size, Length, at as u64);
        first = or_option(first, order, block, at);
        at = at + 4 + (size + 3) / 4 * 4;
    }
    first.unwrap_or(Ok(6))
}

fn new_interface(
    head: BlockHeader,
    interfaces: &[Interface],
    block: &[u8],
) -> Result<BlockContent, FormatFault>
    requires whole { length block.now ≡ head.size }
    requires fours { head.size % 4 ≡ 0 }
    requires most { head.size ≤ 327_680 }
    ensures value { result ≡ interface_at head interfaces.now block.now }
    ensures within { IfOk result (IsIn head.size (length interfaces.now)) }
{
    refuse!(head.size < 20, Length, 4);
    refuse!(interfaces.len() >= 256, TooMany, 0);
    let digits = resolution(head.order, block)?;
    Ok(BlockContent::NewInterface(Interface {
        link: half_word_at(head.order, block, 8),
        snap: word_at(head.order, block, 12),
        digits,
    }))
}

#[inline(always)]
fn enhanced(
    head: BlockHeader,
    interfaces: &[Interface],
    block: &[u8],
) -> Result<BlockContent, FormatFault>
    requires whole { length block.now ≡ head.size }
    requires digits { All HasResolution interfaces.now }
    ensures value { result ≡ enhanced_at head interfaces.now block.now }
    ensures within { IfOk result (IsIn head.size (length interfaces.now)) }
{
    refuse!(head.size < 32, Length, 4);
    let number = word_at(head.order, block, 8) as usize;
    refuse!(number >= interfaces.len(), Interface, 8);
    let interface = interfaces[number];
    refuse!(interface.link != 1, LinkType, 8);
    let time = (word_at(head.order, block, 12) as u64) * SECONDS
        + word_at(head.order, block, 16) as u64;
    refuse!(time >= SECONDS * units(interface.digits), Time, 12);
    let bytes = word_at(head.order, block, 20);
    refuse!(is_no_frame(head.size, 32, bytes), Length, 20);
    Ok(BlockContent::Packet(RecordSpan {
        moment: time * units(9 - interface.digits),
        from: 28,
        bytes,
    }))
}

fn simple(
    head: BlockHeader,
    interfaces: &[Interface],
    last: u64,
    block: &[u8],
) -> Result<BlockContent, FormatFault>
    requires whole { length block.now ≡ head.size }
    requires digits { All HasResolution interfaces.now }
    requires last { last < 2 ^ 32 * 1_000_000_000 }
    ensures value { result ≡ simple_at head interfaces.now last block.now }
    ensures within { IfOk result (IsIn head.size (length interfaces.now)) }
{
    refuse!(head.size < 16, Length, 4);
    refuse!(interfaces.is_empty(), Interface, 0);
    let interface = interfaces[0];
    refuse!(interface.link != 1, LinkType, 0);
    let original = word_at(head.order, block, 8);
    let bytes = if interface.snap == 0 {
        original
    } else {
        original.min(interface.snap)
    };
    refuse!(is_no_frame(head.size, 16, bytes), Length, 8);
    Ok(BlockContent::Packet(RecordSpan {
        moment: last,
        from: 12,
        bytes,
    }))
}

/// What a whole block says, in a section of these interfaces, where the record before had this
/// moment.
#[tactic(auto, unfolding(crate::specs::Blocks::block_at))]
#[inline(always)]
pub(crate) fn whole_block(
    head: BlockHeader,
    interfaces: &[Interface],
    last: u64,
    block: &[u8],
) -> Result<BlockContent, FormatFault>
    requires { IsReadable head interfaces.now last block.now }
    ensures value { result ≡ block_at head interfaces.now last block.now }
    ensures within { IfOk result (IsIn head.size (length interfaces.now)) }
{
    let end = head.size - 4;
    let again = word_at(head.order, block, end as usize);
    refuse!(again != head.size, Length, end as u64);
    match head.kind {
        SECTION_HEADER => {
            refuse!(head.size < 28, Length, 4);
            refuse!(half_word_at(head.order, block, 12) != 1, Version, 12);
            Ok(BlockContent::NewSection)
        }
        INTERFACE => new_interface(head, interfaces, block),
        PACKET => enhanced(head, interfaces, block),
        SIMPLE_PACKET => simple(head, interfaces, last, block),
        _ => Ok(BlockContent::Skipped),
    }
}
