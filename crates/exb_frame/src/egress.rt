//! The bytes with which a frame leaves a port, as it is or with an E-TAG. Each call puts them in
//! the place of what was in `into`.
ghost use Rattle.std.specs.Prelude.{◌≡◌, ◌<◌, ◌≤◌, ◌+◌, ◌++◌, ◌*◌, true, false, take, drop, length, OnOk};
ghost use Rattle.exb_model.specs.ETags.{TagFits, tagged};
ghost use Rattle.exb_model.specs.Frames.{kind_of, egress, body_after, priority_of, two_bytes};
ghost use Rattle.exb_frame.specs.Egress.{can_leave, priority, egress_with, put_in};
ghost use Rattle.exb_frame.specs.TagValues.{tag_of};

use crate::append::{begin, put};
use crate::classify::has_vlan_type;
use crate::etag::ETag;
use exb_model::memory::NoMemory;
use exb_model::vlan::{Kind, Vid};

/// The fields of a VLAN tag (IEEE 802.1Q, clause 9): the priority (PCP below 8, DEI) and the VLAN.
#[derive(Clone, Copy)]
pub struct VlanTag {
    pub pcp: u8,
    pub dei: bool,
    pub vid: Vid,
}

impl VlanTag {
    /// Its four bytes: its type, and PCP, DEI and VID in two.
    #[inline(always)]
    fn write(&self) -> [u8; 4]
        requires { self.now.pcp < 8 }
        ensures { result ≡ two_bytes 0x8100 ++ two_bytes
            (priority self.now.pcp self.now.dei * 4096 + self.now.vid) }
    {
        let number = self.vid.number();
        let high = 32 * self.pcp + 16 * u8::from(self.dei) + (number / 256) as u8;
        [0x81, 0, high, (number % 256) as u8]
    }
}

/// Whether a frame that may leave has a VLAN tag, so that its body begins at byte 16, or else at
/// byte 12.
#[inline(always)]
fn has_tag(frame: &[u8]) -> bool
    requires { can_leave (kind_of frame.now) ≡ true }
    ensures long { 14 ≤ length frame.now }
    ensures tagged { result ≡ true → (16 ≤ length frame.now)
        × (body_after frame.now (kind_of frame.now) ≡ drop 16 frame.now) }
    ensures plain { result ≡ false → body_after frame.now (kind_of frame.now) ≡ drop 12 frame.now }
{
    has_vlan_type(frame)
}

/// What follows the addresses and the VLAN tag of a frame that may leave.
#[inline(always)]
fn body_after(frame: &[u8]) -> &[u8]
    requires { can_leave (kind_of frame.now) ≡ true }
    ensures { result.now ≡ body_after frame.now (kind_of frame.now) }
{
    if has_tag(frame) {
        &frame[16..]
    } else {
        &frame[12..]
    }
}

/// The addresses of a frame, bytes between, a VLAN tag or nothing, and what follows the frame's own
/// tag.
#[inline(always)]
fn put_parts(frame: &[u8], between: &[u8], tag: &[u8], into: &mut Vec<u8>) -> Result<(), NoMemory>
    requires frame { can_leave (kind_of frame.now) ≡ true }
    requires long { 14 ≤ length frame.now }
    requires fits { length frame.now ≤ 9216 }
    ensures { OnOk result (into.new.items ≡ take 12 frame.now ++ between.now ++ tag.now
        ++ body_after frame.now (kind_of frame.now)) }
{
    begin(frame.len() + 12, into)?;
    put(&frame[..12], into)?;
    put(between, into)?;
    put(tag, into)?;
    put(body_after(frame), into)
}

/// A frame without its VLAN tag: as it is where it has none.
#[inline(always)]
fn put_untagged(frame: &[u8], into: &mut Vec<u8>) -> Result<(), NoMemory>
    requires { can_leave (kind_of frame.now) ≡ true }
    ensures { OnOk result (into.new.items ≡ take 12 frame.now ++ body_after frame.now
        (kind_of frame.now)) }
{
    if has_tag(frame) {
        return put_parts(frame, &[], &[], into);
    }
    into.clear();
    put(frame, into)
}

/// The bytes with which a frame leaves, with bytes put in behind its addresses.
#[inline(always)]
fn put_egress(
    frame: &[u8],
    kind: Kind,
    tag: &VlanTag,
    between: &[u8],
    into: &mut Vec<u8>,
) -> Result<(), NoMemory>
    requires frame { can_leave (kind_of frame.now) ≡ true }
    requires pcp { tag.now.pcp < 8 }
    ensures bytes { OnOk result (into.new.items
        ≡ put_in between.now (egress_with (priority tag.now.pcp tag.now.dei) frame.now kind
        tag.now.vid)) }
    ensures short { OnOk result (length into.new.items ≤ 9220 + length between.now) }
{
    match kind {
        Kind::Tagged => put_parts(frame, between, &tag.write(), into),
        Kind::Untagged => put_parts(frame, between, &[], into),
    }
}

/// The bytes with which a frame leaves a port of this kind in the VLAN of a tag: without a VLAN
/// tag, or with that one. The frame is one that may be relayed: Plain, Priority or Tagged. There
/// are at most 9,220 bytes.
#[inline(always)]
pub fn egress_into(
    frame: &[u8],
    kind: Kind,
    tag: &VlanTag,
    into: &mut Vec<u8>,
) -> Result<(), NoMemory>
    requires frame { can_leave (kind_of frame.now) ≡ true }
    requires pcp { tag.now.pcp < 8 }
    ensures bytes { OnOk result (into.new.items ≡ egress_with (priority tag.now.pcp tag.now.dei)
        frame.now kind tag.now.vid) }
    ensures own { OnOk result (priority tag.now.pcp tag.now.dei ≡ priority_of (kind_of frame.now)
        → into.new.items ≡ egress frame.now kind tag.now.vid) }
    ensures short { OnOk result (length into.new.items ≤ 9220) }
{
    match kind {
        Kind::Tagged => put_egress(frame, kind, tag, &[], into),
        Kind::Untagged => put_untagged(frame, into),
    }
}

/// The same bytes with an E-TAG put in at byte 12.
#[inline(always)]
pub fn tagged_egress_into(
    frame: &[u8],
    kind: Kind,
    tag: &VlanTag,
    etag: &ETag,
    into: &mut Vec<u8>,
) -> Result<(), NoMemory>
    requires frame { can_leave (kind_of frame.now) ≡ true }
    requires pcp { tag.now.pcp < 8 }
    requires fits { TagFits (tag_of etag.now) }
    ensures bytes { OnOk result (into.new.items
        ≡ tagged (egress_with (priority tag.now.pcp tag.now.dei) frame.now kind tag.now.vid)
        (tag_of etag.now)) }
    ensures own { OnOk result (priority tag.now.pcp tag.now.dei ≡ priority_of (kind_of frame.now)
        → into.new.items ≡ tagged (egress frame.now kind tag.now.vid) (tag_of etag.now)) }
{
    put_egress(frame, kind, tag, &etag.write(), into)
}
