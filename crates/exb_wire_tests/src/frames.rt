//! Frames: their kinds, their E-TAGs, and the bytes with which they leave.
ghost use Rattle.std.specs.Prelude.{◌≡◌};
ghost use Rattle.exb_model.specs.Frames.{kind_of};
ghost use Rattle.exb_frame.specs.Egress.{can_leave};

use crate::formats::{WireFormat, judge};
use crate::row_words::{bytes_of, expect_bytes, row_of};
use exb_frame::classify::classify;
use exb_frame::egress::{VlanTag, egress_into};
use exb_frame::etag::{ETag, strip_in_place, strip_into, tag_into};
use exb_model::bytes::Bytes;
use exb_model::frame_kind::Seen;
use exb_model::vlan::{Kind, Vid};
use std::alloc::Global;
use std::process::Abort;

const KINDS: &str = "FF 12x00>Short\n\
     FF 13x00>Plain\n\
     FF 9215x00>Plain\n\
     FF 9216x00>Long\n\
     000000000000 000000000000 8100 0FFF 48x00>BadTag\n\
     000000000000 000000000000 8100 0000 48x00>Priority { pcp: 0, dei: false }\n\
     000000000000 000000000000 8100 B000 48x00>Priority { pcp: 5, dei: true }\n\
     000000000000 000000000000 8100 B00A 48x00>Tagged { pcp: 5, dei: true, vid: Vid { number: 10 } }\n\
     000000000000 000000000000 8100 0001 00>BadTag\n\
     # Reserved destinations, before the tag.\n\
     0180C2000000 54x00>Reserved\n\
     0180C200000E 000000000000 8100 0FFF 44x00>Reserved\n\
     0180C200000F 54x00>Reserved\n\
     0180C2000010 54x00>Plain";

#[test]
fn frames_have_their_kinds(rt: HostRuntime) {
    judge(&rt, rt.alloc(), WireFormat::Frame, KINDS);
}

const TAGS: &str =
    "000000000000 000000000000 893F 0000 0001 0000>Some(ETag { pcp: 0, dei: false, ingress: 0, ecid: 1 })\n\
     000000000000 000000000000 893F B003 1002 0000>Some(ETag { pcp: 5, dei: true, ingress: 3, ecid: 4098 })\n\
     # Reserved bits of the E-CID are not looked at.\n\
     000000000000 000000000000 893F 0FFF C001 0000>Some(ETag { pcp: 0, dei: false, ingress: 4095, ecid: 1 })\n\
     # An extension byte that isn't 0, another type, and a frame that ends within the E-TAG.\n\
     000000000000 000000000000 893F 0000 0001 0001>None\n\
     000000000000 000000000000 893F 0000 0001 0100>None\n\
     000000000000 000000000000 8100 0000 0001 0000>None\n\
     000000000000 000000000000 893F 0000 0001 00>None";

#[test]
fn e_tags_are_read(rt: HostRuntime) {
    judge(&rt, rt.alloc(), WireFormat::ETag, TAGS);
}

const TAG: ETag = ETag {
    pcp: 5,
    dei: true,
    ingress: 3,
    ecid: 0x1002,
};

// Puts the E-TAG into a frame.
fn tag(rt: &impl Abort, frame: &[u8], out: &mut Vec<u8>) {
    assert!(rt; frame.len() >= 12);
    tag_into(frame, &TAG, out).expect(rt, "memory");
}

// Takes the E-TAG out of a frame.
fn strip(rt: &impl Abort, frame: &[u8], out: &mut Vec<u8>) {
    assert!(rt; frame.len() >= 20);
    strip_into(frame, out).expect(rt, "memory");
}

// The same where it stands.
fn strip_there(rt: &impl Abort, frame: &mut Bytes) {
    assert!(rt; frame.as_slice().len() >= 20);
    strip_in_place(frame);
}

/// A frame, and the same with the E-TAG.
const PLAIN: &str = "6x07 6x08 48x09";

const TAGGED: &str = "6x07 6x08 893FB00310020000 48x09";

#[test]
fn e_tags_are_put_in_and_taken_out(rt: HostRuntime) {
    let alloc = rt.alloc();
    let mut out = Vec::new(alloc);
    tag(&rt, bytes_of(&rt, alloc, PLAIN).as_slice(), &mut out);
    expect_bytes(&rt, alloc, out.as_slice(), TAGGED);
    out.clear();
    strip(&rt, bytes_of(&rt, alloc, TAGGED).as_slice(), &mut out);
    expect_bytes(&rt, alloc, out.as_slice(), PLAIN);
}

#[test]
fn e_tags_are_taken_out_in_place(rt: HostRuntime) {
    let mut frame = Bytes::from_vec(bytes_of(&rt, rt.alloc(), TAGGED));
    strip_there(&rt, &mut frame);
    expect_bytes(&rt, rt.alloc(), frame.as_slice(), PLAIN);
    expect_bytes(&rt, rt.alloc(), &TAG.write(), "893FB00310020000");
}

/// Whether a frame is one that leaves a port.
pub(crate) fn may_leave(frame: &[u8]) -> bool
    ensures { result ≡ can_leave (kind_of frame.now) }
{
    matches!(
        classify(frame),
        Seen::Plain | Seen::Priority { .. } | Seen::Tagged { .. }
    )
}

// Asserts with which bytes a frame leaves with PCP 3 in VLAN 7.
fn leave(rt: &impl Abort, alloc: Global, frame: &[u8], kind: Kind, dei: bool, wanted: &str) {
    let vid = Vid::new(7).expect(rt, "a VLAN");
    let tag = VlanTag { pcp: 3, dei, vid };
    let mut out = Vec::new(alloc);
    if may_leave(frame) {
        egress_into(frame, kind, &tag, &mut out).expect(rt, "memory");
    }
    expect_bytes(rt, alloc, out.as_slice(), wanted);
}

/// The kind of the port, DEI, a frame, and the bytes with which it leaves: none where it leaves
/// nowhere. A tag is taken out, or another is put in its place. The longest frame grows by its tag.
/// A bad tag and a reserved destination leave nowhere.
const LEFT: &str =
    "tagged 1 111111111111 222222222222 0800 0102 44x00>111111111111 222222222222 8100 7007 0800 0102 44x00\n\
     untagged 1 111111111111 222222222222 0800 0102 44x00>111111111111 222222222222 0800 0102 44x00\n\
     untagged 0 111111111111 222222222222 8100 6005 0800 0102 40x00>111111111111 222222222222 0800 0102 40x00\n\
     tagged 0 111111111111 222222222222 8100 6005 0800 0102 40x00>111111111111 222222222222 8100 6007 0800 0102 40x00\n\
     tagged 1 111111111111 222222222222 8100 E000 0800 0102 40x00>111111111111 222222222222 8100 7007 0800 0102 40x00\n\
     tagged 0 111111111111 222222222222 0800 9202x00>111111111111 222222222222 8100 6007 0800 9202x00\n\
     tagged 0 111111111111 222222222222 8100 0FFF 44x00>\n\
     untagged 0 0180C200000E 54x00>";

// Asserts it of a row.
fn leave_row(rt: &impl Abort, alloc: Global, row: &str) {
    let (given, wanted) = row_of(rt, row);
    let (kind, behind) = given.split_once(' ').expect(rt, "a kind");
    let (dei, text) = behind.split_once(' ').expect(rt, "a bit");
    let kind = match kind {
        "tagged" => Kind::Tagged,
        _ => Kind::Untagged,
    };
    let frame = bytes_of(rt, alloc, text);
    leave(rt, alloc, frame.as_slice(), kind, dei == "1", wanted);
}

#[test]
fn frames_leave_with_a_vlan_tag_or_without(rt: HostRuntime) {
    for row in LEFT.lines() {
        leave_row(&rt, rt.alloc(), row);
    }
}
