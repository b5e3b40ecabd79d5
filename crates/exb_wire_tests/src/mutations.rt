//! Good spellings of each format that are cut before each byte, have each bit turned, or go on for
//! a byte. What is read then is the fault that comes first, or a value that is written as exactly
//! these bytes. Where a bit isn't looked at (`unseen`), the value is that of the good spelling.
mod cases;

use crate::formats::WireFormat;
use crate::frames::may_leave;
use crate::row_words::{bytes_of, told};
use cases::{ANNOUNCEMENTS, E_TAGS, ECP, FRAMES, MESSAGES};
use exb_ecp::Pdu;
use exb_frame::classify::classify;
use exb_frame::egress::{VlanTag, egress_into};
use exb_frame::etag::ETag;
use exb_lldp::Announce;
use exb_model::address::Mac;
use exb_model::buffers::ControlBuf;
use exb_model::frame_kind::Seen;
use exb_model::vlan::{Kind, Vid};
use exb_test_rows::expectations::{BITS, turn, verdict_at, verdict_of_bit};
use std::alloc::Global;
use std::fmt::Debug;
use std::process::Abort;

/// A good spelling and what is read of it, by places from 0. It stands in a line for each field,
/// behind a comment or none, with `%` before each further case.
#[derive(Clone, Copy)]
struct MutatedSpelling<'a> {
    good: &'a str,
    /// What is read where it is cut before a place: `PLACE VERDICT|`, up to the next entry's place.
    /// It isn't cut where there is none.
    cut: &'a str,
    /// What is read with a bit turned: `FIRST-LAST.BITS VERDICT|`; the first entry that has the
    /// place and the bit counts. No bit is turned that none has.
    turned: &'a str,
    /// What is read with a byte more at its end.
    longer: &'a str,
}

// What stands behind a comment, if there is one.
fn bare(text: &str) -> &str {
    match text.split_once('\n') {
        Some((first, rest)) if first.starts_with("#") => rest,
        _ => text,
    }
}

// The first line of a text, and what stands below it.
fn line<'a>(rt: &impl Abort, text: &'a str) -> (&'a str, &'a str) {
    text.split_once('\n').expect(rt, "a line")
}

// The case of its lines.
fn case_of<'a>(rt: &impl Abort, text: &'a str) -> MutatedSpelling<'a> {
    let (good, rest) = line(rt, bare(text));
    let (cut, rest) = line(rt, rest);
    let (turned, longer) = line(rt, rest);
    MutatedSpelling {
        good,
        cut,
        turned,
        longer,
    }
}

// The bytes 6 to 11 of a frame.
fn source_of(frame: &[u8]) -> Mac {
    match frame {
        [_, _, _, _, _, _, a, b, c, d, e, f, ..] => Mac([*a, *b, *c, *d, *e, *f]),
        _ => Mac::default(),
    }
}

// The verdict on what is written again.
fn ok(rt: &impl Abort, alloc: Global) -> String {
    String::from_str(alloc, "ok").expect(rt, "memory")
}

// The fault, or `ok`.
fn verdict<T, E: Debug>(rt: &impl Abort, alloc: Global, read: &Result<T, E>) -> String {
    match read {
        Ok(_) => ok(rt, alloc),
        Err(fault) => told(rt, alloc, fault),
    }
}

// Puts bytes behind those that are written again.
fn put(rt: &impl Abort, again: &mut Vec<u8>, bytes: &[u8]) {
    again.extend_from_slice(bytes).expect(rt, "memory");
}

fn write_announcement(rt: &impl Abort, announce: &Announce, again: &mut Vec<u8>) {
    let mut out = ControlBuf::new();
    assert!(rt; announce.ports >= 1);
    assert!(rt; announce.ports <= 64);
    exb_lldp::write(announce, &mut out);
    put(rt, again, out.as_slice());
}

fn announcement(rt: &impl Abort, alloc: Global, frame: &[u8], again: &mut Vec<u8>) -> String {
    let read = exb_lldp::read(frame);
    if let Ok(announce) = &read {
        write_announcement(rt, announce, again);
    }
    verdict(rt, alloc, &read)
}

// A payload that comes with an acknowledgement is ignored: it is put behind what is written.
fn write_pdu(rt: &impl Abort, pdu: &Pdu, frame: &[u8], again: &mut Vec<u8>) {
    let payload = frame.get(18..).unwrap_or(&[]);
    let mut out = ControlBuf::new();
    assert!(rt; pdu.subtype < 1024);
    assert!(rt; pdu.payload_at == 18);
    assert!(rt; payload.len() <= 1024);
    exb_ecp::write(source_of(frame), pdu, payload, &mut out);
    put(rt, again, out.as_slice());
    if pdu.acknowledgement {
        put(rt, again, payload);
    }
}

fn ecp(rt: &impl Abort, alloc: Global, frame: &[u8], again: &mut Vec<u8>) -> String {
    let read = exb_ecp::read(frame);
    if let Ok(pdu) = &read {
        write_pdu(rt, pdu, frame, again);
    }
    verdict(rt, alloc, &read)
}

fn message(rt: &impl Abort, alloc: Global, bytes: &[u8], again: &mut Vec<u8>) -> String {
    let read = exb_csp::read(bytes);
    if let Ok(message) = &read {
        let mut out = ControlBuf::new();
        exb_csp::write(message, &mut out);
        put(rt, again, out.as_slice());
    }
    verdict(rt, alloc, &read)
}

fn write_tag(rt: &impl Abort, tag: &ETag, frame: &[u8], again: &mut Vec<u8>) {
    assert!(rt; tag.pcp < 8);
    assert!(rt; tag.ingress < 4096);
    assert!(rt; tag.ecid < 16384);
    put(rt, again, frame.get(..12).unwrap_or(&[]));
    put(rt, again, &tag.write());
    put(rt, again, frame.get(20..).unwrap_or(&[]));
}

fn etag(rt: &impl Abort, alloc: Global, frame: &[u8], again: &mut Vec<u8>) -> String {
    match ETag::read(frame) {
        Some(tag) => {
            write_tag(rt, &tag, frame, again);
            ok(rt, alloc)
        }
        None => String::from_str(alloc, "none").expect(rt, "memory"),
    }
}

// The frame as it leaves.
fn left(rt: &impl Abort, alloc: Global, frame: &[u8], kind: Kind, tag: &VlanTag) -> Vec<u8> {
    let mut out = Vec::new(alloc);
    let can_leave = may_leave(frame);
    assert!(rt; can_leave);
    assert!(rt; tag.pcp < 8);
    egress_into(frame, kind, tag, &mut out).expect(rt, "memory");
    out
}

// The VLAN tag of a frame that has none.
fn no_tag() -> VlanTag {
    VlanTag {
        pcp: 0,
        dei: false,
        vid: Vid::default(),
    }
}

// A frame leaves without its priority tag, which is put in again.
fn write_priority(
    rt: &impl Abort,
    alloc: Global,
    frame: &[u8],
    pcp: u8,
    dei: bool,
    again: &mut Vec<u8>,
) {
    let out = left(rt, alloc, frame, Kind::Untagged, &no_tag());
    let (addresses, body) = out.as_slice().split_at_checked(12).expect(rt, "addresses");
    let high: u8 = pcp
        .wrapping_mul(32)
        .wrapping_add(16u8.wrapping_mul(u8::from(dei)));
    put(rt, again, addresses);
    put(rt, again, &[0x81, 0, high, 0]);
    put(rt, again, body);
}

fn write_frame(
    rt: &impl Abort,
    alloc: Global,
    frame: &[u8],
    kind: Kind,
    tag: &VlanTag,
    again: &mut Vec<u8>,
) {
    let out = left(rt, alloc, frame, kind, tag);
    put(rt, again, out.as_slice());
}

// A frame leaves by its own VLAN tag as it came.
fn frame(rt: &impl Abort, alloc: Global, frame: &[u8], again: &mut Vec<u8>) -> String {
    match classify(frame) {
        Seen::Plain => write_frame(rt, alloc, frame, Kind::Untagged, &no_tag(), again),
        Seen::Tagged { pcp, dei, vid } => {
            let tag = VlanTag { pcp, dei, vid };
            write_frame(rt, alloc, frame, Kind::Tagged, &tag, again)
        }
        Seen::Priority { pcp, dei } => write_priority(rt, alloc, frame, pcp, dei, again),
        seen => return told(rt, alloc, &seen),
    }
    ok(rt, alloc)
}

// The bits of a byte whose verdict is `unseen`.
fn unseen_at(rt: &impl Abort, text: &str, place: usize) -> u8 {
    let mut mask = 0u8;
    for bit in &BITS {
        if verdict_of_bit(text, place, *bit).expect(rt, "a table") == Some("unseen") {
            mask |= bit;
        }
    }
    mask
}

// For each of so many bytes the bits whose verdict is `unseen`.
fn unseen(rt: &impl Abort, alloc: Global, text: &str, bytes: usize) -> Vec<u8> {
    let mut unseen = Vec::new(alloc);
    for place in 0..bytes {
        unseen.push(unseen_at(rt, text, place)).expect(rt, "memory");
    }
    unseen
}

// The byte at a place, or 0.
fn byte_at(bytes: &[u8], place: usize) -> u8 {
    bytes.get(place).copied().unwrap_or(0)
}

// Whether bytes are those, but for bits that aren't looked at.
fn is_like(bytes: &[u8], those: &[u8], unseen: &[u8]) -> bool {
    for place in 0..bytes.len() {
        let bits = byte_at(bytes, place) ^ byte_at(those, place);
        if bits & !byte_at(unseen, place) != 0 {
            return false;
        }
    }
    bytes.len() == those.len()
}

/// A format, what was written again, and for each byte of the good spelling the bits that aren't
/// looked at.
#[derive(Drop)]
struct Bench {
    alloc: Global,
    format: WireFormat,
    good: Vec<u8>,
    unseen: Vec<u8>,
    again: Vec<u8>,
}

impl Bench {
    fn new(
        rt: &impl Abort,
        alloc: Global,
        format: WireFormat,
        case: &MutatedSpelling<'_>,
    ) -> Bench {
        let good = bytes_of(rt, alloc, case.good);
        let unseen = unseen(rt, alloc, case.turned, good.len());
        Bench {
            alloc,
            format,
            good,
            unseen,
            again: Vec::new(alloc),
        }
    }

    // The fault of these bytes, or `ok`; and then what is written again.
    fn read(&mut self, rt: &impl Abort, bytes: &[u8]) -> String {
        let again = &mut self.again;
        again.clear();
        match self.format {
            WireFormat::Announcement => announcement(rt, self.alloc, bytes, again),
            WireFormat::Ecp => ecp(rt, self.alloc, bytes, again),
            WireFormat::Message => message(rt, self.alloc, bytes, again),
            WireFormat::ETag => etag(rt, self.alloc, bytes, again),
            WireFormat::Frame => frame(rt, self.alloc, bytes, again),
        }
    }

    // Whether a verdict is that which is wanted, and where it is `ok`, these bytes were written
    // again.
    fn is_right(&self, verdict: &str, wanted: &str, bytes: &[u8]) -> bool {
        verdict == wanted && (wanted != "ok" || is_like(&self.again, bytes, &self.unseen))
    }

    // Asserts that these bytes are read as this verdict says.
    fn judge(&mut self, rt: &impl Abort, bytes: &[u8], wanted: &str) {
        let verdict = self.read(rt, bytes);
        let is_right = match wanted {
            "unseen" => self.is_right(verdict.as_str(), "ok", &self.good),
            _ => self.is_right(verdict.as_str(), wanted, bytes),
        };
        assert!(rt; is_right, "{verdict} of {bytes:?}");
    }

    // Asserts what is read of bytes that are cut before a place.
    fn judge_cut(
        &mut self,
        rt: &impl Abort,
        case: &MutatedSpelling<'_>,
        bytes: &[u8],
        place: usize,
    ) {
        let front = bytes.get(..place).unwrap_or(&[]);
        if let Some(verdict) = verdict_at(case.cut, place).expect(rt, "a table") {
            self.judge(rt, front, verdict);
        }
    }

    // Asserts what is read of bytes with a bit turned.
    fn judge_bit(
        &mut self,
        rt: &impl Abort,
        case: &MutatedSpelling<'_>,
        bytes: &mut Vec<u8>,
        place: usize,
        bit: u8,
    ) {
        if let Some(verdict) = verdict_of_bit(case.turned, place, bit).expect(rt, "a table") {
            turn(bytes, place, bit);
            self.judge(rt, bytes.as_slice(), verdict);
            turn(bytes, place, bit);
        }
    }

    // Asserts what is read of bytes, of their fronts, of them with each bit turned, and with a byte
    // more.
    fn judge_all(&mut self, rt: &impl Abort, case: &MutatedSpelling<'_>, bytes: &mut Vec<u8>) {
        self.judge(rt, bytes.as_slice(), "ok");
        for place in 0..bytes.len() {
            self.judge_cut(rt, case, bytes.as_slice(), place);
            for bit in &BITS {
                self.judge_bit(rt, case, bytes, place, *bit);
            }
        }
        bytes.push(0).expect(rt, "memory");
        self.judge(rt, bytes.as_slice(), case.longer);
    }
}

// Asserts it of a case by its lines.
fn judge_text(rt: &impl Abort, alloc: Global, format: WireFormat, text: &str) {
    let case = case_of(rt, text);
    let mut bytes = bytes_of(rt, alloc, case.good);
    Bench::new(rt, alloc, format, &case).judge_all(rt, &case, &mut bytes);
}

// Asserts what is read of good spellings, of their fronts, of them with each bit turned, and with a
// byte more.
fn judge(rt: &impl Abort, alloc: Global, format: WireFormat, cases: &str) {
    for text in cases.split('%') {
        judge_text(rt, alloc, format, text.trim_end());
    }
}

#[test]
fn cuts_and_turned_bits_are_read_as_they_must(rt: HostRuntime) {
    let alloc = rt.alloc();
    judge(&rt, alloc, WireFormat::Announcement, ANNOUNCEMENTS);
    judge(&rt, alloc, WireFormat::Ecp, ECP);
    judge(&rt, alloc, WireFormat::Message, MESSAGES);
    judge(&rt, alloc, WireFormat::ETag, E_TAGS);
    judge(&rt, alloc, WireFormat::Frame, FRAMES);
}
