//! Captures in pieces: the records that are read of them, or the first fault.
use crate::capture_reads::{front_text, sized_text};
use crate::compare::{holds, same, same_at};
use crate::test_rows::bytes_of;
use exb_capture::{header_text, record_text};
use std::alloc::Global;
use std::process::Abort;

/// One broadcast frame at 100 s, what stands in its place with each fault, two bytes of a frame of
/// 64 at 100 s and 999 ns, by a big-endian machine, and the broadcast as pcapng.
const READ: &str =
    "D4C3B2A1 0200 0400 00000000 00000000 FFFF0000 01000000 64000000 00000000 3C000000 3C000000 6xFF 020000000001 0800 46x00>100000000000 60;\n\
     D4C3B2A1 0200 0400 00000000 00000000 FFFF0000 01000000>\n\
     D4C3B2>NotPcap(0)\n\
     D4C3B2A1 0200 0400 00000000 00000000 FFFF0000 010000>Cut(0)\n\
     D4C3B2A1 0200 0300 00000000 00000000 FFFF0000 01000000 64000000 00000000 3C000000 3C000000 6xFF 020000000001 0800 46x00>Version(4)\n\
     D4C3B2A1 0200 0400 00000000 00000000 FFFF0000 69000000 64000000 00000000 3C000000 3C000000 6xFF 020000000001 0800 46x00>LinkType(20)\n\
     D4C3B2A1 0200 0400 00000000 00000000 FFFF0000 01000000 64000000 00000000 3C000000 3C0000>Cut(24)\n\
     D4C3B2A1 0200 0400 00000000 00000000 FFFF0000 01000000 64000000 40420F00 3C000000 3C000000 6xFF 020000000001 0800 46x00>Time(28)\n\
     D4C3B2A1 0200 0400 00000000 00000000 FFFF0000 01000000 64000000 00000000 FFFFFFFF 3C000000 6xFF 020000000001 0800 46x00>Length(32)\n\
     D4C3B2A1 0200 0400 00000000 00000000 FFFF0000 01000000 64000000 00000000 3C000000 3C000000 6xFF 020000000001 0800 45x00>Cut(24)\n\
     A1B23C4D 0002 0004 00000000 00000000 0000FFFF 00000001 00000064 000003E7 00000002 00000040 AABB>100000000999 2;\n\
     0A0D0D0A 1C000000 4D3C2B1A 01000000 8xFF 1C000000 01000000 14000000 01000000 00000400 14000000 06000000 5C000000 00000000 00000000 00E1F505 3C000000 3C000000 6xFF 020000000001 0800 46x00 5C000000>100000000000 60;";

/// At most so many bytes are fed at once.
const SIZES: [usize; 9] = [1, 2, 3, 7, 16, 24, 27, 60, 999];

// Asserts what is read of a row's file in pieces of each size.
fn judge_pieces(rt: &impl Abort, alloc: Global, row: &str) {
    let (text, wanted) = row.split_once('>').expect(rt, "what is read");
    let file = bytes_of(rt, alloc, text);
    for size in &SIZES {
        let told = sized_text(rt, alloc, file.as_slice(), *size);
        same_at(rt, told.as_str().trim_end(), wanted, row, *size);
    }
}

#[test]
fn a_file_in_pieces_is_read_up_to_its_first_fault(rt: HostRuntime) {
    for row in READ.lines() {
        judge_pieces(&rt, rt.alloc(), row);
    }
}

/// The front of such a file, and what is answered before it is told that this is the end.
const FRONTS: &str = ">More\n\
     D4C3B2>More\n\
     D4C3B200>NotPcap(0)\n\
     00>NotPcap(0)\n\
     A1B23C4D>More\n\
     D4C3B2A1 0200 0300 00000000 00000000 FFFF0000 010000>More\n\
     D4C3B2A1 0200 0300 00000000 00000000 FFFF0000 01000000>Version(4)\n\
     D4C3B2A1 0200 0400 00000000 00000000 FFFF0000 69000000>LinkType(20)\n\
     D4C3B2A1 0200 0400 00000000 00000000 FFFF0000 01000000 64000000 40420F00 3C000000 3C0000>More\n\
     D4C3B2A1 0200 0400 00000000 00000000 FFFF0000 01000000 64000000 40420F00 3C000000 3C000000>Time(28)\n\
     D4C3B2A1 0200 0400 00000000 00000000 FFFF0000 01000000 64000000 00000000 FFFFFFFF 3C0000>More\n\
     D4C3B2A1 0200 0400 00000000 00000000 FFFF0000 01000000 64000000 00000000 FFFFFFFF 3C000000>Length(32)\n\
     D4C3B2A1 0200 0400 00000000 00000000 FFFF0000 01000000 64000000 00000000 3C000000 3C000000 6xFF 020000000001 0800 45x00>More\n\
     D4C3B2A1 0200 0400 00000000 00000000 FFFF0000 01000000 64000000 00000000 3C000000 3C000000 6xFF 020000000001 0800 46x00>100000000000 60; More\n\
     0A0D0D0A 1C000000 4D3C2B1A 01000000 8xFF 1C000000 01000000 14000000 01000000 00000400 14000000 06000000 5C000000 00000000 00000000 00E1F505 3C000000 3C000000 6xFF 020000000001 0800 46x00 5C0000>More\n\
     0A0D0D0A 1C000000 4D3C2B1A 01000000 8xFF 1C000000 01000000 14000000 01000000 00000400 14000000 06000000 5C000000 00000000 00000000 00E1F505 3C000000 3C000000 6xFF 020000000001 0800 46x00 5C000000>100000000000 60; More";

// Asserts what is answered of a row's front.
fn judge_front(rt: &impl Abort, alloc: Global, row: &str) {
    let (text, wanted) = row.split_once('>').expect(rt, "what is answered");
    let front = bytes_of(rt, alloc, text);
    let told = front_text(rt, alloc, front.as_slice());
    same(rt, told.as_str(), wanted, row);
}

#[test]
fn what_stands_whatever_follows_is_answered_before_the_end(rt: HostRuntime) {
    for row in FRONTS.lines() {
        judge_front(&rt, rt.alloc(), row);
    }
}

/// The head of a file, and that of a record of 60 bytes at 100 s.
const HEAD: &str = "D4C3B2A1 0200 0400 00000000 00000000 FFFF0000 01000000";

const RECORD: &str = "64000000 00000000 3C000000 3C000000";

#[test]
fn heads_are_written_as_they_must(rt: HostRuntime) {
    let head = bytes_of(&rt, rt.alloc(), HEAD);
    let written = header_text();
    let is_head = head.as_slice() == written.as_slice();
    holds(&rt, is_head, "the file's head");
    let record = bytes_of(&rt, rt.alloc(), RECORD);
    let written = record_text(100_000_000_000, 60);
    let is_head = record.as_slice() == written.as_slice();
    holds(&rt, is_head, "the record's head");
}

// Puts a record with a frame of 100,000 bytes behind what a file holds.
fn put_long(rt: &impl Abort, file: &mut Vec<u8>, second: u8) {
    let head = record_text(u64::from(second) * 1_000_000_000, 100_000);
    file.extend_from_slice(&head).expect(rt, "memory");
    let length = file.len().saturating_add(100_000);
    file.resize(length, second).expect(rt, "memory");
}

// A capture of five such frames: more than the reader's buffer.
fn long_capture(rt: &impl Abort, alloc: Global) -> Vec<u8> {
    let mut file = Vec::from_slice(alloc, &header_text()).expect(rt, "memory");
    for second in 0..5u8 {
        put_long(rt, &mut file, second);
    }
    file
}

#[test]
fn a_long_file_is_read_through_a_short_buffer(rt: HostRuntime) {
    let file = long_capture(&rt, rt.alloc());
    let wanted =
        "0 100000; 1000000000 100000; 2000000000 100000; 3000000000 100000; 4000000000 100000; ";
    for size in &[1_000, 65_536, 99_999, 162_144, 500_104] {
        let told = sized_text(&rt, rt.alloc(), file.as_slice(), *size);
        same_at(&rt, told.as_str(), wanted, "pieces of", *size);
    }
}
