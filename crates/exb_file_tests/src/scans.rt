//! Captures that are checked, each on a shelf that reads at most so many bytes at once.
use crate::compare::same;
use crate::test_rows::bytes_of;
use exb_capture::{ScanFault, Scanned, header_text, record_text, scan};
use exb_test_shelf::{Disturbance, FaultyShelf};
use std::alloc::Global;
use std::process::Abort;
use std::str::SplitWhitespace;

/// The frames of a capture by their moments and lengths: one broadcast of 60 bytes at 100 s, and
/// then an empty frame, one of a byte and one that is longer than what is read at once.
const FRAMES: [(u64, u32); 4] = [
    (100_000_000_000, 60),
    (90_000_000_000, 0),
    (101_000_001_000, 1),
    (101_000_002_000, 70_000),
];

/// At most so many bytes are read at once.
pub(crate) const CUTS: [usize; 5] = [1, 3, 16, 24, 65_536];

/// A change of the capture, as the place of four bytes, these, which are those that stand there
/// where nothing changes, and the length to which it is cut; how many bytes may be read; and what
/// is told. A time that is none is a fault whatever follows, which comes before the limit.
const LIMITED: &str = "0 D4C3B2A1 100 100>100 1 Some(100000000000)\n\
     0 D4C3B2A1 100 99>Large { limit: 99 }\n\
     0 D4C3B2A1 100 39>Large { limit: 39 }\n\
     0 D4C3B2A1 100 24>Large { limit: 24 }\n\
     0 D4C3B2A1 100 3>Large { limit: 3 }\n\
     0 D4C3B2A1 100 0>Large { limit: 0 }\n\
     0 D4C3B2A1 24 24>24 0 None\n\
     0 D4C3B2A1 99 100>Fault { fault: FormatFault { flaw: Cut, at: 24 } }\n\
     0 D4C3B2A1 99 99>Fault { fault: FormatFault { flaw: Cut, at: 24 } }\n\
     0 D4C3B2A1 99 98>Large { limit: 98 }\n\
     28 40420F00 100 40>Fault { fault: FormatFault { flaw: Time, at: 28 } }\n\
     28 40420F00 100 39>Large { limit: 39 }";

// Puts a record behind what a capture holds.
fn put_record(rt: &impl Abort, file: &mut Vec<u8>, moment: u64, length: u32) {
    assert!(rt; moment < 4_294_967_296_000_000_000);
    file.extend_from_slice(&record_text(moment, length))
        .expect(rt, "memory");
    for _byte in 0..length {
        file.push(0xFF).expect(rt, "memory");
    }
}

// A capture of the first so many frames.
pub(crate) fn capture(rt: &impl Abort, alloc: Global, count: usize) -> Vec<u8> {
    let mut file = Vec::new(alloc);
    file.extend_from_slice(&header_text()).expect(rt, "memory");
    for (moment, length) in FRAMES.iter().take(count) {
        put_record(rt, &mut file, *moment, *length);
    }
    file
}

// Puts a byte in the place of another.
fn put_byte(rt: &impl Abort, file: &mut Vec<u8>, at: usize, byte: u8) {
    *file.get_mut(at).expect(rt, "a place in the file") = byte;
}

/// The number that a word is.
pub(crate) fn number(rt: &impl Abort, word: Option<&str>) -> u64 {
    let word = word.expect(rt, "a word");
    word.parse::<u64>().expect(rt, "a number")
}

// The capture of the first three with what the words of a change say.
pub(crate) fn changed(rt: &impl Abort, alloc: Global, words: &mut SplitWhitespace<'_>) -> Vec<u8> {
    let at = number(rt, words.next()) as usize;
    let four = bytes_of(rt, alloc, words.next().expect(rt, "four bytes"));
    let mut file = capture(rt, alloc, 3);
    for (offset, byte) in four.as_slice().iter().enumerate() {
        put_byte(rt, &mut file, at.saturating_add(offset), *byte);
    }
    file.truncate(number(rt, words.next()) as usize);
    file
}

// What is told of a file.
fn told_text(rt: &impl Abort, alloc: Global, told: Result<Scanned, ScanFault>) -> String {
    let text = match told {
        Ok(
            Scanned {
                bytes,
                records,
                first,
            },
        ) => format!(in alloc; "{bytes} {records} {first:?}"),
        Err(fault) => format!(in alloc; "{fault:?}"),
    };
    text.expect(rt, "memory")
}

// A shelf with this capture.
pub(crate) fn shelf_with(
    rt: &impl Abort,
    alloc: Global,
    file: &[u8],
    how: Disturbance,
) -> FaultyShelf {
    let mut shelf = FaultyShelf::new(alloc, how);
    shelf.put("in.pcap", file).expect(rt, "memory");
    shelf
}

// What a scan tells of the capture on a shelf.
fn shelf_text(rt: &impl Abort, alloc: Global, shelf: &mut FaultyShelf, limit: u64) -> String {
    told_text(rt, alloc, scan(alloc, shelf, "in.pcap", limit))
}

// What a scan tells of a file, where at most so many bytes are read at once.
fn scan_text(rt: &impl Abort, alloc: Global, file: &[u8], bytes: usize, limit: u64) -> String {
    let mut shelf = shelf_with(rt, alloc, file, Disturbance::Slow { bytes });
    shelf_text(rt, alloc, &mut shelf, limit)
}

// Asserts what a scan tells of the whole capture, where at most so many bytes are read at once.
fn judge_whole(rt: &impl Abort, alloc: Global, most: usize, wanted: &str) {
    let file = capture(rt, alloc, 4);
    let told = scan_text(rt, alloc, file.as_slice(), most, 1_000_000);
    same(rt, told.as_str(), wanted, "the whole capture");
}

#[test]
fn a_long_frame_is_read_in_pieces(rt: HostRuntime) {
    judge_whole(&rt, rt.alloc(), 500, "70149 4 Some(100000000000)");
    judge_whole(&rt, rt.alloc(), 65_536, "70149 4 Some(100000000000)");
}

// Asserts what is told of a changed capture of which at most so many bytes may be read, seven at
// once.
fn judge_limit(rt: &impl Abort, alloc: Global, row: &str) {
    let (change, wanted) = row.split_once('>').expect(rt, "what is told");
    let mut words = change.split_whitespace();
    let file = changed(rt, alloc, &mut words);
    let told = scan_text(rt, alloc, file.as_slice(), 7, number(rt, words.next()));
    same(rt, told.as_str(), wanted, row);
}

#[test]
fn a_scan_keeps_its_limit(rt: HostRuntime) {
    for row in LIMITED.lines() {
        judge_limit(&rt, rt.alloc(), row);
    }
}

#[test]
fn a_capture_may_be_missing(rt: HostRuntime) {
    let mut empty = FaultyShelf::new(rt.alloc(), Disturbance::Quiet);
    let told = shelf_text(&rt, rt.alloc(), &mut empty, 100);
    same(&rt, told.as_str(), "Missing", "a capture that is missing");
}

/// A time that is none.
const LATE: &str = "28 40420F00 100";

#[test]
fn a_read_may_fail(rt: HostRuntime) {
    let late = changed(&rt, rt.alloc(), &mut LATE.split_whitespace());
    let mut fails = shelf_with(
        &rt,
        rt.alloc(),
        late.as_slice(),
        Disturbance::Fails { at: 2 },
    );
    let told = shelf_text(&rt, rt.alloc(), &mut fails, 100);
    same(&rt, told.as_str(), "Read", "a read that fails");
}
