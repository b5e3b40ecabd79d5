//! Captures that are read again, each on a shelf that reads at most so many bytes at once, and of
//! which another file was told.
ghost use Rattle.exb_test_shelf.specs.DisturbedFiles.{ids_of};
ghost use Rattle.exb_capture.specs.CaptureFiles.{IsAt};
ghost use Rattle.exb_capture.specs.Replays.{IsKept};

use crate::compare::{same, same_at};
use crate::scans::{CUTS, capture, changed, number, shelf_with};
use crate::test_rows::bytes_of;
use exb_capture::{Replay, ReplayFault, Scanned, scan};
use exb_model::bytes::Bytes;
use exb_test_shelf::{Disturbance, FaultyShelf};
use std::alloc::Global;
use std::process::Abort;
use std::str::SplitWhitespace;

/// The broadcast as pcapng: 140 bytes.
const ROW: &str =
    "0A0D0D0A 1C000000 4D3C2B1A 01000000 8xFF 1C000000 01000000 14000000 01000000 00000400 14000000 06000000 5C000000 00000000 00000000 00E1F505 3C000000 3C000000 6xFF 020000000001 0800 46x00 5C000000";

const TIME: Option<u64> = Some(100_000_000_000);

const LATER: Option<u64> = Some(100_000_000_001);

/// What was told: so many bytes, and the time of the first record, `-` for none; how the capture is
/// changed when it is read again, as in `scans`; and what comes of it.
const AGAIN: &str = "# The same file.\n\
     133 100000000000 0 D4C3B2A1 133 >100000000000 60; 100000000000 0; 101000001000 1; end\n\
     116 100000000000 0 D4C3B2A1 116 >100000000000 60; 100000000000 0; end\n\
     24 - 0 D4C3B2A1 24 >end\n\
     # It ends in a record, and between two.\n\
     100 100000000000 0 D4C3B2A1 99 >Changed { at: 24 }\n\
     133 100000000000 0 D4C3B2A1 132 >100000000000 60; 100000000000 0; Changed { at: 116 }\n\
     133 100000000000 0 D4C3B2A1 116 >100000000000 60; 100000000000 0; Changed { at: 116 }\n\
     133 100000000000 0 D4C3B2A1 100 >100000000000 60; Changed { at: 100 }\n\
     133 100000000000 0 D4C3B2A1 24 >Changed { at: 24 }\n\
     133 100000000000 0 D4C3B2A1 23 >Changed { at: 0 }\n\
     133 100000000000 0 D4C3B2A1 0 >Changed { at: 0 }\n\
     # It goes on.\n\
     116 100000000000 0 D4C3B2A1 133 >100000000000 60; 100000000000 0; Changed { at: 116 }\n\
     100 100000000000 0 D4C3B2A1 101 >100000000000 60; Changed { at: 100 }\n\
     24 - 0 D4C3B2A1 100 >Changed { at: 24 }\n\
     # It breaks the grammar.\n\
     133 100000000000 0 0A0D0D0A 133 >Changed { at: 8 }\n\
     133 100000000000 4 02000300 133 >Changed { at: 4 }\n\
     133 100000000000 20 69000000 133 >Changed { at: 20 }\n\
     133 100000000000 28 40420F00 133 >Changed { at: 28 }\n\
     133 100000000000 108 FFFFFFFF 133 >100000000000 60; Changed { at: 108 }\n\
     # It breaks it with the first byte behind what was told, and only later.\n\
     39 - 28 40420F00 100 >Changed { at: 28 }\n\
     38 - 28 40420F00 100 >Changed { at: 38 }\n\
     # Its first record comes early, with its last byte.\n\
     133 100000000001 0 D4C3B2A1 133 >Changed { at: 24 }\n\
     133 - 0 D4C3B2A1 133 >Changed { at: 24 }\n\
     100 100000000001 0 D4C3B2A1 100 >Changed { at: 24 }\n\
     133 100000000001 0 D4C3B2A1 100 >Changed { at: 100 }\n\
     133 100000000001 0 D4C3B2A1 101 >Changed { at: 24 }\n\
     99 100000000001 0 D4C3B2A1 133 >Changed { at: 99 }\n\
     98 100000000001 0 D4C3B2A1 133 >Changed { at: 98 }\n\
     # It comes later, and that is no other file.\n\
     100 99999999999 0 D4C3B2A1 100 >100000000000 60; end";

// Puts a text behind another.
fn put(rt: &impl Abort, text: &mut String, more: &str) {
    text.push_str(more).expect(rt, "memory");
}

// Puts a record behind a text.
fn put_record(rt: &impl Abort, alloc: Global, text: &mut String, moment: u64, bytes: &Bytes) {
    let length = bytes.as_slice().len();
    let one = format!(in alloc; "{moment} {length}; ").expect(rt, "memory");
    put(rt, text, one.as_str());
}

// Puts a fault behind a text.
fn put_fault(rt: &impl Abort, alloc: Global, text: &mut String, fault: ReplayFault) {
    let told = format!(in alloc; "{fault:?}").expect(rt, "memory");
    put(rt, text, told.as_str());
}

// Puts behind a text what comes of a capture that was opened again.
fn play_on(
    rt: &impl Abort,
    alloc: Global,
    shelf: &mut FaultyShelf,
    replay: &mut Replay,
    text: &mut String,
)
    requires at { IsAt (ids_of shelf.old replay.old.file.id) replay.old.file.got }
    requires kept { IsKept replay.old }
{
    'records: for _record in 0..9u32 {
        match replay.ahead(shelf) {
            Ok(Some(moment)) => {
                let bytes = replay.take(moment, Vec::new(alloc)).expect(rt, "memory");
                put_record(rt, alloc, text, moment, &bytes);
            }
            Ok(None) => return put(rt, text, "end"),
            Err(fault) => return put_fault(rt, alloc, text, fault),
        }
    }
}

// What comes of the capture on a shelf, of which this was told. All of it may be read at once.
fn replay_text(
    rt: &impl Abort,
    alloc: Global,
    shelf: &mut FaultyShelf,
    scanned: Scanned,
) -> String {
    assert!(rt; scanned.bytes < 1_000_000);
    let mut text = String::new(alloc);
    match Replay::open(alloc, shelf, "in.pcap", scanned) {
        Ok(mut replay) => play_on(rt, alloc, shelf, &mut replay, &mut text),
        Err(fault) => put_fault(rt, alloc, &mut text, fault),
    }
    text
}

// What comes of a capture, of which this was told, on a shelf that is disturbed.
fn played(
    rt: &impl Abort,
    alloc: Global,
    file: &[u8],
    how: Disturbance,
    scanned: Scanned,
) -> String {
    let mut shelf = shelf_with(rt, alloc, file, how);
    replay_text(rt, alloc, &mut shelf, scanned)
}

// What a scan tells of a good capture.
fn scanned_of(rt: &impl Abort, alloc: Global, file: &[u8]) -> Scanned {
    let mut shelf = shelf_with(rt, alloc, file, Disturbance::Quiet);
    scan(alloc, &mut shelf, "in.pcap", 1_000_000).expect(rt, "no fault")
}

// Asserts what comes of a capture that was checked, where at most so many bytes are read at once.
fn judge_checked(rt: &impl Abort, alloc: Global, bytes: usize, wanted: &str) {
    let file = capture(rt, alloc, 4);
    let scanned = scanned_of(rt, alloc, file.as_slice());
    let text = played(
        rt,
        alloc,
        file.as_slice(),
        Disturbance::Slow { bytes },
        scanned,
    );
    same(rt, text.as_str(), wanted, "a capture that was checked");
}

#[test]
fn a_capture_that_was_checked_is_played_as_it_stands(rt: HostRuntime) {
    let wanted = "100000000000 60; 100000000000 0; 101000001000 1; 101000002000 70000; end";
    for most in &[1, 500, 65_536] {
        judge_checked(&rt, rt.alloc(), *most, wanted);
    }
}

// What was told of a capture, by the words of a row.
fn told_of(rt: &impl Abort, words: &mut SplitWhitespace<'_>) -> Scanned {
    let bytes = number(rt, words.next());
    let first = words.next().expect(rt, "a time, or none");
    Scanned {
        bytes,
        records: 0,
        first: first.parse::<u64>().ok(),
    }
}

// Asserts that of a file of which this was told comes what a row says, however much is read at
// once.
fn judge_file(rt: &impl Abort, alloc: Global, scanned: Scanned, file: &[u8], row: &str) {
    let (_told, wanted) = row.split_once('>').expect(rt, "what comes of it");
    for most in &CUTS {
        let text = played(rt, alloc, file, Disturbance::Slow { bytes: *most }, scanned);
        same_at(rt, text.as_str(), wanted, row, *most);
    }
}

// The same of a row of changes.
fn judge_again(rt: &impl Abort, alloc: Global, row: &str) {
    if row.starts_with("#") {
        return;
    }
    let mut words = row.split_whitespace();
    let scanned = told_of(rt, &mut words);
    let file = changed(rt, alloc, &mut words);
    judge_file(rt, alloc, scanned, file.as_slice(), row);
}

#[test]
fn a_change_shows_at_its_byte(rt: HostRuntime) {
    for row in AGAIN.lines() {
        judge_again(&rt, rt.alloc(), row);
    }
}

/// What was told of a capture of pcapng, how many bytes of it there are when it is read again, and
/// what comes of it.
const BLOCKS_AGAIN: &str = "156 100000000000 156 >100000000000 60; end\n\
     140 100000000000 140 >100000000000 60; end\n\
     140 100000000000 139 >Changed { at: 48 }\n\
     156 100000000000 140 >100000000000 60; Changed { at: 140 }\n\
     140 100000000000 156 >100000000000 60; Changed { at: 140 }\n\
     # Its first record comes early: where its block begins, but where the file ends with it or is told to end before it does.\n\
     140 100000000001 140 >Changed { at: 48 }\n\
     139 100000000001 140 >Changed { at: 139 }\n\
     156 100000000001 140 >Changed { at: 140 }\n\
     172 100000000001 156 >Changed { at: 48 }\n\
     156 - 156 >Changed { at: 48 }";

// The front of the row's file, behind which stands a block that is skipped.
fn front_of(rt: &impl Abort, alloc: Global, size: u64) -> Vec<u8> {
    let text = format!(in alloc; "{ROW} 05000000 10000000 00000000 10000000").expect(rt, "memory");
    let mut file = bytes_of(rt, alloc, text.as_str());
    file.truncate(size as usize);
    file
}

// Asserts what comes of such a front, by a row.
fn judge_front(rt: &impl Abort, alloc: Global, row: &str) {
    if row.starts_with("#") {
        return;
    }
    let mut words = row.split_whitespace();
    let scanned = told_of(rt, &mut words);
    let file = front_of(rt, alloc, number(rt, words.next()));
    judge_file(rt, alloc, scanned, file.as_slice(), row);
}

#[test]
fn a_change_of_pcapng_shows_at_its_byte(rt: HostRuntime) {
    for row in BLOCKS_AGAIN.lines() {
        judge_front(&rt, rt.alloc(), row);
    }
}

/// What is told of the broadcast alone.
const BROADCAST: Scanned = Scanned {
    bytes: 100,
    records: 1,
    first: TIME,
};

/// The same, but that its record came later.
const LATE: Scanned = Scanned {
    bytes: 100,
    records: 1,
    first: LATER,
};

#[test]
fn a_capture_may_be_gone(rt: HostRuntime) {
    let mut gone = FaultyShelf::new(rt.alloc(), Disturbance::Quiet);
    let text = replay_text(&rt, rt.alloc(), &mut gone, BROADCAST);
    same(
        &rt,
        text.as_str(),
        "Changed { at: 0 }",
        "a capture that is gone",
    );
}

// Asserts what comes of the broadcast's capture, of which this was told, where that call fails.
fn judge_failing(rt: &impl Abort, alloc: Global, scanned: Scanned, at: usize, wanted: &str) {
    let file = capture(rt, alloc, 1);
    let text = played(
        rt,
        alloc,
        file.as_slice(),
        Disturbance::Fails { at },
        scanned,
    );
    same(rt, text.as_str(), wanted, "a call that fails");
}

#[test]
fn a_read_may_fail(rt: HostRuntime) {
    judge_failing(&rt, rt.alloc(), BROADCAST, 1, "Read");
    judge_failing(&rt, rt.alloc(), BROADCAST, 2, "Read");
    judge_failing(&rt, rt.alloc(), BROADCAST, 3, "100000000000 60; Read");
}

#[test]
fn a_read_may_fail_behind_an_early_record(rt: HostRuntime) {
    judge_failing(&rt, rt.alloc(), LATE, 3, "Read");
    judge_failing(&rt, rt.alloc(), LATE, 4, "Changed { at: 24 }");
}
