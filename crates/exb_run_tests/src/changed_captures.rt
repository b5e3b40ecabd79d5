//! Captures that change before they are read again.
use crate::compare::{holds, same_status};
use crate::hex::bytes_of;
use crate::runs::play;
use exb_test_shelf::{ChangingShelf, MemSink};
use std::alloc::Global;
use std::process::Abort;

/// One extender with one port, which has a capture.
const ONE: &str =
    "bridge = { ports = 1 }\nextender = [{ number = 1, on = \"b1\", ports = 1 }]\ncaptures = { \"x1.1\" = \"zeros.pcap\" }\n";

/// One frame of 60 bytes at 100 s as a classic capture, whose record begins at byte 24.
const CLASSIC: &str =
    "D4C3B2A1 02000400 8x00 00000400 01000000 64000000 00000000 3C000000 3C000000 60x00";

/// The same as pcapng: a section, an interface of Ethernet in microseconds, and at byte 48 the
/// packet.
const BLOCKS: &str =
    "0A0D0D0A 1C000000 4D3C2B1A 01000000 8xFF 1C000000 01000000 14000000 01000000 00000400 14000000 06000000 5C000000 00000000 00000000 00E1F505 3C000000 3C000000 60x00 5C000000";

/// What stands in the place of the classic one when it is read again, and the byte at which it
/// changed: one that ends sooner, one that goes on, one of another kind, one that begins sooner,
/// and none that is read.
const CLASSIC_CHANGED: &str =
    "D4C3B2A1 02000400 8x00 00000400 01000000 64000000 00000000 3C000000 3C000000 59x00>24\n\
     D4C3B2A1 02000400 8x00 00000400 01000000 64000000 00000000 3C000000 3C000000 61x00>100\n\
     D4C3B2A1 02000400 8x00 00000400 69000000 64000000 00000000 3C000000 3C000000 60x00>20\n\
     D4C3B2A1 02000400 8x00 00000400 01000000 63000000 00000000 3C000000 3C000000 60x00>24\n\
     100x00>0";

/// In the place of the other: one that ends sooner, one that goes on with a skipped block, one of
/// another kind, one without that interface, one whose packet's lengths differ, one that begins
/// sooner, and one without a packet.
const BLOCKS_CHANGED: &str =
    "0A0D0D0A 1C000000 4D3C2B1A 01000000 8xFF 1C000000 01000000 14000000 01000000 00000400 14000000 06000000 5C000000 00000000 00000000 00E1F505 3C000000 3C000000 60x00 5C0000>48\n\
     0A0D0D0A 1C000000 4D3C2B1A 01000000 8xFF 1C000000 01000000 14000000 01000000 00000400 14000000 06000000 5C000000 00000000 00000000 00E1F505 3C000000 3C000000 60x00 5C000000 05000000 10000000 00000000 10000000>140\n\
     0A0D0D0A 1C000000 4D3C2B1A 01000000 8xFF 1C000000 01000000 14000000 69000000 00000400 14000000 06000000 5C000000 00000000 00000000 00E1F505 3C000000 3C000000 60x00 5C000000>56\n\
     0A0D0D0A 1C000000 4D3C2B1A 01000000 8xFF 1C000000 01000000 14000000 01000000 00000400 14000000 06000000 5C000000 01000000 00000000 00E1F505 3C000000 3C000000 60x00 5C000000>56\n\
     0A0D0D0A 1C000000 4D3C2B1A 01000000 8xFF 1C000000 01000000 14000000 01000000 00000400 14000000 06000000 5C000000 00000000 00000000 00E1F505 3C000000 3C000000 60x00 5D000000>136\n\
     0A0D0D0A 1C000000 4D3C2B1A 01000000 8xFF 1C000000 01000000 14000000 01000000 00000400 14000000 06000000 5C000000 00000000 00000000 00E1F504 3C000000 3C000000 60x00 5C000000>48\n\
     0A0D0D0A 1C000000 4D3C2B1A 01000000 8xFF 1C000000 01000000 14000000 01000000 00000400 14000000>48";

// Puts a file on a shelf.
fn put_there(rt: &impl Abort, shelf: &mut ChangingShelf, name: &str, bytes: &[u8]) {
    shelf.put(name, bytes).expect(rt, "memory");
}

// A shelf with a topology and a capture, in the place of which another one stands when it is read
// again.
fn changing_shelf(rt: &impl Abort, alloc: Global, first: &str, again: &str) -> ChangingShelf {
    let again = bytes_of(rt, alloc, again);
    let mut shelf = ChangingShelf::new(alloc, "zeros.pcap", again.as_slice()).expect(rt, "memory");
    put_there(rt, &mut shelf, "t.toml", ONE.as_bytes());
    let first = bytes_of(rt, alloc, first);
    put_there(rt, &mut shelf, "zeros.pcap", first.as_slice());
    shelf
}

// A run of a capture that changes so ends with status 10 and that line.
fn expect_changed(rt: &impl Abort, alloc: Global, first: &str, again: &str, line: &str) {
    let mut shelf = changing_shelf(rt, alloc, first, again);
    let mut out = MemSink::new(alloc, &[]).expect(rt, "memory");
    let status = play(rt, alloc, "run t.toml", &mut shelf, &mut out);
    same_status(rt, status, 10, line);
    holds(rt, out.text() == line.as_bytes(), line);
    holds(rt, shelf.file("out-journal.txt").is_some(), "the journal");
}

// The same of a row of a table.
fn expect_row(rt: &impl Abort, alloc: Global, first: &str, row: &str) {
    let (again, at) = row.split_once('>').expect(rt, "a byte");
    let line = format!(in alloc; "exbr: capture x1.1: Changed at {at}\n").expect(rt, "memory");
    expect_changed(rt, alloc, first, again, line.as_str());
}

// The same of each row.
fn judge(rt: &impl Abort, alloc: Global, first: &str, rows: &str) {
    for row in rows.lines() {
        expect_row(rt, alloc, first, row);
    }
}

#[test]
fn a_capture_that_changes_ends_its_run(rt: HostRuntime) {
    judge(&rt, rt.alloc(), CLASSIC, CLASSIC_CHANGED);
    judge(&rt, rt.alloc(), BLOCKS, BLOCKS_CHANGED);
}
