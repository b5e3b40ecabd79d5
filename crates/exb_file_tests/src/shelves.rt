//! Shelves and sinks in memory.
use crate::compare::holds;
use exb_shelf::{PIECE, ReadFault, Shelf, ShelfFault, print_text, read_file, write_text};
use exb_test_shelf::{MemShelf, MemSink};
use std::alloc::Global;
use std::process::Abort;

fn sevens(rt: &impl Abort, alloc: Global, size: usize) -> Vec<u8> {
    vec![in alloc; 7u8; size].expect(rt, "memory")
}

// A shelf with this file, whose listed calls fail.
fn shelf_with(
    rt: &impl Abort,
    alloc: Global,
    failing: &[u64],
    name: &str,
    text: &[u8],
) -> MemShelf {
    let mut shelf = MemShelf::new(alloc, failing).expect(rt, "memory");
    shelf.put(name, text).expect(rt, "memory");
    shelf
}

// Asserts what a file holds.
fn judge_file(rt: &impl Abort, shelf: &MemShelf, name: &str, text: &[u8]) {
    holds(rt, shelf.file(name) == Some(text), name);
}

// Asserts that a file isn't read within a limit, and why.
fn judge_fault(
    rt: &impl Abort,
    alloc: Global,
    shelf: &mut MemShelf,
    name: &str,
    limit: usize,
    wanted: ReadFault,
) {
    let fault = read_file(alloc, shelf, name, limit).err();
    holds(rt, fault == Some(wanted), name);
}

#[test]
fn a_whole_file_is_read_up_to_a_limit(rt: HostRuntime) {
    let text = sevens(&rt, rt.alloc(), 70_000);
    let mut shelf = shelf_with(&rt, rt.alloc(), &[], "there", text.as_slice());
    let read = read_file(rt.alloc(), &mut shelf, "there", 70_000).expect(&rt, "no fault");
    holds(&rt, read.as_slice() == text.as_slice(), "what is read");
    judge_fault(
        &rt,
        rt.alloc(),
        &mut shelf,
        "there",
        69_999,
        ReadFault::Large,
    );
}

#[test]
fn a_file_may_be_missing(rt: HostRuntime) {
    let mut shelf = shelf_with(&rt, rt.alloc(), &[], "there", b"text");
    judge_fault(
        &rt,
        rt.alloc(),
        &mut shelf,
        "not there",
        70_000,
        ReadFault::Missing,
    );
    holds(&rt, shelf.file("not there").is_none(), "no file is made");
}

#[test]
fn a_whole_text_is_written(rt: HostRuntime) {
    let text = sevens(&rt, rt.alloc(), 70_000);
    let mut shelf = shelf_with(&rt, rt.alloc(), &[], "out", b"old");
    let id = shelf.create("out").expect(&rt, "a file");
    write_text(&mut shelf, id, text.as_slice()).expect(&rt, "no fault");
    judge_file(&rt, &shelf, "out", text.as_slice());
}

// The calls: create, open, read, write of the first piece, write of the second.
#[test]
fn exactly_the_listed_calls_fail(rt: HostRuntime) {
    let text = sevens(&rt, rt.alloc(), 140_000);
    let mut shelf = shelf_with(&rt, rt.alloc(), &[5, 3], "in", b"alpha");
    let writing = shelf.create("out").expect(&rt, "a file");
    let reading = shelf.open("in").expect(&rt, "a file");
    let mut into = [0; 8];
    let failed = shelf.read(reading, &mut into) == Err(ShelfFault::Failed);
    holds(&rt, failed, "the third call");
    let failed = write_text(&mut shelf, writing, text.as_slice()) == Err(ShelfFault::Failed);
    holds(&rt, failed, "the fifth call");
    judge_file(
        &rt,
        &shelf,
        "out",
        sevens(&rt, rt.alloc(), 2 * PIECE).as_slice(),
    );
    holds(
        &rt,
        shelf.read(reading, &mut into) == Ok(5),
        "the next call",
    );
    holds(&rt, into.starts_with(b"alpha"), "what is read");
    holds(&rt, shelf.read(reading, &mut into) == Ok(0), "the end");
}

#[test]
fn a_sink_keeps_what_was_printed(rt: HostRuntime) {
    let mut out = MemSink::new(rt.alloc(), &[2]).expect(&rt, "memory");
    print_text(&mut out, b"one\n").expect(&rt, "no fault");
    let failed = print_text(&mut out, b"two\n") == Err(ShelfFault::Failed);
    holds(&rt, failed, "the second call");
    print_text(&mut out, b"three\n").expect(&rt, "no fault");
    holds(
        &rt,
        out.text() == b"one\nthree\n".as_slice(),
        "what was printed",
    );
}
