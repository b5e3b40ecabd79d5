//! Texts: how many lines are read, and the first fault.
use crate::compare::{CUTS, same};
use exb_audit_files::{LinesFault, read_journal, read_trace};
use exb_test_shelf::{Disturbance, FaultyShelf};
use std::alloc::Global;
use std::process::Abort;

/// Which text is read.
#[derive(Clone, Copy)]
enum TextKind {
    Journal,
    Trace,
}

/// A row a line: which text is read, the text with `/` for the end of each line, and behind `>` how
/// many lines are read of it, or its fault.
const ROWS: &str = "journal >0\n\
     journal settled/>1\n\
     journal settled>Bad 1\n\
     journal />Bad 1\n\
     journal x>Bad 1\n\
     journal x/settled/>Bad 1\n\
     journal tick 5/settled/>2\n\
     journal tick 5/settled>Bad 2\n\
     journal tick 5/settle/settled/>Bad 2\n\
     journal tick 5//settled/>Bad 2\n\
     journal tick 5/settled//>Bad 3\n\
     journal tick 5/settled/x>Bad 3\n\
     journal settle/settle>Bad 1\n\
     journal settled\r/>Bad 1\n\
     journal tick 05/>Bad 1\n\
     journal tick 99999999999999999999999/>1\n\
     journal up x1.1/noup x64.64 groups 2 1/>2\n\
     journal up x65.1/>Bad 1\n\
     journal relay b1 1/ignore x1.64 2/>2\n\
     journal relay b1 1 />Bad 1\n\
     journal commit 1/refuse 2 channels 3 2/>2\n\
     journal = settled/>Bad 1\n\
     trace >0\n\
     trace beat/>1\n\
     trace beat>Bad 1\n\
     trace />Bad 1\n\
     trace beat/beat/beat>Bad 3\n\
     trace beat/out x1 up 00ff/in b 64 00ff/>3\n\
     trace beat/out x1 up 00fF/in b 64 00ff/>Bad 2\n\
     trace in b 1 />1\n\
     trace in b 1/>Bad 1\n\
     trace in b 0 00/>Bad 1\n\
     trace in b up 00/>Bad 1\n\
     trace in x1 1 000/>Bad 1\n\
     trace = settled/= tick 1/>2\n\
     trace = settle/>Bad 1\n\
     trace =settled/>Bad 1\n\
     trace settled/>Bad 1";

// What is answered, by how many lines were read.
fn answer_text(rt: &impl Abort, alloc: Global, answer: Result<usize, LinesFault>) -> String {
    let text = match answer {
        Ok(count) => format!(in alloc; "{count}"),
        Err(LinesFault::Bad { number }) => format!(in alloc; "Bad {number}"),
        Err(fault) => format!(in alloc; "{fault:?}"),
    };
    text.expect(rt, "memory")
}

// How many lines are read of the text on a shelf.
fn count_lines(
    alloc: Global,
    shelf: &mut FaultyShelf,
    kind: TextKind,
    limit: u32,
) -> Result<usize, LinesFault> {
    match kind {
        TextKind::Journal => match read_journal(alloc, shelf, "text", limit) {
            Ok(lines) => Ok(lines.len()),
            Err(fault) => Err(fault),
        },
        TextKind::Trace => match read_trace(alloc, shelf, "text", limit) {
            Ok(lines) => Ok(lines.len()),
            Err(fault) => Err(fault),
        },
    }
}

// What is answered of a text.
fn lines_text(
    rt: &impl Abort,
    alloc: Global,
    kind: TextKind,
    text: &[u8],
    limit: u32,
    how: Disturbance,
) -> String {
    let mut shelf = FaultyShelf::new(alloc, how);
    shelf.put("text", text).expect(rt, "memory");
    answer_text(rt, alloc, count_lines(alloc, &mut shelf, kind, limit))
}

// What stands before a mark, and what behind it.
fn apart<'a>(rt: &impl Abort, text: &'a str, mark: char) -> (&'a str, &'a str) {
    text.split_once(mark).expect(rt, "a part of a row")
}

// A text in which `/` stands for the end of each line.
fn text_of(rt: &impl Abort, alloc: Global, told: &str) -> Vec<u8> {
    let mut text = Vec::new(alloc);
    for byte in told.as_bytes() {
        let byte = if *byte == b'/' { b'\n' } else { *byte };
        text.push(byte).expect(rt, "memory");
    }
    text
}

// The kind of a word.
fn kind_of(word: &str) -> TextKind {
    match word {
        "journal" => TextKind::Journal,
        _ => TextKind::Trace,
    }
}

// Asserts what is answered of a text, however much is read at once.
fn judge_text(
    rt: &impl Abort,
    alloc: Global,
    kind: TextKind,
    text: &[u8],
    limit: u32,
    wanted: &str,
) {
    for bytes in &CUTS {
        let how = Disturbance::Slow { bytes: *bytes };
        let given = lines_text(rt, alloc, kind, text, limit, how);
        same(rt, given.as_str(), wanted, "a text", *bytes);
    }
}

// The same of a row.
fn judge_row(rt: &impl Abort, alloc: Global, row: &str) {
    let (given, wanted) = apart(rt, row, '>');
    let (kind, told) = apart(rt, given, ' ');
    let text = text_of(rt, alloc, told);
    judge_text(rt, alloc, kind_of(kind), text.as_slice(), 1_000, wanted);
}

#[test]
fn lines_are_read_or_the_first_bad_one_is_told(rt: HostRuntime) {
    for row in ROWS.lines() {
        judge_row(&rt, rt.alloc(), row);
    }
}

/// How many bytes may be read, a trace, and what is answered.
const LIMITED: &str = "0 >0\n\
     0 x>Large\n\
     5 beat/>1\n\
     4 beat/>Large\n\
     7 x/beat/>Bad 1\n\
     6 x/beat/>Large\n\
     8 beat/bea>Bad 2\n\
     7 beat/bea>Large";

// Asserts it of a row.
fn judge_limit(rt: &impl Abort, alloc: Global, row: &str) {
    let (given, wanted) = apart(rt, row, '>');
    let (limit, told) = apart(rt, given, ' ');
    let limit = limit.parse::<u32>().expect(rt, "a limit");
    let text = text_of(rt, alloc, told);
    judge_text(rt, alloc, TextKind::Trace, text.as_slice(), limit, wanted);
}

#[test]
fn a_text_that_is_too_large_is_that_before_all(rt: HostRuntime) {
    for row in LIMITED.lines() {
        judge_limit(&rt, rt.alloc(), row);
    }
}

// A trace of two lines of so many digits each.
fn long_trace(rt: &impl Abort, alloc: Global, digits: u32) -> Vec<u8> {
    let mut text = Vec::new(alloc);
    for _line in 0..2u32 {
        text.extend_from_slice(b"in x1 up ").expect(rt, "memory");
        for _digit in 0..digits {
            text.push(b'0').expect(rt, "memory");
        }
        text.push(b'\n').expect(rt, "memory");
    }
    text
}

#[test]
fn a_line_may_be_longer_than_a_piece(rt: HostRuntime) {
    for (digits, wanted) in &[(150_000u32, "2"), (150_001u32, "Bad 1")] {
        let text = long_trace(&rt, rt.alloc(), *digits);
        let given = lines_text(
            &rt,
            rt.alloc(),
            TextKind::Trace,
            text.as_slice(),
            1_000_000,
            Disturbance::Quiet,
        );
        same(
            &rt,
            given.as_str(),
            wanted,
            "two long lines",
            *digits as usize,
        );
    }
}

#[test]
fn a_text_may_be_missing(rt: HostRuntime) {
    for kind in &[TextKind::Journal, TextKind::Trace] {
        let mut shelf = FaultyShelf::new(rt.alloc(), Disturbance::Quiet);
        let answer = count_lines(rt.alloc(), &mut shelf, *kind, 100);
        let given = answer_text(&rt, rt.alloc(), answer);
        same(&rt, given.as_str(), "Missing", "no text", 0);
    }
}

#[test]
fn each_call_may_fail(rt: HostRuntime) {
    for at in 1..=3usize {
        let fails = Disturbance::Fails { at };
        let given = lines_text(&rt, rt.alloc(), TextKind::Trace, b"x\nbeat\n", 100, fails);
        same(&rt, given.as_str(), "Read", "a read that fails", at);
        let wants = Disturbance::WantsMemory { at };
        let given = lines_text(&rt, rt.alloc(), TextKind::Trace, b"x\nbeat\n", 100, wants);
        same(&rt, given.as_str(), "Memory", "want of memory", at);
    }
}
