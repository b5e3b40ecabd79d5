//! Files of frames: whose frames are read, and the first fault.
use crate::compare::{CUTS, same};
use exb_audit::PortFrames;
use exb_audit_files::{FramesFault, Grammar, PortFile, read_frames};
use exb_capture::{FormatFault, header_text, record_text};
use exb_model::port::PortId;
use exb_model::text::Text;
use exb_test_shelf::{Disturbance, FaultyShelf};
use std::alloc::Global;
use std::process::Abort;

/// A row a line: the grammar, the limit, files by their letters, and behind `>` what is answered:
/// by port the lengths of its frames, or the fault.
///
/// `a` is a classic capture of 100 bytes with a frame of 60, `b` one of 61 bytes with frames of 0
/// and 5, `c` is `a` without its last byte, `h` a header of 24 bytes, `n` pcapng of 28 bytes
/// without a frame, `t` the first three bytes of that, `z` has no bytes, and `-` is not there.
const ROWS: &str = "either 0 >\n\
     classic 0 >\n\
     either 100 a>0: 60;\n\
     either 99 a>Large\n\
     classic 100 a>0: 60;\n\
     classic 99 a>Large\n\
     either 185 ahb>0: 60;1:;2: 0 5;\n\
     either 184 ahb>Large\n\
     classic 185 ahb>0: 60;1:;2: 0 5;\n\
     classic 184 ahb>Large\n\
     either 100 a->Missing f1\n\
     either 1000 -c>Missing f0\n\
     classic 24 h->Missing f1\n\
     either 1000 cb->0 Cut 24\n\
     either 199 ac->1 Cut 24\n\
     either 198 ac->Large\n\
     classic 199 ac->1 Cut 24\n\
     classic 198 ac->Large\n\
     either 9 z>0 NotPcap 0\n\
     classic 9 z>0 NotPcap 0\n\
     either 100 az>1 NotPcap 0\n\
     classic 100 az>1 NotPcap 0\n\
     either 100 ah>Large\n\
     classic 100 ah>Large\n\
     either 28 n>0:;\n\
     either 27 n>Large\n\
     classic 28 n>0 NotPcap 0\n\
     classic 1 n>0 NotPcap 0\n\
     classic 0 n>Large\n\
     classic 1000 an->1 NotPcap 0\n\
     either 3 t>0 NotPcap 0\n\
     either 2 t>Large\n\
     classic 2 t>0 NotPcap 0\n\
     classic 0 t>Large";

/// A section of pcapng without a block.
const SECTION: [u8; 28] = [
    0x0A, 0x0D, 0x0D, 0x0A, 28, 0, 0, 0, 0x4D, 0x3C, 0x2B, 0x1A, 1, 0, 0, 0, //
    0xFF, 0xFF, 0xFF, 0xFF, 0xFF, 0xFF, 0xFF, 0xFF, 28, 0, 0, 0,
];

// A classic capture with frames of these lengths.
fn capture(rt: &impl Abort, alloc: Global, lengths: &[u32]) -> Vec<u8> {
    let mut file = Vec::from_slice(alloc, &header_text()).expect(rt, "memory");
    for length in lengths {
        file.extend_from_slice(&record_text(1_000_000_000, *length))
            .expect(rt, "memory");
        let whole = file.len().saturating_add(*length as usize);
        file.resize(whole, 0xFF).expect(rt, "memory");
    }
    file
}

// What the file of this letter holds; None where it is not there.
fn content(rt: &impl Abort, alloc: Global, letter: u8) -> Option<Vec<u8>> {
    let (mut file, length) = match letter {
        b'a' => (capture(rt, alloc, &[60]), 100),
        b'b' => (capture(rt, alloc, &[0, 5]), 61),
        b'c' => (capture(rt, alloc, &[60]), 99),
        b'h' => (capture(rt, alloc, &[]), 24),
        b'n' => (Vec::from_slice(alloc, &SECTION).expect(rt, "memory"), 28),
        b't' => (Vec::from_slice(alloc, &SECTION).expect(rt, "memory"), 3),
        b'z' => (Vec::new(alloc), 0),
        _ => return None,
    };
    file.truncate(length);
    Some(file)
}

// The file of this number.
fn port_file(rt: &impl Abort, alloc: Global, number: u16) -> PortFile {
    let name = format!(in alloc; "f{number}").expect(rt, "memory");
    PortFile {
        port: PortId::new(number).expect(rt, "a port"),
        name: Text::from_str(alloc, name.as_str()).expect(rt, "memory"),
    }
}

// The files of these letters.
fn port_files(rt: &impl Abort, alloc: Global, letters: &str) -> Vec<PortFile> {
    let mut files = Vec::new(alloc);
    let mut number = 0u16;
    for _letter in letters.as_bytes() {
        files
            .push(port_file(rt, alloc, number))
            .expect(rt, "memory");
        number = number.saturating_add(1);
    }
    files
}

// A shelf with the files of these letters.
fn shelf_with(rt: &impl Abort, alloc: Global, letters: &str, how: Disturbance) -> FaultyShelf {
    let mut shelf = FaultyShelf::new(alloc, how);
    let files = port_files(rt, alloc, letters);
    for (file, letter) in files.iter().zip(letters.as_bytes()) {
        if let Some(bytes) = content(rt, alloc, *letter) {
            shelf
                .put(file.name.as_str(), bytes.as_slice())
                .expect(rt, "memory");
        }
    }
    shelf
}

// Puts a number between two texts.
fn put_number(rt: &impl Abort, text: &mut String, before: &str, number: usize, behind: &str) {
    write!(text, "{before}{number}{behind}").expect(rt, "memory");
}

// The lengths of a port's frames.
fn put_port(rt: &impl Abort, text: &mut String, one: &PortFrames) {
    put_number(rt, text, "", one.port.number() as usize, ":");
    for frame in &one.frames {
        put_number(rt, text, " ", frame.as_slice().len(), "");
    }
    text.push_str(";").expect(rt, "memory");
}

// The text with another behind it.
fn joined(rt: &impl Abort, alloc: Global, text: &str, more: &str) -> String {
    let mut whole = String::from_str(alloc, text).expect(rt, "memory");
    whole.push_str(more).expect(rt, "memory");
    whole
}

// What a fault of a capture is called, behind the number of its port.
fn broken_text(rt: &impl Abort, alloc: Global, port: PortId, fault: &FormatFault) -> String {
    let number = port.number();
    let flaw = fault.flaw;
    let at = fault.at;
    format!(in alloc; "{number} {flaw:?} {at}").expect(rt, "memory")
}

// What a fault is called.
fn fault_text(rt: &impl Abort, alloc: Global, fault: &FramesFault) -> String {
    match fault {
        FramesFault::Memory => joined(rt, alloc, "Memory", ""),
        FramesFault::Read => joined(rt, alloc, "Read", ""),
        FramesFault::Large => joined(rt, alloc, "Large", ""),
        FramesFault::Missing { name } => joined(rt, alloc, "Missing ", name.as_str()),
        FramesFault::Broken { port, fault } => broken_text(rt, alloc, *port, fault),
    }
}

// What is answered.
fn answer_text(
    rt: &impl Abort,
    alloc: Global,
    answer: &Result<Vec<PortFrames>, FramesFault>,
) -> String {
    match answer {
        Ok(all) => {
            let mut text = String::new(alloc);
            for one in all {
                put_port(rt, &mut text, one);
            }
            text
        }
        Err(fault) => fault_text(rt, alloc, fault),
    }
}

// What is answered of the files of these letters.
fn frames_text(
    rt: &impl Abort,
    alloc: Global,
    letters: &str,
    grammar: Grammar,
    limit: u32,
    how: Disturbance,
) -> String {
    let mut shelf = shelf_with(rt, alloc, letters, how);
    let files = port_files(rt, alloc, letters);
    let answer = read_frames(alloc, &mut shelf, files.as_slice(), grammar, limit);
    answer_text(rt, alloc, &answer)
}

// What stands before a mark, and what behind it.
fn apart<'a>(rt: &impl Abort, text: &'a str, mark: char) -> (&'a str, &'a str) {
    text.split_once(mark).expect(rt, "a part of a row")
}

// The grammar of a word.
fn grammar_of(word: &str) -> Grammar {
    match word {
        "either" => Grammar::Either,
        _ => Grammar::Classic,
    }
}

// Asserts what is answered of the files of a row, however much is read at once.
fn judge_row(rt: &impl Abort, alloc: Global, row: &str) {
    let (given, wanted) = apart(rt, row, '>');
    let (grammar, given) = apart(rt, given, ' ');
    let (limit, letters) = apart(rt, given, ' ');
    let grammar = grammar_of(grammar);
    let limit = limit.parse::<u32>().expect(rt, "a limit");
    for bytes in &CUTS {
        let how = Disturbance::Slow { bytes: *bytes };
        let text = frames_text(rt, alloc, letters, grammar, limit, how);
        same(rt, text.as_str(), wanted, row, *bytes);
    }
}

#[test]
fn frames_are_read_or_the_first_fault_is_told(rt: HostRuntime) {
    for row in ROWS.lines() {
        judge_row(&rt, rt.alloc(), row);
    }
}

// Asserts what is answered of two files, where such a call is disturbed so.
fn expect_both(rt: &impl Abort, alloc: Global, grammar: Grammar, how: Disturbance, wanted: &str) {
    let text = frames_text(rt, alloc, "ab", grammar, 1_000, how);
    same(rt, text.as_str(), wanted, "two files", 1_000);
}

// Asserts it where each of so many calls fails, or wants memory, and where the next one would.
fn judge_calls(rt: &impl Abort, alloc: Global, grammar: Grammar, calls: usize) {
    for at in 1..=calls {
        expect_both(rt, alloc, grammar, Disturbance::Fails { at }, "Read");
        expect_both(
            rt,
            alloc,
            grammar,
            Disturbance::WantsMemory { at },
            "Memory",
        );
    }
    let at = calls.saturating_add(1);
    expect_both(
        rt,
        alloc,
        grammar,
        Disturbance::Fails { at },
        "0: 60;1: 0 5;",
    );
}

// Each file takes an open and two reads, and an open and a read more where its first byte is looked
// at.
#[test]
fn each_call_may_fail(rt: HostRuntime) {
    judge_calls(&rt, rt.alloc(), Grammar::Either, 6);
    judge_calls(&rt, rt.alloc(), Grammar::Classic, 10);
}
