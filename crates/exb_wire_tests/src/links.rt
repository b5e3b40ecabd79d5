//! Links as a caller sees them. Each word has a number; control words begin with their destination.
use crate::row_words::{expect, number, row_of};
use exb_link::{BoxedFrame, Link, LinkFrame};
use exb_model::bytes::Bytes;
use std::alloc::Global;
use std::process::Abort;

// A word whose destination ends with a byte, and which ends with its number.
fn word(rt: &impl Abort, alloc: Global, destination: u8, number: u8) -> BoxedFrame {
    let bytes = [0x01, 0x80, 0xC2, 0x00, 0x00, destination, number];
    let word = LinkFrame {
        bytes: Bytes::from_slice(alloc, &bytes).expect(rt, "memory"),
        stamp: None,
    };
    BoxedFrame::new(alloc, word).expect(rt, "memory")
}

// The number of a word, or 0.
fn number_of(word: Option<&BoxedFrame>) -> u8 {
    match word {
        Some(word) => word.bytes().last().copied().unwrap_or(0),
        None => 0,
    }
}

// Sends a word. Whether there was memory for it.
fn send(rt: &impl Abort, alloc: Global, link: &mut Link, destination: u8, number: u8) -> bool {
    link.push(word(rt, alloc, destination, number)).is_ok()
}

// Takes a control word out: its number.
fn pick(link: &mut Link, at: u64) -> u8 {
    number_of(link.take_control(at).as_ref())
}

// Takes the first data word out: its number.
fn take(link: &mut Link) -> u8 {
    number_of(link.take_data().as_ref())
}

// How many data words and control words there are, and whether there is none.
fn counts(link: &Link) -> (u64, u64, bool) {
    let counts = link.counts();
    (counts.frames, counts.control, link.is_empty())
}

// Does a step, and asserts how it is told: `control N` and `data N` send, `free AT`, `first`, `at
// AT`, `take`, `pick AT`, `counts`.
fn step(rt: &impl Abort, alloc: Global, link: &mut Link, step: &str, wanted: &str) {
    let (verb, behind) = step.split_once(' ').unwrap_or((step, "0"));
    let [_, number] = number(rt, behind).to_be_bytes();
    match verb {
        "control" => expect(
            rt,
            alloc,
            &send(rt, alloc, link, 0x0E, number),
            wanted,
            step,
        ),
        "data" => expect(
            rt,
            alloc,
            &send(rt, alloc, link, 0x0F, number),
            wanted,
            step,
        ),
        "free" => expect(rt, alloc, &link.free_at(number as u64), wanted, step),
        "at" => expect(
            rt,
            alloc,
            &number_of(link.control_at(number as u64)),
            wanted,
            step,
        ),
        "first" => expect(rt, alloc, &number_of(link.first_data()), wanted, step),
        "take" => expect(rt, alloc, &take(link), wanted, step),
        "pick" => expect(rt, alloc, &pick(link, number as u64), wanted, step),
        _ => expect(rt, alloc, &counts(link), wanted, step),
    }
}

// The same of a row.
fn judge_step(rt: &impl Abort, alloc: Global, link: &mut Link, row: &str) {
    if row.starts_with("#") {
        return;
    }
    let (words, wanted) = row_of(rt, row);
    step(rt, alloc, link, words, wanted);
}

const STEPS: &str = "counts>(0, 0, true)\n\
     control 1>true\n\
     control 2>true\n\
     data 3>true\n\
     control 4>true\n\
     data 5>true\n\
     # Control words wait for the data that was sent before them.\n\
     free 1>true\n\
     free 2>false\n\
     first>3\n\
     take>3\n\
     free 2>true\n\
     free 3>false\n\
     # Taking one word leaves every other.\n\
     pick 2>4\n\
     pick 0>1\n\
     at 0>2\n\
     at 1>0\n\
     pick 1>0\n\
     counts>(1, 1, false)\n\
     control 6>true\n\
     free 0>true\n\
     free 1>false\n\
     take>5\n\
     free 1>true\n\
     take>0";

#[test]
fn control_waits_for_data_and_data_for_nothing(rt: HostRuntime) {
    let mut link = Link::new(rt.alloc());
    for row in STEPS.lines() {
        judge_step(&rt, rt.alloc(), &mut link, row);
    }
}
