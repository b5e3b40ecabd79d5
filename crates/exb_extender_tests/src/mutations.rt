//! Frames that come to an extender in several states, cut before each byte, with each bit turned,
//! and longer. What it sends of each stands in the tables. Whatever came, what isn't asked for
//! stays as it was, and the next request is answered.
mod cases;

use crate::driver::{frame_step, hear, judge, sent_text};
use crate::fixture::Fixture;
use crate::forwarding::{LAID, UNCHANNELLED};
use crate::row_words::{bytes_of, put, put_bytes, same};
use cases::{CONTROL, FROM_BELOW, FROM_STATIONS, WORDS};
use exb_test_rows::expectations::{BITS, turn, verdict_at, verdict_of_bit};
use std::alloc::Global;
use std::process::Abort;

/// What the extender has executed.
#[derive(Clone, Copy)]
enum State {
    PowerOn,
    Opened,
    /// Each port has its channel.
    Ports,
    /// The group and a channel behind the cascade port have rows too.
    Rows,
    /// And the cascade port has no channel any more.
    Unchannelled,
}

/// A frame that comes in a state, and what becomes of it. It stands in five lines, behind a comment
/// or none, with `%` before each further case: state, side and frame; and a line for each field
/// behind these. What becomes of a frame is one of these:
///
/// - `nothing`
/// - `stops`: it acknowledges what the extender sends
/// - `ack`: it is acknowledged, and nothing else
/// - `answer BYTES`: it is acknowledged and answered, with these bytes behind type and serial
/// - `again BYTES`: it is acknowledged, and that is answered again
/// - what a step tells of a frame that goes on
#[derive(Clone, Copy)]
struct MutatedFrame<'a> {
    state: State,
    /// The side that it comes from, as in a step.
    from: &'a str,
    frame: &'a str,
    told: &'a str,
    /// What becomes of it where it is cut before a place: `PLACE VERDICT|`, up to the next entry's
    /// place. `same` is as whole.
    cut: &'a str,
    /// The same with a bit turned: `FIRST-LAST.BITS VERDICT|`; the first entry that has the place
    /// and the bit counts.
    turned: &'a str,
    /// The same with zeros behind it, up to a length: `LENGTH VERDICT|`, up to the next entry's
    /// length.
    longer: &'a str,
}

// The state with a name.
fn state_of(name: &str) -> State {
    match name {
        "PowerOn" => State::PowerOn,
        "Opened" => State::Opened,
        "Ports" => State::Ports,
        "Rows" => State::Rows,
        _ => State::Unchannelled,
    }
}

// What stands before a mark, and what behind it.
fn apart<'a>(rt: &impl Abort, text: &'a str, mark: char) -> (&'a str, &'a str) {
    text.split_once(mark).expect(rt, "a case")
}

// What stands behind a comment, if there is one.
fn bare(text: &str) -> &str {
    match text.split_once('\n') {
        Some((first, rest)) if first.starts_with("#") => rest,
        _ => text,
    }
}

// The case of its lines.
fn case_of<'a>(rt: &impl Abort, text: &'a str) -> MutatedFrame<'a> {
    let (head, rest) = apart(rt, bare(text), '\n');
    let (state, head) = apart(rt, head, ' ');
    let (from, frame) = apart(rt, head, ' ');
    let (told, rest) = apart(rt, rest, '\n');
    let (cut, rest) = apart(rt, rest, '\n');
    let (turned, longer) = apart(rt, rest, '\n');
    MutatedFrame {
        state: state_of(state),
        from,
        frame,
        told,
        cut,
        turned,
        longer,
    }
}

// How many requests lead to a state. Each was executed and answered.
fn requests(state: State) -> u8 {
    match state {
        State::PowerOn => 0,
        State::Opened => 1,
        State::Ports => 4,
        State::Rows => 5,
        State::Unchannelled => 6,
    }
}

// The bridge's next request comes, by the row of a step.
fn lay(rt: &impl Abort, alloc: Global, fixture: &mut Fixture, row: &str) {
    let (words, _told) = apart(rt, row, '>');
    let (_hear, payload) = apart(rt, words, ' ');
    hear(rt, alloc, fixture, payload, false);
}

// The first so many of these requests come.
fn lay_first(rt: &impl Abort, alloc: Global, fixture: &mut Fixture, rows: &str, count: u8) {
    let mut left = count;
    for row in rows.lines() {
        if left > 0 {
            lay(rt, alloc, fixture, row);
        }
        left = left.saturating_sub(1);
    }
}

// An extender in that state.
fn fixture_in(rt: &impl Abort, alloc: Global, state: State) -> Fixture {
    let mut fixture = Fixture::new(rt, alloc);
    lay_first(rt, alloc, &mut fixture, LAID, requests(state));
    if let State::Unchannelled = state {
        lay_first(rt, alloc, &mut fixture, UNCHANNELLED, 1);
    }
    fixture
}

// A word that goes by the tables of a state: of channel 2, or of the group.
fn word_in(state: State) -> &'static str {
    match state {
        State::PowerOn => "down 20 FFFFFFFFFFFF020000000001893F000000020000>",
        State::Opened => "down 20 FFFFFFFFFFFF020000000001893F000000020000>",
        State::Ports => "down 20 FFFFFFFFFFFF020000000001893F000000020000>2 stripped;",
        State::Rows => {
            "down 20 FFFFFFFFFFFF020000000001893F000010000000>1 stripped; 2 stripped; 3;"
        }
        State::Unchannelled => {
            "down 20 FFFFFFFFFFFF020000000001893F000010000000>1 stripped; 2 stripped;"
        }
    }
}

fn is_executed(verdict: &str) -> bool {
    verdict.starts_with("answer")
}

fn is_answered(verdict: &str) -> bool {
    is_executed(verdict) || verdict.starts_with("again")
}

// The sequence of the next answer.
fn sequence_of(state: State, verdict: &str) -> u16 {
    let answers = requests(state).wrapping_add(u8::from(is_answered(verdict)));
    u16::from(answers).wrapping_add(1)
}

// An acknowledgement of the frame.
fn put_acknowledgement(rt: &impl Abort, alloc: Global, text: &mut String, frame: &[u8]) {
    put(rt, text, "first 89401402");
    put_bytes(rt, alloc, text, frame.get(16..18).unwrap_or(&[]));
    put(rt, text, ";");
}

// The header of the next answer.
fn put_header(rt: &impl Abort, alloc: Global, text: &mut String, sequence: u16) {
    put(rt, text, " second 89401002");
    put_bytes(rt, alloc, text, &sequence.to_be_bytes());
}

// An acknowledgement of the frame, and the header of the answer.
fn put_head(rt: &impl Abort, alloc: Global, text: &mut String, state: State, frame: &[u8]) {
    put_acknowledgement(rt, alloc, text, frame);
    put_header(rt, alloc, text, sequence_of(state, ""));
}

// Type and serial of the answer to the frame's request.
fn put_front(rt: &impl Abort, alloc: Global, text: &mut String, frame: &[u8]) {
    let kind = frame.get(18).copied().unwrap_or(0) | 0x80;
    put_bytes(rt, alloc, text, &[kind]);
    put_bytes(rt, alloc, text, frame.get(19..27).unwrap_or(&[]));
}

// The rest of an answer.
fn put_rest(rt: &impl Abort, text: &mut String, bytes: &str) {
    put(rt, text, bytes);
    put(rt, text, ";");
}

// What a step has to tell by a verdict on a frame.
fn put_wanted(
    rt: &impl Abort,
    alloc: Global,
    text: &mut String,
    state: State,
    frame: &[u8],
    verdict: &str,
) {
    let (word, bytes) = verdict.split_once(' ').unwrap_or((verdict, ""));
    match word {
        "nothing" | "stops" => {}
        "ack" => put_acknowledgement(rt, alloc, text, frame),
        "answer" => {
            put_head(rt, alloc, text, state, frame);
            put_front(rt, alloc, text, frame);
            put_rest(rt, text, bytes);
        }
        "again" => {
            put_head(rt, alloc, text, state, frame);
            put_rest(rt, text, bytes);
        }
        _ => put(rt, text, verdict),
    }
}

// The answer to the next request, which is not executed: the E-CID 0x2000 has no rows.
fn next_answer(rt: &impl Abort, alloc: Global, sequence: u16, serial: u8) -> String {
    let mut text = String::new(alloc);
    put(rt, &mut text, "first 894014027777;");
    put_header(rt, alloc, &mut text, sequence);
    put(rt, &mut text, "8500000000000000");
    put_bytes(rt, alloc, &mut text, &[serial]);
    put(rt, &mut text, "000100;");
    text
}

// Asserts that the next request is answered.
fn judge_next(rt: &impl Abort, alloc: Global, fixture: &mut Fixture, state: State, verdict: &str) {
    let executed = requests(state).wrapping_add(u8::from(is_executed(verdict)));
    let serial: u8 = executed.wrapping_add(1);
    let request = [5, 0, 0, 0, 0, 0, 0, 0, serial, 0, 2, 0x20, 0];
    fixture.control(false, 0x7777, &request);
    let told = sent_text(rt, alloc, fixture);
    let answer = next_answer(rt, alloc, sequence_of(state, verdict), serial);
    same(rt, told.as_str().trim_end(), answer.as_str(), verdict);
}

// Asserts that the tables are as they were.
fn judge_tables(rt: &impl Abort, alloc: Global, fixture: &mut Fixture, state: State) {
    judge(rt, alloc, fixture, word_in(state));
}

// Asserts what is as it was: what waits for an acknowledgement, the tables unless a request was
// done, and what was executed.
fn judge_after(rt: &impl Abort, alloc: Global, fixture: &mut Fixture, state: State, verdict: &str) {
    let waits = is_answered(verdict) || requests(state) > 0;
    let idle = verdict == "stops" || !waits;
    assert!(rt; fixture.idle() == idle, "{verdict}");
    if verdict != "answer 000100" {
        judge_tables(rt, alloc, fixture, state);
    }
    judge_next(rt, alloc, fixture, state, verdict);
}

// Asserts what becomes of a frame.
fn judge_frame(
    rt: &impl Abort,
    alloc: Global,
    fixture: &mut Fixture,
    case: &MutatedFrame<'_>,
    frame: &[u8],
    verdict: &str,
) {
    let mut wanted = String::new(alloc);
    put_wanted(rt, alloc, &mut wanted, case.state, frame, verdict);
    let told = frame_step(rt, alloc, fixture, case.from, frame);
    let is_right = told.as_str().trim_end() == wanted.as_str();
    assert!(rt; is_right, "of {frame:?}: {told}");
}

// The verdict, or that on the whole frame.
fn resolved<'a>(told: &'a str, verdict: &'a str) -> &'a str {
    match verdict {
        "same" => told,
        _ => verdict,
    }
}

// Asserts what becomes of a frame that comes in the case's state from its side, and what comes
// after it.
fn judge_in(
    rt: &impl Abort,
    alloc: Global,
    case: &MutatedFrame<'_>,
    frame: &[u8],
    verdict: Option<&str>,
) {
    let verdict = resolved(case.told, verdict.expect(rt, "a verdict"));
    let mut fixture = fixture_in(rt, alloc, case.state);
    judge_frame(rt, alloc, &mut fixture, case, frame, verdict);
    judge_after(rt, alloc, &mut fixture, case.state, verdict);
}

/// Lengths up to which zeros are put behind a frame, after one more byte than it has.
const LENGTHS: [usize; 6] = [9216, 9217, 9224, 9225, 9232, 65535];

// Asserts what becomes of a frame with zeros behind it up to a length.
fn judge_length(
    rt: &impl Abort,
    alloc: Global,
    case: &MutatedFrame<'_>,
    frame: &mut Vec<u8>,
    length: usize,
) {
    frame.resize(length, 0).expect(rt, "memory");
    let verdict = verdict_at(case.longer, length).expect(rt, "a table");
    judge_in(rt, alloc, case, frame.as_slice(), verdict);
}

// Asserts what becomes of a frame with zeros behind it.
fn judge_longer(rt: &impl Abort, alloc: Global, case: &MutatedFrame) {
    let mut frame = bytes_of(rt, alloc, case.frame);
    let one_more: usize = frame.len().wrapping_add(1);
    judge_length(rt, alloc, case, &mut frame, one_more);
    for length in &LENGTHS {
        judge_length(rt, alloc, case, &mut frame, *length);
    }
}

// Asserts what becomes of a frame that is cut before a place.
fn judge_cut(rt: &impl Abort, alloc: Global, case: &MutatedFrame<'_>, frame: &[u8], place: usize) {
    let front = frame.get(..place).unwrap_or(&[]);
    let verdict = verdict_at(case.cut, place).expect(rt, "a table");
    judge_in(rt, alloc, case, front, verdict);
}

// Asserts what becomes of a frame with each bit of a byte turned.
fn judge_turned(
    rt: &impl Abort,
    alloc: Global,
    case: &MutatedFrame<'_>,
    frame: &mut Vec<u8>,
    place: usize,
) {
    for bit in &BITS {
        turn(frame, place, *bit);
        let verdict = verdict_of_bit(case.turned, place, *bit).expect(rt, "a table");
        judge_in(rt, alloc, case, frame.as_slice(), verdict);
        turn(frame, place, *bit);
    }
}

// Asserts what becomes of a frame, of its fronts, and of it with each bit turned.
fn judge_case(rt: &impl Abort, alloc: Global, case: &MutatedFrame) {
    let mut frame = bytes_of(rt, alloc, case.frame);
    judge_in(rt, alloc, case, frame.as_slice(), Some("same"));
    for place in 0..frame.len() {
        judge_cut(rt, alloc, case, frame.as_slice(), place);
        judge_turned(rt, alloc, case, &mut frame, place);
    }
}

// The same of a case by its lines.
fn judge_text(rt: &impl Abort, alloc: Global, text: &str) {
    let case = case_of(rt, text.trim_end());
    judge_case(rt, alloc, &case);
    judge_longer(rt, alloc, &case);
}

// Asserts what becomes of frames.
fn judge_all(rt: &impl Abort, alloc: Global, cases: &str) {
    for text in cases.split('%') {
        judge_text(rt, alloc, text);
    }
}

#[test]
fn cut_and_turned_frames_are_met_as_they_must(rt: HostRuntime) {
    judge_all(&rt, rt.alloc(), CONTROL);
    judge_all(&rt, rt.alloc(), WORDS);
    judge_all(&rt, rt.alloc(), FROM_BELOW);
    judge_all(&rt, rt.alloc(), FROM_STATIONS);
}
