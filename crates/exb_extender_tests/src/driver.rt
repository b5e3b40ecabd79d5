//! Extender 1 with three ports, driven by words:
//!
//! - `beat N`: beats pass
//! - `hear BYTES`, `repeat BYTES`: the bridge's next request comes with this payload, and with the
//! sequence of the last one
//! - `acked N`: what the extender sent with that sequence is acknowledged
//! - `down N BYTES`, `below N BYTES`, `arrive N BYTES`: a frame of N bytes, zeros behind those that
//! are given, comes from
//!   upstream, from the cascade port 3, and from a station at port 1
//! - `idle`: whether nothing waits for an acknowledgement
//!
//! A step is told as the frames of the extender's own that went up, first and second, from their
//! type on; and as the sides to which the frame went: `2 stripped` without its E-TAG, `3` as it is,
//! `up`, `up by 1` with an E-TAG of that channel.
use crate::fixture::Fixture;
use crate::row_words::{bytes_of, number, put, put_bytes, put_value, same};
use exb_extender::{Entry, Form, Out, Side};
use std::alloc::Global;
use std::process::Abort;

// Where a frame went.
fn put_side(rt: &impl Abort, alloc: Global, text: &mut String, to: &Side) {
    match to {
        Side::Up => put(rt, text, "up"),
        Side::Port { port } => put_value(rt, alloc, text, port),
    }
}

// How a frame went.
fn put_form(rt: &impl Abort, alloc: Global, text: &mut String, form: &Form) {
    match form {
        Form::AsIs => {}
        Form::Stripped => put(rt, text, " stripped"),
        Form::Tagged { channel } => {
            put(rt, text, " by ");
            put_value(rt, alloc, text, channel);
        }
    }
}

// Where frames went, and how.
fn put_outs(rt: &impl Abort, alloc: Global, text: &mut String, outs: &[Out]) {
    for out in outs {
        put_side(rt, alloc, text, &out.to);
        put_form(rt, alloc, text, &out.form);
        put(rt, text, "; ");
    }
}

// A frame of the extender's own, from its type on, where there is one.
fn put_own(rt: &impl Abort, alloc: Global, text: &mut String, name: &str, frame: &[u8]) {
    if let Some(bytes) = frame.get(12..) {
        put(rt, text, name);
        put_bytes(rt, alloc, text, bytes);
        put(rt, text, "; ");
    }
}

// All that the last step sent.
fn put_sent(rt: &impl Abort, alloc: Global, text: &mut String, fixture: &Fixture) {
    put_own(rt, alloc, text, "first ", fixture.first());
    put_own(rt, alloc, text, "second ", fixture.second());
    put_outs(rt, alloc, text, fixture.outs());
}

/// All that the last step sent.
pub(crate) fn sent_text(rt: &impl Abort, alloc: Global, fixture: &Fixture) -> String {
    let mut text = String::new(alloc);
    put_sent(rt, alloc, &mut text, fixture);
    text
}

// Beats, and all that they send.
fn beats(rt: &impl Abort, alloc: Global, fixture: &mut Fixture, beats: u16) -> String {
    let mut text = String::new(alloc);
    for _beat in 0..beats {
        fixture.beat();
        put_sent(rt, alloc, &mut text, fixture);
    }
    text
}

// Whether nothing waits for an acknowledgement.
fn idle(rt: &impl Abort, alloc: Global, fixture: &Fixture) -> String {
    let mut text = String::new(alloc);
    put_value(rt, alloc, &mut text, &fixture.idle());
    text
}

// A frame comes from a station.
fn arrive(rt: &impl Abort, alloc: Global, fixture: &mut Fixture, frame: &[u8]) -> String {
    if fixture.arrive(rt, frame) == Entry::Ignored {
        assert!(rt; fixture.is_silent());
        return String::from_str(alloc, "ignored").expect(rt, "memory");
    }
    sent_text(rt, alloc, fixture)
}

/// Takes a frame from that side, and tells it.
pub(crate) fn frame_step(
    rt: &impl Abort,
    alloc: Global,
    fixture: &mut Fixture,
    from: &str,
    frame: &[u8],
) -> String {
    match from {
        "down" => fixture.down(frame),
        "below" => fixture.up(rt, frame),
        _ => return arrive(rt, alloc, fixture, frame),
    }
    sent_text(rt, alloc, fixture)
}

// The frame of `N BYTES`.
fn frame_of(rt: &impl Abort, alloc: Global, text: &str) -> Vec<u8> {
    let (length, text) = text.split_once(' ').unwrap_or((text, ""));
    let mut frame = bytes_of(rt, alloc, text);
    frame
        .resize(number(rt, length) as usize, 0)
        .expect(rt, "memory");
    frame
}

/// The bridge's next request comes with this payload, or with the last sequence again.
pub(crate) fn hear(rt: &impl Abort, alloc: Global, fixture: &mut Fixture, text: &str, again: bool) {
    let payload = bytes_of(rt, alloc, text);
    assert!(rt; payload.len() <= 1024);
    if again {
        fixture.repeat(payload.as_slice());
    } else {
        fixture.hear(payload.as_slice());
    }
}

// Does a step, and tells it.
fn step(rt: &impl Abort, alloc: Global, fixture: &mut Fixture, step: &str) -> String {
    let (verb, behind) = step.split_once(' ').unwrap_or((step, ""));
    match verb {
        "beat" => return beats(rt, alloc, fixture, number(rt, behind)),
        "idle" => return idle(rt, alloc, fixture),
        "acked" => fixture.acknowledge(number(rt, behind)),
        "hear" => hear(rt, alloc, fixture, behind, false),
        "repeat" => hear(rt, alloc, fixture, behind, true),
        _ => {
            let frame = frame_of(rt, alloc, behind);
            return frame_step(rt, alloc, fixture, verb, frame.as_slice());
        }
    }
    sent_text(rt, alloc, fixture)
}

// Asserts that a step is told as its row says behind `>`. A row that begins with `#` is a comment.
fn judge_step(rt: &impl Abort, alloc: Global, fixture: &mut Fixture, row: &str) {
    if row.starts_with("#") {
        return;
    }
    let (words, wanted) = row.split_once('>').expect(rt, "what is told");
    let told = step(rt, alloc, fixture, words);
    same(rt, told.as_str().trim_end(), wanted, words);
}

/// Asserts that each step, one a line, is told as it must be.
pub(crate) fn judge(rt: &impl Abort, alloc: Global, fixture: &mut Fixture, steps: &str) {
    for row in steps.lines() {
        judge_step(rt, alloc, fixture, row);
    }
}
