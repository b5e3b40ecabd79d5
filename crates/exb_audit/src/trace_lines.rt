//! How a line of a trace is read.
ghost use Rattle.std.specs.Prelude.{◌≡◌, ◌≤◌, [], Some, IfOk, IfSome, IfNone};
ghost use Rattle.exb_trace_spec.specs.JournalLines.{entry_in};
ghost use Rattle.exb_trace_spec.specs.TraceTexts.{byte_in, bytes_in, device_in, digit_in, journal_by, passing_in, read_line, side_in};
ghost use Rattle.exb_trace_spec.specs.TextFields.{words_in};
ghost use Rattle.exb_model.specs.Traces.{Beat};
ghost use Rattle.exb_audit.specs.LineWords.{passing_words, way_in, HasRead};

use crate::journal_lines::is_entry;
use crate::line_words::{first_word, small};
use exb_model::bytes::Bytes;
use exb_model::memory::NoMemory;
use exb_model::trace::{TraceLine, TraceWay};
use std::alloc::Global;

/// The value of a hexadecimal digit, in lower case.
fn digit(c: u8) -> Option<u8>
    ensures value { result ≡ digit_in c }
    ensures range { IfSome result (λ d. d ≤ 15) }
{
    if c >= 48 && c <= 57 {
        return Some(c - 48);
    }
    if c >= 97 && c <= 102 {
        return Some(c - 87);
    }
    None
}

/// The byte of two hexadecimal digits.
fn byte(high: u8, low: u8) -> Option<u8>
    ensures { result ≡ byte_in high low }
{
    let high = digit(high)?;
    let low = digit(low)?;
    Some(16 * high + low)
}

/// Puts the bytes of hexadecimal digits into a buffer; false exactly where they are none.
fn put_bytes(hex: &[u8], into: &mut Vec<u8>) -> Result<bool, NoMemory>
    requires { into.old.items ≡ [] }
    ensures { IfOk result (λ good. HasRead hex.now into.new.items good) }
{
    into.reserve(hex.len() / 2)?;
    for i in 0..hex.len() / 2 {
        let Some(b) = byte(hex[2 * i], hex[2 * i + 1]) else {
            return Ok(false);
        };
        into.push(b)?;
    }
    Ok(hex.len() % 2 == 0)
}

/// The bytes of hexadecimal digits, two for each byte.
fn bytes(alloc: Global, hex: &[u8]) -> Result<Option<Bytes>, NoMemory>
    ensures { IfOk result (λ read. read ≡ bytes_in hex.now) }
{
    let mut into = Vec::new(alloc);
    let good = put_bytes(hex, &mut into)?;
    if !good {
        return Ok(None);
    }
    Ok(Some(Bytes::from_vec(into)))
}

/// The device of a word: `b` is 0, and `xN` is N.
fn device(text: &[u8]) -> Option<u8>
    ensures { result ≡ device_in text.now }
{
    if text == b"b".as_slice() {
        return Some(0);
    }
    let (first, rest) = text.split_first()?;
    if *first != b'x' {
        return None;
    }
    small(rest)
}

/// A side of a device: `up` at an extender is 0, and a port its number.
fn side(device: u8, text: &[u8]) -> Option<u8>
    ensures { result ≡ side_in device text.now }
{
    if text == b"up".as_slice() {
        return if device == 0 { None } else { Some(0) };
    }
    small(text)
}

/// Which way a frame goes.
fn way(text: &[u8]) -> Option<TraceWay>
    ensures { result ≡ way_in text.now }
{
    if text == b"in".as_slice() {
        return Some(TraceWay::In);
    }
    if text == b"out".as_slice() {
        return Some(TraceWay::Out);
    }
    None
}

/// The line of a way, a place and a frame, by their words.
fn passing(
    alloc: Global,
    way_word: &[u8],
    device_word: &[u8],
    side_word: &[u8],
    hex: &[u8],
) -> Result<Option<TraceLine>, NoMemory>
    ensures { IfOk result (λ read. read ≡ passing_words way_word.now device_word.now side_word.now
        hex.now) }
{
    let Some(who) = device(device_word) else {
        return Ok(None);
    };
    let Some(side) = side(who, side_word) else {
        return Ok(None);
    };
    let Some(way) = way(way_word) else {
        return Ok(None);
    };
    match bytes(alloc, hex)? {
        Some(bytes) => Ok(Some(TraceLine {
            who,
            way,
            side,
            bytes,
        })),
        None => Ok(None),
    }
}

/// The line of a beat.
fn beat(alloc: Global) -> TraceLine
    ensures { result ≡ Beat }
{
    TraceLine {
        who: 0,
        way: TraceWay::Beat,
        side: 0,
        bytes: Bytes::from_vec(Vec::new(alloc)),
    }
}

/// The line of a text that is no line of the journal.
fn read_passing(alloc: Global, line: &[u8]) -> Result<Option<TraceLine>, NoMemory>
    ensures { IfOk result (λ read. read ≡ passing_in (words_in line.now)) }
{
    let (way, rest) = first_word(line);
    let Some(rest) = rest else {
        return Ok(if way == b"beat".as_slice() {
            Some(beat(alloc))
        } else {
            None
        });
    };
    let (device, rest) = first_word(rest);
    let Some(rest) = rest else {
        return Ok(None);
    };
    let (side, rest) = first_word(rest);
    let Some(rest) = rest else {
        return Ok(None);
    };
    let (hex, rest) = first_word(rest);
    if rest.is_some() {
        return Ok(None);
    }
    passing(alloc, way, device, side, hex)
}

/// The line of the journal that stands in a line of a trace.
fn read_journal(alloc: Global, text: &[u8]) -> Result<Option<TraceLine>, NoMemory>
    ensures { IfOk result (λ read. read ≡ journal_by text.now (entry_in text.now)) }
{
    if !is_entry(text) {
        return Ok(None);
    }
    Ok(Some(TraceLine {
        who: 0,
        way: TraceWay::Journal,
        side: 0,
        bytes: Bytes::from_slice(alloc, text)?,
    }))
}

/// The line of a trace of a text without its newline; none exactly where the text isn't such a
/// line.
#[tactic(auto, unfolding(exb_trace_spec::specs::TraceTexts::read_line))]
pub fn read_line(alloc: Global, line: &[u8]) -> Result<Option<TraceLine>, NoMemory>
    ensures some { IfOk result (λ read. IfSome read (λ l. read_line line.now ≡ Some l)) }
    ensures none { IfOk result (λ read. IfNone read (read_line line.now ≡ None)) }
{
    match line.strip_prefix(b"= ") {
        Some(text) => read_journal(alloc, text),
        None => read_passing(alloc, line),
    }
}
