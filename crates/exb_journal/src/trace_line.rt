//! Lines of a trace.
ghost use Rattle.std.specs.Prelude.{◌≡◌, ◌++◌, ◌∷◌, ◌<◌, [], IfOk, OnOk, decimal, length};
ghost use Rattle.exb_model.specs.Texts.{line_of};
ghost use Rattle.exb_model.specs.Traces.{device_text, hex_digit, hexadecimal, side_text, trace_line};
ghost use Rattle.exb_journal.specs.TraceLineHeads.{head_text};

use crate::EventLine;
use exb_model::bytes::Bytes;
use exb_model::event::Event;
use exb_model::memory::NoMemory;
use exb_model::trace::{TraceLine, TraceWay};
use itoa::Buffer;
use std::alloc::Global;

/// The line of an event in the journal, without its newline.
pub fn event_bytes(alloc: Global, event: &Event) -> Result<Bytes, NoMemory>
    ensures { IfOk result (λ bytes. bytes ≡ line_of event.now) }
{
    let line = format!(in alloc; "{}", EventLine(event))?;
    Bytes::from_slice(alloc, line.as_bytes())
}

/// The lower-case digit of a number below 16.
fn hex_digit(number: u8) -> u8
    requires { number < 16 }
    ensures { result ≡ hex_digit number }
{
    if number < 10 {
        b'0' + number
    } else {
        87 + number
    }
}

/// Puts bytes behind a text.
fn push(text: &mut Vec<u8>, bytes: &[u8]) -> Result<(), NoMemory>
    ensures { OnOk result (text.new.items ≡ text.old.items ++ bytes.now) }
{
    Ok(text.extend_from_slice(bytes)?)
}

/// Puts two digits for each of four bytes behind a text.
#[inline(always)]
fn push_four(text: &mut Vec<u8>, bytes: &[u8]) -> Result<(), NoMemory>
    requires { length bytes.now ≡ 4 }
    ensures { OnOk result (text.new.items ≡ text.old.items ++ hexadecimal bytes.now) }
{
    let (first, second, third, fourth) = (bytes[0], bytes[1], bytes[2], bytes[3]);
    Ok(text.extend_from_slice(&[
        hex_digit(first / 16),
        hex_digit(first % 16),
        hex_digit(second / 16),
        hex_digit(second % 16),
        hex_digit(third / 16),
        hex_digit(third % 16),
        hex_digit(fourth / 16),
        hex_digit(fourth % 16),
    ])?)
}

/// Puts two digits for each byte behind a text.
fn push_hexadecimal(text: &mut Vec<u8>, bytes: &[u8]) -> Result<(), NoMemory>
    ensures { OnOk result (text.new.items ≡ text.old.items ++ hexadecimal bytes.now) }
{
    let mut at = 0;
    'fours: while bytes.len() - at >= 4 {
        push_four(text, &bytes[at..at + 4])?;
        at += 4;
    }
    'bytes: while at < bytes.len() {
        text.extend_from_slice(&[hex_digit(bytes[at] / 16), hex_digit(bytes[at] % 16)])?;
        at += 1;
    }
    Ok(())
}

/// Puts a number behind a text.
fn push_number(text: &mut Vec<u8>, number: u8) -> Result<(), NoMemory>
    ensures { OnOk result (text.new.items ≡ text.old.items ++ decimal number) }
{
    let mut digits = Buffer::new();
    push(text, digits.format(number).as_bytes())
}

/// Puts the name of a device behind a text: the bridge, or an extender's number.
fn push_device(text: &mut Vec<u8>, who: u8) -> Result<(), NoMemory>
    ensures { OnOk result (text.new.items ≡ text.old.items ++ device_text who) }
{
    if who == 0 {
        return push(text, b"b");
    }
    push(text, b"x")?;
    push_number(text, who)
}

/// Puts the name of a side behind a text: upstream, or a port's number.
fn push_side(text: &mut Vec<u8>, side: u8) -> Result<(), NoMemory>
    ensures { OnOk result (text.new.items ≡ text.old.items ++ side_text side) }
{
    if side == 0 {
        return push(text, b"up");
    }
    push_number(text, side)
}

/// Puts what a frame came in by, or went out by, behind a text: the way, the device, the side and a
/// space.
fn push_head(text: &mut Vec<u8>, way: &str, who: u8, side: u8) -> Result<(), NoMemory>
    ensures { OnOk result (text.new.items ≡ text.old.items ++ head_text way.now who side) }
{
    push(text, way.as_bytes())?;
    push(text, b" ")?;
    push_device(text, who)?;
    push(text, b" ")?;
    push_side(text, side)?;
    push(text, b" ")
}

/// Puts the line of a frame that passed behind a text, without its newline.
fn push_frame(
    text: &mut Vec<u8>,
    way: &str,
    who: u8,
    side: u8,
    bytes: &[u8],
) -> Result<(), NoMemory>
    ensures { OnOk result (text.new.items ≡ text.old.items
        ++ (head_text way.now who side ++ hexadecimal bytes.now)) }
{
    push_head(text, way, who, side)?;
    push_hexadecimal(text, bytes)
}

/// Puts a line of a trace behind a text, without its newline.
#[tactic(auto, unfolding(exb_model::specs::Traces::trace_line))]
fn push_line(text: &mut Vec<u8>, line: &TraceLine) -> Result<(), NoMemory>
    ensures { OnOk result (text.new.items ≡ text.old.items ++ trace_line line.now) }
{
    match line.way {
        TraceWay::In => push_frame(text, "in", line.who, line.side, line.bytes.as_slice()),
        TraceWay::Out => push_frame(text, "out", line.who, line.side, line.bytes.as_slice()),
        TraceWay::Beat => push(text, b"beat"),
        TraceWay::Journal => {
            push(text, b"= ")?;
            push(text, line.bytes.as_slice())
        }
    }
}

/// Puts a line of a trace, with its newline, behind a text.
pub fn write_trace_line(text: &mut Vec<u8>, line: &TraceLine) -> Result<(), NoMemory>
    ensures { OnOk result (text.new.items ≡ text.old.items ++ (trace_line line.now ++ 10 ∷ [])) }
{
    push_line(text, line)?;
    Ok(text.push(b'\n')?)
}
