//! How text is shown at a terminal, which would obey some of it.

use std::io::Write;

/// Writes a text so that it drives no terminal: a control character, or one that sets the direction
/// or a line, is shown as `\u001b`, four digits behind it. Line ends and tabs stay; but in the line
/// of a fault, which may hold a stranger's name, only the end of the line does. Answers whether all
/// was written.
pub(crate) fn write_shown<W: Write>(to: &mut W, text: &[u8]) -> bool {
    let is_line = text.starts_with(b"exbr: ");
    let mut from = 0usize;
    for at in 0..text.len() {
        let odd = odd_front(&text[at..], is_line && at < text.len() - 1);
        if odd > 0 && from <= at {
            if to.write_all(&text[from..at]).is_err()
                || to.write_all(&escape(&text[at..])).is_err()
            {
                return false;
            }
            from = at.saturating_add(odd);
        }
    }
    match text.get(from..) {
        Some(rest) => to.write_all(rest).is_ok(),
        None => true,
    }
}

// How many bytes the first character has, where it is not shown as it is, and 0 where it is.
fn odd_front(text: &[u8], is_inside: bool) -> usize {
    match text {
        [b'\n', ..] => is_inside as usize,
        [b'\t', ..] => 0,
        [0..=31 | 127, ..] => 1,
        [0xC2, 0x80..=0x9F, ..] | [0xD8, 0x9C, ..] => 2,
        [0xE2, 0x80, 0x8E | 0x8F | 0xA8..=0xAE, ..] | [0xE2, 0x81, 0xA6..=0xA9, ..] => 3,
        _ => 0,
    }
}

// The number of the first character, of one to three bytes.
fn number(text: &[u8]) -> u16 {
    match text {
        [a, b, c, ..] if *a >= 0xE0 => {
            (*a as u16 & 0x0F) << 12 | (*b as u16 & 0x3F) << 6 | (*c as u16 & 0x3F)
        }
        [a, b, ..] if *a >= 0xC0 => (*a as u16 & 0x1F) << 6 | (*b as u16 & 0x3F),
        [a, ..] => *a as u16,
        [] => 0,
    }
}

// The last digit of a number, to the base of 16.
fn digit(number: u16) -> u8 {
    match (number & 0x0F) as u8 {
        n @ 0..=9 => b'0' + n,
        n => b'a' + (n & 7) - 2,
    }
}

// The first character by its number.
fn escape(text: &[u8]) -> [u8; 6] {
    let n = number(text);
    [
        b'\\',
        b'u',
        digit(n >> 12),
        digit(n >> 8),
        digit(n >> 4),
        digit(n),
    ]
}
