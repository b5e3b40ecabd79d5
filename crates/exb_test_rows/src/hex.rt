//! Bytes as hexadecimal digits.
use std::alloc::{AllocError, AllocFailed, Global};

/// Why no bytes were made of a text.
#[derive(Clone, Copy, Debug)]
pub enum HexFault {
    /// The text has half a byte, no hexadecimal digit, or no number before `x`.
    Malformed,
    OutOfMemory,
}

impl From<AllocError> for HexFault {
    fn from(_e: AllocError) -> HexFault {
        HexFault::OutOfMemory
    }
}

impl<T: Drop> From<AllocFailed<T>> for HexFault {
    fn from(_e: AllocFailed<T>) -> HexFault {
        HexFault::OutOfMemory
    }
}

// The value of a digit.
fn digit(byte: u8) -> Option<u8> {
    match byte {
        b'0'..=b'9' => Some(byte.saturating_sub(b'0')),
        b'A'..=b'F' => Some(byte.saturating_sub(b'7')),
        _ => None,
    }
}

// The byte of two digits.
fn byte_of(pair: &[u8]) -> Option<u8> {
    match pair {
        [high, low] => {
            let high: u8 = digit(*high)?.wrapping_mul(16);
            Some(high.wrapping_add(digit(*low)?))
        }
        _ => None,
    }
}

// Puts the bytes of a word of digits behind these.
fn put_word(bytes: &mut Vec<u8>, word: &str) -> Result<(), HexFault> {
    for pair in word.as_bytes().chunks(2) {
        bytes.push(byte_of(pair).ok_or(HexFault::Malformed)?)?;
    }
    Ok(())
}

/// The bytes of a text of hexadecimal digits in words of whole bytes; `3x00` is the byte 0 three
/// times. Letters are upper case.
pub fn bytes_of(alloc: Global, text: &str) -> Result<Vec<u8>, HexFault> {
    let mut bytes = Vec::new(alloc);
    for word in text.split_whitespace() {
        let (times, word) = word.split_once('x').unwrap_or(("1", word));
        let times = times.parse::<u32>().ok().ok_or(HexFault::Malformed)?;
        for _time in 0..times {
            put_word(&mut bytes, word)?;
        }
    }
    Ok(bytes)
}

/// These bytes as hexadecimal digits, with no space between them.
pub fn text_of(alloc: Global, bytes: &[u8]) -> Result<String, AllocError> {
    let mut text = String::new(alloc);
    for byte in bytes {
        text.push_str(format!(in alloc; "{byte:02X}")?.as_str())?;
    }
    Ok(text)
}
