//! What the words of a table say, and the texts that they are compared with. A test ends where a
//! text says nothing.
use exb_test_rows::hex;
use std::alloc::Global;
use std::fmt::Display;
use std::process::Abort;

/// The bytes of a text of hexadecimal digits.
pub(crate) fn bytes_of(rt: &impl Abort, alloc: Global, text: &str) -> Vec<u8> {
    hex::bytes_of(alloc, text).expect(rt, "bytes")
}

/// The number below 65536 that a word is.
pub(crate) fn number(rt: &impl Abort, word: &str) -> u16 {
    word.parse::<u16>().expect(rt, "a number below 65536")
}

/// Puts words behind a text.
pub(crate) fn put(rt: &impl Abort, text: &mut String, words: &str) {
    text.push_str(words).expect(rt, "memory");
}

/// Puts bytes behind a text, as hexadecimal digits.
pub(crate) fn put_bytes(rt: &impl Abort, alloc: Global, text: &mut String, bytes: &[u8]) {
    let digits = hex::text_of(alloc, bytes).expect(rt, "memory");
    put(rt, text, digits.as_str());
}

/// Puts a value behind a text.
pub(crate) fn put_value(rt: &impl Abort, alloc: Global, text: &mut String, value: &impl Display) {
    let words = format!(in alloc; "{value}").expect(rt, "memory");
    put(rt, text, words.as_str());
}

/// Asserts that what is told is what is wanted.
pub(crate) fn same(rt: &impl Abort, told: &str, wanted: &str, of: &str) {
    assert!(rt; told == wanted, "of {of}: {told}");
}
