//! What the words of a table say, and what is asserted of it. A test ends where a text says
//! nothing.
use exb_test_rows::hex;
use std::alloc::Global;
use std::fmt::Debug;
use std::process::Abort;

/// The bytes of a text of hexadecimal digits.
pub(crate) fn bytes_of(rt: &impl Abort, alloc: Global, text: &str) -> Vec<u8> {
    hex::bytes_of(alloc, text).expect(rt, "bytes")
}

/// The number below 65536 that a word is.
pub(crate) fn number(rt: &impl Abort, word: &str) -> u16 {
    word.parse::<u16>().expect(rt, "a number below 65536")
}

/// A row of a table: what stands before `>`, and what is wanted. A row that begins with `#` is a
/// comment.
pub(crate) fn row_of<'a>(rt: &impl Abort, row: &'a str) -> (&'a str, &'a str) {
    row.split_once('>').expect(rt, "what is wanted")
}

/// How a value is told.
pub(crate) fn told(rt: &impl Abort, alloc: Global, value: &impl Debug) -> String {
    format!(in alloc; "{value:?}").expect(rt, "memory")
}

/// Asserts that what is told is what is wanted.
pub(crate) fn same(rt: &impl Abort, told: &str, wanted: &str, of: &str) {
    assert!(rt; told == wanted, "of {of}: {told}");
}

/// Asserts how a value is told.
pub(crate) fn expect(rt: &impl Abort, alloc: Global, value: &impl Debug, wanted: &str, of: &str) {
    let told = told(rt, alloc, value);
    same(rt, told.as_str(), wanted, of);
}

/// Asserts what was read, or its fault.
pub(crate) fn expect_read<T: Debug, E: Debug>(
    rt: &impl Abort,
    alloc: Global,
    read: &Result<T, E>,
    wanted: &str,
    of: &str,
) {
    match read {
        Ok(value) => expect(rt, alloc, value, wanted, of),
        Err(fault) => expect(rt, alloc, fault, wanted, of),
    }
}

/// Asserts that bytes are those of a text.
pub(crate) fn expect_bytes(rt: &impl Abort, alloc: Global, bytes: &[u8], wanted: &str) {
    let wanted = bytes_of(rt, alloc, wanted);
    assert!(rt; bytes == wanted.as_slice(), "{bytes:?}");
}
