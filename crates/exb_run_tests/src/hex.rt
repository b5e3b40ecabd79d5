//! Bytes as hexadecimal digits. A text that can't be read ends its test.
use exb_test_rows::hex;
use std::alloc::Global;
use std::process::Abort;

/// The bytes of a text of hexadecimal digits in words of whole bytes; `3x00` is the byte 0 three
/// times.
pub(crate) fn bytes_of(rt: &impl Abort, alloc: Global, text: &str) -> Vec<u8> {
    hex::bytes_of(alloc, text).expect(rt, "bytes as hexadecimal digits")
}
