//! What bytes are read as.
use crate::messages::expect_message;
use crate::row_words::{bytes_of, expect, expect_read, row_of};
use exb_frame::classify::classify;
use exb_frame::etag::ETag;
use std::alloc::Global;
use std::process::Abort;

/// What bytes are read as.
#[derive(Clone, Copy)]
pub(crate) enum WireFormat {
    Announcement,
    Ecp,
    Message,
    ETag,
    Frame,
}

// Asserts what bytes say, or their first fault.
fn expect_in(
    rt: &impl Abort,
    alloc: Global,
    format: WireFormat,
    bytes: &[u8],
    wanted: &str,
    of: &str,
) {
    match format {
        WireFormat::Announcement => expect_read(rt, alloc, &exb_lldp::read(bytes), wanted, of),
        WireFormat::Ecp => expect_read(rt, alloc, &exb_ecp::read(bytes), wanted, of),
        WireFormat::Message => expect_message(rt, alloc, bytes, wanted, of),
        WireFormat::ETag => expect(rt, alloc, &ETag::read(bytes), wanted, of),
        WireFormat::Frame => expect(rt, alloc, &classify(bytes), wanted, of),
    }
}

// The same of a row.
fn judge_row(rt: &impl Abort, alloc: Global, format: WireFormat, row: &str) {
    if row.starts_with("#") {
        return;
    }
    let (text, wanted) = row_of(rt, row);
    let bytes = bytes_of(rt, alloc, text);
    expect_in(rt, alloc, format, bytes.as_slice(), wanted, text);
}

/// Asserts what the bytes of each row say, or their first fault.
pub(crate) fn judge(rt: &impl Abort, alloc: Global, format: WireFormat, rows: &str) {
    for row in rows.lines() {
        judge_row(rt, alloc, format, row);
    }
}
