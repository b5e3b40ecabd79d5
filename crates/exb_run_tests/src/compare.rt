//! What is asserted, each in one place: what is wrong is told in texts, which are long to prove.
use std::process::Abort;

/// Asserts a status.
pub(crate) fn same_status(rt: &impl Abort, given: u8, wanted: u8, of: &str) {
    assert_eq!(rt; given, wanted, "of {of}");
}

/// Asserts a fact.
pub(crate) fn holds(rt: &impl Abort, fact: bool, of: &str) {
    assert!(rt; fact, "{of}");
}
