//! What is asserted, each in one place: what is wrong is told in texts, which are long to prove.
use std::process::Abort;

/// Asserts that a text is as wanted, and says of what it is where it isn't.
pub(crate) fn same(rt: &impl Abort, given: &str, wanted: &str, of: &str) {
    assert_eq!(rt; given, wanted, "of {of}");
}

/// The same of a text about a place.
pub(crate) fn same_at(rt: &impl Abort, given: &str, wanted: &str, of: &str, place: usize) {
    assert_eq!(rt; given, wanted, "of {of} at {place}");
}

/// Asserts a fact.
pub(crate) fn holds(rt: &impl Abort, fact: bool, of: &str) {
    assert!(rt; fact, "{of}");
}
