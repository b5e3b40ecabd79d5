//! What is asserted, and how much a shelf reads at once.
use std::process::Abort;

/// At most so many bytes are read at once.
pub(crate) const CUTS: [usize; 4] = [1, 3, 7, 65_536];

/// Asserts that a text is as wanted, and says of what it is where it isn't.
pub(crate) fn same(rt: &impl Abort, given: &str, wanted: &str, of: &str, number: usize) {
    assert_eq!(rt; given, wanted, "of {of}, {number}");
}
