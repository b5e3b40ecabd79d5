//! The rows of a set of ports.

/// The ports of an extender to which a number's frames go: bit k - 1 is port k.
#[derive(Clone, Copy)]
pub struct Row {
    pub extender: u8,
    pub mask: u64,
}
