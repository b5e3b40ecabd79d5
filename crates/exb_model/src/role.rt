//! What a port is in the tree of extenders.

/// The role of a port: no port of the tree, an external port, or a cascade port on which an
/// extender hangs.
#[derive(Clone, Copy)]
pub enum Role {
    Unknown,
    External,
    Cascade { extender: u8 },
}
