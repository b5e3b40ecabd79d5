//! Why bytes are no control message.

/// The first thing that is wrong with the bytes of a control message.
#[derive(Clone, Copy, Debug)]
pub enum CspFault {
    /// The bytes end before the header or the body does.
    Cut,
    /// The type names no message.
    UnknownType,
    /// The length field isn't one of the type's, or bytes stand after the body.
    Length,
    /// The serial, the kind, the code or the port count is out of its range.
    Range,
}
