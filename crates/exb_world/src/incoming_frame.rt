//! Frames that come to an extender.
use exb_link::Stamp;

/// A frame that came to an extender, with the stamp of its word.
#[derive(Clone, Copy)]
pub(crate) struct IncomingFrame<'a> {
    pub(crate) frame: &'a [u8],
    pub(crate) stamp: Option<Stamp>,
}
