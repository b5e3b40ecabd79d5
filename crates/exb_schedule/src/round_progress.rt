//! How far a direction was gone through.

/// The words of a direction that are still to be looked at in this round, and the place of the next
/// control word: so many were looked at and stay.
#[derive(Clone, Copy)]
pub(crate) struct RoundProgress {
    pub(crate) frames: u64,
    pub(crate) control: u64,
    pub(crate) place: u64,
}
