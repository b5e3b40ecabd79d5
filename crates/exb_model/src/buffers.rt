//! A buffer of fixed capacity for control frames.
use arrayvec::ArrayVec;

/// Room for one control frame.
pub type ControlBuf = ArrayVec<u8, 1100>;
