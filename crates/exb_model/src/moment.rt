//! Moments: nanoseconds since 1970.

/// One second in nanoseconds.
pub const SECOND: u64 = 1_000_000_000;
