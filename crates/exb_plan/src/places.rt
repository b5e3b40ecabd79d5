//! Bridge ports that follow each other.
ghost use Rattle.std.specs.Prelude.{◌≤◌};

/// The bridge ports from one on up to the one before another, by their numbers, which are from 1.
#[derive(Clone, Copy, Drop)]
pub struct Places {
    pub first: u8,
    pub past: u8,
    pub ghost from1: { 1 ≤ first },
    pub ghost in_order: { first ≤ past },
    pub ghost low: { past ≤ 65 },
}
