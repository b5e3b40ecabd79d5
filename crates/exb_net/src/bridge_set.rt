//! Sets of bridges.
ghost use Rattle.std.specs.Prelude.{◌≡◌, ◌≢◌, ◌<◌, ◌≤◌, ℕ, IfNone, IfSome};
ghost use Rattle.exb_net.specs.BridgeSets.{mark_of};

use std::marker::Model;

/// The last bit.
const LAST: usize = 63;

/// A set of bridges, by bits: each of the first 63 bridges has one, and all others have the last.
#[derive(Clone, Copy)]
pub(crate) struct BridgeSet {
    bits: u64,
}

impl Model for BridgeSet {
    ghost use Rattle.std.specs.Prelude.{ℕ};

    ghost Value = { ℕ };

    ghost view = { λ m. m.bits };

    ghost inverse = { λ n. record { bits = n } };
}

impl BridgeSet {
    /// No bridge.
    pub(crate) fn none() -> BridgeSet
        ensures { (b : ℕ) → mark_of result b ≡ 0 }
    {
        BridgeSet { bits: 0 }
    }

    /// All bridges.
    pub(crate) fn all() -> BridgeSet
        ensures { (b : ℕ) → mark_of result b ≡ 1 }
    {
        BridgeSet { bits: u64::MAX }
    }

    /// Puts a bridge in.
    pub(crate) fn mark(&mut self, bridge: usize)
        ensures { (b : ℕ) → mark_of self.new b ≡ 0 → (mark_of self.old b ≡ 0) × (b ≢ bridge) }
    {
        self.bits |= 1 << bridge.min(LAST);
    }

    /// Puts the bridges of another set in.
    pub(crate) fn join(&mut self, others: BridgeSet)
        ensures { (b : ℕ) → mark_of self.new b ≡ 0 → (mark_of self.old b ≡ 0)
            × (mark_of others b ≡ 0) }
    {
        self.bits |= others.bits;
    }

    /// A bridge, from this one on, before which none from this one on is in the set; None where
    /// none is.
    pub(crate) fn first_from(&self, from: usize) -> Option<usize>
        ensures found { IfSome result (λ b. (from ≤ b) × ((c : ℕ) → from ≤ c → c < b
            → mark_of self.now c ≡ 0)) }
        ensures none { IfNone result ((c : ℕ) → from ≤ c → mark_of self.now c ≡ 0) }
    {
        let rest = self.bits >> from.min(LAST);
        if rest == 0 {
            return None;
        }
        Some(from.saturating_add(rest.trailing_zeros() as usize))
    }
}
