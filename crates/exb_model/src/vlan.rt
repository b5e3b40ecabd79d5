//! VLANs and how a port belongs to one.
ghost use Rattle.std.specs.Prelude.{◌≡◌, ◌≤◌, ◌↔◌, IsSome, IfSome};

use std::marker::Model;

/// A VLAN identifier (IEEE 802.1Q), 1 to 4094.
#[derive(Clone, Copy, Debug, PartialEq, Eq)]
pub struct Vid {
    number: u16,
}

impl Model for Vid {
    ghost use Rattle.std.specs.Prelude.{ℕ, ◌≤◌};

    ghost Value = { ℕ };

    ghost view = { λ v. v.number };

    ghost invariant = { λ v. (1 ≤ v.number) × (v.number ≤ 4094) };

    ghost inverse = { λ n. record { number = n } };
}

impl Vid {
    /// The VLAN of that number; None exactly where it isn't 1 to 4094.
    pub fn new(number: u16) -> Option<Vid>
        ensures valid { IsSome result ↔ ((1 ≤ number) × (number ≤ 4094)) }
        ensures value { IfSome result (λ vid. vid ≡ number) }
    {
        if number >= 1 && number <= 4094 {
            Some(Vid { number })
        } else {
            None
        }
    }

    /// The number, 1 to 4094.
    pub fn number(&self) -> u16
        ensures value { result ≡ self.now }
        ensures range { (1 ≤ self.now) × (self.now ≤ 4094) }
    {
        self.number
    }
}

/// VLAN 1, the PVID of a port that was given none.
impl Default for Vid {
    fn default() -> Vid
        ensures { result ≡ 1 }
    {
        Vid { number: 1 }
    }
}

/// Whether a port sends the frames of a VLAN with a VLAN tag or without one.
#[derive(Clone, Copy, Default)]
pub enum Kind {
    Tagged,
    #[default]
    Untagged,
}
