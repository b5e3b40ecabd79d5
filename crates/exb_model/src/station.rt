//! Stations: what a bridge learns and what a static entry is for (IEEE 802.1Q, clause 8.8).
use crate::address::Mac;
use crate::vlan::Vid;
use std::hash::{Hash, Hasher};

/// An address in a VLAN.
#[derive(Clone, Copy, PartialEq, Eq)]
pub struct Station {
    pub vid: Vid,
    pub address: Mac,
}

impl Hash for Station {
    ghost use Rattle.std.specs.Prelude.{◌++◌};
    ghost use Rattle.std.proofs.Common.{rules};
    ghost use Rattle.std.specs.Hash as fed;
    ghost use Rattle.std.specs.Cmp.Rules.{comparing, hashing};

    ghost hash_input = { λ d. fed.u16 d.vid ++ fed.slice fed.u8 d.address.0 };

    ghost respects_eq = { Prim.search (hashing, rules) };

    fn hash<H: Hasher>(&self, state: &mut H) {
        self.vid.number().hash(state);
        self.address.0.hash(state);
    }
}
