//! The sets of ports that need a group.
use exb_model::port_set::PortSet;
use std::hash::{Hash, Hasher};

/// A set of extended ports below a bridge port, which is numbered 1 to 64.
#[derive(Clone, Copy, PartialEq, Eq)]
pub struct SetAt {
    pub bridge_port: u8,
    pub set: PortSet,
}

impl Hash for SetAt {
    ghost use Rattle.std.specs.Prelude.{◌++◌};
    ghost use Rattle.std.proofs.Common.{rules};
    ghost use Rattle.std.specs.Hash as fed;
    ghost use Rattle.std.specs.Cmp.Rules.{hashing};

    ghost hash_input = { λ s. fed.u8 s.bridge_port ++ fed.slice fed.u64 s.set.words };

    ghost respects_eq = { Prim.search (hashing, rules) };

    fn hash<H: Hasher>(&self, state: &mut H) {
        self.bridge_port.hash(state);
        self.set.words.hash(state);
    }
}
