//! The E-CIDs of a request to unregister many.

ghost use Rattle.std.specs.Prelude.{◌≡◌, ◌<◌, ◌≤◌, [], ◌∷◌, ◌++◌, length};

use arrayvec::ArrayVec;
use std::marker::Model;

/// At most 64 E-CIDs, in order. Contracts see them as a list.
#[derive(Drop)]
pub struct Ecids {
    ecids: ArrayVec<u16, 64>,
}

impl Model for Ecids {
    ghost use Rattle.std.specs.Prelude.{List, ℕ, ◌≤◌, length};

    ghost Value = { List ℕ };

    ghost view = { λ e. e.ecids.items };

    ghost invariant = { λ e. length e.ecids.items ≤ 64 };
}

impl Ecids {
    /// No E-CID.
    pub fn new() -> Ecids
        ensures { result ≡ [] }
    {
        Ecids {
            ecids: ArrayVec::new(),
        }
    }

    /// Appends an E-CID.
    pub fn push(&mut self, ecid: u16)
        requires { length self.old < 64 }
        ensures { self.new ≡ self.old ++ ecid ∷ [] }
    {
        self.ecids.push(ecid);
    }

    /// The E-CIDs, at most 64.
    pub fn as_slice(&self) -> &[u16]
        ensures ecids { result.now ≡ self.now }
        ensures few { length self.now ≤ 64 }
    {
        self.ecids.as_slice()
    }

    /// The same E-CIDs once more.
    pub fn copy(&self) -> Ecids
        ensures { result ≡ self.now }
    {
        let mut ecids = ArrayVec::new();
        let _ = ecids.try_extend_from_slice(self.ecids.as_slice());
        Ecids { ecids }
    }
}
