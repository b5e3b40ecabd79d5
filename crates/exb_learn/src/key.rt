//! What an entry is found by.
ghost use Rattle.std.specs.Prelude.{◌≡◌, ◌<◌, ℕ, length, slice_index};
ghost use Rattle.std.specs.Int.{w64, from_le_bytes};
ghost use Rattle.exb_learn.specs.Keys.{bytes_of, packed, same_equiv, IsSpelled};
ghost use Rattle.exb_learn.specs.Stations.{same};

use exb_model::address::Mac;
use exb_model::bytes::are_bytes;
use exb_model::vlan::Vid;
use std::hash::{Hash, Hasher};

/// A station: an address in a VLAN. Its eight bytes are compared and hashed as one number.
#[derive(Clone, Copy)]
pub struct StationKey {
    pub vid: Vid,
    pub address: Mac,
}

/// The two bytes of a VLAN's number and the six of an address as one number.
#[inline(always)]
fn pack(vid: u16, address: Mac) -> u64
    ensures number { result ≡ from_le_bytes w64 (bytes_of vid address.0) }
    ensures long { length address.0 ≡ 6 }
    ensures bytes { (i : ℕ) → slice_index address.0 i < 256 }
{
    let Mac(a) = address;
    are_bytes(a.as_slice());
    u64::from_le_bytes([
        (vid % 256) as u8,
        (vid / 256) as u8,
        a[0],
        a[1],
        a[2],
        a[3],
        a[4],
        a[5],
    ])
}

impl StationKey {
    /// The station as one number.
    #[inline(always)]
    fn packed(&self) -> u64
        ensures number { result ≡ packed self.now }
        ensures spelled { IsSpelled self.now }
    {
        pack(self.vid.number(), self.address)
    }
}

impl PartialEq for StationKey {
    ghost use Rattle.std.specs.Cmp.{partial_equiv_from_equiv};

    ghost eq = { same };

    ghost laws = { partial_equiv_from_equiv same_equiv };

    #[inline(always)]
    fn eq(&self, other: &StationKey) -> bool {
        self.packed() == other.packed()
    }
}

impl Eq for StationKey {
    ghost laws = { same_equiv };
}

impl Hash for StationKey {
    ghost use Rattle.std.specs.Hash as fed;
    ghost use Rattle.exb_learn.specs.Keys.{fed_alike};

    ghost hash_input = { λ k. fed.u64 (packed k) };

    ghost respects_eq = { fed_alike };

    #[inline(always)]
    fn hash<H: Hasher>(&self, state: &mut H) {
        state.write_u64(self.packed());
    }
}
