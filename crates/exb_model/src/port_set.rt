//! Sets of ports.
ghost use Rattle.std.specs.Prelude.{◌≡◌, ◌==◌, ℕ, ◌+◌, ◌*◌, ◌/◌, ◌<◌, ◌^◌, ◌||◌, ◌&&◌, ◌↔◌, IsTrue, not, false, length, slice_index};

use crate::port::PortId;

/// A set of ports as bits: port p is in it where bit p modulo 64 of word p / 64 is 1. So word n has
/// the ports of extender n, and word 0 those of the bridge.
#[derive(Clone, Copy, PartialEq, Eq)]
pub struct PortSet {
    pub words: [u64; 65],
    pub ghost fits: { (n : ℕ) → slice_index words n < 2 ^ 64 },
    pub ghost sized: { length words ≡ 65 },
}

impl PortSet {
    ghost use Rattle.exb_model.specs.Masks.{bits_of};
    ghost use Rattle.exb_model.specs.Ports.{port_in};

    /// No port.
    pub fn empty() -> PortSet
        ensures { (q : ℕ) → port_in result q ≡ false }
    {
        PortSet { words: [0; 65] }
    }

    /// Whether the port is in the set.
    pub fn contains(&self, port: PortId) -> bool
        ensures { result ≡ port_in self.now port }
    {
        (self.words[port.device() as usize] >> port.place()) & 1 == 1
    }

    /// Puts the port in.
    pub fn insert(&mut self, port: PortId)
        ensures { (q : ℕ) → port_in self.new q ≡ (q == port || port_in self.old q) }
    {
        self.words[port.device() as usize] |= 1 << port.place();
    }

    /// Takes the port out.
    pub fn remove(&mut self, port: PortId)
        ensures { (q : ℕ) → port_in self.new q ≡ (not (q == port) && port_in self.old q) }
    {
        self.words[port.device() as usize] &= !(1 << port.place());
    }

    /// Whether two sets have the same ports.
    pub fn is_same(&self, other: &PortSet) -> bool
        ensures { IsTrue result ↔ ((q : ℕ) → port_in self.now q ≡ port_in other.now q) }
    {
        *self == *other
    }

    /// The ports that are in both sets.
    pub fn both(&self, other: &PortSet) -> PortSet
        ensures { (q : ℕ) → port_in result q ≡ (port_in self.now q && port_in other.now q) }
    {
        let mut words = self.words;
        for device in 0..65usize {
            words[device] &= other.words[device];
        }
        PortSet { words }
    }

    /// The ports that are in this set and not in the other one.
    pub fn except(&self, other: &PortSet) -> PortSet
        ensures { (q : ℕ) → port_in result q ≡ (port_in self.now q && not (port_in other.now q)) }
    {
        let mut words = [0; 65];
        for device in 0..65usize {
            words[device] = self.words[device] & !other.words[device];
        }
        PortSet { words }
    }

    /// Whether no port is in the set.
    pub fn is_empty(&self) -> bool
        ensures { IsTrue result ↔ ((q : ℕ) → port_in self.now q ≡ false) }
    {
        self.is_same(&PortSet::empty())
    }

    /// Whether each port of the set is in the wider one.
    pub fn is_within(&self, wider: &PortSet) -> bool
        ensures { IsTrue result ↔ ((q : ℕ) → IsTrue (port_in self.now q)
            → IsTrue (port_in wider.now q)) }
    {
        for device in 0..65usize {
            if self.words[device] & wider.words[device] != self.words[device] {
                return false;
            }
        }
        true
    }

    /// The ports of the set that one device has, 0 for the bridge.
    pub fn of_device(&self, device: u8) -> PortSet
        requires { device < 65 }
        ensures { (q : ℕ) → port_in result q ≡ (q / 64 == device && port_in self.now q) }
    {
        let mut words = [0; 65];
        words[device as usize] = self.words[device as usize];
        PortSet { words }
    }

    /// The ports of one device that are in the set, 0 for the bridge: bit k - 1 is its port k.
    pub fn mask(&self, device: u8) -> u64
        requires { device < 65 }
        ensures { result ≡ bits_of (λ j. port_in self.now (64 * device + j)) 64 }
    {
        self.words[device as usize]
    }
}
