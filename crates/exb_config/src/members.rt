//! The members of one VLAN.
ghost use Rattle.std.specs.Prelude.{◌≡◌, ℕ, ◌+◌, ◌*◌, ◌/◌, ◌<◌, ◌==◌, false, not, if◌then◌else◌, Some, None};
ghost use Rattle.exb_model.specs.Masks.{bits_of};
ghost use Rattle.exb_model.specs.Ports.{port_in};
ghost use Rattle.exb_model.specs.Configuration.{kind_in};
ghost use Rattle.exb_model.specs.Refusals.{is_kind};

use exb_model::port::PortId;
use exb_model::port_set::PortSet;
use exb_model::vlan::Kind;

/// The members of a VLAN. A port in both sets is untagged.
#[derive(Clone, Copy)]
pub struct Members {
    pub tagged: PortSet,
    pub untagged: PortSet,
}

impl Members {
    ghost use Rattle.exb_config.specs.Rows.{has_member};

    /// No port.
    pub fn none() -> Members
        ensures { (q : ℕ) → kind_in result.tagged result.untagged q ≡ None }
    {
        Members {
            tagged: PortSet::empty(),
            untagged: PortSet::empty(),
        }
    }

    /// How a port is a member.
    pub fn kind(&self, port: PortId) -> Option<Kind>
        ensures { result ≡ kind_in self.now.tagged self.now.untagged port }
    {
        if self.untagged.contains(port) {
            Some(Kind::Untagged)
        } else if self.tagged.contains(port) {
            Some(Kind::Tagged)
        } else {
            None
        }
    }

    /// The members with a port put in.
    pub fn with(&self, port: PortId, kind: Kind) -> Members
        ensures { (q : ℕ) → kind_in result.tagged result.untagged q
            ≡ (if q == port then Some kind else kind_in self.now.tagged self.now.untagged q) }
    {
        let mut tagged = self.tagged;
        let mut untagged = self.untagged;
        match kind {
            Kind::Tagged => {
                untagged.remove(port);
                tagged.insert(port);
            }
            Kind::Untagged => {
                untagged.insert(port);
            }
        }
        Members { tagged, untagged }
    }

    /// The members with a port taken out.
    pub fn without(&self, port: PortId) -> Members
        ensures { (q : ℕ) → kind_in result.tagged result.untagged q
            ≡ (if q == port then None else kind_in self.now.tagged self.now.untagged q) }
    {
        let mut tagged = self.tagged;
        let mut untagged = self.untagged;
        tagged.remove(port);
        untagged.remove(port);
        Members { tagged, untagged }
    }

    /// The ports that are members of a kind.
    pub fn of_kind(&self, kind: Kind) -> PortSet
        ensures { (q : ℕ) → port_in result q
            ≡ is_kind kind (kind_in self.now.tagged self.now.untagged q) }
    {
        match kind {
            Kind::Tagged => self.tagged.except(&self.untagged),
            Kind::Untagged => self.untagged,
        }
    }

    /// The members of a kind that a device has, 0 for the bridge: bit k - 1 is its port k.
    pub fn mask(&self, kind: Kind, device: u8) -> u64
        requires { device < 65 }
        ensures { result ≡ bits_of (λ j.
            is_kind kind (kind_in self.now.tagged self.now.untagged (64 * device + j))) 64 }
    {
        let untagged = self.untagged.mask(device);
        match kind {
            Kind::Tagged => self.tagged.mask(device) & !untagged,
            Kind::Untagged => untagged,
        }
    }

    /// Whether a device may have a member, 0 for the bridge. Where it is false, no port of the
    /// device is a member.
    pub fn is_on(&self, device: u8) -> bool
        requires { device < 65 }
        ensures { result ≡ false → (q : ℕ) → q / 64 ≡ device
            → kind_in self.now.tagged self.now.untagged q ≡ None }
    {
        self.tagged.words[device as usize] != 0 || self.untagged.words[device as usize] != 0
    }

    /// Whether no port is a member.
    pub fn is_empty(&self) -> bool
        ensures { result ≡ not (has_member self.now) }
    {
        self.tagged.is_empty() && self.untagged.is_empty()
    }
}
