//! The ports to which a frame may go.
ghost use Rattle.std.specs.Prelude.{◌≡◌, ◌+◌, ◌*◌, ◌<◌, ◌==◌, if◌then◌else◌, None};
ghost use Rattle.exb_model.specs.Masks.{bits_of};
ghost use Rattle.exb_relay.specs.SendsBySource.{is_hearer, kind_among};

use exb_config::Config;
use exb_config::members::Members;
use exb_model::port::PortId;
use exb_model::port_set::PortSet;
use exb_model::vlan::Kind;

/// The ports that hear a frame: the present members of its VLAN, of some chosen ports; an isolated
/// source isn't heard by isolated ports. The source itself may be among them. Only the words of
/// devices that are asked for are made.
#[derive(Clone, Copy)]
pub(crate) struct Hearers<'a> {
    pub config: &'a Config,
    /// The members of the frame's VLAN.
    pub members: &'a Members,
    pub chosen: &'a PortSet,
    /// Whether the source is isolated.
    pub isolated: bool,
}

impl Hearers<'_> {
    /// The hearers of a kind that a device has, 0 for the bridge: bit k - 1 is its port k.
    pub fn mask(&self, kind: Kind, device: u8) -> u64
        requires { device < 65 }
        ensures { result ≡ bits_of (λ j. is_hearer self.now kind (64 * device + j)) 64 }
    {
        let present = self.config.present_mask(device);
        let chosen = self.chosen.mask(device);
        let members = self.members.mask(kind, device);
        let there = present & chosen & members;
        if self.isolated {
            there & !self.config.isolated_mask(device)
        } else {
            there
        }
    }

    /// Whether a port is a hearer of a kind.
    fn has(&self, kind: Kind, port: PortId) -> bool
        ensures { result ≡ is_hearer self.now kind port }
    {
        (self.mask(kind, port.device()) >> port.place()) & 1 == 1
    }

    /// How a port other than the source gets the frame, if it hears it.
    pub fn target(&self, source: PortId, port: PortId) -> Option<Kind>
        ensures { result ≡ (if port == source then None
            else kind_among (is_hearer self.now Kind.Tagged) (is_hearer self.now Kind.Untagged)
            port) }
    {
        if port == source {
            None
        } else if self.has(Kind::Tagged, port) {
            Some(Kind::Tagged)
        } else if self.has(Kind::Untagged, port) {
            Some(Kind::Untagged)
        } else {
            None
        }
    }
}
