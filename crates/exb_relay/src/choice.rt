//! How the ports of a frame are chosen.
ghost use Rattle.std.specs.Prelude.{◌≡◌, if◌then◌else◌, None};
ghost use Rattle.exb_model.specs.Frames.{is_group};
ghost use Rattle.exb_learn.specs.Entries.{look_of};

use exb_learn::Learned;
use exb_model::address::Mac;
use exb_model::port::PortId;
use exb_model::port_set::PortSet;
use exb_model::vlan::Vid;

/// The ports of which the targets of a frame are taken (IEEE 802.1Q, clause 8.6): those of a static
/// entry, else the learned port of its destination, else all. Contracts speak of it; no frame makes
/// one.
#[derive(Clone, Copy)]
pub enum EgressChoice {
    All,
    Listed(PortSet),
    Learned(PortId),
}

/// The port that was learned for an individual address; none for a group's.
pub(crate) fn learned_port(learned: &Learned, vid: Vid, address: Mac) -> Option<PortId>
    ensures { result ≡ (if is_group address.0 then None else look_of learned.now vid address.0) }
{
    if address.is_group() {
        None
    } else {
        learned.look(vid, address)
    }
}
