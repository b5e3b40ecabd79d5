//! The chosen ports of a frame, and whether one of them gets it.
ghost use Rattle.std.specs.Prelude.{◌≡◌, ℕ, ◌<◌, true};
ghost use Rattle.exb_model.specs.Ports.{port_in};
ghost use Rattle.exb_config.specs.Tables.{bridge_of};
ghost use Rattle.exb_relay.specs.SendsBySource.{kind_at, AreMembers};

use crate::source::Passed;
use exb_config::Config;
use exb_model::port::PortId;
use exb_model::port_set::PortSet;
use exb_model::vlan::Kind;

/// Every port that there can be.
pub(crate) fn every_port() -> PortSet
    ensures { (q : ℕ) → q < 4160 → port_in result q ≡ true }
{
    PortSet {
        words: [u64::MAX; 65],
    }
}

/// How a chosen port gets a frame that passed, if it does: it is another port than the frame's,
/// present and a member, and the two aren't both isolated.
pub(crate) fn kind_at(config: &Config, passed: &Passed, port: PortId) -> Option<Kind>
    requires { AreMembers (bridge_of config.now) passed.now.vid passed.now.members.now }
    ensures { result ≡ kind_at (bridge_of config.now) passed.now.source.port passed.now.vid port }
{
    let source = passed.source.port;
    let apart = config.rule(source).isolated && config.rule(port).isolated;
    if config.present(port) && port != source && !apart {
        passed.members.kind(port)
    } else {
        None
    }
}
