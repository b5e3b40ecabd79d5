//! A configuration as the sets that need groups are cut out of it.
ghost use Rattle.std.specs.Prelude.{◌≡◌, ◌&&◌, ℕ};
ghost use Rattle.exb_model.specs.Ports.{port_in};
ghost use Rattle.exb_model.specs.Refusals.{is_kind};
ghost use Rattle.exb_config.specs.Tables.{bridge_of};

use exb_config::Config;
use exb_model::port_set::PortSet;
use exb_model::vlan::{Kind, Vid};

/// A view of a configuration: the one in force, or the one that a command will make of it.
/// Contracts speak of the bridge that is seen.
pub trait View {
    ghost use Rattle.exb_model.specs.Configuration.{Bridge};

    ghost bridge: { Self → Bridge };

    /// The isolated ports.
    fn isolated(&self) -> PortSet
        ensures { (q : ℕ) → port_in result q ≡ ((bridge self.now).rule q).isolated };

    /// The present members of a VLAN in a kind, among some ports.
    fn part(&self, vid: Vid, among: &PortSet, kind: Kind) -> PortSet
        ensures { (q : ℕ) → port_in result q
            ≡ ((bridge self.now).present q && port_in among.now q && is_kind kind
            ((bridge self.now).member vid q)) };
}

impl View for Config {
    ghost bridge = { bridge_of };

    fn isolated(&self) -> PortSet {
        Config::isolated(self)
    }

    fn part(&self, vid: Vid, among: &PortSet, kind: Kind) -> PortSet {
        Config::part(self, vid, among, kind)
    }
}
