//! A configuration with a command that isn't carried out yet.
ghost use Rattle.std.specs.Prelude.{◌≡◌, ◌==◌, ◌&&◌, ℕ, if◌then◌else◌};
ghost use Rattle.exb_model.specs.Ports.{port_in};
ghost use Rattle.exb_model.specs.Configuration.{after, kind_in};
ghost use Rattle.exb_model.specs.Refusals.{is_kind};
ghost use Rattle.exb_config.specs.Tables.{bridge_of};

use crate::config_view::View;
use exb_config::Config;
use exb_model::command::Command;
use exb_model::port::PortId;
use exb_model::port_set::PortSet;
use exb_model::vlan::{Kind, Vid};

/// The configuration after a command, seen through the one before it.
#[derive(Clone, Copy)]
pub(crate) struct Pending<'a> {
    /// The configuration before the command.
    pub(crate) config: &'a Config,
    pub(crate) command: &'a Command,
}

// The set with a port in it or not.
fn with_port(set: &PortSet, port: PortId, there: bool) -> PortSet
    ensures { (q : ℕ) → port_in result q ≡ (if q == port then there else port_in set.now q) }
{
    let mut changed = *set;
    if there {
        changed.insert(port);
    } else {
        changed.remove(port);
    }
    changed
}

// Whether a port is a member in that kind.
fn is_of(kind: Kind, member: Option<Kind>) -> bool
    ensures { result ≡ is_kind kind member }
{
    match (kind, member) {
        (Kind::Tagged, Some(Kind::Tagged)) => true,
        (Kind::Untagged, Some(Kind::Untagged)) => true,
        _ => false,
    }
}

// The members in a kind, among some ports, of a VLAN that is set to these two sets.
fn in_lists(among: &PortSet, kind: Kind, tagged: &PortSet, untagged: &PortSet) -> PortSet
    ensures { (q : ℕ) → port_in result q
        ≡ (port_in among.now q && is_kind kind (kind_in tagged.now untagged.now q)) }
{
    match kind {
        Kind::Tagged => among.both(tagged).except(untagged),
        Kind::Untagged => among.both(untagged),
    }
}

// The present members of a VLAN in a kind, among some ports, after a port became a member or lost
// its membership of this VLAN, or not.
fn after_membership(
    config: &Config,
    command: &Command,
    vid: Vid,
    among: &PortSet,
    kind: Kind,
) -> PortSet
    ensures { (q : ℕ) → port_in result q ≡ ((bridge_of config.now).present q && port_in among.now q
        && is_kind kind ((after command.now (bridge_of config.now)).member vid q)) }
{
    let before = config.part(vid, among, kind);
    match *command {
        Command::Vlan {
            vid: of,
            tagged,
            untagged,
        } => {
            if vid.number() == of.number() {
                in_lists(
                    &config.present_ports().both(among),
                    kind,
                    &tagged,
                    &untagged,
                )
            } else {
                before
            }
        }
        Command::Member {
            vid: of,
            port,
            kind: new,
        } => {
            if vid.number() == of.number() {
                let there = config.present(port) && among.contains(port) && is_of(kind, Some(new));
                with_port(&before, port, there)
            } else {
                before
            }
        }
        Command::Unmember { vid: of, port } => {
            if vid.number() == of.number() {
                with_port(&before, port, false)
            } else {
                before
            }
        }
        _ => before,
    }
}

impl View for Pending<'_> {
    ghost bridge = { λ p. after p.command.now (bridge_of p.config.now) };

    fn isolated(&self) -> PortSet {
        match *self.command {
            Command::Isolate { port, on } => with_port(&self.config.isolated(), port, on),
            _ => self.config.isolated(),
        }
    }

    fn part(&self, vid: Vid, among: &PortSet, kind: Kind) -> PortSet {
        match *self.command {
            Command::Up { port } => {
                let before = self.config.part(vid, among, kind);
                let there = among.contains(port) && is_of(kind, self.config.member(vid, port));
                with_port(&before, port, there)
            }
            Command::Down { port } => {
                let before = self.config.part(vid, among, kind);
                with_port(&before, port, false)
            }
            _ => after_membership(self.config, self.command, vid, among, kind),
        }
    }
}
