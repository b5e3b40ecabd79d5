//! The configuration.
ghost use Rattle.std.specs.Prelude.{◌≡◌, ℕ, ◌+◌, ◌*◌, ◌<◌, ◌&&◌, is_some, slice_get, option_copied, option_map, IfOk, OnOk, OnErr};
ghost use Rattle.exb_model.specs.Masks.{bits_of};
ghost use Rattle.exb_model.specs.Ports.{port_in};
ghost use Rattle.exb_model.specs.Configuration.{after, empty_bridge, is_known};
ghost use Rattle.exb_model.specs.Targets.{static_for};
ghost use Rattle.exb_model.specs.Refusals.{is_kind};
ghost use Rattle.exb_config.specs.Pvids.{HasPvids, IsVlan};
ghost use Rattle.exb_config.specs.Rows.{kind_by};
ghost use Rattle.exb_config.specs.Tables.{bridge_of};

use crate::members::Members;
use crate::port_rules::PortRules;
use crate::static_entries::StaticEntries;
use crate::vlan_table::VlanTable;
use exb_model::address::Mac;
use exb_model::command::Command;
use exb_model::memory::NoMemory;
use exb_model::port::PortId;
use exb_model::port_set::PortSet;
use exb_model::rules::{Accept, PortRule, StaticAt};
use exb_model::vlan::{Kind, Vid};
use std::alloc::Global;
use std::marker::Model;

/// That a PVID is a VLAN, as a fact for whoever calls it. It does nothing.
fn names_vlan(command: &Command)
    ensures { (p v : ℕ) → command.now ≡ Command.Pvid p v → IsVlan v }
{
    if let Command::Pvid { vid, port: _ } = command {
        let _ = vid.number();
    }
}

/// The configuration of the bridge.
pub struct Config {
    present: PortSet,
    vlans: VlanTable,
    rules: PortRules,
    statics: StaticEntries,
}

impl Drop for Config {
    fn drop(self) {
        let Config {
            present: _,
            vlans: _,
            rules: _,
            statics: _,
        } = self;
    }
}

impl Model for Config {
    ghost use Rattle.exb_config.specs.Tables.{Tables};

    ghost Value = { Tables };

    ghost view = { λ c. record {
      present = c.present;
      vlans = c.vlans;
      rules = c.rules;
      statics = c.statics;
    } };
}

impl Config {
    /// Exactly these ports are present; PVID 1, all types, no filtering, no port isolated, no
    /// member and no entry.
    pub fn new(alloc: Global, present: &PortSet) -> Result<Config, NoMemory>
        ensures { IfOk result (λ made. bridge_of made ≡ empty_bridge (port_in present.now)) }
    {
        Ok(Config {
            present: *present,
            vlans: VlanTable::new(alloc)?,
            rules: PortRules::new(alloc)?,
            statics: StaticEntries::new(alloc),
        })
    }

    /// An equal configuration.
    pub fn copy(&self) -> Result<Config, NoMemory>
        ensures { IfOk result (λ made. made ≡ self.now) }
    {
        Ok(Config {
            present: self.present,
            vlans: self.vlans.copy()?,
            rules: self.rules.copy()?,
            statics: self.statics.copy()?,
        })
    }

    /// Does a command. After `NoMemory` the configuration is unchanged. The PVIDs stay VLANs.
    pub fn apply(&mut self, command: &Command) -> Result<(), NoMemory>
        ensures ok { OnOk result (bridge_of self.new ≡ after command.now (bridge_of self.old)) }
        ensures err { OnErr result (self.new ≡ self.old) }
        ensures pvids { HasPvids (bridge_of self.old) → HasPvids (bridge_of self.new) }
    {
        names_vlan(command);
        self.change(command)
    }

    /// Does a command. After `NoMemory` the configuration is unchanged.
    fn change(&mut self, command: &Command) -> Result<(), NoMemory>
        ensures ok { OnOk result (bridge_of self.new ≡ after command.now (bridge_of self.old)) }
        ensures err { OnErr result (self.new ≡ self.old) }
    {
        match *command {
            Command::Vlan {
                vid,
                tagged,
                untagged,
            } => self.set_vlan(vid, tagged, untagged)?,
            Command::Member { vid, port, kind } => self.set_member(vid, port, kind)?,
            Command::Unmember { vid, port } => self.unset_member(vid, port)?,
            Command::Pvid { port, vid } => self.set_pvid(port, vid),
            Command::Accept { port, accept } => self.set_accept(port, accept),
            Command::Filter { port, on } => self.set_filter(port, on),
            Command::Isolate { port, on } => self.set_isolated(port, on),
            Command::Static {
                vid,
                address,
                ports,
            } => self.set_static(StaticAt {
                vid,
                address,
                ports,
            })?,
            Command::Unstatic { vid, address } => self.unset_static(vid, address),
            Command::Up { port } => self.set_up(port),
            Command::Down { port } => self.set_down(port),
        }
        Ok(())
    }

    /// How a port is a member of a VLAN; None exactly where it isn't one.
    #[tactic(auto, unfolding(crate::specs::Tables::bridge_of))]
    pub fn member(&self, vid: Vid, port: PortId) -> Option<Kind>
        ensures { result ≡ (bridge_of self.now).member vid port }
    {
        self.vlans.kind(vid, port)
    }

    /// Whether a port is present.
    #[tactic(auto, unfolding(crate::specs::Tables::bridge_of))]
    pub fn present(&self, port: PortId) -> bool
        ensures { result ≡ (bridge_of self.now).present port }
    {
        self.present.contains(port)
    }

    /// The present ports.
    #[tactic(auto, unfolding(crate::specs::Tables::bridge_of))]
    pub fn present_ports(&self) -> PortSet
        ensures { (q : ℕ) → port_in result q ≡ (bridge_of self.now).present q }
    {
        self.present
    }

    /// The rule of a port.
    #[tactic(auto, unfolding(crate::specs::Tables::bridge_of))]
    pub fn rule(&self, port: PortId) -> PortRule
        ensures { result ≡ (bridge_of self.now).rule port }
    {
        self.rules.rule(port)
    }

    /// Whether a VLAN is in the table: it has a member, present or not.
    pub fn known(&self, vid: Vid) -> bool
        ensures { result ≡ is_known (bridge_of self.now) vid }
    {
        self.vlans.is_known(vid)
    }

    /// The members of a VLAN, present or not; None exactly where the VLAN isn't in the table.
    pub fn members(&self, vid: Vid) -> Option<&Members>
        ensures kinds { (q : ℕ) → kind_by (option_copied result) q
            ≡ (bridge_of self.now).member vid q }
        ensures known { is_some (option_copied result) ≡ is_known (bridge_of self.now) vid }
    {
        self.vlans.row(vid)
    }

    /// The present ports of a device, 0 for the bridge: bit k - 1 is its port k.
    #[tactic(auto, unfolding(crate::specs::Tables::bridge_of))]
    pub fn present_mask(&self, device: u8) -> u64
        requires { device < 65 }
        ensures { result ≡ bits_of (λ j. (bridge_of self.now).present (64 * device + j)) 64 }
    {
        self.present.mask(device)
    }

    /// The isolated ports of a device, 0 for the bridge: bit k - 1 is its port k.
    #[tactic(auto, unfolding(crate::specs::Tables::bridge_of))]
    pub fn isolated_mask(&self, device: u8) -> u64
        requires { device < 65 }
        ensures { result ≡ bits_of (λ j. ((bridge_of self.now).rule (64 * device + j)).isolated)
            64 }
    {
        self.rules.isolated_mask(device)
    }

    /// The isolated ports.
    #[tactic(auto, unfolding(crate::specs::Tables::bridge_of))]
    pub fn isolated(&self) -> PortSet
        ensures { (q : ℕ) → port_in result q ≡ ((bridge_of self.now).rule q).isolated }
    {
        self.rules.isolated()
    }

    /// The ports of the static entry for an address in a VLAN; None exactly where there is no such
    /// entry.
    #[tactic(auto, unfolding(crate::specs::Tables::bridge_of))]
    pub fn entry(&self, vid: Vid, address: Mac) -> Option<&PortSet>
        ensures { option_copied result ≡ option_map (λ e. e.ports)
            (static_for (bridge_of self.now).statics vid address.0) }
    {
        self.statics.find(vid, address)
    }

    /// The static entry at a place in their order, counted from 0; None exactly where there is none
    /// at it.
    #[tactic(auto, unfolding(crate::specs::Tables::bridge_of))]
    pub fn static_at(&self, at: u64) -> Option<StaticAt>
        ensures { result ≡ slice_get (bridge_of self.now).statics at }
    {
        self.statics.at(at as usize)
    }

    /// The VLAN of the static entry at a place in their order, counted from 0; None exactly where
    /// there is none at it.
    #[tactic(auto, unfolding(crate::specs::Tables::bridge_of))]
    #[inline(always)]
    pub fn static_vid(&self, at: u64) -> Option<Vid>
        ensures { result ≡ option_map (λ e. e.vid) (slice_get (bridge_of self.now).statics at) }
    {
        self.statics.vid_at(at as usize)
    }

    /// The present members of a VLAN in a kind, among some ports.
    #[tactic(auto, unfolding(crate::specs::Tables::bridge_of))]
    pub fn part(&self, vid: Vid, among: &PortSet, kind: Kind) -> PortSet
        ensures { (q : ℕ) → port_in result q
            ≡ ((bridge_of self.now).present q && port_in among.now q
            && is_kind kind ((bridge_of self.now).member vid q)) }
    {
        let members = self.vlans.members(vid).of_kind(kind);
        self.present.both(among).both(&members)
    }

    fn set_vlan(&mut self, vid: Vid, tagged: PortSet, untagged: PortSet) -> Result<(), NoMemory>
        ensures ok { OnOk result (bridge_of self.new ≡ after (Command.Vlan vid tagged untagged)
            (bridge_of self.old)) }
        ensures err { OnErr result (self.new ≡ self.old) }
    {
        self.vlans.put(vid, Members { tagged, untagged })
    }

    fn set_member(&mut self, vid: Vid, port: PortId, kind: Kind) -> Result<(), NoMemory>
        ensures ok { OnOk result (bridge_of self.new ≡ after (Command.Member vid port kind)
            (bridge_of self.old)) }
        ensures err { OnErr result (self.new ≡ self.old) }
    {
        let members = self.vlans.members(vid).with(port, kind);
        self.vlans.put(vid, members)
    }

    fn unset_member(&mut self, vid: Vid, port: PortId) -> Result<(), NoMemory>
        ensures ok { OnOk result (bridge_of self.new ≡ after (Command.Unmember vid port)
            (bridge_of self.old)) }
        ensures err { OnErr result (self.new ≡ self.old) }
    {
        let members = self.vlans.members(vid).without(port);
        self.vlans.put(vid, members)
    }

    fn set_pvid(&mut self, port: PortId, vid: Vid)
        ensures { bridge_of self.new ≡ after (Command.Pvid port vid) (bridge_of self.old) }
    {
        let mut rule = self.rules.rule(port);
        rule.pvid = vid;
        self.rules.put(port, rule);
    }

    fn set_accept(&mut self, port: PortId, accept: Accept)
        ensures { bridge_of self.new ≡ after (Command.Accept port accept) (bridge_of self.old) }
    {
        let mut rule = self.rules.rule(port);
        rule.accept = accept;
        self.rules.put(port, rule);
    }

    fn set_filter(&mut self, port: PortId, on: bool)
        ensures { bridge_of self.new ≡ after (Command.Filter port on) (bridge_of self.old) }
    {
        let mut rule = self.rules.rule(port);
        rule.filter = on;
        self.rules.put(port, rule);
    }

    fn set_isolated(&mut self, port: PortId, on: bool)
        ensures { bridge_of self.new ≡ after (Command.Isolate port on) (bridge_of self.old) }
    {
        let mut rule = self.rules.rule(port);
        rule.isolated = on;
        self.rules.put(port, rule);
    }

    #[tactic(auto, unfolding(crate::specs::Tables::bridge_of))]
    fn set_static(&mut self, entry: StaticAt) -> Result<(), NoMemory>
        ensures ok { OnOk result (bridge_of self.new
            ≡ after (Command.Static entry.vid entry.address entry.ports) (bridge_of self.old)) }
        ensures err { OnErr result (self.new ≡ self.old) }
    {
        self.statics.put(entry)
    }

    #[tactic(auto, unfolding(crate::specs::Tables::bridge_of))]
    fn unset_static(&mut self, vid: Vid, address: Mac)
        ensures { bridge_of self.new ≡ after (Command.Unstatic vid address) (bridge_of self.old) }
    {
        self.statics.remove(vid, address);
    }

    fn set_up(&mut self, port: PortId)
        ensures { bridge_of self.new ≡ after (Command.Up port) (bridge_of self.old) }
    {
        self.present.insert(port);
    }

    fn set_down(&mut self, port: PortId)
        ensures { bridge_of self.new ≡ after (Command.Down port) (bridge_of self.old) }
    {
        self.present.remove(port);
    }
}
