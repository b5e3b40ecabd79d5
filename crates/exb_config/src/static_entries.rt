//! The static entries, in their order.
ghost use Rattle.std.specs.Prelude.{◌≡◌, [], not, filter, slice_get, option_copied, option_map, IfOk, OnOk, OnErr};
ghost use Rattle.exb_model.specs.Configuration.{is_for, put_static};
ghost use Rattle.exb_model.specs.Targets.{static_for};

use exb_model::address::Mac;
use exb_model::memory::NoMemory;
use exb_model::port_set::PortSet;
use exb_model::rules::StaticAt;
use exb_model::station::Station;
use exb_model::vlan::Vid;
use indexmap::IndexMap;
use std::alloc::Global;
use std::marker::Model;

/// The ports of each static entry, found by what the entry is for.
#[derive(Drop)]
pub struct StaticEntries {
    entries: IndexMap<Station, PortSet>,
}

impl Model for StaticEntries {
    ghost use Rattle.std.specs.Prelude.{List};
    ghost use Rattle.exb_model.specs.declared.rules.StaticAt.{StaticAt};

    ghost Value = { List StaticAt };

    ghost use Rattle.exb_config.specs.Rows.{statics_of};

    ghost view = { λ s. statics_of s.entries.entries };
}

impl StaticEntries {
    /// No entry.
    pub fn new(alloc: Global) -> StaticEntries
        ensures { result ≡ [] }
    {
        StaticEntries {
            entries: IndexMap::new(alloc),
        }
    }

    /// Equal entries.
    pub fn copy(&self) -> Result<StaticEntries, NoMemory>
        ensures { IfOk result (λ made. made ≡ self.now) }
    {
        Ok(StaticEntries {
            entries: self.entries.clone()?,
        })
    }

    /// The ports of the entry for an address in a VLAN.
    pub fn find(&self, vid: Vid, address: Mac) -> Option<&PortSet>
        ensures { option_copied result ≡ option_map (λ e. e.ports)
            (static_for self.now vid address.0) }
    {
        // Most configurations have no entry, and then nothing is hashed.
        if self.entries.is_empty() {
            return None;
        }
        self.entries.get(&Station { vid, address })
    }

    /// The entry at a place, counted from 0.
    pub fn at(&self, place: usize) -> Option<StaticAt>
        ensures { result ≡ slice_get self.now place }
    {
        let (destination, ports) = self.entries.get_index(place)?;
        Some(StaticAt {
            vid: destination.vid,
            address: destination.address,
            ports: *ports,
        })
    }

    /// The VLAN of the entry at a place, counted from 0.
    #[inline(always)]
    pub fn vid_at(&self, place: usize) -> Option<Vid>
        ensures { result ≡ option_map (λ e. e.vid) (slice_get self.now place) }
    {
        let (destination, _) = self.entries.get_index(place)?;
        Some(destination.vid)
    }

    /// Puts an entry. One that is there takes the new ports and keeps its place.
    pub fn put(&mut self, entry: StaticAt) -> Result<(), NoMemory>
        ensures ok { OnOk result (self.new ≡ put_static entry self.old) }
        ensures err { OnErr result (self.new ≡ self.old) }
    {
        let destination = Station {
            vid: entry.vid,
            address: entry.address,
        };
        self.entries.insert(destination, entry.ports)?;
        Ok(())
    }

    /// Removes the entry for an address in a VLAN, if there is one. The others keep their order.
    pub fn remove(&mut self, vid: Vid, address: Mac)
        ensures { self.new ≡ filter (λ e. not (is_for vid address.0 e)) self.old }
    {
        let destination = Station { vid, address };
        if let Some(place) = self.entries.get_index_of(&destination) {
            self.entries.shift_remove_index(place);
        }
    }
}
