//! The learned entries.
ghost use Rattle.std.specs.Prelude.{◌≡◌, ℕ, ◌+◌, ◌<◌, ◌≤◌, ◌^◌, false, OnOk, OnErr};
ghost use Rattle.exb_model.specs.Frames.{is_group};
ghost use Rattle.exb_learn.specs.Entries.{table_of, look_of};
ghost use Rattle.exb_learn.specs.Calls.{See, Tick, Forget, empty_table, after_call};
ghost use Rattle.exb_learn.specs.Counts.{HasLive};

use crate::ageing::{forget_dead, forget_port};
use crate::entries::DynamicEntry;
use crate::key::StationKey;
use crate::store::EntryStore;
use exb_model::address::Mac;
use exb_model::memory::NoMemory;
use exb_model::port::PortId;
use exb_model::vlan::Vid;
use std::alloc::Global;
use std::marker::Model;

/// Where each address was seen last in each VLAN, with a clock in seconds. It holds live entries
/// alone.
pub struct Learned {
    store: EntryStore,
    clock: u64,
    ageing: u32,
}

impl Drop for Learned {
    fn drop(self) {
        let Learned {
            store: _,
            clock: _,
            ageing: _,
        } = self;
    }
}

impl Model for Learned {
    ghost use Rattle.exb_learn.specs.Stations.{IsUntil};
    ghost use Rattle.exb_learn.specs.Entries.{Entries};

    ghost Value = { Entries };

    ghost view = { λ l. record {
      entries = l.store.entries;
      clock = l.clock;
      ageing = l.ageing;
      spare = l.store.room;
    } };

    ghost invariant = { λ l. IsUntil l.clock l.store.entries };
}

impl Learned {
    /// Nothing is learned. Entries live for less than `ageing` seconds; with 0 nothing is ever
    /// learned.
    #[tactic(auto, unfolding(crate::specs::Entries::table_of))]
    pub fn new(alloc: Global, ageing: u32) -> Learned
        ensures table { table_of result ≡ empty_table ageing }
        ensures clock { result.clock ≡ 0 }
    {
        Learned {
            store: EntryStore::new(alloc),
            clock: 0,
            ageing,
        }
    }

    /// Makes room for one more entry. Nothing that is learned changes.
    #[tactic(auto, unfolding(crate::specs::Entries::table_of))]
    #[inline(always)]
    pub fn reserve(&mut self) -> Result<(), NoMemory>
        ensures ok { OnOk result (1 ≤ self.new.spare) }
        ensures err { OnErr result (self.new ≡ self.old) }
        ensures table { table_of self.new ≡ table_of self.old }
        ensures clock { self.new.clock ≡ self.old.clock }
    {
        self.store.reserve()
    }

    /// The seconds that have passed.
    pub fn clock(&self) -> u64
        ensures { result ≡ self.now.clock }
    {
        self.clock
    }

    /// For how many new entries room is kept: what the last `reserve` found, less what was put
    /// since.
    pub fn spare(&self) -> u64
        ensures { result ≡ self.now.spare }
    {
        self.store.room() as u64
    }

    /// An individual address was seen in a VLAN at a port, now.
    #[inline(always)]
    pub fn see(&mut self, vid: Vid, address: Mac, port: PortId)
        requires spare { 1 ≤ self.old.spare }
        requires individual { is_group address.0 ≡ false }
        ensures table { table_of self.new ≡ after_call (See vid address.0 port)
            (table_of self.old) }
        ensures clock { self.new.clock ≡ self.old.clock }
    {
        let place = DynamicEntry {
            port,
            at: self.clock,
        };
        if self.ageing > 0 {
            self.store.put(StationKey { vid, address }, place);
        }
    }

    /// The port at which an address was seen last in a VLAN; None exactly where it wasn't, where
    /// that was the ageing time or more ago, or where that port was forgotten since.
    #[tactic(auto, unfolding(crate::specs::Entries::table_of))]
    #[inline(always)]
    pub fn look(&self, vid: Vid, address: Mac) -> Option<PortId>
        ensures { result ≡ look_of self.now vid address.0 }
    {
        let place = self.store.place(&StationKey { vid, address })?;
        Some(place.port)
    }

    /// The number of entries that the table keeps, which is that of live entries.
    pub fn held(&self) -> u64
        ensures { HasLive (table_of self.now) result }
    {
        self.store.len() as u64
    }

    /// So many seconds go by, and what dies is taken out. The clock stays below 2^63.
    #[tactic(auto, unfolding(crate::specs::Entries::table_of))]
    pub fn tick(&mut self, seconds: u32)
        requires { self.old.clock + seconds < 2 ^ 63 }
        ensures table { table_of self.new ≡ after_call (Tick seconds) (table_of self.old) }
        ensures clock { self.new.clock ≡ self.old.clock + seconds }
        ensures spare { self.new.spare ≡ self.old.spare }
    {
        self.clock += u64::from(seconds);
        forget_dead(&mut self.store, self.clock, self.ageing);
    }

    /// Forgets what was seen at a port.
    pub fn forget(&mut self, port: PortId)
        ensures table { table_of self.new ≡ after_call (Forget port) (table_of self.old) }
        ensures clock { self.new.clock ≡ self.old.clock }
        ensures spare { self.new.spare ≡ self.old.spare }
    {
        forget_port(&mut self.store, port);
    }
}
