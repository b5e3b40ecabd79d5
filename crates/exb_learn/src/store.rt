//! The places of all stations, by age and by port.
ghost use Rattle.std.specs.Prelude.{◌≡◌, ◌≤◌, ◌<◌, [], length, slice_get, Some, OnOk, OnErr, IfSome, IfNone, option_map};
ghost use Rattle.std.specs.List.{IsDistinct};
ghost use Rattle.std.specs.Map.{keys_of, lookup};
ghost use Rattle.exb_learn.specs.Stations.{same, is_elsewhere, AllPass, Changes, IsTaken, IsUntil};
ghost use Rattle.exb_learn.specs.EntryRings.{IsOldest, IsSeenAt};

use crate::entries::{DynamicEntry, put_place};
use crate::key::StationKey;
use crate::slots::Slots;
use exb_model::memory::NoMemory;
use exb_model::port::PortId;
use indexmap::IndexMap;
use std::alloc::Global;
use std::marker::Model;

/// Where each station was seen last. The slot of a station is the index of its entry.
#[derive(Drop)]
pub struct EntryStore {
    places: IndexMap<StationKey, DynamicEntry>,
    slots: Slots,
    // how many more entries there is room for, by the last `reserve`
    room: usize,
}

impl Model for EntryStore {
    ghost use Rattle.indexmap.specs.IndexMap.{spare};
    ghost use Rattle.exb_learn.specs.EntryRings.{Stored, IsStored};

    ghost Value = { Stored };

    ghost view = { λ s. record { entries = s.places.entries; room = s.room } };

    ghost invariant = { λ s. IsStored s.places.entries s.room (spare s.places) s.slots.ages
        s.slots.ports };
}

impl EntryStore {
    /// No entry, and room for none.
    pub fn new(alloc: Global) -> EntryStore
        ensures entries { result.entries ≡ [] }
        ensures room { result.room ≡ 0 }
    {
        EntryStore {
            places: IndexMap::new(alloc),
            slots: Slots::new(alloc),
            room: 0,
        }
    }

    /// Makes room for one more entry, where there is none.
    #[inline(always)]
    pub fn reserve(&mut self) -> Result<(), NoMemory>
        ensures ok { OnOk result (1 ≤ self.new.room) }
        ensures err { OnErr result (self.new ≡ self.old) }
        ensures entries { self.new.entries ≡ self.old.entries }
    {
        if self.room > 0 {
            Ok(())
        } else {
            self.make_room()
        }
    }

    /// Makes room for one more entry.
    #[cold]
    #[inline(never)]
    fn make_room(&mut self) -> Result<(), NoMemory>
        ensures ok { OnOk result (1 ≤ self.new.room) }
        ensures err { OnErr result (self.new ≡ self.old) }
        ensures entries { self.new.entries ≡ self.old.entries }
    {
        self.places.reserve(1)?;
        let slots = self.places.capacity();
        self.slots.reserve(slots)?;
        self.room = slots - self.places.len();
        Ok(())
    }

    /// For how many more entries there is room.
    pub fn room(&self) -> usize
        ensures { result ≡ self.now.room }
    {
        self.room
    }

    /// How many entries there are.
    pub fn len(&self) -> usize
        ensures len { result ≡ length self.now.entries }
        ensures once { IsDistinct same (keys_of self.now.entries) }
    {
        self.places.len()
    }

    /// Where a station was seen last.
    #[inline(always)]
    pub fn place(&self, station: &StationKey) -> Option<DynamicEntry>
        ensures { result ≡ lookup (same station.now) self.now.entries }
    {
        self.places.get(station).copied()
    }

    /// Puts the place of a station, which was seen no earlier than all others. Nothing is written
    /// where it has that place already.
    #[inline(always)]
    pub fn put(&mut self, station: StationKey, place: DynamicEntry)
        requires room { 1 ≤ self.old.room }
        requires latest { IsUntil place.at self.old.entries }
        ensures updates { Changes self.old.entries self.new.entries station (Some place) }
    {
        match self.place(&station) {
            Some(known) if known == place => {}
            _ => self.put_anew(station, place),
        }
    }

    /// Puts the place of a station that had none, or another one.
    #[cold]
    #[inline(never)]
    fn put_anew(&mut self, station: StationKey, place: DynamicEntry)
        requires room { 1 ≤ self.old.room }
        requires latest { IsUntil place.at self.old.entries }
        ensures updates { Changes self.old.entries self.new.entries station (Some place) }
    {
        let held = self.places.len();
        let (slot, known) = put_place(&mut self.places, station, &place);
        self.room -= self.places.len() - held;
        self.slots.put(slot, &known, &place);
    }

    /// The place that the entry with a slot has.
    pub fn place_at(&self, slot: usize) -> Option<DynamicEntry>
        ensures { result ≡ option_map (λ e. e.1) (slice_get self.now.entries slot) }
    {
        let (_, place) = self.places.get_index(slot)?;
        Some(*place)
    }

    /// The slot of a station that was seen no later than all others; None exactly where there is no
    /// entry.
    pub fn oldest(&self) -> Option<usize>
        ensures some { IfSome result (λ slot. IsOldest self.now.entries slot) }
        ensures none { IfNone result (self.now.entries ≡ []) }
    {
        self.slots.oldest()
    }

    /// A slot of what was seen at a port; None exactly where nothing was.
    pub fn first_at(&self, port: PortId) -> Option<usize>
        ensures some { IfSome result (λ slot. IsSeenAt self.now.entries port slot) }
        ensures none { IfNone result (AllPass (is_elsewhere port) self.now.entries) }
    {
        self.slots.first_at(port)
    }

    /// Takes out the entry with a slot. The last entry gets its slot.
    pub fn remove(&mut self, slot: usize)
        requires { slot < length self.old.entries }
        ensures taken { IfSome (slice_get self.old.entries slot) (λ e.
            IsTaken self.old.entries self.new.entries e) }
        ensures room { self.new.room ≡ self.old.room }
    {
        self.places.swap_remove_index(slot).unwrap();
        let last = self.places.len();
        self.slots.remove(slot, last);
    }
}
