//! The slots of entries, by age and by port.
ghost use Rattle.std.specs.Prelude.{◌≡◌, ◌<◌, ℕ, List, [], slice_get, Some, OnOk, IfSome, IfNone};
ghost use Rattle.std.specs.List.{swap_remove};
ghost use Rattle.indexmap.specs.IndexMap.{insert_entry};
ghost use Rattle.exb_learn.specs.declared.key.StationKey.{StationKey};
ghost use Rattle.exb_learn.specs.declared.entries.DynamicEntry.{DynamicEntry};
ghost use Rattle.exb_learn.specs.RingLinks.{links_of, room_of, moved_if, removed, IsNow};
ghost use Rattle.exb_learn.specs.Stations.{same, is_elsewhere, AllPass};
ghost use Rattle.exb_learn.specs.EntryRings.{IsSlotted, IsPutting, IsRemoving, IsOldest, IsSeenAt};

use crate::entries::DynamicEntry;
use crate::rings::Rings;
use exb_model::memory::NoMemory;
use exb_model::port::{PORTS, PortId};
use std::alloc::Global;

/// The slots of entries: all in one ring in the order in which they were seen, and each in the ring
/// of its port.
#[derive(Drop)]
pub struct Slots {
    pub ages: Rings,
    pub ports: Rings,
}

impl Slots {
    /// No slot, and room for none.
    pub fn new(alloc: Global) -> Slots
        ensures { (es : List (StationKey × DynamicEntry)) → es ≡ []
            → IsSlotted es 0 result.ages result.ports }
    {
        Slots {
            ages: Rings::new(alloc, 1),
            ports: Rings::new(alloc, usize::from(PORTS)),
        }
    }

    /// Makes room for so many slots.
    pub fn reserve(&mut self, slots: usize) -> Result<(), NoMemory>
        ensures kept { (es : List (StationKey × DynamicEntry)) (n : ℕ)
            → IsSlotted es n self.old.ages self.old.ports
            → IsSlotted es n self.new.ages self.new.ports }
        ensures ok { OnOk result ((es : List (StationKey × DynamicEntry)) (n : ℕ)
            → IsSlotted es n self.old.ages self.old.ports
            → IsSlotted es slots self.new.ages self.new.ports) }
    {
        self.ages.reserve(slots)?;
        self.ports.reserve(slots)
    }

    /// A station of which this was known is seen at a place, and has this slot.
    pub fn put(&mut self, slot: usize, known: &Option<DynamicEntry>, place: &DynamicEntry)
        requires { (es : List (StationKey × DynamicEntry))
            × ((s : StationKey) × ((n : ℕ) × IsPutting es s n self.old.ages self.old.ports slot
            known.now place.now)) }
        ensures { (es : List (StationKey × DynamicEntry)) (s : StationKey) (n : ℕ)
            → IsPutting es s n self.old.ages self.old.ports slot known.now place.now
            → IsSlotted (insert_entry same es s place.now) n self.new.ages self.new.ports }
    {
        let port = usize::from(place.port.number());
        match known {
            Some(known) => {
                move_if(&mut self.ages, known.at != place.at, 0, slot);
                move_if(&mut self.ports, known.port != place.port, port, slot);
            }
            None => {
                self.ages.put(0, slot);
                self.ports.put(port, slot);
            }
        }
    }

    /// The entry with a slot is taken out, and the one with the slot `last`, which is the last,
    /// gets its slot.
    pub fn remove(&mut self, slot: usize, last: usize)
        requires { (es : List (StationKey × DynamicEntry))
            × ((n : ℕ) × IsRemoving es n self.old.ages self.old.ports slot last) }
        ensures { (es : List (StationKey × DynamicEntry)) (n : ℕ) (e : StationKey × DynamicEntry)
            → IsRemoving es n self.old.ages self.old.ports slot last → slice_get es slot ≡ Some e
            → IsSlotted (swap_remove es slot e) n self.new.ages self.new.ports }
    {
        remove(&mut self.ages, slot, last);
        remove(&mut self.ports, slot, last);
    }

    /// The slot of what was seen no later than all others; None exactly where there is nothing.
    pub fn oldest(&self) -> Option<usize>
        ensures some { (es : List (StationKey × DynamicEntry)) (n : ℕ)
            → IsSlotted es n self.now.ages self.now.ports
            → IfSome result (λ slot. IsOldest es slot) }
        ensures none { (es : List (StationKey × DynamicEntry)) (n : ℕ)
            → IsSlotted es n self.now.ages self.now.ports → IfNone result (es ≡ []) }
    {
        self.ages.first(0)
    }

    /// A slot of what was seen at a port; None exactly where nothing was.
    pub fn first_at(&self, port: PortId) -> Option<usize>
        ensures some { (es : List (StationKey × DynamicEntry)) (n : ℕ)
            → IsSlotted es n self.now.ages self.now.ports
            → IfSome result (λ slot. IsSeenAt es port slot) }
        ensures none { (es : List (StationKey × DynamicEntry)) (n : ℕ)
            → IsSlotted es n self.now.ages self.now.ports
            → IfNone result (AllPass (is_elsewhere port) es) }
    {
        self.ports.first(usize::from(port.number()))
    }
}

// Puts a slot behind all others of a ring, if it moves; else it stays where it is.
fn move_if(rings: &mut Rings, moves: bool, ring: usize, slot: usize)
    requires ring { ring < rings.old.heads }
    requires slot { slot < room_of rings.old }
    ensures { IsNow rings.old rings.new (moved_if rings.old moves ring slot) }
{
    if moves {
        rings.move_to(ring, slot);
    }
}

// Takes a slot out of its ring. The last slot gets its number.
fn remove(rings: &mut Rings, slot: usize, last: usize)
    requires slot { slot < room_of rings.old }
    requires last { last < room_of rings.old }
    ensures { IsNow rings.old rings.new (removed rings.old.heads (links_of rings.old) slot last) }
{
    if slot == last {
        rings.remove(slot);
    } else {
        rings.replace(slot, last);
    }
}
