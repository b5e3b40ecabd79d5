//! Where each address was seen last in each VLAN.
ghost use Rattle.std.specs.Prelude.{◌≡◌, ◌+◌, ◌≤◌, ◌<◌, is_some, length, if◌then◌else◌};
ghost use Rattle.std.specs.List.{position_or_len};
ghost use Rattle.std.specs.Map.{keys_of, lookup};
ghost use Rattle.indexmap.specs.IndexMap.{insert_entry, spare, IsUnique};
ghost use Rattle.exb_learn.specs.Stations.{same, is_live};

use crate::key::StationKey;
use exb_model::port::PortId;
use indexmap::IndexMap;

/// Where a station was seen last, and when.
#[derive(Clone, Copy, PartialEq, Eq)]
pub struct DynamicEntry {
    pub port: PortId,
    /// The clock in seconds.
    pub at: u64,
}

/// The station was seen less than the ageing time ago.
pub fn is_live(place: &DynamicEntry, clock: u64, ageing: u32) -> bool
    ensures { result ≡ is_live clock ageing place.now }
{
    clock.saturating_sub(place.at) < u64::from(ageing)
}

/// Puts the place of a station, where there is room for one more. Answers the index of its entry
/// and the place that it had.
pub fn put_place(
    places: &mut IndexMap<StationKey, DynamicEntry>,
    station: StationKey,
    place: &DynamicEntry,
) -> (usize, Option<DynamicEntry>)
    requires spare { 1 ≤ spare places.old }
    requires unique { IsUnique same places.old }
    ensures entries { places.new.entries ≡ insert_entry same places.old.entries station place.now }
    ensures slot { result.0 ≡ position_or_len (same station) (keys_of places.old.entries) }
    ensures known { result.1 ≡ lookup (same station) places.old.entries }
    ensures len { length places.new.entries ≡ length places.old.entries
        + (if is_some result.1 then 0 else 1) }
    ensures spare { spare places.old ≤ spare places.new + (if is_some result.1 then 0 else 1) }
    ensures unique { IsUnique same places.new }
{
    match places.get_full(&station) {
        Some((slot, _, known)) => {
            let known = *known;
            places[slot] = *place;
            (slot, Some(known))
        }
        None => {
            let slot = places.len();
            places.insert(station, *place).unwrap();
            (slot, None)
        }
    }
}
