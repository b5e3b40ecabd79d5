//! Forgetting what is dead, and what was seen at a port. Each costs what is taken out.
ghost use Rattle.std.specs.Prelude.{◌≡◌, IfSome, IfNone};
ghost use Rattle.exb_learn.specs.Stations.{is_live, is_elsewhere, AllPass, Keeps};
ghost use Rattle.exb_learn.specs.EntryRings.{IsDead};

use crate::entries::is_live;
use crate::store::EntryStore;
use exb_model::port::PortId;

// The slot of an entry that is dead; None exactly where all are live.
fn dead_slot(store: &EntryStore, clock: u64, ageing: u32) -> Option<usize>
    ensures some { IfSome result (λ slot. IsDead store.now.entries clock ageing slot) }
    ensures none { IfNone result (AllPass (is_live clock ageing) store.now.entries) }
{
    let slot = store.oldest()?;
    let place = store.place_at(slot)?;
    if is_live(&place, clock, ageing) {
        None
    } else {
        Some(slot)
    }
}

/// Takes out what is dead at this clock.
pub fn forget_dead(store: &mut EntryStore, clock: u64, ageing: u32)
    ensures kept { Keeps (is_live clock ageing) store.old.entries store.new.entries }
    ensures room { store.new.room ≡ store.old.room }
{
    while let Some(slot) = dead_slot(store, clock, ageing) {
        store.remove(slot);
    }
}

/// Takes out what was seen at a port.
pub fn forget_port(store: &mut EntryStore, port: PortId)
    ensures kept { Keeps (is_elsewhere port) store.old.entries store.new.entries }
    ensures room { store.new.room ≡ store.old.room }
{
    while let Some(slot) = store.first_at(port) {
        store.remove(slot);
    }
}
