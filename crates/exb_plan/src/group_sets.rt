//! The sets of ports that need a group.
ghost use Rattle.std.specs.Prelude.{◌≡◌, ℕ, ◌+◌, ◌<◌, Bool, true, List, [], fold, flat_map, length, map, take, IfOk, OnOk};
ghost use Rattle.exb_model.specs.Ports.{port_in};
ghost use Rattle.exb_model.specs.Tree.{Shape};
ghost use Rattle.exb_model.specs.Refusals.{all_vids, both_kinds};
ghost use Rattle.exb_config.specs.Tables.{bridge_of};
ghost use Rattle.exb_plan.specs.Branches.{AreBranches, IsAmong};
ghost use Rattle.exb_control_spec.specs.Plans.Sets.{PortsAt, with_set_at, parts_below, sets_of, seen};

use crate::branches::Branches;
use crate::parts::put_kinds;
use exb_config::Config;
use exb_control_spec::SetAt;
use exb_model::memory::NoMemory;
use exb_model::port_set::PortSet;
use exb_model::tree::Tree;
use exb_model::vlan::Vid;
use indexmap::IndexSet;
use std::alloc::Global;

// Puts one set more, if it isn't empty and isn't there yet.
fn put_once(sets: &mut IndexSet<SetAt>, set: &SetAt) -> Result<(), NoMemory>
    ensures { OnOk result (map seen sets.new.keys ≡ with_set_at (map seen sets.old.keys)
        (seen set.now)) }
{
    if set.set.is_empty() {
        return Ok(());
    }
    sets.insert(*set)?;
    Ok(())
}

// Whether two sets are the same.
fn are_same(one: &SetAt, other: &SetAt) -> bool
    ensures { result ≡ true → seen one.now ≡ seen other.now }
{
    one.bridge_port == other.bridge_port && one.set.is_same(&other.set)
}

// Puts the set at a place, where those before it are put. One that is the same as the one before it
// is there already.
fn put_next(sets: &mut IndexSet<SetAt>, more: &[SetAt], place: usize) -> Result<(), NoMemory>
    requires { place < length more.now }
    ensures { (old : List PortsAt) → map seen sets.old.keys
        ≡ fold with_set_at old (map seen (take place more.now)) →
        OnOk result (map seen sets.new.keys ≡ fold with_set_at old
        (map seen (take (place + 1) more.now))) }
{
    let set = &more[place];
    if place > 0 {
        let before = &more[place - 1];
        if are_same(set, before) {
            return Ok(());
        }
    }
    put_once(sets, set)
}

// Puts each of these, in their order.
fn put_all_once(sets: &mut IndexSet<SetAt>, more: &[SetAt]) -> Result<(), NoMemory>
    ensures { OnOk result (map seen sets.new.keys ≡ fold with_set_at (map seen sets.old.keys)
        (map seen more.now)) }
{
    for place in 0..more.len() {
        put_next(sets, more, place)?;
    }
    Ok(())
}

/// Those of the sets that aren't empty, each once, where it comes first.
pub fn each_once(alloc: Global, sets: &[SetAt]) -> Result<Vec<SetAt>, NoMemory>
    ensures { IfOk result (λ made. map seen made.items ≡ fold with_set_at [] (map seen sets.now)) }
{
    let mut once = IndexSet::new(alloc);
    put_all_once(&mut once, sets)?;
    Ok(Vec::from_slice(alloc, once.as_slice())?)
}

// Puts the parts of a VLAN's members among some ports, the tagged ones before the untagged ones.
fn put_vlan(
    alloc: Global,
    sets: &mut IndexSet<SetAt>,
    branches: &Branches,
    config: &Config,
    vid: Vid,
    among: &PortSet,
) -> Result<(), NoMemory>
    ensures { (t : Shape) → (test : ℕ → Bool) → AreBranches t (bridge_of config.now)
        (λ k. true) branches.now → IsAmong t test among.now →
        OnOk result (map seen sets.new.keys ≡ fold with_set_at (map seen sets.old.keys)
        (flat_map (parts_below t (bridge_of config.now)) (both_kinds vid test))) }
{
    let mut parts = Vec::new(alloc);
    put_kinds(&mut parts, branches, config, vid, among)?;
    put_all_once(sets, parts.as_slice())
}

// Puts the parts of all VLANs.
fn put_vlans(
    alloc: Global,
    sets: &mut IndexSet<SetAt>,
    branches: &Branches,
    config: &Config,
) -> Result<(), NoMemory>
    ensures { (t : Shape) → AreBranches t (bridge_of config.now) (λ k. true) branches.now →
        OnOk result (map seen sets.new.keys ≡ fold with_set_at (map seen sets.old.keys)
        (flat_map (parts_below t (bridge_of config.now))
        (flat_map (λ v. both_kinds v (λ q. true)) all_vids))) }
{
    for number in 1..4095u16 {
        let vid = Vid::new(number).unwrap();
        if config.known(vid) {
            put_vlan(alloc, sets, branches, config, vid, &branches.extended)?;
        }
    }
    Ok(())
}

// Puts the parts of all static entries.
fn put_statics(
    alloc: Global,
    sets: &mut IndexSet<SetAt>,
    branches: &Branches,
    config: &Config,
) -> Result<(), NoMemory>
    ensures { (t : Shape) → AreBranches t (bridge_of config.now) (λ k. true) branches.now →
        OnOk result (map seen sets.new.keys ≡ fold with_set_at (map seen sets.old.keys)
        (flat_map (parts_below t (bridge_of config.now))
        (flat_map (λ e. both_kinds e.vid (port_in e.ports)) (bridge_of config.now).statics))) }
{
    for at in 0..u64::MAX {
        match config.static_at(at) {
            Some(entry) => {
                let among = branches.extended.both(&entry.ports);
                put_vlan(alloc, sets, branches, config, entry.vid, &among)?;
            }
            None => return Ok(()),
        }
    }
    Err(NoMemory)
}

// Puts the parts of all VLANs, and then of all static entries.
fn put_sources(
    alloc: Global,
    sets: &mut IndexSet<SetAt>,
    branches: &Branches,
    config: &Config,
) -> Result<(), NoMemory>
    ensures { (t : Shape) → AreBranches t (bridge_of config.now) (λ k. true) branches.now
        → sets.old.keys ≡ [] →
        OnOk result (map seen sets.new.keys ≡ sets_of t (bridge_of config.now)) }
{
    put_vlans(alloc, sets, branches, config)?;
    put_statics(alloc, sets, branches, config)
}

/// The sets of a configuration that need a group, each once: by VLAN and then static entry, tagged
/// before untagged, then by bridge port, and there the part before the part without its isolated
/// ports.
pub fn sets(alloc: Global, tree: &Tree, config: &Config) -> Result<Vec<SetAt>, NoMemory>
    ensures { IfOk result (λ made. map seen made.items ≡ sets_of tree.now (bridge_of config.now)) }
{
    let branches = Branches::new(tree, config);
    let mut sets = IndexSet::new(alloc);
    put_sources(alloc, &mut sets, &branches, config)?;
    Ok(Vec::from_slice(alloc, sets.as_slice())?)
}
