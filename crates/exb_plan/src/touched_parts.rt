//! The parts that a command touches.
ghost use Rattle.std.specs.Prelude.{◌≡◌, ℕ, ◌≤◌, Bool, true, false, List, Some, if◌then◌else◌, [], filter, flat_map, map, slice_get, IfOk, OnOk};
ghost use Rattle.exb_model.specs.Ports.{port_in};
ghost use Rattle.exb_model.specs.Tree.{Shape};
ghost use Rattle.exb_model.specs.Configuration.{is_for};
ghost use Rattle.exb_model.specs.Refusals.{both_kinds};
ghost use Rattle.exb_config.specs.Tables.{bridge_of};
ghost use Rattle.exb_plan.specs.Branches.{AreBranches, IsAmong};
ghost use Rattle.exb_plan.specs.Parts.{has_ports, Adds};
ghost use Rattle.exb_control_spec.specs.declared.plan.set_at.SetAt.{SetAt};
ghost use Rattle.exb_control_spec.specs.Plans.Sets.{seen};
ghost use Rattle.exb_control_spec.specs.Plans.TouchedParts.{has_port, sources_of_entry, touched_before, touched_after, parts_before as parts_touched_before, parts_after as parts_touched_after};
ghost use Rattle.exb_plan.specs.TouchedSources.{is_of, sources_of_vlans, vlans_touched, entry_touched};

use crate::branches::Branches;
use crate::config_view::View;
use crate::parts::{put_kind, put_kinds};
use crate::pending_config::Pending;
use exb_config::Config;
use exb_control_spec::SetAt;
use exb_model::address::Mac;
use exb_model::command::Command;
use exb_model::memory::NoMemory;
use exb_model::port::PortId;
use exb_model::port_set::PortSet;
use exb_model::rules::StaticAt;
use exb_model::tree::Tree;
use exb_model::vlan::Vid;
use std::alloc::Global;

/// Room for so many parts is taken at once.
const FEW: usize = 64;

// Puts the parts of a VLAN's members among some ports, in the kind in which a port of these is a
// member. It is asked of each VLAN, of which most have no such part.
#[inline(always)]
fn add_kind_with<V: View>(
    parts: &mut Vec<SetAt>,
    branches: &Branches,
    view: &V,
    config: &Config,
    vid: Vid,
    among: &PortSet,
    port: PortId,
) -> Result<(), NoMemory>
    ensures { (t : Shape) → (here test : ℕ → Bool)
        → AreBranches t (V.bridge view.now) here branches.now →
        IsAmong t test among.now → test port ≡ true →
        OnOk result (Adds t (V.bridge view.now) here
        (filter (has_port (bridge_of config.now) port) (both_kinds vid test)) parts.old.items
        parts.new.items) }
{
    match config.member(vid, port) {
        Some(kind) => put_kind(parts, branches, view, vid, among, kind),
        None => Ok(()),
    }
}

/// Parts before a command and after it.
#[derive(Drop)]
pub struct Parts {
    pub before: Vec<SetAt>,
    pub later: Vec<SetAt>,
}

// Puts the parts of a VLAN's members in the kind in which a port is one of them, as they are before
// a command and after it.
#[inline(always)]
fn add_vlan_with<V: View>(
    parts: &mut Parts,
    branches: &Branches,
    branches_later: &Branches,
    view: &V,
    config: &Config,
    vid: Vid,
    port: PortId,
) -> Result<(), NoMemory>
    ensures before { (t : Shape) → (here : ℕ → Bool)
        → AreBranches t (bridge_of config.now) here branches.now →
        OnOk result (Adds t (bridge_of config.now) here
        (filter (has_port (bridge_of config.now) port) (both_kinds vid (λ q. true)))
        parts.old.before.items parts.new.before.items) }
    ensures later { (t : Shape) → (here : ℕ → Bool)
        → AreBranches t (V.bridge view.now) here branches_later.now →
        OnOk result (Adds t (V.bridge view.now) here
        (filter (has_port (bridge_of config.now) port) (both_kinds vid (λ q. true)))
        parts.old.later.items parts.new.later.items) }
{
    let all = &branches.extended;
    add_kind_with(&mut parts.before, branches, config, config, vid, all, port)?;
    let all = &branches_later.extended;
    add_kind_with(
        &mut parts.later,
        branches_later,
        view,
        config,
        vid,
        all,
        port,
    )?;
    Ok(())
}

// Puts the parts of all VLANs in the kind in which a port is their member, as they are before a
// command and after it: so the VLANs are gone through once.
fn add_vlans_with<V: View>(
    parts: &mut Parts,
    branches: &Branches,
    branches_later: &Branches,
    view: &V,
    config: &Config,
    port: PortId,
) -> Result<(), NoMemory>
    ensures before { (t : Shape) → (here : ℕ → Bool)
        → AreBranches t (bridge_of config.now) here branches.now →
        OnOk result (Adds t (bridge_of config.now) here
        (filter (has_port (bridge_of config.now) port) sources_of_vlans) parts.old.before.items
        parts.new.before.items) }
    ensures later { (t : Shape) → (here : ℕ → Bool)
        → AreBranches t (V.bridge view.now) here branches_later.now →
        OnOk result (Adds t (V.bridge view.now) here
        (filter (has_port (bridge_of config.now) port) sources_of_vlans) parts.old.later.items
        parts.new.later.items) }
{
    for number in 1..4095u16 {
        let vid = Vid::new(number).unwrap();
        add_vlan_with(parts, branches, branches_later, view, config, vid, port)?;
    }
    Ok(())
}

// That a VLAN's number is 1 to 4094, as a fact for whoever calls it. It does nothing.
fn is_numbered(vid: Vid)
    ensures { (1 ≤ vid) × (vid ≤ 4094) }
{
    let _ = vid.number();
}

// Puts the parts of a VLAN.
fn add_vlan<V: View>(
    parts: &mut Vec<SetAt>,
    branches: &Branches,
    view: &V,
    vid: Vid,
) -> Result<(), NoMemory>
    ensures { (t : Shape) → (here : ℕ → Bool)
        → AreBranches t (V.bridge view.now) here branches.now →
        OnOk result (Adds t (V.bridge view.now) here
        (filter (is_of vid) sources_of_vlans) parts.old.items parts.new.items) }
{
    is_numbered(vid);
    put_kinds(parts, branches, view, vid, &branches.extended)
}

// Puts the parts of the VLANs that a command touches, as they are before it and after it.
fn add_vlans<V: View>(
    parts: &mut Parts,
    branches: &Branches,
    branches_later: &Branches,
    view: &V,
    config: &Config,
    command: &Command,
) -> Result<(), NoMemory>
    ensures before { (t : Shape) → (here : ℕ → Bool)
        → AreBranches t (bridge_of config.now) here branches.now →
        OnOk result (Adds t (bridge_of config.now) here
        (vlans_touched command.now (bridge_of config.now)) parts.old.before.items
        parts.new.before.items) }
    ensures later { (t : Shape) → (here : ℕ → Bool)
        → AreBranches t (V.bridge view.now) here branches_later.now →
        OnOk result (Adds t (V.bridge view.now) here
        (vlans_touched command.now (bridge_of config.now)) parts.old.later.items
        parts.new.later.items) }
{
    match *command {
        Command::Vlan { vid, .. } | Command::Member { vid, .. } | Command::Unmember { vid, .. } => {
            add_vlan(&mut parts.before, branches, config, vid)?;
            add_vlan(&mut parts.later, branches_later, view, vid)?;
            Ok(())
        }
        Command::Up { port } | Command::Down { port } | Command::Isolate { port, .. } => {
            add_vlans_with(parts, branches, branches_later, view, config, port)
        }
        _ => Ok(()),
    }
}

// Puts the parts of a static entry.
fn add_entry<V: View>(
    parts: &mut Vec<SetAt>,
    branches: &Branches,
    view: &V,
    vid: Vid,
    ports: &PortSet,
) -> Result<(), NoMemory>
    ensures { (t : Shape) → (here : ℕ → Bool)
        → AreBranches t (V.bridge view.now) here branches.now →
        OnOk result (Adds t (V.bridge view.now) here
        (both_kinds vid (port_in ports.now)) parts.old.items parts.new.items) }
{
    let among = branches.extended.both(ports);
    put_kinds(parts, branches, view, vid, &among)
}

// Puts the parts of a static entry in the kind in which one of its ports is a member.
fn add_entry_with<V: View>(
    parts: &mut Vec<SetAt>,
    branches: &Branches,
    view: &V,
    config: &Config,
    entry: &StaticAt,
    port: PortId,
) -> Result<(), NoMemory>
    ensures { (t : Shape) → (here : ℕ → Bool)
        → AreBranches t (V.bridge view.now) here branches.now →
        OnOk result (Adds t (V.bridge view.now) here
        (filter (has_port (bridge_of config.now) port)
        (both_kinds entry.now.vid (port_in entry.now.ports))) parts.old.items parts.new.items) }
{
    if entry.ports.contains(port) {
        let among = branches.extended.both(&entry.ports);
        add_kind_with(parts, branches, view, config, entry.vid, &among, port)
    } else {
        Ok(())
    }
}

// Whether a static entry is for an address in a VLAN.
fn is_for(entry: &StaticAt, vid: Vid, address: Mac) -> bool
    ensures { result ≡ is_for vid address.0 entry.now }
{
    entry.vid == vid && entry.address == address
}

// Puts the parts of a static entry, if it is one of a VLAN.
fn add_entry_in<V: View>(
    parts: &mut Vec<SetAt>,
    branches: &Branches,
    view: &V,
    entry: &StaticAt,
    vid: Vid,
) -> Result<(), NoMemory>
    ensures { (t : Shape) → (here : ℕ → Bool)
        → AreBranches t (V.bridge view.now) here branches.now →
        OnOk result (Adds t (V.bridge view.now) here
        (filter (is_of vid) (both_kinds entry.now.vid (port_in entry.now.ports))) parts.old.items
        parts.new.items) }
{
    if entry.vid.number() == vid.number() {
        add_entry(parts, branches, view, entry.vid, &entry.ports)
    } else {
        Ok(())
    }
}

// Puts the parts of a static entry, if it is that for an address in a VLAN.
fn add_entry_for<V: View>(
    parts: &mut Vec<SetAt>,
    branches: &Branches,
    view: &V,
    entry: &StaticAt,
    vid: Vid,
    address: Mac,
) -> Result<(), NoMemory>
    ensures { (t : Shape) → (here : ℕ → Bool)
        → AreBranches t (V.bridge view.now) here branches.now →
        OnOk result (Adds t (V.bridge view.now) here
        (if is_for vid address.0 entry.now then sources_of_entry entry.now else []) parts.old.items
        parts.new.items) }
{
    if is_for(entry, vid, address) {
        add_entry(parts, branches, view, entry.vid, &entry.ports)
    } else {
        Ok(())
    }
}

// Puts the parts of a static entry that a command touches.
fn add_touched<V: View>(
    parts: &mut Vec<SetAt>,
    branches: &Branches,
    view: &V,
    config: &Config,
    command: &Command,
    entry: &StaticAt,
) -> Result<(), NoMemory>
    ensures { (t : Shape) → (here : ℕ → Bool)
        → AreBranches t (V.bridge view.now) here branches.now →
        OnOk result (Adds t (V.bridge view.now) here
        (entry_touched command.now (bridge_of config.now) entry.now) parts.old.items
        parts.new.items) }
{
    match *command {
        Command::Vlan { vid, .. } | Command::Member { vid, .. } | Command::Unmember { vid, .. } => {
            add_entry_in(parts, branches, view, entry, vid)
        }
        Command::Unstatic { vid, address } => {
            add_entry_for(parts, branches, view, entry, vid, address)
        }
        Command::Up { port } | Command::Down { port } | Command::Isolate { port, .. } => {
            add_entry_with(parts, branches, view, config, entry, port)
        }
        _ => Ok(()),
    }
}

// Whether a command may touch a static entry of a VLAN. It is asked of each entry, of which most
// aren't touched, before its ports are copied.
#[inline(always)]
fn may_touch(config: &Config, command: &Command, vid: Vid) -> bool
    ensures { (e : StaticAt) → e.vid ≡ vid → result ≡ false
        → entry_touched command.now (bridge_of config.now) e ≡ [] }
{
    match *command {
        Command::Vlan { vid: of, .. }
        | Command::Member { vid: of, .. }
        | Command::Unmember { vid: of, .. }
        | Command::Unstatic { vid: of, .. } => vid.number() == of.number(),
        Command::Up { port } | Command::Down { port } | Command::Isolate { port, .. } => {
            config.member(vid, port).is_some()
        }
        _ => false,
    }
}

// Puts the parts of the static entry at a place, which is one of this VLAN, if a command touches
// them.
#[inline(always)]
fn add_entry_at<V: View>(
    parts: &mut Vec<SetAt>,
    branches: &Branches,
    view: &V,
    config: &Config,
    command: &Command,
    at: u64,
    vid: Vid,
) -> Result<(), NoMemory>
    ensures { (t : Shape) → (here : ℕ → Bool) → (e : StaticAt)
        → AreBranches t (V.bridge view.now) here branches.now →
        slice_get (bridge_of config.now).statics at ≡ Some e → e.vid ≡ vid →
        OnOk result (Adds t (V.bridge view.now) here
        (entry_touched command.now (bridge_of config.now) e) parts.old.items parts.new.items) }
{
    if !may_touch(config, command, vid) {
        return Ok(());
    }
    match config.static_at(at) {
        Some(entry) => add_touched(parts, branches, view, config, command, &entry),
        None => Ok(()),
    }
}

// Puts the parts of the static entries that a command touches.
fn add_entries<V: View>(
    parts: &mut Vec<SetAt>,
    branches: &Branches,
    view: &V,
    config: &Config,
    command: &Command,
) -> Result<(), NoMemory>
    ensures { (t : Shape) → (here : ℕ → Bool)
        → AreBranches t (V.bridge view.now) here branches.now →
        OnOk result (Adds t (V.bridge view.now) here
        (flat_map (entry_touched command.now (bridge_of config.now)) (bridge_of config.now).statics)
        parts.old.items parts.new.items) }
{
    for at in 0..u64::MAX {
        match config.static_vid(at) {
            Some(vid) => add_entry_at(parts, branches, view, config, command, at, vid)?,
            None => return Ok(()),
        }
    }
    Err(NoMemory)
}

// Puts, behind the parts of the VLANs that a command touches, those of the static entries as they
// are before it.
fn add_before<V: View>(
    parts: &mut Vec<SetAt>,
    branches: &Branches,
    view: &V,
    config: &Config,
    command: &Command,
) -> Result<(), NoMemory>
    ensures { (t : Shape) → (here : ℕ → Bool) → AreBranches t (V.bridge view.now) here branches.now
        → (old : List SetAt) →
        Adds t (V.bridge view.now) here (vlans_touched command.now (bridge_of config.now)) old
        parts.old.items →
        OnOk result (Adds t (V.bridge view.now) here
        (touched_before command.now (bridge_of config.now)) old parts.new.items) }
{
    match *command {
        Command::Static { vid, address, .. } => match config.entry(vid, address) {
            Some(ports) => add_entry(parts, branches, view, vid, ports),
            None => Ok(()),
        },
        _ => add_entries(parts, branches, view, config, command),
    }
}

// Puts those of the static entries as they are after it.
fn add_after<V: View>(
    parts: &mut Vec<SetAt>,
    branches: &Branches,
    view: &V,
    config: &Config,
    command: &Command,
) -> Result<(), NoMemory>
    ensures { (t : Shape) → (here : ℕ → Bool) → AreBranches t (V.bridge view.now) here branches.now
        → (old : List SetAt) →
        Adds t (V.bridge view.now) here (vlans_touched command.now (bridge_of config.now)) old
        parts.old.items →
        OnOk result (Adds t (V.bridge view.now) here
        (touched_after command.now (bridge_of config.now)) old parts.new.items) }
{
    match *command {
        Command::Static { vid, ports, .. } => { add_entry(parts, branches, view, vid, &ports) }
        Command::Unstatic { .. } => Ok(()),
        _ => add_entries(parts, branches, view, config, command),
    }
}

/// The non-empty parts, before a command and after it, of the VLANs and static entries that it
/// touches, in order. The configuration is the one before it.
pub fn parts_around(
    alloc: Global,
    tree: &Tree,
    config: &Config,
    command: &Command,
) -> Result<Parts, NoMemory>
    ensures before { IfOk result (λ made. map seen made.before.items
        ≡ filter has_ports (parts_touched_before tree.now command.now (bridge_of config.now))) }
    ensures later { IfOk result (λ made. map seen made.later.items
        ≡ filter has_ports (parts_touched_after tree.now command.now (bridge_of config.now))) }
{
    let view = Pending { config, command };
    let branches = Branches::touched(tree, config, command);
    let branches_later = Branches::touched(tree, &view, command);
    let before = Vec::with_capacity(alloc, FEW)?;
    let later = Vec::with_capacity(alloc, FEW)?;
    let mut parts = Parts { before, later };
    add_vlans(
        &mut parts,
        &branches,
        &branches_later,
        &view,
        config,
        command,
    )?;
    add_before(&mut parts.before, &branches, config, config, command)?;
    add_after(&mut parts.later, &branches_later, &view, config, command)?;
    Ok(parts)
}
