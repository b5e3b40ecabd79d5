//! The parts of sources: the members of a VLAN in one kind, or those of them to which a static
//! entry sends, below each bridge port.
ghost use Rattle.std.specs.Prelude.{◌≡◌, ℕ, ◌-◌, ◌/◌, ◌≤◌, ◌==◌, ◌&&◌, ◌++◌, ◌∷◌, Bool, false, [], filter, map, slice_index, OnOk};
ghost use Rattle.exb_model.specs.Ports.{port_in};
ghost use Rattle.exb_model.specs.Tree.{Shape};
ghost use Rattle.exb_model.specs.Configuration.{Bridge};
ghost use Rattle.exb_model.specs.Refusals.{Source, both_kinds};
ghost use Rattle.exb_plan.specs.Branches.{AreBranches, IsPart, IsAmong};
ghost use Rattle.exb_plan.specs.Parts.{has_ports, Adds};
ghost use Rattle.exb_control_spec.specs.Plans.Sets.{parts_of, seen};

use crate::branches::Branches;
use crate::config_view::View;
use crate::places::Places;
use exb_control_spec::SetAt;
use exb_model::memory::NoMemory;
use exb_model::port_set::PortSet;
use exb_model::vlan::{Kind, Vid};

// Puts a part, if it has a port.
fn put(parts: &mut Vec<SetAt>, part: SetAt) -> Result<(), NoMemory>
    ensures { OnOk result (map seen parts.new.items ≡ map seen parts.old.items ++ filter has_ports
        (seen part ∷ [])) }
{
    if part.set.is_empty() {
        return Ok(());
    }
    parts.push(part)?;
    Ok(())
}

// Puts, below a bridge port, the part of a source and the part without its isolated ports. Where
// the members don't reach the bridge port there is nothing to put.
fn put_below(
    parts: &mut Vec<SetAt>,
    branches: &Branches,
    members: &PortSet,
    bridge_port: u8,
    is_reached: bool,
) -> Result<(), NoMemory>
    requires from1 { 1 ≤ bridge_port }
    requires reached { is_reached ≡ false → (q : ℕ)
        → (slice_index branches.now.trunks (q / 64) == bridge_port && port_in members.now q)
        ≡ false }
    ensures { (t : Shape) → (b : Bridge) → (here : ℕ → Bool) → (x : Source)
        → AreBranches t b here branches.now → IsPart t b x members.now →
        OnOk result (map seen parts.new.items ≡ map seen parts.old.items ++ filter has_ports
        (parts_of t b x (bridge_port - 1))) }
{
    if !is_reached {
        return Ok(());
    }
    let set = branches.under(members, bridge_port);
    put(parts, SetAt { bridge_port, set })?;
    let set = set.except(&branches.isolated);
    put(parts, SetAt { bridge_port, set })?;
    Ok(())
}

// Puts, below each bridge port that is looked at, in order, the part of a source and the part
// without its isolated ports.
fn put_all(parts: &mut Vec<SetAt>, branches: &Branches, members: &PortSet) -> Result<(), NoMemory>
    ensures { (t : Shape) → (b : Bridge) → (here : ℕ → Bool) → (x : Source)
        → AreBranches t b here branches.now → IsPart t b x members.now →
        OnOk result (Adds t b here (x ∷ []) parts.old.items parts.new.items) }
{
    let Places { first, past } = branches.places;
    if past - first == 1 {
        return put_below(parts, branches, members, first, true);
    }
    let reached = branches.reached(members);
    for bridge_port in first..past {
        let is_reached = reached[bridge_port as usize];
        put_below(parts, branches, members, bridge_port, is_reached)?;
    }
    Ok(())
}

/// Puts the non-empty parts of a VLAN's members in a kind, among some ports: by bridge port that is
/// looked at, and there the part before the part without its isolated ports.
pub fn put_kind<V: View>(
    parts: &mut Vec<SetAt>,
    branches: &Branches,
    view: &V,
    vid: Vid,
    among: &PortSet,
    kind: Kind,
) -> Result<(), NoMemory>
    ensures { (t : Shape) → (here test : ℕ → Bool)
        → AreBranches t (V.bridge view.now) here branches.now → IsAmong t test among.now →
        OnOk result (Adds t (V.bridge view.now) here (record {
          vid = vid;
          kind = kind;
          among = test;
        } ∷ []) parts.old.items parts.new.items) }
{
    let members = view.part(vid, among, kind);
    put_all(parts, branches, &members)
}

/// Puts those of a VLAN's members in both kinds, the tagged ones before the untagged ones.
pub fn put_kinds<V: View>(
    parts: &mut Vec<SetAt>,
    branches: &Branches,
    view: &V,
    vid: Vid,
    among: &PortSet,
) -> Result<(), NoMemory>
    ensures { (t : Shape) → (here test : ℕ → Bool)
        → AreBranches t (V.bridge view.now) here branches.now → IsAmong t test among.now →
        OnOk result (Adds t (V.bridge view.now) here (both_kinds vid test) parts.old.items
        parts.new.items) }
{
    put_kind(parts, branches, view, vid, among, Kind::Tagged)?;
    put_kind(parts, branches, view, vid, among, Kind::Untagged)
}
