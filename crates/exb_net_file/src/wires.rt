//! The wires of a net, once the topologies of all bridges are read.
ghost use Rattle.std.specs.Prelude.{◌≡◌, ◌==◌, ◌≤◌, ◌<◌, ◌++◌, ◌∷◌, ℕ, IfOk, IfSome, OnOk, Ok, Some, List, [], length, map, option_map, if◌then◌else◌, slice_index};
ghost use Rattle.std.specs.Str.{bytes_eq};
ghost use Rattle.exb_model.specs.Setup.{IsValid};
ghost use Rattle.exb_toml_keys.specs.Faults.{Gives, place_text};
ghost use Rattle.exb_net_spec.specs.Nets.{ends_of};
ghost use Rattle.exb_topology.specs.ElementChecks.{refuse};
ghost use Rattle.exb_model.specs.Tree.{is_external};
ghost use Rattle.exb_net_file.specs.Members.{tree_in};
ghost use Rattle.exb_net_file.specs.Wires.{member_from, is_taken, has_capture, port_free, end_in, are_joined, wire_in, wires_from, wires_of};
ghost use Rattle.exb_net_file.specs.Soundness.{AreValid, MakesNets};

use crate::elements::NetWire;
use crate::end_names::EndName;
use crate::members::{NetMember, check_files, check_ports};
use exb_model::list::List;
use exb_model::memory::NoMemory;
use exb_model::port::PortId;
use exb_model::tree::Tree;
use exb_net_spec::wires::{End, Wire};
use exb_toml_keys::faults::{KeyFault, TopoFault};
use exb_toml_keys::key_path::KeyPath;
use exb_topology::refuse;
use std::alloc::Global;

fn is_named(member: &NetMember, name: &str) -> bool
    ensures { result ≡ bytes_eq member.now.name name.now }
{
    member.name.as_str() == name
}

/// The bridge of a name, with its number.
fn member_of<'a>(members: &'a [NetMember], name: &str) -> Option<(u8, &'a NetMember)>
    requires valid { AreValid members.now }
    requires few { length members.now ≤ 16 }
    ensures value { option_map (λ p. (p.0, p.1.now)) result ≡ member_from 0 name.now members.now }
    ensures valid { IfSome result (λ p. IsValid p.1.now.topology.setup) }
{
    for (index, member) in members.iter().enumerate() {
        let named = is_named(member, name);
        if named {
            return Some((index as u8, member));
        }
    }
    None
}

/// Whether one of these ends is that one.
fn is_taken(ends: &[End], end: End) -> bool
    ensures { result ≡ is_taken ends.now end.bridge end.port }
{
    for other in ends {
        if other.bridge == end.bridge && other.port == end.port {
            return true;
        }
    }
    false
}

/// Whether a port of a bridge has a capture.
fn is_captured(member: &NetMember, port: PortId) -> bool
    ensures { result ≡ has_capture member.now port }
{
    for capture in member.topology.captures.as_slice() {
        if capture.port == port {
            return true;
        }
    }
    false
}

/// Whether a port of a bridge is external.
fn is_external(alloc: Global, member: &NetMember, port: PortId) -> Result<bool, NoMemory>
    requires { IsValid member.now.topology.setup }
    ensures { IfOk result (λ is. is ≡ is_external (tree_in member.now) port) }
{
    let tree = Tree::new(alloc, &member.topology.setup)?;
    Ok(tree.is_external(port))
}

/// Refuses a port of a bridge that isn't external, or that one of these ends or a capture has.
#[tactic(auto, unfolding(crate::specs::Wires::port_free))]
fn check_free(
    alloc: Global,
    member: &NetMember,
    taken: &[End],
    place: KeyPath,
    key: &str,
    end: End,
) -> Result<(), TopoFault>
    requires { IsValid member.now.topology.setup }
    ensures { Gives result (port_free member.now taken.now (place_text place ++ key.now) end) }
{
    let unknown = !is_external(alloc, member, end.port)?;
    refuse(alloc, unknown, place, key, KeyFault::UnknownPort)?;
    let shared = is_taken(taken, end) || is_captured(member, end.port);
    refuse(alloc, shared, place, key, KeyFault::SharedPort)
}

/// The end of a wire, after these.
#[tactic(auto, unfolding(crate::specs::Wires::end_in))]
fn end_in(
    alloc: Global,
    members: &[NetMember],
    taken: &[End],
    place: KeyPath,
    key: &str,
    named: &EndName,
) -> Result<End, TopoFault>
    requires valid { AreValid members.now }
    requires few { length members.now ≤ 16 }
    ensures { Gives result (end_in members.now taken.now (place_text place ++ key.now) named.now) }
{
    let port = named.port;
    match member_of(members, named.bridge.as_str()) {
        None => Err(place.fault(alloc, key, KeyFault::Name)),
        Some((bridge, member)) => {
            check_free(alloc, member, taken, place, key, End { bridge, port })?;
            Ok(End { bridge, port })
        }
    }
}

/// The next end, put behind those before it.
fn next_end(
    alloc: Global,
    members: &[NetMember],
    ends: &mut List<End>,
    place: KeyPath,
    key: &str,
    named: &EndName,
) -> Result<End, TopoFault>
    requires valid { AreValid members.now }
    requires few { length members.now ≤ 16 }
    ensures value { Gives result (end_in members.now ends.old (place_text place ++ key.now)
        named.now) }
    ensures kept { IfOk result (λ end. ends.new ≡ ends.old ++ end ∷ []) }
{
    let End { bridge, port } = end_in(alloc, members, ends.as_slice(), place, key, named)?;
    ends.push(End { bridge, port })?;
    Ok(End { bridge, port })
}

/// A label for each bridge: at first its own number.
fn own_labels() -> [u8; 256]
    ensures sized { length result ≡ 256 }
    ensures own { (b : ℕ) → b < 256 → slice_index result b ≡ b }
{
    let mut labels = [0u8; 256];
    for bridge in 0..256usize {
        labels[bridge] = bridge as u8;
    }
    labels
}

/// The label of a bridge.
fn label_of(labels: &[u8; 256], bridge: u8) -> u8
    ensures value { result ≡ slice_index labels.now bridge }
    ensures low { bridge < 256 }
{
    labels[bridge as usize]
}

fn renamed(label: u8, from: u8, to: u8) -> u8
    ensures { result ≡ (if label == from then to else label) }
{
    if label == from { to } else { label }
}

/// Gives one label to all that have another one.
fn relabel(labels: &mut [u8; 256], from: u8, to: u8)
    ensures sized { length labels.new ≡ 256 }
    ensures named { (b : ℕ) → b < 256 → slice_index labels.new b
        ≡ (if slice_index labels.old b == from then to else slice_index labels.old b) }
{
    for bridge in 0..256usize {
        labels[bridge] = renamed(labels[bridge], from, to);
    }
}

/// Whether bridges are the same, or these wires join them. Each wire gives one label to all bridges
/// that it joins.
fn are_joined(wires: &[Wire], bridge: u8, other: u8) -> bool
    ensures { result ≡ are_joined wires.now bridge other }
{
    let mut labels = own_labels();
    for wire in wires {
        let from = label_of(&labels, wire.b.bridge);
        let to = label_of(&labels, wire.a.bridge);
        relabel(&mut labels, from, to);
    }
    let label = label_of(&labels, bridge);
    let other_label = label_of(&labels, other);
    label == other_label
}

/// A wire after those before it. Their ends, with those of the wire behind them, are kept.
#[tactic(auto, unfolding(crate::specs::Wires::wire_in), using(crate::proofs::Nets::ends_push))]
fn wire_in(
    alloc: Global,
    members: &[NetMember],
    before: &[Wire],
    ends: &mut List<End>,
    index: usize,
    wire: &NetWire,
) -> Result<Wire, TopoFault>
    requires valid { AreValid members.now }
    requires few { length members.now ≤ 16 }
    requires ends { ends.old ≡ ends_of before.now }
    ensures value { Gives result (wire_in members.now before.now index wire.now) }
    ensures ends { IfOk result (λ x. ends.new ≡ ends_of (before.now ++ x ∷ [])) }
{
    let place = KeyPath::Element {
        table: "wire",
        index,
    };
    let NetWire { a, b } = wire;
    let a = next_end(alloc, members, ends, place, "a", a)?;
    let b = next_end(alloc, members, ends, place, "b", b)?;
    let again = are_joined(before, a.bridge, b.bridge);
    refuse(alloc, again, place, "a", KeyFault::Loop)?;
    Ok(Wire { a, b })
}

fn wires_in(
    alloc: Global,
    members: &[NetMember],
    wires: &[NetWire],
) -> Result<List<Wire>, TopoFault>
    requires valid { AreValid members.now }
    requires few { length members.now ≤ 16 }
    ensures { Gives result (wires_from members.now [] 0 wires.now) }
{
    let mut ends = List::new(alloc);
    let mut joined = List::new(alloc);
    for (index, wire) in wires.iter().enumerate() {
        let next = wire_in(alloc, members, joined.as_slice(), &mut ends, index, wire)?;
        joined.push(next)?;
    }
    Ok(joined)
}

#[tactic(auto, unfolding(crate::specs::Wires::wires_of))]
fn checked(alloc: Global, members: &[NetMember], wires: &[NetWire]) -> Result<List<Wire>, TopoFault>
    requires valid { AreValid members.now }
    requires few { length members.now ≤ 16 }
    ensures { Gives result (wires_of members.now wires.now) }
{
    check_ports(alloc, members)?;
    check_files(alloc, members)?;
    wires_in(alloc, members, wires)
}

/// The wires of a net, or the first fault once all topologies are read: the external ports
/// together, at most 4,160; captures that are files which some bridge may write; and the wires in
/// order, at each the end `a`, the end `b`, and a loop. Memory is the one answer that the files
/// don't decide. Where there is none, whatever net is made of these bridges and wires is valid.
pub fn wired(
    alloc: Global,
    members: &[NetMember],
    wires: &[NetWire],
) -> Result<List<Wire>, TopoFault>
    requires valid { AreValid members.now }
    requires few { length members.now ≤ 16 }
    ensures exact { Gives result (wires_of members.now wires.now) }
    ensures net { IfOk result (MakesNets members.now) }
{
    checked(alloc, members, wires)
}
