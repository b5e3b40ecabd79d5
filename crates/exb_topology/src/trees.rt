//! The second pass: whether the extenders are a tree below the bridge.
ghost use Rattle.std.specs.Prelude.{◌≡◌, ◌==◌, ◌<◌, ℕ, OnOk, All, List, [], length, slice_index, take};
ghost use Rattle.std.specs.List.{list_any};
ghost use Rattle.exb_model.specs.Tree.{Shape, top};
ghost use Rattle.exb_model.specs.declared.setup.ExtenderSetup.{ExtenderSetup};
ghost use Rattle.exb_model.specs.Setup.{InRange, IsValid, port_at, shape_of};
ghost use Rattle.exb_toml_keys.specs.Faults.{Gives, place_text};
ghost use Rattle.exb_topology.specs.ElementChecks.{each_ok, refuse};
ghost use Rattle.exb_topology.specs.Trees.{ports_of, has_port, hung, rooted, tree_ok, HasRanges};

use crate::checks::refuse;
use exb_model::setup::{ExtenderSetup, Place, Setup, has_number};
use exb_toml_keys::faults::{KeyFault, TopoFault};
use exb_toml_keys::key_path::KeyPath as At;
use std::alloc::Global;

/// The port at a place.
fn port_at(place: Place) -> u16
    ensures value { result ≡ port_at place }
{
    match place {
        Place::Bridge { port } => (port as u16).saturating_sub(1),
        Place::Extender { number, port } => 64 * number as u16 + (port as u16).saturating_sub(1),
    }
}

/// Whether one of these extenders hangs on that port.
fn is_taken(extenders: &[ExtenderSetup], port: u16) -> bool
    ensures { result ≡ list_any (λ f. port_at f.on == port) extenders.now }
{
    for extender in extenders {
        if port_at(extender.on) == port {
            return true;
        }
    }
    false
}

/// How many ports the first of these extenders with a number has, 0 where there is none.
fn ports_of(extenders: &[ExtenderSetup], number: u16) -> u8
    ensures { result ≡ ports_of extenders.now number }
{
    for extender in extenders {
        if extender.number as u16 == number {
            return extender.ports;
        }
    }
    0
}

/// Whether the bridge or one of these extenders has that port.
fn has_port(ports: u8, extenders: &[ExtenderSetup], port: u16) -> bool
    ensures { result ≡ has_port ports extenders.now port }
{
    if port < 64 {
        port < ports as u16
    } else {
        port % 64 < ports_of(extenders, port / 64) as u16
    }
}

/// Whether an extender can hang where it does, after those before.
fn hung(
    alloc: Global,
    ports: u8,
    all: &[ExtenderSetup],
    index: usize,
    extender: ExtenderSetup,
) -> Result<(), TopoFault>
    requires { index < length all.now }
    ensures { Gives result (hung ports all.now (take index all.now) index extender) }
{
    let place = At::Element {
        table: "extender",
        index,
    };
    let before = &all[..index];
    let port = port_at(extender.on);
    let two = has_number(before, extender.number);
    refuse(alloc, two, place, "number", KeyFault::TwoUpstreams)?;
    let shared = is_taken(before, port);
    refuse(alloc, shared, place, "on", KeyFault::SharedPort)?;
    let unknown = !has_port(ports, all, port);
    refuse(alloc, unknown, place, "on", KeyFault::UnknownPort)
}

/// Whether each extender has a number and a port of its own, and the port is there.
fn check_hung(alloc: Global, ports: u8, extenders: &[ExtenderSetup]) -> Result<(), TopoFault>
    ensures { Gives result (each_ok (hung ports extenders.now) extenders.now 0 extenders.now) }
{
    for index in 0..extenders.len() {
        hung(alloc, ports, extenders, index, extenders[index])?;
    }
    Ok(())
}

/// The port on which each extender hangs, by its number.
fn hanging(setup: &Setup) -> [u16; 65]
    requires { All InRange setup.now.extenders }
    ensures value { result ≡ (shape_of setup.now).on }
    ensures fits { (n : ℕ) → slice_index result n < 4160 }
{
    let mut on = [0u16; 65];
    for extender in setup.extenders.as_slice() {
        on[extender.number as usize] = port_at(extender.on);
    }
    on
}

/// The last port on the way up from a port, at most 63 ports above it.
fn top(on: &[u16; 65], port: u16) -> u16
    requires fits { (n : ℕ) → slice_index on.now n < 4160 }
    requires known { port < 4160 }
    ensures { result ≡ top on.now 63 port }
{
    let mut at = port;
    for _step in 0..63u32 {
        if at < 64 {
            return at;
        }
        at = on[at as usize / 64];
    }
    at
}

/// Whether the bridge is reached from an extender, where each extender hangs on that port.
fn rooted(
    alloc: Global,
    on: &[u16; 65],
    index: usize,
    extender: ExtenderSetup,
) -> Result<(), TopoFault>
    requires fits { (n : ℕ) → slice_index on.now n < 4160 }
    requires range { InRange extender }
    ensures { (t : Shape) → t.on ≡ on.now → (before : List ExtenderSetup)
        → Gives result (rooted t before index extender) }
{
    let place = At::Element {
        table: "extender",
        index,
    };
    let reached = top(on, port_at(extender.on)) < 64;
    refuse(alloc, !reached, place, "on", KeyFault::Loop)
}

/// Whether the bridge is reached from each extender.
fn check_rooted(alloc: Global, setup: &Setup) -> Result<(), TopoFault>
    requires { All InRange setup.now.extenders }
    ensures { Gives result (each_ok (rooted (shape_of setup.now)) setup.now.extenders 0
        setup.now.extenders) }
{
    let on = hanging(setup);
    let extenders = setup.extenders.as_slice();
    for index in 0..extenders.len() {
        rooted(alloc, &on, index, extenders[index])?;
    }
    Ok(())
}

/// Whether the extenders of a setup with an empty start are a tree below the bridge, and each
/// number space has a channel for each of its cascade ports.
#[tactic(auto, unfolding(crate::specs::Trees::tree_ok))]
pub(crate) fn check_tree(alloc: Global, setup: &Setup) -> Result<(), TopoFault>
    requires ranges { HasRanges setup.now }
    requires bare { setup.now.start ≡ [] }
    ensures value { Gives result (tree_ok setup.now) }
    ensures valid { OnOk result (IsValid setup.now) }
{
    check_hung(alloc, setup.ports, setup.extenders.as_slice())?;
    check_rooted(alloc, setup)?;
    let few = !setup.valid();
    let place = At::Table { table: "bridge" };
    refuse(alloc, few, place, "channels", KeyFault::FewChannels)
}
