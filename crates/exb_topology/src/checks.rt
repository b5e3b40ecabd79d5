//! The third pass: that ports are external ports of the tree, and that nothing is given twice.
ghost use Rattle.std.specs.Prelude.{◌≡◌, ◌==◌, ◌++◌, ◌∷◌, [], List, codes, IfOk, OnOk};
ghost use Rattle.std.specs.List.{list_any};
ghost use Rattle.std.specs.Str.{bytes_eq};
ghost use Rattle.exb_model.specs.Tree.{Shape};
ghost use Rattle.exb_toml_keys.specs.Faults.{Gives, place_text, in_element};
ghost use Rattle.exb_topology.specs.ElementChecks.{each_ok, refuse};
ghost use Rattle.exb_topology.specs.Checks.{port_ok, words_ok, port_table_ok, overlap, vlan_ok, vlans_ok, same_entry, static_ok, action_ok, command_ok, capture_key, capture_ok, output_names, file_ok};
ghost use Rattle.exb_topology.specs.StaticEntrySets.{Knows};

use crate::outputs::output_names;
use crate::port_sets::are_known;
use exb_journal::PortName;
use exb_model::list::List;
use exb_model::memory::NoMemory;
use exb_model::port::PortId;
use exb_model::text::Text;
use exb_model::tree::Tree;
use exb_toml_keys::faults::{KeyFault, TopoFault};
use exb_toml_keys::key_path::KeyPath;
use exb_toml_keys::text_values::PortPattern;
use exb_topology_tables::{Action, CommandElement, Named, PortElement, StaticElement, VlanElement};
use std::alloc::Global;
use std::collections::BTreeSet;

/// Refuses a key for that fault, where the test passes.
pub fn refuse(
    alloc: Global,
    test: bool,
    place: KeyPath,
    key: &str,
    fault: KeyFault,
) -> Result<(), TopoFault>
    ensures { Gives result (refuse test fault (place_text place ++ key.now)) }
{
    if test {
        Err(place.fault(alloc, key, fault))
    } else {
        Ok(())
    }
}

/// Refuses a port that isn't external.
fn check_port(
    alloc: Global,
    tree: &Tree,
    place: KeyPath,
    key: &str,
    port: PortId,
) -> Result<(), TopoFault>
    ensures { Gives result (port_ok tree.now (place_text place ++ key.now) port) }
{
    let unknown = !tree.is_external(port);
    refuse(alloc, unknown, place, key, KeyFault::UnknownPort)
}

/// Refuses a list with a word that names what the tree hasn't got.
fn check_words(
    alloc: Global,
    tree: &Tree,
    place: KeyPath,
    key: &str,
    words: &List<PortPattern>,
) -> Result<(), TopoFault>
    ensures { Gives result (words_ok tree.now (place_text place ++ key.now) words.now) }
{
    let unknown = !are_known(tree, words.as_slice());
    refuse(alloc, unknown, place, key, KeyFault::UnknownPort)
}

fn is_named(before: &[PortElement], name: PortId) -> bool
    ensures { result ≡ list_any (λ q. q.name == name) before.now }
{
    for table in before {
        if table.name == name {
            return true;
        }
    }
    false
}

fn check_port_table(
    alloc: Global,
    tree: &Tree,
    before: &[PortElement],
    index: usize,
    table: PortElement,
) -> Result<(), TopoFault>
    ensures { Gives result (port_table_ok tree.now before.now index table) }
{
    let place = KeyPath::Element {
        table: "port",
        index,
    };
    check_port(alloc, tree, place, "name", table.name)?;
    let again = is_named(before, table.name);
    refuse(alloc, again, place, "name", KeyFault::Repeat)
}

pub(crate) fn check_ports(
    alloc: Global,
    tree: &Tree,
    tables: &[PortElement],
) -> Result<(), TopoFault>
    ensures { Gives result (each_ok (port_table_ok tree.now) tables.now 0 tables.now) }
{
    for index in 0..tables.len() {
        check_port_table(alloc, tree, &tables[..index], index, tables[index])?;
    }
    Ok(())
}

/// Whether a VLAN of a range was given before.
fn overlaps(vlan: &VlanElement, before: &[VlanElement]) -> bool
    ensures { result ≡ list_any (overlap vlan.now) before.now }
{
    for other in before {
        if other.vid.number() <= vlan.last.number() && vlan.vid.number() <= other.last.number() {
            return true;
        }
    }
    false
}

fn check_vlan(
    alloc: Global,
    tree: &Tree,
    before: &[VlanElement],
    index: usize,
    vlan: &VlanElement,
) -> Result<(), TopoFault>
    ensures { Gives result (vlan_ok tree.now before.now index vlan.now) }
{
    let place = KeyPath::Element {
        table: "vlan",
        index,
    };
    check_words(alloc, tree, place, "tagged", &vlan.tagged)?;
    check_words(alloc, tree, place, "untagged", &vlan.untagged)?;
    let again = overlaps(vlan, before);
    refuse(alloc, again, place, "vid", KeyFault::Repeat)
}

pub(crate) fn check_vlans(
    alloc: Global,
    tree: &Tree,
    vlans: &Option<List<VlanElement>>,
) -> Result<(), TopoFault>
    ensures { Gives result (vlans_ok tree.now vlans.now) }
{
    match vlans {
        Some(vlans) => check_each_vlan(alloc, tree, vlans.as_slice()),
        None => Ok(()),
    }
}

fn check_each_vlan(alloc: Global, tree: &Tree, vlans: &[VlanElement]) -> Result<(), TopoFault>
    ensures { Gives result (each_ok (vlan_ok tree.now) vlans.now 0 vlans.now) }
{
    for (index, vlan) in vlans.iter().enumerate() {
        check_vlan(alloc, tree, &vlans[..index], index, vlan)?;
    }
    Ok(())
}

/// What static entries are for, each by its VLAN and address.
type Destinations = BTreeSet<(u16, [u8; 6])>;

/// Notes what an entry is for, and answers whether that was given before.
fn note(given: &mut Destinations, entry: &StaticElement) -> Result<bool, NoMemory>
    ensures again { IfOk result (λ again. (before : List StaticElement) → Knows given.old before
        → again ≡ list_any (same_entry entry.now) before) }
    ensures noted { OnOk result ((before : List StaticElement) → Knows given.old before
        → Knows given.new (before ++ entry.now ∷ [])) }
{
    let is_new = given.insert((entry.vid.number(), entry.address.0))?;
    Ok(!is_new)
}

fn check_static(
    alloc: Global,
    tree: &Tree,
    given: &mut Destinations,
    index: usize,
    entry: &StaticElement,
) -> Result<(), TopoFault>
    ensures value { (before : List StaticElement) → Knows given.old before
        → Gives result (static_ok tree.now before index entry.now) }
    ensures noted { (before : List StaticElement) → Knows given.old before
        → OnOk result (Knows given.new (before ++ entry.now ∷ [])) }
{
    let place = KeyPath::Element {
        table: "static",
        index,
    };
    check_words(alloc, tree, place, "ports", &entry.ports)?;
    let again = note(given, entry)?;
    refuse(alloc, again, place, "mac", KeyFault::Repeat)
}

#[tactic(auto, using(crate::proofs::StaticEntrySets::knows_none))]
pub(crate) fn check_statics(
    alloc: Global,
    tree: &Tree,
    statics: &[StaticElement],
) -> Result<(), TopoFault>
    ensures { Gives result (each_ok (static_ok tree.now) statics.now 0 statics.now) }
{
    let mut given = BTreeSet::new(alloc);
    for (index, entry) in statics.iter().enumerate() {
        check_static(alloc, tree, &mut given, index, entry)?;
    }
    Ok(())
}

fn check_action(
    alloc: Global,
    tree: &Tree,
    place: KeyPath,
    action: &Action,
) -> Result<(), TopoFault>
    ensures { Gives result (action_ok tree.now (place_text place) action.now) }
{
    match action {
        Action::Vlan {
            vid: _,
            tagged,
            untagged,
        } => {
            check_words(alloc, tree, place, "tagged", tagged)?;
            check_words(alloc, tree, place, "untagged", untagged)
        }
        Action::Member {
            vid: _,
            port,
            kind: _,
        } => check_port(alloc, tree, place, "port", *port),
        Action::Unmember { vid: _, port } => check_port(alloc, tree, place, "port", *port),
        Action::Pvid { port, vid: _ } => check_port(alloc, tree, place, "port", *port),
        Action::Accept { port, accept: _ } => check_port(alloc, tree, place, "port", *port),
        Action::Filter { port, on: _ } => check_port(alloc, tree, place, "port", *port),
        Action::Isolate { port, on: _ } => check_port(alloc, tree, place, "port", *port),
        Action::Static {
            vid: _,
            address: _,
            ports: words,
        } => check_words(alloc, tree, place, "ports", words),
        Action::Unstatic { vid: _, address: _ } => Ok(()),
        Action::Up { port } => check_port(alloc, tree, place, "port", *port),
        Action::Down { port } => check_port(alloc, tree, place, "port", *port),
    }
}

pub(crate) fn check_commands(
    alloc: Global,
    tree: &Tree,
    commands: &[CommandElement],
) -> Result<(), TopoFault>
    ensures { Gives result (each_ok (command_ok tree.now) commands.now 0 commands.now) }
{
    for (index, command) in commands.iter().enumerate() {
        let place = KeyPath::Element {
            table: "command",
            index,
        };
        check_action(alloc, tree, place, &command.action)?;
    }
    Ok(())
}

/// Refuses the key of a port in the table `captures` for that fault, where the test passes.
fn refuse_capture(alloc: Global, test: bool, port: PortId, fault: KeyFault) -> Result<(), TopoFault>
    ensures { Gives result (refuse test fault (capture_key port)) }
{
    if !test {
        return Ok(());
    }
    let place = KeyPath::Table { table: "captures" };
    let key = format!(in alloc; "{}", PortName(port))?;
    Err(place.fault(alloc, key.as_str(), fault))
}

fn check_capture(alloc: Global, tree: &Tree, capture: &Named) -> Result<(), TopoFault>
    ensures { Gives result (capture_ok tree.now [] 0 capture.now) }
{
    let unknown = !tree.is_external(capture.port);
    refuse_capture(alloc, unknown, capture.port, KeyFault::UnknownPort)
}

pub(crate) fn check_captures(
    alloc: Global,
    tree: &Tree,
    captures: &[Named],
) -> Result<(), TopoFault>
    ensures { Gives result (each_ok (capture_ok tree.now) captures.now 0 captures.now) }
{
    for capture in captures {
        check_capture(alloc, tree, capture)?;
    }
    Ok(())
}

/// Whether one of these ends is that.
fn is_end(end: &[u8], ends: &[Text]) -> bool
    ensures { result ≡ list_any (λ o. bytes_eq end.now o) ends.now }
{
    for other in ends {
        if end == other.as_str().as_bytes() {
            return true;
        }
    }
    false
}

/// Whether a file has the name of an output file: the prefix, and then one of the ends that output
/// files have.
pub fn is_output(name: &str, prefix: &str, ends: &[Text]) -> bool
    ensures { (t : Shape) → ends.now ≡ output_names [] t
        → result ≡ list_any (λ o. bytes_eq name.now o) (output_names prefix.now t) }
{
    match name.as_bytes().strip_prefix(prefix.as_bytes()) {
        Some(end) => is_end(end, ends),
        None => false,
    }
}

fn check_file(alloc: Global, prefix: &str, ends: &[Text], capture: &Named) -> Result<(), TopoFault>
    ensures { (t : Shape) → ends.now ≡ output_names [] t
        → Gives result (file_ok (output_names prefix.now t) [] 0 capture.now) }
{
    let again = is_output(capture.name.as_str(), prefix, ends);
    refuse_capture(alloc, again, capture.port, KeyFault::Repeat)
}

fn check_each_file(
    alloc: Global,
    prefix: &str,
    ends: &[Text],
    captures: &[Named],
) -> Result<(), TopoFault>
    ensures { (t : Shape) → ends.now ≡ output_names [] t
        → Gives result (each_ok (file_ok (output_names prefix.now t)) captures.now 0 captures.now) }
{
    for capture in captures {
        check_file(alloc, prefix, ends, capture)?;
    }
    Ok(())
}

/// Refuses captures that have the name of an output file. Names are compared by their ends, since
/// thousands of names with a long prefix would take much memory.
pub(crate) fn check_files(
    alloc: Global,
    tree: &Tree,
    prefix: &str,
    captures: &[Named],
) -> Result<(), TopoFault>
    ensures { Gives result (each_ok (file_ok (output_names prefix.now tree.now)) captures.now 0
        captures.now) }
{
    let ends = output_names(alloc, "", tree)?;
    check_each_file(alloc, prefix, ends.as_slice(), captures)
}
