//! The bridges of a net with their topologies: their external ports together, and the files that
//! they read and write.
ghost use Rattle.std.specs.Prelude.{◌≡◌, ◌≤◌, ◌<◌, ◌+◌, ◌*◌, nat_lt, if◌then◌else◌, IfOk, All, List, [], codes, length, map, string_bytes};
ghost use Rattle.std.specs.List.{list_any};
ghost use Rattle.std.specs.Str.{bytes_eq};
ghost use Rattle.exb_model.specs.Setup.{IsValid};
ghost use Rattle.exb_model.specs.Tree.{external_ports, is_external};
ghost use Rattle.exb_toml_keys.specs.Faults.{Gives};
ghost use Rattle.exb_toml_keys.specs.declared.faults.KeyFault.TheVariants.{Range};
ghost use Rattle.exb_topology.specs.Checks.{output_names};
ghost use Rattle.exb_topology.specs.ElementChecks.{each_ok, refuse};
ghost use Rattle.exb_net_file.specs.Members.{tree_in, ports_together, prefix_of, outputs_in, is_output_of_net, files_ok};
ghost use Rattle.exb_net_file.specs.Soundness.{AreValid};

use crate::elements::refuse_table;
use exb_model::list::List;
use exb_model::memory::NoMemory;
use exb_model::port::PortId;
use exb_model::text::Text;
use exb_model::tree::Tree;
use exb_toml_keys::faults::{KeyFault, TopoFault};
use exb_toml_keys::key_path::KeyPath;
use exb_topology::{Named, Topology, is_output, output_names, refuse};
use std::alloc::Global;

/// How many external ports the bridges of a net may have together.
const MOST_PORTS: usize = 4160;

/// A bridge of a net: its name, and what its topology file says.
#[derive(Drop)]
pub struct NetMember {
    pub name: Text,
    pub topology: Topology,
}

/// What the names of a bridge's output files begin with: its name and `-`.
pub fn prefix_of(alloc: Global, name: &str) -> Result<String, NoMemory>
    ensures { IfOk result (λ prefix. string_bytes prefix ≡ prefix_of name.now) }
{
    Ok(format!(in alloc; "{name}-")?)
}

fn one_if_external(tree: &Tree, number: u16) -> usize
    requires { number < 4160 }
    ensures value { result ≡ (if is_external tree.now number then 1 else 0) }
    ensures most { result ≤ 1 }
{
    let port = PortId::new(number).unwrap();
    if tree.is_external(port) { 1 } else { 0 }
}

/// How many external ports a tree has.
fn external_count(tree: &Tree) -> usize
    ensures value { result ≡ length (external_ports tree.now) }
    ensures most { result ≤ 4160 }
{
    let mut count = 0;
    for number in 0..4160u16 {
        count += one_if_external(tree, number);
    }
    count
}

/// How many external ports a bridge has.
fn ports_of(alloc: Global, member: &NetMember) -> Result<usize, NoMemory>
    requires { IsValid member.now.topology.setup }
    ensures value { IfOk result (λ n. n ≡ length (external_ports (tree_in member.now))) }
    ensures most { IfOk result (λ n. n ≤ 4160) }
{
    let tree = Tree::new(alloc, &member.topology.setup)?;
    Ok(external_count(&tree))
}

/// How many external ports all bridges have together.
fn ports_together(alloc: Global, members: &[NetMember]) -> Result<usize, NoMemory>
    requires valid { AreValid members.now }
    requires few { length members.now ≤ 16 }
    ensures { IfOk result (λ n. n ≡ ports_together members.now) }
{
    let mut count = 0;
    for member in members {
        let ports = ports_of(alloc, member)?;
        count += ports;
    }
    Ok(count)
}

/// Refuses a net with more than 4,160 external ports.
pub(crate) fn check_ports(alloc: Global, members: &[NetMember]) -> Result<(), TopoFault>
    requires valid { AreValid members.now }
    requires few { length members.now ≤ 16 }
    ensures { Gives result (refuse (nat_lt 4160 (ports_together members.now)) Range (codes "bridge")) }
{
    let count = ports_together(alloc, members)?;
    refuse_table(alloc, count > MOST_PORTS, "bridge", KeyFault::Range)
}

/// The names of the files that a bridge may write, without their prefix.
fn ends_of(alloc: Global, member: &NetMember) -> Result<List<Text>, NoMemory>
    requires { IsValid member.now.topology.setup }
    ensures { IfOk result (λ ends. ends ≡ output_names [] (tree_in member.now)) }
{
    let tree = Tree::new(alloc, &member.topology.setup)?;
    output_names(alloc, "", &tree)
}

/// These names for each bridge.
fn all_ends(alloc: Global, members: &[NetMember]) -> Result<List<List<Text>>, NoMemory>
    requires { AreValid members.now }
    ensures { IfOk result (λ all. all ≡ map (λ m. output_names [] (tree_in m)) members.now) }
{
    let mut all = List::new(alloc);
    for member in members {
        let ends = ends_of(alloc, member)?;
        all.push(ends)?;
    }
    Ok(all)
}

/// Whether a file is one that a bridge may write, whose names without their prefix are these.
fn is_written_by(
    alloc: Global,
    member: &NetMember,
    ends: &[Text],
    name: &str,
) -> Result<bool, NoMemory>
    requires { ends.now ≡ output_names [] (tree_in member.now) }
    ensures { IfOk result (λ is. is ≡ list_any (λ o. bytes_eq name.now o) (outputs_in member.now)) }
{
    let prefix = prefix_of(alloc, member.name.as_str())?;
    Ok(is_output(name, prefix.as_str(), ends))
}

/// Whether a file is one that some bridge may write.
fn is_written(
    alloc: Global,
    members: &[NetMember],
    ends: &[List<Text>],
    name: &str,
) -> Result<bool, NoMemory>
    requires { ends.now ≡ map (λ m. output_names [] (tree_in m)) members.now }
    ensures { IfOk result (λ is. is ≡ is_output_of_net members.now name.now) }
{
    for (index, member) in members.iter().enumerate() {
        if is_written_by(alloc, member, ends[index].as_slice(), name)? {
            return Ok(true);
        }
    }
    Ok(false)
}

/// Whether one of these captures is a file that some bridge may write.
fn has_written(
    alloc: Global,
    members: &[NetMember],
    ends: &[List<Text>],
    captures: &[Named],
) -> Result<bool, NoMemory>
    requires { ends.now ≡ map (λ m. output_names [] (tree_in m)) members.now }
    ensures { IfOk result (λ is. is ≡ list_any (λ capture.
        is_output_of_net members.now capture.name) captures.now) }
{
    for capture in captures {
        if is_written(alloc, members, ends, capture.name.as_str())? {
            return Ok(true);
        }
    }
    Ok(false)
}

fn check_file(
    alloc: Global,
    members: &[NetMember],
    ends: &[List<Text>],
    index: usize,
    member: &NetMember,
) -> Result<(), TopoFault>
    requires { ends.now ≡ map (λ m. output_names [] (tree_in m)) members.now }
    ensures { Gives result (files_ok members.now [] index member.now) }
{
    let place = KeyPath::Element {
        table: "bridge",
        index,
    };
    let again = has_written(alloc, members, ends, member.topology.captures.as_slice())?;
    refuse(alloc, again, place, "topology", KeyFault::Repeat)
}

fn check_each_file(
    alloc: Global,
    members: &[NetMember],
    ends: &[List<Text>],
) -> Result<(), TopoFault>
    requires { ends.now ≡ map (λ m. output_names [] (tree_in m)) members.now }
    ensures { Gives result (each_ok (files_ok members.now) members.now 0 members.now) }
{
    for (index, member) in members.iter().enumerate() {
        check_file(alloc, members, ends, index, member)?;
    }
    Ok(())
}

/// Refuses captures that are files which some bridge may write.
pub(crate) fn check_files(alloc: Global, members: &[NetMember]) -> Result<(), TopoFault>
    requires { AreValid members.now }
    ensures { Gives result (each_ok (files_ok members.now) members.now 0 members.now) }
{
    let ends = all_ends(alloc, members)?;
    check_each_file(alloc, members, ends.as_slice())
}
