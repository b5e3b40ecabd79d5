//! A topology file, read whole.
ghost use Rattle.std.specs.Prelude.{◌≡◌, IfOk, OnOk, Ok, map};
ghost use Rattle.exb_toml_keys.specs.Faults.{Gives, GivesSeen};
ghost use Rattle.exb_model.specs.Setup.{IsValid, shape_of};
ghost use Rattle.exb_topology_tables.specs.Tables.{AreInRange};
ghost use Rattle.exb_topology.specs.ElementChecks.{each_ok};
ghost use Rattle.exb_topology.specs.Checks.{port_table_ok, ports_ok};
ghost use Rattle.exb_topology.specs.Soundness.{IsSound};
ghost use Rattle.exb_topology.specs.CommandViews.{seen, timed_view};
ghost use Rattle.exb_topology.specs.Topologies.{topology_view, topology_seen, topology_of, start_seen, command_seen, bare, resolved};

use crate::trees::check_tree;
use crate::{checks, commands};
use exb_model::command::Command;
use exb_model::list::List;
use exb_model::memory::NoMemory;
use exb_model::setup::{ExtenderSetup, Setup, Timed, Verdict};
use exb_model::text::Text;
use exb_model::tree::Tree;
use exb_toml_keys::faults::TopoFault;
use exb_topology_tables::{Named, TopologyTables, tables_of};
use std::alloc::Global;

/// What a topology file says.
#[derive(Drop)]
pub struct Topology {
    /// The bridge, its extenders, and what is set before anything happens.
    pub setup: Setup,
    /// The commands, by the second at which they come.
    pub commands: List<Timed>,
    /// What becomes of the first control frames.
    pub fate: List<Verdict>,
    /// The captures that are read, each for an external port.
    pub captures: List<Named>,
    /// What the names of output files begin with.
    pub prefix: Text,
}

fn copied(alloc: Global, extenders: &[ExtenderSetup]) -> Result<List<ExtenderSetup>, NoMemory>
    ensures { IfOk result (λ copy. copy ≡ extenders.now) }
{
    let mut copy = List::new(alloc);
    for extender in extenders {
        copy.push(*extender)?;
    }
    Ok(copy)
}

/// The setup of the tables of a file, with nothing at its start yet.
fn bare(alloc: Global, tables: &TopologyTables) -> Result<Setup, NoMemory>
    ensures { IfOk result (λ setup. setup ≡ bare tables.now) }
{
    let extenders = copied(alloc, tables.extenders.as_slice())?;
    Ok(Setup {
        ports: tables.bridge.ports,
        extenders,
        channels: tables.bridge.channels,
        groups: tables.bridge.groups,
        ageing: tables.bridge.ageing,
        start: List::new(alloc),
    })
}

/// The third pass over the tables of a file.
#[tactic(auto, unfolding(crate::specs::Checks::ports_ok))]
fn check_ports(alloc: Global, tree: &Tree, tables: &TopologyTables) -> Result<(), TopoFault>
    ensures value { Gives result (ports_ok tree.now tables.now) }
    ensures named { OnOk result (each_ok (port_table_ok tree.now) tables.now.ports 0
        tables.now.ports ≡ Ok tt) }
{
    checks::check_ports(alloc, tree, tables.ports.as_slice())?;
    checks::check_vlans(alloc, tree, &tables.vlans)?;
    checks::check_statics(alloc, tree, tables.statics.as_slice())?;
    checks::check_commands(alloc, tree, tables.commands.as_slice())?;
    checks::check_captures(alloc, tree, tables.captures.as_slice())?;
    let prefix = tables.bridge.out.as_str();
    checks::check_files(alloc, tree, prefix, tables.captures.as_slice())
}

/// The commands of the tables: those of the start, and those that come later.
fn all_commands(
    alloc: Global,
    tree: &Tree,
    tables: &TopologyTables,
) -> Result<(List<Command>, List<Timed>), NoMemory>
    ensures start { IfOk result (λ made. map seen made.0 ≡ start_seen tree.now tables.now) }
    ensures later { IfOk result (λ made. map timed_view made.1
        ≡ map (command_seen tree.now) tables.now.commands) }
{
    let ports = tables.ports.as_slice();
    let start = commands::start_of(alloc, tree, ports, &tables.vlans, tables.statics.as_slice())?;
    let later = commands::commands_of(alloc, tree, tables.commands.as_slice())?;
    Ok((start, later))
}

/// The topology of a setup with these commands at its start, and of those that come later. It can't
/// fail, so that what is left of the tables goes at one end alone.
fn put_together(
    setup: Setup,
    start: List<Command>,
    later: List<Timed>,
    tables: TopologyTables,
) -> Topology
    ensures setup { result.setup ≡ record setup { start = start } }
    ensures commands { result.commands ≡ later }
    ensures fate { result.fate ≡ tables.fate }
    ensures captures { result.captures ≡ tables.captures }
    ensures prefix { result.prefix ≡ tables.bridge.out }
{
    let TopologyTables {
        bridge,
        fate,
        extenders: _extenders,
        ports: _ports,
        vlans: _vlans,
        statics: _statics,
        commands: _commands,
        captures,
    } = tables;
    let mut setup = setup;
    setup.start = start;
    Topology {
        setup,
        commands: later,
        fate,
        captures,
        prefix: bridge.out,
    }
}

/// The topology of tables that passed, from its valid setup with nothing at the start.
fn finished(
    alloc: Global,
    setup: Setup,
    tree: &Tree,
    tables: TopologyTables,
) -> Result<Topology, NoMemory>
    requires bare { setup ≡ bare tables }
    requires tree { tree.now ≡ shape_of setup }
    requires valid { IsValid setup }
    requires named { each_ok (port_table_ok tree.now) tables.ports 0 tables.ports ≡ Ok tt }
    ensures exact { IfOk result (λ t. topology_view t ≡ topology_seen tree.now tables) }
    ensures valid { IfOk result (λ t. IsValid t.setup) }
{
    match all_commands(alloc, tree, &tables) {
        Ok((start, later)) => Ok(put_together(setup, start, later, tables)),
        Err(fault) => {
            drop(setup);
            drop(tables);
            Err(fault)
        }
    }
}

/// The second and the third pass over the tables of a file, by the setup of these. Answers the
/// tree.
#[tactic(auto, unfolding(crate::specs::Topologies::resolved))]
fn passed(alloc: Global, setup: &Setup, tables: &TopologyTables) -> Result<Tree, TopoFault>
    requires ranges { AreInRange tables.now }
    requires bare { setup.now ≡ bare tables.now }
    ensures exact { GivesSeen (λ tree. topology_seen tree tables.now) result (resolved tables.now) }
    ensures tree { IfOk result (λ tree. tree ≡ shape_of setup.now) }
    ensures valid { OnOk result (IsValid setup.now) }
    ensures named { IfOk result (λ tree. each_ok (port_table_ok tree) tables.now.ports 0
        tables.now.ports ≡ Ok tt) }
{
    check_tree(alloc, setup)?;
    let tree = Tree::new(alloc, setup)?;
    match check_ports(alloc, &tree, tables) {
        Ok(()) => Ok(tree),
        Err(fault) => {
            drop(tree);
            Err(fault)
        }
    }
}

/// The second and the third pass over the tables of a file. What is owned goes by calls, since an
/// early end is far longer to prove where it lets it go.
fn resolved(alloc: Global, tables: TopologyTables) -> Result<Topology, TopoFault>
    requires { AreInRange tables }
    ensures exact { GivesSeen topology_view result (resolved tables) }
    ensures valid { IfOk result (λ t. IsValid t.setup) }
{
    let setup = match bare(alloc, &tables) {
        Ok(setup) => setup,
        Err(_) => {
            drop(tables);
            return Err(TopoFault::Memory);
        }
    };
    match passed(alloc, &setup, &tables) {
        Ok(tree) => {
            let topology = finished(alloc, setup, &tree, tables);
            drop(tree);
            Ok(topology?)
        }
        Err(fault) => {
            drop(setup);
            drop(tables);
            Err(fault)
        }
    }
}

/// The topology of a file, or its first fault. A file of more than 16,777,216 bytes is Large, and
/// one that isn't TOML is NotToml. Then three passes follow: the shape of the tables, the tree of
/// the extenders, and the ports that words name with what is given twice. Memory is the one answer
/// that the file doesn't decide.
#[tactic(auto, unfolding(crate::specs::Topologies::topology_of))]
pub fn read(alloc: Global, file: &[u8]) -> Result<Topology, TopoFault>
    ensures exact { GivesSeen topology_view result (topology_of file.now) }
    ensures valid { IfOk result (λ t. IsValid t.setup) }
    ensures sound { IfOk result IsSound }
{
    let tables = tables_of(alloc, file)?;
    resolved(alloc, tables)
}
