//! The commands of a topology, with its words resolved: those of the start, and those that come
//! later.
ghost use Rattle.std.specs.Prelude.{◌≡◌, ◌++◌, ◌∷◌, [], IfOk, OnOk, map, flat_map};
ghost use Rattle.exb_topology.specs.Checks.{listed};
ghost use Rattle.exb_topology.specs.CommandViews.{seen, timed_view, set_vlan, put_static, set_pvid, set_accept, set_filter, set_isolated};
ghost use Rattle.exb_topology.specs.Topologies.{port_start, vlan_start, vlans_start, static_start, deed, command_seen};

use crate::port_sets::listed;
use exb_model::address::Mac;
use exb_model::command::Command;
use exb_model::list::List;
use exb_model::memory::NoMemory;
use exb_model::port::PortId;
use exb_model::port_set::PortSet;
use exb_model::rules::Accept;
use exb_model::setup::{Timed, Verdict};
use exb_model::tree::Tree;
use exb_model::vlan::Vid;
use exb_toml_keys::text_values::PortPattern;
use exb_topology_tables::{Action, CommandElement, PortElement, StaticElement, VlanElement};
use std::alloc::Global;

/// The command that sets the PVID of a port.
fn set_pvid(port: PortId, vid: Vid) -> Command
    ensures { seen result ≡ set_pvid port vid }
{
    Command::Pvid { port, vid }
}

/// The command that sets which frames a port takes.
fn set_accept(port: PortId, accept: Accept) -> Command
    ensures { seen result ≡ set_accept port accept }
{
    Command::Accept { port, accept }
}

/// The command that sets whether a port filters by VLAN.
fn set_filter(port: PortId, on: bool) -> Command
    ensures { seen result ≡ set_filter port on }
{
    Command::Filter { port, on }
}

/// The command that sets whether a port is isolated.
fn set_isolated(port: PortId, on: bool) -> Command
    ensures { seen result ≡ set_isolated port on }
{
    Command::Isolate { port, on }
}

/// Puts the rules of a port at the end.
fn add_rules(port: PortElement, start: &mut List<Command>) -> Result<(), NoMemory>
    ensures { OnOk result (map seen start.new ≡ map seen start.old ++ port_start port) }
{
    start.push(set_pvid(port.name, port.pvid))?;
    start.push(set_accept(port.name, port.accept))?;
    start.push(set_filter(port.name, port.filter))?;
    start.push(set_isolated(port.name, port.isolated))
}

/// Puts the rules of these ports at the end.
pub(crate) fn add_ports(ports: &[PortElement], start: &mut List<Command>) -> Result<(), NoMemory>
    ensures { OnOk result (map seen start.new ≡ map seen start.old ++ flat_map port_start
        ports.now) }
{
    for port in ports {
        add_rules(*port, start)?;
    }
    Ok(())
}

/// Puts the VLANs of a range at the end.
fn add_vlan(tree: &Tree, vlan: &VlanElement, start: &mut List<Command>) -> Result<(), NoMemory>
    ensures { OnOk result (map seen start.new ≡ map seen start.old ++ vlan_start tree.now
        vlan.now) }
{
    let tagged = listed(tree, vlan.tagged.as_slice());
    let untagged = listed(tree, vlan.untagged.as_slice());
    for number in vlan.vid.number()..vlan.last.number() + 1 {
        start.push(Command::Vlan {
            vid: Vid::new(number).unwrap(),
            tagged,
            untagged,
        })?;
    }
    Ok(())
}

/// Puts these VLANs at the end.
fn add_each_vlan(
    tree: &Tree,
    vlans: &[VlanElement],
    start: &mut List<Command>,
) -> Result<(), NoMemory>
    ensures { OnOk result (map seen start.new ≡ map seen start.old ++ flat_map (vlan_start tree.now)
        vlans.now) }
{
    for vlan in vlans {
        add_vlan(tree, vlan, start)?;
    }
    Ok(())
}

/// Puts the VLANs at the end: where the file gives none, VLAN 1 with every external port, untagged.
pub(crate) fn add_vlans(
    tree: &Tree,
    vlans: &Option<List<VlanElement>>,
    start: &mut List<Command>,
) -> Result<(), NoMemory>
    ensures { OnOk result (map seen start.new ≡ map seen start.old ++ vlans_start tree.now
        vlans.now) }
{
    match vlans {
        Some(vlans) => add_each_vlan(tree, vlans.as_slice(), start),
        None => start.push(Command::Vlan {
            vid: Vid::default(),
            tagged: PortSet::empty(),
            untagged: tree.external_ports(),
        }),
    }
}

/// Puts these static entries at the end.
pub(crate) fn add_statics(
    tree: &Tree,
    statics: &[StaticElement],
    start: &mut List<Command>,
) -> Result<(), NoMemory>
    ensures { OnOk result (map seen start.new ≡ map seen start.old ++ map (static_start tree.now)
        statics.now) }
{
    for entry in statics {
        start.push(Command::Static {
            vid: entry.vid,
            address: entry.address,
            ports: listed(tree, entry.ports.as_slice()),
        })?;
    }
    Ok(())
}

/// The command that sets a VLAN to the ports that words name.
fn set_vlan(
    tree: &Tree,
    vid: Vid,
    tagged: &List<PortPattern>,
    untagged: &List<PortPattern>,
) -> Command
    ensures { seen result ≡ set_vlan vid (listed tree.now tagged.now)
        (listed tree.now untagged.now) }
{
    Command::Vlan {
        vid,
        tagged: listed(tree, tagged.as_slice()),
        untagged: listed(tree, untagged.as_slice()),
    }
}

/// The command that puts a static entry with the ports that words name.
fn put_static(tree: &Tree, vid: Vid, address: Mac, words: &List<PortPattern>) -> Command
    ensures { seen result ≡ put_static vid address (listed tree.now words.now) }
{
    Command::Static {
        vid,
        address,
        ports: listed(tree, words.as_slice()),
    }
}

/// The command of an action.
fn command_of(tree: &Tree, action: &Action) -> Command
    ensures { seen result ≡ deed tree.now action.now }
{
    match action {
        Action::Vlan {
            vid,
            tagged,
            untagged,
        } => set_vlan(tree, *vid, tagged, untagged),
        Action::Member { vid, port, kind } => Command::Member {
            vid: *vid,
            port: *port,
            kind: *kind,
        },
        Action::Unmember { vid, port } => Command::Unmember {
            vid: *vid,
            port: *port,
        },
        Action::Pvid { port, vid } => set_pvid(*port, *vid),
        Action::Accept { port, accept } => set_accept(*port, *accept),
        Action::Filter { port, on } => set_filter(*port, *on),
        Action::Isolate { port, on } => set_isolated(*port, *on),
        Action::Static {
            vid,
            address,
            ports,
        } => put_static(tree, *vid, *address, ports),
        Action::Unstatic { vid, address } => Command::Unstatic {
            vid: *vid,
            address: *address,
        },
        Action::Up { port } => Command::Up { port: *port },
        Action::Down { port } => Command::Down { port: *port },
    }
}

/// What is set before anything happens: the ports in file order, then the VLANs, then the static
/// entries.
pub(crate) fn start_of(
    alloc: Global,
    tree: &Tree,
    tables: &[PortElement],
    vlans: &Option<List<VlanElement>>,
    statics: &[StaticElement],
) -> Result<List<Command>, NoMemory>
    ensures { IfOk result (λ start. map seen start ≡ flat_map port_start tables.now
        ++ vlans_start tree.now vlans.now ++ map (static_start tree.now) statics.now) }
{
    let mut start = List::new(alloc);
    add_ports(tables, &mut start)?;
    add_vlans(tree, vlans, &mut start)?;
    add_statics(tree, statics, &mut start)?;
    Ok(start)
}

fn copied(alloc: Global, fate: &[Verdict]) -> Result<List<Verdict>, NoMemory>
    ensures { IfOk result (λ copy. copy ≡ fate.now) }
{
    let mut copy = List::new(alloc);
    for verdict in fate {
        copy.push(*verdict)?;
    }
    Ok(copy)
}

fn timed_of(alloc: Global, tree: &Tree, command: &CommandElement) -> Result<Timed, NoMemory>
    ensures { IfOk result (λ made. timed_view made ≡ command_seen tree.now command.now) }
{
    let fate = copied(alloc, command.fate.as_slice())?;
    Ok(Timed {
        at: command.at,
        command: command_of(tree, &command.action),
        fate,
    })
}

/// The commands that come later.
pub(crate) fn commands_of(
    alloc: Global,
    tree: &Tree,
    commands: &[CommandElement],
) -> Result<List<Timed>, NoMemory>
    ensures { IfOk result (λ all. map timed_view all ≡ map (command_seen tree.now) commands.now) }
{
    let mut all = List::new(alloc);
    for command in commands {
        all.push(timed_of(alloc, tree, command)?)?;
    }
    Ok(all)
}
