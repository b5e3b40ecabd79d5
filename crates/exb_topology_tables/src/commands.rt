//! Commands of a topology file.
ghost use Rattle.std.specs.Prelude.{◌≡◌, ◌≤◌, ◌+◌, IfOk, length, codes};
ghost use Rattle.toml.specs.Data.{get_member};
ghost use Rattle.toml.specs.View.{view, items_view, table_view};
ghost use Rattle.exb_toml_keys.specs.Faults.{Gives, in_element, place_text};
ghost use Rattle.exb_toml_keys.specs.Keys.{each, key_at};
ghost use Rattle.exb_topology_tables.specs.Schemas.{has_op_key};
ghost use Rattle.exb_topology_tables.specs.Commands.{op_in, action, command, command_item, after_command, commands};

use crate::schema::{Schema, is_of_three, is_of_two, only};
use exb_model::address::Mac;
use exb_model::list::List;
use exb_model::port::PortId;
use exb_model::rules::Accept;
use exb_model::setup::Verdict;
use exb_model::vlan::{Kind, Vid};
use exb_toml_keys::faults::{KeyFault, TopoFault};
use exb_toml_keys::key_path::{KeyPath, fault_at};
use exb_toml_keys::keys;
use exb_toml_keys::tables::{elements, table_of};
use exb_toml_keys::text_values::PortPattern;
use std::alloc::Global;
use toml::{Table, Value};

/// The operation of a command.
#[derive(Clone, Copy)]
pub enum Op {
    Vlan,
    Member,
    Unmember,
    Pvid,
    Accept,
    Filter,
    Isolate,
    Static,
    Unstatic,
    Up,
    Down,
}

impl Op {
    /// Whether it defines that key, beside those that each command has.
    pub fn has(self, key: &str) -> bool
        ensures { result ≡ has_op_key self key.now }
    {
        match self {
            Op::Vlan => is_of_three(key, "vid", "tagged", "untagged"),
            Op::Member => is_of_three(key, "vid", "port", "kind"),
            Op::Unmember | Op::Pvid => is_of_two(key, "vid", "port"),
            Op::Accept => is_of_two(key, "port", "accept"),
            Op::Filter => is_of_two(key, "port", "filter"),
            Op::Isolate => is_of_two(key, "port", "isolated"),
            Op::Static => is_of_three(key, "vid", "mac", "ports"),
            Op::Unstatic => is_of_two(key, "vid", "mac"),
            Op::Up | Op::Down => key == "port",
        }
    }
}

/// What a command does, with lists of ports as they were written.
#[derive(Drop)]
pub enum Action {
    Vlan {
        vid: Vid,
        tagged: List<PortPattern>,
        untagged: List<PortPattern>,
    },
    Member {
        vid: Vid,
        port: PortId,
        kind: Kind,
    },
    Unmember {
        vid: Vid,
        port: PortId,
    },
    Pvid {
        port: PortId,
        vid: Vid,
    },
    Accept {
        port: PortId,
        accept: Accept,
    },
    Filter {
        port: PortId,
        on: bool,
    },
    Isolate {
        port: PortId,
        on: bool,
    },
    Static {
        vid: Vid,
        address: Mac,
        ports: List<PortPattern>,
    },
    Unstatic {
        vid: Vid,
        address: Mac,
    },
    Up {
        port: PortId,
    },
    Down {
        port: PortId,
    },
}

/// An element of the list `command`: `at` in seconds, and what becomes of the control frames that
/// follow.
#[derive(Drop)]
pub struct CommandElement {
    pub at: u32,
    pub action: Action,
    pub fate: List<Verdict>,
}

/// The operation at the key `op`, which is required.
fn op_key(alloc: Global, place: KeyPath, table: &Table) -> Result<Op, TopoFault>
    ensures { Gives result (key_at op_in None (place_text place) (codes "op") (table_view table.now)) }
{
    match keys::member(table, "op") {
        Some(value) => match op_in(value) {
            Ok(op) => Ok(op),
            Err(fault) => Err(place.fault(alloc, "op", fault)),
        },
        None => Err(place.fault(alloc, "op", KeyFault::Missing)),
    }
}

/// The operation of a text.
#[tactic(auto, unfolding(crate::specs::Commands::op_in))]
fn op_in(value: &Value) -> Result<Op, KeyFault>
    ensures { result ≡ op_in (view value.now) }
{
    match value {
        Value::String(s) => match s.as_str() {
            "vlan" => Ok(Op::Vlan),
            "member" => Ok(Op::Member),
            "unmember" => Ok(Op::Unmember),
            "pvid" => Ok(Op::Pvid),
            "accept" => Ok(Op::Accept),
            "filter" => Ok(Op::Filter),
            "isolate" => Ok(Op::Isolate),
            "static" => Ok(Op::Static),
            "unstatic" => Ok(Op::Unstatic),
            "up" => Ok(Op::Up),
            "down" => Ok(Op::Down),
            _ => Err(KeyFault::Name),
        },
        _ => Err(KeyFault::Kind),
    }
}

/// The action of the operation `vlan`.
#[tactic(auto, unfolding(crate::specs::Commands::action))]
fn set_vlan(alloc: Global, place: KeyPath, table: &Table) -> Result<Action, TopoFault>
    ensures { Gives result (action Op.Vlan (place_text place) (table_view table.now)) }
{
    let vid = keys::vid_key(alloc, place, table, "vid", None)?;
    let tagged = keys::words_key(alloc, place, table, "tagged", false)?;
    let untagged = keys::words_key(alloc, place, table, "untagged", false)?;
    Ok(Action::Vlan {
        vid,
        tagged,
        untagged,
    })
}

/// The action of the operation `member`.
#[tactic(auto, unfolding(crate::specs::Commands::action))]
fn put_member(alloc: Global, place: KeyPath, table: &Table) -> Result<Action, TopoFault>
    ensures { Gives result (action Op.Member (place_text place) (table_view table.now)) }
{
    let vid = keys::vid_key(alloc, place, table, "vid", None)?;
    let port = keys::port_key(alloc, place, table, "port")?;
    let kind = keys::kind_key(alloc, place, table, "kind")?;
    Ok(Action::Member { vid, port, kind })
}

/// The action of the operation `unmember`.
#[tactic(auto, unfolding(crate::specs::Commands::action))]
fn take_member(alloc: Global, place: KeyPath, table: &Table) -> Result<Action, TopoFault>
    ensures { Gives result (action Op.Unmember (place_text place) (table_view table.now)) }
{
    let vid = keys::vid_key(alloc, place, table, "vid", None)?;
    let port = keys::port_key(alloc, place, table, "port")?;
    Ok(Action::Unmember { vid, port })
}

/// The action of the operation `pvid`.
#[tactic(auto, unfolding(crate::specs::Commands::action))]
fn set_pvid(alloc: Global, place: KeyPath, table: &Table) -> Result<Action, TopoFault>
    ensures { Gives result (action Op.Pvid (place_text place) (table_view table.now)) }
{
    let vid = keys::vid_key(alloc, place, table, "vid", None)?;
    let port = keys::port_key(alloc, place, table, "port")?;
    Ok(Action::Pvid { port, vid })
}

/// The action of the operation `accept`.
#[tactic(auto, unfolding(crate::specs::Commands::action))]
fn set_accept(alloc: Global, place: KeyPath, table: &Table) -> Result<Action, TopoFault>
    ensures { Gives result (action Op.Accept (place_text place) (table_view table.now)) }
{
    let port = keys::port_key(alloc, place, table, "port")?;
    let accept = keys::accept_key(alloc, place, table, "accept", None)?;
    Ok(Action::Accept { port, accept })
}

/// The action of the operation `filter`.
#[tactic(auto, unfolding(crate::specs::Commands::action))]
fn set_filter(alloc: Global, place: KeyPath, table: &Table) -> Result<Action, TopoFault>
    ensures { Gives result (action Op.Filter (place_text place) (table_view table.now)) }
{
    let port = keys::port_key(alloc, place, table, "port")?;
    let on = keys::flag_key(alloc, place, table, "filter", None)?;
    Ok(Action::Filter { port, on })
}

/// The action of the operation `isolate`.
#[tactic(auto, unfolding(crate::specs::Commands::action))]
fn set_isolated(alloc: Global, place: KeyPath, table: &Table) -> Result<Action, TopoFault>
    ensures { Gives result (action Op.Isolate (place_text place) (table_view table.now)) }
{
    let port = keys::port_key(alloc, place, table, "port")?;
    let on = keys::flag_key(alloc, place, table, "isolated", None)?;
    Ok(Action::Isolate { port, on })
}

/// The action of the operation `static`.
#[tactic(auto, unfolding(crate::specs::Commands::action))]
fn put_static(alloc: Global, place: KeyPath, table: &Table) -> Result<Action, TopoFault>
    ensures { Gives result (action Op.Static (place_text place) (table_view table.now)) }
{
    let vid = keys::vid_key(alloc, place, table, "vid", None)?;
    let address = keys::address_key(alloc, place, table, "mac")?;
    let ports = keys::words_key(alloc, place, table, "ports", true)?;
    Ok(Action::Static {
        vid,
        address,
        ports,
    })
}

/// The action of the operation `unstatic`.
#[tactic(auto, unfolding(crate::specs::Commands::action))]
fn take_static(alloc: Global, place: KeyPath, table: &Table) -> Result<Action, TopoFault>
    ensures { Gives result (action Op.Unstatic (place_text place) (table_view table.now)) }
{
    let vid = keys::vid_key(alloc, place, table, "vid", None)?;
    let address = keys::address_key(alloc, place, table, "mac")?;
    Ok(Action::Unstatic { vid, address })
}

/// What a command with that operation does.
#[tactic(auto, unfolding(crate::specs::Commands::action))]
fn action_of(alloc: Global, op: Op, place: KeyPath, table: &Table) -> Result<Action, TopoFault>
    ensures { Gives result (action op (place_text place) (table_view table.now)) }
{
    match op {
        Op::Vlan => set_vlan(alloc, place, table),
        Op::Member => put_member(alloc, place, table),
        Op::Unmember => take_member(alloc, place, table),
        Op::Pvid => set_pvid(alloc, place, table),
        Op::Accept => set_accept(alloc, place, table),
        Op::Filter => set_filter(alloc, place, table),
        Op::Isolate => set_isolated(alloc, place, table),
        Op::Static => put_static(alloc, place, table),
        Op::Unstatic => take_static(alloc, place, table),
        Op::Up => {
            let port = keys::port_key(alloc, place, table, "port")?;
            Ok(Action::Up { port })
        }
        Op::Down => {
            let port = keys::port_key(alloc, place, table, "port")?;
            Ok(Action::Down { port })
        }
    }
}

/// A command after one at that second, with this many letters of fates before it in the file.
#[tactic(auto, unfolding(crate::specs::Commands::command))]
fn command(
    alloc: Global,
    before: u32,
    letters: usize,
    index: usize,
    table: &Table,
) -> Result<CommandElement, TopoFault>
    requires { letters ≤ 60000 }
    ensures value { Gives result (command (before, letters) index (table_view table.now)) }
    ensures room { IfOk result (λ c. letters + length c.fate ≤ 60000) }
{
    let place = KeyPath::Element {
        table: "command",
        index,
    };
    let op = op_key(alloc, place, table)?;
    only(alloc, place, table, Schema::Command { op })?;
    let at = keys::seconds_key(alloc, place, table, "at", before)?;
    let action = action_of(alloc, op, place, table)?;
    let fate = keys::fate_key(alloc, place, table, "fate", letters)?;
    Ok(CommandElement { at, action, fate })
}

fn command_item(
    alloc: Global,
    before: u32,
    letters: usize,
    index: usize,
    item: &Value,
) -> Result<CommandElement, TopoFault>
    requires { letters ≤ 60000 }
    ensures value { Gives result (command_item (before, letters) index (view item.now)) }
    ensures room { IfOk result (λ c. letters + length c.fate ≤ 60000) }
{
    let table = table_of(alloc, "command", item)?;
    command(alloc, before, letters, index, table)
}

/// The commands of these elements, with this many letters of fates before them in the file.
fn command_rows(
    alloc: Global,
    items: &[Value],
    before_all: usize,
) -> Result<List<CommandElement>, TopoFault>
    requires { before_all ≤ 60000 }
    ensures { Gives result (each command_item after_command (0, before_all) 0
        (items_view items.now)) }
{
    let mut rows = List::new(alloc);
    let mut before: u32 = 0;
    let mut letters = before_all;
    for (index, item) in items.iter().enumerate() {
        let row = command_item(alloc, before, letters, index, item)?;
        before = row.at;
        letters += row.fate.as_slice().len();
        rows.push(row)?;
    }
    Ok(rows)
}

/// The commands of a file whose links' fate has this many letters: at most 65,536.
#[tactic(auto, unfolding(crate::specs::Commands::commands), using(crate::proofs::ItemCounts::count_items))]
pub(crate) fn commands(
    alloc: Global,
    root: &Table,
    letters: usize,
) -> Result<List<CommandElement>, TopoFault>
    requires { letters ≤ 60000 }
    ensures { Gives result (commands letters (table_view root.now)) }
{
    let items = elements(alloc, "command", root)?;
    if items.len() > 65_536 {
        return Err(fault_at(alloc, "command", KeyFault::Range));
    }
    command_rows(alloc, items, letters)
}
