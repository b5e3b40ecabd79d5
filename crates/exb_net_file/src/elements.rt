//! The tables of the file of a net.
ghost use Rattle.std.specs.Prelude.{◌≡◌, ◌==◌, ◌≤◌, nat_lt, IfOk, None, codes, length};
ghost use Rattle.toml.specs.View.{view, items_view, table_view};
ghost use Rattle.exb_toml_keys.specs.Faults.{Gives, place_text};
ghost use Rattle.exb_toml_keys.specs.Keys.{text, key_at, each, same_state};
ghost use Rattle.exb_topology_tables.specs.Commands.{count};
ghost use Rattle.exb_topology.specs.ElementChecks.{refuse};
ghost use Rattle.exb_net_file.specs.Elements.{name, end, bridge, bridge_item, bridges, wire, wire_item, wires};

use crate::end_names::{EndName, end_of, is_name};
use crate::schema::{NetSchema, only};
use exb_model::list::List;
use exb_model::text::Text;
use exb_toml_keys::faults::{KeyFault, TopoFault};
use exb_toml_keys::key_path::{KeyPath, fault_at};
use exb_toml_keys::keys::member;
use exb_toml_keys::tables::{elements, table_of};
use std::alloc::Global;
use toml::{Table, Value};

/// An element of the list `bridge`.
#[derive(Drop)]
pub struct NetBridge {
    /// 1 to 32 letters a to z or digits.
    pub name: Text,
    /// The name of the file with its topology.
    pub topology: Text,
}

/// An element of the list `wire`.
#[derive(Drop)]
pub struct NetWire {
    pub a: EndName,
    pub b: EndName,
}

/// The text at a key, which is required.
#[tactic(auto, unfolding(exb_toml_keys::specs::Keys::text))]
fn text_key(alloc: Global, place: KeyPath, table: &Table, key: &str) -> Result<Text, TopoFault>
    ensures { Gives result (key_at text None (place_text place) key.now (table_view table.now)) }
{
    match member(table, key) {
        Some(Value::String(text)) => Ok(Text::from_str(alloc, text.as_str())?),
        Some(_) => Err(place.fault(alloc, key, KeyFault::Kind)),
        None => Err(place.fault(alloc, key, KeyFault::Missing)),
    }
}

/// The name of a bridge at a key, which is required.
#[tactic(auto, unfolding(crate::specs::Elements::name))]
fn name_key(alloc: Global, place: KeyPath, table: &Table, key: &str) -> Result<Text, TopoFault>
    ensures { Gives result (key_at name None (place_text place) key.now (table_view table.now)) }
{
    match member(table, key) {
        Some(Value::String(text)) => {
            if !is_name(text.as_str()) {
                return Err(place.fault(alloc, key, KeyFault::Name));
            }
            Ok(Text::from_str(alloc, text.as_str())?)
        }
        Some(_) => Err(place.fault(alloc, key, KeyFault::Kind)),
        None => Err(place.fault(alloc, key, KeyFault::Missing)),
    }
}

/// The end of a wire at a key, which is required.
#[tactic(auto, unfolding(crate::specs::Elements::end))]
fn end_key(alloc: Global, place: KeyPath, table: &Table, key: &str) -> Result<EndName, TopoFault>
    ensures { Gives result (key_at end None (place_text place) key.now (table_view table.now)) }
{
    match member(table, key) {
        Some(Value::String(text)) => match end_of(alloc, text.as_str())? {
            Some(end) => Ok(end),
            None => Err(place.fault(alloc, key, KeyFault::Name)),
        },
        Some(_) => Err(place.fault(alloc, key, KeyFault::Kind)),
        None => Err(place.fault(alloc, key, KeyFault::Missing)),
    }
}

#[tactic(auto, unfolding(crate::specs::Elements::bridge))]
fn bridge(alloc: Global, index: usize, table: &Table) -> Result<NetBridge, TopoFault>
    ensures { Gives result (bridge index (table_view table.now)) }
{
    let place = KeyPath::Element {
        table: "bridge",
        index,
    };
    only(alloc, place, table, NetSchema::Bridge)?;
    let name = name_key(alloc, place, table, "name")?;
    let topology = text_key(alloc, place, table, "topology")?;
    Ok(NetBridge { name, topology })
}

fn bridge_item(alloc: Global, index: usize, item: &Value) -> Result<NetBridge, TopoFault>
    ensures { Gives result (bridge_item tt index (view item.now)) }
{
    let table = table_of(alloc, "bridge", item)?;
    bridge(alloc, index, table)
}

fn bridge_rows(alloc: Global, items: &[Value]) -> Result<List<NetBridge>, TopoFault>
    ensures { Gives result (each bridge_item same_state tt 0 (items_view items.now)) }
{
    let mut rows = List::new(alloc);
    for (index, item) in items.iter().enumerate() {
        let row = bridge_item(alloc, index, item)?;
        rows.push(row)?;
    }
    Ok(rows)
}

/// Refuses a whole list of tables for that fault, where the test passes.
pub(crate) fn refuse_table(
    alloc: Global,
    test: bool,
    table: &str,
    fault: KeyFault,
) -> Result<(), TopoFault>
    ensures { Gives result (refuse test fault table.now) }
{
    if test {
        Err(fault_at(alloc, table, fault))
    } else {
        Ok(())
    }
}

/// The bridges of a file: 1 to 16.
#[tactic(auto, unfolding(crate::specs::Elements::bridges), using(exb_topology_tables::proofs::ItemCounts::count_items))]
pub(crate) fn bridges(alloc: Global, root: &Table) -> Result<List<NetBridge>, TopoFault>
    ensures { Gives result (bridges (table_view root.now)) }
{
    let items = elements(alloc, "bridge", root)?;
    refuse_table(alloc, items.len() == 0, "bridge", KeyFault::Missing)?;
    refuse_table(alloc, items.len() > 16, "bridge", KeyFault::Range)?;
    bridge_rows(alloc, items)
}

#[tactic(auto, unfolding(crate::specs::Elements::wire))]
fn wire(alloc: Global, index: usize, table: &Table) -> Result<NetWire, TopoFault>
    ensures { Gives result (wire index (table_view table.now)) }
{
    let place = KeyPath::Element {
        table: "wire",
        index,
    };
    only(alloc, place, table, NetSchema::Wire)?;
    let a = end_key(alloc, place, table, "a")?;
    let b = end_key(alloc, place, table, "b")?;
    Ok(NetWire { a, b })
}

fn wire_item(alloc: Global, index: usize, item: &Value) -> Result<NetWire, TopoFault>
    ensures { Gives result (wire_item tt index (view item.now)) }
{
    let table = table_of(alloc, "wire", item)?;
    wire(alloc, index, table)
}

fn wire_rows(alloc: Global, items: &[Value]) -> Result<List<NetWire>, TopoFault>
    ensures { Gives result (each wire_item same_state tt 0 (items_view items.now)) }
{
    let mut rows = List::new(alloc);
    for (index, item) in items.iter().enumerate() {
        let row = wire_item(alloc, index, item)?;
        rows.push(row)?;
    }
    Ok(rows)
}

/// The wires of a file: at most 15.
#[tactic(auto, unfolding(crate::specs::Elements::wires), using(exb_topology_tables::proofs::ItemCounts::count_items))]
pub(crate) fn wires(alloc: Global, root: &Table) -> Result<List<NetWire>, TopoFault>
    ensures { Gives result (wires (table_view root.now)) }
{
    let items = elements(alloc, "wire", root)?;
    refuse_table(alloc, items.len() > 15, "wire", KeyFault::Range)?;
    wire_rows(alloc, items)
}
