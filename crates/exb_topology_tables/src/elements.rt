//! The other tables of a topology file.
ghost use Rattle.std.specs.Prelude.{◌≡◌, ◌≤◌, ◌++◌, IfOk, length, codes, Some, None};
ghost use Rattle.std.specs.List.{All};
ghost use Rattle.toml.specs.Data.{get_member};
ghost use Rattle.toml.specs.View.{view, items_view, table_view};
ghost use Rattle.exb_model.specs.Setup.{InRange, IsPlace};
ghost use Rattle.exb_toml_keys.specs.Faults.{Gives, in_table};
ghost use Rattle.exb_toml_keys.specs.Keys.{each, same_state, named, placed, text};
ghost use Rattle.exb_toml_keys.specs.TextValues.{port_of};
ghost use Rattle.exb_topology_tables.specs.Elements.{IsBridgeInRange, bridge, bridge_key, links, links_key, place_of, extender, extender_item, extenders, port, port_item, ports, vlan, vlan_item, vlans, static_entry, static_item, statics, capture, captures, captures_key};

use crate::schema::{Schema, only};
use exb_model::address::Mac;
use exb_model::list::List;
use exb_model::port::PortId;
use exb_model::rules::Accept;
use exb_model::setup::{ExtenderSetup, Place, Verdict};
use exb_model::text::Text;
use exb_model::vlan::Vid;
use exb_toml_keys::faults::{KeyFault, TopoFault};
use exb_toml_keys::key_path::{KeyPath as At, fault_at};
use exb_toml_keys::tables::{elements, table_of};
use exb_toml_keys::text_values::PortPattern;
use exb_toml_keys::{keys, text_values};
use std::alloc::Global;
use toml::{Table, Value};

/// The table `bridge`.
#[derive(Drop)]
pub struct BridgeTable {
    /// Local ports, 1 to 64.
    pub ports: u8,
    /// E-channels of each number space, 1 to 4094.
    pub channels: u16,
    /// Groups of each number space, 1 to 12288.
    pub groups: u16,
    /// The ageing time in seconds, 0 or 10 to 1,000,000.
    pub ageing: u32,
    /// The prefix of the names of output files.
    pub out: Text,
}

/// An element of the list `port`.
#[derive(Clone, Copy)]
pub struct PortElement {
    pub name: PortId,
    pub pvid: Vid,
    pub accept: Accept,
    pub filter: bool,
    pub isolated: bool,
}

/// An element of the list `vlan`: it stands for each VLAN from `vid` to `last`.
#[derive(Drop)]
pub struct VlanElement {
    pub vid: Vid,
    pub last: Vid,
    pub tagged: List<PortPattern>,
    pub untagged: List<PortPattern>,
}

/// An element of the list `static`.
#[derive(Drop)]
pub struct StaticElement {
    pub vid: Vid,
    pub address: Mac,
    pub ports: List<PortPattern>,
}

/// The capture that is read for a port, by the name of its file.
#[derive(Drop)]
pub struct Named {
    pub port: PortId,
    pub name: Text,
}

#[tactic(auto, unfolding(crate::specs::Elements::bridge))]
fn bridge(alloc: Global, table: &Table) -> Result<BridgeTable, TopoFault>
    ensures value { Gives result (bridge (table_view table.now)) }
    ensures range { IfOk result IsBridgeInRange }
{
    let place = At::Table { table: "bridge" };
    only(alloc, place, table, Schema::Bridge)?;
    let ports = keys::number_key(alloc, place, table, "ports", (1, 64), None)?;
    let channels = keys::number_key(alloc, place, table, "channels", (1, 4094), Some(4094))?;
    let groups = keys::number_key(alloc, place, table, "groups", (1, 12288), Some(12288))?;
    let ageing = keys::ageing_key(alloc, place, table, "ageing")?;
    let out = keys::text_key(alloc, place, table, "out", "out-")?;
    Ok(BridgeTable {
        ports: ports as u8,
        channels: channels as u16,
        groups: groups as u16,
        ageing,
        out,
    })
}

#[tactic(auto, unfolding(crate::specs::Elements::bridge_key))]
pub(crate) fn bridge_key(alloc: Global, root: &Table) -> Result<BridgeTable, TopoFault>
    ensures value { Gives result (bridge_key (get_member (codes "bridge") (table_view root.now))) }
    ensures range { IfOk result IsBridgeInRange }
{
    match keys::member(root, "bridge") {
        None => Err(fault_at(alloc, "bridge", KeyFault::Missing)),
        Some(item) => {
            let table = table_of(alloc, "bridge", item)?;
            bridge(alloc, table)
        }
    }
}

#[tactic(auto, unfolding(crate::specs::Elements::links))]
fn links(alloc: Global, table: &Table) -> Result<List<Verdict>, TopoFault>
    ensures value { Gives result (links (table_view table.now)) }
    ensures room { IfOk result (λ fate. length fate ≤ 60000) }
{
    let place = At::Table { table: "links" };
    only(alloc, place, table, Schema::Links)?;
    keys::fate_key(alloc, place, table, "fate", 0)
}

#[tactic(auto, unfolding(crate::specs::Elements::links_key))]
pub(crate) fn links_key(alloc: Global, root: &Table) -> Result<List<Verdict>, TopoFault>
    ensures value { Gives result (links_key (get_member (codes "links") (table_view root.now))) }
    ensures room { IfOk result (λ fate. length fate ≤ 60000) }
{
    match keys::member(root, "links") {
        None => Ok(List::new(alloc)),
        Some(item) => {
            let table = table_of(alloc, "links", item)?;
            links(alloc, table)
        }
    }
}

/// The place of a port.
fn place_of(port: PortId) -> Place
    ensures value { result ≡ place_of port }
    ensures range { IsPlace result }
{
    let number = port.number();
    if number < 64 {
        Place::Bridge {
            port: number as u8 + 1,
        }
    } else {
        Place::Extender {
            number: port.device(),
            port: port.place() + 1,
        }
    }
}

#[tactic(auto, unfolding(crate::specs::Elements::extender))]
fn extender(alloc: Global, index: usize, table: &Table) -> Result<ExtenderSetup, TopoFault>
    ensures value { Gives result (extender index (table_view table.now)) }
    ensures range { IfOk result InRange }
{
    let place = At::Element {
        table: "extender",
        index,
    };
    only(alloc, place, table, Schema::Extender)?;
    let number = keys::number_key(alloc, place, table, "number", (1, 64), None)?;
    let on = keys::port_key(alloc, place, table, "on")?;
    let ports = keys::number_key(alloc, place, table, "ports", (1, 64), None)?;
    Ok(ExtenderSetup {
        number: number as u8,
        ports: ports as u8,
        on: place_of(on),
    })
}

fn extender_item(alloc: Global, index: usize, item: &Value) -> Result<ExtenderSetup, TopoFault>
    ensures value { Gives result (extender_item tt index (view item.now)) }
    ensures range { IfOk result InRange }
{
    let table = table_of(alloc, "extender", item)?;
    extender(alloc, index, table)
}

fn extender_rows(alloc: Global, items: &[Value]) -> Result<List<ExtenderSetup>, TopoFault>
    ensures value { Gives result (each extender_item same_state tt 0 (items_view items.now)) }
    ensures range { IfOk result (λ es. All InRange es) }
{
    let mut rows = List::new(alloc);
    for (index, item) in items.iter().enumerate() {
        let row = extender_item(alloc, index, item)?;
        rows.push(row)?;
    }
    Ok(rows)
}

#[tactic(auto, unfolding(crate::specs::Elements::extenders))]
pub(crate) fn extenders(alloc: Global, root: &Table) -> Result<List<ExtenderSetup>, TopoFault>
    ensures value { Gives result (extenders (table_view root.now)) }
    ensures range { IfOk result (λ es. All InRange es) }
{
    let items = elements(alloc, "extender", root)?;
    extender_rows(alloc, items)
}

#[tactic(auto, unfolding(crate::specs::Elements::port))]
fn port(alloc: Global, index: usize, table: &Table) -> Result<PortElement, TopoFault>
    ensures { Gives result (port index (table_view table.now)) }
{
    let place = At::Element {
        table: "port",
        index,
    };
    only(alloc, place, table, Schema::Port)?;
    let name = keys::port_key(alloc, place, table, "name")?;
    let pvid = keys::vid_key(alloc, place, table, "pvid", Some(Vid::default()))?;
    let accept = keys::accept_key(alloc, place, table, "accept", Some(Accept::All))?;
    let filter = keys::flag_key(alloc, place, table, "filter", Some(false))?;
    let isolated = keys::flag_key(alloc, place, table, "isolated", Some(false))?;
    Ok(PortElement {
        name,
        pvid,
        accept,
        filter,
        isolated,
    })
}

fn port_item(alloc: Global, index: usize, item: &Value) -> Result<PortElement, TopoFault>
    ensures { Gives result (port_item tt index (view item.now)) }
{
    let table = table_of(alloc, "port", item)?;
    port(alloc, index, table)
}

fn port_rows(alloc: Global, items: &[Value]) -> Result<List<PortElement>, TopoFault>
    ensures { Gives result (each port_item same_state tt 0 (items_view items.now)) }
{
    let mut rows = List::new(alloc);
    for (index, item) in items.iter().enumerate() {
        let row = port_item(alloc, index, item)?;
        rows.push(row)?;
    }
    Ok(rows)
}

#[tactic(auto, unfolding(crate::specs::Elements::ports))]
pub(crate) fn ports(alloc: Global, root: &Table) -> Result<List<PortElement>, TopoFault>
    ensures { Gives result (ports (table_view root.now)) }
{
    let items = elements(alloc, "port", root)?;
    port_rows(alloc, items)
}

#[tactic(auto, unfolding(crate::specs::Elements::vlan))]
fn vlan(alloc: Global, index: usize, table: &Table) -> Result<VlanElement, TopoFault>
    ensures { Gives result (vlan index (table_view table.now)) }
{
    let place = At::Element {
        table: "vlan",
        index,
    };
    only(alloc, place, table, Schema::Vlan)?;
    let vid = keys::vid_key(alloc, place, table, "vid", None)?;
    let last = keys::last_key(alloc, place, table, "last", vid)?;
    let tagged = keys::words_key(alloc, place, table, "tagged", false)?;
    let untagged = keys::words_key(alloc, place, table, "untagged", false)?;
    Ok(VlanElement {
        vid,
        last,
        tagged,
        untagged,
    })
}

fn vlan_item(alloc: Global, index: usize, item: &Value) -> Result<VlanElement, TopoFault>
    ensures { Gives result (vlan_item tt index (view item.now)) }
{
    let table = table_of(alloc, "vlan", item)?;
    vlan(alloc, index, table)
}

fn vlan_rows(alloc: Global, items: &[Value]) -> Result<List<VlanElement>, TopoFault>
    ensures { Gives result (each vlan_item same_state tt 0 (items_view items.now)) }
{
    let mut rows = List::new(alloc);
    for (index, item) in items.iter().enumerate() {
        let row = vlan_item(alloc, index, item)?;
        rows.push(row)?;
    }
    Ok(rows)
}

/// The VLANs of a file; None where it has no key `vlan`.
#[tactic(auto, unfolding(crate::specs::Elements::vlans))]
pub(crate) fn vlans(alloc: Global, root: &Table) -> Result<Option<List<VlanElement>>, TopoFault>
    ensures { Gives result (vlans (table_view root.now)) }
{
    if keys::member(root, "vlan").is_none() {
        return Ok(None);
    }
    let items = elements(alloc, "vlan", root)?;
    let rows = vlan_rows(alloc, items)?;
    Ok(Some(rows))
}

#[tactic(auto, unfolding(crate::specs::Elements::static_entry))]
fn static_entry(alloc: Global, index: usize, table: &Table) -> Result<StaticElement, TopoFault>
    ensures { Gives result (static_entry index (table_view table.now)) }
{
    let place = At::Element {
        table: "static",
        index,
    };
    only(alloc, place, table, Schema::Static)?;
    let vid = keys::vid_key(alloc, place, table, "vid", None)?;
    let address = keys::address_key(alloc, place, table, "mac")?;
    let ports = keys::words_key(alloc, place, table, "ports", true)?;
    Ok(StaticElement {
        vid,
        address,
        ports,
    })
}

fn static_item(alloc: Global, index: usize, item: &Value) -> Result<StaticElement, TopoFault>
    ensures { Gives result (static_item tt index (view item.now)) }
{
    let table = table_of(alloc, "static", item)?;
    static_entry(alloc, index, table)
}

fn static_rows(alloc: Global, items: &[Value]) -> Result<List<StaticElement>, TopoFault>
    ensures { Gives result (each static_item same_state tt 0 (items_view items.now)) }
{
    let mut rows = List::new(alloc);
    for (index, item) in items.iter().enumerate() {
        let row = static_item(alloc, index, item)?;
        rows.push(row)?;
    }
    Ok(rows)
}

#[tactic(auto, unfolding(crate::specs::Elements::statics))]
pub(crate) fn statics(alloc: Global, root: &Table) -> Result<List<StaticElement>, TopoFault>
    ensures { Gives result (statics (table_view root.now)) }
{
    let items = elements(alloc, "static", root)?;
    static_rows(alloc, items)
}

fn port_named(alloc: Global, key: &str) -> Result<PortId, TopoFault>
    ensures { Gives result (placed (in_table (codes "captures") ++ key.now) (named (port_of key.now))) }
{
    let place = At::Table { table: "captures" };
    match text_values::port_of(key.as_bytes()) {
        Some(port) => Ok(port),
        None => Err(place.fault(alloc, key, KeyFault::Name)),
    }
}

#[tactic(auto, unfolding(exb_toml_keys::specs::Keys::text))]
fn file_name(alloc: Global, key: &str, value: &Value) -> Result<Text, TopoFault>
    ensures { Gives result (placed (in_table (codes "captures") ++ key.now) (text (view value.now))) }
{
    let place = At::Table { table: "captures" };
    match value {
        Value::String(name) => Ok(Text::from_str(alloc, name.as_str())?),
        _ => Err(place.fault(alloc, key, KeyFault::Kind)),
    }
}

#[tactic(auto, unfolding(crate::specs::Elements::capture))]
fn capture(alloc: Global, key: &str, value: &Value) -> Result<Named, TopoFault>
    ensures { Gives result (capture key.now (view value.now)) }
{
    let port = port_named(alloc, key)?;
    let name = file_name(alloc, key, value)?;
    Ok(Named { port, name })
}

/// The captures of the table, by the ports that are its keys, in byte order of these.
fn captures(alloc: Global, table: &Table) -> Result<List<Named>, TopoFault>
    ensures { Gives result (captures (table_view table.now)) }
{
    let mut all = List::new(alloc);
    for (key, value) in table.iter() {
        let file = capture(alloc, key.as_str(), value)?;
        all.push(file)?;
    }
    Ok(all)
}

#[tactic(auto, unfolding(crate::specs::Elements::captures_key))]
pub(crate) fn captures_key(alloc: Global, root: &Table) -> Result<List<Named>, TopoFault>
    ensures { Gives result (captures_key (get_member (codes "captures") (table_view root.now))) }
{
    match keys::member(root, "captures") {
        None => Ok(List::new(alloc)),
        Some(item) => {
            let table = table_of(alloc, "captures", item)?;
            captures(alloc, table)
        }
    }
}
