//! A topology file, table by table.
ghost use Rattle.std.specs.Prelude.{◌≡◌, [], Ok, IfOk, OnOk, codes};
ghost use Rattle.toml.specs.Data.{get_member};
ghost use Rattle.toml.specs.View.{table_view};
ghost use Rattle.exb_toml_keys.specs.Faults.{Gives, GivesSeen};
ghost use Rattle.exb_toml_keys.specs.Keys.{only};
ghost use Rattle.exb_topology_tables.specs.Schemas.{has_key};
ghost use Rattle.exb_topology_tables.specs.Elements.{IsBridgeInRange, bridge_key};
ghost use Rattle.exb_topology_tables.specs.Tables.{file_tables, tables_of, AreInRange};

use crate::commands::{CommandElement, commands};
use crate::elements;
use crate::elements::{BridgeTable, Named, PortElement, StaticElement, VlanElement};
use crate::schema::{Schema, only};
use exb_model::list::List;
use exb_model::setup::{ExtenderSetup, Verdict};
use exb_toml_keys::document::document;
use exb_toml_keys::faults::TopoFault;
use exb_toml_keys::key_path::KeyPath;
use std::alloc::Global;
use toml::Table;

/// How many bytes a topology file may have.
const MOST_BYTES: usize = 16_777_216;

/// The tables of a topology file, elements in the order of the file.
#[derive(Drop)]
pub struct TopologyTables {
    pub bridge: BridgeTable,
    /// The key `fate` of the table `links`.
    pub fate: List<Verdict>,
    pub extenders: List<ExtenderSetup>,
    pub ports: List<PortElement>,
    /// None where the file has no key `vlan`.
    pub vlans: Option<List<VlanElement>>,
    pub statics: List<StaticElement>,
    pub commands: List<CommandElement>,
    /// The captures, in byte order of their keys.
    pub captures: List<Named>,
}

/// Tables of that bridge, with nothing else in them yet.
fn of_bridge(alloc: Global, bridge: BridgeTable) -> TopologyTables
    ensures { result.bridge ≡ bridge }
{
    TopologyTables {
        bridge,
        fate: List::new(alloc),
        extenders: List::new(alloc),
        ports: List::new(alloc),
        vlans: None,
        statics: List::new(alloc),
        commands: List::new(alloc),
        captures: List::new(alloc),
    }
}

/// Reads the tables of a document that follow the bridge's. The caller owns them, since an early
/// end is far longer to prove where it lets go of what was read.
#[tactic(auto, unfolding(crate::specs::Tables::file_tables))]
fn read_others(alloc: Global, root: &Table, tables: &mut TopologyTables) -> Result<(), TopoFault>
    requires known { only (has_key Schema.Root) [] (table_view root.now) ≡ Ok tt }
    requires bridge { bridge_key (get_member (codes "bridge") (table_view root.now)) ≡ Ok tables.old.bridge }
    requires range { IsBridgeInRange tables.old.bridge }
    ensures value { GivesSeen (λ _. tables.new) result (file_tables (table_view root.now)) }
    ensures range { OnOk result (AreInRange tables.new) }
{
    tables.fate = elements::links_key(alloc, root)?;
    tables.extenders = elements::extenders(alloc, root)?;
    tables.ports = elements::ports(alloc, root)?;
    tables.vlans = elements::vlans(alloc, root)?;
    tables.statics = elements::statics(alloc, root)?;
    tables.commands = commands(alloc, root, tables.fate.as_slice().len())?;
    tables.captures = elements::captures_key(alloc, root)?;
    Ok(())
}

/// The tables of a document.
#[tactic(auto, unfolding(crate::specs::Tables::file_tables))]
fn file_tables(alloc: Global, root: &Table) -> Result<TopologyTables, TopoFault>
    ensures value { Gives result (file_tables (table_view root.now)) }
    ensures range { IfOk result AreInRange }
{
    only(alloc, KeyPath::Top, root, Schema::Root)?;
    let bridge = elements::bridge_key(alloc, root)?;
    let mut tables = of_bridge(alloc, bridge);
    match read_others(alloc, root, &mut tables) {
        Ok(()) => Ok(tables),
        Err(fault) => {
            drop(tables);
            Err(fault)
        }
    }
}

/// The tables of a topology file, or its first fault of shape: Large above 16,777,216 bytes,
/// NotToml, or the fault at a key. Unknown top-level keys come first, in byte order, then the
/// tables in the order of the file's reference, each whole before the next.
#[tactic(auto, unfolding(crate::specs::Tables::tables_of))]
pub fn tables_of(alloc: Global, file: &[u8]) -> Result<TopologyTables, TopoFault>
    ensures exact { Gives result (tables_of file.now) }
    ensures range { IfOk result AreInRange }
{
    let table = document(alloc, file, MOST_BYTES)?;
    file_tables(alloc, &table)
}
