//! Tables, and lists of tables.
ghost use Rattle.std.specs.Prelude.{◌≡◌, IfOk};
ghost use Rattle.toml.specs.Data.{get_member};
ghost use Rattle.toml.specs.View.{view, items_view, table_view};
ghost use Rattle.exb_toml_keys.specs.Faults.{GivesSeen};
ghost use Rattle.exb_toml_keys.specs.Keys.{table_of, are_tables, elements};

use crate::faults::{KeyFault, TopoFault};
use crate::key_path::fault_at;
use crate::keys::member;
use std::alloc::Global;
use toml::{Table, Value};

/// The table that a value is; Kind at its name where it is none.
pub fn table_of<'a>(alloc: Global, name: &str, value: &'a Value) -> Result<&'a Table, TopoFault>
    ensures { GivesSeen (λ t. table_view t.now) result (table_of name.now (view value.now)) }
{
    match value {
        Value::Table(table) => Ok(table),
        _ => Err(fault_at(alloc, name, KeyFault::Kind)),
    }
}

fn are_tables(items: &[Value]) -> bool
    ensures { result ≡ are_tables (items_view items.now) }
{
    for item in items {
        if !item.is_table() {
            return false;
        }
    }
    true
}

/// The elements of a list of tables, none where it is absent; Kind at its name where it is no such
/// list.
#[tactic(auto, unfolding(crate::specs::Keys::elements))]
pub fn elements<'a>(alloc: Global, name: &str, table: &'a Table) -> Result<&'a [Value], TopoFault>
    ensures { GivesSeen (λ s. items_view s.now) result
        (elements name.now (get_member name.now (table_view table.now))) }
{
    match member(table, name) {
        None => Ok(&[]),
        Some(Value::Array(items)) => {
            if !are_tables(items) {
                return Err(fault_at(alloc, name, KeyFault::Kind));
            }
            Ok(items.as_slice())
        }
        Some(_) => Err(fault_at(alloc, name, KeyFault::Kind)),
    }
}
