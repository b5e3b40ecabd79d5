//! Which keys a table defines.
ghost use Rattle.std.specs.Prelude.{◌≡◌, option_map};
ghost use Rattle.toml.specs.View.{table_view};
ghost use Rattle.exb_toml_keys.specs.Faults.{Gives, place_text};
ghost use Rattle.exb_toml_keys.specs.Keys.{unknown, only};
ghost use Rattle.exb_net_file.specs.Elements.{has_key};

use exb_toml_keys::faults::{KeyFault, TopoFault};
use exb_toml_keys::key_path::KeyPath;
use std::alloc::Global;
use toml::Table;

/// A table of the file by the keys that it defines.
#[derive(Clone, Copy)]
pub enum NetSchema {
    /// The whole file, whose keys are its tables.
    Root,
    Bridge,
    Wire,
}

impl NetSchema {
    /// Whether the table defines that key.
    #[tactic(auto, unfolding(crate::specs::Elements::has_key))]
    pub fn has(self, key: &str) -> bool
        ensures { result ≡ has_key self key.now }
    {
        match self {
            NetSchema::Root => matches!(key, "bridge" | "wire"),
            NetSchema::Bridge => matches!(key, "name" | "topology"),
            NetSchema::Wire => matches!(key, "a" | "b"),
        }
    }
}

/// The first key that the table doesn't define, in byte order.
#[tactic(auto, unfolding(exb_toml_keys::specs::Keys::unknown))]
fn unknown(table: &Table, schema: NetSchema) -> Option<&str>
    ensures { option_map (λ k. k.now) result ≡ unknown (has_key schema) (table_view table.now) }
{
    for (key, _value) in table.iter() {
        if !schema.has(key.as_str()) {
            return Some(key.as_str());
        }
    }
    None
}

/// Refuses keys that the table doesn't define.
#[tactic(auto, unfolding(exb_toml_keys::specs::Keys::only))]
pub(crate) fn only(
    alloc: Global,
    place: KeyPath,
    table: &Table,
    schema: NetSchema,
) -> Result<(), TopoFault>
    ensures { Gives result (only (has_key schema) (place_text place) (table_view table.now)) }
{
    match unknown(table, schema) {
        Some(key) => Err(place.fault(alloc, key, KeyFault::Unknown)),
        None => Ok(()),
    }
}
