//! Which keys a table defines.
ghost use Rattle.std.specs.Prelude.{◌≡◌, [], ◌∷◌, option_map};
ghost use Rattle.toml.specs.View.{table_view};
ghost use Rattle.exb_toml_keys.specs.Faults.{Gives, place_text};
ghost use Rattle.exb_toml_keys.specs.Keys.{is_among, unknown, only};
ghost use Rattle.exb_topology_tables.specs.Schemas.{has_key};

use crate::commands::Op;
use exb_toml_keys::faults::{KeyFault, TopoFault};
use exb_toml_keys::key_path::KeyPath;
use std::alloc::Global;
use toml::Table;

/// A table by the keys that it defines.
#[derive(Clone, Copy)]
pub enum Schema {
    /// The whole file, whose keys are its tables.
    Root,
    Bridge,
    Links,
    Extender,
    Port,
    Vlan,
    Static,
    /// A command with that operation.
    Command { op: Op },
}

/// Whether it is one of two names.
pub(crate) fn is_of_two(key: &str, a: &str, b: &str) -> bool
    ensures { result ≡ is_among (a.now ∷ b.now ∷ []) key.now }
{
    key == a || key == b
}

/// Whether it is one of three names.
pub(crate) fn is_of_three(key: &str, a: &str, b: &str, c: &str) -> bool
    ensures { result ≡ is_among (a.now ∷ b.now ∷ c.now ∷ []) key.now }
{
    key == a || key == b || key == c
}

// Whether it is one of four names.
fn is_of_four(key: &str, a: &str, b: &str, c: &str, d: &str) -> bool
    ensures { result ≡ is_among (a.now ∷ b.now ∷ c.now ∷ d.now ∷ []) key.now }
{
    is_of_two(key, a, b) || is_of_two(key, c, d)
}

// Whether it is one of five names.
fn is_of_five(key: &str, a: &str, b: &str, c: &str, d: &str, e: &str) -> bool
    ensures { result ≡ is_among (a.now ∷ b.now ∷ c.now ∷ d.now ∷ e.now ∷ []) key.now }
{
    is_of_two(key, a, b) || is_of_three(key, c, d, e)
}

// Whether it is the name of a table. A `match` of many texts is dear to prove, and two calls
// aren't.
#[tactic(auto, unfolding(crate::specs::Schemas::has_key))]
fn is_table(key: &str) -> bool
    ensures { result ≡ has_key Schema.Root key.now }
{
    is_of_three(key, "bridge", "links", "extender")
        || is_of_five(key, "port", "vlan", "static", "command", "captures")
}

impl Schema {
    /// Whether the table defines that key.
    #[tactic(auto, unfolding(crate::specs::Schemas::has_key))]
    pub fn has(self, key: &str) -> bool
        ensures { result ≡ has_key self key.now }
    {
        match self {
            Schema::Root => is_table(key),
            Schema::Bridge => is_of_five(key, "ports", "channels", "groups", "ageing", "out"),
            Schema::Links => key == "fate",
            Schema::Extender => is_of_three(key, "number", "on", "ports"),
            Schema::Port => is_of_five(key, "name", "pvid", "accept", "filter", "isolated"),
            Schema::Vlan => is_of_four(key, "vid", "last", "tagged", "untagged"),
            Schema::Static => is_of_three(key, "vid", "mac", "ports"),
            Schema::Command { op } => is_of_three(key, "at", "op", "fate") || op.has(key),
        }
    }
}

/// The first key that the table doesn't define, in byte order.
#[tactic(auto, unfolding(exb_toml_keys::specs::Keys::unknown))]
fn unknown(table: &Table, schema: Schema) -> Option<&str>
    ensures { option_map (λ k. k.now) result ≡ unknown (has_key schema) (table_view table.now) }
{
    for (key, _value) in table.iter() {
        if !schema.has(key.as_str()) {
            return Some(key.as_str());
        }
    }
    None
}

/// Refuses keys that the table doesn't define.
#[tactic(auto, unfolding(exb_toml_keys::specs::Keys::only))]
pub(crate) fn only(
    alloc: Global,
    place: KeyPath,
    table: &Table,
    schema: Schema,
) -> Result<(), TopoFault>
    ensures { Gives result (only (has_key schema) (place_text place) (table_view table.now)) }
{
    match unknown(table, schema) {
        Some(key) => Err(place.fault(alloc, key, KeyFault::Unknown)),
        None => Ok(()),
    }
}
