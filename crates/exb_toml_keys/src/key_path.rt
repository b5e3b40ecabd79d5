//! Where a key stands, and its name as it is printed.
ghost use Rattle.std.specs.Prelude.{◌≡◌, ◌++◌, IfOk, string_bytes, Ok, Err};
ghost use Rattle.exb_toml_keys.specs.Faults.{Gives, IsFault, place_text};
ghost use Rattle.exb_toml_keys.specs.Keys.{placed};

use crate::faults::{KeyFault, TopoFault};
use exb_model::memory::NoMemory;
use exb_model::text::Text;
use std::alloc::{AllocError, Global};

/// Where keys stand: at the top of the file, in a table, or in an element of a list of tables, from
/// 0.
#[derive(Clone, Copy)]
pub enum KeyPath {
    Top,
    Table { table: &'static str },
    Element { table: &'static str, index: usize },
}

impl KeyPath {
    /// What stands before a key.
    fn prefix(self, alloc: Global) -> Result<String, AllocError>
        ensures { IfOk result (λ s. string_bytes s ≡ place_text self) }
    {
        match self {
            KeyPath::Top => Ok(String::new(alloc)),
            KeyPath::Table { table } => format!(in alloc; "{table}."),
            KeyPath::Element { table, index } => format!(in alloc; "{table}[{index}]."),
        }
    }

    /// A key with what stands before it.
    fn key_text(self, alloc: Global, key: &str) -> Result<Text, NoMemory>
        ensures { IfOk result (λ text. text ≡ place_text self ++ key.now) }
    {
        let mut text = self.prefix(alloc)?;
        text.push_str(key)?;
        Text::from_str(alloc, text.as_str())
    }

    /// The fault at a key.
    pub fn fault(self, alloc: Global, key: &str, fault: KeyFault) -> TopoFault
        ensures { IsFault result fault (place_text self ++ key.now) }
    {
        match self.key_text(alloc, key) {
            Ok(key) => TopoFault::At { fault, key },
            Err(NoMemory) => TopoFault::Memory,
        }
    }
}

/// The fault at a whole table.
pub fn fault_at(alloc: Global, table: &str, fault: KeyFault) -> TopoFault
    ensures { IsFault result fault table.now }
{
    match Text::from_str(alloc, table) {
        Ok(key) => TopoFault::At { fault, key },
        Err(NoMemory) => TopoFault::Memory,
    }
}
