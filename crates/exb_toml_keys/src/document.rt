//! The TOML document that a file is.
ghost use Rattle.std.specs.Prelude.{◌≡◌, true, IfOk};
ghost use Rattle.toml.specs.Data.{members_are_sorted};
ghost use Rattle.toml.specs.View.{table_view};
ghost use Rattle.exb_toml_keys.specs.Faults.{GivesSeen};
ghost use Rattle.exb_toml_keys.specs.Documents.{document};

use crate::faults::TopoFault;
use std::alloc::Global;
use toml::Table;

/// The document of a file of at most `most` bytes: Large for a longer one, and NotToml where it
/// isn't UTF-8 or the crate `toml` refuses it for another cause than memory. The members of each
/// table in it come in byte order of their keys.
#[tactic(auto, unfolding(crate::specs::Documents::document))]
pub fn document(alloc: Global, file: &[u8], most: usize) -> Result<Table, TopoFault>
    ensures exact { GivesSeen table_view result (document most file.now) }
    ensures sorted { IfOk result (λ table. members_are_sorted (table_view table) ≡ true) }
{
    if file.len() > most {
        return Err(TopoFault::Large);
    }
    let text = match std::str::from_utf8(file) {
        Ok(text) => text,
        Err(_) => return Err(TopoFault::NotToml),
    };
    match toml::table_from_str(alloc, text) {
        Ok(table) => Ok(table),
        Err(e) => {
            if e.is_memory() {
                Err(TopoFault::Memory)
            } else {
                Err(TopoFault::NotToml)
            }
        }
    }
}
