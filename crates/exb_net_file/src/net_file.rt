//! The file of a net, by itself.
ghost use Rattle.std.specs.Prelude.{◌≡◌, IfOk};
ghost use Rattle.std.specs.List.{list_any};
ghost use Rattle.std.specs.Str.{bytes_eq};
ghost use Rattle.toml.specs.View.{table_view};
ghost use Rattle.exb_toml_keys.specs.Faults.{Gives};
ghost use Rattle.exb_topology.specs.ElementChecks.{each_ok};
ghost use Rattle.exb_net_file.specs.NetFiles.{IsNetFile, file_rows, name_ok, net_file_of};

use crate::elements;
use crate::elements::{NetBridge, NetWire};
use crate::schema::{NetSchema, only};
use exb_model::list::List;
use exb_toml_keys::document::document;
use exb_toml_keys::faults::{KeyFault, TopoFault};
use exb_toml_keys::key_path::KeyPath;
use exb_topology::refuse;
use std::alloc::Global;
use toml::Table;

/// How many bytes the file of a net may have.
const MOST_BYTES: usize = 1_048_576;

/// What the file of a net says, elements in its order.
#[derive(Drop)]
pub struct NetFile {
    pub bridges: List<NetBridge>,
    pub wires: List<NetWire>,
}

/// The tables of a document.
#[tactic(auto, unfolding(crate::specs::NetFiles::file_rows))]
fn file_rows(alloc: Global, root: &Table) -> Result<NetFile, TopoFault>
    ensures { Gives result (file_rows (table_view root.now)) }
{
    only(alloc, KeyPath::Top, root, NetSchema::Root)?;
    let bridges = elements::bridges(alloc, root)?;
    let wires = elements::wires(alloc, root)?;
    Ok(NetFile { bridges, wires })
}

/// Whether one of these bridges has that name.
fn is_named(before: &[NetBridge], name: &str) -> bool
    ensures { result ≡ list_any (λ c. bytes_eq c.name name.now) before.now }
{
    for bridge in before {
        if bridge.name.as_str() == name {
            return true;
        }
    }
    false
}

fn check_name(
    alloc: Global,
    before: &[NetBridge],
    index: usize,
    bridge: &NetBridge,
) -> Result<(), TopoFault>
    ensures { Gives result (name_ok before.now index bridge.now) }
{
    let place = KeyPath::Element {
        table: "bridge",
        index,
    };
    let again = is_named(before, bridge.name.as_str());
    refuse(alloc, again, place, "name", KeyFault::Repeat)
}

fn check_names(alloc: Global, bridges: &[NetBridge]) -> Result<(), TopoFault>
    ensures { Gives result (each_ok name_ok bridges.now 0 bridges.now) }
{
    for (index, bridge) in bridges.iter().enumerate() {
        check_name(alloc, &bridges[..index], index, bridge)?;
    }
    Ok(())
}

/// The file of its bytes, with names that are all different.
#[tactic(auto, unfolding(crate::specs::NetFiles::net_file_of, crate::specs::NetFiles::names_ok))]
fn checked(alloc: Global, file: &[u8]) -> Result<NetFile, TopoFault>
    ensures { Gives result (net_file_of file.now) }
{
    let table = document(alloc, file, MOST_BYTES)?;
    let file = file_rows(alloc, &table)?;
    check_names(alloc, file.bridges.as_slice())?;
    Ok(file)
}

/// What a file says, or its first fault. A file of more than 1,048,576 bytes is Large, and one that
/// isn't TOML is NotToml. Then comes its shape: unknown keys at the top, in byte order, the
/// bridges, and the wires, each element with its unknown keys first and then its own in their
/// order; and then names that were given earlier. Memory is the one answer that the file doesn't
/// decide.
pub fn read(alloc: Global, file: &[u8]) -> Result<NetFile, TopoFault>
    ensures exact { Gives result (net_file_of file.now) }
    ensures sound { IfOk result IsNetFile }
{
    checked(alloc, file)
}
