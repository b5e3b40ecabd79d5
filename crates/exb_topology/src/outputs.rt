//! The names of the files that runs of a topology write.
ghost use Rattle.std.specs.Prelude.{◌≡◌, ◌++◌, ◌∷◌, [], IfOk, OnOk, map, if◌then◌else◌};
ghost use Rattle.exb_model.specs.Tree.{is_external, external_ports};
ghost use Rattle.exb_journal.specs.FileNames.{capture_name};
ghost use Rattle.exb_topology.specs.Checks.{output_names};

use exb_journal::{OutputKind, add_name, add_other_names};
use exb_model::list::List;
use exb_model::memory::NoMemory;
use exb_model::port::PortId;
use exb_model::text::Text;
use exb_model::tree::Tree;
use std::alloc::Global;

/// The names of all files that runs of a topology write: the captures of the external ports in port
/// order, and after them the others.
pub fn output_names(alloc: Global, prefix: &str, tree: &Tree) -> Result<List<Text>, NoMemory>
    ensures { IfOk result (λ names. names ≡ output_names prefix.now tree.now) }
{
    let mut names = capture_names(alloc, prefix, tree)?;
    add_other_names(alloc, prefix, &mut names)?;
    Ok(names)
}

/// Puts the name of the capture of a port at the end, where the port is external.
fn add_capture(
    alloc: Global,
    prefix: &str,
    tree: &Tree,
    port: PortId,
    names: &mut List<Text>,
) -> Result<(), NoMemory>
    ensures { OnOk result (names.new ≡ names.old
        ++ (if is_external tree.now port then capture_name prefix.now port ∷ [] else [])) }
{
    if !tree.is_external(port) {
        return Ok(());
    }
    add_name(alloc, prefix, &OutputKind::Capture(port), names)
}

/// The names of the captures that runs write.
fn capture_names(alloc: Global, prefix: &str, tree: &Tree) -> Result<List<Text>, NoMemory>
    ensures { IfOk result (λ names. names ≡ map (capture_name prefix.now)
        (external_ports tree.now)) }
{
    let mut names = List::new(alloc);
    for number in 0..4160u16 {
        let port = PortId::new(number).unwrap();
        add_capture(alloc, prefix, tree, port, &mut names)?;
    }
    Ok(names)
}
