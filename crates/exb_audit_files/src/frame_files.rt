//! Which files of frames an audit reads.
ghost use Rattle.std.specs.Prelude.{◌≡◌, ◌++◌, ◌∷◌, [], IfOk, OnOk};
ghost use Rattle.exb_audit_files.specs.Scopes.{capture_file, capture_files, output_file, output_files};

use crate::PortFile;
use exb_inputs::name_of;
use exb_journal::capture_file_name;
use exb_model::memory::NoMemory;
use exb_model::port::{PORTS, PortId};
use exb_model::text::Text;
use exb_model::tree::Tree;
use exb_topology_tables::Named;
use std::alloc::Global;

/// Puts the file of a name and a port behind others.
fn put(alloc: Global, files: &mut Vec<PortFile>, port: PortId, name: &str) -> Result<(), NoMemory>
    ensures { OnOk result (files.new.items ≡ files.old.items ++ record {
      port = port;
      name = name.now;
    } ∷ []) }
{
    let name = Text::from_str(alloc, name)?;
    files.push(PortFile { port, name })?;
    Ok(())
}

/// Puts the capture of a port behind others, where it has one.
fn put_capture(
    alloc: Global,
    files: &mut Vec<PortFile>,
    names: &[Named],
    port: PortId,
) -> Result<(), NoMemory>
    ensures { OnOk result (files.new.items ≡ files.old.items ++ capture_file names.now port) }
{
    match name_of(names, port) {
        Some(name) => put(alloc, files, port, name),
        None => Ok(()),
    }
}

/// Puts the output file of a port behind others, where it is an external one.
fn put_output(
    alloc: Global,
    files: &mut Vec<PortFile>,
    tree: &Tree,
    prefix: &str,
    port: PortId,
) -> Result<(), NoMemory>
    ensures { OnOk result (files.new.items ≡ files.old.items ++ output_file tree.now prefix.now
        port) }
{
    if !tree.is_external(port) {
        return Ok(());
    }
    let name = capture_file_name(alloc, prefix, port)?;
    put(alloc, files, port, name.as_str())
}

/// The captures that are named, in port order.
pub(crate) fn capture_files(alloc: Global, names: &[Named]) -> Result<Vec<PortFile>, NoMemory>
    ensures { IfOk result (λ files. files.items ≡ capture_files names.now) }
{
    let mut files = Vec::new(alloc);
    'ports: for number in 0..PORTS {
        let port = PortId::new(number).unwrap();
        put_capture(alloc, &mut files, names, port)?;
    }
    Ok(files)
}

/// The output files of all external ports, in port order.
pub(crate) fn output_files(
    alloc: Global,
    tree: &Tree,
    prefix: &str,
) -> Result<Vec<PortFile>, NoMemory>
    ensures { IfOk result (λ files. files.items ≡ output_files tree.now prefix.now) }
{
    let mut files = Vec::new(alloc);
    'ports: for number in 0..PORTS {
        let port = PortId::new(number).unwrap();
        put_output(alloc, &mut files, tree, prefix, port)?;
    }
    Ok(files)
}
