//! Names of the files that a run writes.
ghost use Rattle.std.specs.Prelude.{◌≡◌, ◌++◌, ◌∷◌, [], IfOk, OnOk, map, string_bytes};
ghost use Rattle.exb_journal.specs.FileNames.{capture_name, counters_name, file_name, journal_name, other_outputs, trace_name};

use crate::PortName;
use exb_model::list::List;
use exb_model::memory::NoMemory;
use exb_model::port::PortId;
use exb_model::text::Text;
use std::alloc::Global;

/// A kind of file that a run writes.
#[derive(Clone, Copy)]
pub enum OutputKind {
    /// What leaves an external port.
    Capture(PortId),
    /// The journal.
    Journal,
    /// The trace, where it is asked for.
    Trace,
    /// The counters, where they are asked for.
    Counters,
}

/// The name of the file of each kind.
pub fn file_name(alloc: Global, prefix: &str, output: &OutputKind) -> Result<String, NoMemory>
    ensures { IfOk result (λ name. string_bytes name ≡ file_name prefix.now output.now) }
{
    match output {
        OutputKind::Capture(port) => capture_file_name(alloc, prefix, *port),
        OutputKind::Journal => journal_file_name(alloc, prefix),
        OutputKind::Trace => trace_file_name(alloc, prefix),
        OutputKind::Counters => counters_file_name(alloc, prefix),
    }
}

/// Puts the name of a file behind other names.
pub fn add_name(
    alloc: Global,
    prefix: &str,
    output: &OutputKind,
    names: &mut List<Text>,
) -> Result<(), NoMemory>
    ensures { OnOk result (names.new ≡ names.old ++ file_name prefix.now output.now ∷ []) }
{
    let name = file_name(alloc, prefix, output)?;
    names.push(Text::from_str(alloc, name.as_str())?)
}

/// Puts the names of all files but the captures behind other names, in the order in which the files
/// are made.
pub fn add_other_names(alloc: Global, prefix: &str, names: &mut List<Text>) -> Result<(), NoMemory>
    ensures { OnOk result (names.new ≡ names.old ++ map (file_name prefix.now) other_outputs) }
{
    add_name(alloc, prefix, &OutputKind::Journal, names)?;
    add_name(alloc, prefix, &OutputKind::Trace, names)?;
    add_name(alloc, prefix, &OutputKind::Counters, names)
}

/// The name of the file of what leaves a port: the run's prefix, the port's name, and `.pcap`.
#[tactic(auto, unfolding(crate::specs::FileNames::capture_name))]
pub fn capture_file_name(alloc: Global, prefix: &str, port: PortId) -> Result<String, NoMemory>
    ensures { IfOk result (λ name. string_bytes name ≡ capture_name prefix.now port) }
{
    Ok(format!(in alloc; "{prefix}{}.pcap", PortName(port))?)
}

/// The name of the journal's file: the run's prefix, and `journal.txt`.
#[tactic(auto, unfolding(crate::specs::FileNames::journal_name))]
pub fn journal_file_name(alloc: Global, prefix: &str) -> Result<String, NoMemory>
    ensures { IfOk result (λ name. string_bytes name ≡ journal_name prefix.now) }
{
    Ok(format!(in alloc; "{prefix}journal.txt")?)
}

/// The name of the trace's file: the run's prefix, and `trace.txt`.
#[tactic(auto, unfolding(crate::specs::FileNames::trace_name))]
pub fn trace_file_name(alloc: Global, prefix: &str) -> Result<String, NoMemory>
    ensures { IfOk result (λ name. string_bytes name ≡ trace_name prefix.now) }
{
    Ok(format!(in alloc; "{prefix}trace.txt")?)
}

/// The name of the counters' file: the run's prefix, and `counters.txt`.
#[tactic(auto, unfolding(crate::specs::FileNames::counters_name))]
pub fn counters_file_name(alloc: Global, prefix: &str) -> Result<String, NoMemory>
    ensures { IfOk result (λ name. string_bytes name ≡ counters_name prefix.now) }
{
    Ok(format!(in alloc; "{prefix}counters.txt")?)
}
