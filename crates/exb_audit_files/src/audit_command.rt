//! What is read, in order, and what is found.
ghost use Rattle.std.specs.Prelude.{◌≡◌, ◌⊎◌, ℕ, length, string_bytes, IfOk, IfErr};
ghost use Rattle.exb_model.specs.Setup.{IsValid};
ghost use Rattle.exb_audit.specs.AllRules.{files_by};
ghost use Rattle.exb_audit_files.specs.FrameFiles.{ReadsOneOf};
ghost use Rattle.exb_trace_spec.specs.Rules.{IsLegal, IsLowestBroken};
ghost use Rattle.exb_shelf.specs.Files.{SameFiles};
ghost use Rattle.exb_shelf.specs.Shelf.{Opens};
ghost use Rattle.exb_inputs.specs.declared.fault.Fault.{Fault};
ghost use Rattle.exb_inputs.specs.Answers.{IsRule};
ghost use Rattle.exb_inputs.specs.FaultPhases.{IsOfAudit};
ghost use Rattle.exb_inputs.specs.ShelfEffects.{CountsFaults};
ghost use Rattle.exb_audit_files.specs.Audits.{AreCaptures, AreEntries, AreLines, AreOutputs, CapturesStop, IsFoundLegal, JournalStops, OutputsStop, StopsAudit, TraceStops, captures_fault, legal_line, lines_fault, outputs_fault};
ghost use Rattle.exb_audit_files.specs.OpenedFiles.{ReadsEvidence};
ghost use Rattle.exb_audit_files.specs.Scopes.{capture_files, scope_of};

use crate::frame_files::{capture_files, output_files};
use crate::{FramesFault, Grammar, LIMIT, LinesFault, read_frames, read_journal, read_trace};
use exb_audit::{Judged, PortFrames, judge};
use exb_inputs::{AuditInput, Fault, InputFlaw, missing};
use exb_journal::{journal_file_name, trace_file_name};
use exb_model::bytes::Bytes;
use exb_model::memory::NoMemory;
use exb_model::setup::Setup;
use exb_model::trace::TraceLine;
use exb_model::tree::Tree;
use exb_shelf::Shelf;
use exb_topology::Topology;
use std::alloc::Global;

/// What is wrong with captures.
fn captures_fault(fault: FramesFault) -> Fault
    ensures { result ≡ captures_fault fault }
{
    match fault {
        FramesFault::Memory => Fault::Memory,
        FramesFault::Read => Fault::Read,
        FramesFault::Missing { name } => Fault::Missing { name },
        FramesFault::Broken { port, fault } => {
            let flaw = InputFlaw::Broken { fault };
            Fault::Capture { port, flaw }
        }
        FramesFault::Large => Fault::TooLarge {
            what: AuditInput::Captures,
        },
    }
}

/// What is wrong with output files.
fn outputs_fault(fault: FramesFault) -> Fault
    ensures { result ≡ outputs_fault fault }
{
    match fault {
        FramesFault::Memory => Fault::Memory,
        FramesFault::Read => Fault::Read,
        FramesFault::Missing { name } => Fault::Missing { name },
        FramesFault::Broken { port, fault } => Fault::Output { port, fault },
        FramesFault::Large => Fault::TooLarge {
            what: AuditInput::Outputs,
        },
    }
}

/// What is wrong with a file of lines of this name.
fn lines_fault(alloc: Global, what: AuditInput, name: &str, fault: LinesFault) -> Fault
    ensures is { (result ≡ lines_fault what name.now fault) ⊎ (result ≡ Fault.Memory) }
    ensures memory { result ≡ Fault.Memory → (fault ≡ LinesFault.Memory)
        ⊎ (fault ≡ LinesFault.Missing) }
{
    match fault {
        LinesFault::Memory => Fault::Memory,
        LinesFault::Read => Fault::Read,
        LinesFault::Missing => missing(alloc, name),
        LinesFault::Large => Fault::TooLarge { what },
        LinesFault::Bad { number } => Fault::BadLine { what, number },
    }
}

/// Reads the frames of the captures.
fn read_captures<S: Shelf>(
    alloc: Global,
    shelf: &mut S,
    topology: &Topology,
) -> Result<Vec<PortFrames>, Fault>
    ensures read { S.tells → IfOk result (λ captures. AreCaptures (scope_of topology.now)
        (S.file shelf.old) captures.items) }
    ensures stops { S.tells → IfErr result (λ fault. CapturesStop (scope_of topology.now)
        (S.file shelf.old) fault ⊎ (fault ≡ Fault.Read) ⊎ (fault ≡ Fault.Memory)) }
    ensures causes { IfErr result IsOfAudit }
    ensures opened { Opens (ReadsOneOf (capture_files topology.now.captures)) (S.ids shelf.old)
        (S.ids shelf.new) }
    ensures files { SameFiles (S.file shelf.old) (S.file shelf.new) }
    ensures faults { CountsFaults result (S.faults shelf.old) (S.faults shelf.new) }
{
    let files = capture_files(alloc, topology.captures.as_slice())?;
    match read_frames(alloc, shelf, files.as_slice(), Grammar::Either, LIMIT) {
        Ok(frames) => Ok(frames),
        Err(fault) => Err(captures_fault(fault)),
    }
}

/// Reads the frames of the output files of all external ports.
fn read_outputs<S: Shelf>(
    alloc: Global,
    shelf: &mut S,
    topology: &Topology,
) -> Result<Vec<PortFrames>, Fault>
    requires { IsValid topology.now.setup }
    ensures read { S.tells → IfOk result (λ outputs. AreOutputs (scope_of topology.now)
        (S.file shelf.old) outputs.items) }
    ensures stops { S.tells → IfErr result (λ fault. OutputsStop (scope_of topology.now)
        (S.file shelf.old) fault ⊎ (fault ≡ Fault.Read) ⊎ (fault ≡ Fault.Memory)) }
    ensures causes { IfErr result IsOfAudit }
    ensures opened { Opens (ReadsEvidence (scope_of topology.now)) (S.ids shelf.old)
        (S.ids shelf.new) }
    ensures files { SameFiles (S.file shelf.old) (S.file shelf.new) }
    ensures faults { CountsFaults result (S.faults shelf.old) (S.faults shelf.new) }
{
    let tree = Tree::new(alloc, &topology.setup)?;
    let files = output_files(alloc, &tree, topology.prefix.as_str())?;
    match read_frames(alloc, shelf, files.as_slice(), Grammar::Classic, LIMIT) {
        Ok(frames) => Ok(frames),
        Err(fault) => Err(outputs_fault(fault)),
    }
}

/// Reads the lines of the journal.
fn read_entries<S: Shelf>(
    alloc: Global,
    shelf: &mut S,
    topology: &Topology,
) -> Result<Vec<Bytes>, Fault>
    ensures read { S.tells → IfOk result (λ journal. AreEntries (scope_of topology.now)
        (S.file shelf.old) journal.items) }
    ensures stops { S.tells → IfErr result (λ fault. JournalStops (scope_of topology.now)
        (S.file shelf.old) fault ⊎ (fault ≡ Fault.Read) ⊎ (fault ≡ Fault.Memory)) }
    ensures causes { IfErr result IsOfAudit }
    ensures opened { Opens (ReadsEvidence (scope_of topology.now)) (S.ids shelf.old)
        (S.ids shelf.new) }
    ensures files { SameFiles (S.file shelf.old) (S.file shelf.new) }
    ensures faults { CountsFaults result (S.faults shelf.old) (S.faults shelf.new) }
{
    let name = journal_file_name(alloc, topology.prefix.as_str())?;
    match read_journal(alloc, shelf, name.as_str(), LIMIT) {
        Ok(journal) => Ok(journal),
        Err(fault) => Err(lines_fault(alloc, AuditInput::Journal, name.as_str(), fault)),
    }
}

/// Reads the lines of the trace.
fn read_lines<S: Shelf>(
    alloc: Global,
    shelf: &mut S,
    topology: &Topology,
) -> Result<Vec<TraceLine>, Fault>
    ensures read { S.tells → IfOk result (λ lines. AreLines (scope_of topology.now)
        (S.file shelf.old) lines.items) }
    ensures stops { S.tells → IfErr result (λ fault. TraceStops (scope_of topology.now)
        (S.file shelf.old) fault ⊎ (fault ≡ Fault.Read) ⊎ (fault ≡ Fault.Memory)) }
    ensures causes { IfErr result IsOfAudit }
    ensures opened { Opens (ReadsEvidence (scope_of topology.now)) (S.ids shelf.old)
        (S.ids shelf.new) }
    ensures files { SameFiles (S.file shelf.old) (S.file shelf.new) }
    ensures faults { CountsFaults result (S.faults shelf.old) (S.faults shelf.new) }
{
    let name = trace_file_name(alloc, topology.prefix.as_str())?;
    match read_trace(alloc, shelf, name.as_str(), LIMIT) {
        Ok(lines) => Ok(lines),
        Err(fault) => Err(lines_fault(alloc, AuditInput::Trace, name.as_str(), fault)),
    }
}

/// The line that says that a trace of so many lines is legal.
fn legal_line(alloc: Global, lines: usize) -> Result<String, NoMemory>
    ensures { IfOk result (λ text. string_bytes text ≡ legal_line lines) }
{
    Ok(format!(in alloc; "legal {lines}\n")?)
}

/// Judges what was read, and answers the line that says that it is legal.
fn judge_all(
    alloc: Global,
    setup: &Setup,
    captures: &[PortFrames],
    journal: &[Bytes],
    trace: &[TraceLine],
    outputs: &[PortFrames],
) -> Result<String, Fault>
    requires { IsValid setup.now }
    ensures legal { IfOk result (λ text.
        IsLegal (files_by setup.now captures.now journal.now trace.now outputs.now)
        × (string_bytes text ≡ legal_line (length trace.now))) }
    ensures broken { IfErr result (λ fault.
        ((r : ℕ) × IsRule r × IsLowestBroken (files_by setup.now captures.now journal.now trace.now
        outputs.now) r × (fault ≡ Fault.Illegal r)) ⊎ (fault ≡ Fault.Memory)) }
{
    match judge(alloc, setup, captures, journal, trace, outputs)? {
        Judged::Legal => Ok(legal_line(alloc, trace.len())?),
        Judged::Broken { rule } => Err(Fault::Illegal { rule }),
    }
}

/// Reads what a run of a topology was given and wrote, in port order captures and output files,
/// then journal and trace; judges it by the five rules of a legal trace alone; and answers the line
/// that says that it is legal.
pub fn audit<S: Shelf>(alloc: Global, shelf: &mut S, topology: &Topology) -> Result<String, Fault>
    requires { IsValid topology.now.setup }
    ensures says { IfOk result (λ text. (n : ℕ) × (string_bytes text ≡ legal_line n)) }
    ensures legal { S.tells → IfOk result (λ text. IsFoundLegal (scope_of topology.now)
        (S.file shelf.old) (string_bytes text)) }
    ensures cause { S.tells → IfErr result (λ fault. StopsAudit (scope_of topology.now)
        (S.file shelf.old) fault ⊎ (fault ≡ Fault.Read) ⊎ (fault ≡ Fault.Memory)) }
    ensures causes { IfErr result IsOfAudit }
    ensures opened { Opens (ReadsEvidence (scope_of topology.now)) (S.ids shelf.old)
        (S.ids shelf.new) }
    ensures files { SameFiles (S.file shelf.old) (S.file shelf.new) }
    ensures faults { CountsFaults result (S.faults shelf.old) (S.faults shelf.new) }
{
    let captures = read_captures(alloc, shelf, topology)?;
    let outputs = read_outputs(alloc, shelf, topology)?;
    let journal = read_entries(alloc, shelf, topology)?;
    let trace = read_lines(alloc, shelf, topology)?;
    judge_all(
        alloc,
        &topology.setup,
        captures.as_slice(),
        journal.as_slice(),
        trace.as_slice(),
        outputs.as_slice(),
    )
}
