//! What is printed at the end.
ghost use Rattle.std.specs.Prelude.{◌≡◌, ◌≢◌, ◌≤◌, ◌++◌, IfOk, OnOk, OnErr, IsErrOf, string_bytes};
ghost use Rattle.exb_shelf.specs.FaultCounts.{after_print};
ghost use Rattle.exb_shelf.specs.Files.{AppendsFront, BreaksOff};
ghost use Rattle.exb_shelf.specs.Shelf.{Rose};
ghost use Rattle.exb_inputs.specs.PrintedOnce.{PrintsLine};
ghost use Rattle.exb_inputs.specs.Answers.{broken_text, changed_text, flaw_name, flaw_text, key_fault_text, part_name, topology_text, bad_line, capture_line, large_line, member_capture_line, member_line, net_line, output_line, fault_line, line_of, fault_status, status_of};

use crate::fault::{AuditInput, Fault, InputFlaw};
use exb_journal::PortName;
use exb_model::port::PortId;
use exb_model::text::Text;
use exb_shelf::{ShelfFault, Sink, print_text};
use exb_toml_keys::faults::{KeyFault, TopoFault};
use std::alloc::{AllocError, Global};

/// The words that are accepted.
const USAGE: &str =
    "exbr: usage: exbr run TOPOLOGY [--trace] [--counters] [--seed N] | exbr check TOPOLOGY | exbr make N | exbr audit TOPOLOGY | exbr net FILE [--counters]\n";

/// The name of what is wrong with a capture.
fn flaw_name(flaw: exb_capture::Flaw) -> &'static str
    ensures { result.now ≡ flaw_name flaw }
{
    match flaw {
        exb_capture::Flaw::NotPcap => "NotPcap",
        exb_capture::Flaw::Version => "Version",
        exb_capture::Flaw::LinkType => "LinkType",
        exb_capture::Flaw::Cut => "Cut",
        exb_capture::Flaw::Length => "Length",
        exb_capture::Flaw::Time => "Time",
        exb_capture::Flaw::Magic => "Magic",
        exb_capture::Flaw::TooMany => "TooMany",
        exb_capture::Flaw::Resolution => "Resolution",
        exb_capture::Flaw::Interface => "Interface",
    }
}

/// The fault of a capture, and its place.
fn broken_text(alloc: Global, fault: exb_capture::FormatFault) -> Result<String, AllocError>
    ensures { IfOk result (λ text. string_bytes text ≡ broken_text fault) }
{
    let name = flaw_name(fault.flaw);
    let at = fault.at;
    format!(in alloc; "{name} at {at}")
}

fn flaw_text(alloc: Global, flaw: InputFlaw) -> Result<String, AllocError>
    ensures { IfOk result (λ text. string_bytes text ≡ flaw_text flaw) }
{
    match flaw {
        InputFlaw::Large { limit } => format!(in alloc; "Large {limit}"),
        InputFlaw::Broken { fault } => broken_text(alloc, fault),
    }
}

fn key_fault_text(fault: KeyFault) -> &'static str
    ensures { result.now ≡ key_fault_text fault }
{
    match fault {
        KeyFault::Missing => "Missing",
        KeyFault::Unknown => "Unknown",
        KeyFault::Kind => "Kind",
        KeyFault::Range => "Range",
        KeyFault::Name => "Name",
        KeyFault::UnknownPort => "UnknownPort",
        KeyFault::TwoUpstreams => "TwoUpstreams",
        KeyFault::SharedPort => "SharedPort",
        KeyFault::Loop => "Loop",
        KeyFault::FewChannels => "FewChannels",
        KeyFault::Repeat => "Repeat",
    }
}

/// The fault of a topology, and its key where it has one.
fn topology_text(alloc: Global, fault: &TopoFault) -> Result<String, AllocError>
    ensures { IfOk result (λ text. string_bytes text ≡ topology_text fault.now) }
{
    match fault {
        TopoFault::Memory => format!(in alloc; "out of memory"),
        TopoFault::NotToml => format!(in alloc; "NotToml"),
        TopoFault::Large => format!(in alloc; "Large"),
        TopoFault::At { fault, key } => {
            let text = key_fault_text(*fault);
            let key = key.as_str();
            format!(in alloc; "{text} at {key}")
        }
    }
}

/// The line of a capture that is not taken.
#[tactic(auto, unfolding(crate::specs::Answers::capture_line))]
fn capture_line(alloc: Global, port: PortId, text: &str) -> Result<String, AllocError>
    ensures { IfOk result (λ line. string_bytes line ≡ capture_line port text.now) }
{
    format!(in alloc; "exbr: capture {}: {text}\n", PortName(port))
}

fn part_name(part: AuditInput) -> &'static str
    ensures { result.now ≡ part_name part }
{
    match part {
        AuditInput::Captures => "captures",
        AuditInput::Outputs => "outputs",
        AuditInput::Journal => "journal",
        AuditInput::Trace => "trace",
    }
}

/// The line of an output capture that is none.
#[tactic(auto, unfolding(crate::specs::Answers::output_line))]
fn output_line(alloc: Global, port: PortId, text: &str) -> Result<String, AllocError>
    ensures { IfOk result (λ line. string_bytes line ≡ output_line port text.now) }
{
    format!(in alloc; "exbr: out {}: {text}\n", PortName(port))
}

/// The line of what is too large for an audit.
fn large_line(alloc: Global, what: AuditInput) -> Result<String, AllocError>
    ensures { IfOk result (λ line. string_bytes line ≡ large_line what) }
{
    let name = part_name(what);
    format!(in alloc; "exbr: {name} Large 536870912\n")
}

/// The line of a line of a journal or a trace that is none.
fn bad_line(alloc: Global, what: AuditInput, number: u64) -> Result<String, AllocError>
    ensures { IfOk result (λ line. string_bytes line ≡ bad_line what number) }
{
    let name = part_name(what);
    format!(in alloc; "exbr: {name} line {number}\n")
}

/// The line of a file of a net that is refused.
fn net_line(alloc: Global, fault: &TopoFault) -> Result<String, AllocError>
    ensures { IfOk result (λ line. string_bytes line ≡ net_line fault.now) }
{
    let text = topology_text(alloc, fault)?;
    format!(in alloc; "exbr: net: {text}\n")
}

/// The line of a topology that is refused, of a bridge of a net.
#[tactic(auto, unfolding(crate::specs::Answers::member_line))]
fn member_line(alloc: Global, name: &Text, fault: &TopoFault) -> Result<String, AllocError>
    ensures { IfOk result (λ line. string_bytes line ≡ member_line name.now fault.now) }
{
    let text = topology_text(alloc, fault)?;
    let name = name.as_str();
    format!(in alloc; "exbr: topology {name}: {text}\n")
}

/// The line of a capture that is not taken, of a bridge of a net.
#[tactic(auto, unfolding(crate::specs::Answers::member_capture_line))]
fn member_capture_line(
    alloc: Global,
    name: &Text,
    port: PortId,
    text: &str,
) -> Result<String, AllocError>
    ensures { IfOk result (λ line. string_bytes line ≡ member_capture_line name.now port text.now) }
{
    let name = name.as_str();
    format!(in alloc; "exbr: capture {name}:{}: {text}\n", PortName(port))
}

/// The line of a capture that is another one now, of a bridge of a net.
fn member_changed_line(
    alloc: Global,
    name: &Text,
    port: PortId,
    at: u64,
) -> Result<String, AllocError>
    ensures { IfOk result (λ line. string_bytes line ≡ member_capture_line name.now port
        (changed_text at)) }
{
    let text = format!(in alloc; "Changed at {at}")?;
    member_capture_line(alloc, name, port, text.as_str())
}

/// The line of a fault. Those that are always the same are printed without memory by
/// `print_outcome`.
#[tactic(auto, unfolding(crate::specs::Answers::fault_line))]
fn fault_line(alloc: Global, fault: &Fault) -> Result<String, AllocError>
    ensures { IfOk result (λ line. string_bytes line ≡ fault_line fault.now) }
{
    match fault {
        Fault::Missing { name } => {
            let name = name.as_str();
            format!(in alloc; "exbr: missing {name}\n")
        }
        Fault::Topology { fault } => {
            let text = topology_text(alloc, fault)?;
            format!(in alloc; "exbr: topology: {text}\n")
        }
        Fault::Capture { port, flaw } => {
            let text = flaw_text(alloc, *flaw)?;
            capture_line(alloc, *port, text.as_str())
        }
        Fault::Changed { port, at } => {
            let text = format!(in alloc; "Changed at {at}")?;
            capture_line(alloc, *port, text.as_str())
        }
        Fault::Net { fault } => net_line(alloc, fault),
        Fault::Member { name, fault } => member_line(alloc, name, fault),
        Fault::MemberCapture { name, port, flaw } => {
            let text = flaw_text(alloc, *flaw)?;
            member_capture_line(alloc, name, *port, text.as_str())
        }
        Fault::MemberChanged { name, port, at } => member_changed_line(alloc, name, *port, *at),
        Fault::Output { port, fault } => {
            let text = broken_text(alloc, *fault)?;
            output_line(alloc, *port, text.as_str())
        }
        Fault::TooLarge { what } => large_line(alloc, *what),
        Fault::BadLine { what, number } => bad_line(alloc, *what, *number),
        Fault::Illegal { rule } => format!(in alloc; "exbr: trace: rule {rule}\n"),
        Fault::Usage => String::from_str(alloc, USAGE),
        Fault::Read => format!(in alloc; "exbr: read fault\n"),
        Fault::Write => format!(in alloc; "exbr: write fault\n"),
        Fault::Memory => format!(in alloc; "exbr: out of memory\n"),
    }
}

/// Prints the line of a fault.
fn print_fault<O: Sink>(alloc: Global, out: &mut O, fault: &Fault) -> Result<(), ShelfFault>
    ensures ok { O.tells → OnOk result (O.text out.new ≡ O.text out.old ++ fault_line fault.now) }
    ensures err { O.tells → OnErr result (AppendsFront (O.text out.old) (O.text out.new)
        (fault_line fault.now)) }
    ensures short { O.tells → OnErr result (BreaksOff (O.text out.old) (O.text out.new)
        (fault_line fault.now)) }
    ensures counts { O.faults out.new ≡ after_print result (O.faults out.old) }
    ensures faults { O.faults out.old ≤ O.faults out.new }
    ensures failed { IsErrOf result ShelfFault.Failed → Rose (O.faults out.old) (O.faults out.new) }
{
    match fault_line(alloc, fault) {
        Ok(line) => print_text(out, line.as_bytes()),
        Err(_) => Err(ShelfFault::Memory),
    }
}

/// Prints the summary or the lines of a check, or the line of the fault. The lines that are always
/// the same take no memory.
#[tactic(auto, unfolding(crate::specs::Answers::fault_line))]
fn print_outcome<O: Sink>(
    alloc: Global,
    out: &mut O,
    outcome: &Result<String, Fault>,
) -> Result<(), ShelfFault>
    ensures ok { O.tells → OnOk result (O.text out.new ≡ O.text out.old ++ line_of outcome.now) }
    ensures err { O.tells → OnErr result (AppendsFront (O.text out.old) (O.text out.new)
        (line_of outcome.now)) }
    ensures short { O.tells → OnErr result (BreaksOff (O.text out.old) (O.text out.new)
        (line_of outcome.now)) }
    ensures counts { O.faults out.new ≡ after_print result (O.faults out.old) }
    ensures faults { O.faults out.old ≤ O.faults out.new }
    ensures failed { IsErrOf result ShelfFault.Failed → Rose (O.faults out.old) (O.faults out.new) }
{
    match outcome {
        Ok(text) => print_text(out, text.as_bytes()),
        Err(Fault::Usage) => print_text(out, USAGE.as_bytes()),
        Err(Fault::Read) => print_text(out, b"exbr: read fault\n"),
        Err(Fault::Write) => print_text(out, b"exbr: write fault\n"),
        Err(Fault::Memory) => print_text(out, b"exbr: out of memory\n"),
        Err(fault) => print_fault(alloc, out, fault),
    }
}

fn fault_status(fault: &Fault) -> u8
    ensures { result ≡ fault_status fault.now }
{
    match fault {
        Fault::Memory => 1,
        Fault::Usage => 2,
        Fault::Topology { .. } | Fault::Net { .. } | Fault::Member { .. } => 3,
        Fault::Capture { .. }
        | Fault::MemberCapture { .. }
        | Fault::Output { .. }
        | Fault::TooLarge { .. } => 4,
        Fault::Missing { .. } => 5,
        Fault::Read => 6,
        Fault::Write => 7,
        Fault::Changed { .. } | Fault::MemberChanged { .. } => 10,
        Fault::Illegal { .. } => 11,
        Fault::BadLine { .. } => 12,
    }
}

fn status(outcome: &Result<String, Fault>) -> u8
    ensures { result ≡ status_of outcome.now }
{
    match outcome {
        Ok(_) => 0,
        Err(fault) => fault_status(fault),
    }
}

/// Prints the line of the outcome, and answers its status: 7 where printing failed, and 1 where
/// memory ran out while printing.
pub fn report<O: Sink>(alloc: Global, out: &mut O, outcome: &Result<String, Fault>) -> u8
    ensures status { result ≢ 1 → result ≢ 7 → result ≡ status_of outcome.now }
    ensures seven { result ≡ 7 → status_of outcome.now ≢ 7
        → Rose (O.faults out.old) (O.faults out.new) }
    ensures whole { O.tells → result ≢ 1 → result ≢ 7 → O.text out.new
        ≡ O.text out.old ++ line_of outcome.now }
    ensures whole_seven { O.tells → result ≡ 7 → ¬ Rose (O.faults out.old) (O.faults out.new)
        → O.text out.new ≡ O.text out.old ++ line_of outcome.now }
    ensures front { O.tells → AppendsFront (O.text out.old) (O.text out.new) (line_of outcome.now) }
    ensures short { O.tells → result ≢ status_of outcome.now
        → BreaksOff (O.text out.old) (O.text out.new) (line_of outcome.now) }
    ensures counts { result ≢ 7 → O.faults out.new ≡ O.faults out.old }
    // The sink is told the line once: where it fails or wants memory nothing more is printed.
    ensures once { PrintsLine O.tells (status_of outcome.now) result (O.faults out.old)
        (O.faults out.new) (O.text out.old) (O.text out.new) (line_of outcome.now) }
    ensures faults { O.faults out.old ≤ O.faults out.new }
{
    match print_outcome(alloc, out, outcome) {
        Ok(()) => status(outcome),
        Err(ShelfFault::Failed) => 7,
        Err(ShelfFault::Memory) => 1,
    }
}
