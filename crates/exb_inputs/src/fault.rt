//! What can end a call before its end.
ghost use Rattle.std.specs.Prelude.{◌≡◌};
ghost use Rattle.exb_inputs.specs.declared.fault.Fault.TheVariants.{Memory};
ghost use Rattle.exb_inputs.specs.Answers.{fault_again, fault_of};

use exb_model::memory::NoMemory;
use exb_model::port::PortId;
use exb_model::text::Text;
use exb_shelf::ShelfFault;
use exb_timeline::CaptureFault;
use exb_toml_keys::faults::TopoFault;

/// What is wrong with a capture that is there.
#[derive(Clone, Copy)]
pub enum InputFlaw {
    /// It has more bytes than this limit.
    Large {
        /// The most bytes that it may have.
        limit: u64,
    },
    /// It is no capture of Ethernet frames in either format.
    Broken {
        /// What is wrong, and where.
        fault: exb_capture::FormatFault,
    },
}

/// What an audit reads beside the topology.
#[derive(Clone, Copy)]
pub enum AuditInput {
    /// All captures together.
    Captures,
    /// All output captures together.
    Outputs,
    /// The journal.
    Journal,
    /// The trace.
    Trace,
}

/// Why a call ends before its end.
#[derive(Drop)]
pub enum Fault {
    /// The words are none that are accepted.
    Usage,
    /// The topology or the file of a net, or a file that one of them names or an audit reads, is
    /// not there.
    Missing {
        /// Its name.
        name: Text,
    },
    /// The topology is refused.
    Topology {
        /// For this.
        fault: TopoFault,
    },
    /// The capture of this port can't be taken.
    Capture {
        /// The port.
        port: PortId,
        /// What is wrong with it.
        flaw: InputFlaw,
    },
    /// The capture of this port is another one than the one that was checked, as this byte shows.
    Changed {
        /// The port.
        port: PortId,
        /// Where it shows.
        at: u64,
    },
    /// The file of a net is refused, or its bridges with their wires are.
    Net {
        /// For this.
        fault: TopoFault,
    },
    /// The topology of this bridge of a net is refused.
    Member {
        /// The name of the bridge.
        name: Text,
        /// For this.
        fault: TopoFault,
    },
    /// The capture of this port of a bridge of a net can't be taken.
    MemberCapture {
        /// The name of the bridge.
        name: Text,
        /// The port.
        port: PortId,
        /// What is wrong with it.
        flaw: InputFlaw,
    },
    /// The capture of this port of a bridge of a net is another one than the one that was checked,
    /// as this byte shows.
    MemberChanged {
        /// The name of the bridge.
        name: Text,
        /// The port.
        port: PortId,
        /// Where it shows.
        at: u64,
    },
    /// The output capture of this port is no capture, in an audit.
    Output {
        /// The port.
        port: PortId,
        /// What is wrong with it, and where.
        fault: exb_capture::FormatFault,
    },
    /// This has more bytes than an audit reads.
    TooLarge {
        /// What is too large.
        what: AuditInput,
    },
    /// A line of the journal or of the trace isn't one, or has no newline, in an audit.
    BadLine {
        /// What it is a line of.
        what: AuditInput,
        /// The first such line, from 1.
        number: u64,
    },
    /// The trace isn't legal.
    Illegal {
        /// The lowest rule that doesn't hold, from 1 to 5.
        rule: u8,
    },
    /// A file could not be read.
    Read,
    /// A file could not be made or written.
    Write,
    /// Memory ran out.
    Memory,
}

impl From<NoMemory> for Fault {
    ghost from_gives = { λ _ fault. fault ≡ Memory };

    fn from(_: NoMemory) -> Self {
        Fault::Memory
    }
}

/// A failure of the shelf while files are made and written.
impl From<ShelfFault> for Fault {
    ghost from_gives = { λ failure fault. fault ≡ fault_of failure };

    fn from(failure: ShelfFault) -> Self {
        match failure {
            ShelfFault::Failed => Fault::Write,
            ShelfFault::Memory => Fault::Memory,
        }
    }
}

/// Why captures that were checked can't be read on.
impl From<CaptureFault> for Fault {
    ghost from_gives = { λ failure fault. fault ≡ fault_again failure };

    fn from(failure: CaptureFault) -> Self {
        match failure {
            CaptureFault::Memory => Fault::Memory,
            CaptureFault::Read => Fault::Read,
            CaptureFault::Changed { port, at } => Fault::Changed { port, at },
        }
    }
}
