//! The frames of several files, by port.
ghost use Rattle.std.specs.Prelude.{◌≡◌, ◌≤◌, ◌⊎◌, IfOk, IfErr};
ghost use Rattle.exb_shelf.specs.Files.{SameFiles};
ghost use Rattle.exb_shelf.specs.Shelf.{Opens, IsReadingOf};
ghost use Rattle.exb_audit_files.specs.CaptureFrames.{IsTakenOf};
ghost use Rattle.exb_audit_files.specs.FrameFiles.{AreRead, CountsFrames, IsFirstFault, IsFlaw, IsOfPort, ReadsOneOf, records_by};

use crate::captured_frames::{CapturedFrames, take_capture, take_classic};
use exb_audit::PortFrames;
use exb_capture::FormatFault;
use exb_model::memory::NoMemory;
use exb_model::port::PortId;
use exb_model::text::Text;
use exb_shelf::Shelf;
use std::alloc::Global;

/// The most bytes of all captures together, of all output files together, of a journal, and of a
/// trace.
pub const LIMIT: u32 = 536_870_912;

/// A file of captured frames, and the port whose frames they are.
#[derive(Drop)]
pub struct PortFile {
    pub port: PortId,
    pub name: Text,
}

/// In which grammar a file of frames is read.
#[derive(Clone, Copy)]
pub enum Grammar {
    /// As pcapng where it begins so, else as classic pcap.
    Either,
    /// As classic pcap alone.
    Classic,
}

/// Why files of frames can't be read.
#[derive(Drop)]
pub enum FramesFault {
    /// Memory ran out.
    Memory,
    /// The shelf failed.
    Read,
    /// There is no file of this name.
    Missing { name: Text },
    /// The file of this port breaks its grammar.
    Broken { port: PortId, fault: FormatFault },
    /// Together the files have more bytes than the limit.
    Large,
}

impl From<NoMemory> for FramesFault {
    ghost use Rattle.std.specs.Prelude.{◌≡◌};
    ghost use Rattle.exb_audit_files.specs.declared.port_files.FramesFault.TheVariants.{Memory};

    ghost from_gives = { λ _ fault. fault ≡ Memory };

    fn from(_: NoMemory) -> Self {
        FramesFault::Memory
    }
}

/// Takes the frames of a file, of which so many bytes may be read.
fn take_file<S: Shelf>(
    alloc: Global,
    shelf: &mut S,
    one: &PortFile,
    grammar: Grammar,
    left: u64,
) -> Result<CapturedFrames, FramesFault>
    ensures taken { S.tells
        → IfOk result (IsTakenOf (records_by grammar) left (S.file shelf.old one.now.name)) }
    ensures flaw { S.tells → IfErr result (λ fault. IsFlaw (records_by grammar) left one.now
        (S.file shelf.old one.now.name) fault ⊎ (fault ≡ FramesFault.Read)
        ⊎ (fault ≡ FramesFault.Memory)) }
    ensures bytes { IfOk result (λ taken. taken.bytes ≤ left) }
    ensures port { IfErr result IsOfPort }
    ensures opened { Opens (IsReadingOf one.now.name) (S.ids shelf.old) (S.ids shelf.new) }
    ensures files { SameFiles (S.file shelf.old) (S.file shelf.new) }
    ensures faults { CountsFrames result (S.faults shelf.old) (S.faults shelf.new) }
{
    match grammar {
        Grammar::Either => take_capture(alloc, shelf, one, left),
        Grammar::Classic => take_classic(alloc, shelf, one, left),
    }
}

/// Reads the frames of files in the order in which they are given, which together have at most
/// `limit` bytes.
///
/// Where the files are told, it answers the frames of their records, by port. Else it answers the
/// fault of the first file that has one: that it is not there; its first fault in the grammar,
/// where no more bytes than are left of the limit decide that; or Large.
pub fn read_frames<S: Shelf>(
    alloc: Global,
    shelf: &mut S,
    files: &[PortFile],
    grammar: Grammar,
    limit: u32,
) -> Result<Vec<PortFrames>, FramesFault>
    ensures frames { S.tells
        → IfOk result (λ frames. AreRead (records_by grammar) (S.file shelf.old) limit files.now
        frames.items) }
    ensures refused { S.tells
        → IfErr result (λ fault. IsFirstFault (records_by grammar) (S.file shelf.old) limit
        files.now fault ⊎ (fault ≡ FramesFault.Read) ⊎ (fault ≡ FramesFault.Memory)) }
    ensures port { IfErr result IsOfPort }

    // What is opened, and what stays.
    ensures opened { Opens (ReadsOneOf files.now) (S.ids shelf.old) (S.ids shelf.new) }
    ensures files { SameFiles (S.file shelf.old) (S.file shelf.new) }

    ensures faults { CountsFrames result (S.faults shelf.old) (S.faults shelf.new) }
{
    let mut left = u64::from(limit);
    let mut all = Vec::new(alloc);
    'files: for one in files {
        let taken = take_file(alloc, shelf, one, grammar, left)?;
        left -= taken.bytes;
        let frames = taken.frames;
        let port = one.port;
        if all.push(PortFrames { port, frames }).is_err() {
            return Err(FramesFault::Memory);
        }
    }
    Ok(all)
}
