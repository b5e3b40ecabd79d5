//! The frames of one file.
ghost use Rattle.std.specs.Prelude.{◌≡◌, ◌≤◌, ◌⊎◌, [], None, IfOk, IfErr, IsErrOf};
ghost use Rattle.exb_capture.specs.Captures.{capture_records};
ghost use Rattle.exb_capture.specs.FaultCounts.{after_looking};
ghost use Rattle.exb_capture.specs.Classic.{pcap_records};
ghost use Rattle.exb_capture.specs.Formats.{fault as fault_at};
ghost use Rattle.exb_capture.specs.CaptureFiles.{IsAt, IsSound, HasRead, HaltsBy, MovesOn};
ghost use Rattle.exb_capture.specs.declared.fault.Flaw.TheVariants.{NotPcap};
ghost use Rattle.exb_shelf.specs.Files.{SameFiles, bytes_of};
ghost use Rattle.exb_shelf.specs.Shelf.{IsReadingOf, Opens, NoFewer, Rose};
ghost use Rattle.exb_audit_files.specs.CaptureFrames.{BeginsWith, IsTaken, IsTakenOf, IsUnopened, halted, unread};
ghost use Rattle.exb_audit_files.specs.FrameFiles.{CountsFrames, IsFlaw, IsOfPort};

use crate::port_files::{FramesFault, PortFile};
use exb_capture::{CaptureFile, Flaw, FormatFault, Halt};
use exb_model::bytes::Bytes;
use exb_model::port::PortId;
use exb_model::text::Text;
use exb_shelf::{OpenFault, Shelf, ShelfFault};
use std::alloc::Global;

/// What was taken of a file: its frames, and how many bytes it has.
#[derive(Drop)]
pub(crate) struct CapturedFrames {
    pub(crate) frames: Vec<Bytes>,
    pub(crate) bytes: u64,
}

/// Why a file of this name can't be opened.
fn unopened(alloc: Global, name: &Text, fault: OpenFault) -> FramesFault
    ensures { IsUnopened name.now fault result }
{
    match fault {
        OpenFault::Missing => match Text::from_str(alloc, name.as_str()) {
            Ok(name) => FramesFault::Missing { name },
            Err(_) => FramesFault::Memory,
        },
        OpenFault::Failed => FramesFault::Read,
        OpenFault::Memory => FramesFault::Memory,
    }
}

/// Why a file can't be read.
fn unread(fault: ShelfFault) -> FramesFault
    ensures { result ≡ unread fault }
{
    match fault {
        ShelfFault::Failed => FramesFault::Read,
        ShelfFault::Memory => FramesFault::Memory,
    }
}

/// Why the file of this port isn't read on.
fn halted(port: PortId, halt: Halt) -> FramesFault
    ensures halted { result ≡ halted port halt }
    ensures port { IsOfPort result }
{
    match halt {
        Halt::Memory => FramesFault::Memory,
        Halt::Failed => FramesFault::Read,
        Halt::Broken { fault } => {
            let _number = port.number();
            FramesFault::Broken { port, fault }
        }
        Halt::Large => FramesFault::Large,
    }
}

/// Takes the frames of a capture that was opened.
fn take_frames<S: Shelf>(
    alloc: Global,
    shelf: &mut S,
    file: &mut CaptureFile,
) -> Result<CapturedFrames, Halt>
    requires at { IsAt (S.ids shelf.old file.old.id) file.old.got }
    requires sound { IsSound file.old }
    ensures whole { S.tells
        → IfOk result (λ taken.
        HasRead (bytes_of (S.file shelf.old (S.ids shelf.old file.old.id).name)) [] file.old
        → IsTaken capture_records file.old.limit
        (bytes_of (S.file shelf.old (S.ids shelf.old file.old.id).name)) taken) }
    ensures halts { S.tells
        → IfErr result (λ halt.
        HasRead (bytes_of (S.file shelf.old (S.ids shelf.old file.old.id).name)) [] file.old
        → HaltsBy (bytes_of (S.file shelf.old (S.ids shelf.old file.old.id).name)) file.old.limit
        halt) }
    ensures bytes { IfOk result (λ taken. taken.bytes ≤ file.old.limit) }
    ensures moves { MovesOn file.old.id (S.ids shelf.old) (S.ids shelf.new) }
    ensures files { SameFiles (S.file shelf.old) (S.file shelf.new) }
    ensures counts { S.faults shelf.new ≡ after_looking result (S.faults shelf.old) }
    ensures faults { NoFewer (S.faults shelf.old) (S.faults shelf.new) }
    ensures failed { IsErrOf result Halt.Failed
        → Rose (S.faults shelf.old).reads (S.faults shelf.new).reads }
{
    let mut frames = Vec::new(alloc);
    'records: while let Some(_) = file.ahead(shelf)? {
        let Ok(frame) = file.take(Vec::new(alloc)) else {
            return Err(Halt::Memory);
        };
        if frames.push(frame).is_err() {
            return Err(Halt::Memory);
        }
    }
    Ok(CapturedFrames {
        frames,
        bytes: file.got(),
    })
}

/// Takes the frames of a capture in either format, of which so many bytes may be read.
pub(crate) fn take_capture<S: Shelf>(
    alloc: Global,
    shelf: &mut S,
    one: &PortFile,
    left: u64,
) -> Result<CapturedFrames, FramesFault>
    ensures taken { S.tells
        → IfOk result (IsTakenOf capture_records left (S.file shelf.old one.now.name)) }
    ensures flaw { S.tells → IfErr result (λ fault. IsFlaw capture_records left one.now
        (S.file shelf.old one.now.name) fault ⊎ (fault ≡ FramesFault.Read)
        ⊎ (fault ≡ FramesFault.Memory)) }
    ensures bytes { IfOk result (λ taken. taken.bytes ≤ left) }
    ensures port { IfErr result IsOfPort }
    ensures opened { Opens (IsReadingOf one.now.name) (S.ids shelf.old) (S.ids shelf.new) }
    ensures files { SameFiles (S.file shelf.old) (S.file shelf.new) }
    ensures faults { CountsFrames result (S.faults shelf.old) (S.faults shelf.new) }
{
    let mut file = match CaptureFile::open(alloc, shelf, one.name.as_str(), left) {
        Ok(file) => file,
        Err(fault) => return Err(unopened(alloc, &one.name, fault)),
    };
    match take_frames(alloc, shelf, &mut file) {
        Ok(taken) => Ok(taken),
        Err(halt) => Err(halted(one.port, halt)),
    }
}

/// The first byte of a file; None where it has none.
fn first_byte<S: Shelf>(
    alloc: Global,
    shelf: &mut S,
    name: &Text,
) -> Result<Option<u8>, FramesFault>
    ensures first { S.tells → IfOk result (λ first. BeginsWith first (S.file shelf.old name.now)) }
    ensures fault { S.tells → IfErr result (λ fault. ((S.file shelf.old name.now ≡ None)
        × (fault ≡ FramesFault.Missing name.now)) ⊎ (fault ≡ FramesFault.Read)
        ⊎ (fault ≡ FramesFault.Memory)) }
    ensures port { IfErr result IsOfPort }
    ensures opened { Opens (IsReadingOf name.now) (S.ids shelf.old) (S.ids shelf.new) }
    ensures files { SameFiles (S.file shelf.old) (S.file shelf.new) }
    ensures faults { CountsFrames result (S.faults shelf.old) (S.faults shelf.new) }
{
    let id = match shelf.open(name.as_str()) {
        Ok(id) => id,
        Err(fault) => return Err(unopened(alloc, name, fault)),
    };
    let mut first = [0u8; 1];
    let n = match shelf.read(id, &mut first) {
        Ok(n) => n,
        Err(fault) => return Err(unread(fault)),
    };
    if n == 0 {
        return Ok(None);
    }
    Ok(Some(first[0]))
}

/// That a file of this port is no classic capture.
fn no_classic(port: PortId) -> FramesFault
    ensures fault { result ≡ FramesFault.Broken port (fault_at NotPcap 0) }
    ensures port { IsOfPort result }
{
    let _number = port.number();
    let fault = FormatFault {
        flaw: Flaw::NotPcap,
        at: 0,
    };
    FramesFault::Broken { port, fault }
}

/// Takes the frames of a classic capture, of which so many bytes may be read. Its first byte is
/// looked at before: one that begins as pcapng does is no classic capture, and any other is read as
/// such.
pub(crate) fn take_classic<S: Shelf>(
    alloc: Global,
    shelf: &mut S,
    one: &PortFile,
    left: u64,
) -> Result<CapturedFrames, FramesFault>
    ensures taken { S.tells
        → IfOk result (IsTakenOf pcap_records left (S.file shelf.old one.now.name)) }
    ensures flaw { S.tells → IfErr result (λ fault. IsFlaw pcap_records left one.now
        (S.file shelf.old one.now.name) fault ⊎ (fault ≡ FramesFault.Read)
        ⊎ (fault ≡ FramesFault.Memory)) }
    ensures bytes { IfOk result (λ taken. taken.bytes ≤ left) }
    ensures port { IfErr result IsOfPort }
    ensures opened { Opens (IsReadingOf one.now.name) (S.ids shelf.old) (S.ids shelf.new) }
    ensures files { SameFiles (S.file shelf.old) (S.file shelf.new) }
    ensures faults { CountsFrames result (S.faults shelf.old) (S.faults shelf.new) }
{
    let first = first_byte(alloc, shelf, &one.name)?;
    let Some(byte) = first else {
        return Err(no_classic(one.port));
    };
    if left == 0 {
        return Err(FramesFault::Large);
    }
    if byte == 10 {
        return Err(no_classic(one.port));
    }
    take_capture(alloc, shelf, one, left)
}
