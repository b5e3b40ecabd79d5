//! Checking a capture from front to end.
ghost use Rattle.std.specs.Prelude.{◌≡◌};
ghost use Rattle.exb_capture.specs.CallContracts.{IsChecked, ScansOn};
ghost use Rattle.exb_capture.specs.CaptureFiles.{IsAt, IsSound};
ghost use Rattle.exb_capture.specs.Scans.{refused};

use crate::capture_file::{CaptureFile, Halt};
use crate::fault::FormatFault;
use exb_shelf::{OpenFault, Shelf};
use std::alloc::Global;

/// What is told of a capture without a fault.
#[derive(Clone, Copy)]
pub struct Scanned {
    /// How many bytes it has.
    pub bytes: u64,
    /// How many records it has.
    pub records: u64,
    /// The time of the first one in nanoseconds since the epoch, as it is read; None where there is
    /// none.
    pub first: Option<u64>,
}

/// Why a capture is refused.
#[derive(Clone, Copy, Debug)]
pub enum ScanFault {
    /// Memory ran out.
    Memory,
    /// There is no file of this name.
    Missing,
    /// The shelf failed.
    Read,
    /// It breaks the grammar.
    Fault { fault: FormatFault },
    /// It has more bytes than the limit, and up to there no fault that stands whatever follows.
    Large { limit: u64 },
}

/// Goes through a capture that was opened.
fn scan_on<S: Shelf>(shelf: &mut S, file: &mut CaptureFile) -> Result<Scanned, Halt>
    requires at { IsAt (S.ids shelf.old file.old.id) file.old.got }
    requires sound { IsSound file.old }
    ensures { ScansOn S.tells (S.file shelf.old) (S.file shelf.new) (S.ids shelf.old)
        (S.ids shelf.new) (S.faults shelf.old) (S.faults shelf.new) file.old result }
{
    let mut count = 0u64;
    let mut first: Option<u64> = None;
    'records: while let Some(moment) = file.ahead(shelf)? {
        file.pass();
        count = count.saturating_add(1);
        first = first.or(Some(moment));
    }
    Ok(Scanned {
        bytes: file.got(),
        records: count,
        first,
    })
}

/// Why a capture is refused, where it isn't read to its end. By itself, so that `scan` lets go of
/// the file at two ends and not at five.
fn refused(limit: u64, halt: Halt) -> ScanFault
    ensures { result ≡ refused limit halt }
{
    match halt {
        Halt::Memory => ScanFault::Memory,
        Halt::Failed => ScanFault::Read,
        Halt::Broken { fault } => ScanFault::Fault { fault },
        Halt::Large => ScanFault::Large { limit },
    }
}

/// Checks a capture of at most `limit` bytes from front to end. It is read in pieces.
///
/// Where the files are told, it tells how many bytes and records it has and when the first one was
/// captured; Missing only where there is no such file; its first fault; and Large exactly where it
/// has more bytes than the limit, and no fault is that of every file which begins with its first
/// `limit` bytes.
pub fn scan<S: Shelf>(
    alloc: Global,
    shelf: &mut S,
    name: &str,
    limit: u64,
) -> Result<Scanned, ScanFault>
    ensures { IsChecked S.tells (S.file shelf.old) (S.file shelf.new) (S.ids shelf.old)
        (S.ids shelf.new) (S.faults shelf.old) (S.faults shelf.new) name.now limit result }
{
    let mut file = match CaptureFile::open(alloc, shelf, name, limit) {
        Ok(file) => file,
        Err(OpenFault::Missing) => return Err(ScanFault::Missing),
        Err(OpenFault::Failed) => return Err(ScanFault::Read),
        Err(OpenFault::Memory) => return Err(ScanFault::Memory),
    };
    match scan_on(shelf, &mut file) {
        Ok(scanned) => Ok(scanned),
        Err(halt) => Err(refused(limit, halt)),
    }
}
