//! Reading a capture again that was checked.
ghost use Rattle.std.specs.Prelude.{◌≡◌, ◌<◌, ◌+◌, ◌^◌, ℕ, true};
ghost use Rattle.exb_capture.specs.CallContracts.{LooksAgain, OpensAgain, StopsEarly, TakesAgain};
ghost use Rattle.exb_capture.specs.CaptureFiles.{IsAt, ComesNext};
ghost use Rattle.exb_capture.specs.Replays.{comes_early, IsKept, ComesAt};

use crate::capture_file::{CaptureFile, Halt};
use crate::scans::Scanned;
use exb_model::bytes::Bytes;
use exb_model::memory::NoMemory;
use exb_shelf::{OpenFault, Shelf};
use std::alloc::Global;

/// Why a capture isn't read on.
#[derive(Clone, Copy, Debug)]
pub enum ReplayFault {
    /// Memory ran out.
    Memory,
    /// The shelf failed.
    Read,
    /// It is another capture than the one that was checked, as this byte shows.
    Changed { at: u64 },
}

/// Whether a first record of this time was not told, or is earlier than was told.
#[inline(always)]
fn comes_early(told: Option<u64>, time: u64) -> bool
    ensures { result ≡ comes_early told time }
{
    match told {
        None => true,
        Some(first) => time < first,
    }
}

/// A capture on a shelf that was checked and is read again in pieces, with one buffer. One byte
/// more than was told is read, so that a longer file shows.
pub struct Replay {
    file: CaptureFile,
    told: Scanned,
    /// The moment of the record that was given last, or 0.
    least: u64,
    /// Whether no record was given.
    fresh: bool,
}

impl Drop for Replay {
    fn drop(self) {
        let Replay {
            file: _,
            told: _,
            least: _,
            fresh: _,
        } = self;
    }
}

impl Replay {
    /// Opens a capture again of which this was told.
    ///
    /// Where the files are told, it is Changed only where the file is no longer there.
    pub fn open<S: Shelf>(
        alloc: Global,
        shelf: &mut S,
        name: &str,
        told: Scanned,
    ) -> Result<Replay, ReplayFault>
        requires room { told.bytes + 1 < 2 ^ 64 }
        ensures { OpensAgain S.tells (S.file shelf.old) (S.file shelf.new) (S.ids shelf.old)
            (S.ids shelf.new) (S.faults shelf.old) (S.faults shelf.new) name.now told result }
    {
        match CaptureFile::open(alloc, shelf, name, told.bytes + 1) {
            Ok(file) => Ok(Replay {
                file,
                told,
                least: 0,
                fresh: true,
            }),
            Err(OpenFault::Missing) => Err(ReplayFault::Changed { at: 0 }),
            Err(OpenFault::Failed) => Err(ReplayFault::Read),
            Err(OpenFault::Memory) => Err(ReplayFault::Memory),
        }
    }

    /// At which byte a capture is another one, whose first record comes early. Where that record
    /// ends only behind what was told, the file goes on there; and where it ends with the file, it
    /// ends too soon. Else it is where that record begins. Where it can't be seen whether the file
    /// ends, since a read failed or memory ran out, that is the answer.
    #[cold]
    #[inline(never)]
    fn early<S: Shelf>(&mut self, shelf: &mut S) -> ReplayFault
        requires at { IsAt (S.ids shelf.old self.old.file.id) self.old.file.got }
        requires kept { IsKept self.old }
        requires fresh { self.old.fresh ≡ true }
        requires found { (time : ℕ) × (ComesNext time self.old.file)
            × (comes_early self.old.told.first time ≡ true) }
        ensures { StopsEarly S.tells (S.file shelf.old) (S.file shelf.new) (S.ids shelf.old)
            (S.ids shelf.new) (S.faults shelf.old) (S.faults shelf.new) self.old self.new result }
    {
        let bytes = self.told.bytes;
        let begin = self.file.reader.begun();
        let end = self.file.reader.place();
        if bytes < end {
            return ReplayFault::Changed { at: bytes };
        }
        self.file.pass();
        match self.file.ahead(shelf) {
            Ok(Some(_)) => ReplayFault::Changed { at: begin },
            Ok(None) => {
                let got = self.file.got();
                if got == end && got < bytes {
                    return ReplayFault::Changed { at: got };
                }
                ReplayFault::Changed { at: begin }
            }
            Err(Halt::Memory) => ReplayFault::Memory,
            Err(Halt::Failed) => ReplayFault::Read,
            Err(Halt::Broken { .. }) => ReplayFault::Changed { at: begin },
            Err(Halt::Large) => ReplayFault::Changed { at: begin },
        }
    }

    /// Reads on until it is known what comes next, and answers the moment of the record, or None at
    /// the end. What comes next isn't taken yet.
    ///
    /// Where the files are told, it is Changed at a byte only where the file disagrees there with
    /// what was told, and None only where all was given and it agrees.
    #[inline(always)]
    pub fn ahead<S: Shelf>(&mut self, shelf: &mut S) -> Result<Option<u64>, ReplayFault>
        requires at { IsAt (S.ids shelf.old self.old.file.id) self.old.file.got }
        requires kept { IsKept self.old }
        ensures { LooksAgain S.tells (S.file shelf.old) (S.file shelf.new) (S.ids shelf.old)
            (S.ids shelf.new) (S.faults shelf.old) (S.faults shelf.new) self.old self.new result }
    {
        let bytes = self.told.bytes;
        match self.file.ahead(shelf) {
            Ok(Some(time)) => {
                if self.fresh && comes_early(self.told.first, time) {
                    return Err(self.early(shelf));
                }
                Ok(Some(time.max(self.least)))
            }
            Ok(None) => {
                let got = self.file.got();
                if got != bytes {
                    return Err(ReplayFault::Changed { at: got.min(bytes) });
                }
                Ok(None)
            }
            Err(Halt::Memory) => Err(ReplayFault::Memory),
            Err(Halt::Failed) => Err(ReplayFault::Read),
            Err(Halt::Broken { fault }) => Err(ReplayFault::Changed { at: fault.at }),
            Err(Halt::Large) => Err(ReplayFault::Changed { at: bytes }),
        }
    }

    /// Takes the record that comes next, of which the moment is known, and gives its bytes as a
    /// copy in this buffer, which is written anew.
    #[inline(always)]
    pub fn take(&mut self, moment: u64, buffer: Vec<u8>) -> Result<Bytes, NoMemory>
        requires found { ComesAt moment self.old }
        requires kept { IsKept self.old }
        ensures { TakesAgain moment self.old self.new result }
    {
        let bytes = self.file.take(buffer)?;
        self.least = moment;
        self.fresh = false;
        Ok(bytes)
    }
}
