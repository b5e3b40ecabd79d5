//! One capture on a shelf, read in pieces.
ghost use Rattle.std.specs.Prelude.{◌≡◌, ◌<◌, ◌≤◌, ℕ, false, None};
ghost use Rattle.exb_capture.specs.CallContracts.{LooksAhead, OpensCapture, Passes, ReadsOn, Takes};
ghost use Rattle.exb_capture.specs.CaptureFiles.{IsAt, IsSound, ComesNext};

use crate::fault::FormatFault;
use crate::format::{AnyFormat, RecordSpan};
use crate::reader::{Ahead, Reader};
use exb_model::bytes::Bytes;
use exb_model::memory::NoMemory;
use exb_shelf::{OpenFault, PIECE, Shelf, ShelfFault};
use std::alloc::Global;

/// Why a capture can't be read on.
#[derive(Clone, Copy)]
pub enum Halt {
    /// Memory ran out.
    Memory,
    /// The shelf failed.
    Failed,
    /// It breaks the grammar.
    Broken { fault: FormatFault },
    /// It has more bytes than may be read.
    Large,
}

impl From<ShelfFault> for Halt {
    ghost use Rattle.exb_capture.specs.CaptureFiles.{halted};

    ghost from_gives = { λ fault made. made ≡ halted fault };

    fn from(fault: ShelfFault) -> Self {
        match fault {
            ShelfFault::Failed => Halt::Failed,
            ShelfFault::Memory => Halt::Memory,
        }
    }
}

/// A capture on a shelf that is read in pieces, at most up to a limit. It keeps no more of the file
/// than the buffer of its reader.
pub struct CaptureFile {
    id: u32,
    pub(crate) reader: Reader<AnyFormat>,
    /// The record that comes next, where it was looked at.
    next: Option<RecordSpan>,
    /// How many bytes were read.
    got: u64,
    /// How many may be read.
    limit: u64,
    /// Whether the shelf told the file's end.
    ended: bool,
}

impl Drop for CaptureFile {
    fn drop(self) {
        let CaptureFile {
            id: _,
            reader: _,
            next: _,
            got: _,
            limit: _,
            ended: _,
        } = self;
    }
}

impl CaptureFile {
    /// Opens a capture, of which at most `limit` bytes are read.
    pub fn open<S: Shelf>(
        alloc: Global,
        shelf: &mut S,
        name: &str,
        limit: u64,
    ) -> Result<CaptureFile, OpenFault>
        ensures { OpensCapture S.tells (S.file shelf.old) (S.file shelf.new) (S.ids shelf.old)
            (S.ids shelf.new) (S.faults shelf.old) (S.faults shelf.new) name.now limit result }
    {
        let Ok(reader) = Reader::new(alloc, AnyFormat::Unknown) else {
            return Err(OpenFault::Memory);
        };
        let id = shelf.open(name)?;
        Ok(CaptureFile {
            id,
            reader,
            next: None,
            got: 0,
            limit,
            ended: false,
        })
    }

    /// How many bytes were read.
    pub fn got(&self) -> u64
        ensures { result ≡ self.now.got }
    {
        self.got
    }

    /// Reads the next bytes of the file, or its end. Where no more may be read, it looks whether
    /// the file ends there.
    #[cold]
    #[inline(never)]
    fn read_on<S: Shelf>(&mut self, shelf: &mut S) -> Result<(), Halt>
        requires at { IsAt (S.ids shelf.old self.old.id) self.old.got }
        requires room { 0 < self.old.reader.room }
        requires open { self.old.ended ≡ false }
        requires unseen { self.old.next ≡ None }
        requires sound { IsSound self.old }
        ensures { ReadsOn S.tells (S.file shelf.old) (S.file shelf.new) (S.ids shelf.old)
            (S.ids shelf.new) (S.faults shelf.old) (S.faults shelf.new) self.old self.new result }
    {
        if self.got == self.limit {
            let mut one = [0u8; 1];
            let more = shelf.read(self.id, &mut one)?;
            if more > 0 {
                return Err(Halt::Large);
            }
            self.ended = true;
            return Ok(());
        }
        let left = (self.limit - self.got).min(PIECE as u64);
        let most = (self.reader.room() as u64).min(left) as usize;
        let n = self.reader.fill(shelf, self.id, most)?;
        self.got += n as u64;
        if n == 0 {
            self.ended = true;
        }
        Ok(())
    }

    /// Reads on until it is known what comes next, and answers the time of the record, or None at
    /// the end. What comes next isn't taken yet.
    #[inline(always)]
    pub fn ahead<S: Shelf>(&mut self, shelf: &mut S) -> Result<Option<u64>, Halt>
        requires at { IsAt (S.ids shelf.old self.old.id) self.old.got }
        requires sound { IsSound self.old }
        ensures { LooksAhead S.tells (S.file shelf.old) (S.file shelf.new) (S.ids shelf.old)
            (S.ids shelf.new) (S.faults shelf.old) (S.faults shelf.new) self.old self.new result }
    {
        if let Some(seen) = self.next {
            return Ok(Some(seen.moment));
        }
        'looking: loop {
            match self.reader.advance(self.ended) {
                Ok(Ahead::Record(seen)) => {
                    self.next = Some(seen);
                    return Ok(Some(seen.moment));
                }
                Ok(Ahead::End) => return Ok(None),
                Ok(Ahead::More) => self.read_on(shelf)?,
                Err(fault) => return Err(Halt::Broken { fault }),
            }
        }
    }

    /// Takes the record that comes next, and gives its bytes as a copy in this buffer, which is
    /// written anew.
    #[inline(always)]
    pub fn take(&mut self, mut buffer: Vec<u8>) -> Result<Bytes, NoMemory>
        requires found { (moment : ℕ) × ComesNext moment self.old }
        requires sound { IsSound self.old }
        ensures { Takes self.old self.new result }
    {
        match self.next {
            Some(seen) => {
                self.next = None;
                buffer.clear();
                buffer.extend_from_slice(self.reader.frame(seen.from, seen.bytes))?;
                Ok(Bytes::from_vec(buffer))
            }
            None => unreachable!(),
        }
    }

    /// Goes past the record that comes next.
    #[inline(always)]
    pub(crate) fn pass(&mut self)
        requires found { (moment : ℕ) × ComesNext moment self.old }
        requires sound { IsSound self.old }
        ensures { Passes self.old self.new }
    {
        self.next = None;
    }
}
