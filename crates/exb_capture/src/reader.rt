//! Reading a capture that is fed in pieces, in any format.
ghost use Rattle.std.specs.Prelude.{◌≡◌, ◌≢◌, ◌<◌, ◌≤◌, ◌+◌, ◌-◌, length, drop, take, None, IfOk};
ghost use Rattle.exb_shelf.specs.Shelf.{IsReading};
ghost use Rattle.exb_capture.specs.Blocks.{most_held};
ghost use Rattle.exb_capture.specs.ReaderMachine.{Reading, At, unread, fitting, fed, roomy, gone, over, at_front_end, turn, asked};
ghost use Rattle.exb_capture.specs.CallContracts.{Fills};
ghost use Rattle.exb_capture.specs.ReaderAnswers.{turned, seen, IsAhead, IsSeen, Looks};

use crate::fault::{Flaw, FormatFault};
use crate::format::{Format, Front, RecordSpan};
use exb_model::memory::NoMemory;
use exb_shelf::{Shelf, ShelfFault};
use std::alloc::{AllocError, Global};
use std::marker::Model;

/// The bytes of the longest block that is looked into.
const BUFFER: usize = 327_680;

/// What comes next. A record's bytes stay in the reader until it is asked again.
#[derive(Clone, Copy)]
pub enum Ahead {
    /// A captured frame in what is held.
    Record(RecordSpan),
    /// Bytes that weren't fed yet decide what comes next.
    More,
    /// There is no further record.
    End,
}

// A buffer of this many bytes.
fn room_for(alloc: Global, size: usize) -> Result<Vec<u8>, AllocError>
    ensures { IfOk result (λ buffer. length buffer.items ≡ size) }
{
    vec![in alloc; 0u8; size]
}

/// A capture that is read while it is fed in pieces. It keeps no more of the file than one buffer,
/// what its format knows of it and where in the file it is.
#[derive(Drop)]
pub struct Reader<F: Format> {
    format: F,
    failed: Option<FormatFault>,
    place: u64,
    begun: u64,
    owing: u32,
    buffer: Vec<u8>,
    start: usize,
    end: usize,
}

impl<F: Format> Model for Reader<F> {
    ghost use Rattle.std.specs.Prelude.{◌≡◌, ◌-◌, ◌≤◌, take, drop, length};
    ghost use Rattle.exb_capture.specs.Blocks.{most_held};
    ghost use Rattle.exb_capture.specs.ReaderMachine.{Reading};
    ghost use Rattle.exb_capture.specs.ReaderAnswers.{stage_of};

    ghost Value = { Reading F };

    ghost view = { λ r. record {
      stage = stage_of r.failed r.format;
      place = r.place;
      held = take (r.end - r.start) (drop r.start r.buffer.items);
      owing = r.owing;
      begun = r.begun;
      room = most_held - r.end;
    } };

    ghost invariant = { λ r. (length r.buffer.items ≡ most_held) × (r.start ≤ r.end)
        × (r.end ≤ most_held) };
}

impl<F: Format> Reader<F> {
    /// A reader that was fed nothing. Its buffer has 327,680 bytes, and no later call takes memory.
    pub fn new(alloc: Global, format: F) -> Result<Reader<F>, NoMemory>
        ensures { IfOk result (λ reader. reader ≡ unread most_held format) }
    {
        let buffer = room_for(alloc, BUFFER)?;
        Ok(Reader {
            format,
            failed: None,
            place: 0,
            begun: 0,
            owing: 0,
            buffer,
            start: 0,
            end: 0,
        })
    }

    /// The free bytes of the buffer.
    pub fn room(&self) -> u32
        ensures { result ≡ self.now.room }
    {
        (self.buffer.len() - self.end) as u32
    }

    /// Where what was read last begins in the file.
    pub fn begun(&self) -> u64
        ensures { result ≡ self.now.begun }
    {
        self.begun
    }

    /// Where what was read last ends in the file, and what is read next begins.
    pub fn place(&self) -> u64
        ensures { result ≡ self.now.place }
    {
        self.place
    }

    // Goes past what was read before, as far as it is held.
    #[inline(always)]
    fn go(&mut self)
        ensures { self.new ≡ gone self.old }
    {
        let n = (self.owing as usize).min(self.end - self.start);
        self.start += n;
        self.owing -= n as u32;
    }

    // Moves what is held to the buffer's front.
    #[cold]
    #[inline(never)]
    fn make_room(&mut self)
        ensures { self.new ≡ roomy most_held self.old }
    {
        let (start, end) = (self.start, self.end);
        if start > 0 {
            self.buffer.as_mut_slice().copy_within(start..end, 0);
            self.start = 0;
            self.end = end - start;
        }
    }

    /// Takes the first bytes of a piece, as many as there is room for, and answers how many.
    pub fn feed(&mut self, piece: &[u8]) -> u32
        ensures taken { result ≡ fitting piece.now self.old }
        ensures left { self.new ≡ fed result piece.now self.old }
    {
        let size = piece.len().min(self.buffer.len() - self.end);
        let end = self.end + size;
        self.buffer.as_mut_slice()[self.end..end].copy_from_slice(&piece[..size]);
        self.end = end;
        size as u32
    }

    /// Reads the next bytes of a file on a shelf straight into the buffer, at most so many, and
    /// answers how many.
    pub(crate) fn fill<S: Shelf>(
        &mut self,
        shelf: &mut S,
        id: u32,
        most: usize,
    ) -> Result<usize, ShelfFault>
        requires reading { IsReading (S.ids shelf.old id) }
        requires room { most ≤ self.old.room }
        ensures { Fills S.tells (S.file shelf.old) (S.file shelf.new) (S.ids shelf.old)
            (S.ids shelf.new) (S.faults shelf.old) (S.faults shelf.new) id most self.old self.new
            result }
    {
        let to = self.end + most;
        let n = shelf.read(id, &mut self.buffer.as_mut_slice()[self.end..to])?;
        self.end += n;
        Ok(n)
    }

    // That more is needed, or at the file's end this fault, from then on, or the end.
    #[inline(always)]
    fn at_last(
        &mut self,
        ended: bool,
        fault: Option<FormatFault>,
    ) -> Option<Result<Ahead, FormatFault>>
        ensures value { turned result self.new ≡ at_front_end most_held ended fault self.old }
        ensures held { IsSeen self.new.held result }
    {
        if !ended {
            self.make_room();
            return Some(Ok(Ahead::More));
        }
        let Some(fault) = fault else {
            return Some(Ok(Ahead::End));
        };
        self.failed = Some(fault);
        Some(Err(fault))
    }

    // What stands at the front.
    #[inline(always)]
    fn look(&mut self) -> Front
        ensures { (s : F) → self.old.stage ≡ At s → Looks F.stands result s self.old self.new }
    {
        self.format.front(&self.buffer[self.start..self.end])
    }

    // So many bytes at the front were read.
    #[inline(always)]
    fn pass(&mut self, n: u32)
        ensures { (s : F) → self.old.stage ≡ At s → self.new ≡ over n s self.old }
    {
        self.begun = self.place;
        self.place = self.place.saturating_add(n as u64);
        self.owing = n;
    }

    // One look at the front; nothing where what is there is no record, and it goes on behind it.
    #[inline(always)]
    fn turn(&mut self, ended: bool) -> Option<Result<Ahead, FormatFault>>
        ensures value { turned result self.new ≡ turn most_held F.stands ended self.old }
        ensures held { IsSeen self.new.held result }
    {
        if let Some(fault) = self.failed {
            return Some(Err(fault));
        }
        self.go();
        if self.owing > 0 {
            let at = self.begun;
            return self.at_last(ended, Some(FormatFault::new(Flaw::Cut, at)));
        }
        match self.look() {
            Front::Nothing => self.at_last(ended, None),
            Front::Short(fault) => self.at_last(ended, Some(fault.at_place(self.place))),
            Front::Bad(fault) => self.at_last(true, Some(fault.at_place(self.place))),
            Front::Over(n) => {
                self.pass(n);
                None
            }
            Front::Holds(seen, size) => {
                self.pass(size);
                Some(Ok(Ahead::Record(seen)))
            }
        }
    }

    /// What comes next, where all that was fed decides it; `ended` says that the whole file was
    /// fed. After More there is room. After a fault it gives the same fault again.
    #[inline(always)]
    pub fn advance(&mut self, ended: bool) -> Result<Ahead, FormatFault>
        ensures answer { seen result self.new.held
            ≡ (asked most_held F.stands ended self.old).answer }
        ensures left { self.new ≡ (asked most_held F.stands ended self.old).left }
        ensures frame { IfOk result (IsAhead self.new.held) }
    {
        self.format.is_a_format();
        'turns: loop {
            if let Some(answer) = self.turn(ended) {
                return answer;
            }
        }
    }

    /// The bytes of a record that was answered last.
    #[inline(always)]
    pub fn frame(&self, from: u32, bytes: u32) -> &[u8]
        requires { from + bytes ≤ length self.now.held }
        ensures { result.now ≡ take bytes (drop from self.now.held) }
    {
        &self.buffer[self.start..self.end][from as usize..][..bytes as usize]
    }
}
