//! What comes in one segment: one event, or all of one second.
ghost use Rattle.std.specs.Prelude.{◌≡◌, ◌++◌, ◌∷◌, [], true, false, IfOk, OnOk, IfErr, IfSome, IfNone};
ghost use Rattle.exb_play.specs.Disks.{disk};
ghost use Rattle.exb_play.specs.BridgeRuns.{mode_of};
ghost use Rattle.exb_play.specs.RunInvariants.{CanFeed, HasTakenSecond, IsGathered, IsTaken, NoMoreIn, NothingIsLeft, ReadsAgain};

use crate::script::Schedule;
use exb_model::arrival::Arrival;
use exb_model::moment::SECOND;
use exb_shelf::Shelf;
use exb_timeline::{CaptureFault, Next, Timeline};
use std::alloc::Global;
use std::mem;

/// What is still to come, what came of it for one segment, and what came for the one before, of
/// which the buffers are used again.
#[derive(Drop)]
pub(crate) struct Feed<'a> {
    pub(crate) programme: Timeline<'a>,
    pub(crate) gathered: Vec<Arrival>,
    pub(crate) played: Vec<Arrival>,
}

/// Puts a record that came behind the arrivals so far.
fn put(gathered: &mut Vec<Arrival>, came: Arrival) -> Result<(), CaptureFault>
    ensures behind { OnOk result (gathered.new.items ≡ gathered.old.items ++ came ∷ []) }
    ensures memory { IfErr result (λ fault. fault ≡ CaptureFault.Memory) }
{
    if gathered.push(came).is_err() {
        return Err(CaptureFault::Memory);
    }
    Ok(())
}

/// A buffer to be written anew: that of an arrival that was played, or else one without room.
#[inline(always)]
fn spare(alloc: Global, played: &mut Vec<Arrival>) -> Vec<u8> {
    match played.pop() {
        Some(arrival) => arrival.bytes.into_buffer(),
        None => Vec::new(alloc),
    }
}

/// A buffer to be written anew, where the arrivals of the segment before change places with those
/// that are gathered: a seeded run takes the buffers of all of them.
#[cold]
#[inline(never)]
fn exchange(alloc: Global, gathered: &mut Vec<Arrival>, played: &mut Vec<Arrival>) -> Vec<u8> {
    mem::swap(gathered, played);
    spare(alloc, played)
}

/// Forgets what was gathered for the segment before, and answers a buffer to be written anew. An
/// eager run needs no other one.
#[inline(always)]
fn begin(
    alloc: Global,
    schedule: Schedule,
    gathered: &mut Vec<Arrival>,
    played: &mut Vec<Arrival>,
) -> Vec<u8>
    ensures { gathered.new.items ≡ [] }
{
    let buffer = match schedule {
        Schedule::Eager => spare(alloc, gathered),
        Schedule::Seeded { .. } => exchange(alloc, gathered, played),
    };
    gathered.clear();
    buffer
}

impl Feed<'_> {
    /// Takes what comes first, its bytes in this buffer, and answers its second; None exactly where
    /// nothing is left.
    #[inline(always)]
    fn take_first<S: Shelf>(
        &mut self,
        shelf: &mut S,
        buffer: Vec<u8>,
    ) -> Result<Option<u64>, CaptureFault>
        requires feed { CanFeed (disk S.Shelf shelf.old) self.old }
        ensures feed { OnOk result (CanFeed (disk S.Shelf shelf.new) self.new) }
        ensures taken { IfOk result (λ next.
            IfSome next (λ second. IsTaken S.tells second (disk S.Shelf shelf.old)
            (disk S.Shelf shelf.new) self.old self.new)) }
        ensures end { S.tells
            → IfOk result (λ next. IfNone next (NothingIsLeft (disk S.Shelf shelf.old)
            self.old.programme)) }
        ensures reads { ReadsAgain S.tells (disk S.Shelf shelf.old) self.old.programme
            (disk S.Shelf shelf.new) result }
    {
        match self.programme.next(shelf, buffer)? {
            Some(Next::Record(came)) => {
                let second = came.moment / SECOND;
                put(&mut self.gathered, came)?;
                Ok(Some(second))
            }
            Some(Next::Command { moment, .. }) => Ok(Some(moment / SECOND)),
            None => Ok(None),
        }
    }

    /// Takes what comes first, where it is of this second, and answers whether it was.
    fn take_within<S: Shelf>(
        &mut self,
        alloc: Global,
        shelf: &mut S,
        second: u64,
    ) -> Result<bool, CaptureFault>
        requires feed { CanFeed (disk S.Shelf shelf.old) self.old }
        ensures feed { OnOk result (CanFeed (disk S.Shelf shelf.new) self.new) }
        ensures taken { IfOk result (λ came. came ≡ true
            → IsTaken S.tells second (disk S.Shelf shelf.old) (disk S.Shelf shelf.new) self.old
            self.new) }
        ensures same { IfOk result (λ came. came ≡ false → (self.new.programme ≡ self.old.programme)
            × (self.new.gathered.items ≡ self.old.gathered.items)) }
        ensures end { S.tells → IfOk result (λ came. came ≡ false
            → NoMoreIn second (disk S.Shelf shelf.new) self.new.programme) }
        ensures reads { ReadsAgain S.tells (disk S.Shelf shelf.old) self.old.programme
            (disk S.Shelf shelf.new) result }
    {
        let buffer = spare(alloc, &mut self.played);
        match self.programme.next_within(shelf, buffer, second)? {
            Some(Next::Record(came)) => {
                put(&mut self.gathered, came)?;
                Ok(true)
            }
            Some(Next::Command { .. }) => Ok(true),
            None => Ok(false),
        }
    }

    /// Takes all that comes in this second.
    #[cold]
    #[inline(never)]
    fn take_second<S: Shelf>(
        &mut self,
        alloc: Global,
        shelf: &mut S,
        second: u64,
    ) -> Result<(), CaptureFault>
        requires feed { CanFeed (disk S.Shelf shelf.old) self.old }
        ensures feed { OnOk result (CanFeed (disk S.Shelf shelf.new) self.new) }
        ensures taken { OnOk result (HasTakenSecond S.tells second (disk S.Shelf shelf.old)
            (disk S.Shelf shelf.new) self.old self.new) }
        ensures end { S.tells
            → OnOk result (NoMoreIn second (disk S.Shelf shelf.new) self.new.programme) }
        ensures reads { ReadsAgain S.tells (disk S.Shelf shelf.old) self.old.programme
            (disk S.Shelf shelf.new) result }
    {
        'second: while self.take_within(alloc, shelf, second)? {}
        Ok(())
    }

    /// Takes what comes first and all that is played with it, in the place of what was gathered
    /// before: nothing more in an eager run, and in a seeded one all of the same second, which it
    /// answers. None exactly where nothing is left.
    pub(crate) fn gather<S: Shelf>(
        &mut self,
        alloc: Global,
        shelf: &mut S,
        schedule: Schedule,
    ) -> Result<Option<u64>, CaptureFault>
        requires feed { CanFeed (disk S.Shelf shelf.old) self.old }
        ensures feed { OnOk result (CanFeed (disk S.Shelf shelf.new) self.new) }
        ensures gathered { IfOk result (λ next.
            IfSome next (λ second. IsGathered S.tells (mode_of schedule) (disk S.Shelf shelf.old)
            (disk S.Shelf shelf.new) second self.old.programme self.new)) }
        ensures end { S.tells
            → IfOk result (λ next. IfNone next (NothingIsLeft (disk S.Shelf shelf.old)
            self.old.programme)) }
        ensures reads { ReadsAgain S.tells (disk S.Shelf shelf.old) self.old.programme
            (disk S.Shelf shelf.new) result }
    {
        let buffer = begin(alloc, schedule, &mut self.gathered, &mut self.played);
        let Some(second) = self.take_first(shelf, buffer)? else {
            return Ok(None);
        };
        match schedule {
            Schedule::Eager => Ok(Some(second)),
            Schedule::Seeded { .. } => {
                self.take_second(alloc, shelf, second)?;
                Ok(Some(second))
            }
        }
    }
}
