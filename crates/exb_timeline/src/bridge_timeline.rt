//! Commands, and the records of captures that are read again, in the order in which they are
//! played.
ghost use Rattle.std.specs.Prelude.{◌≡◌, ◌+◌, ◌-◌, ◌*◌, ◌^◌, ◌<◌, ◌≤◌, ℕ, [], length, take, drop, AllPairs, IfSome};
ghost use Rattle.exb_model.specs.Input.{moment_of};
ghost use Rattle.exb_shelf.specs.Shelf.{Id};
ghost use Rattle.exb_timeline.specs.MergeOrder.{comes_first, commands_left, first_moment, is_of, turn_by};
ghost use Rattle.exb_timeline.specs.NetMergeOrder.{IsTurn};
ghost use Rattle.exb_timeline.specs.Timelines.{IsProgramme, IsSoonest, played_with, what};
ghost use Rattle.exb_timeline.specs.CaptureMerges.{AreOpened, AreToldSince, NoneIsBefore};
ghost use Rattle.exb_timeline.specs.CallContracts.{TakesCommand, TakesNext, TakesWithin};

use crate::capture_merge::{CaptureFault, CaptureMerge};
use exb_model::arrival::Arrival;
use exb_model::moment::SECOND;
use exb_model::setup::Timed;
use exb_shelf::Shelf;

/// Whether a command comes before a record, by their moments.
#[inline(always)]
fn comes_first(command: Option<u64>, captured: Option<u64>) -> bool
    ensures { result ≡ comes_first command captured }
{
    match (command, captured) {
        (None, _) => false,
        (Some(_), None) => true,
        (Some(command), Some(captured)) => command <= captured,
    }
}

/// Whether a moment is of this second.
#[inline(always)]
fn is_of(moment: Option<u64>, second: u64) -> bool
    ensures { result ≡ is_of moment second }
{
    match moment {
        None => false,
        Some(moment) => moment / SECOND == second,
    }
}

/// The moment that is so many seconds after the start.
#[inline(always)]
fn moment_after(start: u64, at: u32) -> u64
    requires { start < 2 ^ 32 }
    ensures value { result ≡ (start + at) * 1000000000 }
    ensures before { result < (start + 2 ^ 32) * 1000000000 }
{
    (start + at as u64) * SECOND
}

/// The turn among several bridges of what has these moments, in halves of a nanosecond: that of a
/// record is half a one behind its moment, so that the commands of all bridges come before the
/// records of their moment.
#[inline(always)]
fn turn_by(command: Option<u64>, captured: Option<u64>) -> Option<u64>
    requires command { IfSome command (λ m. m < 2 ^ 63) }
    requires captured { IfSome captured (λ m. m < 2 ^ 62) }
    ensures value { result ≡ turn_by command captured }
    ensures small { IfSome result (λ t. t < 18446744073709551615) }
{
    match (command, captured) {
        (None, None) => None,
        (Some(command), None) => Some(2 * command),
        (None, Some(captured)) => Some(2 * captured + 1),
        (Some(command), Some(captured)) => Some((2 * command).min(2 * captured + 1)),
    }
}

/// What comes next.
#[derive(Drop)]
pub enum Next {
    /// A command of the topology, with its number, from 1, and its moment in nanoseconds.
    Command { number: u32, moment: u64 },
    /// A record of a capture: below 2^32 seconds, and at most 262,144 bytes.
    Record(Arrival),
}

impl Next {
    /// Its moment in nanoseconds.
    pub fn moment(&self) -> u64
        ensures { result ≡ moment_of (what self.now) }
    {
        match self {
            Next::Command { moment, .. } => *moment,
            Next::Record(came) => came.moment,
        }
    }
}

/// What is still to be played: the commands of a topology, and captures that are read again.
pub struct Timeline<'a> {
    /// The least whole second of any first record that was told, or 0.
    start: u64,
    commands: &'a [Timed],
    /// How many of the commands were taken.
    taken: usize,
    captures: CaptureMerge,
}

impl Drop for Timeline<'_> {
    fn drop(self) {
        let Timeline {
            start: _,
            commands: _,
            taken: _,
            captures: _,
        } = self;
    }
}

impl<'a> Timeline<'a> {
    /// The commands of a topology, in the order of its file, from a start, and captures at their
    /// first records, none of which was told before it.
    pub fn new(captures: CaptureMerge, commands: &'a [Timed], start: u64) -> Timeline<'a>
        requires start { start < 2 ^ 32 }
        requires since { AreToldSince start captures }
        requires few { length commands.now ≤ 65536 }
        requires rising { AllPairs (λ c d. c.at ≤ d.at) commands.now }
        ensures start { result.start ≡ start }
        ensures commands { result.commands.now ≡ commands.now }
        ensures taken { result.taken ≡ 0 }
        ensures captures { result.captures ≡ captures }
        ensures opened { (ids : ℕ → Id) → AreOpened ids captures → IsProgramme ids result }
    {
        Timeline {
            start,
            commands,
            taken: 0,
            captures,
        }
    }

    /// The moment of the next command, if there is one.
    #[inline(always)]
    fn command_moment(&self) -> Option<u64>
        requires start { self.now.start < 2 ^ 32 }
        ensures value { result ≡ first_moment (commands_left (played_with [] self.now)) }
        ensures before { IfSome result (λ m. m < (self.now.start + 2 ^ 32) * 1000000000) }
    {
        match self.commands.get(self.taken) {
            Some(command) => Some(moment_after(self.start, command.at)),
            None => None,
        }
    }

    /// The moment of what comes next, if anything does. Nothing is read for it.
    fn next_moment(&self) -> Option<u64>
        requires programme { (ids : ℕ → Id) × IsProgramme ids self.now }
        ensures { IsSoonest result self.now }
    {
        let command = self.command_moment();
        let captured = self.captures.moment();
        if comes_first(command, captured) {
            command
        } else {
            captured
        }
    }

    /// When it has its turn among several bridges, if anything is left. Nothing is read for it.
    #[inline(always)]
    pub(crate) fn turn(&self) -> Option<u64>
        requires programme { (ids : ℕ → Id) × IsProgramme ids self.now }
        ensures turn { IsTurn result self.now }
        ensures small { IfSome result (λ t. t < 18446744073709551615) }
    {
        turn_by(self.command_moment(), self.captures.moment())
    }

    /// Takes the next command, which comes first.
    #[cold]
    #[inline(never)]
    fn take_command(&mut self) -> Next
        requires programme { (ids : ℕ → Id) × IsProgramme ids self.old }
        requires left { self.old.taken < length self.old.commands.now }
        requires first { IfSome (first_moment (commands_left (played_with [] self.old)))
            (λ m. NoneIsBefore m self.old.captures) }
        ensures { TakesCommand self.old result self.new }
    {
        let commands = self.commands;
        let command = &commands[self.taken];
        self.taken += 1;
        Next::Command {
            number: self.taken as u32,
            moment: moment_after(self.start, command.at),
        }
    }

    /// How many of the commands were taken.
    pub fn taken(&self) -> usize
        ensures { result ≡ self.now.taken }
    {
        self.taken
    }

    /// The commands that were taken since so many of them were.
    pub fn taken_since(&self, from: usize) -> &'a [Timed]
        requires from { from ≤ self.now.taken }
        requires within { self.now.taken ≤ length self.now.commands.now }
        ensures { result.now ≡ take (self.now.taken - from) (drop from self.now.commands.now) }
    {
        &self.commands[from..self.taken]
    }

    /// Takes what comes next; None exactly where nothing is left. A record's bytes come in
    /// `buffer`, which is written anew.
    #[inline(always)]
    pub fn next<S: Shelf>(
        &mut self,
        shelf: &mut S,
        buffer: Vec<u8>,
    ) -> Result<Option<Next>, CaptureFault>
        requires programme { IsProgramme (S.ids shelf.old) self.old }
        ensures { TakesNext S.tells (S.file shelf.old) (S.file shelf.new) (S.ids shelf.old)
            (S.ids shelf.new) (S.faults shelf.old) (S.faults shelf.new) self.old self.new result }
    {
        if comes_first(self.command_moment(), self.captures.moment()) {
            return Ok(Some(self.take_command()));
        }
        match self.captures.next(shelf, buffer)? {
            Some(came) => Ok(Some(Next::Record(came))),
            None => Ok(None),
        }
    }

    /// Takes what comes next, where it is of this second; else it changes nothing.
    pub fn next_within<S: Shelf>(
        &mut self,
        shelf: &mut S,
        buffer: Vec<u8>,
        second: u64,
    ) -> Result<Option<Next>, CaptureFault>
        requires programme { IsProgramme (S.ids shelf.old) self.old }
        ensures { TakesWithin second S.tells (S.file shelf.old) (S.file shelf.new) (S.ids shelf.old)
            (S.ids shelf.new) (S.faults shelf.old) (S.faults shelf.new) self.old self.new result }
    {
        if is_of(self.next_moment(), second) {
            self.next(shelf, buffer)
        } else {
            Ok(None)
        }
    }
}
