//! The programmes of all bridges of a net, in the order in which the net is given what comes.
ghost use Rattle.std.specs.Prelude.{◌≡◌, ◌*◌, ◌<◌, ◌≤◌, ◌∷◌, ◌++◌, [], ℕ, List, true, false, None, length, IfOk, OnOk, IfSome, IfNone, IsErrOf};
ghost use Rattle.std.specs.List.{AllByRecursion};
ghost use Rattle.exb_model.specs.Input.{moment_of};
ghost use Rattle.exb_shelf.specs.Files.{SameFiles};
ghost use Rattle.exb_shelf.specs.Shelf.{Id, Rose, NoFewer};
ghost use Rattle.exb_timeline.specs.FaultCounts.{CountsAgain, CountsNext};
ghost use Rattle.exb_timeline.specs.NetMergeOrder.{AreAllReplays, ComesTo, IsAgenda, IsFirstOf, IsOfBridge, IsSeated, all_ids, programmes_in};
ghost use Rattle.exb_timeline.specs.Timelines.{IsComing, IsProgramme, IsTakenOf, what};
ghost use Rattle.exb_timeline.specs.CaptureMerges.{AreReplays, HasPort, IsWithin, ReadsOn, ids_in, standings};
ghost use Rattle.exb_timeline.specs.Streams.{Stream};

use crate::bridge_timeline::{Next, Timeline};
use crate::capture_merge::CaptureFault;
use crate::tournament::Tournament;
use exb_model::memory::NoMemory;
use exb_shelf::Shelf;
use std::alloc::Global;

/// What comes next, and the bridge to which it comes.
#[derive(Drop)]
pub struct NetNext {
    /// The bridge, counted from 0 in the order in which programmes were added.
    pub bridge: u8,
    pub next: Next,
}

/// Why the captures of a bridge can't be read on.
#[derive(Clone, Copy)]
pub struct BridgeFault {
    pub bridge: u8,
    pub fault: CaptureFault,
}

/// The programme of a bridge.
#[derive(Drop)]
pub(crate) struct TimelineEntry<'a> {
    programme: Timeline<'a>,
    /// Its turn, where something is left of it, in halves of a nanosecond.
    turn: Option<u64>,
}

/// The programmes of all bridges of a net.
pub struct NetTimeline<'a> {
    seats: Vec<TimelineEntry<'a>>,
    /// The turn of each bridge of which something is left.
    turns: Tournament,
}

impl Drop for NetTimeline<'_> {
    fn drop(self) {
        let NetTimeline { seats: _, turns: _ } = self;
    }
}

impl TimelineEntry<'_> {
    /// Takes what comes next, and has its next turn, if there is one.
    #[inline(always)]
    fn take<S: Shelf>(
        &mut self,
        shelf: &mut S,
        buffer: Vec<u8>,
    ) -> Result<Option<Next>, CaptureFault>
        requires seated { IsSeated (S.ids shelf.old) self.old }
        ensures seated { OnOk result (IsSeated (S.ids shelf.new) self.new) }
        ensures coming { IfOk result (λ next.
            IfSome next (λ d. IsComing self.old.programme d self.new.programme)) }
        ensures turn { IfOk result (λ next.
            IfSome next (λ d. IfSome self.old.turn (λ t. 2 * moment_of (what d) ≤ t))) }
        ensures end { IfOk result (λ next. IfNone next (self.old.turn ≡ None)) }
        ensures order { S.tells
            → IfOk result (λ next. IfSome next (λ d. IsTakenOf (S.file shelf.old) (S.file shelf.new)
            (S.ids shelf.old) (S.ids shelf.new) self.old.programme d self.new.programme)) }
        ensures never { S.tells → (p at : ℕ) → IsErrOf result (CaptureFault.Changed p at)
            → (streams : List Stream)
            → AreReplays (S.file shelf.old) (S.ids shelf.old)
            self.old.programme.captures.sources.items streams → ⊥ }

        ensures reads { ReadsOn (ids_in self.old.programme.captures) (S.ids shelf.old)
            (S.ids shelf.new) }
        ensures files { SameFiles (S.file shelf.old) (S.file shelf.new) }
        ensures port { (p at : ℕ) → IsErrOf result (CaptureFault.Changed p at)
            → HasPort p (standings self.old.programme.captures) }
        ensures place { (p at : ℕ) → IsErrOf result (CaptureFault.Changed p at)
            → IsWithin p at self.old.programme.captures.sources.items }
        ensures counts { CountsAgain result (S.faults shelf.old) (S.faults shelf.new) }
        ensures faults { NoFewer (S.faults shelf.old) (S.faults shelf.new) }
        ensures failed { IsErrOf result CaptureFault.Read
            → Rose (S.faults shelf.old).reads (S.faults shelf.new).reads }
    {
        let next = self.programme.next(shelf, buffer)?;
        self.turn = self.programme.turn();
        Ok(next)
    }
}

impl<'a> NetTimeline<'a> {
    /// No bridge yet.
    pub fn new(alloc: Global) -> NetTimeline<'a>
        ensures agenda { (ids : ℕ → Id) → IsAgenda ids result }
        ensures none { programmes_in result ≡ [] }
    {
        NetTimeline {
            seats: Vec::new(alloc),
            turns: Tournament::new(alloc),
        }
    }

    /// Puts the programme of the next bridge behind those so far. Its captures were opened after
    /// theirs.
    pub fn add(&mut self, programme: Timeline<'a>) -> Result<(), NoMemory>
        requires programme { (ids : ℕ → Id) × IsProgramme ids programme }
        requires few { length (programmes_in self.old) < 256 }
        requires room { (ids : ℕ → Id) × IsAgenda ids self.old }
        ensures agenda { OnOk result ((given ids : ℕ → Id)
            → AllByRecursion (λ k. (given k).given ≡ true) (all_ids (programmes_in self.old))
            → AllByRecursion (λ k. (given k).given ≡ false) (ids_in programme.entry.captures)
            → IsAgenda ids self.old → IsProgramme ids programme.entry → IsAgenda ids self.new) }
        ensures programmes { OnOk result (programmes_in self.new
            ≡ programmes_in self.old ++ programme.entry ∷ []) }
    {
        let turn = programme.turn();
        self.seats.push(TimelineEntry { programme, turn })?;
        self.turns.add(turn)
    }

    /// Takes what comes next of all bridges; None exactly where nothing is left. A record's bytes
    /// come in `buffer`, which is written anew.
    ///
    /// Where the files are told and are those that were checked, what comes is the first of what is
    /// still to come of all bridges: by moment, and at the same moment the commands of all bridges
    /// first, and then in the order of bridges. A capture is then never Changed.
    #[inline(always)]
    pub fn next<S: Shelf>(
        &mut self,
        shelf: &mut S,
        buffer: Vec<u8>,
    ) -> Result<Option<NetNext>, BridgeFault>
        requires agenda { IsAgenda (S.ids shelf.old) self.old }
        ensures agenda { OnOk result (IsAgenda (S.ids shelf.new) self.new) }

        // Whatever the files hold.
        ensures coming { IfOk result (λ next.
            IfSome next (λ d. ComesTo (programmes_in self.old) d (programmes_in self.new))) }
        ensures same { IfOk result (λ next. IfNone next (self.new ≡ self.old)) }

        // Where the files are told.
        ensures order { S.tells → IfOk result (λ next. (streams : List (List Stream))
            → AreAllReplays (S.file shelf.old) (S.ids shelf.old) (programmes_in self.old) streams
            → IsFirstOf (programmes_in self.old) streams next (programmes_in self.new)
            (λ rest. AreAllReplays (S.file shelf.new) (S.ids shelf.new) (programmes_in self.new)
            rest)) }
        ensures never { S.tells → (b p at : ℕ)
            → IsErrOf result (record { bridge = b; fault = CaptureFault.Changed p at })
            → (streams : List (List Stream))
            → AreAllReplays (S.file shelf.old) (S.ids shelf.old) (programmes_in self.old) streams
            → ⊥ }

        ensures ids { OnOk result (all_ids (programmes_in self.new)
            ≡ all_ids (programmes_in self.old)) }
        ensures reads { ReadsOn (all_ids (programmes_in self.old)) (S.ids shelf.old)
            (S.ids shelf.new) }
        ensures files { SameFiles (S.file shelf.old) (S.file shelf.new) }
        ensures port { (b p at : ℕ)
            → IsErrOf result (record { bridge = b; fault = CaptureFault.Changed p at })
            → IsOfBridge (programmes_in self.old) b (λ m. HasPort p (standings m.captures)) }
        ensures place { (b p at : ℕ)
            → IsErrOf result (record { bridge = b; fault = CaptureFault.Changed p at })
            → IsOfBridge (programmes_in self.old) b (λ m. IsWithin p at m.captures.sources.items) }
        ensures counts { CountsNext result (S.faults shelf.old) (S.faults shelf.new) }
        ensures faults { NoFewer (S.faults shelf.old) (S.faults shelf.new) }
        ensures failed { (b : ℕ) → IsErrOf result (record { bridge = b; fault = CaptureFault.Read })
            → Rose (S.faults shelf.old).reads (S.faults shelf.new).reads }
    {
        let Some((_, place)) = self.turns.first() else {
            return Ok(None);
        };
        let bridge = place as u8;
        let seat = &mut self.seats[place];
        let next = match seat.take(shelf, buffer) {
            Ok(next) => next,
            Err(fault) => return Err(BridgeFault { bridge, fault }),
        };
        self.turns.put(place, seat.turn);
        match next {
            Some(next) => Ok(Some(NetNext { bridge, next })),
            None => Ok(None),
        }
    }
}
