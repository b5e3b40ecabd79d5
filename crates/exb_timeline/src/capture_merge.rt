//! The captures of some ports that were checked, as they are read again and played.
ghost use Rattle.std.specs.Prelude.{◌≡◌, ◌+◌, ◌^◌, ◌<◌, [], ℕ};
ghost use Rattle.exb_shelf.specs.Shelf.{Id};
ghost use Rattle.exb_timeline.specs.CaptureMerges.{fault_at, AreOpened, HasPort, IsEarliest, standings};
ghost use Rattle.exb_timeline.specs.CallContracts.{AddsCapture, TakesRecord};

use crate::tournament::Tournament;
use exb_capture::{Replay, ReplayFault, Scanned};
use exb_model::arrival::Arrival;
use exb_model::port::PortId;
use exb_shelf::Shelf;
use std::alloc::Global;

/// Why the captures can't be read on.
#[derive(Clone, Copy)]
pub enum CaptureFault {
    /// Memory ran out.
    Memory,
    /// The shelf failed.
    Read,
    /// The capture of this port is another one than the one that was checked, as this byte shows.
    Changed { port: PortId, at: u64 },
}

/// Why the captures can't be read on, where that of a port can't.
#[cold]
#[inline(never)]
fn fault_at(port: PortId, fault: ReplayFault) -> CaptureFault
    ensures { result ≡ fault_at port fault }
{
    match fault {
        ReplayFault::Memory => CaptureFault::Memory,
        ReplayFault::Read => CaptureFault::Read,
        ReplayFault::Changed { at } => CaptureFault::Changed { port, at },
    }
}

/// A capture that is read again, looked at as far as its next record.
#[derive(Drop)]
pub(crate) struct CaptureSource {
    port: PortId,
    /// The number of the next record.
    index: u64,
    /// The moment of the next record, if there is one.
    next: Option<u64>,
    replay: Replay,
}

/// The captures of some ports as they are read again and played, each with one buffer.
pub struct CaptureMerge {
    sources: Vec<CaptureSource>,
    /// The turn of each capture that isn't at its end.
    turns: Tournament,
}

impl Drop for CaptureMerge {
    fn drop(self) {
        let CaptureMerge {
            sources: _,
            turns: _,
        } = self;
    }
}

impl CaptureMerge {
    /// No capture yet.
    pub fn new(alloc: Global) -> CaptureMerge
        ensures opened { (ids : ℕ → Id) → AreOpened ids result }
        ensures none { result.sources.items ≡ [] }
    {
        CaptureMerge {
            sources: Vec::new(alloc),
            turns: Tournament::new(alloc),
        }
    }

    /// Opens the capture of a port again, of which this was told, puts it behind those so far, and
    /// looks as far as its first record.
    ///
    /// Where the files are told and the file is the one that was checked, it is never Changed.
    pub fn add<S: Shelf>(
        &mut self,
        alloc: Global,
        shelf: &mut S,
        port: PortId,
        name: &str,
        told: Scanned,
    ) -> Result<(), CaptureFault>
        requires opened { AreOpened (S.ids shelf.old) self.old }
        requires port { HasPort port (standings self.old) → ⊥ }
        requires room { told.bytes + 2 < 2 ^ 63 }
        ensures { AddsCapture S.tells (S.file shelf.old) (S.file shelf.new) (S.ids shelf.old)
            (S.ids shelf.new) (S.faults shelf.old) (S.faults shelf.new) port name.now told self.old
            self.new result }
    {
        let mut replay = match Replay::open(alloc, shelf, name, told) {
            Ok(replay) => replay,
            Err(fault) => return Err(fault_at(port, fault)),
        };
        let next = match replay.ahead(shelf) {
            Ok(next) => next,
            Err(fault) => return Err(fault_at(port, fault)),
        };
        let source = CaptureSource {
            port,
            index: 1,
            next,
            replay,
        };
        if self.sources.push(source).is_err() {
            return Err(CaptureFault::Memory);
        }
        if self.turns.add(next).is_err() {
            return Err(CaptureFault::Memory);
        }
        Ok(())
    }

    /// The moment of what comes next, if anything does. Nothing is read for it.
    #[inline(always)]
    pub fn moment(&self) -> Option<u64>
        requires opened { (ids : ℕ → Id) × AreOpened ids self.now }
        ensures { IsEarliest result self.now }
    {
        match self.turns.first() {
            Some((moment, _)) => Some(moment),
            None => None,
        }
    }

    /// Takes what comes next, and looks as far as the next record of its capture; None exactly
    /// where nothing is left. The record's bytes come in `buffer`, which is written anew.
    ///
    /// Where the files are told and are those that were checked, what comes is the first of what is
    /// still to come of their records, and it is never Changed.
    #[inline(always)]
    pub fn next<S: Shelf>(
        &mut self,
        shelf: &mut S,
        buffer: Vec<u8>,
    ) -> Result<Option<Arrival>, CaptureFault>
        requires opened { AreOpened (S.ids shelf.old) self.old }
        ensures { TakesRecord S.tells (S.file shelf.old) (S.file shelf.new) (S.ids shelf.old)
            (S.ids shelf.new) (S.faults shelf.old) (S.faults shelf.new) self.old self.new result }
    {
        let Some((moment, place)) = self.turns.first() else {
            return Ok(None);
        };
        let source = &mut self.sources[place];
        let bytes = match source.replay.take(moment, buffer) {
            Ok(bytes) => bytes,
            Err(_) => return Err(CaptureFault::Memory),
        };
        let came = Arrival {
            port: source.port,
            index: source.index,
            moment,
            bytes,
        };
        source.index += 1;
        let next = match source.replay.ahead(shelf) {
            Ok(next) => next,
            Err(fault) => return Err(fault_at(source.port, fault)),
        };
        source.next = next;
        self.turns.put(place, next);
        Ok(Some(came))
    }
}
