//! Files whose calls are disturbed.
ghost use Rattle.std.specs.Prelude.{◌≡◌, ℕ, List, None, OnOk, OnErr};
ghost use Rattle.std.specs.Option.{option_copied};
ghost use Rattle.exb_shelf.specs.Files.{SameFiles, Puts};
ghost use Rattle.exb_shelf.specs.Shelf.{no_id};
ghost use Rattle.exb_test_shelf.specs.DisturbedFiles.{files_of, ids_of, faults_of};

use crate::disturbance::{Call, CallFate, CallKind, Disturbance, note, tell};
use exb_model::memory::NoMemory;
use exb_shelf::{OpenFault, ScratchShelf, Shelf, ShelfFault};
use std::alloc::Global;

/// Files in memory, whose calls are disturbed.
#[derive(Drop)]
pub struct FaultyShelf {
    kept: ScratchShelf,
    disturbance: Disturbance,
    calls: Vec<Call>,
    reads: u64,
    writes: u64,
}

impl FaultyShelf {
    /// A shelf with no file.
    pub fn new(alloc: Global, disturbance: Disturbance) -> FaultyShelf
        ensures empty { (n : List ℕ) → files_of result n ≡ None }
        ensures ids { (j : ℕ) → ids_of result j ≡ no_id }
    {
        FaultyShelf {
            kept: ScratchShelf::new(alloc),
            disturbance,
            calls: Vec::new(alloc),
            reads: 0,
            writes: 0,
        }
    }

    /// Puts a file there, in the place of one of the same name. It counts as no call.
    pub fn put(&mut self, name: &str, bytes: &[u8]) -> Result<(), NoMemory>
        ensures ok { OnOk result (Puts (files_of self.old) (files_of self.new) name.now bytes.now) }
        ensures err { OnErr result (SameFiles (files_of self.old) (files_of self.new)) }
        ensures ids { (j : ℕ) → ids_of self.new j ≡ ids_of self.old j }
    {
        self.kept.put(name, bytes)
    }

    /// What the file of this name holds, and None exactly where it is not there.
    pub fn file(&self, name: &str) -> Option<&[u8]>
        ensures { option_copied result ≡ files_of self.now name.now }
    {
        self.kept.file(name)
    }

    /// The calls that were made.
    pub fn calls(&self) -> &[Call] {
        &self.calls
    }
}

impl Shelf for FaultyShelf {
    ghost tells = { Unit {0} };

    ghost file = { files_of };

    ghost ids = { ids_of };

    ghost faults = { faults_of };

    fn open(&mut self, name: &str) -> Result<u32, OpenFault> {
        match note(&mut self.calls, self.disturbance, CallKind::Open) {
            Ok(CallFate::Fails) => {
                self.reads = self.reads.saturating_add(1);
                Err(OpenFault::Failed)
            }
            Ok(CallFate::Moves { .. }) => self.kept.open(name),
            _ => Err(OpenFault::Memory),
        }
    }

    fn read(&mut self, id: u32, into: &mut [u8]) -> Result<usize, ShelfFault> {
        match note(&mut self.calls, self.disturbance, CallKind::Read) {
            Ok(CallFate::Fails) => {
                self.reads = self.reads.saturating_add(1);
                Err(ShelfFault::Failed)
            }
            Ok(CallFate::Moves { most }) => {
                let length = into.len().min(most.max(1));
                let moved = self.kept.read(id, &mut into[..length])?;
                tell(&mut self.calls, moved);
                Ok(moved)
            }
            _ => Err(ShelfFault::Memory),
        }
    }

    fn create(&mut self, name: &str) -> Result<u32, ShelfFault> {
        match note(&mut self.calls, self.disturbance, CallKind::Create) {
            Ok(CallFate::Fails) => {
                self.writes = self.writes.saturating_add(1);
                Err(ShelfFault::Failed)
            }
            Ok(CallFate::Moves { .. }) => self.kept.create(name),
            _ => Err(ShelfFault::Memory),
        }
    }

    fn write(&mut self, id: u32, bytes: &[u8]) -> Result<usize, ShelfFault> {
        match note(&mut self.calls, self.disturbance, CallKind::Append) {
            Ok(CallFate::Fails) => {
                self.writes = self.writes.saturating_add(1);
                Err(ShelfFault::Failed)
            }
            Ok(CallFate::Moves { most }) => {
                let length = bytes.len().min(most.max(1));
                let moved = self.kept.write(id, &bytes[..length])?;
                tell(&mut self.calls, moved);
                Ok(moved)
            }
            _ => Err(ShelfFault::Memory),
        }
    }

    fn finish(&mut self) -> Result<(), ShelfFault> {
        match note(&mut self.calls, self.disturbance, CallKind::Finish) {
            Ok(CallFate::Fails) => {
                self.writes = self.writes.saturating_add(1);
                Err(ShelfFault::Failed)
            }
            Ok(CallFate::Moves { .. }) => self.kept.finish(),
            _ => Err(ShelfFault::Memory),
        }
    }
}
