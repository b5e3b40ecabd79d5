//! Files in memory. They fail for want of memory alone.
ghost use Rattle.std.specs.Prelude.{◌≡◌, ◌<◌, ◌≤◌, ◌+◌, ◌^◌, ◌++◌, ◌↔◌, [], ℕ, List, None, length, take, drop, IfOk, OnOk, OnErr};
ghost use Rattle.std.specs.Option.{option_copied};
ghost use Rattle.exb_shelf.specs.Files.{SameFiles, Puts, bytes_of};
ghost use Rattle.exb_shelf.specs.Shelf.{no_id};
ghost use Rattle.exb_shelf.specs.ScratchFiles.{file_in, scratch_files, scratch_ids, scratch_faults};

use crate::open_files::{OpenFile, advance, give};
use crate::{OpenFault, Shelf, ShelfFault};
use exb_model::bytes::are_bytes;
use exb_model::memory::NoMemory;
use std::alloc::Global;
use std::collections::BTreeMap;

/// Files in memory, which fail for want of memory alone: no call answers Failed.
#[derive(Drop)]
pub struct ScratchShelf {
    alloc: Global,
    files: BTreeMap<String, Vec<u8>>,
    entries: Vec<OpenFile>,
    missing: u64,
}

impl ScratchShelf {
    /// A shelf with no file.
    pub fn new(alloc: Global) -> ScratchShelf
        ensures empty { (n : List ℕ) → scratch_files result n ≡ None }
        ensures ids { (j : ℕ) → scratch_ids result j ≡ no_id }
    {
        ScratchShelf {
            alloc,
            files: BTreeMap::new(alloc),
            entries: Vec::new(alloc),
            missing: 0,
        }
    }

    /// Puts a file there, in the place of one of the same name. It counts as no call.
    pub fn put(&mut self, name: &str, bytes: &[u8]) -> Result<(), NoMemory>
        ensures ok { OnOk result (Puts (scratch_files self.old) (scratch_files self.new) name.now
            bytes.now) }
        ensures err { OnErr result (SameFiles (scratch_files self.old) (scratch_files self.new)) }
        ensures ids { (j : ℕ) → scratch_ids self.new j ≡ scratch_ids self.old j }
        ensures faults { scratch_faults self.new ≡ scratch_faults self.old }
    {
        let bytes = bytes.to_vec(self.alloc)?;
        put_file(self.alloc, &mut self.files, name, bytes)
    }

    /// What the file of this name holds, and None exactly where it is not there.
    pub fn file(&self, name: &str) -> Option<&[u8]>
        ensures { option_copied result ≡ scratch_files self.now name.now }
    {
        match self.files.get(name) {
            Some(bytes) => Some(bytes.as_slice()),
            None => None,
        }
    }
}

#[tactic(auto, using(std::proofs::lemmas::Map::Text::text_keys))]
fn put_file(
    alloc: Global,
    files: &mut BTreeMap<String, Vec<u8>>,
    name: &str,
    bytes: Vec<u8>,
) -> Result<(), NoMemory>
    ensures ok { OnOk result (Puts (file_in files.old) (file_in files.new) name.now bytes.items) }
    ensures err { OnErr result (SameFiles (file_in files.old) (file_in files.new)) }
{
    let name = String::from_str(alloc, name)?;
    files.insert(name, bytes)?;
    Ok(())
}

#[tactic(auto, using(std::proofs::lemmas::Map::Text::text_keys))]
fn append(
    alloc: Global,
    files: &mut BTreeMap<String, Vec<u8>>,
    name: &str,
    bytes: &[u8],
) -> Result<(), NoMemory>
    ensures ok { OnOk result (Puts (file_in files.old) (file_in files.new) name.now
        (bytes_of (file_in files.old name.now) ++ bytes.now)) }
    ensures err { OnErr result (SameFiles (file_in files.old) (file_in files.new)) }
{
    match files.get_mut(name) {
        Some(file) => {
            file.extend_from_slice(bytes)?;
            Ok(())
        }
        None => put_file(alloc, files, name, bytes.to_vec(alloc)?),
    }
}

// Copies what stands at a place as far as there is room.
fn copy_part(bytes: &[u8], place: u64, into: &mut [u8]) -> usize
    ensures bound { result ≤ length into.old }
    ensures fits { place + result < 2 ^ 64 }
    ensures bytes { take result into.new ≡ take result (drop place bytes.now) }
    ensures end { 0 < length into.old → (result ≡ 0) ↔ (drop place bytes.now ≡ []) }
{
    if place >= bytes.len() as u64 {
        return 0;
    }
    let rest = &bytes[place as usize..];
    let n = rest.len().min(into.len());
    into[..n].copy_from_slice(&rest[..n]);
    n
}

impl Shelf for ScratchShelf {
    ghost tells = { Unit {0} };

    ghost file = { scratch_files };

    ghost ids = { scratch_ids };

    ghost faults = { scratch_faults };

    #[tactic(auto, using(crate::proofs::OpenFileLemmas::entries))]
    fn open(&mut self, name: &str) -> Result<u32, OpenFault> {
        let Some(bytes) = self.files.get(name) else {
            self.missing = self.missing.saturating_add(1);
            return Err(OpenFault::Missing);
        };
        are_bytes(bytes.as_slice());
        match give(self.alloc, &mut self.entries, true, name) {
            Ok(id) => Ok(id),
            Err(_) => Err(OpenFault::Memory),
        }
    }

    #[tactic(auto, using(crate::proofs::OpenFileLemmas::entries))]
    fn read(&mut self, id: u32, into: &mut [u8]) -> Result<usize, ShelfFault> {
        let entry = &self.entries[id as usize];
        let Some(bytes) = self.files.get(entry.name.as_str()) else {
            return Ok(0);
        };
        let n = copy_part(bytes.as_slice(), entry.place, into);
        advance(&mut self.entries, id, n);
        Ok(n)
    }

    #[tactic(auto, using(crate::proofs::OpenFileLemmas::entries))]
    fn create(&mut self, name: &str) -> Result<u32, ShelfFault> {
        let given = self.entries.len();
        let Ok(id) = give(self.alloc, &mut self.entries, false, name) else {
            return Err(ShelfFault::Memory);
        };
        match put_file(self.alloc, &mut self.files, name, Vec::new(self.alloc)) {
            Ok(()) => Ok(id),
            Err(_) => {
                self.entries.truncate(given);
                Err(ShelfFault::Memory)
            }
        }
    }

    #[tactic(auto, using(crate::proofs::OpenFileLemmas::entries))]
    fn write(&mut self, id: u32, bytes: &[u8]) -> Result<usize, ShelfFault> {
        let entry = &self.entries[id as usize];
        match append(self.alloc, &mut self.files, entry.name.as_str(), bytes) {
            Ok(()) => Ok(bytes.len()),
            Err(_) => Err(ShelfFault::Memory),
        }
    }

    fn finish(&mut self) -> Result<(), ShelfFault> {
        Ok(())
    }
}
