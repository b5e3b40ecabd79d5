//! The ids that a shelf has given.
ghost use Rattle.std.specs.Prelude.{◌≡◌, ◌≢◌, ◌<◌, ◌+◌, ◌^◌, ℕ, true, false, length, take, IfOk, OnErr};
ghost use Rattle.exb_shelf.specs.Shelf.{moved, no_id};
ghost use Rattle.exb_shelf.specs.OpenFiles.{id_at};

use std::alloc::{AllocError, Global};

/// An id that was given. Ids are given in order, from 0, and none is taken back.
#[derive(Drop)]
pub(crate) struct OpenFile {
    pub(crate) reads: bool,
    pub(crate) name: String,
    pub(crate) place: u64,
}

// Gives the next id. An error gives none; it comes for want of memory, or of a number for the id.
#[tactic(auto, using(crate::proofs::OpenFileLemmas::entries))]
pub(crate) fn give(
    alloc: Global,
    entries: &mut Vec<OpenFile>,
    reads: bool,
    name: &str,
) -> Result<u32, AllocError>
    ensures id { IfOk result (λ id. id_at entries.new.items id
        ≡ record { given = true; reads = reads; name = name.now; place = 0 }) }
    ensures fresh { IfOk result (λ id. (id_at entries.old.items id).given ≡ false) }
    ensures rises { IfOk result (λ id. (j : ℕ) → (id_at entries.old.items j).given ≡ true
        → j < id) }
    ensures others { IfOk result (λ id. (j : ℕ) → j ≢ id → id_at entries.new.items j
        ≡ id_at entries.old.items j) }
    ensures kept { (j : ℕ) → (id_at entries.old.items j).given ≡ true → id_at entries.new.items j
        ≡ id_at entries.old.items j }
    ensures front { take (length entries.old.items) entries.new.items ≡ entries.old.items }
    ensures err { OnErr result (entries.new.items ≡ entries.old.items) }
{
    let Ok(id) = u32::try_from(entries.len()) else {
        return Err(AllocError);
    };
    let name = String::from_str(alloc, name)?;
    entries.push(OpenFile {
        reads,
        name,
        place: 0,
    })?;
    Ok(id)
}

// Moves a reading place on.
#[tactic(auto, using(crate::proofs::OpenFileLemmas::entries))]
pub(crate) fn advance(entries: &mut [OpenFile], id: u32, n: usize)
    requires given { (id_at entries.old id).given ≡ true }
    requires fits { (id_at entries.old id).place + n < 2 ^ 64 }
    ensures id { id_at entries.new id ≡ moved (id_at entries.old id) n }
    ensures others { (j : ℕ) → j ≢ id → id_at entries.new j ≡ id_at entries.old j }
{
    let entry = &mut entries[id as usize];
    entry.place += n as u64;
}
