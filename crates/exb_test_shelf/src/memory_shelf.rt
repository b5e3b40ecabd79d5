//! Files and a sink in memory, which tell what they hold and fail where they are told to.
ghost use Rattle.std.specs.Prelude.{◌≡◌, ◌≢◌, ◌<◌, ◌≤◌, ◌+◌, ◌^◌, ◌++◌, ◌↔◌, [], ℕ, List, None, true, false, length, take, drop, IfOk, OnOk, OnErr, IsErrOf, IsSome, IsTrue, Contains};
ghost use Rattle.std.specs.Option.{option_copied};
ghost use Rattle.exb_model.specs.Frames.{IsBytes};
ghost use Rattle.exb_shelf.specs.Files.{SameFiles, Puts, bytes_of};
ghost use Rattle.exb_shelf.specs.Shelf.{Faults, IsReading, IsWriting, reading, writing, moved, no_id, Rose, NoFewer};
ghost use Rattle.exb_shelf.specs.FaultCounts.{one_more, after_open, after_read, after_write, after_print};
ghost use Rattle.exb_test_shelf.specs.MemoryFiles.{files_of, ids_of, faults_of, calls_of, failing_of, text_of, sink_faults_of, sink_calls_of, sink_failing_of};

use exb_model::memory::NoMemory;
use exb_shelf::{OpenFault, ScratchShelf, Shelf, ShelfFault, Sink};
use std::alloc::Global;

// Counts a call, and says whether its number is listed. Numbers begin at 1; no list has a number
// past 2^64 - 1.
fn is_to_fail(calls: &mut u64, fail: &[u64]) -> bool
    ensures listed { IsTrue result ↔ Contains fail.now (calls.old + 1) }
    ensures counted { calls.new ≡ one_more calls.old }
{
    match calls.checked_add(1) {
        Some(number) => {
            *calls = number;
            fail.contains(&number)
        }
        None => false,
    }
}

/// Text in memory. It counts its calls, from 1, and fails exactly at those whose numbers it was
/// given.
#[derive(Drop)]
pub struct MemSink {
    fail: Vec<u64>,
    calls: u64,
    faults: u64,
    text: Vec<u8>,
}

impl MemSink {
    /// An empty text whose calls of these numbers, from 1, fail.
    pub fn new(alloc: Global, fail: &[u64]) -> Result<MemSink, NoMemory>
        ensures empty { IfOk result (λ sink. text_of sink ≡ []) }
        ensures calls { IfOk result (λ sink. sink_calls_of sink ≡ 0) }
        ensures fail { IfOk result (λ sink. sink_failing_of sink ≡ fail.now) }
    {
        let fail = fail.to_vec(alloc)?;
        Ok(MemSink {
            fail,
            calls: 0,
            faults: 0,
            text: Vec::new(alloc),
        })
    }

    /// What was written so far.
    pub fn text(&self) -> &[u8]
        ensures { result.now ≡ text_of self.now }
    {
        &self.text
    }
}

impl Sink for MemSink {
    ghost tells = { Unit {0} };

    ghost text = { text_of };

    ghost faults = { sink_faults_of };

    fn write(&mut self, bytes: &[u8]) -> Result<usize, ShelfFault>
        ensures bound { IfOk result (λ n. n ≤ length bytes.now) }
        ensures some { 0 < length bytes.now → IfOk result (λ n. 0 < n) }
        ensures appended { IfOk result (λ n. text_of self.new
            ≡ text_of self.old ++ take n bytes.now) }
        ensures err { OnErr result (text_of self.new ≡ text_of self.old) }
        ensures counts { sink_faults_of self.new ≡ after_print result (sink_faults_of self.old) }
        ensures faults { sink_faults_of self.old ≤ sink_faults_of self.new }
        ensures failed { IsErrOf result ShelfFault.Failed
            → Rose (sink_faults_of self.old) (sink_faults_of self.new) }

        ensures fails { IsErrOf result ShelfFault.Failed
            ↔ Contains (sink_failing_of self.old) (sink_calls_of self.old + 1) }
        ensures calls { sink_calls_of self.new ≡ one_more (sink_calls_of self.old) }
        ensures fail { sink_failing_of self.new ≡ sink_failing_of self.old }
    {
        if is_to_fail(&mut self.calls, &self.fail) {
            self.faults = self.faults.saturating_add(1);
            return Err(ShelfFault::Failed);
        }
        match self.text.extend_from_slice(bytes) {
            Ok(()) => Ok(bytes.len()),
            Err(_) => Err(ShelfFault::Memory),
        }
    }
}

/// Files in memory. It counts the calls of [`Shelf`], from 1, and fails exactly at those whose
/// numbers it was given.
#[derive(Drop)]
pub struct MemShelf {
    kept: ScratchShelf,
    fail: Vec<u64>,
    calls: u64,
    reads: u64,
    writes: u64,
}

impl MemShelf {
    /// A shelf with no file whose calls of these numbers, from 1, fail.
    pub fn new(alloc: Global, fail: &[u64]) -> Result<MemShelf, NoMemory>
        ensures empty { IfOk result (λ shelf. (n : List ℕ) → files_of shelf n ≡ None) }
        ensures ids { IfOk result (λ shelf. (j : ℕ) → ids_of shelf j ≡ no_id) }
        ensures calls { IfOk result (λ shelf. calls_of shelf ≡ 0) }
        ensures fail { IfOk result (λ shelf. failing_of shelf ≡ fail.now) }
    {
        let fail = fail.to_vec(alloc)?;
        Ok(MemShelf {
            kept: ScratchShelf::new(alloc),
            fail,
            calls: 0,
            reads: 0,
            writes: 0,
        })
    }

    /// Puts a file there, in the place of one of the same name. It counts as no call.
    pub fn put(&mut self, name: &str, bytes: &[u8]) -> Result<(), NoMemory>
        ensures ok { OnOk result (Puts (files_of self.old) (files_of self.new) name.now bytes.now) }
        ensures err { OnErr result (SameFiles (files_of self.old) (files_of self.new)) }
        ensures ids { (j : ℕ) → ids_of self.new j ≡ ids_of self.old j }
        ensures faults { faults_of self.new ≡ faults_of self.old }
        ensures calls { calls_of self.new ≡ calls_of self.old }
        ensures fail { failing_of self.new ≡ failing_of self.old }
    {
        self.kept.put(name, bytes)
    }

    /// What the file of this name holds, and None exactly where it is not there.
    pub fn file(&self, name: &str) -> Option<&[u8]>
        ensures { option_copied result ≡ files_of self.now name.now }
    {
        self.kept.file(name)
    }
}

impl Shelf for MemShelf {
    ghost tells = { Unit {0} };

    ghost file = { files_of };

    ghost ids = { ids_of };

    ghost faults = { faults_of };

    fn open(&mut self, name: &str) -> Result<u32, OpenFault>
        ensures id { IfOk result (λ id. ids_of self.new id ≡ reading name.now 0) }
        ensures fresh { IfOk result (λ id. (ids_of self.old id).given ≡ false) }
        ensures rises { IfOk result (λ id. (j : ℕ) → (ids_of self.old j).given ≡ true → j < id) }
        ensures others { IfOk result (λ id. (j : ℕ) → j ≢ id → ids_of self.new j
            ≡ ids_of self.old j) }
        ensures kept { (j : ℕ) → (ids_of self.old j).given ≡ true → ids_of self.new j
            ≡ ids_of self.old j }
        ensures none_given { OnErr result ((j : ℕ) → ids_of self.new j ≡ ids_of self.old j) }
        ensures files { SameFiles (files_of self.old) (files_of self.new) }
        ensures there { OnOk result (IsSome (files_of self.old name.now)) }
        ensures bytes { OnOk result (IsBytes (bytes_of (files_of self.old name.now))) }
        ensures not_there { IsErrOf result OpenFault.Missing → files_of self.old name.now ≡ None }
        ensures counts { faults_of self.new ≡ after_open result (faults_of self.old) }
        ensures faults { NoFewer (faults_of self.old) (faults_of self.new) }
        ensures missing { IsErrOf result OpenFault.Missing
            → Rose (faults_of self.old).missing (faults_of self.new).missing }
        ensures failed { IsErrOf result OpenFault.Failed
            → Rose (faults_of self.old).reads (faults_of self.new).reads }

        ensures fails { IsErrOf result OpenFault.Failed
            ↔ Contains (failing_of self.old) (calls_of self.old + 1) }
        ensures calls { calls_of self.new ≡ one_more (calls_of self.old) }
        ensures fail { failing_of self.new ≡ failing_of self.old }
    {
        if is_to_fail(&mut self.calls, &self.fail) {
            self.reads = self.reads.saturating_add(1);
            return Err(OpenFault::Failed);
        }
        self.kept.open(name)
    }

    fn read(&mut self, id: u32, into: &mut [u8]) -> Result<usize, ShelfFault>
        requires { IsReading (ids_of self.old id) }
        ensures bound { IfOk result (λ n. n ≤ length into.old) }
        ensures bytes { IfOk result (λ n. take n into.new
            ≡ take n (drop (ids_of self.old id).place
            (bytes_of (files_of self.old (ids_of self.old id).name)))) }
        ensures end { 0 < length into.old → IfOk result (λ n. (n ≡ 0)
            ↔ (drop (ids_of self.old id).place
            (bytes_of (files_of self.old (ids_of self.old id).name)) ≡ [])) }
        ensures id { IfOk result (λ n. ids_of self.new id ≡ moved (ids_of self.old id) n) }
        ensures id_err { OnErr result (ids_of self.new id ≡ ids_of self.old id) }
        ensures others { (j : ℕ) → j ≢ id → ids_of self.new j ≡ ids_of self.old j }
        ensures files { SameFiles (files_of self.old) (files_of self.new) }
        ensures counts { faults_of self.new ≡ after_read result (faults_of self.old) }
        ensures faults { NoFewer (faults_of self.old) (faults_of self.new) }
        ensures failed { IsErrOf result ShelfFault.Failed
            → Rose (faults_of self.old).reads (faults_of self.new).reads }

        ensures fails { IsErrOf result ShelfFault.Failed
            ↔ Contains (failing_of self.old) (calls_of self.old + 1) }
        ensures calls { calls_of self.new ≡ one_more (calls_of self.old) }
        ensures fail { failing_of self.new ≡ failing_of self.old }
    {
        if is_to_fail(&mut self.calls, &self.fail) {
            self.reads = self.reads.saturating_add(1);
            return Err(ShelfFault::Failed);
        }
        self.kept.read(id, into)
    }

    fn create(&mut self, name: &str) -> Result<u32, ShelfFault>
        ensures id { IfOk result (λ id. ids_of self.new id ≡ writing name.now) }
        ensures fresh { IfOk result (λ id. (ids_of self.old id).given ≡ false) }
        ensures rises { IfOk result (λ id. (j : ℕ) → (ids_of self.old j).given ≡ true → j < id) }
        ensures others { IfOk result (λ id. (j : ℕ) → j ≢ id → ids_of self.new j
            ≡ ids_of self.old j) }
        ensures kept { (j : ℕ) → (ids_of self.old j).given ≡ true → ids_of self.new j
            ≡ ids_of self.old j }
        ensures none_given { OnErr result ((j : ℕ) → ids_of self.new j ≡ ids_of self.old j) }
        ensures empty { OnOk result (Puts (files_of self.old) (files_of self.new) name.now []) }
        ensures err { OnErr result (SameFiles (files_of self.old) (files_of self.new)) }
        ensures counts { faults_of self.new ≡ after_write result (faults_of self.old) }
        ensures faults { NoFewer (faults_of self.old) (faults_of self.new) }
        ensures failed { IsErrOf result ShelfFault.Failed
            → Rose (faults_of self.old).writes (faults_of self.new).writes }

        ensures fails { IsErrOf result ShelfFault.Failed
            ↔ Contains (failing_of self.old) (calls_of self.old + 1) }
        ensures calls { calls_of self.new ≡ one_more (calls_of self.old) }
        ensures fail { failing_of self.new ≡ failing_of self.old }
    {
        if is_to_fail(&mut self.calls, &self.fail) {
            self.writes = self.writes.saturating_add(1);
            return Err(ShelfFault::Failed);
        }
        self.kept.create(name)
    }

    fn write(&mut self, id: u32, bytes: &[u8]) -> Result<usize, ShelfFault>
        requires { IsWriting (ids_of self.old id) }
        ensures bound { IfOk result (λ n. n ≤ length bytes.now) }
        ensures some { 0 < length bytes.now → IfOk result (λ n. 0 < n) }
        ensures appended { IfOk result (λ n. Puts (files_of self.old) (files_of self.new)
            (ids_of self.old id).name
            (bytes_of (files_of self.old (ids_of self.old id).name) ++ take n bytes.now)) }
        ensures err { OnErr result (SameFiles (files_of self.old) (files_of self.new)) }
        ensures kept { (j : ℕ) → ids_of self.new j ≡ ids_of self.old j }
        ensures counts { faults_of self.new ≡ after_write result (faults_of self.old) }
        ensures faults { NoFewer (faults_of self.old) (faults_of self.new) }
        ensures failed { IsErrOf result ShelfFault.Failed
            → Rose (faults_of self.old).writes (faults_of self.new).writes }

        ensures fails { IsErrOf result ShelfFault.Failed
            ↔ Contains (failing_of self.old) (calls_of self.old + 1) }
        ensures calls { calls_of self.new ≡ one_more (calls_of self.old) }
        ensures fail { failing_of self.new ≡ failing_of self.old }
    {
        if is_to_fail(&mut self.calls, &self.fail) {
            self.writes = self.writes.saturating_add(1);
            return Err(ShelfFault::Failed);
        }
        self.kept.write(id, bytes)
    }

    fn finish(&mut self) -> Result<(), ShelfFault>
        ensures files { SameFiles (files_of self.old) (files_of self.new) }
        ensures kept { (j : ℕ) → ids_of self.new j ≡ ids_of self.old j }
        ensures counts { faults_of self.new ≡ after_write result (faults_of self.old) }
        ensures faults { NoFewer (faults_of self.old) (faults_of self.new) }
        ensures failed { IsErrOf result ShelfFault.Failed
            → Rose (faults_of self.old).writes (faults_of self.new).writes }

        ensures fails { IsErrOf result ShelfFault.Failed
            ↔ Contains (failing_of self.old) (calls_of self.old + 1) }
        ensures calls { calls_of self.new ≡ one_more (calls_of self.old) }
        ensures fail { failing_of self.new ≡ failing_of self.old }
    {
        if is_to_fail(&mut self.calls, &self.fail) {
            self.writes = self.writes.saturating_add(1);
            return Err(ShelfFault::Failed);
        }
        self.kept.finish()
    }
}
