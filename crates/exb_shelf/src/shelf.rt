//! The two traits through which all input and output goes.
ghost use Rattle.std.specs.Prelude.{◌≡◌, ◌≢◌, ◌<◌, ◌≤◌, ◌+◌, ◌++◌, ◌↔◌, [], ℕ, true, false, List, Option, None, length, take, drop, IfOk, OnOk, OnErr, IsErrOf, IsSome};
ghost use Rattle.exb_model.specs.Frames.{IsBytes};
ghost use Rattle.exb_shelf.specs.Files.{Files, SameFiles, Puts, bytes_of};
ghost use Rattle.exb_shelf.specs.FaultCounts.{after_open, after_read, after_write, after_print};
ghost use Rattle.exb_shelf.specs.Shelf.{Id, Faults, IsReading, IsWriting, reading, writing, moved, Rose, NoFewer};

/// Why a file could not be opened.
#[derive(Clone, Copy, Debug)]
pub enum OpenFault {
    /// There is no file of this name.
    Missing,
    /// The shelf could not say, or could not open the file that is there.
    Failed,
    /// Memory ran out.
    Memory,
}

/// Why a call could not do its work.
#[derive(Clone, Copy, Debug, PartialEq, Eq)]
pub enum ShelfFault {
    /// The file or the sink failed.
    Failed,
    /// Memory ran out.
    Memory,
}

/// Files by their names. A file is read or written through an id that `open` or `create` gave.
///
/// Some shelves tell what their files hold, so that it can be proved what a program read and wrote;
/// others do not, as one over the system's files. Each counts its faults: a call that answers that
/// a file is missing, or that it failed, raises its own count by one, and no other count ever
/// changes. A count that stands at 2^64 - 1, its last value, stays there, and counts as risen. Ids
/// rise: each that is given is above all that were.
pub trait Shelf {
    /// Whether the contents of the files are told.
    ghost tells: { Type 0 };

    /// The bytes of a file by its name, where it is there.
    ghost file: { Self → Files };

    /// What each id stands for.
    ghost ids: { Self → ℕ → Id };

    /// How often it has answered that a file is missing, and failed to read or to write.
    ghost faults: { Self → Faults };

    /// Opens a file to be read from its front.
    fn open(&mut self, name: &str) -> Result<u32, OpenFault>
        ensures id { IfOk result (λ id. ids self.new id ≡ reading name.now 0) }
        ensures fresh { IfOk result (λ id. (ids self.old id).given ≡ false) }
        ensures rises { IfOk result (λ id. (j : ℕ) → (ids self.old j).given ≡ true → j < id) }
        ensures others { IfOk result (λ id. (j : ℕ) → j ≢ id → ids self.new j ≡ ids self.old j) }
        ensures kept { (j : ℕ) → (ids self.old j).given ≡ true → ids self.new j ≡ ids self.old j }
        ensures none_given { OnErr result ((j : ℕ) → ids self.new j ≡ ids self.old j) }

        ensures files { SameFiles (file self.old) (file self.new) }
        ensures there { tells → OnOk result (IsSome (file self.old name.now)) }
        ensures bytes { tells → OnOk result (IsBytes (bytes_of (file self.old name.now))) }
        ensures not_there { tells → IsErrOf result OpenFault.Missing → file self.old name.now
            ≡ None }

        ensures counts { faults self.new ≡ after_open result (faults self.old) }
        ensures faults { NoFewer (faults self.old) (faults self.new) }
        ensures missing { IsErrOf result OpenFault.Missing
            → Rose (faults self.old).missing (faults self.new).missing }
        ensures failed { IsErrOf result OpenFault.Failed
            → Rose (faults self.old).reads (faults self.new).reads };

    /// Reads the next bytes of a file, and answers how many. Into a slice that has room it reads
    /// none exactly at the file's end.
    fn read(&mut self, id: u32, into: &mut [u8]) -> Result<usize, ShelfFault>
        requires { IsReading (ids self.old id) }

        ensures bound { IfOk result (λ n. n ≤ length into.old) }
        ensures bytes { tells → IfOk result (λ n. take n into.new
            ≡ take n (drop (ids self.old id).place
            (bytes_of (file self.old (ids self.old id).name)))) }
        ensures end { tells → 0 < length into.old → IfOk result (λ n. (n ≡ 0)
            ↔ (drop (ids self.old id).place (bytes_of (file self.old (ids self.old id).name))
            ≡ [])) }

        ensures id { IfOk result (λ n. ids self.new id ≡ moved (ids self.old id) n) }
        ensures id_err { OnErr result (ids self.new id ≡ ids self.old id) }
        ensures others { (j : ℕ) → j ≢ id → ids self.new j ≡ ids self.old j }
        ensures files { SameFiles (file self.old) (file self.new) }

        ensures counts { faults self.new ≡ after_read result (faults self.old) }
        ensures faults { NoFewer (faults self.old) (faults self.new) }
        ensures failed { IsErrOf result ShelfFault.Failed
            → Rose (faults self.old).reads (faults self.new).reads };

    /// Makes a file, or empties one that is there. Over the system's files one that is there is
    /// marked alone, and the first call that is no `create` empties all that were marked: until
    /// then each holds what it held. One that can't be emptied is a fault of writing, at the latest
    /// in `finish`.
    fn create(&mut self, name: &str) -> Result<u32, ShelfFault>
        ensures id { IfOk result (λ id. ids self.new id ≡ writing name.now) }
        ensures fresh { IfOk result (λ id. (ids self.old id).given ≡ false) }
        ensures rises { IfOk result (λ id. (j : ℕ) → (ids self.old j).given ≡ true → j < id) }
        ensures others { IfOk result (λ id. (j : ℕ) → j ≢ id → ids self.new j ≡ ids self.old j) }
        ensures kept { (j : ℕ) → (ids self.old j).given ≡ true → ids self.new j ≡ ids self.old j }
        ensures none_given { OnErr result ((j : ℕ) → ids self.new j ≡ ids self.old j) }

        ensures empty { tells → OnOk result (Puts (file self.old) (file self.new) name.now []) }
        ensures err { tells → OnErr result (SameFiles (file self.old) (file self.new)) }

        ensures counts { faults self.new ≡ after_write result (faults self.old) }
        ensures faults { NoFewer (faults self.old) (faults self.new) }
        ensures failed { IsErrOf result ShelfFault.Failed
            → Rose (faults self.old).writes (faults self.new).writes };

    /// Appends a front of the bytes to a file, at least one byte where there is one, and answers
    /// how many.
    fn write(&mut self, id: u32, bytes: &[u8]) -> Result<usize, ShelfFault>
        requires { IsWriting (ids self.old id) }

        ensures bound { IfOk result (λ n. n ≤ length bytes.now) }
        ensures some { 0 < length bytes.now → IfOk result (λ n. 0 < n) }
        ensures appended { tells
            → IfOk result (λ n. Puts (file self.old) (file self.new) (ids self.old id).name
            (bytes_of (file self.old (ids self.old id).name) ++ take n bytes.now)) }
        ensures err { tells → OnErr result (SameFiles (file self.old) (file self.new)) }
        ensures kept { (j : ℕ) → ids self.new j ≡ ids self.old j }

        ensures counts { faults self.new ≡ after_write result (faults self.old) }
        ensures faults { NoFewer (faults self.old) (faults self.new) }
        ensures failed { IsErrOf result ShelfFault.Failed
            → Rose (faults self.old).writes (faults self.new).writes };

    /// Brings what was made and written to where it is to stay, as to the disk. No file changes;
    /// what can't be brought there is a fault of writing.
    fn finish(&mut self) -> Result<(), ShelfFault>
        ensures files { SameFiles (file self.old) (file self.new) }
        ensures kept { (j : ℕ) → ids self.new j ≡ ids self.old j }

        ensures counts { faults self.new ≡ after_write result (faults self.old) }
        ensures faults { NoFewer (faults self.old) (faults self.new) }
        ensures failed { IsErrOf result ShelfFault.Failed
            → Rose (faults self.old).writes (faults self.new).writes };
}

/// Text that goes out, as to standard output.
///
/// Some sinks tell what was written to them, and others do not. Each counts its faults: a call that
/// fails raises the count by one, and no other changes it. At 2^64 - 1, its last value, it stays,
/// and counts as risen.
pub trait Sink {
    /// Whether the text is told.
    ghost tells: { Type 0 };

    /// What was written.
    ghost text: { Self → List ℕ };

    /// How often it has failed.
    ghost faults: { Self → ℕ };

    /// Appends a front of the bytes, at least one byte where there is one, and answers how many.
    fn write(&mut self, bytes: &[u8]) -> Result<usize, ShelfFault>
        ensures bound { IfOk result (λ n. n ≤ length bytes.now) }
        ensures some { 0 < length bytes.now → IfOk result (λ n. 0 < n) }
        ensures appended { tells → IfOk result (λ n. text self.new
            ≡ text self.old ++ take n bytes.now) }
        ensures err { tells → OnErr result (text self.new ≡ text self.old) }

        ensures counts { faults self.new ≡ after_print result (faults self.old) }
        ensures faults { faults self.old ≤ faults self.new }
        ensures failed { IsErrOf result ShelfFault.Failed
            → Rose (faults self.old) (faults self.new) };
}
