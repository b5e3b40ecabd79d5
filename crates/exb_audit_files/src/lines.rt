//! A text that is fed in pieces and read line by line. What is kept is what its lines are read as,
//! and the last part of it, which has no newline yet.
ghost use Rattle.std.specs.Prelude.{◌≡◌, ◌≢◌, ◌<◌, ◌≤◌, ◌+◌, ◌-◌, ◌^◌, ◌++◌, ◌∷◌, ◌⊎◌, ℕ, [], List, Ok, length, take, drop, min, IfOk, OnOk, IfErr, IsErrOf};
ghost use Rattle.exb_shelf.specs.Files.{SameFiles, bytes_of};
ghost use Rattle.exb_shelf.specs.Shelf.{IsReading, IsReadingOf, Opens, NoFewer, Rose, moved};
ghost use Rattle.exb_audit_files.specs.LineFeeds.{CutsOn, HasCut, IsOneLine, unopened, unread};
ghost use Rattle.exb_audit_files.specs.Lines.{AreLines, CountsLines, FirstBadLine, HoldsLines, IsLinesFault, after_lines};

use crate::line::Line;
use crate::texts::LinesFault;
use exb_model::memory::NoMemory;
use exb_shelf::{OpenFault, PIECE, Shelf, ShelfFault, room};
use std::alloc::Global;

/// What is kept of a text.
#[derive(Drop)]
pub(crate) struct Lines<L: Line> {
    /// What the lines are read as, up to the first that can't be read.
    lines: Vec<L>,
    /// The last part of the text.
    rest: Vec<u8>,
    /// Whether a line can't be read; from then on nothing is kept.
    bad: bool,
}

/// Why a text can't be opened.
fn unopened(fault: OpenFault) -> LinesFault
    ensures { result ≡ unopened fault }
{
    match fault {
        OpenFault::Missing => LinesFault::Missing,
        OpenFault::Failed => LinesFault::Read,
        OpenFault::Memory => LinesFault::Memory,
    }
}

/// Why a text can't be read on.
fn unread(fault: ShelfFault) -> LinesFault
    ensures { result ≡ unread fault }
{
    match fault {
        ShelfFault::Failed => LinesFault::Read,
        ShelfFault::Memory => LinesFault::Memory,
    }
}

/// Reads a line of which a part may be kept already.
fn read_with<L: Line>(alloc: Global, rest: &mut Vec<u8>, line: &[u8]) -> Result<Option<L>, NoMemory>
    ensures read { IfOk result (λ read. read ≡ L.reads (rest.old.items ++ line.now)) }
    ensures rest { OnOk result (rest.new.items ≡ []) }
{
    if rest.is_empty() {
        return L::read(alloc, line);
    }
    rest.extend_from_slice(line)?;
    let read = L::read(alloc, rest.as_slice())?;
    rest.clear();
    Ok(read)
}

/// Takes in bytes and a newline behind them.
fn end_line<L: Line>(alloc: Global, to: &mut Lines<L>, line: &[u8]) -> Result<(), NoMemory>
    requires one { IsOneLine line.now }
    ensures cut { OnOk result (CutsOn L.reads to.old to.new (line.now ++ 10 ∷ [])) }
{
    if to.bad {
        return Ok(());
    }
    match read_with(alloc, &mut to.rest, line)? {
        Some(read) => to.lines.push(read)?,
        None => to.bad = true,
    }
    Ok(())
}

/// Takes in bytes without a newline.
fn put_rest<L: Line>(to: &mut Lines<L>, part: &[u8]) -> Result<(), NoMemory>
    requires one { IsOneLine part.now }
    ensures cut { OnOk result (CutsOn L.reads to.old to.new part.now) }
{
    if to.bad {
        return Ok(());
    }
    to.rest.extend_from_slice(part)?;
    Ok(())
}

/// Takes in a piece of the text.
fn feed<L: Line>(alloc: Global, to: &mut Lines<L>, piece: &[u8]) -> Result<(), NoMemory>
    ensures cut { OnOk result (CutsOn L.reads to.old to.new piece.now) }
{
    let mut from = 0;
    'bytes: for (at, byte) in piece.iter().enumerate() {
        if *byte != 10 {
            continue;
        }
        end_line(alloc, to, &piece[from..at])?;
        from = at + 1;
    }
    put_rest(to, &piece[from..])
}

/// The number of the line behind these.
fn next_number<L: Line>(from: &Lines<L>) -> u64
    ensures { result ≡ min (length from.now.lines.items + 1) (2 ^ 64 - 1) }
{
    (from.lines.len() as u64).saturating_add(1)
}

/// What a whole text is read as, or its first line that can't be read.
fn finish<L: Line>(from: Lines<L>) -> Result<Vec<L>, LinesFault>
    ensures lines { IfOk result (λ lines. (text : List ℕ) → HasCut L.reads text from
        → AreLines L.reads text lines.items) }
    ensures bad { IfErr result (λ fault. (number : ℕ) × (fault ≡ LinesFault.Bad number)
        × ((text : List ℕ) → length text < 2 ^ 33 → HasCut L.reads text from
        → FirstBadLine L.reads text number)) }
{
    if from.bad {
        let number = next_number(&from);
        return Err(LinesFault::Bad { number });
    }
    if !from.rest.is_empty() {
        let number = next_number(&from);
        return Err(LinesFault::Bad { number });
    }
    Ok(from.lines)
}

/// Reads the next piece of a file and takes it in, and answers how many bytes it has.
fn read_on<S: Shelf, L: Line>(
    alloc: Global,
    shelf: &mut S,
    id: u32,
    piece: &mut [u8],
    to: &mut Lines<L>,
) -> Result<usize, LinesFault>
    requires reading { IsReading (S.ids shelf.old id) }
    requires piece { 0 < length piece.old }
    ensures piece { length piece.new ≡ length piece.old }
    ensures bound { IfOk result (λ n. n ≤ length piece.old) }
    ensures cut { S.tells → IfOk result (λ n. CutsOn L.reads to.old to.new
        (take n (drop (S.ids shelf.old id).place
        (bytes_of (S.file shelf.old (S.ids shelf.old id).name))))) }
    ensures end { S.tells → result ≡ Ok 0
        → drop (S.ids shelf.old id).place (bytes_of (S.file shelf.old (S.ids shelf.old id).name))
        ≡ [] }
    ensures some { S.tells → IfOk result (λ n. (S.ids shelf.old id).place + n
        ≤ length (bytes_of (S.file shelf.old (S.ids shelf.old id).name)) ⊎ (n ≡ 0)) }
    ensures cause { IfErr result (λ fault. (fault ≡ LinesFault.Read)
        ⊎ (fault ≡ LinesFault.Memory)) }
    ensures id { IfOk result (λ n. S.ids shelf.new id ≡ moved (S.ids shelf.old id) n) }
    ensures file { (name : List ℕ) → IsReadingOf name (S.ids shelf.old id)
        → IsReadingOf name (S.ids shelf.new id) }
    ensures others { (j : ℕ) → j ≢ id → S.ids shelf.new j ≡ S.ids shelf.old j }
    ensures files { SameFiles (S.file shelf.old) (S.file shelf.new) }
    ensures counts { S.faults shelf.new ≡ after_lines result (S.faults shelf.old) }
    ensures faults { NoFewer (S.faults shelf.old) (S.faults shelf.new) }
    ensures failed { IsErrOf result LinesFault.Read
        → Rose (S.faults shelf.old).reads (S.faults shelf.new).reads }
{
    let n = match shelf.read(id, piece) {
        Ok(n) => n,
        Err(fault) => return Err(unread(fault)),
    };
    match feed(alloc, to, &piece[..n]) {
        Ok(()) => Ok(n),
        Err(_) => Err(LinesFault::Memory),
    }
}

/// Reads a text of at most `limit` bytes line by line.
pub(crate) fn read_lines<S: Shelf, L: Line>(
    alloc: Global,
    shelf: &mut S,
    name: &str,
    limit: u32,
) -> Result<Vec<L>, LinesFault>
    ensures lines { S.tells → IfOk result (λ lines. HoldsLines (AreLines L.reads) limit
        (S.file shelf.old name.now) lines.items) }
    ensures refused { S.tells
        → IfErr result (λ fault. IsLinesFault L.reads limit (S.file shelf.old name.now) fault
        ⊎ (fault ≡ LinesFault.Read) ⊎ (fault ≡ LinesFault.Memory)) }
    ensures opened { Opens (IsReadingOf name.now) (S.ids shelf.old) (S.ids shelf.new) }
    ensures files { SameFiles (S.file shelf.old) (S.file shelf.new) }
    ensures faults { CountsLines result (S.faults shelf.old) (S.faults shelf.new) }
{
    let id = match shelf.open(name) {
        Ok(id) => id,
        Err(fault) => return Err(unopened(fault)),
    };
    let Ok(mut piece) = room(alloc, PIECE) else {
        return Err(LinesFault::Memory);
    };
    let piece = piece.as_mut_slice();
    let mut lines = Lines {
        lines: Vec::new(alloc),
        rest: Vec::new(alloc),
        bad: false,
    };
    let mut got: u64 = 0;
    'pieces: while got <= u64::from(limit) {
        let n = read_on(alloc, shelf, id, piece, &mut lines)?;
        if n == 0 {
            return finish(lines);
        }
        got += n as u64;
    }
    Err(LinesFault::Large)
}
