//! Whole files and texts, through calls that take pieces.
ghost use Rattle.std.specs.Prelude.{◌≡◌, ◌≢◌, ◌<◌, ◌≤◌, ◌+◌, ◌++◌, [], ℕ, List, true, Some, None, length, take, drop, IfOk, OnOk, OnErr, IsErrOf};
ghost use Rattle.exb_shelf.specs.Files.{bytes_of, SameFiles, Puts, Adds, AddsFront, AppendsFront, BreaksOff};
ghost use Rattle.exb_shelf.specs.FaultCounts.{after_read, after_reading, after_write, after_print};
ghost use Rattle.exb_shelf.specs.ReadFaults.{unopened, unread};
ghost use Rattle.exb_shelf.specs.Shelf.{IsReading, IsWriting, IsReadingOf, Opens, moved, Rose, NoFewer};

use crate::{OpenFault, Shelf, ShelfFault, Sink};
use std::alloc::{AllocError, Global};

/// The most bytes that one call reads or writes.
pub const PIECE: usize = 65_536;

/// Why a whole file could not be read.
#[derive(Clone, Copy, Debug, PartialEq, Eq)]
pub enum ReadFault {
    /// There is no file of this name.
    Missing,
    /// The shelf failed.
    Failed,
    /// The file has more bytes than the limit.
    Large,
    /// Memory ran out.
    Memory,
}

impl From<OpenFault> for ReadFault {
    ghost from_gives = { λ fault made. made ≡ unopened fault };

    fn from(fault: OpenFault) -> Self {
        match fault {
            OpenFault::Missing => ReadFault::Missing,
            OpenFault::Failed => ReadFault::Failed,
            OpenFault::Memory => ReadFault::Memory,
        }
    }
}

impl From<ShelfFault> for ReadFault {
    ghost from_gives = { λ fault made. made ≡ unread fault };

    fn from(fault: ShelfFault) -> Self {
        match fault {
            ShelfFault::Failed => ReadFault::Failed,
            ShelfFault::Memory => ReadFault::Memory,
        }
    }
}

/// Room for so many bytes that are read at once.
pub fn room(alloc: Global, size: usize) -> Result<Vec<u8>, AllocError>
    ensures { IfOk result (λ piece. length piece.items ≡ size) }
{
    vec![in alloc; 0u8; size]
}

// Reads a piece, and puts it behind the others.
fn read_on<S: Shelf>(
    shelf: &mut S,
    id: u32,
    piece: &mut [u8],
    bytes: &mut Vec<u8>,
) -> Result<usize, ShelfFault>
    requires reading { IsReading (S.ids shelf.old id) }
    requires room { 0 < length piece.old }
    ensures bytes { S.tells → IfOk result (λ n. bytes.new.items ≡ bytes.old.items
        ++ take n (drop (S.ids shelf.old id).place
        (bytes_of (S.file shelf.old (S.ids shelf.old id).name)))) }
    ensures len { IfOk result (λ n. length bytes.new.items ≡ length bytes.old.items + n) }
    ensures end { S.tells → result ≡ Ok 0
        → drop (S.ids shelf.old id).place (bytes_of (S.file shelf.old (S.ids shelf.old id).name))
        ≡ [] }
    ensures id { IfOk result (λ n. S.ids shelf.new id ≡ moved (S.ids shelf.old id) n) }
    ensures file { (name : List ℕ) → IsReadingOf name (S.ids shelf.old id)
        → IsReadingOf name (S.ids shelf.new id) }
    ensures others { (j : ℕ) → j ≢ id → S.ids shelf.new j ≡ S.ids shelf.old j }
    ensures files { SameFiles (S.file shelf.old) (S.file shelf.new) }
    ensures counts { S.faults shelf.new ≡ after_read result (S.faults shelf.old) }
    ensures faults { NoFewer (S.faults shelf.old) (S.faults shelf.new) }
    ensures failed { IsErrOf result ShelfFault.Failed
        → Rose (S.faults shelf.old).reads (S.faults shelf.new).reads }
{
    let n = match shelf.read(id, piece) {
        Ok(n) => n,
        Err(fault) => return Err(fault),
    };
    match bytes.extend_from_slice(&piece[..n]) {
        Ok(()) => Ok(n),
        Err(_) => Err(ShelfFault::Memory),
    }
}

/// Reads a whole file of at most `limit` bytes.
///
/// Where the files are told, it answers the file's bytes; Missing only where the file is not there;
/// and Large only where the file has more bytes than the limit. Missing and Failed come only where
/// the shelf counted such a fault.
pub fn read_file<S: Shelf>(
    alloc: Global,
    shelf: &mut S,
    name: &str,
    limit: usize,
) -> Result<Vec<u8>, ReadFault>
    ensures bytes { S.tells → IfOk result (λ bytes. S.file shelf.old name.now ≡ Some bytes.items) }
    ensures limit { IfOk result (λ bytes. length bytes.items ≤ limit) }
    ensures not_there { S.tells → IsErrOf result ReadFault.Missing → S.file shelf.old name.now
        ≡ None }
    ensures large { S.tells → IsErrOf result ReadFault.Large
        → (bytes : List ℕ) × (S.file shelf.old name.now ≡ Some bytes) × (limit < length bytes) }

    // What stays, and what is opened.
    ensures files { SameFiles (S.file shelf.old) (S.file shelf.new) }
    ensures opened { Opens (IsReadingOf name.now) (S.ids shelf.old) (S.ids shelf.new) }

    ensures counts { S.faults shelf.new ≡ after_reading result (S.faults shelf.old) }
    ensures faults { NoFewer (S.faults shelf.old) (S.faults shelf.new) }
    ensures missing { IsErrOf result ReadFault.Missing
        → Rose (S.faults shelf.old).missing (S.faults shelf.new).missing }
    ensures failed { IsErrOf result ReadFault.Failed
        → Rose (S.faults shelf.old).reads (S.faults shelf.new).reads }
{
    let id = shelf.open(name)?;
    let Ok(mut piece) = room(alloc, PIECE) else {
        return Err(ReadFault::Memory);
    };
    let piece = piece.as_mut_slice();
    let mut bytes = Vec::new(alloc);
    'pieces: while bytes.len() <= limit {
        let n = read_on(shelf, id, piece, &mut bytes)?;
        if n == 0 {
            return Ok(bytes);
        }
    }
    Err(ReadFault::Large)
}

// Appends a front of a text, at least one byte where there is one and at most two pieces: a piece
// of a capture is full once its last record passed the size of a piece, and is to be written by one
// call.
fn write_on<S: Shelf>(shelf: &mut S, id: u32, text: &[u8]) -> Result<usize, ShelfFault>
    requires { IsWriting (S.ids shelf.old id) }
    ensures bound { IfOk result (λ n. n ≤ length text.now) }
    ensures piece { IfOk result (λ n. n ≤ 131_072) }
    ensures some { 0 < length text.now → IfOk result (λ n. 0 < n) }
    ensures appended { S.tells
        → IfOk result (λ n. Puts (S.file shelf.old) (S.file shelf.new) (S.ids shelf.old id).name
        (bytes_of (S.file shelf.old (S.ids shelf.old id).name) ++ take n text.now)) }
    ensures err { S.tells → OnErr result (SameFiles (S.file shelf.old) (S.file shelf.new)) }
    ensures kept { (j : ℕ) → S.ids shelf.new j ≡ S.ids shelf.old j }
    ensures counts { S.faults shelf.new ≡ after_write result (S.faults shelf.old) }
    ensures faults { NoFewer (S.faults shelf.old) (S.faults shelf.new) }
    ensures failed { IsErrOf result ShelfFault.Failed
        → Rose (S.faults shelf.old).writes (S.faults shelf.new).writes }
{
    shelf.write(id, &text[..text.len().min(2 * PIECE)])
}

/// Appends a whole text to a file that was created, at most twice [`PIECE`] bytes a call. Where it
/// fails, the file has a front of the text more.
pub fn write_text<S: Shelf>(shelf: &mut S, id: u32, text: &[u8]) -> Result<(), ShelfFault>
    requires { IsWriting (S.ids shelf.old id) }
    ensures ok { S.tells → OnOk result (Adds (S.file shelf.old) (S.file shelf.new)
        (S.ids shelf.old id).name text.now) }
    ensures err { S.tells → OnErr result (AddsFront (S.file shelf.old) (S.file shelf.new)
        (S.ids shelf.old id).name text.now) }
    ensures kept { (j : ℕ) → S.ids shelf.new j ≡ S.ids shelf.old j }

    ensures counts { S.faults shelf.new ≡ after_write result (S.faults shelf.old) }
    ensures faults { NoFewer (S.faults shelf.old) (S.faults shelf.new) }
    ensures failed { IsErrOf result ShelfFault.Failed
        → Rose (S.faults shelf.old).writes (S.faults shelf.new).writes }
{
    let mut at = 0;
    while at < text.len() {
        match write_on(shelf, id, &text[at..]) {
            Ok(n) => at += n,
            Err(fault) => return Err(fault),
        }
    }
    Ok(())
}

/// Appends a whole text to the sink. Where it fails, the sink has a front of the text more, and
/// never all of it.
pub fn print_text<O: Sink>(out: &mut O, text: &[u8]) -> Result<(), ShelfFault>
    ensures ok { O.tells → OnOk result (O.text out.new ≡ O.text out.old ++ text.now) }
    ensures err { O.tells → OnErr result (AppendsFront (O.text out.old) (O.text out.new) text.now) }
    ensures short { O.tells → OnErr result (BreaksOff (O.text out.old) (O.text out.new) text.now) }

    ensures counts { O.faults out.new ≡ after_print result (O.faults out.old) }
    ensures faults { O.faults out.old ≤ O.faults out.new }
    ensures failed { IsErrOf result ShelfFault.Failed → Rose (O.faults out.old) (O.faults out.new) }
{
    let mut at = 0;
    while at < text.len() {
        match out.write(&text[at..]) {
            Ok(n) => at += n,
            Err(fault) => return Err(fault),
        }
    }
    Ok(())
}
