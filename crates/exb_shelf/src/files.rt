//! The system's files and standard output. What they hold is not told.
ghost use Rattle.std.specs.Prelude.{◌≡◌, ◌<◌, ◌≤◌, ℕ, [], None, length, IfOk, IfSome};
ghost use Rattle.exb_shelf.specs.Shelf.{Faults, no_id};
ghost use Rattle.exb_shelf.specs.SystemFiles.{system_ids, system_faults, sink_faults};

use crate::limits::Limits;
use crate::made_files::Output;
use crate::open_files::{OpenFile, advance, give};
use crate::output_creation::{folder_of, make};
use crate::protected_files::ProtectedFiles;
use crate::terminal::write_shown;
use crate::{OpenFault, Shelf, ShelfFault, Sink, made_files};
use std::alloc::{AllocError, Global};
use std::fs::{File, Metadata, OpenOptions};
use std::io::{ErrorKind, IsTerminal, Write};
use std::os::unix::fs::FileExt;
use std::{fs, io};

/// The system's files.
///
/// Each read opens its file anew and reads at its place, and each write opens its file anew and
/// appends, so that thousands of files need no open handles, and a file that isn't at its name any
/// more is found out. This is the trusted edge: no clause says what the system's files hold.
///
/// What was opened to be read is never made, whatever name leads to it. A file is emptied not by
/// `create` but by the next call of another kind. So where one of several that are made in a row
/// can't be made, those that are there still hold what they held.
///
/// A file that is made is a new one, or one that is there under this name alone. Each time that it
/// is opened again, to be emptied, written or synced, it is the one that was made, by its number
/// and age. It stands below the folder of the run, and no more is written in all than the operator
/// allows (`EXBR_ANYWHERE` and `EXBR_BYTES`): the rest is a fault of writing.
#[derive(Drop)]
pub struct FileShelf {
    rt: HostRuntime,
    alloc: Global,
    entries: Vec<OpenFile>,
    known: ProtectedFiles,
    // Of each id which file was made, and how much was written.
    outputs: Vec<Output>,
    // The first id whose file is not emptied yet.
    full: usize,
    // Where files may be made, and how many bytes may still be written.
    limits: Limits,
    missing: u64,
    reads: u64,
    writes: u64,
}

impl FileShelf {
    /// A shelf over the files of the runtime that `main` is given.
    pub fn new(alloc: Global, rt: HostRuntime) -> FileShelf
        ensures ids { (j : ℕ) → system_ids result j ≡ no_id }
        ensures faults { system_faults result ≡ record { missing = 0; reads = 0; writes = 0 } }
    {
        FileShelf {
            rt,
            alloc,
            entries: Vec::new(alloc),
            known: ProtectedFiles::new(alloc),
            outputs: Vec::new(alloc),
            full: 0,
            limits: Limits::of(&rt),
            missing: 0,
            reads: 0,
            writes: 0,
        }
    }
}

fn refused() -> io::Error {
    io::Error::from(ErrorKind::InvalidInput)
}

// Opens a file to be read. Folders, pipes and devices are refused before they could keep it
// waiting.
fn open_to_read(rt: &HostRuntime, name: &str) -> io::Result<Metadata> {
    if !fs::metadata(rt, name)?.is_file() {
        return Err(refused());
    }
    let file = File::open(rt, name)?;
    file.metadata()
}

// Opens a file that was made, where it holds as much as was written. What stands at its name by now
// may be another file of the same size.
fn open_to_append(rt: &HostRuntime, name: &str, output: &Output) -> io::Result<File> {
    let file = OpenOptions::new().append(true).open(rt, name)?;
    let there = file.metadata()?;
    if output.is(&there) && there.len() == output.written {
        Ok(file)
    } else {
        Err(refused())
    }
}

// Empties a file that was made, and no other that stands at its name by now.
fn empty(rt: &HostRuntime, name: &str, output: &Output) -> io::Result<()> {
    let file = OpenOptions::new().write(true).open(rt, name)?;
    if output.is(&file.metadata()?) {
        file.set_len(0)
    } else {
        Err(refused())
    }
}

// Empties the files that were made, from this id on. What can't be emptied fails when it is
// written, since it holds more than was written or is another one.
fn empty_made(rt: &HostRuntime, entries: &[OpenFile], outputs: &[Output], full: &mut usize) {
    for (at, entry) in entries.iter().enumerate().skip(*full) {
        if !entry.reads {
            let _ = empty(rt, entry.name.as_str(), &made_files::at(outputs, at));
        }
    }
    *full = entries.len();
}

// Reads at a place. A signal is no fault.
fn read_some(file: &File, place: u64, into: &mut [u8]) -> io::Result<usize>
    ensures { IfOk result (λ n. n ≤ length into.old) }
{
    for _ in 0..u64::MAX {
        match file.read_at(into, place) {
            Err(e) if e.kind() == ErrorKind::Interrupted => {}
            done => return done,
        }
    }
    Err(refused())
}

// Writes a front of the bytes. A signal is no fault.
fn write_some<W: Write>(to: &mut W, bytes: &[u8]) -> io::Result<usize>
    ensures { IfOk result (λ n. n ≤ length bytes.now) }
{
    for _ in 0..u64::MAX {
        match to.write(bytes) {
            Err(e) if e.kind() == ErrorKind::Interrupted => {}
            done => return done,
        }
    }
    Err(refused())
}

// How much was read, or None where the system failed.
fn read_part(rt: &HostRuntime, name: &str, place: u64, into: &mut [u8]) -> Option<usize>
    ensures { IfSome result (λ n. n ≤ length into.old) }
{
    match File::open(rt, name) {
        Ok(file) => read_some(&file, place, into).ok(),
        Err(_) => None,
    }
}

// The front of the bytes that may still be written.
fn allowed(bytes: &[u8], left: u64) -> &[u8]
    ensures { length result.now ≤ length bytes.now }
{
    if bytes.len() as u64 <= left {
        bytes
    } else {
        &bytes[..left as usize]
    }
}

// How much was written, or None where the system failed.
fn append_part(rt: &HostRuntime, name: &str, output: &Output, bytes: &[u8]) -> Option<usize>
    ensures { IfSome result (λ n. n ≤ length bytes.now) }
{
    match open_to_append(rt, name, output) {
        Ok(mut file) => write_some(&mut file, bytes).ok(),
        Err(_) => None,
    }
}

fn sync_file(rt: &HostRuntime, name: &str, output: &Output) -> io::Result<()> {
    let file = open_to_append(rt, name, output)?;
    file.sync_all()
}

// Brings the names of a folder's files to the disk, where the system lets that be done.
fn sync_folder(rt: &HostRuntime, folder: &str) {
    if let Ok(folder) = File::open(rt, folder) {
        let _ = folder.sync_all();
    }
}

// Whether the file before this one was made in the same folder.
fn follows(entries: &[OpenFile], at: usize) -> bool
    requires { at < length entries.now }
{
    let own = folder_of(entries[at].name.as_str());
    match entries[..at].last() {
        Some(before) => !before.reads && folder_of(before.name.as_str()) == own,
        None => false,
    }
}

fn sync_all(rt: &HostRuntime, entries: &[OpenFile], outputs: &[Output]) -> io::Result<()> {
    for (at, entry) in entries.iter().enumerate() {
        if !entry.reads {
            let name = entry.name.as_str();
            sync_file(rt, name, &made_files::at(outputs, at))?;
            if !follows(entries, at) {
                sync_folder(rt, folder_of(name));
            }
        }
    }
    Ok(())
}

// Opens a file to be read, and keeps which it is, in a function of its own: what the system tells
// of a file or of a fault ends here, and not where a shelf's clauses are shown.
fn opened(
    rt: &HostRuntime,
    known: &mut ProtectedFiles,
    outputs: &mut Vec<Output>,
    next: usize,
    name: &str,
) -> Result<(), OpenFault> {
    match open_to_read(rt, name) {
        Ok(file) => {
            if made_files::add(outputs, next).is_err() || known.add_read(rt, name, &file).is_err() {
                return Err(OpenFault::Memory);
            }
            Ok(())
        }
        Err(e) if e.kind() == ErrorKind::NotFound => Err(OpenFault::Missing),
        Err(_) => Err(OpenFault::Failed),
    }
}

// Makes room for a file that is made.
fn room_for(
    known: &mut ProtectedFiles,
    outputs: &mut Vec<Output>,
    next: usize,
) -> Result<(), AllocError> {
    known.reserve()?;
    made_files::add(outputs, next)
}

// Opens a file to be written, and keeps which it is.
fn made(
    rt: &HostRuntime,
    alloc: Global,
    known: &mut ProtectedFiles,
    outputs: &mut [Output],
    name: &str,
    anywhere: bool,
) -> Result<(), ShelfFault> {
    let file = make(rt, alloc, known, name, anywhere)?;
    if known.add(&file).is_err() {
        return Err(ShelfFault::Memory);
    }
    made_files::keep(outputs, &file);
    Ok(())
}

impl Shelf for FileShelf {
    ghost tells = { ⊥ };

    ghost file = { λ _ _. None };

    ghost ids = { system_ids };

    ghost faults = { system_faults };

    #[tactic(auto, using(crate::proofs::OpenFileLemmas::entries))]
    fn open(&mut self, name: &str) -> Result<u32, OpenFault> {
        empty_made(
            &self.rt,
            self.entries.as_slice(),
            self.outputs.as_slice(),
            &mut self.full,
        );
        let next = self.entries.len();
        match opened(&self.rt, &mut self.known, &mut self.outputs, next, name) {
            Ok(()) => match give(self.alloc, &mut self.entries, true, name) {
                Ok(id) => Ok(id),
                Err(_) => Err(OpenFault::Memory),
            },
            Err(OpenFault::Missing) => {
                self.missing = self.missing.saturating_add(1);
                Err(OpenFault::Missing)
            }
            Err(OpenFault::Failed) => {
                self.reads = self.reads.saturating_add(1);
                Err(OpenFault::Failed)
            }
            Err(OpenFault::Memory) => Err(OpenFault::Memory),
        }
    }

    #[tactic(auto, using(crate::proofs::OpenFileLemmas::entries))]
    fn read(&mut self, id: u32, into: &mut [u8]) -> Result<usize, ShelfFault> {
        empty_made(
            &self.rt,
            self.entries.as_slice(),
            self.outputs.as_slice(),
            &mut self.full,
        );
        let entry = &self.entries[id as usize];
        let place = entry.place;
        match read_part(&self.rt, entry.name.as_str(), place, into) {
            Some(n) if n as u64 <= u64::MAX - place => {
                advance(&mut self.entries, id, n);
                Ok(n)
            }
            _ => {
                self.reads = self.reads.saturating_add(1);
                Err(ShelfFault::Failed)
            }
        }
    }

    #[tactic(auto, using(crate::proofs::OpenFileLemmas::entries))]
    fn create(&mut self, name: &str) -> Result<u32, ShelfFault> {
        let given = self.entries.len();
        if room_for(&mut self.known, &mut self.outputs, given).is_err() {
            return Err(ShelfFault::Memory);
        }
        let Ok(id) = give(self.alloc, &mut self.entries, false, name) else {
            return Err(ShelfFault::Memory);
        };
        match made(
            &self.rt,
            self.alloc,
            &mut self.known,
            self.outputs.as_mut_slice(),
            name,
            self.limits.anywhere,
        ) {
            Ok(()) => Ok(id),
            Err(ShelfFault::Memory) => {
                self.entries.truncate(given);
                Err(ShelfFault::Memory)
            }
            Err(ShelfFault::Failed) => {
                self.entries.truncate(given);
                self.writes = self.writes.saturating_add(1);
                Err(ShelfFault::Failed)
            }
        }
    }

    #[tactic(auto, using(crate::proofs::OpenFileLemmas::entries))]
    fn write(&mut self, id: u32, bytes: &[u8]) -> Result<usize, ShelfFault> {
        empty_made(
            &self.rt,
            self.entries.as_slice(),
            self.outputs.as_slice(),
            &mut self.full,
        );
        if bytes.is_empty() {
            return Ok(0);
        }
        let entry = &self.entries[id as usize];
        let output = made_files::at(self.outputs.as_slice(), id as usize);
        let bytes = allowed(bytes, self.limits.bytes);
        match append_part(&self.rt, entry.name.as_str(), &output, bytes) {
            Some(n) if n > 0 => {
                self.limits.bytes = self.limits.bytes.saturating_sub(n as u64);
                made_files::count(self.outputs.as_mut_slice(), id, n);
                Ok(n)
            }
            _ => {
                self.writes = self.writes.saturating_add(1);
                Err(ShelfFault::Failed)
            }
        }
    }

    // It fails where a file that was made is not at its name any more, or does not hold as much as
    // was written.
    fn finish(&mut self) -> Result<(), ShelfFault> {
        empty_made(
            &self.rt,
            self.entries.as_slice(),
            self.outputs.as_slice(),
            &mut self.full,
        );
        match sync_all(&self.rt, self.entries.as_slice(), self.outputs.as_slice()) {
            Ok(()) => Ok(()),
            Err(_) => {
                self.writes = self.writes.saturating_add(1);
                Err(ShelfFault::Failed)
            }
        }
    }
}

// How much was printed, or None where the system failed. A terminal shows what would drive it by
// numbers.
fn print_some(rt: &HostRuntime, bytes: &[u8]) -> Option<usize>
    ensures { IfSome result (λ n. n ≤ length bytes.now) }
{
    let mut out = io::writer(rt);
    if !rt.stdout().is_terminal() {
        return write_some(&mut out, bytes).ok();
    }
    write_shown(&mut out, bytes).then_some(bytes.len())
}

/// Standard output. Nothing is held back: each call writes at once. Where it is a terminal, control
/// characters and those that turn the direction are shown by their numbers, and elsewhere all is
/// written byte for byte.
#[derive(Drop)]
pub struct OutSink {
    rt: HostRuntime,
    faults: u64,
}

impl OutSink {
    /// A sink over the standard output of the runtime that `main` is given.
    pub fn new(rt: HostRuntime) -> OutSink
        ensures { sink_faults result ≡ 0 }
    {
        OutSink { rt, faults: 0 }
    }
}

impl Sink for OutSink {
    ghost tells = { ⊥ };

    ghost text = { λ _. [] };

    ghost faults = { sink_faults };

    fn write(&mut self, bytes: &[u8]) -> Result<usize, ShelfFault> {
        if bytes.is_empty() {
            return Ok(0);
        }
        match print_some(&self.rt, bytes) {
            Some(n) if n > 0 => Ok(n),
            _ => {
                self.faults = self.faults.saturating_add(1);
                Err(ShelfFault::Failed)
            }
        }
    }
}
