//! How a file is made: a new one, or one of an earlier run, at its name and nowhere else.
//!
//! The system's library has no way to open a file without following a link, so what a name leads to
//! is looked at before, and what was opened afterwards: by its number, by its name once more, and
//! by the folder in which the system says that it stands. Whoever changes a name in between gets at
//! most an empty file made; none that was there is emptied or written on.

use crate::ShelfFault;
use crate::protected_files::{Inode, ProtectedFiles};
use std::alloc::Global;
use std::fs::{File, Metadata, OpenOptions};
use std::io::ErrorKind;
use std::os::fd::AsRawFd;
use std::os::unix::fs::MetadataExt;
use std::path::{Path, PathBuf};
use std::{fs, io};

/// The folder that a name stands in.
pub(crate) fn folder_of(name: &str) -> &str {
    match Path::new(name).parent() {
        Some(folder) if !folder.as_str().is_empty() => folder.as_str(),
        _ => ".",
    }
}

/// Opens a file to be written, and leaves what it holds.
pub(crate) fn make(
    rt: &HostRuntime,
    alloc: Global,
    known: &ProtectedFiles,
    name: &str,
    anywhere: bool,
) -> Result<Metadata, ShelfFault> {
    let real = real_folder(rt, folder_of(name))?;
    if !may_stand(rt, name, &real, anywhere)? {
        return Err(ShelfFault::Failed);
    }
    let Ok(file) = open_to_make(rt, known, name) else {
        return Err(ShelfFault::Failed);
    };
    let Ok(made) = file.metadata() else {
        return Err(ShelfFault::Failed);
    };
    let is_it = known.allows(rt, name, &made) && is_named(rt, name, &made);
    if is_it && stands_in(rt, alloc, &file, &real)? {
        Ok(made)
    } else {
        Err(ShelfFault::Failed)
    }
}

// Opens the file that is there, or makes a new one where there is none, not even a link.
fn open_to_make(rt: &HostRuntime, known: &ProtectedFiles, name: &str) -> io::Result<File> {
    match fs::symlink_metadata(rt, name) {
        Ok(there) if known.allows(rt, name, &there) => {
            OpenOptions::new().write(true).open(rt, name)
        }
        Ok(_) => Err(io::Error::from(ErrorKind::InvalidInput)),
        Err(e) if e.kind() == ErrorKind::NotFound => {
            OpenOptions::new()
                .write(true)
                .create_new(true)
                .open(rt, name)
        }
        Err(e) => Err(e),
    }
}

// Whether a name leads to this file, without a link.
fn is_named(rt: &HostRuntime, name: &str, file: &Metadata) -> bool {
    match fs::symlink_metadata(rt, name) {
        Ok(there) => there.is_file() && there.nlink() <= 1 && Inode::of(&there) == Inode::of(file),
        Err(_) => false,
    }
}

// Want of memory stays what it is; all else is a fault of the shelf.
fn fault_of(e: &io::Error) -> ShelfFault {
    match e.kind() {
        ErrorKind::OutOfMemory => ShelfFault::Memory,
        _ => ShelfFault::Failed,
    }
}

// A folder's whole name without links, or None where that is no text or too long.
fn real_folder(rt: &HostRuntime, folder: &str) -> Result<Option<PathBuf>, ShelfFault> {
    match fs::canonicalize(rt, folder) {
        Ok(full) => Ok(Some(full)),
        Err(e) if e.kind() == ErrorKind::InvalidFilename => Ok(None),
        Err(e) => Err(fault_of(&e)),
    }
}

// Whether an output may stand where its name says: on the way is no link of another user, and it
// stays below the folder of the run unless the operator lets it go anywhere.
fn may_stand(
    rt: &HostRuntime,
    name: &str,
    real: &Option<PathBuf>,
    anywhere: bool,
) -> Result<bool, ShelfFault> {
    let folder = folder_of(name);
    if has_link(rt, folder, true) {
        return Ok(false);
    }
    if anywhere {
        return Ok(true);
    }
    match (real, real_folder(rt, ".")?) {
        (Some(real), Some(base)) => Ok(real.as_path().starts_with(base.as_path())),
        _ => Ok(is_below(name) && !has_link(rt, folder, false)),
    }
}

// Whether a name goes down alone.
fn is_below(name: &str) -> bool {
    Path::new(name).is_relative() && !name.split('/').any(|part| part == "..")
}

// Whether a part of a folder's name is a link, or can't be looked at. Links of the system's own
// user and of the one for whom this runs may be trusted.
fn has_link(rt: &HostRuntime, folder: &str, trusts: bool) -> bool {
    for part in Path::new(folder).ancestors() {
        if part.as_str().is_empty() {
            continue;
        }
        match fs::symlink_metadata(rt, part) {
            Ok(it) if !it.is_symlink() => {}
            Ok(it) if trusts && is_trusted(rt, &it) => {}
            _ => return true,
        }
    }
    false
}

fn is_trusted(rt: &HostRuntime, link: &Metadata) -> bool {
    link.uid() == 0
        || match fs::metadata(rt, "/proc/self") {
            Ok(own) => own.uid() == link.uid(),
            Err(_) => false,
        }
}

// Whether an open file stands in this folder, as the system tells it. Where that isn't told, as
// without /proc, what was looked at before has to do.
fn stands_in(
    rt: &HostRuntime,
    alloc: Global,
    file: &File,
    real: &Option<PathBuf>,
) -> Result<bool, ShelfFault> {
    let Some(real) = real else {
        return Ok(true);
    };
    let number = file.as_raw_fd();
    let Ok(link) = format!(in alloc; "/proc/self/fd/{number}") else {
        return Err(ShelfFault::Memory);
    };
    match fs::read_link(rt, link.as_str()) {
        Ok(full) => Ok(full.as_path().parent() == Some(real.as_path())),
        Err(e) if e.kind() == ErrorKind::NotFound => Ok(true),
        Err(e) => Err(fault_of(&e)),
    }
}
