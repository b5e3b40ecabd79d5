//! The files that a shelf must not make, whatever names they have.

use std::alloc::{AllocError, Global};
use std::collections::HashSet;
use std::fs;
use std::fs::Metadata;
use std::io::ErrorKind;
use std::os::unix::fs::MetadataExt;

/// A file as the system tells it from others. All its names lead to the same one.
#[derive(Clone, Copy, PartialEq, Eq, Hash)]
pub(crate) struct Inode {
    device: u64,
    number: u64,
}

impl Inode {
    /// Which file this is.
    pub(crate) fn of(file: &Metadata) -> Inode {
        Inode {
            device: file.dev(),
            number: file.ino(),
        }
    }
}

/// Files that were opened to be read, and those that were made already.
///
/// A file that was opened is kept by its full name too: another may stand at its name by now, and
/// some disks number their files anew.
#[derive(Drop)]
pub(crate) struct ProtectedFiles {
    nodes: HashSet<Inode>,
    names: HashSet<String>,
}

impl ProtectedFiles {
    /// None.
    pub(crate) fn new(alloc: Global) -> ProtectedFiles {
        ProtectedFiles {
            nodes: HashSet::new(alloc),
            names: HashSet::new(alloc),
        }
    }

    /// Makes room for one more.
    pub(crate) fn reserve(&mut self) -> Result<(), AllocError> {
        self.nodes.reserve(1)
    }

    /// Adds a file that is made.
    pub(crate) fn add(&mut self, file: &Metadata) -> Result<(), AllocError> {
        self.nodes.insert(Inode::of(file))?;
        Ok(())
    }

    /// Adds a file that is opened by this name. Where the system tells no full name, as in a folder
    /// whose name is no text, its node alone is kept.
    pub(crate) fn add_read(
        &mut self,
        rt: &HostRuntime,
        name: &str,
        file: &Metadata,
    ) -> Result<(), AllocError> {
        self.add(file)?;
        match fs::canonicalize(rt, name) {
            Ok(full) => {
                self.names.insert(full.into_string())?;
                Ok(())
            }
            Err(e) if e.kind() == ErrorKind::OutOfMemory => Err(AllocError),
            Err(_) => Ok(()),
        }
    }

    /// Whether what stands at a name may be made: it is a file of one name, none of these, and not
    /// the one to which standard output goes.
    pub(crate) fn allows(&self, rt: &HostRuntime, name: &str, file: &Metadata) -> bool {
        let node = Inode::of(file);
        file.is_file()
            && file.nlink() <= 1
            && !self.nodes.contains(&node)
            && !self.has_name(rt, name)
            && !is_printed(rt, node)
    }

    fn has_name(&self, rt: &HostRuntime, name: &str) -> bool {
        match fs::canonicalize(rt, name) {
            Ok(full) => self.names.contains(full.as_path().as_str()),
            Err(_) => false,
        }
    }
}

// Whether standard output goes to this file.
fn is_printed(rt: &HostRuntime, node: Inode) -> bool {
    match fs::metadata(rt, "/dev/stdout") {
        Ok(out) => Inode::of(&out) == node,
        Err(_) => false,
    }
}
