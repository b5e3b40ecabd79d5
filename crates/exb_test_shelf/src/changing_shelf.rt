//! Files of which one changes.
ghost use Rattle.exb_test_shelf.specs.DisturbedFiles.{changing_faults, changing_ids, untold};

use exb_model::memory::NoMemory;
use exb_shelf::{OpenFault, ScratchShelf, Shelf, ShelfFault};
use std::alloc::Global;

/// Files in memory, of which one is another one from the second time on that it is opened. It
/// doesn't tell what its files hold.
#[derive(Drop)]
pub struct ChangingShelf {
    kept: ScratchShelf,
    name: String,
    again: Vec<u8>,
    opened: bool,
}

impl ChangingShelf {
    /// A shelf with no file. When the file of this name is opened again, these bytes stand there.
    pub fn new(alloc: Global, name: &str, again: &[u8]) -> Result<ChangingShelf, NoMemory> {
        Ok(ChangingShelf {
            kept: ScratchShelf::new(alloc),
            name: String::from_str(alloc, name)?,
            again: again.to_vec(alloc)?,
            opened: false,
        })
    }

    /// Puts a file there, in the place of one of the same name. It counts as no call.
    pub fn put(&mut self, name: &str, bytes: &[u8]) -> Result<(), NoMemory> {
        self.kept.put(name, bytes)
    }

    /// What the file of this name holds, and None where it is not there.
    pub fn file(&self, name: &str) -> Option<&[u8]> {
        self.kept.file(name)
    }
}

impl Shelf for ChangingShelf {
    ghost tells = { ⊥ };

    ghost file = { untold };

    ghost ids = { changing_ids };

    ghost faults = { changing_faults };

    fn open(&mut self, name: &str) -> Result<u32, OpenFault> {
        let own = name == self.name.as_str();
        if own && self.opened && self.kept.put(name, self.again.as_slice()).is_err() {
            return Err(OpenFault::Memory);
        }
        self.opened = self.opened || own;
        self.kept.open(name)
    }

    fn read(&mut self, id: u32, into: &mut [u8]) -> Result<usize, ShelfFault> {
        self.kept.read(id, into)
    }

    fn create(&mut self, name: &str) -> Result<u32, ShelfFault> {
        self.kept.create(name)
    }

    fn write(&mut self, id: u32, bytes: &[u8]) -> Result<usize, ShelfFault> {
        self.kept.write(id, bytes)
    }

    fn finish(&mut self) -> Result<(), ShelfFault> {
        self.kept.finish()
    }
}
