//! A queue.
ghost use Rattle.std.specs.Prelude.{◌≡◌, ◌<◌, ◌++◌, ◌∷◌, [], OnOk, Some, length, slice_get};
ghost use Rattle.exb_control.specs.Queues.{is_empty, first_in, after_first};

use exb_model::memory::NoMemory;
use std::alloc::Global;
use std::collections::VecDeque;
use std::marker::Model;

/// Items in the order in which they came.
#[derive(Drop)]
pub(crate) struct Queue<T> {
    items: VecDeque<T>,
}

impl<T> Model for Queue<T> {
    ghost use Rattle.std.specs.Prelude.{List};

    ghost Value = { List T };

    ghost view = { λ q. q.items.items };
}

impl<T> Queue<T> {
    /// Nothing waits.
    pub(crate) fn new(alloc: Global) -> Queue<T>
        ensures { result ≡ [] }
    {
        Queue {
            items: VecDeque::new(alloc),
        }
    }

    /// Puts an item at the end.
    pub(crate) fn push(&mut self, item: &T) -> Result<(), NoMemory>
    where
        T: Copy + Drop,
        ensures { OnOk result (self.new ≡ self.old ++ item.now ∷ []) }
    {
        self.items.push_back(*item)?;
        Ok(())
    }

    /// Whether nothing waits.
    pub(crate) fn is_empty(&self) -> bool
        ensures { result ≡ is_empty self.now }
    {
        self.items.is_empty()
    }

    /// How many items wait.
    pub(crate) fn len(&self) -> usize
        ensures { result ≡ length self.now }
    {
        self.items.len()
    }

    /// The item at a place.
    pub(crate) fn item(&self, place: usize) -> T
    where
        T: Copy,
        requires { place < length self.now }
        ensures { slice_get self.now place ≡ Some result }
    {
        self.items[place]
    }

    /// The item whose turn is next.
    pub(crate) fn first(&self) -> Option<T>
    where
        T: Copy,
        ensures { result ≡ first_in self.now }
    {
        self.items.front().copied()
    }

    /// Takes that item away.
    pub(crate) fn remove_first(&mut self)
    where
        T: Drop,
        ensures { self.new ≡ after_first self.old }
    {
        let _ = self.items.pop_front();
    }
}
