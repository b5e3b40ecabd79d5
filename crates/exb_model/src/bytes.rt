//! Bytes, and numbers among them.
ghost use Rattle.std.specs.Prelude.{◌≡◌, ◌+◌, ◌≤◌, ◌<◌, ◌++◌, length, take, drop, IfOk};
ghost use Rattle.exb_model.specs.Frames.{IsBytes, number_at};

use crate::memory::NoMemory;
use std::alloc::Global;
use std::marker::Model;

/// The most bytes that a frame has.
pub const LONGEST_FRAME: u32 = 262_144;

/// That the members of a slice are bytes, as a fact for whoever calls it. It does nothing.
pub fn are_bytes(bytes: &[u8])
    ensures { IsBytes bytes.now }
{
    let _ = bytes;
}

/// The 16 bits at a place, the higher byte first.
pub fn number_at(bytes: &[u8], at: usize) -> u16
    requires { at + 1 < length bytes.now }
    ensures { result ≡ number_at bytes.now at }
{
    u16::from_be_bytes([bytes[at], bytes[at + 1]])
}

/// Bytes with room in front, seen as the list of them: what is taken out near the front moves the
/// few bytes before it, and not the many behind it.
#[derive(Drop)]
pub struct Bytes {
    /// What is in front of the first byte has no meaning.
    items: Vec<u8>,
    /// Where the first byte stands.
    start: usize,
}

impl Model for Bytes {
    ghost use Rattle.std.specs.Prelude.{ℕ, ◌≤◌, List, length, drop};

    ghost Value = { List ℕ };

    ghost view = { λ b. drop b.start b.items.items };

    ghost invariant = { λ b. b.start ≤ length b.items.items };
}

impl Bytes {
    /// A copy of the bytes.
    pub fn from_slice(alloc: Global, bytes: &[u8]) -> Result<Bytes, NoMemory>
        ensures { IfOk result (λ made. made ≡ bytes.now) }
    {
        Ok(Bytes {
            items: Vec::from_slice(alloc, bytes)?,
            start: 0,
        })
    }

    /// The bytes.
    #[inline(always)]
    pub fn as_slice(&self) -> &[u8]
        ensures { result.now ≡ self.now }
    {
        &self.items[self.start..]
    }

    /// Bytes that a buffer holds. Nothing is copied.
    pub fn from_vec(items: Vec<u8>) -> Bytes
        ensures { result ≡ items.items }
    {
        Bytes { items, start: 0 }
    }

    /// Takes `count` bytes out at place `at`: those before it move up, and nothing behind it is
    /// touched.
    #[inline(always)]
    pub fn take_out(&mut self, at: usize, count: usize)
        requires inside { at + count ≤ length self.old }
        ensures { self.new ≡ take at self.old ++ drop (at + count) self.old }
    {
        let start = self.start + count;
        self.items.copy_within(self.start..self.start + at, start);
        self.start = start;
    }

    /// The buffer that holds the bytes, to be written anew: what it holds has no meaning.
    pub fn into_buffer(self) -> Vec<u8> {
        self.items
    }
}
