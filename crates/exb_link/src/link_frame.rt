//! What a link carries.
ghost use Rattle.std.specs.Prelude.{◌≡◌, ◌+◌, ◌≤◌, ◌++◌, length, take, drop, IfOk};

use exb_model::address::is_control_frame;
use exb_model::bytes::Bytes;
use exb_model::memory::NoMemory;
use exb_model::port::PortId;
use std::alloc::Global;
use std::marker::Model;
use std::mem;

/// The record by which a data word came in: its port, its index there, numbered from 1, and its
/// time in nanoseconds. No rule reads it.
#[derive(Clone, Copy)]
pub struct Stamp {
    pub port: PortId,
    pub index: u64,
    pub moment: u64,
}

/// A frame on a link. A data word has the stamp of its record.
#[derive(Drop)]
pub struct LinkFrame {
    pub bytes: Bytes,
    pub stamp: Option<Stamp>,
}

/// A word in a box of its own, so that eight bytes go from queue to queue. It is seen as the word.
#[derive(Drop)]
pub struct BoxedFrame {
    word: Box<LinkFrame>,
}

impl Model for BoxedFrame {
    ghost use Rattle.exb_link.specs.declared.link_frame.LinkFrame.{LinkFrame};

    ghost Value = { LinkFrame };

    ghost view = { λ b. b.word.value };
}

impl BoxedFrame {
    ghost use Rattle.exb_link.specs.LinkFrames.{is_control};

    /// Puts a word into a new box.
    pub fn new(alloc: Global, word: LinkFrame) -> Result<BoxedFrame, NoMemory>
        ensures { IfOk result (λ made. made ≡ word) }
    {
        Ok(BoxedFrame {
            word: Box::new(alloc, word)?,
        })
    }

    /// The bytes of its frame.
    #[inline(always)]
    pub fn bytes(&self) -> &[u8]
        ensures { result.now ≡ self.now.bytes }
    {
        self.word.bytes.as_slice()
    }

    /// The stamp of its record; None of a control word.
    #[inline(always)]
    pub fn stamp(&self) -> Option<Stamp>
        ensures { result ≡ self.now.stamp }
    {
        self.word.stamp
    }

    /// Whether it is a control word: its destination is 01-80-C2-00-00-0E. Every other word is a
    /// data word.
    #[inline(always)]
    pub fn is_control(&self) -> bool
        ensures { result ≡ is_control self.now }
    {
        is_control_frame(self.bytes())
    }

    /// Takes `count` bytes of its frame out at place `at`: those before it move up, and nothing
    /// behind it is touched.
    #[inline(always)]
    pub fn take_out(&mut self, at: usize, count: usize)
        requires inside { at + count ≤ length self.old.bytes }
        ensures bytes { self.new.bytes ≡ take at self.old.bytes ++ drop (at + count)
            self.old.bytes }
        ensures stamp { self.new.stamp ≡ self.old.stamp }
    {
        self.word.bytes.take_out(at, count);
    }

    /// Puts another word into the box.
    #[inline(always)]
    pub fn fill(&mut self, bytes: Bytes, stamp: Option<Stamp>)
        ensures bytes { self.new.bytes ≡ bytes }
        ensures stamp { self.new.stamp ≡ stamp }
    {
        self.word.bytes = bytes;
        self.word.stamp = stamp;
    }

    /// Takes the bytes of its frame out; none are left in the box.
    #[inline(always)]
    pub fn take_bytes(&mut self, alloc: Global) -> Bytes
        ensures { result ≡ self.old.bytes }
    {
        mem::replace(&mut self.word.bytes, Bytes::from_vec(Vec::new(alloc)))
    }
}
