//! Buffers and boxes that are kept, so that a word on a link and a frame that leaves ask for no
//! memory where one that is gone had some.
ghost use Rattle.std.specs.Prelude.{◌≡◌, IfOk};

use exb_link::{BoxedFrame, LinkFrame, Stamp};
use exb_model::bytes::Bytes;
use exb_model::memory::NoMemory;
use std::alloc::Global;

/// The most buffers, and the most boxes, that are kept. Each is of a word, so it has room for some
/// ten thousand bytes at most.
const MOST: usize = 1024;

/// Buffers and boxes of words that are gone. What they hold has no meaning.
pub struct FreeList {
    kept: Vec<Vec<u8>>,
    boxes: Vec<BoxedFrame>,
}

impl Drop for FreeList {
    fn drop(self) {
        let FreeList { kept: _, boxes: _ } = self;
    }
}

impl FreeList {
    /// None are kept.
    pub fn new(alloc: Global) -> FreeList {
        FreeList {
            kept: Vec::new(alloc),
            boxes: Vec::new(alloc),
        }
    }

    /// A buffer to be written anew: one that was kept, or else one without room.
    #[inline(always)]
    pub fn buffer(&mut self, alloc: Global) -> Vec<u8> {
        match self.kept.pop() {
            Some(buffer) => buffer,
            None => Vec::new(alloc),
        }
    }

    /// A copy of bytes, in a buffer that was kept where there is one.
    #[inline(always)]
    pub fn copy(&mut self, alloc: Global, bytes: &[u8]) -> Result<Bytes, NoMemory>
        ensures { IfOk result (λ made. made ≡ bytes.now) }
    {
        let mut buffer = self.buffer(alloc);
        buffer.clear();
        buffer.extend_from_slice(bytes)?;
        Ok(Bytes::from_vec(buffer))
    }

    /// Keeps the buffer of bytes that nobody needs, unless enough are kept or there is no memory to
    /// note it.
    #[inline(always)]
    pub fn keep(&mut self, bytes: Bytes) {
        if self.kept.len() < MOST {
            match self.kept.reserve(1) {
                Ok(()) => self.kept.push_reserved(bytes.into_buffer()),
                Err(_) => {}
            }
        }
    }

    /// A word in a box: one that was kept, or else a new one.
    #[inline(always)]
    pub fn boxed(
        &mut self,
        alloc: Global,
        bytes: Bytes,
        stamp: Option<Stamp>,
    ) -> Result<BoxedFrame, NoMemory>
        ensures { IfOk result (λ boxed. boxed ≡ record { bytes = bytes; stamp = stamp }) }
    {
        match self.boxes.pop() {
            Some(mut boxed) => {
                boxed.fill(bytes, stamp);
                Ok(boxed)
            }
            None => BoxedFrame::new(alloc, LinkFrame { bytes, stamp }),
        }
    }

    /// Takes the bytes of a word out of its box, which is kept unless enough are kept or there is
    /// no memory to note it.
    #[inline(always)]
    pub fn unboxed(&mut self, alloc: Global, mut boxed: BoxedFrame) -> Bytes
        ensures { result ≡ boxed.bytes }
    {
        let bytes = boxed.take_bytes(alloc);
        if self.boxes.len() < MOST {
            match self.boxes.reserve(1) {
                Ok(()) => self.boxes.push_reserved(boxed),
                Err(_) => {}
            }
        }
        bytes
    }

    /// Keeps the box and the buffer of a word that nobody needs.
    #[inline(always)]
    pub fn keep_word(&mut self, alloc: Global, boxed: BoxedFrame) {
        let bytes = self.unboxed(alloc, boxed);
        self.keep(bytes);
    }
}
