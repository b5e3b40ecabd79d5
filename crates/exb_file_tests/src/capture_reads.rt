//! What is read of a capture in pieces: moment and length of each record, and the fault where one
//! comes.
use crate::compare::holds;
use exb_capture::{Ahead, AnyFormat, FormatFault, Reader};
use std::alloc::Global;
use std::process::Abort;

/// What is read of a file.
#[derive(Drop)]
struct ReadResult<'a> {
    alloc: Global,
    file: &'a [u8],
    text: String,
}

impl<'a> ReadResult<'a> {
    fn new(alloc: Global, file: &'a [u8]) -> ReadResult<'a> {
        ReadResult {
            alloc,
            file,
            text: String::new(alloc),
        }
    }

    fn put(&mut self, rt: &impl Abort, text: &str) {
        self.text.push_str(text).expect(rt, "memory");
    }

    fn put_fault(&mut self, rt: &impl Abort, fault: FormatFault) {
        let FormatFault { flaw, at } = fault;
        let told = format!(in self.alloc; "{flaw:?}({at})").expect(rt, "memory");
        self.put(rt, told.as_str());
    }

    // Whether these bytes stand so many behind a place.
    fn stands(&self, place: usize, head: usize, bytes: &[u8]) -> bool {
        let start = place.saturating_add(head);
        self.file.get(start..).unwrap_or(&[]).starts_with(bytes)
    }

    // The bytes of a record that begins here have to stand behind its head, which is that of a
    // classic one or of an enhanced packet.
    fn put_record(&mut self, rt: &impl Abort, place: usize, moment: u64, bytes: &[u8]) {
        let stands = self.stands(place, 16, bytes) || self.stands(place, 28, bytes);
        holds(rt, stands, "the bytes of a record");
        let length = bytes.len();
        let record = format!(in self.alloc; "{moment} {length}; ").expect(rt, "memory");
        self.put(rt, record.as_str());
    }

    // Puts what a reader answers up to More, the end or a fault; true where it is More.
    fn put_answers(
        &mut self,
        rt: &impl Abort,
        reader: &mut Reader<AnyFormat>,
        ended: bool,
    ) -> bool {
        for _answer in 0..9u32 {
            match reader.advance(ended) {
                Ok(Ahead::Record(seen)) => {
                    let place = reader.begun() as usize;
                    let frame = reader.frame(seen.from, seen.bytes);
                    self.put_record(rt, place, seen.moment, frame);
                }
                Ok(Ahead::More) => return true,
                Ok(Ahead::End) => return false,
                Err(fault) => {
                    self.put_fault(rt, fault);
                    return false;
                }
            }
        }
        false
    }

    // Puts what is answered of the file in pieces of so many bytes, where it is asked behind each,
    // and once more when the end is told.
    fn put_sized(&mut self, rt: &impl Abort, reader: &mut Reader<AnyFormat>, size: usize) {
        let mut left = self.file;
        for _piece in 0..9_999u32 {
            if !self.put_answers(rt, reader, false) {
                return;
            }
            if left.is_empty() {
                let open = self.put_answers(rt, reader, true);
                return holds(rt, !open, "an answer at the end");
            }
            left = feed(rt, reader, left, size);
        }
    }
}

// Feeds at most so many bytes, and answers what is left of them.
fn feed<'a>(
    rt: &impl Abort,
    reader: &mut Reader<AnyFormat>,
    left: &'a [u8],
    size: usize,
) -> &'a [u8] {
    let piece = left.get(..size).unwrap_or(left);
    let taken = reader.feed(piece) as usize;
    holds(rt, taken > 0, "room");
    left.get(taken..).unwrap_or(&[])
}

fn reader_of(rt: &impl Abort, alloc: Global) -> Reader<AnyFormat> {
    Reader::new(alloc, AnyFormat::Unknown).expect(rt, "memory")
}

/// What is answered of a file in pieces of so many bytes.
pub(crate) fn sized_text(rt: &impl Abort, alloc: Global, file: &[u8], size: usize) -> String {
    let mut told = ReadResult::new(alloc, file);
    told.put_sized(rt, &mut reader_of(rt, alloc), size);
    told.text
}

/// What is answered of the front of a file before it is told that this is the end.
pub(crate) fn front_text(rt: &impl Abort, alloc: Global, front: &[u8]) -> String {
    let mut told = ReadResult::new(alloc, front);
    let mut reader = reader_of(rt, alloc);
    holds(rt, reader.feed(front) as usize == front.len(), "room");
    if told.put_answers(rt, &mut reader, false) {
        told.put(rt, "More");
    }
    told.text
}
