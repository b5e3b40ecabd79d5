//! Worked cases of the definitions, and reading in pieces as reading the whole. Each law is a
//! function that does nothing and ensures it.
ghost use Rattle.std.specs.Prelude.{◌≡◌, ℕ, List, Option, Result};
ghost use Rattle.exb_capture.specs.Captures.{EachIsRead};
ghost use Rattle.exb_capture.specs.Laws.{AnswersComeFirst, AreFormats, MoreStaysOpen, ReadAsTheWhole, RowsAreRead, WrittenIsRead};
ghost use Rattle.exb_capture.specs.declared.scans.Scanned.{Scanned};
ghost use Rattle.exb_capture.specs.declared.scans.ScanFault.{ScanFault};
ghost use Rattle.exb_capture.specs.Scans.{IsScan, IsOfFile};

/// The capture of 140 bytes has one record, of 100 seconds; with byte 56 changed it names no
/// interface, without its last byte it is cut off; and the empty file has no record and no fault.
/// Further cases of the table of faults follow.
pub fn rows_are_read()
    ensures { RowsAreRead }
{}

/// Classic pcap, pcapng, and the two behind the first bytes of a file are formats: what stands at a
/// front stands whatever follows.
pub fn formats_are_formats()
    ensures { AreFormats }
{}

/// However a file is cut into pieces, and whatever is asked between them, the answers other than
/// More are those of the whole file: its records in their order, then End or the first fault, again
/// and again.
pub fn pieces_are_read_as_the_whole()
    ensures { ReadAsTheWhole }
{}

/// Before the end is told, More is answered exactly where no record and no fault stands for every
/// continuation of what was fed.
pub fn more_is_answered_where_nothing_stands()
    ensures { MoreStaysOpen }
{}

/// What a reader answers comes first of what it still gives, for every continuation of what it was
/// fed; and More comes only before the end is told, and leaves room.
pub fn answers_come_first()
    ensures { AnswersComeFirst }
{}

/// A file that begins with the first bytes of pcapng is read as that, every other as classic pcap.
pub fn each_is_read()
    ensures { EachIsRead }
{}

/// What is written is read again: the same frames, at the same moments cut down to whole
/// microseconds.
pub fn written_is_read()
    ensures { WrittenIsRead }
{}

/// Of a file there is one answer, where neither the shelf failed nor memory ran out.
pub fn one_answer()
    ensures { (limit : ℕ) (file : Option (List ℕ)) (a b : Result Scanned ScanFault)
        → IsScan limit file a → IsScan limit file b → IsOfFile a → IsOfFile b → a ≡ b }
{}
