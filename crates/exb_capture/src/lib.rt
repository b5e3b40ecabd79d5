//! Captures of Ethernet frames: classic pcap and pcapng behind one small contract of a format, read
//! in pieces from memory or from a shelf, and classic pcap as it is written. Upwards it promises
//! that what is told and given of a capture is what its format reads of the whole file, however it
//! is cut: its records in order, and then its end or its first fault at its place; and that what is
//! written is read again. It stands on `exb_shelf`, `exb_model` and `arrayvec`.
#![tactic(auto)]

mod block;
mod byte_order;
mod capture_file;
mod classic;
mod fault;
mod format;
pub mod laws;
mod pcapng;
mod reader;
mod replay;
mod scans;
mod writer;

pub use block::{BlockContent, BlockHeader, Interface};
pub use byte_order::ByteOrder;
pub use capture_file::{CaptureFile, Halt};
pub use classic::{ClassicEncoding, ClassicFormat, Resolution};
pub use fault::{Flaw, FormatFault};
pub use format::{AnyFormat, Format, Front, RecordSpan};
pub use pcapng::PcapngFormat;
pub use reader::{Ahead, Reader};
pub use replay::{Replay, ReplayFault};
pub use scans::{ScanFault, Scanned, scan};
pub use writer::{header_text, record_text};
