//! What passes on the links, and what happens, as lines of a trace.
use crate::bytes::Bytes;
use std::marker::Model;

/// What a line of a trace says.
#[derive(Clone, Copy)]
pub enum TraceWay {
    /// A frame comes in.
    In,
    /// A frame goes out.
    Out,
    /// A beat passes.
    Beat,
    /// A line of the journal.
    Journal,
}

/// A line of a trace. `who` is 0 for the bridge, else an extender's number; `side` is 0 for
/// upstream, else a port's number. Both are 0 in a beat, whose `bytes` are none, and in a line of
/// the journal, whose `bytes` are its text without a newline.
#[derive(Drop)]
pub struct TraceLine {
    pub who: u8,
    pub way: TraceWay,
    pub side: u8,
    pub bytes: Bytes,
}

impl Model for TraceLine {
    ghost use Rattle.exb_model.specs.Traces.{TraceLine as Line, line_by};

    ghost Value = { Line };

    ghost view = { λ l. line_by l.way l.who l.side l.bytes };
}
