//! Lines of the journal.
ghost use Rattle.std.specs.Prelude.{◌≡◌, ◌∷◌, ◌++◌, [], Some, flat_map, IfOk, IfSome, OnOk, OnErr, string_bytes};
ghost use Rattle.exb_model.specs.Texts.{line_of, cause_text};

use crate::PortName;
use crate::frame_lines::{ROOM, last_line, quick_lines};
use exb_model::event::{Cause, Event};
use exb_model::memory::NoMemory;
use std::alloc::Global;
use std::fmt;
use std::fmt::Write;

/// An event that prints as its line of the journal, without the newline.
#[derive(Clone, Copy)]
pub struct EventLine<'a>(pub &'a Event);

impl fmt::Display for EventLine<'_> {
    ghost output = { λ line. Some (line_of line.0.now) };

    #[tactic(auto, unfolding(exb_model::specs::Texts::line_of))]
    fn fmt<W: fmt::Write>(&self, f: &mut fmt::Formatter<W>) -> fmt::Result {
        match self.0 {
            Event::Relay { port, index, .. } => write!(f, "relay {} {index}", PortName(*port)),
            Event::Ignored { port, index } => write!(f, "ignore {} {index}", PortName(*port)),
            Event::Tick { seconds } => write!(f, "tick {seconds}"),
            Event::Commit { number } => write!(f, "commit {number}"),
            Event::Refuse { number, cause } => write!(f, "refuse {number}{}", CauseText(*cause)),
            Event::Up { port } => write!(f, "up {}", PortName(*port)),
            Event::NoUp { port, cause } => {
                write!(f, "noup {}{}", PortName(*port), CauseText(*cause))
            }
            Event::Settled => f.write_str("settled"),
        }
    }
}

// The cause of a refusal, as the end of a line.
#[derive(Clone, Copy)]
struct CauseText(Cause);

impl fmt::Display for CauseText {
    ghost output = { λ text. Some (cause_text text.0) };

    fn fmt<W: fmt::Write>(&self, f: &mut fmt::Formatter<W>) -> fmt::Result {
        match self.0 {
            Cause::Channels { needed, limit } => write!(f, " channels {needed} {limit}"),
            Cause::Groups { needed, limit } => write!(f, " groups {needed} {limit}"),
        }
    }
}

/// Puts the line of an event, with its newline, at the end of a text, by the formatter. Where
/// memory runs out, the text stays as it was.
pub fn write_line(text: &mut String, event: &Event) -> Result<(), NoMemory>
    ensures ok { OnOk result (string_bytes text.new ≡ string_bytes text.old ++ line_of event.now
        ++ 10 ∷ []) }
    ensures err { OnErr result (string_bytes text.new ≡ string_bytes text.old) }
{
    let line = format!(in *text.allocator(); "{}\n", EventLine(event))?;
    Ok(text.push_str(line.as_str())?)
}

/// Room for lines of the journal, which is kept from line to line.
#[derive(Drop)]
pub struct JournalScratch {
    /// Lines that come with frames are written from their end.
    quick: [u8; ROOM],
    /// Any other line is written by the formatter.
    text: String,
}

/// The line of any event, with its newline, by the formatter.
#[cold]
#[inline(never)]
fn formatted<'a>(text: &'a mut String, event: &Event) -> Result<&'a [u8], NoMemory>
    ensures { IfOk result (λ line. line.now ≡ line_of event.now ++ 10 ∷ []) }
{
    text.clear();
    write_line(text, event)?;
    Ok(text.as_bytes())
}

impl JournalScratch {
    /// Room that grows with what the formatter writes there.
    pub fn new(alloc: Global) -> JournalScratch {
        JournalScratch {
            quick: [0; ROOM],
            text: String::new(alloc),
        }
    }

    /// The lines of events, each with its newline, where all are such as come with a frame and
    /// there is room for them.
    #[inline(always)]
    pub fn lines(&mut self, events: &[Event]) -> Option<&[u8]>
        ensures { IfSome result (λ lines. lines.now ≡ flat_map (λ e. line_of e ++ 10 ∷ [])
            events.now) }
    {
        match quick_lines(&mut self.quick, events) {
            Some(start) => {
                let room = &*self;
                Some(&room.quick[start..])
            }
            None => None,
        }
    }

    /// The line of an event, with its newline.
    pub fn line(&mut self, event: &Event) -> Result<&[u8], NoMemory>
        ensures { IfOk result (λ line. line.now ≡ line_of event.now ++ 10 ∷ []) }
    {
        match last_line(&mut self.quick, event) {
            Some(start) => {
                let room = &*self;
                Ok(&room.quick[start..])
            }
            None => formatted(&mut self.text, event),
        }
    }
}
