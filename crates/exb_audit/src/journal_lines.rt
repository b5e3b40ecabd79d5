//! The lines of a journal: whether a text is one, and the record that it names.
ghost use Rattle.std.specs.Prelude.{◌≡◌, ◌||◌, codes, is_some};
ghost use Rattle.std.specs.Str.{bytes_eq};
ghost use Rattle.exb_model.specs.declared.event.Cause.{Cause};
ghost use Rattle.exb_trace_spec.specs.JournalLines.{cause_in, entry_in, refused_in, simple_in};
ghost use Rattle.exb_audit.specs.LineWords.{is_arrival_entry, is_long_entry, IsNamed, IsNamedBy};

use crate::line_words::{first_word, is_number, number, port};

/// The record that a line of a journal names: the number of its port, and its index, from 1.
#[derive(Clone, Copy)]
pub(crate) struct RecordName {
    pub(crate) port: u16,
    pub(crate) index: u64,
}

/// Whether two words make a line: a tick, a command that is in force, or a port that rose.
fn is_simple(kind: &[u8], what: &[u8]) -> bool
    ensures { result ≡ is_some (simple_in kind.now what.now) }
{
    if kind == b"tick".as_slice() {
        return is_number(what);
    }
    if kind == b"commit".as_slice() {
        return is_number(what);
    }
    kind == b"up".as_slice() && port(what).is_some()
}

/// Whether three words make a line: a record that was relayed or ignored.
fn is_arrival(kind: &[u8], at: &[u8], index: &[u8]) -> bool
    ensures { result ≡ is_arrival_entry kind.now at.now index.now }
{
    if port(at).is_none() {
        return false;
    }
    if !is_number(index) {
        return false;
    }
    kind == b"relay".as_slice() || kind == b"ignore".as_slice()
}

/// Whether two words say what was refused: a command, or a port that stayed down.
fn is_refused(kind: &[u8], what: &[u8]) -> bool
    ensures { (x : Cause) → result ≡ is_some (refused_in kind.now what.now x) }
{
    if kind == b"refuse".as_slice() {
        return is_number(what);
    }
    kind == b"noup".as_slice() && port(what).is_some()
}

/// Whether three words say why: what was needed, and of what there is no more.
fn is_cause(reason: &[u8], needed: &[u8], limit: &[u8]) -> bool
    ensures { result ≡ is_some (cause_in reason.now needed.now limit.now) }
{
    if !is_number(needed) {
        return false;
    }
    if !is_number(limit) {
        return false;
    }
    reason == b"channels".as_slice() || reason == b"groups".as_slice()
}

/// Whether three words and what stands behind them make a line of five.
fn is_long(kind: &[u8], what: &[u8], reason: &[u8], rest: &[u8]) -> bool
    ensures { result ≡ is_long_entry kind.now what.now reason.now rest.now }
{
    let (needed, rest) = first_word(rest);
    let Some(rest) = rest else {
        return false;
    };
    let (limit, rest) = first_word(rest);
    if rest.is_some() {
        return false;
    }
    if !is_cause(reason, needed, limit) {
        return false;
    }
    is_refused(kind, what)
}

/// Whether it is a line of a journal, without its newline.
pub fn is_entry(line: &[u8]) -> bool
    ensures { result ≡ is_some (entry_in line.now) }
{
    let (kind, rest) = first_word(line);
    let Some(rest) = rest else {
        return kind == b"settled".as_slice();
    };
    let (what, rest) = first_word(rest);
    let Some(rest) = rest else {
        return is_simple(kind, what);
    };
    let (third, rest) = first_word(rest);
    match rest {
        Some(rest) => is_long(kind, what, third, rest),
        None => is_arrival(kind, what, third),
    }
}

/// Whether a line that begins with a word says what became of a record.
fn is_of_record(kind: &[u8]) -> bool
    ensures { result ≡ (bytes_eq kind.now (codes "relay") || bytes_eq kind.now (codes "ignore")) }
{
    kind == b"relay".as_slice() || kind == b"ignore".as_slice()
}

/// The port and index that two words name.
fn named_by(at: &[u8], index: &[u8]) -> Option<RecordName>
    ensures { IsNamedBy at.now index.now result }
{
    let port = port(at)?;
    let index = number(index)?;
    Some(RecordName { port, index })
}

/// The record that a line of a journal names; none where it names none, or one of a number that no
/// record has.
pub(crate) fn record_in(line: &[u8]) -> Option<RecordName>
    ensures { IsNamed line.now result }
{
    let (kind, rest) = first_word(line);
    let Some(rest) = rest else {
        return None;
    };
    let (at, rest) = first_word(rest);
    let Some(rest) = rest else {
        return None;
    };
    let (index, rest) = first_word(rest);
    if rest.is_some() {
        return None;
    }
    if !is_of_record(kind) {
        return None;
    }
    named_by(at, index)
}
