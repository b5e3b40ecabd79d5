//! Runs over a fate that does as it is armed to.
use exb_run::run_armed;
use exb_shelf::{Shelf, Sink};
use std::alloc::Global;
use std::process::Abort;

// The words of a text.
fn words_of(rt: &impl Abort, alloc: Global, text: &str) -> Vec<String> {
    let mut words = Vec::new(alloc);
    for word in text.split_whitespace() {
        let word = String::from_str(alloc, word).expect(rt, "memory");
        words.push(word).expect(rt, "memory");
    }
    words
}

/// Plays the words of a text, and answers the status.
pub(crate) fn play<S: Shelf, O: Sink>(
    rt: &impl Abort,
    alloc: Global,
    text: &str,
    shelf: &mut S,
    out: &mut O,
) -> u8 {
    let words = words_of(rt, alloc, text);
    run_armed(alloc, words.as_slice(), shelf, out).expect(rt, "memory")
}
