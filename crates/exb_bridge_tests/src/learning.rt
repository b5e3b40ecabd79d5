//! What is learned, aged and forgotten, second by second: an ageing time, and behind `:` steps with
//! a semicolon between them. An address is named by its VLAN and its last byte, a port by its
//! number.
//!
//! - `see V A P`: an address is seen at a port; `tick S`: seconds go by; `forget P`: a port is
//! forgotten
//! - `find V A P`: an address is found at a port; `miss V A`: it isn't found; `held N`: so many
//! entries are held
ghost use Rattle.std.specs.Prelude.{◌≡◌, false};
ghost use Rattle.exb_model.specs.Frames.{is_group};

use exb_learn::Learned;
use exb_model::address::Mac;
use exb_model::port::PortId;
use exb_model::vlan::Vid;
use std::alloc::Global;
use std::process::Abort;
use std::str::SplitWhitespace;

fn address(last: u8) -> Mac
    ensures { is_group result.0 ≡ false }
{
    Mac([2, 0, 0, 0, 0, last])
}

// The next word, which is a number below 256.
fn byte(rt: &impl Abort, words: &mut SplitWhitespace<'_>) -> u8 {
    let word = words.next().expect(rt, "a word");
    word.parse::<u8>().expect(rt, "a number below 256")
}

fn vid(rt: &impl Abort, words: &mut SplitWhitespace<'_>) -> Vid {
    Vid::new(u16::from(byte(rt, words))).expect(rt, "a VLAN from 1 to 4094")
}

fn port(rt: &impl Abort, words: &mut SplitWhitespace<'_>) -> PortId {
    PortId::new(u16::from(byte(rt, words))).expect(rt, "a port below 4160")
}

// An address is seen.
fn see(rt: &impl Abort, learned: &mut Learned, words: &mut SplitWhitespace<'_>) {
    let vid = vid(rt, words);
    let last = byte(rt, words);
    learned.reserve().expect(rt, "memory");
    learned.see(vid, address(last), port(rt, words));
}

// Seconds go by.
fn tick(rt: &impl Abort, learned: &mut Learned, seconds: u8) {
    assert!(rt; learned.clock() < 1000);
    learned.tick(u32::from(seconds));
}

// The number of the port at which an address was seen.
fn look(rt: &impl Abort, learned: &Learned, words: &mut SplitWhitespace<'_>) -> Option<u16> {
    let vid = vid(rt, words);
    match learned.look(vid, address(byte(rt, words))) {
        Some(port) => Some(port.number()),
        None => None,
    }
}

// Whether the table is as a step wants it.
fn is_so(rt: &impl Abort, learned: &Learned, verb: &str, words: &mut SplitWhitespace<'_>) -> bool {
    match verb {
        "find" => look(rt, learned, words) == Some(port(rt, words).number()),
        "miss" => look(rt, learned, words).is_none(),
        _ => learned.held() == u64::from(byte(rt, words)),
    }
}

// Does a step; whether what it looks for is found.
fn does(rt: &impl Abort, learned: &mut Learned, step: &str) -> bool {
    let mut words = step.split_whitespace();
    let verb = words.next().expect(rt, "a step");
    match verb {
        "see" => see(rt, learned, &mut words),
        "tick" => tick(rt, learned, byte(rt, &mut words)),
        "forget" => learned.forget(port(rt, &mut words)),
        _ => return is_so(rt, learned, verb, &mut words),
    }
    true
}

// Does the steps one after another.
fn walk(rt: &impl Abort, learned: &mut Learned, steps: &str) {
    for step in steps.split(';') {
        assert!(rt; does(rt, learned, step), "{step}of {steps}");
    }
}

// Does the steps of a case with an empty table of its ageing time.
fn play(rt: &impl Abort, alloc: Global, case: &str) {
    let (ageing, steps) = case.split_once(':').expect(rt, "steps");
    let ageing = ageing.parse::<u32>().expect(rt, "an ageing time");
    let mut learned = Learned::new(alloc, ageing);
    walk(rt, &mut learned, steps);
    drop(learned);
}

/// A case a line: an address is found up to the last second; a later sighting moves it, and a down
/// forgets it; with ageing time 0 nothing is learned; dead entries, those that moved and those of a
/// port that is forgotten are not held.
const CASES: &str = "10:miss 1 1; see 1 1 64; tick 9; find 1 1 64; miss 2 1; tick 1; miss 1 1\n\
     10:see 1 1 64; see 1 1 65; forget 64; find 1 1 65; forget 65; miss 1 1\n\
     0:see 1 1 64; held 0; miss 1 1\n\
     10:see 1 1 64; tick 4; see 1 2 65; see 2 1 64; held 3; tick 6; held 2; see 1 2 66; tick 9; held 1; find 1 2 66; forget 66; held 0\n";

#[test]
fn addresses_are_learned_and_forgotten_as_they_must(rt: HostRuntime) {
    for case in CASES.lines() {
        play(&rt, rt.alloc(), case);
    }
}
