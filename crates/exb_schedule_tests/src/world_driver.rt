//! A world that words move, steps with a semicolon between them, and a log of what is told:
//!
//! - `arrive P I BYTES`: record I of the port named P arrives
//! - `carry N up`, `control N down K`, `keep N down K`, `lose N up K`: a word of a direction of
//! extender N is taken, the
//!   control word at position K is delivered, or delivered and kept, or lost
//! - `beat`, `give` (the next command of the topology), `settle` (rounds until all is settled, and
//! a mark)
//! - `arm COUNT`: the fate is armed with COUNT plain deliveries; `asked`: logs how many were given
//! - `bare`, as the first word of the steps: a world without a trace
//! - `tell`: logs the events and what has left; `skip`: forgets what was told
//! - `planned`: logs the number of planned exchanges; `counts N`: logs the numbers of data frames
//! and
//!   control frames on a link, up and down
//! - `free N down K`: logs whether a control frame may be delivered
use crate::steps::{
    arm_with, arrive, asked, beat, begun, carry, counts, deliver, give, is_free, lose, rest,
    scripted,
};
use exb_fate::Fate;
use exb_journal::{PortName, write_line};
use exb_model::event::Event;
use exb_model::port::PortId;
use exb_model::setup::Timed;
use exb_schedule::{Left, Way, World};
use exb_test_rows::hex::{bytes_of, text_of};
use exb_topology::{Topology, read};
use std::alloc::Global;
use std::process::Abort;
use std::str::SplitWhitespace;

/// The fate, how many commands were given, with how many verdicts the steps armed it, and what was
/// told.
#[derive(Drop)]
struct Progress {
    alloc: Global,
    fate: Box<dyn Fate>,
    given: usize,
    armed: u64,
    log: String,
}

// The number that a word is.
fn number(rt: &impl Abort, word: Option<&str>) -> u64 {
    let word = word.expect(rt, "a word");
    word.parse::<u64>().expect(rt, "a number")
}

// The number of an extender.
fn small(rt: &impl Abort, word: Option<&str>) -> u8 {
    let word = word.expect(rt, "a word");
    word.parse::<u8>().expect(rt, "a number below 256")
}

// The port of an extender with a name, as `x2.3`.
fn port(rt: &impl Abort, word: Option<&str>) -> PortId {
    let word = word
        .expect(rt, "a port")
        .strip_prefix("x")
        .expect(rt, "an x");
    let (device, place) = word.split_once('.').expect(rt, "a point");
    let (device, place) = (small(rt, Some(device)), small(rt, Some(place)));
    assert!(rt; device < 65);
    assert!(rt; place >= 1);
    assert!(rt; place <= 64);
    PortId::at(device, place - 1)
}

fn way(word: Option<&str>) -> Way {
    match word {
        Some("up") => Way::Up,
        _ => Way::Down,
    }
}

// Logs a text.
fn say(rt: &impl Abort, log: &mut String, text: &str) {
    log.push_str(text).expect(rt, "memory");
}

// The events, as text.
fn told(rt: &impl Abort, events: &[Event], log: &mut String) {
    for event in events {
        write_line(log, event).expect(rt, "memory");
    }
}

// A frame that has left a port, as text.
fn frame(rt: &impl Abort, alloc: Global, port: PortId, left: &Left, log: &mut String) {
    let bytes = text_of(alloc, left.bytes.as_slice()).expect(rt, "memory");
    let text = format!(in alloc; "{} {bytes}\n", PortName(port)).expect(rt, "memory");
    say(rt, log, text.as_str());
}

// A frame that has left, as text: a line for each port.
fn frames(rt: &impl Abort, alloc: Global, left: &Left, log: &mut String) {
    let mut rest = left.row;
    for _ in 0..64u8 {
        if let Some(port) = rest.next() {
            frame(rt, alloc, port, left, log);
        }
    }
}

// Logs what was told and what has left, and forgets it.
fn tell(rt: &impl Abort, alloc: Global, world: &mut World, log: &mut String) {
    told(rt, world.events(), log);
    for left in world.left() {
        frames(rt, alloc, left, log);
    }
    world.clear();
}

// Logs what is on the link of an extender.
fn say_counts(rt: &impl Abort, alloc: Global, world: &World, link: u8, log: &mut String) {
    let up = counts(rt, world, link, Way::Up);
    let down = counts(rt, world, link, Way::Down);
    let text = format!(in alloc;
        "x{link} up {} {} down {} {}\n",
        up.frames, up.control, down.frames, down.control
    );
    say(rt, log, text.expect(rt, "memory").as_str());
}

// Logs a number.
fn say_count(rt: &impl Abort, alloc: Global, log: &mut String, of: &str, count: u64) {
    let text = format!(in alloc; "{of} {count}\n").expect(rt, "memory");
    say(rt, log, text.as_str());
}

// Logs how many exchanges are planned.
fn say_planned(rt: &impl Abort, alloc: Global, world: &World, log: &mut String) {
    let planned = world.planned().expect(rt, "memory");
    say_count(rt, alloc, log, "planned", planned);
}

// Logs whether a control word is free.
fn say_free(rt: &impl Abort, world: &World, log: &mut String, words: &mut SplitWhitespace<'_>) {
    let link = small(rt, words.next());
    let way = way(words.next());
    let free = is_free(rt, world, link, way, number(rt, words.next()));
    say(rt, log, if free { "free\n" } else { "waits\n" });
}

// Logs what a step asks for, if it is such a step.
fn tells(
    rt: &impl Abort,
    world: &mut World,
    progress: &mut Progress,
    verb: &str,
    words: &mut SplitWhitespace<'_>,
) -> bool {
    let alloc = progress.alloc;
    let armed = progress.armed;
    let log = &mut progress.log;
    match verb {
        "tell" => tell(rt, alloc, world, log),
        "planned" => say_planned(rt, alloc, world, log),
        "counts" => say_counts(rt, alloc, world, small(rt, words.next()), log),
        "free" => say_free(rt, world, log, words),
        "asked" => say_count(rt, alloc, log, verb, asked(&*progress.fate, armed)),
        _ => return false,
    }
    true
}

// Gives the next command.
fn give_next(rt: &impl Abort, world: &mut World, commands: &[Timed], progress: &mut Progress) {
    let next = commands.get(progress.given).expect(rt, "a command");
    give(rt, world, &mut *progress.fate, next);
    progress.given = progress.given.saturating_add(1);
}

// A record arrives.
fn arrive_next(rt: &impl Abort, alloc: Global, world: &mut World, words: &mut SplitWhitespace<'_>) {
    let port = port(rt, words.next());
    let index = number(rt, words.next());
    let text = words.next().expect(rt, "bytes");
    let bytes = bytes_of(alloc, text).expect(rt, "bytes as hexadecimal digits");
    arrive(rt, world, port, index, bytes);
}

// Arms the fate.
fn arm_next(rt: &impl Abort, progress: &mut Progress, count: u64) {
    progress.armed = progress.armed.saturating_add(count);
    arm_with(rt, progress.alloc, &mut *progress.fate, count);
}

// Lets what comes from outside come, or moves the whole world, if a step does.
fn comes(
    rt: &impl Abort,
    world: &mut World,
    commands: &[Timed],
    progress: &mut Progress,
    verb: &str,
    words: &mut SplitWhitespace<'_>,
) -> bool {
    match verb {
        "settle" => rest(rt, world, &mut *progress.fate),
        "beat" => beat(rt, world),
        "skip" => world.clear(),
        "give" => give_next(rt, world, commands, progress),
        "arrive" => arrive_next(rt, progress.alloc, world, words),
        "arm" => arm_next(rt, progress, number(rt, words.next())),
        _ => return false,
    }
    true
}

// Moves a word on a link.
fn moves_word(rt: &impl Abort, world: &mut World, verb: &str, words: &mut SplitWhitespace<'_>) {
    let link = small(rt, words.next());
    let way = way(words.next());
    if verb == "carry" {
        carry(rt, world, link, way);
        return;
    }
    let at = number(rt, words.next());
    match verb {
        "lose" => lose(rt, world, link, way, at),
        "keep" => deliver(rt, world, link, way, at, true),
        "control" => deliver(rt, world, link, way, at, false),
        _ => panic!(rt; "no such step: {verb}"),
    }
}

// Makes a step.
fn make(
    rt: &impl Abort,
    world: &mut World,
    commands: &[Timed],
    progress: &mut Progress,
    step: &str,
) {
    let mut words = step.split_whitespace();
    let verb = words.next().expect(rt, "a step");
    let is_made = comes(rt, world, commands, progress, verb, &mut words)
        || tells(rt, world, progress, verb, &mut words);
    if !is_made {
        moves_word(rt, world, verb, &mut words);
    }
}

// Makes the steps, and logs what they tell.
fn log_of(
    rt: &impl Abort,
    alloc: Global,
    world: &mut World,
    commands: &[Timed],
    steps: &str,
) -> String {
    let mut progress = Progress {
        alloc,
        fate: scripted(rt, alloc),
        given: 0,
        armed: 0,
        log: String::new(alloc),
    };
    for step in steps.split(';') {
        make(rt, world, commands, &mut progress, step);
    }
    progress.log
}

// What the steps over a topology tell. A world is let go by `drop`, since all that goes with it is
// proved where it ends with a block.
fn log_over(rt: &impl Abort, alloc: Global, topology: &Topology, steps: &str) -> String {
    let (steps, trace) = match steps.strip_prefix("bare; ") {
        Some(steps) => (steps, false),
        None => (steps, true),
    };
    let mut world = begun(rt, alloc, topology, trace);
    let log = log_of(rt, alloc, &mut world, topology.commands.as_slice(), steps);
    drop(world);
    log
}

// What the steps over the topology of a text tell.
fn log_over_text(rt: &impl Abort, alloc: Global, topology: &str, steps: &str) -> String {
    let topology = read(alloc, topology.as_bytes()).expect(rt, "a topology");
    let log = log_over(rt, alloc, &topology, steps);
    drop(topology);
    log
}

// Asserts that a case tells what it must.
fn expect_case(rt: &impl Abort, alloc: Global, case: &str) {
    let (topology, rest) = case.split_once('>').expect(rt, "steps");
    let (steps, wanted) = rest.split_once('\n').expect(rt, "what is told");
    let log = log_over_text(rt, alloc, topology, steps);
    assert!(rt; log.as_str() == wanted, "{log}of {steps}");
}

/// Asserts that each case tells what it must: a topology, behind `>` a line of steps, and what is
/// told. `%` stands between two.
pub(crate) fn judge(rt: &impl Abort, alloc: Global, cases: &str) {
    for case in cases.split('%') {
        expect_case(rt, alloc, case);
    }
}
