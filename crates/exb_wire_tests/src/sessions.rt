//! Sessions: what an asker takes as its answer and when a request is due again, and what an
//! answerer executes.
use crate::messages::told_message;
use crate::row_words::{bytes_of, expect, number, row_of, same, told};
use exb_csp::{Answerer, Asker, Due, Request, RequestKind, Response, Taken, read};
use std::alloc::Global;
use std::process::Abort;

// The request of a word.
fn request(word: &str) -> Request {
    match word {
        "open" => Request::Open,
        "clear" => Request::Unregister { ecid: 1 },
        _ => Request::PortCreate {
            port: 1,
            cascade: false,
            channel: 1,
        },
    }
}

// The first beat, of so many, at which the request is due again, or 0.
fn due(asker: &mut Asker, beats: u16) -> u16 {
    for beat in 0..beats {
        if asker.beat() {
            return beat.saturating_add(1);
        }
    }
    0
}

// Takes the message of these bytes.
fn take(rt: &impl Abort, alloc: Global, asker: &mut Asker, text: &str) -> Taken {
    let bytes = bytes_of(rt, alloc, text);
    let message = read(bytes.as_slice()).expect(rt, "a message");
    asker.take(&message)
}

// Asks: the serial of the message.
fn ask(rt: &impl Abort, asker: &mut Asker, request: Request) -> u64 {
    assert!(rt; !asker.waiting());
    assert!(rt; asker.serial() < 1000);
    asker.ask(request).serial
}

// The serial of the message that is waited for.
fn again(rt: &impl Abort, asker: &Asker) -> u64 {
    assert!(rt; asker.waiting());
    asker.again().serial
}

// Does a step, and asserts how it is told: `open`, `clear` and `create` ask, `take BYTES`, `beat
// N`, `again`.
fn step(rt: &impl Abort, alloc: Global, asker: &mut Asker, step: &str, wanted: &str) {
    let (word, behind) = step.split_once(' ').unwrap_or((step, ""));
    match word {
        "take" => expect(rt, alloc, &take(rt, alloc, asker, behind), wanted, step),
        "beat" => expect(rt, alloc, &due(asker, number(rt, behind)), wanted, step),
        "again" => expect(rt, alloc, &again(rt, asker), wanted, step),
        _ => expect(rt, alloc, &ask(rt, asker, request(word)), wanted, step),
    }
}

// The same of a row.
fn judge_step(rt: &impl Abort, alloc: Global, asker: &mut Asker, row: &str) {
    if row.starts_with("#") {
        return;
    }
    let (words, wanted) = row_of(rt, row);
    step(rt, alloc, asker, words, wanted);
}

const STEPS: &str = "open>1\n\
     take 81000000000000000100020002>Answer(Response { to: Open, code: 0, ports: 2 })\n\
     clear>2\n\
     take 850000000000000002000100>Answer(Response { to: Unregister, code: 0, ports: 0 })\n\
     create>3\n\
     # An earlier answer is stale, however often it comes; the request still waits.\n\
     take 81000000000000000100020002>Stale\n\
     take 81000000000000000100020002>Stale\n\
     again>3\n\
     # The answer of a later serial, one to another request, and a request are not its own.\n\
     take 820000000000000004000100>NotOurs\n\
     take 830000000000000003000100>NotOurs\n\
     take 0100000000000000030000>NotOurs\n\
     # It is due again at each sixteenth beat.\n\
     beat 40>16\n\
     beat 40>16\n\
     take 820000000000000003000100>Answer(Response { to: PortCreate, code: 0, ports: 0 })\n\
     # Nothing waits now.\n\
     take 820000000000000003000100>NotOurs\n\
     beat 40>0\n\
     open>4";

#[test]
fn an_asker_takes_the_answer_of_its_request_alone(rt: HostRuntime) {
    let mut asker = Asker::new();
    for row in STEPS.lines() {
        judge_step(&rt, rt.alloc(), &mut asker, row);
    }
}

const DONE: Response = Response {
    to: RequestKind::Open,
    code: 0,
    ports: 2,
};

// Asserts what is due: the request that is to be executed, or none.
fn expect_due(rt: &impl Abort, alloc: Global, due: &Due, wanted: &str) {
    let told = match due {
        Due::Execute(request) => told(rt, alloc, &request.kind()),
        Due::Again => String::from_str(alloc, "again").expect(rt, "memory"),
        Due::Ignore => String::from_str(alloc, "ignored").expect(rt, "memory"),
    };
    same(rt, told.as_str(), wanted, "a request");
}

// Asserts which answer is stored.
fn expect_stored(rt: &impl Abort, alloc: Global, answerer: &Answerer, wanted: &str) {
    let told = match answerer.stored() {
        Some(message) => told_message(rt, alloc, &message),
        None => String::new(alloc),
    };
    same(rt, told.as_str(), wanted, "what is stored");
}

#[test]
fn each_request_is_executed_once(rt: HostRuntime) {
    let alloc = rt.alloc();
    let mut answerer = Answerer::new();
    expect_stored(&rt, alloc, &answerer, "");
    expect_due(&rt, alloc, &answerer.take(1, Request::Open), "Open");
    answerer.store(DONE);
    expect_due(&rt, alloc, &answerer.take(2, Request::Open), "Open");
    answerer.store(DONE);
    expect_due(&rt, alloc, &answerer.take(2, Request::Open), "again");
    expect_due(&rt, alloc, &answerer.take(4, Request::Open), "ignored");
    expect_due(&rt, alloc, &answerer.take(3, Request::Open), "Open");
    expect_stored(&rt, alloc, &answerer, "");
    answerer.store(DONE);
    let stored = "(3, Response { to: Open, code: 0, ports: 2 })";
    expect_stored(&rt, alloc, &answerer, stored);
    expect_due(&rt, alloc, &answerer.take(1, Request::Open), "ignored");
    expect_due(&rt, alloc, &answerer.take(0, Request::Open), "ignored");
}
