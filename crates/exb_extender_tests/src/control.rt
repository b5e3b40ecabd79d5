//! Announcements, acknowledgements and answers.
use crate::driver::judge;
use crate::fixture::Fixture;
use crate::row_words::{bytes_of, put_bytes, same};
use exb_extender::{Extender, Sends, Side};
use std::alloc::Global;
use std::process::Abort;

/// It announces itself at the first beat and each sixteenth after, until it is opened. Its answer
/// goes out again at the third, sixth and ninth beat.
const ANNOUNCES: &str = "beat 1>first 88CC020704024542010001040307757006020078FE0502454201030000;\n\
     beat 15>\n\
     beat 1>first 88CC020704024542010001040307757006020078FE0502454201030000;\n\
     beat 15>\n\
     beat 1>first 88CC020704024542010001040307757006020078FE0502454201030000;\n\
     idle>true\n\
     hear 0100000000000000010000>first 894014020001; second 89401002000181000000000000000100020003;\n\
     idle>false\n\
     beat 2>\n\
     beat 1>second 89401002000181000000000000000100020003;\n\
     beat 2>\n\
     beat 1>second 89401002000181000000000000000100020003;\n\
     beat 2>\n\
     beat 1>second 89401002000181000000000000000100020003;\n\
     beat 2>\n\
     idle>false\n\
     beat 1>\n\
     idle>true\n\
     beat 40>";

/// The acknowledgement of its sequence alone ends an answer.
const ACKNOWLEDGED: &str =
    "hear 0100000000000000010000>first 894014020001; second 89401002000181000000000000000100020003;\n\
     acked 2>\n\
     idle>false\n\
     acked 1>\n\
     idle>true\n\
     beat 40>";

/// The next serial is executed, the last answered again, and any other acknowledged alone.
const SERIALS: &str =
    "hear 0100000000000000010000>first 894014020001; second 89401002000181000000000000000100020003;\n\
     hear 020000000000000002000401000001>first 894014020002; second 894010020002820000000000000002000100;\n\
     hear 020000000000000002000401000001>first 894014020003; second 894010020003820000000000000002000100;\n\
     hear 030000000000000004000101>first 894014020004;\n\
     # Port 1 is created once more, which is refused.\n\
     hear 020000000000000003000401000002>first 894014020005; second 894010020004820000000000000003000103;\n\
     hear 0100000000000000010000>first 894014020006;";

/// What is no request of the control protocol.
const OTHERS: &str = "# An answer, and bytes that are no message, are acknowledged alone.\n\
     hear 81000000000000000100020003>first 894014020001;\n\
     hear 0800000000000000010000>first 894014020002;\n\
     # The same sequence again is acknowledged, and its payload not looked at.\n\
     repeat 0100000000000000010000>first 894014020002;\n\
     # Another subtype isn't acknowledged.\n\
     down 29 0180C200000E0245420000008940100300090100000000000000010000>\n\
     # An announcement, a version and an operation that ECP doesn't have, and a frame of ECP that is cut.\n\
     down 18 0180C200000E02454200000088CC10020009>\n\
     down 18 0180C200000E024542000000894020020009>\n\
     down 18 0180C200000E024542000000894018020009>\n\
     down 17 0180C200000E0245420000008940100200>\n\
     idle>true";

/// An E-CID twice in a message is refused whole, so a word of that group goes nowhere.
const TWICE: &str =
    "hear 0100000000000000010000>first 894014020001; second 89401002000181000000000000000100020003;\n\
     hear 020000000000000002000401000001>first 894014020002; second 894010020002820000000000000002000100;\n\
     hear 06000000000000000300141000000000000000000110000000000000000001>first 894014020003; second 894010020003860000000000000003000103;\n\
     down 60 FFFFFFFFFFFF020000000001893F000010000000>";

// Asserts that each step of a new extender is told as it must be.
fn judge_new(rt: &impl Abort, alloc: Global, steps: &str) {
    judge(rt, alloc, &mut Fixture::new(rt, alloc), steps);
}

#[test]
fn control_frames_are_answered_as_they_must(rt: HostRuntime) {
    judge_new(&rt, rt.alloc(), ANNOUNCES);
    judge_new(&rt, rt.alloc(), ACKNOWLEDGED);
    judge_new(&rt, rt.alloc(), SERIALS);
    judge_new(&rt, rt.alloc(), OTHERS);
    judge_new(&rt, rt.alloc(), TWICE);
}

// Asserts the bytes of a frame of the extender's own.
fn expect_own(rt: &impl Abort, alloc: Global, frame: &[u8], wanted: &str) {
    let mut text = String::new(alloc);
    put_bytes(rt, alloc, &mut text, frame);
    same(rt, text.as_str(), wanted, "an extender of two ports");
}

// What the extender sent, whole.
fn expect_sent(rt: &impl Abort, alloc: Global, sends: &Sends, first: &str, second: &str) {
    expect_own(rt, alloc, sends.first.as_slice(), first);
    expect_own(rt, alloc, sends.second.as_slice(), second);
    assert!(rt; sends.frames.is_empty());
}

// Asserts what comes of a beat, of a request, and of a beat.
fn judge_beats(rt: &impl Abort, alloc: Global, extender: &mut Extender, sends: &mut Sends) {
    let announcement =
        "0180C200000E02454201000188CC020704024542010001040307757006020078FE0502454201020000";
    extender.beat(sends);
    expect_sent(rt, alloc, sends, announcement, "");
    let request = bytes_of(
        rt,
        alloc,
        "0180C200000E024542000000894010020001 0100000000000000010000",
    );
    let acknowledgement = "0180C200000E024542010001894014020001";
    let answer = "0180C200000E02454201000189401002000181000000000000000100020002";
    extender.take(Side::Up, request.as_slice(), sends);
    expect_sent(rt, alloc, sends, acknowledgement, answer);
    extender.beat(sends);
    expect_sent(rt, alloc, sends, "", "");
}

#[test]
fn an_extender_of_two_ports_announces_itself_then_acknowledges_and_answers(rt: HostRuntime) {
    let mut extender = Extender::new(rt.alloc(), 1, 2).expect(&rt, "an extender");
    judge_beats(&rt, rt.alloc(), &mut extender, &mut Sends::new());
}
