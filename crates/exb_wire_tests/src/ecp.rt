//! ECP: what the bytes of a frame say, and what is sent again and handed up.
use crate::formats::{WireFormat, judge};
use crate::row_words::{expect, expect_bytes, number, row_of};
use exb_ecp::{Beat, Ecp, Pdu, write};
use exb_model::address::Mac;
use exb_model::buffers::ControlBuf;
use std::alloc::Global;
use std::process::Abort;

const FRAMES: &str =
    "0180C200000E 024542000000 8940 14020001>Pdu { acknowledgement: true, subtype: 2, sequence: 1, payload_at: 18 }\n\
     0180C200000E 024542000000 8940 10020102 0708>Pdu { acknowledgement: false, subtype: 2, sequence: 258, payload_at: 18 }\n\
     # Another subtype is read, and so is an acknowledgement with a payload.\n\
     0180C200000E 024542000000 8940 17FF0001 05>Pdu { acknowledgement: true, subtype: 1023, sequence: 1, payload_at: 18 }\n\
     0180C200000E 024542000000 8940 20020001>Version\n\
     0180C200000E 024542000000 8940 18020001>Operation\n\
     0180C200000E 024542000000 8940 1C020001>Operation\n\
     # The version is tried before the operation, and the length before both.\n\
     0180C200000E 024542000000 8940 0C020001>Version\n\
     0180C200000E 024542000000 8940 200200>Cut\n\
     0180C200000E 024542000000 8940>Cut\n\
     # Too short, and another type.\n\
     0180C200000E 024542000000 89>NotEcp\n\
     0180C200000E 024542000000 88CC 14020001>NotEcp";

#[test]
fn frames_are_read(rt: HostRuntime) {
    judge(&rt, rt.alloc(), WireFormat::Ecp, FRAMES);
}

// Asserts the bytes of a request or an acknowledgement with a payload of two bytes.
fn expect_written(
    rt: &impl Abort,
    alloc: Global,
    acknowledgement: bool,
    sequence: u16,
    wanted: &str,
) {
    let pdu = Pdu {
        acknowledgement,
        subtype: 2,
        sequence,
        payload_at: 18,
    };
    let mut out = ControlBuf::new();
    write(Mac([0x02, 0x45, 0x42, 0, 0, 0]), &pdu, &[7, 8], &mut out);
    expect_bytes(rt, alloc, out.as_slice(), wanted);
}

#[test]
fn frames_are_written(rt: HostRuntime) {
    let request = "0180C200000E 024542000000 8940 10020102 0708";
    expect_written(&rt, rt.alloc(), false, 258, request);
    // An acknowledgement has no payload.
    let acknowledgement = "0180C200000E 024542000000 8940 14020001";
    expect_written(&rt, rt.alloc(), true, 1, acknowledgement);
}

// Of so many beats the first at which something is due, and what.
fn due(ecp: &mut Ecp, beats: u16) -> Option<(u16, Beat)> {
    for beat in 0..beats {
        let due = ecp.beat();
        if due != Beat::Nothing {
            return Some((beat.saturating_add(1), due));
        }
    }
    None
}

// Submits two bytes, and asserts the sequence, told twice, and what is to be sent.
fn submit(rt: &impl Abort, alloc: Global, ecp: &mut Ecp, wanted: &str) {
    assert!(rt; ecp.idle());
    let sequence = ecp.submit(&[7, 8]);
    expect(
        rt,
        alloc,
        &(sequence, ecp.sequence(), ecp.payload()),
        wanted,
        "submit",
    );
}

// Submits and stops so often: the last sequence.
fn many(ecp: &mut Ecp, times: u16) -> u16 {
    for _time in 0..times {
        ecp.stop();
        let _ = ecp.submit(&[]);
    }
    ecp.stop();
    ecp.sequence()
}

// Whether nothing is sent after an acknowledgement.
fn acked(ecp: &mut Ecp, sequence: u16) -> bool {
    ecp.acked(sequence);
    ecp.idle()
}

// Whether nothing is sent after a stop, and how many bytes.
fn stop(ecp: &mut Ecp) -> (bool, usize) {
    ecp.stop();
    (ecp.idle(), ecp.payload().len())
}

// Does a step, and asserts how it is told: `submit`, `beat N`, `acked N`, `stop`, `many N`,
// `received N`.
fn step(rt: &impl Abort, alloc: Global, ecp: &mut Ecp, step: &str, wanted: &str) {
    let (word, behind) = step.split_once(' ').unwrap_or((step, "0"));
    let number = number(rt, behind);
    match word {
        "submit" => submit(rt, alloc, ecp, wanted),
        "beat" => expect(rt, alloc, &due(ecp, number), wanted, step),
        "acked" => expect(rt, alloc, &acked(ecp, number), wanted, step),
        "many" => expect(rt, alloc, &many(ecp, number), wanted, step),
        "received" => expect(rt, alloc, &ecp.received(number), wanted, step),
        _ => expect(rt, alloc, &stop(ecp), wanted, step),
    }
}

// The same of a row.
fn judge_step(rt: &impl Abort, alloc: Global, ecp: &mut Ecp, row: &str) {
    if row.starts_with("#") {
        return;
    }
    let (words, wanted) = row_of(rt, row);
    step(rt, alloc, ecp, words, wanted);
}

const STEPS: &str = "submit>(1, 1, [7, 8])\n\
     beat 11>Some((3, SendAgain))\n\
     beat 8>Some((3, SendAgain))\n\
     beat 5>Some((3, SendAgain))\n\
     beat 2>None\n\
     beat 1>Some((1, GaveUp))\n\
     beat 30>None\n\
     submit>(2, 2, [7, 8])\n\
     # The acknowledgement of its sequence alone ends it.\n\
     acked 1>false\n\
     acked 2>true\n\
     beat 30>None\n\
     submit>(3, 3, [7, 8])\n\
     stop>(true, 0)\n\
     # Sequence 0 comes after 65535.\n\
     many 65532>65535\n\
     submit>(0, 0, [7, 8])\n\
     # A request is handed up unless its sequence is that of the last one.\n\
     received 1>true\n\
     received 1>false\n\
     received 2>true";

#[test]
fn what_is_submitted_is_sent_until_it_is_acknowledged(rt: HostRuntime) {
    let mut ecp = Ecp::new();
    for row in STEPS.lines() {
        judge_step(&rt, rt.alloc(), &mut ecp, row);
    }
}
