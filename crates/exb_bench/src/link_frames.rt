//! Words that an extender takes.
ghost use Rattle.std.specs.Prelude.{◌≤◌, length};

use exb_extender::{Extender, Sends, Side};
use exb_model::memory::NoMemory;
use std::alloc::Global;

/// What a request begins with: addresses, type, and the version and operation of ECP.
const HEAD: [u8; 16] = [
    0x01, 0x80, 0xC2, 0, 0, 0x0E, 0x02, 0x45, 0x42, 0, 0, 0, 0x89, 0x40, 0x10, 0x02,
];

// A request of the control protocol comes in its frame: sequence and serial are the same here.
fn ask(extender: &mut Extender, serial: u8, kind: u8, body: &[u8], sends: &mut Sends)
    requires { length body.now ≤ 10 }
{
    let mut frame = [0u8; 39];
    frame[..16].copy_from_slice(&HEAD);
    frame[17] = serial;
    frame[18] = kind;
    frame[26] = serial;
    frame[28] = body.len() as u8;
    let length = 29 + body.len();
    frame[29..length].copy_from_slice(body);
    extender.take(Side::Up, &frame[..length], sends);
}

// The group 0x1000, and a mask of the first ports.
fn group(ports: u8) -> [u8; 10] {
    let mask = u64::MAX >> (64 - u32::from(ports.clamp(1, 64)));
    let mut body = [0u8; 10];
    body[0] = 0x10;
    body[2..].copy_from_slice(&mask.to_be_bytes());
    body
}

// Makes all ports of an extender external ones, and the first of them a group.
fn prepare(extender: &mut Extender, ports: u8, sends: &mut Sends) {
    ask(extender, 1, 1, &[], sends);
    for port in 1..65u8 {
        ask(
            extender,
            port.saturating_add(1),
            2,
            &[port, 0, 0, port],
            sends,
        );
    }
    ask(extender, 66, 4, &group(ports), sends);
}

// How many frames an extender sends in all for so many words of the group.
fn sent(extender: &mut Extender, times: u32, sends: &mut Sends) -> u64 {
    let mut word = [0u8; 72];
    word[12..20].copy_from_slice(&[0x89, 0x3F, 0, 0, 0x10, 0, 0, 0]);
    let mut sent = 0u64;
    for _time in 0..times {
        extender.take(Side::Up, &word, sends);
        sent = sent.wrapping_add(sends.frames.len() as u64);
    }
    sent
}

/// How many frames an extender sends in all for so many words of a group of so many ports.
pub(crate) fn take(alloc: Global, ports: u8, times: u32) -> Result<u64, NoMemory> {
    let mut sends = Sends::new();
    let mut extender = Extender::new(alloc, 1, 64)?;
    prepare(&mut extender, ports, &mut sends);
    Ok(sent(&mut extender, times, &mut sends))
}
