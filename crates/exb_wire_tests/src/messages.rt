//! Messages of the control protocol: what bytes say, or their first fault. What is read is written
//! again as it was.
use crate::formats::{WireFormat, judge};
use crate::row_words::{bytes_of, expect, row_of, same, told};
use exb_csp::{Body, CspFault, Message, Request, read, write};
use exb_model::buffers::ControlBuf;
use std::alloc::Global;
use std::process::Abort;

/// What bytes say. Where they are a message, this is written as the same bytes.
pub(crate) fn read_and_write(rt: &impl Abort, bytes: &[u8]) -> Result<Message, CspFault> {
    let read = read(bytes);
    if let Ok(message) = &read {
        let mut out = ControlBuf::new();
        write(message, &mut out);
        assert!(rt; out.as_slice() == bytes);
    }
    read
}

// What a request names, as values are told.
fn told_request(rt: &impl Abort, alloc: Global, request: &Request) -> String {
    match request {
        Request::Open => told(rt, alloc, &()),
        Request::PortCreate {
            port,
            cascade,
            channel,
        } => told(rt, alloc, &(*port, *cascade, *channel)),
        Request::PortDelete { port } => told(rt, alloc, port),
        Request::Register { ecid, mask } => told(rt, alloc, &(*ecid, *mask)),
        Request::Unregister { ecid } => told(rt, alloc, ecid),
        Request::RegisterMany { rows } => told(rt, alloc, &rows.as_slice()),
        Request::UnregisterMany { ecids } => told(rt, alloc, &ecids.as_slice()),
    }
}

/// How a message is told: its serial, and what it carries.
pub(crate) fn told_message(rt: &impl Abort, alloc: Global, message: &Message) -> String {
    match &message.body {
        Body::Ask(request) => {
            let names = told_request(rt, alloc, request);
            let kind = request.kind();
            format!(in alloc; "{} {kind:?} {names}", message.serial).expect(rt, "memory")
        }
        Body::Answer(response) => told(rt, alloc, &(message.serial, *response)),
    }
}

/// Asserts what bytes say as a message, or their first fault.
pub(crate) fn expect_message(rt: &impl Abort, alloc: Global, bytes: &[u8], wanted: &str, of: &str) {
    match read_and_write(rt, bytes) {
        Ok(message) => same(rt, told_message(rt, alloc, &message).as_str(), wanted, of),
        Err(fault) => expect(rt, alloc, &fault, wanted, of),
    }
}

const CASES: &str = "01 0000000000000001 0000>1 Open ()\n\
     81 0000000000000001 0002 0002>(1, Response { to: Open, code: 0, ports: 2 })\n\
     06 0000000000000009 0014 1000 0000000000000002 1003 0000000000000004>9 RegisterMany [GroupRow { ecid: 4096, mask: 2 }, GroupRow { ecid: 4099, mask: 4 }]\n\
     07 000000000000000A 0004 1001 1002>10 UnregisterMany [4097, 4098]\n\
     03 000000000000000B 0001 01>11 PortDelete 1\n\
     02 0102030405060708 0004 09 01 0FFE>72623859790382856 PortCreate (9, true, 4094)\n\
     04 0000000000000002 000A 3FFF 8000000000000001>2 Register (16383, 9223372036854775809)\n\
     05 0000000000000003 0002 1000>3 Unregister 4096\n\
     86 0000000000000009 0001 03>(9, Response { to: RegisterMany, code: 3, ports: 0 })\n\
     # A header cut short, whatever its type and length.\n\
     >Cut\n\
     44 0000000000000001 09>Cut\n\
     # An unknown type before its length.\n\
     00 0000000000000001 0000>UnknownType\n\
     08 0000000000000001 0909>UnknownType\n\
     80 0000000000000001 0000>UnknownType\n\
     88 0000000000000001 0001 00>UnknownType\n\
     # A length that isn't the type's, also where the body is that long or cut short.\n\
     04 0000000000000001 0009 010203040506070809>Length\n\
     01 0000000000000001 0001>Length\n\
     # Fewer than two members of a list of many.\n\
     07 0000000000000001 0002 0101>Length\n\
     06 0000000000000001 000A 1000 0000000000000001>Length\n\
     # A body cut short, and bytes after it, before what is out of range.\n\
     03 0000000000000000 0001>Cut\n\
     01 0000000000000000 0000 00>Length\n\
     # A serial of 0, a kind above 1, a code above 3, a port count of 0 and of 65.\n\
     01 0000000000000000 0000>Range\n\
     02 0000000000000001 0004 01 02 0001>Range\n\
     85 0000000000000001 0001 04>Range\n\
     81 0000000000000001 0002 0000>Range\n\
     81 0000000000000001 0002 0041>Range\n\
     # The extender decides on other numbers.\n\
     02 0000000000000001 0004 00 00 FFFF>1 PortCreate (0, false, 65535)\n\
     05 0000000000000001 0002 0000>1 Unregister 0\n\
     03 0000000000000001 0001 FF>1 PortDelete 255";

#[test]
fn bytes_say_what_they_must(rt: HostRuntime) {
    judge(&rt, rt.alloc(), WireFormat::Message, CASES);
}

/// Lists of 1, 2, 3, 64 and 65 rows, each byte of which is 1: their fault.
const ROWS: &str = "06 0101010101010101 000A 10x01>Some(Length)\n\
     06 0101010101010101 0014 20x01>None\n\
     06 0101010101010101 001E 30x01>None\n\
     06 0101010101010101 0280 640x01>None\n\
     06 0101010101010101 028A 650x01>Some(Length)";

// Asserts the fault of a row.
fn expect_fault(rt: &impl Abort, alloc: Global, row: &str) {
    if row.starts_with("#") {
        return;
    }
    let (text, wanted) = row_of(rt, row);
    let bytes = bytes_of(rt, alloc, text);
    let fault = read_and_write(rt, bytes.as_slice()).err();
    expect(rt, alloc, &fault, wanted, text);
}

#[test]
fn lists_have_2_to_64_rows(rt: HostRuntime) {
    for row in ROWS.lines() {
        expect_fault(&rt, rt.alloc(), row);
    }
}
