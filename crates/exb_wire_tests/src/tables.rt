//! Requests that an extender of two ports executes, one after another, and which of three pairs it
//! has then: port 1 with channel 1, and ports 1 and 2 with the group 0x1000.
use crate::plain_tables::PlainTables;
use crate::row_words::{bytes_of, expect, row_of};
use exb_csp::{Body, Request, RequestKind, Response, read};
use std::alloc::Global;
use std::process::Abort;

// The request of these bytes.
fn request_of(rt: &impl Abort, alloc: Global, text: &str) -> Request {
    let bytes = bytes_of(rt, alloc, text);
    match read(bytes.as_slice()).expect(rt, "a message").body {
        Body::Ask(request) => request,
        Body::Answer(_) => panic!(rt; "a request"),
    }
}

// The three pairs.
fn pairs(tables: &PlainTables) -> [bool; 3] {
    [
        tables.has_pair(1, 1),
        tables.has_pair(0x1000, 1),
        tables.has_pair(0x1000, 2),
    ]
}

// Executes the request of these bytes: the answer, and the pairs.
fn execute(
    rt: &impl Abort,
    alloc: Global,
    tables: &mut PlainTables,
    text: &str,
) -> (RequestKind, u8, u8, [bool; 3]) {
    let request = request_of(rt, alloc, text);
    let Response { to, code, ports } = tables.execute(&request);
    (to, code, ports, pairs(tables))
}

const STEPS: &str = "01 0000000000000001 0000>(Open, 0, 2, [false, false, false])\n\
     # Port 1 with channel 1.\n\
     02 0000000000000001 0004 01 00 0001>(PortCreate, 0, 0, [true, false, false])\n\
     # An E-CID twice in a message is refused whole.\n\
     06 0000000000000001 0014 1000 0000000000000001 1000 0000000000000001>(RegisterMany, 3, 0, [true, false, false])\n\
     # Ports that aren't there, a channel out of its range, a port and a channel that are taken.\n\
     02 0000000000000001 0004 00 01 0000>(PortCreate, 1, 0, [true, false, false])\n\
     02 0000000000000001 0004 03 01 0001>(PortCreate, 1, 0, [true, false, false])\n\
     02 0000000000000001 0004 02 01 0FFF>(PortCreate, 2, 0, [true, false, false])\n\
     02 0000000000000001 0004 01 01 0002>(PortCreate, 3, 0, [true, false, false])\n\
     02 0000000000000001 0004 02 01 0001>(PortCreate, 3, 0, [true, false, false])\n\
     02 0000000000000001 0004 02 01 0002>(PortCreate, 0, 0, [true, false, false])\n\
     # E-CIDs out of their range, a port that isn't there, an E-CID that has a pair.\n\
     04 0000000000000001 000A 4000 0000000000000004>(Register, 2, 0, [true, false, false])\n\
     04 0000000000000001 000A 0FFF 0000000000000004>(Register, 2, 0, [true, false, false])\n\
     04 0000000000000001 000A 0001 0000000000000004>(Register, 1, 0, [true, false, false])\n\
     04 0000000000000001 000A 0001 0000000000000003>(Register, 3, 0, [true, false, false])\n\
     04 0000000000000001 000A 1000 0000000000000003>(Register, 0, 0, [true, true, true])\n\
     05 0000000000000001 0002 0000>(Unregister, 2, 0, [true, true, true])\n\
     05 0000000000000001 0002 1000>(Unregister, 0, 0, [true, false, false])\n\
     # All rows of a message or none.\n\
     06 0000000000000001 0014 1000 0000000000000003 1001 0000000000000004>(RegisterMany, 1, 0, [true, false, false])\n\
     06 0000000000000001 0014 1000 0000000000000002 1001 0000000000000001>(RegisterMany, 0, 0, [true, false, true])\n\
     03 0000000000000001 0001 03>(PortDelete, 1, 0, [true, false, true])\n\
     03 0000000000000001 0001 01>(PortDelete, 0, 0, [false, false, true])\n\
     # Port 1 has no channel any more.\n\
     04 0000000000000001 000A 1002 0000000000000001>(Register, 1, 0, [false, false, true])";

// Asserts how a request is answered, and the pairs that it leaves.
fn step(rt: &impl Abort, alloc: Global, tables: &mut PlainTables, row: &str) {
    if row.starts_with("#") {
        return;
    }
    let (text, wanted) = row_of(rt, row);
    let told = execute(rt, alloc, tables, text);
    expect(rt, alloc, &told, wanted, text);
}

// The same of each request, one after another.
fn judge(rt: &impl Abort, alloc: Global, tables: &mut PlainTables) {
    for row in STEPS.lines() {
        step(rt, alloc, tables, row);
    }
}

#[test]
fn requests_have_their_codes_and_pairs(rt: HostRuntime) {
    let mut tables = PlainTables::new(rt.alloc(), 2).expect(&rt, "memory");
    judge(&rt, rt.alloc(), &mut tables);
}
