//! Frames of every kind from every side, at an extender that is opened, with the external ports 1
//! and 2 of channels 1 and 2, and the cascade port 3 of channel 3. The group 0x1000 goes to all
//! three, and channel 9 to the cascade port.
use crate::driver::judge;
use crate::fixture::Fixture;
use crate::row_words::{bytes_of, put_bytes, same};
use exb_frame::etag::{ETag, tag_into};
use std::alloc::Global;
use std::process::Abort;

/// Lays the tables.
pub(crate) const LAID: &str =
    "hear 0100000000000000010000>first 894014020001; second 89401002000181000000000000000100020003;\n\
     hear 020000000000000002000401000001>first 894014020002; second 894010020002820000000000000002000100;\n\
     hear 020000000000000003000402000002>first 894014020003; second 894010020003820000000000000003000100;\n\
     hear 020000000000000004000403010003>first 894014020004; second 894010020004820000000000000004000100;\n\
     hear 06000000000000000500141000000000000000000700090000000000000004>first 894014020005; second 894010020005860000000000000005000100;";

/// Words from upstream.
const DOWN: &str = "# A group goes to its ports.\n\
     down 60 FFFFFFFFFFFF020000000001893F000010000000>1 stripped; 2 stripped; 3;\n\
     # But not to the one it came from. The channel of a cascade port leaves none out.\n\
     down 60 FFFFFFFFFFFF020000000001893F000110000000>2 stripped; 3;\n\
     down 60 FFFFFFFFFFFF020000000001893F000310000000>1 stripped; 2 stripped; 3;\n\
     # Priority and reserved bits are not looked at.\n\
     down 60 FFFFFFFFFFFF020000000001893FF002D0000000>1 stripped; 3;\n\
     # A group that has no port.\n\
     down 60 FFFFFFFFFFFF020000000001893FB00310020000>\n\
     # A channel goes to its port, whatever the ingress number is.\n\
     down 60 FFFFFFFFFFFF020000000001893F000200020000>2 stripped;\n\
     # At the cascade port its own channel is stripped, one of a port below is not; a channel without a port goes nowhere.\n\
     down 60 FFFFFFFFFFFF020000000001893F000000030000>3 stripped;\n\
     down 60 FFFFFFFFFFFF020000000001893F000000090000>3;\n\
     down 60 FFFFFFFFFFFF020000000001893F000000080000>\n\
     # No E-TAG that can be read: an extension byte that isn't 0, cut within the E-TAG, under 14 bytes, another type.\n\
     down 60 FFFFFFFFFFFF020000000001893F000000010001>\n\
     down 19 FFFFFFFFFFFF020000000001893F000000010000>\n\
     down 13 0180C200000E00000000000089>\n\
     down 60 FFFFFFFFFFFF0200000000010800>";

/// Frames from the cascade port.
const BELOW: &str = "# The channels 1 to 4094 go up as they are, wherever they are.\n\
     below 60 FFFFFFFFFFFF020000000001893F000000010000>up;\n\
     below 60 FFFFFFFFFFFF020000000001893F00000FFE0000>up;\n\
     # 4095, a group, and 0; an extension byte, and a frame that is cut.\n\
     below 60 FFFFFFFFFFFF020000000001893F00000FFF0000>\n\
     below 60 FFFFFFFFFFFF020000000001893F000010000000>\n\
     below 60 FFFFFFFFFFFF020000000001893F000000000000>\n\
     below 60 FFFFFFFFFFFF020000000001893F000000010001>\n\
     below 19 FFFFFFFFFFFF020000000001893F000000010000>\n\
     # A data frame without an E-TAG, of any length.\n\
     below 60 FFFFFFFFFFFF0200000000010800>\n\
     below 0>\n\
     below 9216 FFFFFFFFFFFF0200000000010800>\n\
     # Of reserved destinations that of control frames alone goes up, by the channel of the port.\n\
     below 14 0180C200000E02454201000288CC>up by 3;\n\
     below 13 0180C200000E02454201000288CC>\n\
     below 60 0180C2000000020000000001>\n\
     below 60 0180C200000F020000000001>\n\
     # A control frame with an E-TAG is of an extender further below.\n\
     below 60 0180C200000E020000000001893F000000090000>up;\n\
     down 60 0180C200000E020000000001893F000000090000>3;";

/// Frames of stations at port 1.
const ARRIVE: &str = "arrive 0>ignored\n\
     arrive 13 FFFFFFFFFFFF0200000000010800>ignored\n\
     arrive 14 FFFFFFFFFFFF0200000000010800>up by 1;\n\
     arrive 9216 FFFFFFFFFFFF0200000000010800>up by 1;\n\
     arrive 9217 FFFFFFFFFFFF0200000000010800>ignored\n\
     arrive 60 0180C2000000020000000001>ignored\n\
     arrive 60 0180C200000E0200000000010800>ignored\n\
     arrive 60 0180C200000F020000000001>ignored\n\
     arrive 60 0180C2000010020000000001>up by 1;\n\
     # Behind the destination of control frames no station gets in, with an E-TAG either.\n\
     arrive 60 0180C200000E020000000001893F000000090000>ignored\n\
     # The type of an E-TAG is a station's own matter, in whatever form.\n\
     arrive 60 FFFFFFFFFFFF020000000001893F000010000000>up by 1;\n\
     arrive 60 FFFFFFFFFFFF020000000001893F000000020000>up by 1;\n\
     arrive 60 FFFFFFFFFFFF020000000001893F000000010001>up by 1;\n\
     arrive 19 FFFFFFFFFFFF020000000001893F000000010000>up by 1;\n\
     # Without a channel nothing is let in.\n\
     hear 030000000000000006000101>first 894014020006; second 894010020006830000000000000006000100;\n\
     arrive 60 FFFFFFFFFFFF0200000000010800>ignored";

/// Without a channel a cascade port lets no control frame up.
pub(crate) const UNCHANNELLED: &str =
    "hear 030000000000000006000103>first 894014020006; second 894010020006830000000000000006000100;\n\
     below 14 0180C200000E02454201000288CC>";

// An extender whose tables are laid.
fn laid(rt: &impl Abort, alloc: Global) -> Fixture {
    let mut fixture = Fixture::new(rt, alloc);
    judge(rt, alloc, &mut fixture, LAID);
    fixture
}

// Asserts that each step of an extender whose tables are laid is told as it must be.
fn judge_laid(rt: &impl Abort, alloc: Global, steps: &str) {
    judge(rt, alloc, &mut laid(rt, alloc), steps);
}

#[test]
fn frames_go_where_they_must(rt: HostRuntime) {
    judge_laid(&rt, rt.alloc(), DOWN);
    judge_laid(&rt, rt.alloc(), BELOW);
    judge_laid(&rt, rt.alloc(), ARRIVE);
    judge_laid(&rt, rt.alloc(), UNCHANNELLED);
}

/// A frame of a station with the type of an E-TAG, and the same with the E-TAG of the group.
const STATIONS: &str = "FFFFFFFFFFFF020000000001893F000010000000";

const TAGGED: &str = "FFFFFFFFFFFF020000000001893F000110000000893F000010000000";

const TAG: ETag = ETag {
    pcp: 0,
    dei: false,
    ingress: 1,
    ecid: 0x1000,
};

// Puts the E-TAG into a frame, and asserts what comes of it.
fn tag(rt: &impl Abort, alloc: Global, frame: &[u8], word: &mut Vec<u8>) {
    let mut text = String::new(alloc);
    assert!(rt; frame.len() >= 12);
    assert!(rt; tag_into(frame, &TAG, word).is_ok());
    put_bytes(rt, alloc, &mut text, word.as_slice());
    same(rt, text.as_str(), TAGGED, STATIONS);
}

// Asserts that a word goes to two ports.
fn expect_two(rt: &impl Abort, fixture: &mut Fixture, word: &[u8]) {
    fixture.down(word);
    assert!(rt; fixture.outs().len() == 2);
}

#[test]
fn an_e_tag_of_a_station_comes_out_as_it_was(rt: HostRuntime) {
    let alloc = rt.alloc();
    let frame = bytes_of(&rt, alloc, STATIONS);
    let mut word = Vec::new(alloc);
    tag(&rt, alloc, frame.as_slice(), &mut word);
    expect_two(&rt, &mut laid(&rt, alloc), word.as_slice());
}
