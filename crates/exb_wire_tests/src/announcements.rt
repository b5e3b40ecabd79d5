//! Announcements: what the bytes of a frame say, or their first fault. Each TLV stands as its
//! header and its value.
use crate::formats::{WireFormat, judge};
use crate::row_words::expect_bytes;
use exb_lldp::{Announce, write};
use exb_model::address::Mac;
use exb_model::buffers::ControlBuf;

const FRAMES: &str =
    "0180C200000E 024542010001 88CC 0207 04024542010001 0403 077570 0602 0078 FE05 0245420102 0000>Announce { chassis: Mac([2, 69, 66, 1, 0, 1]), ports: 2 }\n\
     # A value of 511 bytes is cut, whatever its type.\n\
     0180C200000E 024542010001 88CC 03FF 04024542010001 0403 077570 0602 0078 FE05 0245420102 0000>Cut { at: 14 }\n\
     0180C200000E 024542010001 88CC 05FF 04024542010001 0403 077570 0602 0078 FE05 0245420102 0000>Cut { at: 14 }\n\
     # Another destination, another type.\n\
     0180C200000F 024542010001 88CC 0207 04024542010001 0403 077570 0602 0078 FE05 0245420102 0000>NotLldp\n\
     0180C200000E 024542010001 8940 0207 04024542010001 0403 077570 0602 0078 FE05 0245420102 0000>NotLldp\n\
     # A Chassis ID of 6 bytes or of another subtype, a Port ID of another type, a Time To Live of 3 bytes.\n\
     0180C200000E 024542010001 88CC 0206 04024542010001 0403 077570 0602 0078 FE05 0245420102 0000>Order { at: 14 }\n\
     0180C200000E 024542010001 88CC 0207 05024542010001 0403 077570 0602 0078 FE05 0245420102 0000>Order { at: 14 }\n\
     0180C200000E 024542010001 88CC 0207 04024542010001 0603 077570 0602 0078 FE05 0245420102 0000>Order { at: 23 }\n\
     0180C200000E 024542010001 88CC 0207 04024542010001 0403 077570 0603 0078 FE05 0245420102 0000>Order { at: 28 }\n\
     # The End in place of the Chassis ID, a second Port ID.\n\
     0180C200000E 024542010001 88CC 0000 04024542010001 0403 077570 0602 0078 FE05 0245420102 0000>Order { at: 14 }\n\
     0180C200000E 024542010001 88CC 0207 04024542010001 0403 077570 0602 0078 0405 0245420102 0000>Order { at: 32 }\n\
     # A port count of 0 or 65, another number, another subtype.\n\
     0180C200000E 024542010001 88CC 0207 04024542010001 0403 077570 0602 0078 FE05 0245420100 0000>NoExtension\n\
     0180C200000E 024542010001 88CC 0207 04024542010001 0403 077570 0602 0078 FE05 0245420141 0000>NoExtension\n\
     0180C200000E 024542010001 88CC 0207 04024542010001 0403 077570 0602 0078 FE05 0246420102 0000>NoExtension\n\
     0180C200000E 024542010001 88CC 0207 04024542010001 0403 077570 0602 0078 FE05 0245420202 0000>NoExtension\n\
     0180C200000E 024542010001 88CC 0207 04024542010001 0403 077570 0602 0078 FE05 0245420140 0000>Announce { chassis: Mac([2, 69, 66, 1, 0, 1]), ports: 64 }\n\
     # No type.\n\
     0180C200000E 024542010001 88>NotLldp\n\
     # No TLV, half a header, half a value, no End.\n\
     0180C200000E 024542010001 88CC>Cut { at: 14 }\n\
     0180C200000E 024542010001 88CC 0207 04024542010001 04>Cut { at: 23 }\n\
     0180C200000E 024542010001 88CC 0207 04024542010001 0403 077570 0602 00>Cut { at: 28 }\n\
     0180C200000E 024542010001 88CC 0207 04024542010001 0403 077570 0602 0078 FE05 0245420102>Cut { at: 39 }\n\
     # A foreign TLV is skipped, the first extension TLV counts, and bytes after the End are ignored.\n\
     0180C200000E 024542010001 88CC 0207 04024542010001 0403 077570 0602 0078 0A01 07 FE05 0245420109 FE05 024542010A 0000 FF>Announce { chassis: Mac([2, 69, 66, 1, 0, 1]), ports: 9 }\n\
     # An End with a value is an End, if the value is there.\n\
     0180C200000E 024542010001 88CC 0207 04024542010001 0403 077570 0602 0078 FE05 0245420102 0001 05>Announce { chassis: Mac([2, 69, 66, 1, 0, 1]), ports: 2 }\n\
     0180C200000E 024542010001 88CC 0207 04024542010001 0403 077570 0602 0078 FE05 0245420102 0001>Cut { at: 39 }\n\
     0180C200000E 024542010001 88CC 0207 04024542010001 0403 077570 0602 0078 FE05 0245420102 0000 FF>Announce { chassis: Mac([2, 69, 66, 1, 0, 1]), ports: 2 }";

#[test]
fn announcements_are_read(rt: HostRuntime) {
    judge(&rt, rt.alloc(), WireFormat::Announcement, FRAMES);
}

#[test]
fn announcements_are_written(rt: HostRuntime) {
    let announce = Announce {
        chassis: Mac([0x02, 0x45, 0x42, 0x01, 0x00, 0x01]),
        ports: 2,
    };
    let mut out = ControlBuf::new();
    write(&announce, &mut out);
    let wanted =
        "0180C200000E 024542010001 88CC 0207 04024542010001 0403 077570 0602 0078 FE05 0245420102 0000";
    expect_bytes(&rt, rt.alloc(), out.as_slice(), wanted);
}
