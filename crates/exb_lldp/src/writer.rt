//! Writing an announcement.
ghost use Rattle.std.specs.Prelude.{◌≡◌, ◌+◌, ◌≤◌, ◌<◌, ◌++◌, length, Ok};
ghost use Rattle.arrayvec.specs.ArrayVec.{array_vec_len};
ghost use Rattle.exb_lldp.specs.Encoding.{CanBeAnnounced, spelling, tlv};
ghost use Rattle.exb_lldp.specs.Announcements.{announced};

use crate::announce::Announce;
use crate::tlv::{CHASSIS_ID, CHASSIS_IS_MAC, END, PORT_ID, PORT_IS_LOCAL, SPECIFIC, TIME_TO_LIVE};
use exb_model::address::CONTROL_ADDRESS;
use exb_model::buffers::ControlBuf;

/// Appends bytes for which there is room.
fn append(out: &mut ControlBuf, bytes: &[u8])
    requires { array_vec_len out.old + length bytes.now ≤ 1100 }
    ensures { out.new.items ≡ out.old.items ++ bytes.now }
{
    let _ = out.try_extend_from_slice(bytes);
}

/// Appends a TLV for which there is room.
fn append_tlv(out: &mut ControlBuf, kind: u8, value: &[u8])
    requires type_fits { kind < 128 }
    requires length_fits { length value.now < 512 }
    requires room { array_vec_len out.old + 2 + length value.now ≤ 1100 }
    ensures { out.new.items ≡ out.old.items ++ tlv kind value.now }
{
    let header = kind as u16 * 512 + value.len() as u16;
    append(out, &header.to_be_bytes());
    append(out, value);
}

/// Writes the frame that announces this, and nothing else, into `out`.
pub fn write(announce: &Announce, out: &mut ControlBuf)
    requires { CanBeAnnounced announce.now }
    ensures spelled { out.new.items ≡ spelling announce.now }
    ensures read_again { announced out.new.items ≡ Ok announce.now }
{
    let [a, b, c, d, e, f] = announce.chassis.0;
    out.clear();
    append(out, &CONTROL_ADDRESS);
    append(out, &[a, b, c, d, e, f]);
    append(out, &[0x88, 0xCC]);
    append_tlv(out, CHASSIS_ID, &[CHASSIS_IS_MAC, a, b, c, d, e, f]);
    append_tlv(out, PORT_ID, &[PORT_IS_LOCAL, b'u', b'p']);
    append_tlv(out, TIME_TO_LIVE, &[0, 120]);
    append_tlv(out, SPECIFIC, &[0x02, 0x45, 0x42, 0x01, announce.ports]);
    append_tlv(out, END, &[]);
}
