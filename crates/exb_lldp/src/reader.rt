//! Reading an announcement.
ghost use Rattle.std.specs.Prelude.{◌≡◌, ◌≤◌, length};
ghost use Rattle.exb_lldp.specs.Tlvs.{tlvs_from};
ghost use Rattle.exb_lldp.specs.Announcements.{is_lldp, announced, count_told};

use crate::announce::{Announce, LldpFault};
use crate::tlv::{END, TlvPosition, placed_at};
use exb_model::address::is_control_frame;
use exb_model::bytes::number_at;

/// The EtherType of LLDP.
const LLDP_TYPE: u16 = 0x88CC;
/// Where the TLVs of a frame begin.
const FIRST: usize = 14;

/// Whether the frame has the destination and the EtherType of an announcement.
fn is_announcement(frame: &[u8]) -> bool
    ensures { result ≡ is_lldp frame.now }
{
    if frame.len() < FIRST {
        return false;
    }
    is_control_frame(frame) && number_at(frame, 12) == LLDP_TYPE
}

/// The port count that the TLVs after a Time To Live tell.
fn later_port_count(frame: &[u8], start: usize) -> Result<u8, LldpFault>
    requires { start ≤ length frame.now }
    ensures { result ≡ count_told TlvPosition.Later (tlvs_from frame.now start) }
{
    let mut at = start;
    let mut count = None;
    'tlvs: loop {
        let tlv = placed_at(frame, at, TlvPosition::Later)?;
        if tlv.kind == END {
            return count.ok_or(LldpFault::NoExtension);
        }
        count = count.or(tlv.port_count());
        at = tlv.end();
    }
}

/// What a frame announces, or the first place where it is no announcement: at each TLV, whether it
/// is cut is tried before whether it may stand at its place. Other TLVs are skipped, the first
/// extension TLV counts, and bytes after the End, the source address, and the values of Port ID and
/// Time To Live are not looked at.
pub fn read(frame: &[u8]) -> Result<Announce, LldpFault>
    ensures { result ≡ announced frame.now }
{
    if !is_announcement(frame) {
        return Err(LldpFault::NotLldp);
    }
    let chassis_id = placed_at(frame, FIRST, TlvPosition::ChassisId)?;
    let port_id = placed_at(frame, chassis_id.end(), TlvPosition::PortId)?;
    let time_to_live = placed_at(frame, port_id.end(), TlvPosition::TimeToLive)?;
    let ports = later_port_count(frame, time_to_live.end())?;
    Ok(Announce {
        chassis: chassis_id.address(),
        ports,
    })
}
