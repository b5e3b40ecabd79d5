//! TLVs, the parts of an LLDP frame (IEEE 802.1AB-2009, 8.4): a header of 7 bits of type and 9 bits
//! of length, and a value.
ghost use Rattle.std.specs.Prelude.{◌≡◌, ◌+◌, ◌≤◌, ◌<◌, drop, length, ◌^◌, Some, None, IfOk, MatchResult};
ghost use Rattle.exb_lldp.specs.Tlvs.{tlv_in, end_at, is_placed, count_in};
ghost use Rattle.exb_lldp.specs.ParsedValues.{Gives, tlv_of, placed_in};

use crate::announce::LldpFault;
use exb_model::address::Mac;
use exb_model::bytes::number_at;

/// The type of an End.
pub const END: u8 = 0;
/// The type of a Chassis ID.
pub const CHASSIS_ID: u8 = 1;
/// The type of a Port ID.
pub const PORT_ID: u8 = 2;
/// The type of a Time To Live.
pub const TIME_TO_LIVE: u8 = 3;
/// The type of an organizationally specific TLV.
pub const SPECIFIC: u8 = 127;

/// The subtype of a Chassis ID that is a MAC address.
pub const CHASSIS_IS_MAC: u8 = 4;
/// The subtype of a Port ID that is assigned locally.
pub const PORT_IS_LOCAL: u8 = 7;

/// A place in the sequence of TLVs.
#[derive(Clone, Copy)]
pub enum TlvPosition {
    ChassisId,
    PortId,
    TimeToLive,
    Later,
}

/// A TLV that lies whole in its frame.
#[derive(Clone, Copy)]
pub struct Tlv<'a> {
    /// The offset of its header.
    pub at: usize,
    pub kind: u8,
    pub value: &'a [u8],
}

/// The TLV at an offset of a frame; Cut where its header or its value runs past the end.
#[tactic(auto, unfolding(crate::specs::Tlvs::tlv_in))]
pub fn tlv_at(frame: &[u8], at: usize) -> Result<Tlv<'_>, LldpFault>
    requires { at ≤ length frame.now }
    ensures which { MatchResult result (λ t. tlv_in frame.now at ≡ Some (tlv_of t))
        (λ e. (tlv_in frame.now at ≡ None) × (e ≡ LldpFault.Cut at)) }
    ensures within { IfOk result (λ t. (t.at + 2 + length t.value.now ≡ end_at frame.now at)
        × (end_at frame.now at ≤ length frame.now)) }
{
    let cut = LldpFault::Cut { at: at as u64 };
    if frame.len() - at < 2 {
        return Err(cut);
    }
    let header = number_at(frame, at);
    let length = (header % 512) as usize;
    if frame.len() - at - 2 < length {
        return Err(cut);
    }
    Ok(Tlv {
        at,
        kind: (header / 512) as u8,
        value: &frame[at + 2..at + 2 + length],
    })
}

/// The TLV at an offset, which has to fit its place: Cut is tried before Order.
pub fn placed_at(frame: &[u8], at: usize, place: TlvPosition) -> Result<Tlv<'_>, LldpFault>
    requires { at ≤ length frame.now }
    ensures which { Gives tlv_of result (placed_in place frame.now at) }
    ensures within { IfOk result (λ t. (t.at + 2 + length t.value.now ≡ end_at frame.now at)
        × (end_at frame.now at ≤ length frame.now)) }
{
    let tlv = tlv_at(frame, at)?;
    if !tlv.may_stand(place) {
        return Err(LldpFault::Order { at: at as u64 });
    }
    Ok(tlv)
}

impl Tlv<'_> {
    /// The offset after its value.
    pub fn end(&self) -> usize
        requires { self.now.at + 2 + length self.now.value.now < 2 ^ 64 }
        ensures { result ≡ self.now.at + 2 + length self.now.value.now }
    {
        self.at + 2 + self.value.len()
    }

    /// Whether it may stand at this place.
    pub fn may_stand(&self, place: TlvPosition) -> bool
        ensures { result ≡ is_placed place (tlv_of self.now) }
    {
        match place {
            TlvPosition::ChassisId => {
                self.kind == CHASSIS_ID && self.value.len() == 7 && self.value[0] == CHASSIS_IS_MAC
            }
            TlvPosition::PortId => self.kind == PORT_ID && self.value.len() >= 2,
            TlvPosition::TimeToLive => self.kind == TIME_TO_LIVE && self.value.len() == 2,
            TlvPosition::Later => !(CHASSIS_ID <= self.kind && self.kind <= TIME_TO_LIVE),
        }
    }

    /// The port count, if it is an extension TLV: organizationally specific (IEEE 802.1AB-2009,
    /// 8.6), of this project's number 02-45-42 and subtype 1, with a port count of 1 to 64.
    pub fn port_count(&self) -> Option<u8>
        ensures { result ≡ count_in (tlv_of self.now) }
    {
        match self.value {
            [0x02, 0x45, 0x42, 0x01, ports]
                if self.kind == SPECIFIC && 1 <= *ports && *ports <= 64 => { Some(*ports) }
            _ => None,
        }
    }
    /// The address in a Chassis ID, after its subtype.
    pub fn address(&self) -> Mac
        requires { length self.now.value.now ≡ 7 }
        ensures { result.0 ≡ drop 1 self.now.value.now }
    {
        let value = self.value;
        Mac([value[1], value[2], value[3], value[4], value[5], value[6]])
    }
}
