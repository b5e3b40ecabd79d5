//! The kind of a frame.
ghost use Rattle.std.specs.Prelude.{◌≡◌, ◌≢◌, ◌≤◌, ◌<◌, ◌==◌, true, length};
ghost use Rattle.exb_model.specs.Frames.{kind_of, priority_of, is_reserved, kind_of_tag, number_at};
ghost use Rattle.exb_model.specs.EagerHistory.{is_relayed_kind};

use exb_model::bytes::number_at;
use exb_model::frame_kind::Seen;
use exb_model::vlan::Vid;

/// The EtherType of a VLAN tag (IEEE 802.1Q).
const VLAN_TYPE: u16 = 0x8100;

fn is_reserved(frame: &[u8]) -> bool
    requires { 6 ≤ length frame.now }
    ensures { result ≡ is_reserved frame.now }
{
    frame[0] == 0x01
        && frame[1] == 0x80
        && frame[2] == 0xC2
        && frame[3] == 0
        && frame[4] == 0
        && frame[5] < 16
}

/// Whether a VLAN tag stands behind the addresses of a frame, by its type.
#[inline(always)]
pub(crate) fn has_vlan_type(frame: &[u8]) -> bool
    requires { 14 ≤ length frame.now }
    ensures { result ≡ (number_at frame.now 12 == 0x8100) }
{
    number_at(frame, 12) == VLAN_TYPE
}

fn kind_of_tag(tci: u16) -> Seen
    ensures kind { result ≡ kind_of_tag tci }
    ensures priority { priority_of result < 16 }
{
    let pcp = (tci / 8192) as u8;
    let dei = tci / 4096 % 2 == 1;
    let number = tci % 4096;
    if number == 4095 {
        return Seen::BadTag;
    }
    match Vid::new(number) {
        None => Seen::Priority { pcp, dei },
        Some(vid) => Seen::Tagged { pcp, dei, vid },
    }
}

/// The kind of a frame (IEEE 802.1Q): the first that fits of Short (under 14 bytes), Long (over
/// 9,216), Reserved (a reserved destination), and by the VLAN tag BadTag, Priority, Tagged or
/// Plain.
#[tactic(auto, unfolding(exb_model::specs::Frames::kind_of))]
pub fn classify(frame: &[u8]) -> Seen
    ensures kind { result ≡ kind_of frame.now }
    ensures priority { priority_of result < 16 }
    ensures long { result ≢ Seen.Short → 14 ≤ length frame.now }
{
    if frame.len() < 14 {
        return Seen::Short;
    }
    if frame.len() > 9216 {
        return Seen::Long;
    }
    if is_reserved(frame) {
        return Seen::Reserved;
    }
    if has_vlan_type(frame) {
        if frame.len() < 18 {
            return Seen::BadTag;
        }
        return kind_of_tag(number_at(frame, 14));
    }
    Seen::Plain
}

/// Whether frames of a kind may be relayed: it isn't short, long or reserved.
fn may_be_relayed(seen: Seen) -> bool
    ensures { result ≡ is_relayed_kind seen }
{
    !matches!(seen, Seen::Short | Seen::Long | Seen::Reserved)
}

/// Whether a frame isn't short, long or reserved, so that a bridge may relay it (IEEE 802.1Q,
/// clause 8.6.3).
pub fn is_relayed_kind(frame: &[u8]) -> bool
    ensures kind { result ≡ is_relayed_kind (kind_of frame.now) }
    ensures long { result ≡ true → 14 ≤ length frame.now }
    ensures fits { result ≡ true → length frame.now ≤ 9216 }
{
    may_be_relayed(classify(frame))
}
