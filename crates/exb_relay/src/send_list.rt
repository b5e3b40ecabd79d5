//! Sends that are put behind others.
ghost use Rattle.std.specs.Prelude.{◌≡◌, ◌+◌, ◌<◌, ◌≤◌, ◌++◌};
ghost use Rattle.arrayvec.specs.ArrayVec.{array_vec_len};
ghost use Rattle.exb_relay.specs.Sends.{local_send};
ghost use Rattle.exb_relay.specs.SendsBySource.{words_for};

use crate::send::SendTo;
use crate::source::Source;
use arrayvec::ArrayVec;
use exb_frame::etag::ETag;
use exb_model::vlan::Kind;

/// The frame itself leaves at a port of the bridge, counted from 0, where it is a target.
pub(crate) fn send_at_once(sends: &mut ArrayVec<SendTo, 256>, place: u8, target: Option<Kind>)
    requires place { place < 64 }
    requires room { array_vec_len sends.old < 256 }
    ensures items { sends.new.items ≡ sends.old.items ++ local_send place target }
    ensures few { array_vec_len sends.new ≤ array_vec_len sends.old + 1 }
{
    if let Some(kind) = target {
        sends.push(SendTo {
            bridge_port: place + 1,
            tag: None,
            kind,
        });
    }
}

/// A word with a number, where there is one, goes down at a port of the bridge, counted from 0.
pub(crate) fn send_word(
    sends: &mut ArrayVec<SendTo, 256>,
    place: u8,
    source: &Source,
    kind: Kind,
    number: Option<u16>,
)
    requires place { place < 64 }
    requires room { array_vec_len sends.old < 256 }
    ensures items { sends.new.items ≡ sends.old.items ++ words_for source.now place kind number }
    ensures few { array_vec_len sends.new ≤ array_vec_len sends.old + 1 }
{
    if let Some(ecid) = number {
        let tag = ETag {
            pcp: source.pcp,
            dei: source.dei,
            ingress: source.ingress(place),
            ecid,
        };
        sends.push(SendTo {
            bridge_port: place + 1,
            tag: Some(tag),
            kind,
        });
    }
}
