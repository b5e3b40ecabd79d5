//! Where a frame goes that comes from one side, and in which form (after IEEE 802.1BR).
ghost use Rattle.std.specs.Prelude.{◌≡◌, ◌<◌, ◌≤◌, ◌++◌, [], length, map, is_none, All, IfSome, IsTrue};
ghost use Rattle.arrayvec.specs.ArrayVec.{array_vec_len};
ghost use Rattle.exb_model.specs.ETags.{read_etag};
ghost use Rattle.exb_frame.specs.TagValues.{tag_of};
ghost use Rattle.exb_extender.specs.Forwarding.{emitted, is_bare_control, names_channel, is_refused_kind, is_ignored, sent_from_cascade, sent_from_external};
ghost use Rattle.exb_extender.specs.SingleSide.{GoesAt, GoesTo};
ghost use Rattle.exb_extender.specs.SentFrames.{out_sent, form_sent, form_at, outs_at, outs_where, CanBeGiven};
ghost use Rattle.exb_extender.specs.Tables.{tables_of};

use crate::sends::{Form, Out, Side};
use crate::tables::ForwardingTables;
use arrayvec::ArrayVec;
use exb_frame::classify::classify;
use exb_frame::etag::{E_TAG_AT, E_TAG_TYPE, ETag};
use exb_model::address::is_control_frame;
use exb_model::bytes::number_at;
use exb_model::frame_kind::Seen;

/// Where a frame goes, and in which form.
pub(crate) type Outs = ArrayVec<Out, 65>;

/// Whether it is a control frame without an E-TAG.
#[tactic(auto, unfolding(crate::specs::Forwarding::is_bare_control))]
pub(crate) fn is_bare_control(frame: &[u8]) -> bool
    ensures control { result ≡ is_bare_control frame.now }
    ensures long { IsTrue result → 14 ≤ length frame.now }
{
    if frame.len() < 14 {
        return false;
    }
    if number_at(frame, E_TAG_AT) == E_TAG_TYPE {
        return false;
    }
    is_control_frame(frame)
}

// The form in which a frame with that E-TAG goes out at a port that has the pair. None without a
// channel, and at the external port from which it came.
#[inline(always)]
fn form_at(tables: &ForwardingTables, port: u8, tag: &ETag) -> Option<Form>
    requires { port ≤ 64 }
    ensures { result ≡ form_at (tables_of tables.now) (tag_of tag.now) port }
{
    let channel = tables.channel(port);
    let external = !tables.cascade(port);
    if channel == 0 {
        return None;
    }
    if external && tag.ecid >= 4096 && tag.ingress != 0 && channel == tag.ingress {
        return None;
    }
    if external || channel == tag.ecid {
        return Some(Form::Stripped);
    }
    Some(Form::AsIs)
}

// Adds the port, if the frame goes out there.
fn send_at(tables: &ForwardingTables, port: u8, tag: &ETag, frames: &mut Outs)
    requires port { port ≤ 64 }
    requires room { array_vec_len frames.old < 65 }
    ensures { frames.new.items ≡ frames.old.items ++ outs_at (tables_of tables.now)
        (tag_of tag.now) port }
{
    if let Some(form) = form_at(tables, port, tag) {
        frames.push(Out {
            to: Side::Port { port },
            form,
        });
    }
}

// Goes through the ports of the E-CID alone, lowest first.
fn replicate(tables: &ForwardingTables, tag: &ETag, frames: &mut Outs)
    requires ecid { tag.now.ecid < 16384 }
    requires empty { frames.old.items ≡ [] }
    ensures { let t = tables_of tables.now in frames.new.items
        ≡ outs_where (t.pair tag.now.ecid) t (tag_of tag.now) }
{
    let mut left = tables.row(tag.ecid);
    'ports: while left != 0 {
        let at = left.trailing_zeros() as u8;
        left &= !(1 << at);
        send_at(tables, at + 1, tag, frames);
    }
}

// The one port at which a frame with that E-TAG goes out, where its E-CID has that port alone.
#[inline(always)]
fn only_port(tables: &ForwardingTables, tag: &ETag) -> Option<Out>
    requires { tag.now.ecid < 16384 }
    ensures { IfSome result (GoesAt (tables_of tables.now) (tag_of tag.now)) }
{
    let word = tables.row(tag.ecid);
    if word == 0 {
        return None;
    }
    let at = word.trailing_zeros() as u8;
    if word & !(1 << at) != 0 {
        return None;
    }
    match form_at(tables, at + 1, tag) {
        Some(form) => Some(Out {
            to: Side::Port { port: at + 1 },
            form,
        }),
        None => None,
    }
}

/// The one side to which a frame from upstream goes on, where it has the E-TAG of one port. None
/// says nothing.
#[inline(always)]
pub(crate) fn only_down(tables: &ForwardingTables, frame: &[u8]) -> Option<Out>
    ensures { IfSome result (GoesTo (tables_of tables.now) Side.Up frame.now) }
{
    match ETag::read(frame) {
        Some(tag) => only_port(tables, &tag),
        None => None,
    }
}

/// Where a frame goes that comes from upstream: in rising order to the ports of its E-CID.
pub(crate) fn send_down(tables: &ForwardingTables, frame: &[u8], frames: &mut Outs)
    requires { frames.old.items ≡ [] }
    ensures sends { map (out_sent frame.now) frames.new.items
        ≡ emitted (tables_of tables.now) Side.Up frame.now }
    ensures given { All (λ out. CanBeGiven frame.now out.form) frames.new.items }
{
    if let Some(tag) = ETag::read(frame) {
        replicate(tables, &tag, frames);
    }
}

// Whether the frame has the E-TAG of a channel.
#[inline(always)]
fn names_channel(frame: &[u8]) -> bool
    ensures { result ≡ names_channel (read_etag frame.now) }
{
    match ETag::read(frame) {
        Some(tag) => tag.ecid > 0 && tag.ecid < 4095,
        None => false,
    }
}

/// A frame from a cascade port goes up as it is, where it has the E-TAG of a channel. None says
/// nothing.
#[inline(always)]
pub(crate) fn only_up(tables: &ForwardingTables, port: u8, frame: &[u8]) -> Option<Out>
    requires { port ≤ 64 }
    ensures { IfSome result (GoesTo (tables_of tables.now) (Side.Port port) frame.now) }
{
    if !tables.cascade(port) {
        return None;
    }
    if !names_channel(frame) {
        return None;
    }
    Some(Out {
        to: Side::Up,
        form: Form::AsIs,
    })
}

/// The form in which a frame goes up that comes from a cascade port with that channel: what has the
/// E-TAG of a channel as it is, and a control frame without an E-TAG by the port's own channel.
pub(crate) fn form_from_cascade(channel: u16, frame: &[u8]) -> Option<Form>
    requires { channel < 4095 }
    ensures sent { form_sent frame.now result ≡ sent_from_cascade channel frame.now }
    ensures given { IfSome result (CanBeGiven frame.now) }
{
    if names_channel(frame) {
        return Some(Form::AsIs);
    }
    if channel != 0 && is_bare_control(frame) {
        return Some(Form::Tagged { channel });
    }
    None
}

// Whether frames of that kind are let in at external ports.
fn is_refused_kind(kind: &Seen) -> bool
    ensures { result ≡ is_refused_kind kind.now }
{
    matches!(kind, Seen::Short | Seen::Long | Seen::Reserved)
}

/// The form in which a frame goes up that comes from an external port with that channel. None where
/// it is ignored: without a channel, and where it is too short, too long, or has a reserved
/// destination.
pub(crate) fn form_from_external(channel: u16, frame: &[u8]) -> Option<Form>
    requires { channel < 4095 }
    ensures sent { form_sent frame.now result ≡ sent_from_external channel frame.now }
    ensures ignored { is_none result ≡ is_ignored channel frame.now }
    ensures given { IfSome result (CanBeGiven frame.now) }
{
    if channel == 0 {
        return None;
    }
    if is_refused_kind(&classify(frame)) {
        return None;
    }
    Some(Form::Tagged { channel })
}
