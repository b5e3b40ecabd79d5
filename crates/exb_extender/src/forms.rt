//! The forms in which an extender sends a frame, of any length.
ghost use Rattle.std.specs.Prelude.{◌≡◌, OnOk};
ghost use Rattle.exb_frame.specs.TagValues.{tag_of};
ghost use Rattle.exb_extender.specs.Forwarding.{channel_tag};
ghost use Rattle.exb_extender.specs.SentFrames.{CanBeGiven, bytes_in};

use crate::sends::Form;
use exb_frame::etag::{ETag, strip_into, tag_into};
use exb_model::memory::NoMemory;

/// A frame as it is, in place of what was in `into`.
#[inline(always)]
fn put_whole(frame: &[u8], into: &mut Vec<u8>) -> Result<(), NoMemory>
    ensures { OnOk result (into.new.items ≡ frame.now) }
{
    into.clear();
    into.extend_from_slice(frame)?;
    Ok(())
}

/// The E-TAG that names a channel (IEEE 802.1BR): priority 0, and no port from which the frame
/// came.
#[inline(always)]
pub fn channel_tag(channel: u16) -> ETag
    ensures { tag_of result ≡ channel_tag channel }
{
    ETag {
        pcp: 0,
        dei: false,
        ingress: 0,
        ecid: channel,
    }
}

/// A frame in the form in which it is sent, in place of what was in `into`.
#[inline(always)]
pub fn put_form(frame: &[u8], form: &Form, into: &mut Vec<u8>) -> Result<(), NoMemory>
    requires { CanBeGiven frame.now form.now }
    ensures { OnOk result (into.new.items ≡ bytes_in frame.now form.now) }
{
    match form {
        Form::AsIs => put_whole(frame, into),
        Form::Stripped => strip_into(frame, into),
        Form::Tagged { channel } => tag_into(frame, &channel_tag(*channel), into),
    }
}
