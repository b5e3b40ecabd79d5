//! A word that an extender sends on to one side alone.
ghost use Rattle.std.specs.Prelude.{◌≤◌, length, OnOk};
ghost use Rattle.exb_model.specs.ETags.{stripped};
ghost use Rattle.exb_extender.specs.SentFrames.{out_sent};
ghost use Rattle.exb_world_spec.specs.ExtenderSteps.{sends, sent_to};
ghost use Rattle.exb_extender.specs.Forms.{CanGo, IsSide};
ghost use Rattle.exb_model.specs.DeviceSets.{IsNumber};
ghost use Rattle.exb_world.specs.MachineWorlds.{world_in, IsAt, Does};

use crate::extender_sends::{send_frame, send_to};
use crate::incoming_frame::IncomingFrame;
use crate::parts::WorldParts;
use exb_bridge::TreeIndex;
use exb_extender::{Form, Out, Side};
use exb_frame::etag::{E_TAG_AT, E_TAG_LENGTH};
use exb_link::BoxedFrame;
use exb_model::memory::NoMemory;
use exb_outbox::StepOutput;

/// A word goes on to a side in another form than that in which it came; its buffer is kept.
#[inline(always)]
fn change(
    site: &TreeIndex,
    number: u8,
    word: BoxedFrame,
    out: &Out,
    core: &mut WorldParts,
    post: &mut StepOutput,
) -> Result<(), NoMemory>
    requires at { IsAt site.now core.old }
    requires number { IsNumber number }
    requires can { CanGo word.bytes out.now }
    ensures { OnOk result (Does (sends site.now.tree number word.stamp (out_sent word.bytes out.now)
        (world_in core.old)) site.now core.new post.old.log post.new.log) }
{
    let came = IncomingFrame {
        frame: word.bytes(),
        stamp: word.stamp(),
    };
    send_frame(site, number, &came, out, core, post)?;
    post.store.keep_word(post.alloc, word);
    Ok(())
}

/// A word goes on to a side without its E-TAG: the eight bytes at byte 12 are taken out where they
/// stand.
#[inline(always)]
fn strip(
    site: &TreeIndex,
    number: u8,
    mut word: BoxedFrame,
    to: Side,
    core: &mut WorldParts,
    post: &mut StepOutput,
) -> Result<(), NoMemory>
    requires at { IsAt site.now core.old }
    requires number { IsNumber number }
    requires side { IsSide to }
    requires long { 20 ≤ length word.bytes }
    ensures { OnOk result (Does (sent_to site.now.tree number word.stamp to (stripped word.bytes)
        (world_in core.old)) site.now core.new post.old.log post.new.log) }
{
    word.take_out(E_TAG_AT, E_TAG_LENGTH);
    send_to(site, number, to, word, core, post)
}

/// A word goes on to a side, in a form; as it is, or without its E-TAG, it isn't copied.
#[inline(always)]
pub(crate) fn pass_on(
    site: &TreeIndex,
    number: u8,
    word: BoxedFrame,
    out: &Out,
    core: &mut WorldParts,
    post: &mut StepOutput,
) -> Result<(), NoMemory>
    requires at { IsAt site.now core.old }
    requires number { IsNumber number }
    requires can { CanGo word.bytes out.now }
    ensures { OnOk result (Does (sends site.now.tree number word.stamp (out_sent word.bytes out.now)
        (world_in core.old)) site.now core.new post.old.log post.new.log) }
{
    match out.form {
        Form::AsIs => send_to(site, number, out.to, word, core, post),
        Form::Stripped => strip(site, number, word, out.to, core, post),
        Form::Tagged { .. } => change(site, number, word, out, core, post),
    }
}
