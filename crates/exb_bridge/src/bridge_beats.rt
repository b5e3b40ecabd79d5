//! A beat at the bridge.
ghost use Rattle.std.specs.Prelude.{◌≡◌, ◌≤◌, true, OnOk, length};
ghost use Rattle.exb_model.specs.Tree.{is_extender};
ghost use Rattle.exb_ecp.specs.StopAndWait.{sent_payload};
ghost use Rattle.exb_world_spec.specs.Effects.{each};
ghost use Rattle.exb_world_spec.specs.ControlFrames.{beats_control, beats_near};
ghost use Rattle.exb_world_spec.specs.Steps.{all_extenders, if_there};
ghost use Rattle.exb_world_spec.specs.Runs.Requests.{AsksWell};
ghost use Rattle.exb_bridge.specs.TreeIndexes.{limits_in};
ghost use Rattle.exb_bridge.specs.BridgeWorlds.{Rest, whole, world_in, IsAt, Does};

use crate::bridge::Bridge;
use crate::requests::{follow, send_to_extender, spell_request};
use crate::scratch::{Buffers, StepScratch};
use crate::tree_index::TreeIndex;
use exb_ecp::{Beat, Ecp};
use exb_model::memory::NoMemory;
use exb_outbox::StepOutput;

/// What an end sends, which is at most 1,024 bytes.
fn payload_of(end: &Ecp) -> &[u8]
    ensures is { result.now ≡ sent_payload end.now.sending }
    ensures fits { length result.now ≤ 1024 }
{
    // Its clause has the length.
    let _ = end.idle();
    end.payload()
}

/// The bridge's end with an extender counts the beat; what it sends goes out again when that is
/// due.
#[cold]
#[inline(never)]
fn beat_near(
    site: &TreeIndex,
    number: u8,
    buffers: &mut Buffers,
    bridge: &mut Bridge,
    post: &mut StepOutput,
) -> Result<(), NoMemory>
    ghost rest: { Rest }
    requires at { IsAt site.now (whole rest bridge.old) }
    requires there { is_extender site.now.tree number ≡ true }
    ensures { OnOk result (Does (beats_near site.now.tree number (world_in (whole rest bridge.old)))
        site.now (whole rest bridge.new) post.old.log post.new.log) }
{
    site.has_low_number(number);
    if bridge.near.beat(number) != Beat::SendAgain {
        return Ok(());
    }
    let end = bridge.near.with(number);
    spell_request(end.sequence(), payload_of(end), &mut buffers.control);
    let frame = buffers.control.as_slice();
    send_to_extender(site, number, frame, bridge, post)
}

/// The same for a number that may be no extender's; then nothing is done.
fn beat_near_any(
    site: &TreeIndex,
    number: u8,
    buffers: &mut Buffers,
    bridge: &mut Bridge,
    post: &mut StepOutput,
) -> Result<(), NoMemory>
    ghost rest: { Rest }
    requires at { IsAt site.now (whole rest bridge.old) }
    ensures { OnOk result (Does (if_there site.now.tree (beats_near site.now.tree) number
        (world_in (whole rest bridge.old))) site.now (whole rest bridge.new) post.old.log
        post.new.log) }
{
    if !site.tree().is_extender(number) {
        return Ok(());
    }
    beat_near(site, number, buffers, bridge, post)
}

/// All of the bridge's ends count the beat, by extender. One that sends nothing has nothing to
/// count.
#[inline(always)]
pub fn beat_ends(
    site: &TreeIndex,
    buffers: &mut Buffers,
    bridge: &mut Bridge,
    post: &mut StepOutput,
) -> Result<(), NoMemory>
    ghost rest: { Rest }
    requires at { IsAt site.now (whole rest bridge.old) }
    ensures { OnOk result (Does (each (if_there site.now.tree (beats_near site.now.tree))
        all_extenders (world_in (whole rest bridge.old))) site.now (whole rest bridge.new)
        post.old.log post.new.log) }
{
    let mut from = 1u8;
    'numbers: while let Some(number) = bridge.near.next_sending(from) {
        beat_near_any(site, number, buffers, bridge, post)?;
        from = number + 1;
    }
    Ok(())
}

/// The control counts the beat; its outstanding request is asked again when that is due.
#[inline(never)]
fn beat_working(
    site: &TreeIndex,
    room: &mut StepScratch,
    bridge: &mut Bridge,
) -> Result<(), NoMemory>
    ghost rest: { Rest }
    requires at { IsAt site.now (whole rest bridge.old) }
    requires asks { AsksWell site.now.tree (limits_in site.now)
        (world_in (whole rest bridge.old)).control }
    ensures { OnOk result (Does (beats_control site.now.tree (world_in (whole rest bridge.old)))
        site.now (whole rest bridge.new) room.old.post.log room.new.post.log) }
{
    if bridge.control.beat(&mut room.outbox).is_err() {
        return Err(NoMemory);
    }
    follow(site, room, bridge)
}

/// The control counts the beat. Where no change is at work there is nothing to count.
#[inline(always)]
pub fn beat_control(
    site: &TreeIndex,
    room: &mut StepScratch,
    bridge: &mut Bridge,
) -> Result<(), NoMemory>
    ghost rest: { Rest }
    requires at { IsAt site.now (whole rest bridge.old) }
    requires asks { AsksWell site.now.tree (limits_in site.now)
        (world_in (whole rest bridge.old)).control }
    ensures { OnOk result (Does (beats_control site.now.tree (world_in (whole rest bridge.old)))
        site.now (whole rest bridge.new) room.old.post.log room.new.post.log) }
{
    if bridge.control.settled() {
        return Ok(());
    }
    beat_working(site, room, bridge)
}
