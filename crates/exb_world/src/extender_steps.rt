//! What extenders do with words and frames that come to them, and at a beat.
ghost use Rattle.std.specs.Prelude.{◌≡◌, [], true, OnOk, None};
ghost use Rattle.exb_model.specs.Tree.{device, is_extender, port_number};
ghost use Rattle.exb_extender.specs.Machine.{Arrives, Beats, CanTake};
ghost use Rattle.exb_world_spec.specs.ExtenderSteps.{arrives_at, reacts, takes_from_above, takes_from_below};
ghost use Rattle.exb_world.specs.ArrivalPorts.{IsPortAt};
ghost use Rattle.exb_extender.specs.Extenders.{far_of};
ghost use Rattle.exb_world.specs.MachineWorlds.{world_in, IsAt, Does};

use crate::extender_sends::{send_all, send_frame};
use crate::forwarding::pass_on;
use crate::incoming_frame::IncomingFrame;
use crate::parts::WorldParts;
use exb_bridge::{StepScratch, TreeIndex, ignore, stamp_of};
use exb_extender::{Out, Side};
use exb_link::BoxedFrame;
use exb_model::arrival::Arrival;
use exb_model::memory::NoMemory;
use exb_model::port::PortId;

/// An extender takes a word, and all that it sends for it goes out; the word's buffer is kept.
#[inline(never)]
fn take_whole(
    site: &TreeIndex,
    number: u8,
    from: Side,
    word: BoxedFrame,
    room: &mut StepScratch,
    core: &mut WorldParts,
) -> Result<(), NoMemory>
    requires at { IsAt site.now core.old }
    requires extender { is_extender site.now.tree number ≡ true }
    requires from { CanTake (far_of core.old.far number) from }
    ensures { OnOk result (Does (reacts site.now.tree number word.stamp (Arrives from word.bytes)
        (world_in core.old)) site.now core.new room.old.post.log room.new.post.log) }
{
    site.has_low_number(number);
    let frame = word.bytes();
    core.far.take(number, from, frame, &mut room.sends);
    let came = IncomingFrame {
        frame,
        stamp: word.stamp(),
    };
    let sends = &room.sends;
    send_all(site, number, &came, sends, core, &mut room.post)?;
    room.post.store.keep_word(room.post.alloc, word);
    Ok(())
}

/// An extender takes a word. Mostly that goes on to one side alone, and nothing else is to be done.
#[inline(always)]
fn take(
    site: &TreeIndex,
    number: u8,
    from: Side,
    word: BoxedFrame,
    room: &mut StepScratch,
    core: &mut WorldParts,
) -> Result<(), NoMemory>
    requires at { IsAt site.now core.old }
    requires extender { is_extender site.now.tree number ≡ true }
    requires from { CanTake (far_of core.old.far number) from }
    ensures { OnOk result (Does (reacts site.now.tree number word.stamp (Arrives from word.bytes)
        (world_in core.old)) site.now core.new room.old.post.log room.new.post.log) }
{
    site.has_low_number(number);
    match core.far.only_out(number, from, word.bytes()) {
        Some(out) => pass_on(site, number, word, &out, core, &mut room.post),
        None => take_whole(site, number, from, word, room, core),
    }
}

/// An extender takes a word from upstream.
#[inline(always)]
pub(crate) fn take_from_above(
    site: &TreeIndex,
    number: u8,
    word: BoxedFrame,
    room: &mut StepScratch,
    core: &mut WorldParts,
) -> Result<(), NoMemory>
    requires at { IsAt site.now core.old }
    requires extender { is_extender site.now.tree number ≡ true }
    ensures { OnOk result (Does (takes_from_above site.now.tree number word (world_in core.old))
        site.now core.new room.old.post.log room.new.post.log) }
{
    take(site, number, Side::Up, word, room, core)
}

/// An extender takes a word from one of its ports, if that is a cascade port in its tables.
#[inline(always)]
pub(crate) fn take_from_below(
    site: &TreeIndex,
    port: PortId,
    word: BoxedFrame,
    room: &mut StepScratch,
    core: &mut WorldParts,
) -> Result<(), NoMemory>
    requires at { IsAt site.now core.old }
    requires port { IsPortAt site.now.tree port }
    ensures { OnOk result (Does (takes_from_below site.now.tree (device port) (port_number port)
        word (world_in core.old)) site.now core.new room.old.post.log room.new.post.log) }
{
    let number = port.device();
    let port = port.place() + 1;
    if !core.far.cascade(number, port) {
        return Ok(());
    }
    take(site, number, Side::Port { port }, word, room, core)
}

/// A frame arrives at an external port of an extender.
#[inline(never)]
pub(crate) fn arrive_at(
    site: &TreeIndex,
    arrival: &Arrival,
    room: &mut StepScratch,
    core: &mut WorldParts,
) -> Result<(), NoMemory>
    requires at { IsAt site.now core.old }
    requires port { IsPortAt site.now.tree arrival.now.port }
    ensures { OnOk result (Does (arrives_at site.now.tree arrival.now (world_in core.old)) site.now
        core.new room.old.post.log room.new.post.log) }
{
    let number = arrival.port.device();
    site.has_low_number(number);
    let port = arrival.port.place() + 1;
    if core.far.cascade(number, port) {
        return ignore(arrival, &mut room.post.log);
    }
    let frame = arrival.bytes.as_slice();
    match core.far.form_in(number, port, frame) {
        None => ignore(arrival, &mut room.post.log),
        Some(form) => {
            let came = IncomingFrame {
                frame,
                stamp: Some(stamp_of(arrival)),
            };
            let out = Out { to: Side::Up, form };
            send_frame(site, number, &came, &out, core, &mut room.post)
        }
    }
}

/// A beat passes at an extender.
#[cold]
#[inline(never)]
pub(crate) fn beat(
    site: &TreeIndex,
    number: u8,
    room: &mut StepScratch,
    core: &mut WorldParts,
) -> Result<(), NoMemory>
    requires at { IsAt site.now core.old }
    requires extender { is_extender site.now.tree number ≡ true }
    ensures { OnOk result (Does (reacts site.now.tree number None Beats (world_in core.old))
        site.now core.new room.old.post.log room.new.post.log) }
{
    site.has_low_number(number);
    core.far.beat(number, &mut room.sends);
    let came = IncomingFrame {
        frame: &[],
        stamp: None,
    };
    let sends = &room.sends;
    send_all(site, number, &came, sends, core, &mut room.post)
}
