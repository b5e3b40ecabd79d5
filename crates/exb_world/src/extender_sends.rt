//! What an extender sends: it goes onto the link of the extender that hangs there, or leaves the
//! network.
ghost use Rattle.std.specs.Prelude.{◌≡◌, ◌<◌, ◌≤◌, true, false, OnOk, map};
ghost use Rattle.std.specs.List.{All};
ghost use Rattle.exb_csp.specs.AllTables.{port_of};
ghost use Rattle.exb_extender.specs.SentFrames.{out_sent, own_sent, sent_by};
ghost use Rattle.exb_world_spec.specs.Effects.{each};
ghost use Rattle.exb_world_spec.specs.ExtenderSteps.{hung_on, sent_at, sent_to, sends};
ghost use Rattle.exb_world_spec.specs.Worlds.{moment_of};
ghost use Rattle.exb_extender.specs.Forms.{IsSide, CanGo};
ghost use Rattle.exb_world.specs.ExtenderEgress.{row_sent, AreOuter, GoesBehind, Joins, JoinsAt};
ghost use Rattle.exb_model.specs.DeviceSets.{IsNumber};
ghost use Rattle.exb_outbox.specs.PortMaps.{ports_in};
ghost use Rattle.exb_world.specs.MachineWorlds.{whole_of, world_in, IsAt, Does};

use crate::incoming_frame::IncomingFrame;
use crate::parts::WorldParts;
use exb_bridge::{TreeIndex, hung_on};
use exb_extender::forms::put_form;
use exb_extender::{Form, Out, Sends, Side};
use exb_frame::etag::strip_into;
use exb_link::{BoxedFrame, Stamp};
use exb_model::bytes::Bytes;
use exb_model::memory::NoMemory;
use exb_model::port::PortId;
use exb_outbox::log::{note_out, note_row};
use exb_outbox::{Left, PortMap, StepOutput};

/// The moment of the record by which a word came in; 0 where it has none.
#[inline(always)]
fn moment_of(stamp: &Option<Stamp>) -> u64
    ensures { result ≡ moment_of stamp.now }
{
    match stamp {
        Some(stamp) => stamp.moment,
        None => 0,
    }
}

/// A word goes out at a port of an extender.
#[inline(always)]
fn send_at(
    site: &TreeIndex,
    number: u8,
    port: u8,
    word: BoxedFrame,
    core: &mut WorldParts,
    post: &mut StepOutput,
) -> Result<(), NoMemory>
    requires at { IsAt site.now core.old }
    requires number { IsNumber number }
    requires port { (0 < port) × (port ≤ 64) }
    ensures { OnOk result (Does (sent_at number port (hung_on site.now.tree (port_of number port))
        word.stamp word.bytes (world_in core.old)) site.now core.new post.old.log post.new.log) }
{
    note_out(
        post.alloc,
        post.log.tracing,
        number,
        port,
        word.bytes(),
        &mut post.log.outs,
    )?;
    let place = PortId::at(number, port - 1);
    let tree = site.tree();
    tree.is_tree();
    match hung_on(tree, place) {
        Some(below) => core.bridge.down.push(below, word),
        None => {
            let moment = moment_of(&word.stamp());
            let bytes = post.store.unboxed(post.alloc, word);
            post.log.left.push(Left {
                row: PortMap::of(place),
                moment,
                bytes,
            })
        }
    }
}

/// A word goes up from an extender.
#[inline(always)]
fn send_up(
    site: &TreeIndex,
    number: u8,
    word: BoxedFrame,
    core: &mut WorldParts,
    post: &mut StepOutput,
) -> Result<(), NoMemory>
    requires at { IsAt site.now core.old }
    requires number { IsNumber number }
    ensures { OnOk result (Does (sent_to site.now.tree number word.stamp Side.Up word.bytes
        (world_in core.old)) site.now core.new post.old.log post.new.log) }
{
    let _ = site;
    note_out(
        post.alloc,
        post.log.tracing,
        number,
        0,
        word.bytes(),
        &mut post.log.outs,
    )?;
    core.up.push(number, word)
}

/// A word goes out at a side of an extender.
#[inline(always)]
pub(crate) fn send_to(
    site: &TreeIndex,
    number: u8,
    side: Side,
    word: BoxedFrame,
    core: &mut WorldParts,
    post: &mut StepOutput,
) -> Result<(), NoMemory>
    requires at { IsAt site.now core.old }
    requires number { IsNumber number }
    requires side { IsSide side }
    ensures { OnOk result (Does (sent_to site.now.tree number word.stamp side word.bytes
        (world_in core.old)) site.now core.new post.old.log post.new.log) }
{
    match side {
        Side::Up => send_up(site, number, word, core, post),
        Side::Port { port } => send_at(site, number, port, word, core, post),
    }
}

/// A frame that an extender took goes out in a form.
#[inline(always)]
pub(crate) fn send_frame(
    site: &TreeIndex,
    number: u8,
    came: &IncomingFrame,
    out: &Out,
    core: &mut WorldParts,
    post: &mut StepOutput,
) -> Result<(), NoMemory>
    requires at { IsAt site.now core.old }
    requires number { IsNumber number }
    requires can { CanGo came.now.frame.now out.now }
    ensures { OnOk result (Does (sends site.now.tree number came.now.stamp
        (out_sent came.now.frame.now out.now) (world_in core.old)) site.now core.new post.old.log
        post.new.log) }
{
    let mut buffer = post.store.buffer(post.alloc);
    put_form(came.frame, &out.form, &mut buffer)?;
    let bytes = Bytes::from_vec(buffer);
    let word = post.store.boxed(post.alloc, bytes, came.stamp)?;
    send_to(site, number, out.to, word, core, post)
}

/// Puts the port of an out behind those of a row, where the frame leaves there without its E-TAG:
/// so it is written once for all of them. Nothing is put where it goes elsewhere, in another form,
/// or to a port that isn't behind them.
#[inline(always)]
fn joins(site: &TreeIndex, number: u8, out: &Out, row: &mut PortMap) -> bool
    requires number { number < 65 }
    requires device { row.old.device ≡ number }
    requires side { IsSide out.now.to }
    ensures joined { result ≡ true → Joins site.now.tree number out.now row.old row.new }
    ensures other { result ≡ false → row.new ≡ row.old }
{
    if !matches!(out.form, Form::Stripped) {
        return false;
    }
    match out.to {
        Side::Up => false,
        Side::Port { port } => joins_at(site, number, port, row),
    }
}

/// Puts a port behind those of a row, where no extender hangs on it.
#[inline(always)]
fn joins_at(site: &TreeIndex, number: u8, port: u8, row: &mut PortMap) -> bool
    requires number { number < 65 }
    requires device { row.old.device ≡ number }
    requires some { 0 < port }
    requires low { port ≤ 64 }
    ensures joined { result ≡ true → JoinsAt site.now.tree number port row.old row.new }
    ensures other { result ≡ false → row.new ≡ row.old }
{
    let tree = site.tree();
    tree.is_tree();
    if tree.is_cascade(PortId::at(number, port - 1)) || !row.ends_before(port) {
        return false;
    }
    row.put(port);
    true
}

/// A frame that an extender took leaves without its E-TAG at each port of a row.
#[inline(always)]
fn leave_extender(
    site: &TreeIndex,
    number: u8,
    came: &IncomingFrame,
    row: &PortMap,
    core: &WorldParts,
    post: &mut StepOutput,
) -> Result<(), NoMemory>
    requires at { IsAt site.now core.now }
    requires outer { AreOuter site.now.tree number came.now.frame.now (ports_in row.now) }
    ensures { OnOk result (Does (each (sends site.now.tree number came.now.stamp)
        (row_sent came.now.frame.now (ports_in row.now)) (world_in core.now)) site.now core.now
        post.old.log post.new.log) }
{
    let _ = site;
    let _ = core;
    if row.is_empty() {
        return Ok(());
    }
    let mut buffer = post.store.buffer(post.alloc);
    strip_into(came.frame, &mut buffer)?;
    let outs = &mut post.log.outs;
    note_row(post.alloc, post.log.tracing, row, buffer.as_slice(), outs)?;
    post.log.left.push(Left {
        row: *row,
        moment: moment_of(&came.stamp),
        bytes: Bytes::from_vec(buffer),
    })
}

/// A frame that an extender took goes out in one form more, behind a row of ports at which it is to
/// leave: their number grows by one, or it leaves there and goes out.
#[inline(always)]
fn send_behind(
    site: &TreeIndex,
    came: &IncomingFrame,
    out: &Out,
    row: &mut PortMap,
    core: &mut WorldParts,
    post: &mut StepOutput,
) -> Result<(), NoMemory>
    requires at { IsAt site.now core.old }
    requires number { IsNumber row.old.device }
    requires can { CanGo came.now.frame.now out.now }
    requires outer { AreOuter site.now.tree row.old.device came.now.frame.now (ports_in row.old) }
    ensures device { row.new.device ≡ row.old.device }
    ensures outer { AreOuter site.now.tree row.old.device came.now.frame.now (ports_in row.new) }
    ensures sent { OnOk result (GoesBehind site.now came.now.stamp came.now.frame.now out.now
        row.old row.new (whole_of core.old) (whole_of core.new) post.old.log post.new.log) }
{
    let number = row.device();
    if joins(site, number, out, row) {
        return Ok(());
    }
    leave_extender(site, number, came, row, core, post)?;
    *row = PortMap::none(number);
    send_frame(site, number, came, out, core, post)
}

/// A frame that an extender took goes out in each form.
fn send_frames(
    site: &TreeIndex,
    number: u8,
    came: &IncomingFrame,
    outs: &[Out],
    core: &mut WorldParts,
    post: &mut StepOutput,
) -> Result<(), NoMemory>
    requires at { IsAt site.now core.old }
    requires number { IsNumber number }
    requires can { All (CanGo came.now.frame.now) outs.now }
    ensures { OnOk result (Does (each (sends site.now.tree number came.now.stamp)
        (map (out_sent came.now.frame.now) outs.now) (world_in core.old)) site.now core.new
        post.old.log post.new.log) }
{
    let mut row = PortMap::none(number);
    for out in outs {
        send_behind(site, came, out, &mut row, core, post)?;
    }
    leave_extender(site, number, came, &row, core, post)
}

/// A control frame of an extender's own goes up; an empty one isn't sent.
#[inline(always)]
fn send_own(
    site: &TreeIndex,
    number: u8,
    stamp: Option<Stamp>,
    frame: &[u8],
    core: &mut WorldParts,
    post: &mut StepOutput,
) -> Result<(), NoMemory>
    requires at { IsAt site.now core.old }
    requires number { IsNumber number }
    ensures { OnOk result (Does (each (sends site.now.tree number stamp) (own_sent frame.now)
        (world_in core.old)) site.now core.new post.old.log post.new.log) }
{
    if frame.is_empty() {
        return Ok(());
    }
    let bytes = post.store.copy(post.alloc, frame)?;
    let word = post.store.boxed(post.alloc, bytes, stamp)?;
    send_to(site, number, Side::Up, word, core, post)
}

/// All that an extender sends where this frame came goes out: the frame in its forms, then the
/// extender's own frames.
pub(crate) fn send_all(
    site: &TreeIndex,
    number: u8,
    came: &IncomingFrame,
    reaction: &Sends,
    core: &mut WorldParts,
    post: &mut StepOutput,
) -> Result<(), NoMemory>
    requires at { IsAt site.now core.old }
    requires number { IsNumber number }
    requires can { All (CanGo came.now.frame.now) reaction.now.frames.items }
    ensures { OnOk result (Does (each (sends site.now.tree number came.now.stamp)
        (sent_by came.now.frame.now reaction.now) (world_in core.old)) site.now core.new
        post.old.log post.new.log) }
{
    let outs = reaction.frames.as_slice();
    send_frames(site, number, came, outs, core, post)?;
    let first = reaction.first.as_slice();
    send_own(site, number, came.stamp, first, core, post)?;
    let second = reaction.second.as_slice();
    send_own(site, number, came.stamp, second, core, post)
}
