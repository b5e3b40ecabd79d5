//! How each step is made.
ghost use Rattle.std.specs.Prelude.{◌≡◌, ◌<◌, ◌+◌, ◌^◌, true, IfOk, OnOk, filter, slice_get};
ghost use Rattle.exb_model.specs.Tree.{is_extender, is_external};
ghost use Rattle.exb_world_spec.specs.Steps.{arrives, control_at, done_by, rest_of, takes, takes_up, with_words, words_on};
ghost use Rattle.exb_world_spec.specs.Worlds.{Carry, Control, Down, Lose, Mark, Up};
ghost use Rattle.exb_link.specs.LinkFrames.{is_control, without_control};
ghost use Rattle.exb_world_spec.specs.Runs.Requests.{AsksWell};
ghost use Rattle.exb_link.specs.Links.{words_of};
ghost use Rattle.exb_model.specs.DeviceSets.{IsNumber};
ghost use Rattle.exb_bridge.specs.TreeIndexes.{limits_in};
ghost use Rattle.exb_world.specs.Steps.{way_of};
ghost use Rattle.exb_bridge.specs.BridgeWorlds.{Rest};
ghost use Rattle.exb_world.specs.MachineWorlds.{world_in, IsAt, Does};
ghost use Rattle.exb_world.specs.MachineWorlds.{rest_of as rest_of_core};

use crate::bridge_steps::come;
use crate::extender_steps::{arrive_at, take_from_above, take_from_below};
use crate::parts::WorldParts;
use crate::step::Way;
use exb_bridge::{StepScratch, TreeIndex};
use exb_link::{BoxedFrame, LinkFrame, Links};
use exb_model::arrival::Arrival;
use exb_model::bytes::Bytes;
use exb_model::event::Event;
use exb_model::memory::NoMemory;
use exb_outbox::Log;
use std::alloc::Global;

/// A word that comes up from an extender is taken by the device on which that hangs.
#[inline(always)]
fn take_up(
    site: &TreeIndex,
    number: u8,
    word: BoxedFrame,
    room: &mut StepScratch,
    core: &mut WorldParts,
) -> Result<(), NoMemory>
    ghost rest: { Rest }
    requires own { rest ≡ rest_of_core core.old }
    requires at { IsAt site.now core.old }
    requires there { is_extender site.now.tree number ≡ true }
    requires asks { AsksWell site.now.tree (limits_in site.now) (world_in core.old).control }
    ensures { OnOk result (Does (takes_up site.now.tree (limits_in site.now) number word
        (world_in core.old)) site.now core.new room.old.post.log room.new.post.log) }
{
    site.tree().is_tree();
    let port = site.on(number);
    if port.device() == 0 {
        let bridge_port = port.place() + 1;
        exb_bridge::take(site, bridge_port, number, word, room, &mut core.bridge)
    } else {
        take_from_below(site, port, word, room, core)
    }
}

/// A word is taken at the end of its direction.
#[inline(always)]
fn take(
    site: &TreeIndex,
    number: u8,
    way: Way,
    word: BoxedFrame,
    room: &mut StepScratch,
    core: &mut WorldParts,
) -> Result<(), NoMemory>
    requires at { IsAt site.now core.old }
    requires there { is_extender site.now.tree number ≡ true }
    requires asks { AsksWell site.now.tree (limits_in site.now) (world_in core.old).control }
    ensures { OnOk result (Does (takes site.now.tree (limits_in site.now) number (way_of way) word
        (world_in core.old)) site.now core.new room.old.post.log room.new.post.log) }
{
    match way {
        Way::Up => take_up(site, number, word, room, core),
        Way::Down => take_from_above(site, number, word, room, core),
    }
}

/// The control word at a position is taken off its link.
#[cold]
#[inline(never)]
fn pull_control(
    site: &TreeIndex,
    number: u8,
    way: Way,
    place: u64,
    core: &mut WorldParts,
) -> Option<BoxedFrame>
    requires at { IsAt site.now core.old }
    requires known { IsNumber number }
    ensures word { result ≡ control_at (words_on number (way_of way) (world_in core.old)) place }
    ensures rest { world_in core.new ≡ with_words number (way_of way)
        (without_control (words_on number (way_of way) (world_in core.old)) place)
        (world_in core.old) }
    ensures at { IsAt site.now core.new }
{
    let _ = site;
    match way {
        Way::Up => core.up.take_control(number, place),
        Way::Down => core.bridge.down.take_control(number, place),
    }
}

/// A copy of the control word at a position of a direction.
fn copied(
    alloc: Global,
    direction: &Links,
    number: u8,
    place: u64,
) -> Result<Option<BoxedFrame>, NoMemory>
    requires { IsNumber number }
    ensures { IfOk result (λ word. word
        ≡ slice_get (filter is_control (words_of direction.now number)) place) }
{
    match direction.control_at(number, place) {
        None => Ok(None),
        Some(word) => {
            let copy = LinkFrame {
                bytes: Bytes::from_slice(alloc, word.bytes())?,
                stamp: word.stamp(),
            };
            Ok(Some(BoxedFrame::new(alloc, copy)?))
        }
    }
}

/// A copy of the control word at a position; it stays on its link.
fn copy_control(
    alloc: Global,
    number: u8,
    way: Way,
    place: u64,
    core: &WorldParts,
) -> Result<Option<BoxedFrame>, NoMemory>
    requires { IsNumber number }
    ensures { IfOk result (λ word. word
        ≡ control_at (words_on number (way_of way) (world_in core.now)) place) }
{
    match way {
        Way::Up => copied(alloc, &core.up, number, place),
        Way::Down => copied(alloc, &core.bridge.down, number, place),
    }
}

/// The first data word that comes up from an extender is taken.
#[inline(always)]
fn carry_up(
    site: &TreeIndex,
    number: u8,
    room: &mut StepScratch,
    core: &mut WorldParts,
) -> Result<(), NoMemory>
    requires at { IsAt site.now core.old }
    requires there { is_extender site.now.tree number ≡ true }
    requires asks { AsksWell site.now.tree (limits_in site.now) (world_in core.old).control }
    ensures { OnOk result (Does (done_by site.now.tree (limits_in site.now) (Carry number Up)
        (world_in core.old)) site.now core.new room.old.post.log room.new.post.log) }
{
    site.has_low_number(number);
    match core.up.take_data(number) {
        None => Ok(()),
        Some(word) => take_up(site, number, word, room, core),
    }
}

/// The first data word that goes down to an extender is taken.
#[inline(always)]
fn carry_down(
    site: &TreeIndex,
    number: u8,
    room: &mut StepScratch,
    core: &mut WorldParts,
) -> Result<(), NoMemory>
    requires at { IsAt site.now core.old }
    requires there { is_extender site.now.tree number ≡ true }
    ensures { OnOk result (Does (done_by site.now.tree (limits_in site.now) (Carry number Down)
        (world_in core.old)) site.now core.new room.old.post.log room.new.post.log) }
{
    site.has_low_number(number);
    match core.bridge.down.take_data(number) {
        None => Ok(()),
        Some(word) => take_from_above(site, number, word, room, core),
    }
}

/// The first data word of a direction is taken.
#[inline(never)]
pub(crate) fn carry(
    site: &TreeIndex,
    number: u8,
    way: Way,
    room: &mut StepScratch,
    core: &mut WorldParts,
) -> Result<(), NoMemory>
    requires at { IsAt site.now core.old }
    requires there { is_extender site.now.tree number ≡ true }
    requires asks { AsksWell site.now.tree (limits_in site.now) (world_in core.old).control }
    ensures { OnOk result (Does (done_by site.now.tree (limits_in site.now)
        (Carry number (way_of way)) (world_in core.old)) site.now core.new room.old.post.log
        room.new.post.log) }
{
    match way {
        Way::Up => carry_up(site, number, room, core),
        Way::Down => carry_down(site, number, room, core),
    }
}

/// The control word at a position that is delivered: a copy of it where it is kept, or else it is
/// taken off its link.
fn get_control(
    site: &TreeIndex,
    number: u8,
    way: Way,
    place: u64,
    keep: bool,
    alloc: Global,
    core: &mut WorldParts,
) -> Result<Option<BoxedFrame>, NoMemory>
    requires at { IsAt site.now core.old }
    requires known { IsNumber number }
    ensures word { IfOk result (λ word. word
        ≡ control_at (words_on number (way_of way) (world_in core.old)) place) }
    ensures rest { OnOk result (world_in core.new ≡ with_words number (way_of way)
        (rest_of keep (words_on number (way_of way) (world_in core.old)) place)
        (world_in core.old)) }
    ensures at { OnOk result (IsAt site.now core.new) }
{
    if keep {
        copy_control(alloc, number, way, place, core)
    } else {
        Ok(pull_control(site, number, way, place, core))
    }
}

/// The control word at a position is delivered, and stays on its link too if it is kept.
#[cold]
#[inline(never)]
pub(crate) fn deliver(
    site: &TreeIndex,
    number: u8,
    way: Way,
    place: u64,
    keep: bool,
    room: &mut StepScratch,
    core: &mut WorldParts,
) -> Result<(), NoMemory>
    requires at { IsAt site.now core.old }
    requires there { is_extender site.now.tree number ≡ true }
    requires asks { AsksWell site.now.tree (limits_in site.now) (world_in core.old).control }
    ensures { OnOk result (Does (done_by site.now.tree (limits_in site.now)
        (Control number (way_of way) place keep) (world_in core.old)) site.now core.new
        room.old.post.log room.new.post.log) }
{
    site.has_low_number(number);
    match get_control(site, number, way, place, keep, room.post.alloc, core)? {
        None => Ok(()),
        Some(word) => take(site, number, way, word, room, core),
    }
}

/// The control word at a position is lost.
pub(crate) fn lose(site: &TreeIndex, number: u8, way: Way, place: u64, core: &mut WorldParts)
    requires at { IsAt site.now core.old }
    requires there { is_extender site.now.tree number ≡ true }
    ensures world { world_in core.new
        ≡ (done_by site.now.tree (limits_in site.now) (Lose number (way_of way) place)
        (world_in core.old)).world }
    ensures at { IsAt site.now core.new }
{
    site.has_low_number(number);
    let _ = pull_control(site, number, way, place, core);
}

/// A frame arrives at an external port.
#[inline(always)]
pub(crate) fn arrive(
    site: &TreeIndex,
    arrival: &Arrival,
    room: &mut StepScratch,
    core: &mut WorldParts,
) -> Result<(), NoMemory>
    requires at { IsAt site.now core.old }
    requires external { is_external site.now.tree arrival.now.port ≡ true }
    requires few { (world_in core.old).next arrival.now.port < 2 ^ 63 }
    ensures { OnOk result (Does (arrives site.now.tree arrival.now (world_in core.old)) site.now
        core.new room.old.post.log room.new.post.log) }
{
    let port = arrival.port;
    core.next.count(port);
    if port.device() == 0 {
        come(site, arrival, room, core)
    } else {
        arrive_at(site, arrival, room, core)
    }
}

/// A settled network is marked.
#[inline(always)]
pub(crate) fn mark(site: &TreeIndex, core: &WorldParts, log: &mut Log) -> Result<(), NoMemory>
    requires at { IsAt site.now core.now }
    ensures { OnOk result (Does (done_by site.now.tree (limits_in site.now) Mark
        (world_in core.now)) site.now core.now log.old log.new) }
{
    let _ = site;
    let _ = core;
    log.events.push(Event::Settled)
}
