//! What the bridge does in a network: it touches its own parts alone, so the rest stays as it is.
ghost use Rattle.std.specs.Prelude.{◌≡◌, ◌-◌, ◌<◌, ◌≤◌, ◌+◌, ◌^◌, true, OnOk};
ghost use Rattle.exb_model.specs.Setup.{NamesExternal};
ghost use Rattle.exb_model.specs.Tree.{HangsOn, is_external};
ghost use Rattle.exb_world_spec.specs.Effects.{each};
ghost use Rattle.exb_world_spec.specs.ControlFrames.{beats_control, beats_near};
ghost use Rattle.exb_world_spec.specs.DataFrames.{bridge_takes, comes};
ghost use Rattle.exb_world_spec.specs.Runs.Requests.{AsksWell};
ghost use Rattle.exb_world_spec.specs.Steps.{all_extenders, done_by, if_there};
ghost use Rattle.exb_world_spec.specs.Worlds.{Order, Tick};
ghost use Rattle.exb_bridge.specs.TreeIndexes.{limits_in};
ghost use Rattle.exb_bridge.specs.BridgeWorlds.{Rest};
ghost use Rattle.exb_world.specs.MachineWorlds.{rest_of, world_in, IsAt, Does};

use crate::parts::WorldParts;
use exb_bridge::{StepScratch, TreeIndex};
use exb_link::BoxedFrame;
use exb_model::arrival::Arrival;
use exb_model::command::Command;
use exb_model::memory::NoMemory;

/// A frame comes to the bridge.
#[inline(always)]
pub(crate) fn come(
    site: &TreeIndex,
    arrival: &Arrival,
    room: &mut StepScratch,
    core: &mut WorldParts,
) -> Result<(), NoMemory>
    ghost rest: { Rest }
    requires own { rest ≡ rest_of core.old }
    requires at { IsAt site.now core.old }
    requires external { is_external site.now.tree arrival.now.port ≡ true }
    ensures { OnOk result (Does (comes site.now.tree arrival.now (world_in core.old)) site.now
        core.new room.old.post.log room.new.post.log) }
{
    exb_bridge::come(site, arrival, room, &mut core.bridge)
}

/// The bridge's ends count a beat.
#[inline(always)]
pub(crate) fn beat_ends(
    site: &TreeIndex,
    room: &mut StepScratch,
    core: &mut WorldParts,
) -> Result<(), NoMemory>
    ghost rest: { Rest }
    requires own { rest ≡ rest_of core.old }
    requires at { IsAt site.now core.old }
    ensures { OnOk result (Does (each (if_there site.now.tree (beats_near site.now.tree))
        all_extenders (world_in core.old)) site.now core.new room.old.post.log room.new.post.log) }
{
    exb_bridge::beat_ends(site, &mut room.buffers, &mut core.bridge, &mut room.post)
}

/// The bridge's control counts a beat.
#[inline(always)]
pub(crate) fn beat_control(
    site: &TreeIndex,
    room: &mut StepScratch,
    core: &mut WorldParts,
) -> Result<(), NoMemory>
    ghost rest: { Rest }
    requires own { rest ≡ rest_of core.old }
    requires at { IsAt site.now core.old }
    requires asks { AsksWell site.now.tree (limits_in site.now) (world_in core.old).control }
    ensures { OnOk result (Does (beats_control site.now.tree (world_in core.old)) site.now core.new
        room.old.post.log room.new.post.log) }
{
    exb_bridge::beat_control(site, room, &mut core.bridge)
}

/// The clock goes on.
#[cold]
#[inline(never)]
pub(crate) fn tick(
    site: &TreeIndex,
    seconds: u32,
    room: &mut StepScratch,
    core: &mut WorldParts,
) -> Result<(), NoMemory>
    ghost rest: { Rest }
    requires own { rest ≡ rest_of core.old }
    requires at { IsAt site.now core.old }
    requires clock { (world_in core.old).table.clock + seconds < 2 ^ 63 }
    ensures { OnOk result (Does (done_by site.now.tree (limits_in site.now) (Tick seconds)
        (world_in core.old)) site.now core.new room.old.post.log room.new.post.log) }
{
    exb_bridge::tick(site, seconds, room, &mut core.bridge)
}

/// A command is given.
#[cold]
#[inline(never)]
pub(crate) fn order(
    site: &TreeIndex,
    command: &Command,
    room: &mut StepScratch,
    core: &mut WorldParts,
) -> Result<(), NoMemory>
    ghost rest: { Rest }
    requires own { rest ≡ rest_of core.old }
    requires at { IsAt site.now core.old }
    requires names { NamesExternal site.now.tree command.now }
    requires few { (world_in core.old).control.given < 65536 }
    requires asks { AsksWell site.now.tree (limits_in site.now) (world_in core.old).control }
    ensures { OnOk result (Does (done_by site.now.tree (limits_in site.now) (Order command.now)
        (world_in core.old)) site.now core.new room.old.post.log room.new.post.log) }
{
    exb_bridge::order(site, command, room, &mut core.bridge)
}
