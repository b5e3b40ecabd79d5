//! The steps of a live network: it stays live, and where a trace is kept the lines of each are
//! told.
ghost use Rattle.std.specs.Prelude.{OnOk};
ghost use Rattle.exb_world_spec.specs.AllowedSteps.{Can};
ghost use Rattle.exb_world_spec.specs.Runs.Requests.{AsksWell};
ghost use Rattle.exb_world_spec.specs.Worlds.{Arrive, Beat, Carry, Control, Lose, Mark, Order, Tick};
ghost use Rattle.exb_bridge.specs.TreeIndexes.{limits_in};
ghost use Rattle.exb_world.specs.LiveSteps.{Makes, StaysLive};
ghost use Rattle.exb_world.specs.WorldContracts.{IsLive};
ghost use Rattle.exb_world.specs.Steps.{way_of};
ghost use Rattle.exb_world.specs.MachineWorlds.{world_in};

use crate::command_facts::names_vlan;
use crate::parts::WorldParts;
use crate::step::Way;
use crate::trace_lines::{
    tell_arrival, tell_beat, tell_control, tell_data, tell_nothing, tell_rest,
};
use crate::{bridge_steps, step_execution, world_beat};
use exb_bridge::{StepScratch, TreeIndex};
use exb_model::arrival::Arrival;
use exb_model::bytes::are_bytes;
use exb_model::command::Command;
use exb_model::memory::NoMemory;
use exb_world_spec::laws::{
    asks_can_be_sent, runs_stay_sound, steps_stay_written, written_are_short,
};

/// That each step leaves a live network so, as a fact for whoever makes one. It does nothing.
#[inline(always)]
fn stays_live(site: &TreeIndex, core: &WorldParts)
    requires { IsLive site.now core.now }
    ensures asks { AsksWell site.now.tree (limits_in site.now) (world_in core.now).control }
    ensures stays { StaysLive site.now core.now }
{
    let _ = site;
    asks_can_be_sent();
    runs_stay_sound();
    steps_stay_written();
    written_are_short();
    core.bridge.control.is_active_config();
    core.bridge.control.has_low_serials();
}

/// A frame arrives at an external port.
#[inline(always)]
pub(crate) fn arrive(
    site: &TreeIndex,
    arrival: &Arrival,
    room: &mut StepScratch,
    core: &mut WorldParts,
) -> Result<(), NoMemory>
    requires live { IsLive site.now core.old }
    requires can { Can site.now.tree (world_in core.old) (Arrive arrival.now) }
    ensures { OnOk result (Makes (Arrive arrival.now) site.now core.old core.new room.old.post.log
        room.new.post.log) }
{
    stays_live(site, core);
    are_bytes(arrival.bytes.as_slice());
    let from = tell_arrival(arrival, &mut room.post)?;
    step_execution::arrive(site, arrival, room, core)?;
    core.bridge.control.has_low_serials();
    tell_rest(from, &mut room.post)
}

/// The first data word of a direction is taken.
#[inline(always)]
pub(crate) fn carry(
    site: &TreeIndex,
    link: u8,
    way: Way,
    room: &mut StepScratch,
    core: &mut WorldParts,
) -> Result<(), NoMemory>
    requires live { IsLive site.now core.old }
    requires can { Can site.now.tree (world_in core.old) (Carry link (way_of way)) }
    ensures { OnOk result (Makes (Carry link (way_of way)) site.now core.old core.new
        room.old.post.log room.new.post.log) }
{
    stays_live(site, core);
    let from = tell_data(site, link, way, core, &mut room.post)?;
    step_execution::carry(site, link, way, room, core)?;
    core.bridge.control.has_low_serials();
    tell_rest(from, &mut room.post)
}

/// The control word at a position of a direction is delivered, and stays on its link too if it is
/// kept.
pub(crate) fn deliver(
    site: &TreeIndex,
    link: u8,
    way: Way,
    at: u64,
    keep: bool,
    room: &mut StepScratch,
    core: &mut WorldParts,
) -> Result<(), NoMemory>
    requires live { IsLive site.now core.old }
    requires can { Can site.now.tree (world_in core.old) (Control link (way_of way) at keep) }
    ensures { OnOk result (Makes (Control link (way_of way) at keep) site.now core.old core.new
        room.old.post.log room.new.post.log) }
{
    stays_live(site, core);
    let from = tell_control(site, link, way, at, core, &mut room.post)?;
    step_execution::deliver(site, link, way, at, keep, room, core)?;
    core.bridge.control.has_low_serials();
    tell_rest(from, &mut room.post)
}

/// The control word at a position of a direction is lost.
pub(crate) fn lose(
    site: &TreeIndex,
    link: u8,
    way: Way,
    at: u64,
    room: &mut StepScratch,
    core: &mut WorldParts,
) -> Result<(), NoMemory>
    requires live { IsLive site.now core.old }
    requires can { Can site.now.tree (world_in core.old) (Lose link (way_of way) at) }
    ensures { OnOk result (Makes (Lose link (way_of way) at) site.now core.old core.new
        room.old.post.log room.new.post.log) }
{
    stays_live(site, core);
    let from = tell_nothing(&mut room.post.log);
    step_execution::lose(site, link, way, at, core);
    core.bridge.control.has_low_serials();
    tell_rest(from, &mut room.post)
}

/// A beat passes at all ends.
#[inline(always)]
pub(crate) fn beat(
    site: &TreeIndex,
    room: &mut StepScratch,
    core: &mut WorldParts,
) -> Result<(), NoMemory>
    requires live { IsLive site.now core.old }
    requires can { Can site.now.tree (world_in core.old) Beat }
    ensures { OnOk result (Makes Beat site.now core.old core.new room.old.post.log
        room.new.post.log) }
{
    stays_live(site, core);
    let from = tell_beat(&mut room.post)?;
    world_beat::beat(site, room, core)?;
    core.bridge.control.has_low_serials();
    tell_rest(from, &mut room.post)
}

/// The clock goes on.
pub(crate) fn tick(
    site: &TreeIndex,
    seconds: u32,
    room: &mut StepScratch,
    core: &mut WorldParts,
) -> Result<(), NoMemory>
    requires live { IsLive site.now core.old }
    requires can { Can site.now.tree (world_in core.old) (Tick seconds) }
    ensures { OnOk result (Makes (Tick seconds) site.now core.old core.new room.old.post.log
        room.new.post.log) }
{
    stays_live(site, core);
    let from = tell_nothing(&mut room.post.log);
    bridge_steps::tick(site, seconds, room, core)?;
    core.bridge.control.has_low_serials();
    tell_rest(from, &mut room.post)
}

/// A command is given.
pub(crate) fn order(
    site: &TreeIndex,
    command: &Command,
    room: &mut StepScratch,
    core: &mut WorldParts,
) -> Result<(), NoMemory>
    requires live { IsLive site.now core.old }
    requires can { Can site.now.tree (world_in core.old) (Order command.now) }
    ensures { OnOk result (Makes (Order command.now) site.now core.old core.new room.old.post.log
        room.new.post.log) }
{
    stays_live(site, core);
    let from = tell_nothing(&mut room.post.log);
    names_vlan(command);
    bridge_steps::order(site, command, room, core)?;
    core.bridge.control.has_low_serials();
    tell_rest(from, &mut room.post)
}

/// A settled network is marked.
#[inline(always)]
pub(crate) fn mark(
    site: &TreeIndex,
    room: &mut StepScratch,
    core: &mut WorldParts,
) -> Result<(), NoMemory>
    requires live { IsLive site.now core.old }
    requires can { Can site.now.tree (world_in core.old) Mark }
    ensures { OnOk result (Makes Mark site.now core.old core.new room.old.post.log
        room.new.post.log) }
{
    stays_live(site, core);
    let from = tell_nothing(&mut room.post.log);
    step_execution::mark(site, core, &mut room.post.log)?;
    core.bridge.control.has_low_serials();
    tell_rest(from, &mut room.post)
}
