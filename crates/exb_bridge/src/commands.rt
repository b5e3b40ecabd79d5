//! What the bridge is given: commands, and seconds that pass.
ghost use Rattle.std.specs.Prelude.{◌<◌, ◌+◌, ◌^◌, OnOk};
ghost use Rattle.exb_model.specs.Setup.{NamesExternal};
ghost use Rattle.exb_world_spec.specs.Steps.{done_by};
ghost use Rattle.exb_world_spec.specs.Worlds.{Order, Tick};
ghost use Rattle.exb_world_spec.specs.Runs.Requests.{AsksWell};
ghost use Rattle.exb_bridge.specs.TreeIndexes.{limits_in};
ghost use Rattle.exb_bridge.specs.BridgeWorlds.{Rest, whole, world_in, IsAt, Does};

use crate::bridge::Bridge;
use crate::requests::follow;
use crate::scratch::StepScratch;
use crate::tree_index::TreeIndex;
use exb_model::command::Command;
use exb_model::event::Event;
use exb_model::memory::NoMemory;

/// The clock goes on.
#[cold]
#[inline(never)]
#[tactic(auto, unfolding(exb_learn::specs::Entries::table_of))]
pub fn tick(
    site: &TreeIndex,
    seconds: u32,
    room: &mut StepScratch,
    bridge: &mut Bridge,
) -> Result<(), NoMemory>
    ghost rest: { Rest }
    requires at { IsAt site.now (whole rest bridge.old) }
    requires clock { (world_in (whole rest bridge.old)).table.clock + seconds < 2 ^ 63 }
    ensures { OnOk result (Does (done_by site.now.tree (limits_in site.now) (Tick seconds)
        (world_in (whole rest bridge.old))) site.now (whole rest bridge.new) room.old.post.log
        room.new.post.log) }
{
    let _ = site;
    room.post.log.events.push(Event::Tick { seconds })?;
    bridge.learned.tick(seconds);
    Ok(())
}

/// A command is given.
#[cold]
#[inline(never)]
pub fn order(
    site: &TreeIndex,
    command: &Command,
    room: &mut StepScratch,
    bridge: &mut Bridge,
) -> Result<(), NoMemory>
    ghost rest: { Rest }
    requires at { IsAt site.now (whole rest bridge.old) }
    requires names { NamesExternal site.now.tree command.now }
    requires few { (world_in (whole rest bridge.old)).control.given < 65536 }
    requires asks { AsksWell site.now.tree (limits_in site.now)
        (world_in (whole rest bridge.old)).control }
    ensures { OnOk result (Does (done_by site.now.tree (limits_in site.now) (Order command.now)
        (world_in (whole rest bridge.old))) site.now (whole rest bridge.new) room.old.post.log
        room.new.post.log) }
{
    match bridge.control.command(command, &mut room.outbox) {
        Ok(()) => follow(site, room, bridge),
        Err(_) => Err(NoMemory),
    }
}
