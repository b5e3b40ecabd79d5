//! Which steps may be made.
ghost use Rattle.std.specs.Prelude.{◌↔◌, ◌+◌, ◌<◌, ◌≤◌, ◌^◌, IsTrue};
ghost use Rattle.exb_model.specs.Setup.{NamesExternal};
ghost use Rattle.exb_world_spec.specs.AllowedSteps.{Can};
ghost use Rattle.exb_world_spec.specs.Worlds.{Arrive, Carry, Lose, Order};
ghost use Rattle.exb_world.specs.WorldContracts.{step_of};
ghost use Rattle.exb_world.specs.Steps.{way_of, IsFree};
ghost use Rattle.exb_world.specs.MachineWorlds.{world_in, IsAt};

use crate::parts::WorldParts;
use crate::step::{Step, Way};
use crate::world::{is_settled, link_of};
use exb_bridge::TreeIndex;
use exb_model::arrival::Arrival;
use exb_model::bytes::LONGEST_FRAME;
use exb_model::command::Command;
use exb_model::tree::Tree;

/// How many commands there are at most.
const COMMANDS: u32 = 65_536;

/// Whether a command names external ports alone.
fn names_external(tree: &Tree, command: &Command) -> bool
    ensures { IsTrue result ↔ NamesExternal tree.now command.now }
{
    command.names_only(&tree.external_ports())
}

/// Whether a frame may arrive.
fn may_arrive(site: &TreeIndex, core: &WorldParts, arrival: &Arrival) -> bool
    requires { IsAt site.now core.now }
    ensures { IsTrue result ↔ Can site.now.tree (world_in core.now) (Arrive arrival.now) }
{
    site.tree().is_external(arrival.port)
        && arrival.index == core.next.next(arrival.port)
        && arrival.index < 1 << 63
        && arrival.bytes.as_slice().len() <= LONGEST_FRAME as usize
}

/// Whether a data word may be taken.
fn may_carry(site: &TreeIndex, core: &WorldParts, link: u8, way: Way) -> bool
    requires { IsAt site.now core.now }
    ensures { IsTrue result ↔ Can site.now.tree (world_in core.now) (Carry link (way_of way)) }
{
    if !site.tree().is_extender(link) {
        return false;
    }
    site.has_low_number(link);
    link_of(core, link, way).counts().frames > 0
}

/// Whether a control word may be delivered.
fn may_deliver(site: &TreeIndex, core: &WorldParts, link: u8, way: Way, at: u64) -> bool
    requires { IsAt site.now core.now }
    ensures { IsTrue result ↔ IsFree site.now.tree (world_in core.now) link (way_of way) at }
{
    if !site.tree().is_extender(link) {
        return false;
    }
    site.has_low_number(link);
    link_of(core, link, way).free_at(at)
}

/// Whether a control word may be lost.
fn may_lose(site: &TreeIndex, core: &WorldParts, link: u8, way: Way, at: u64) -> bool
    requires { IsAt site.now core.now }
    ensures { IsTrue result ↔ Can site.now.tree (world_in core.now) (Lose link (way_of way) at) }
{
    if !site.tree().is_extender(link) {
        return false;
    }
    site.has_low_number(link);
    at < link_of(core, link, way).counts().control
}

/// Whether a clock that goes on stays below 2^63.
fn stays_low(clock: u64, seconds: u32) -> bool
    ensures { IsTrue result ↔ (clock + seconds < 2 ^ 63) }
{
    clock < (1 << 63) - u64::from(seconds)
}

/// Whether the clock may go on.
fn may_tick(core: &WorldParts, seconds: u32) -> bool
    ensures { IsTrue result
        ↔ ((1 ≤ seconds) × ((world_in core.now).table.clock + seconds < 2 ^ 63)) }
{
    seconds >= 1 && stays_low(core.bridge.clock(), seconds)
}

/// Whether a command may be given.
fn may_order(site: &TreeIndex, core: &WorldParts, command: &Command) -> bool
    requires { IsAt site.now core.now }
    ensures { IsTrue result ↔ Can site.now.tree (world_in core.now) (Order command.now) }
{
    names_external(site.tree(), command) && core.bridge.control.given() < COMMANDS
}

/// Whether a step may be made.
pub(crate) fn can(site: &TreeIndex, core: &WorldParts, step: &Step<'_>) -> bool
    requires { IsAt site.now core.now }
    ensures { IsTrue result ↔ Can site.now.tree (world_in core.now) (step_of step.now) }
{
    match step {
        Step::Arrive { arrival } => may_arrive(site, core, *arrival),
        Step::Carry { link, way } => may_carry(site, core, *link, *way),
        Step::Control { link, way, at, .. } => may_deliver(site, core, *link, *way, *at),
        Step::Lose { link, way, at } => may_lose(site, core, *link, *way, *at),
        Step::Beat => true,
        Step::Tick { seconds } => may_tick(core, *seconds),
        Step::Command { command } => may_order(site, core, command),
        Step::Mark => is_settled(site, core),
    }
}
