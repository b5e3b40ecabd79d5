//! The opening, and the segments of a run.
ghost use Rattle.std.specs.Prelude.{◌≡◌, [], ◌↔◌, ◌+◌, ◌<◌, ◌≤◌, ◌^◌, true, false, IfOk, OnErr, OnOk, length};
ghost use Rattle.exb_model.specs.Input.{Input, Mode, Eager};
ghost use Rattle.exb_model.specs.Setup.{IsValid, limits_of, shape_of};
ghost use Rattle.exb_world_spec.specs.AllowedSteps.{Can, IsSettled};
ghost use Rattle.exb_world_spec.specs.Worlds.{Mark, Order};
ghost use Rattle.exb_world.specs.WorldContracts.{world_of, tree_of, bounds_of, IsSame, IsStepped};
ghost use Rattle.exb_bridge.specs.BridgeWorlds.{all_left};
ghost use Rattle.exb_world_spec.specs.Runs.ReachedWorlds.{MayTake};
ghost use Rattle.exb_schedule.specs.StepSequences.{HasEnded, HasRun};
ghost use Rattle.exb_schedule.specs.SegmentRuns.{gives, letters_in, orders, CanAll, HasPlayed, PlaysOn};
ghost use Rattle.exb_schedule.specs.PlayedSegments.{IsPlayedOut};

use crate::segment_input::{let_arrive, let_pass};
use crate::settling::settle;
use exb_fate::Fate;
use exb_model::arrival::Arrival;
use exb_model::memory::NoMemory;
use exb_model::setup::{Setup, Timed, Verdict};
use exb_world::{World, WorldFault};
use std::alloc::Global;

/// Marks what is settled.
#[inline(always)]
fn set_mark(world: &mut World) -> Result<(), WorldFault>
    requires { IsSettled (tree_of world.old) (world_of world.old) }
    ensures ok { OnOk result (IsStepped Mark world.old world.new) }
    ensures may { OnOk result (MayTake (tree_of world.old) (world_of world.old) Mark) }
    ensures failed { (result ≡ Err WorldFault.Failed) ↔ (world.old.failed ≡ true) }
    ensures memory { OnErr result (world.new.failed ≡ true) }
{
    world.mark()
}

/// Settles and marks.
#[inline(always)]
pub(crate) fn end(world: &mut World, fate: &mut dyn Fate) -> Result<(), WorldFault>
    requires few { left fate.old < 2 ^ 57 }
    ensures ok { OnOk result (HasEnded world.old world.new) }
    ensures settled { OnOk result (IsSettled (tree_of world.new) (world_of world.new)) }
    ensures failed { (result ≡ Err WorldFault.Failed) ↔ (world.old.failed ≡ true) }
    ensures memory { OnErr result (world.new.failed ≡ true) }
    ensures fate { left fate.new ≤ left fate.old }
{
    settle(world, fate)?;
    set_mark(world)
}

/// Arms the fate, settles and marks.
fn open_armed(world: &mut World, fate: &mut dyn Fate, plan: &[Verdict]) -> Result<(), NoMemory>
    requires few { left fate.old + length plan.now < 2 ^ 57 }
    ensures ended { OnOk result (HasEnded world.old world.new) }
    ensures settled { OnOk result (IsSettled (tree_of world.new) (world_of world.new)) }
    ensures fate { OnOk result (left fate.new ≤ left fate.old + length plan.now) }
{
    fate.arm(plan)?;
    match end(world, fate) {
        Ok(()) => Ok(()),
        Err(_) => Err(NoMemory),
    }
}

/// The world of a setup after its opening, for which the fate is armed with this plan: each
/// extender is heard and opened, and each of its ports goes up, or is refused that; settled and
/// marked.
pub fn open(
    alloc: Global,
    setup: &Setup,
    fate: &mut dyn Fate,
    plan: &[Verdict],
    trace: bool,
) -> Result<World, NoMemory>
    requires valid { IsValid setup.now }
    requires few { left fate.old + length plan.now < 2 ^ 57 }
    ensures plays { IfOk result (λ world. (m : Mode) (i : Input) → i.setup ≡ setup.now
        → HasPlayed m i [] world world.log.events world.log.passed (all_left world.log.left)
        world.log.lines) }
    ensures settled { IfOk result (λ world. IsSettled (tree_of world) (world_of world)) }
    ensures tree { IfOk result (λ world. tree_of world ≡ shape_of setup.now) }
    ensures limits { IfOk result (λ world. bounds_of world ≡ limits_of setup.now) }
    ensures awake { IfOk result (λ world. world.failed ≡ false) }
    ensures tracing { IfOk result (λ world. world.log.tracing ≡ trace) }
    ensures fate { OnOk result (left fate.new ≤ left fate.old + length plan.now) }
{
    let mut world = World::new(alloc, setup, trace)?;
    match open_armed(&mut world, fate, plan) {
        Ok(()) => Ok(world),
        Err(_) => {
            // By a call, since a block's end is far longer to prove where it lets a world go.
            drop(world);
            Err(NoMemory)
        }
    }
}

/// Gives a command. What is planned for it the fate is armed with just before.
#[cold]
#[inline(never)]
pub(crate) fn give_one(
    world: &mut World,
    fate: &mut dyn Fate,
    command: &Timed,
) -> Result<(), WorldFault>
    requires can { Can (tree_of world.old) (world_of world.old) (Order command.now.command) }
    requires few { left fate.old + length command.now.fate < 2 ^ 57 }
    ensures ok { OnOk result (IsStepped (Order command.now.command) world.old world.new) }
    ensures may { OnOk result (MayTake (tree_of world.old) (world_of world.old)
        (Order command.now.command)) }
    ensures failed { (result ≡ Err WorldFault.Failed) ↔ (world.old.failed ≡ true) }
    ensures fate { left fate.new ≤ left fate.old + length command.now.fate }
{
    if world.has_failed() {
        return Err(WorldFault::Failed);
    }
    match fate.arm(command.fate.as_slice()) {
        Ok(()) => world.order(&command.command),
        Err(_) => Err(WorldFault::Memory),
    }
}

/// Gives commands, in order.
#[inline(always)]
fn give(world: &mut World, fate: &mut dyn Fate, commands: &[Timed]) -> Result<(), WorldFault>
    requires can { CanAll world.old (orders commands.now) }
    requires few { left fate.old + letters_in commands.now < 2 ^ 57 }
    ensures ok { OnOk result (HasRun (orders commands.now) world.old world.new) }
    ensures failed { OnErr result ((result ≡ Err WorldFault.Failed) ↔ (world.old.failed ≡ true)) }
    ensures fate { left fate.new ≤ left fate.old + letters_in commands.now }
{
    for command in commands {
        give_one(world, fate, command)?;
    }
    Ok(())
}

/// Gives a segment in order: the clock goes on by its seconds, its commands are given and its
/// frames arrive. Each command's plan arms the fate just before it.
#[inline(always)]
fn give_all(
    world: &mut World,
    fate: &mut dyn Fate,
    seconds: u32,
    commands: &[Timed],
    arrivals: &[Arrival],
) -> Result<(), WorldFault>
    requires can { CanAll world.old (gives seconds commands.now arrivals.now) }
    requires few { left fate.old + letters_in commands.now < 2 ^ 57 }
    ensures ok { OnOk result (HasRun (gives seconds commands.now arrivals.now) world.old
        world.new) }
    ensures failed { OnErr result ((result ≡ Err WorldFault.Failed) ↔ (world.old.failed ≡ true)) }
    ensures fate { left fate.new ≤ left fate.old + letters_in commands.now }
{
    let_pass(world, seconds)?;
    give(world, fate, commands)?;
    let_arrive(world, arrivals)
}

/// Gives a segment in order, settles and marks.
#[inline(always)]
fn play_in_order(
    world: &mut World,
    fate: &mut dyn Fate,
    seconds: u32,
    commands: &[Timed],
    arrivals: &[Arrival],
) -> Result<(), WorldFault>
    requires can { CanAll world.old (gives seconds commands.now arrivals.now) }
    requires few { left fate.old + letters_in commands.now < 2 ^ 57 }
    ensures settled { OnOk result (IsSettled (tree_of world.new) (world_of world.new)) }
    ensures segment { OnOk result (IsPlayedOut (gives seconds commands.now arrivals.now) world.old
        world.new) }
    ensures plays { OnOk result (PlaysOn Eager seconds commands.now arrivals.now world.old
        world.new) }
    ensures same { OnOk result (IsSame world.old world.new) }
    ensures failed { (result ≡ Err WorldFault.Failed) ↔ (world.old.failed ≡ true) }
    ensures fate { left fate.new ≤ left fate.old + letters_in commands.now }
{
    give_all(world, fate, seconds, commands, arrivals)?;
    end(world, fate)
}

/// Plays a segment of the eager run: it is given in order, all is settled and marked. A world in
/// which memory runs out has failed.
#[inline(always)]
pub fn eager(
    world: &mut World,
    fate: &mut dyn Fate,
    seconds: u32,
    commands: &[Timed],
    arrivals: &[Arrival],
) -> Result<(), WorldFault>
    requires can { CanAll world.old (gives seconds commands.now arrivals.now) }
    requires few { left fate.old + letters_in commands.now < 2 ^ 57 }
    ensures settled { OnOk result (IsSettled (tree_of world.new) (world_of world.new)) }
    ensures segment { OnOk result (IsPlayedOut (gives seconds commands.now arrivals.now) world.old
        world.new) }
    ensures plays { OnOk result (PlaysOn Eager seconds commands.now arrivals.now world.old
        world.new) }
    ensures same { OnOk result (IsSame world.old world.new) }
    ensures failed { (result ≡ Err WorldFault.Failed) ↔ (world.old.failed ≡ true) }
    ensures memory { OnErr result (world.new.failed ≡ true) }
    ensures fate { left fate.new ≤ left fate.old + letters_in commands.now }
{
    match play_in_order(world, fate, seconds, commands, arrivals) {
        Ok(()) => Ok(()),
        Err(fault) => {
            world.fail();
            Err(fault)
        }
    }
}
