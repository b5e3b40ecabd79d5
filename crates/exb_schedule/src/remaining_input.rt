//! What is still to be given of a segment whose order is drawn.
ghost use Rattle.std.specs.Prelude.{◌≡◌, ◌≢◌, ◌+◌, ◌<◌, ◌≤◌, ◌^◌, ℕ, List, true, false, IfOk, OnOk, length, drop, replicate, slice_index_or};
ghost use Rattle.exb_world_spec.specs.AllowedSteps.{Can};
ghost use Rattle.exb_world_spec.specs.Worlds.{Arrive, Order, Tick};
ghost use Rattle.exb_world.specs.WorldContracts.{step_of, tree_of, world_of};
ghost use Rattle.exb_schedule.specs.SeededSegments.{GoesOn};
ghost use Rattle.exb_schedule.specs.SegmentRuns.{letters_in};

use crate::segment::give_one;
use exb_fate::Fate;
use exb_model::arrival::Arrival;
use exb_model::memory::NoMemory;
use exb_model::setup::Timed;
use exb_world::{Step, World, WorldFault};
use std::alloc::Global;

/// The seconds that are left, how many commands were given, and of each arrival whether it was.
#[derive(Drop)]
pub struct RemainingInput {
    pub seconds: u32,
    pub taken: usize,
    pub given: Vec<bool>,
}

impl RemainingInput {
    /// Nothing is given yet.
    pub(crate) fn new(
        alloc: Global,
        seconds: u32,
        arrivals: usize,
    ) -> Result<RemainingInput, NoMemory>
        ensures seconds { IfOk result (λ made. made.seconds ≡ seconds) }
        ensures taken { IfOk result (λ made. made.taken ≡ 0) }
        ensures given { IfOk result (λ made. made.given.items ≡ replicate arrivals false) }
    {
        Ok(RemainingInput {
            seconds,
            taken: 0,
            given: vec![in alloc; false; arrivals]?,
        })
    }
}

/// The step of an arrival.
pub(crate) fn arrive<'a>(arrival: &'a Arrival) -> Step<'a>
    ensures { step_of result ≡ Arrive arrival.now }
{
    Step::Arrive { arrival }
}

/// Whether an arrival may come now, where memory hasn't run out.
pub(crate) fn can_come(world: &World, commands: &[Timed], arrivals: &[Arrival], at: usize) -> bool
    requires { at < length arrivals.now }
    ensures { result ≡ true → (a : _) → a ≡ slice_index_or arrivals.now at a
        → Can (tree_of world.now) (world_of world.now) (Arrive a) }
{
    // a step may hold a command: a parameter of that type is asked for where a step is made
    let _ = commands;
    world.can(&arrive(&arrivals[at]))
}

/// Lets the seconds pass, if any are left.
pub(crate) fn pass(world: &mut World, rest: &mut RemainingInput) -> Result<(), WorldFault>
    requires can { rest.old.seconds ≢ 0 → Can (tree_of world.old) (world_of world.old)
        (Tick rest.old.seconds) }
    ensures ok { (cs : List _) (frames : List _)
        → OnOk result (GoesOn cs frames rest.old rest.new world.old world.new) }
    ensures seconds { OnOk result (rest.new.seconds ≡ 0) }
    ensures taken { rest.new.taken ≡ rest.old.taken }
    ensures given { rest.new.given ≡ rest.old.given }
    ensures same { OnOk result (world.new.failed ≡ world.old.failed) }
    ensures failed { result ≡ Err WorldFault.Failed → world.old.failed ≡ true }
{
    if rest.seconds == 0 {
        return Ok(());
    }
    world.tick(rest.seconds)?;
    rest.seconds = 0;
    Ok(())
}

/// Gives the next command.
pub(crate) fn command(
    world: &mut World,
    fate: &mut dyn Fate,
    rest: &mut RemainingInput,
    commands: &[Timed],
) -> Result<(), WorldFault>
    requires some { rest.old.taken < length commands.now }
    requires can { (c : _) → c ≡ slice_index_or commands.now rest.old.taken c
        → Can (tree_of world.old) (world_of world.old) (Order c.command) }
    requires few { left fate.old + letters_in (drop rest.old.taken commands.now) < 2 ^ 57 }
    ensures ok { (frames : List _)
        → OnOk result (GoesOn commands.now frames rest.old rest.new world.old world.new) }
    ensures seconds { rest.new.seconds ≡ rest.old.seconds }
    ensures taken { OnOk result (rest.new.taken ≡ rest.old.taken + 1) }
    ensures given { rest.new.given ≡ rest.old.given }
    ensures failed { result ≡ Err WorldFault.Failed → world.old.failed ≡ true }
    ensures fate { left fate.new + letters_in (drop (rest.old.taken + 1) commands.now)
        ≤ left fate.old + letters_in (drop rest.old.taken commands.now) }
{
    give_one(world, fate, &commands[rest.taken])?;
    rest.taken += 1;
    Ok(())
}

/// Lets an arrival come, if it didn't yet.
pub(crate) fn come(
    world: &mut World,
    rest: &mut RemainingInput,
    arrivals: &[Arrival],
    at: usize,
) -> Result<(), WorldFault>
    requires there { at < length arrivals.now }
    requires whole { length rest.old.given.items ≡ length arrivals.now }
    requires can { slice_index_or rest.old.given.items at true ≡ false → (a : _)
        → a ≡ slice_index_or arrivals.now at a → Can (tree_of world.old) (world_of world.old)
        (Arrive a) }
    ensures ok { (cs : List _)
        → OnOk result (GoesOn cs arrivals.now rest.old rest.new world.old world.new) }
    ensures seconds { rest.new.seconds ≡ rest.old.seconds }
    ensures taken { rest.new.taken ≡ rest.old.taken }
    ensures given { OnOk result ((i : ℕ) → slice_index_or rest.old.given.items i true ≡ true
        → slice_index_or rest.new.given.items i true ≡ true) }
    ensures here { OnOk result (slice_index_or rest.new.given.items at true ≡ true) }
    ensures failed { result ≡ Err WorldFault.Failed → world.old.failed ≡ true }
{
    if rest.given[at] {
        return Ok(());
    }
    world.arrive(&arrivals[at])?;
    rest.given[at] = true;
    Ok(())
}
