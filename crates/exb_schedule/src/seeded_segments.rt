//! The segments of a seeded run.
ghost use Rattle.std.specs.Prelude.{⊤, ◌≡◌, ◌↔◌, ◌+◌, ◌<◌, ◌≤◌, ◌^◌, ℕ, List, true, OnErr, OnOk, length, drop, slice_index_or};
ghost use Rattle.exb_model.specs.Input.{Seeded};
ghost use Rattle.exb_world_spec.specs.AllowedSteps.{IsSettled};
ghost use Rattle.exb_world.specs.WorldContracts.{world_of, tree_of, IsSame};
ghost use Rattle.exb_schedule.specs.SeededSegments.{left_of, GoesOn, HasDrawn, IsDrawn, IsReady, Keeps};
ghost use Rattle.exb_schedule.specs.SegmentRuns.{gives, letters_in, CanAll, PlaysOn};
ghost use Rattle.exb_schedule.specs.PlayedSegments.{IsDrawnOut};

use crate::arrival_queues::{ArrivalQueue, next_in, queues_of, take_from};
use crate::drawn_steps::{carry, deliver, lose};
use crate::remaining_input::{RemainingInput, can_come, come, command, pass};
use crate::segment::end;
use crate::step_choices::{StepChoice, choose};
use exb_fate::Fate;
use exb_model::arrival::Arrival;
use exb_model::memory::NoMemory;
use exb_model::setup::{Timed, Verdict};
use exb_world::{Way, World, WorldFault};
use rand_pcg::Lcg64Xsh32;

/// Takes the first data word of a direction.
fn take_data(world: &mut World, link: u8, way: Way) -> Result<(), WorldFault>
    requires { ⊤ }
    ensures ok { OnOk result (Keeps world.old world.new) }
    ensures failed { result ≡ Err WorldFault.Failed → world.old.failed ≡ true }
{
    if !world.can(&carry(link, way)) {
        return Ok(());
    }
    world.carry(link, way)
}

/// Delivers a control word, and may keep it on its link.
fn deliver_at(
    world: &mut World,
    link: u8,
    way: Way,
    place: u64,
    keep: bool,
) -> Result<(), WorldFault>
    requires { ⊤ }
    ensures ok { OnOk result (Keeps world.old world.new) }
    ensures failed { result ≡ Err WorldFault.Failed → world.old.failed ≡ true }
{
    if !world.can(&deliver(link, way, place, keep)) {
        return Ok(());
    }
    world.deliver(link, way, place, keep)
}

/// Loses a control word.
fn lose_at(world: &mut World, link: u8, way: Way, place: u64) -> Result<(), WorldFault>
    requires { ⊤ }
    ensures ok { OnOk result (Keeps world.old world.new) }
    ensures failed { result ≡ Err WorldFault.Failed → world.old.failed ≡ true }
{
    if !world.can(&lose(link, way, place)) {
        return Ok(());
    }
    world.lose(link, way, place)
}

/// A beat passes.
fn beat_once(world: &mut World) -> Result<(), WorldFault>
    requires { ⊤ }
    ensures ok { OnOk result (Keeps world.old world.new) }
    ensures failed { result ≡ Err WorldFault.Failed → world.old.failed ≡ true }
{
    world.beat()
}

/// Asks the fate of a control word, and does what it says.
fn ask_fate(
    world: &mut World,
    fate: &mut dyn Fate,
    link: u8,
    way: Way,
    place: u64,
) -> Result<(), WorldFault>
    requires { ⊤ }
    ensures ok { OnOk result (Keeps world.old world.new) }
    ensures failed { result ≡ Err WorldFault.Failed → world.old.failed ≡ true }
    ensures fate { left fate.new ≤ left fate.old }
{
    match fate.next() {
        Verdict::Pass => deliver_at(world, link, way, place, false),
        Verdict::Lose => lose_at(world, link, way, place),
        Verdict::Twice => deliver_at(world, link, way, place, true),
        Verdict::Later => Ok(()),
    }
}

/// The next arrival of a queue comes.
fn come_next(
    world: &mut World,
    rest: &mut RemainingInput,
    queues: &mut Vec<ArrivalQueue>,
    queue: usize,
    commands: &[Timed],
    arrivals: &[Arrival],
) -> Result<(), WorldFault>
    requires whole { length rest.old.given.items ≡ length arrivals.now }
    ensures ok { (cs : List _)
        → OnOk result (GoesOn cs arrivals.now rest.old rest.new world.old world.new) }
    ensures taken { OnOk result (rest.new.taken ≡ rest.old.taken) }
    ensures failed { result ≡ Err WorldFault.Failed → world.old.failed ≡ true }
{
    let Some(at) = next_in(queues.as_slice(), queue) else {
        return Ok(());
    };
    if at >= arrivals.len() || !can_come(world, commands, arrivals, at) {
        return Ok(());
    }
    come(world, rest, arrivals, at)?;
    take_from(queues, queue);
    Ok(())
}

/// Makes what was drawn, where it may be made.
fn make(
    world: &mut World,
    fate: &mut dyn Fate,
    rest: &mut RemainingInput,
    queues: &mut Vec<ArrivalQueue>,
    choice: StepChoice,
    commands: &[Timed],
    arrivals: &[Arrival],
) -> Result<(), WorldFault>
    requires whole { length rest.old.given.items ≡ length arrivals.now }
    requires ready { IsReady world.old rest.old.seconds (drop rest.old.taken commands.now)
        (left_of rest.old.given.items arrivals.now) }
    requires few { left fate.old + letters_in (drop rest.old.taken commands.now) < 2 ^ 57 }
    ensures ok { OnOk result (GoesOn commands.now arrivals.now rest.old rest.new world.old
        world.new) }
    ensures failed { result ≡ Err WorldFault.Failed → world.old.failed ≡ true }
    ensures fate { OnOk result (left fate.new + letters_in (drop rest.new.taken commands.now)
        ≤ left fate.old + letters_in (drop rest.old.taken commands.now)) }
    ensures low { left fate.new ≤ left fate.old + letters_in (drop rest.old.taken commands.now) }
{
    match choice {
        StepChoice::Tick => pass(world, rest),
        StepChoice::Command => {
            if rest.taken < commands.len() {
                command(world, fate, rest, commands)
            } else {
                Ok(())
            }
        }
        StepChoice::Arrival { queue } => come_next(world, rest, queues, queue, commands, arrivals),
        StepChoice::Data { link, way } => take_data(world, link, way),
        StepChoice::Control { link, way, place } => ask_fate(world, fate, link, way, place),
        StepChoice::Beat => beat_once(world),
    }
}

/// Draws once.
fn draw(
    world: &mut World,
    fate: &mut dyn Fate,
    rest: &mut RemainingInput,
    queues: &mut Vec<ArrivalQueue>,
    rng: &mut Lcg64Xsh32,
    commands: &[Timed],
    arrivals: &[Arrival],
) -> Result<(), WorldFault>
    requires whole { length rest.old.given.items ≡ length arrivals.now }
    requires ready { IsReady world.old rest.old.seconds (drop rest.old.taken commands.now)
        (left_of rest.old.given.items arrivals.now) }
    requires few { left fate.old + letters_in (drop rest.old.taken commands.now) < 2 ^ 57 }
    ensures ok { OnOk result (GoesOn commands.now arrivals.now rest.old rest.new world.old
        world.new) }
    ensures failed { result ≡ Err WorldFault.Failed → world.old.failed ≡ true }
    ensures fate { OnOk result (left fate.new + letters_in (drop rest.new.taken commands.now)
        ≤ left fate.old + letters_in (drop rest.old.taken commands.now)) }
    ensures low { left fate.new ≤ left fate.old + letters_in (drop rest.old.taken commands.now) }
{
    let choice = choose(world, rest, commands.len(), queues.as_slice(), rng);
    make(world, fate, rest, queues, choice, commands, arrivals)
}

/// Draws so often: 64 times for each of a segment's commands and arrivals, and 64 times.
fn draw_all(
    world: &mut World,
    fate: &mut dyn Fate,
    rest: &mut RemainingInput,
    rng: &mut Lcg64Xsh32,
    commands: &[Timed],
    arrivals: &[Arrival],
) -> Result<(), WorldFault>
    requires drawn { (all : ℕ) × HasDrawn all commands.now arrivals.now rest.old.seconds
        rest.old.taken rest.old.given.items world.old world.old }
    requires few { left fate.old + letters_in (drop rest.old.taken commands.now) < 2 ^ 57 }
    ensures ok { OnOk result ((all : ℕ) → HasDrawn all commands.now arrivals.now rest.old.seconds
        rest.old.taken rest.old.given.items world.old world.old
        → HasDrawn all commands.now arrivals.now rest.new.seconds rest.new.taken
        rest.new.given.items world.old world.new) }
    ensures same { OnOk result (world.new.failed ≡ world.old.failed) }
    ensures failed { result ≡ Err WorldFault.Failed → world.old.failed ≡ true }
    ensures fate { OnOk result (left fate.new + letters_in (drop rest.new.taken commands.now)
        ≤ left fate.old + letters_in (drop rest.old.taken commands.now)) }
    ensures low { left fate.new ≤ left fate.old + letters_in (drop rest.old.taken commands.now) }
{
    let mut queues = match queues_of(world.alloc(), arrivals) {
        Ok(queues) => queues,
        Err(NoMemory) => return Err(WorldFault::Memory),
    };
    let count = (commands.len() as u64)
        .saturating_add(arrivals.len() as u64)
        .saturating_add(1);
    let mut draws = count.saturating_mul(64);
    'draws: while draws > 0 {
        draw(world, fate, rest, &mut queues, rng, commands, arrivals)?;
        draws -= 1;
    }
    Ok(())
}

/// Gives the commands that are left, in order.
fn give_commands(
    world: &mut World,
    fate: &mut dyn Fate,
    rest: &mut RemainingInput,
    commands: &[Timed],
    arrivals: &[Arrival],
) -> Result<(), WorldFault>
    requires drawn { (all : ℕ) × (old : _) × HasDrawn all commands.now arrivals.now rest.old.seconds
        rest.old.taken rest.old.given.items old world.old }
    requires few { left fate.old + letters_in (drop rest.old.taken commands.now) < 2 ^ 57 }
    ensures ok { OnOk result (GoesOn commands.now arrivals.now rest.old rest.new world.old
        world.new) }
    ensures all { OnOk result (length commands.now ≤ rest.new.taken) }
    ensures seconds { OnOk result (rest.new.seconds ≡ rest.old.seconds) }
    ensures same { OnOk result (world.new.failed ≡ world.old.failed) }
    ensures failed { result ≡ Err WorldFault.Failed → world.old.failed ≡ true }
    ensures fate { left fate.new ≤ left fate.old + letters_in (drop rest.old.taken commands.now) }
{
    // the clauses alone speak of them
    let _ = arrivals;
    'commands: while rest.taken < commands.len() {
        command(world, fate, rest, commands)?;
    }
    Ok(())
}

/// Lets the arrivals that are left come, in order.
fn give_arrivals(
    world: &mut World,
    rest: &mut RemainingInput,
    commands: &[Timed],
    arrivals: &[Arrival],
) -> Result<(), WorldFault>
    requires drawn { (all : ℕ) × (old : _) × HasDrawn all commands.now arrivals.now rest.old.seconds
        rest.old.taken rest.old.given.items old world.old }
    ensures ok { OnOk result (GoesOn commands.now arrivals.now rest.old rest.new world.old
        world.new) }
    ensures all { OnOk result ((at : ℕ) → at < length arrivals.now
        → slice_index_or rest.new.given.items at true ≡ true) }
    ensures seconds { OnOk result (rest.new.seconds ≡ rest.old.seconds) }
    ensures taken { OnOk result (rest.new.taken ≡ rest.old.taken) }
    ensures failed { result ≡ Err WorldFault.Failed → world.old.failed ≡ true }
{
    // the clauses alone speak of them
    let _ = commands;
    for at in 0..arrivals.len() {
        come(world, rest, arrivals, at)?;
    }
    Ok(())
}

/// Gives what is left of a segment: in an order that is drawn, and what is left after so many draws
/// in order.
fn give_rest(
    world: &mut World,
    fate: &mut dyn Fate,
    rest: &mut RemainingInput,
    rng: &mut Lcg64Xsh32,
    seconds: u32,
    commands: &[Timed],
    arrivals: &[Arrival],
) -> Result<(), WorldFault>
    requires drawn { HasDrawn seconds commands.now arrivals.now rest.old.seconds rest.old.taken
        rest.old.given.items world.old world.old }
    requires few { left fate.old + letters_in (drop rest.old.taken commands.now) < 2 ^ 57 }
    ensures ok { OnOk result (IsDrawn seconds commands.now arrivals.now world.old world.new) }
    ensures failed { result ≡ Err WorldFault.Failed → world.old.failed ≡ true }
    ensures fate { left fate.new ≤ left fate.old + letters_in (drop rest.old.taken commands.now) }
{
    // how many there were at first: the clauses alone speak of that
    let _ = seconds;
    draw_all(world, fate, rest, rng, commands, arrivals)?;
    pass(world, rest)?;
    give_commands(world, fate, rest, commands, arrivals)?;
    give_arrivals(world, rest, commands, arrivals)
}

/// Gives a segment so.
fn give_drawn(
    world: &mut World,
    fate: &mut dyn Fate,
    rng: &mut Lcg64Xsh32,
    seconds: u32,
    commands: &[Timed],
    arrivals: &[Arrival],
) -> Result<(), WorldFault>
    requires can { CanAll world.old (gives seconds commands.now arrivals.now) }
    requires few { left fate.old + letters_in commands.now < 2 ^ 57 }
    ensures ok { OnOk result (IsDrawn seconds commands.now arrivals.now world.old world.new) }
    ensures failed { result ≡ Err WorldFault.Failed → world.old.failed ≡ true }
    ensures fate { left fate.new ≤ left fate.old + letters_in commands.now }
{
    let Ok(mut rest) = RemainingInput::new(world.alloc(), seconds, arrivals.len()) else {
        return Err(WorldFault::Memory);
    };
    give_rest(world, fate, &mut rest, rng, seconds, commands, arrivals)
}

/// Gives a segment so, settles and marks.
fn play_drawn(
    world: &mut World,
    fate: &mut dyn Fate,
    rng: &mut Lcg64Xsh32,
    seconds: u32,
    commands: &[Timed],
    arrivals: &[Arrival],
) -> Result<(), WorldFault>
    requires can { CanAll world.old (gives seconds commands.now arrivals.now) }
    requires few { left fate.old + letters_in commands.now < 2 ^ 57 }
    ensures settled { OnOk result (IsSettled (tree_of world.new) (world_of world.new)) }
    ensures segment { OnOk result (IsDrawnOut seconds commands.now arrivals.now world.old
        world.new) }
    ensures plays { OnOk result (PlaysOn Seeded seconds commands.now arrivals.now world.old
        world.new) }
    ensures same { OnOk result (IsSame world.old world.new) }
    ensures fate { left fate.new ≤ left fate.old + letters_in commands.now }
{
    give_drawn(world, fate, rng, seconds, commands, arrivals)?;
    end(world, fate)
}

/// Plays a segment of a seeded run: one draw after another says what comes next, of the segment, of
/// the words on the links, or a beat; what is left after 64 draws for each command and each arrival
/// and 64 more is given in order. Then all is settled and marked. A world in which memory runs out
/// has failed.
#[inline(never)]
pub fn seeded(
    world: &mut World,
    fate: &mut dyn Fate,
    rng: &mut Lcg64Xsh32,
    seconds: u32,
    commands: &[Timed],
    arrivals: &[Arrival],
) -> Result<(), WorldFault>
    requires can { CanAll world.old (gives seconds commands.now arrivals.now) }
    requires few { left fate.old + letters_in commands.now < 2 ^ 57 }
    ensures settled { OnOk result (IsSettled (tree_of world.new) (world_of world.new)) }
    ensures segment { OnOk result (IsDrawnOut seconds commands.now arrivals.now world.old
        world.new) }
    ensures plays { OnOk result (PlaysOn Seeded seconds commands.now arrivals.now world.old
        world.new) }
    ensures same { OnOk result (IsSame world.old world.new) }
    ensures failed { (result ≡ Err WorldFault.Failed) ↔ (world.old.failed ≡ true) }
    ensures memory { OnErr result (world.new.failed ≡ true) }
    ensures fate { left fate.new ≤ left fate.old + letters_in commands.now }
{
    if world.has_failed() {
        return Err(WorldFault::Failed);
    }
    match play_drawn(world, fate, rng, seconds, commands, arrivals) {
        Ok(()) => Ok(()),
        Err(_) => {
            world.fail();
            Err(WorldFault::Memory)
        }
    }
}
