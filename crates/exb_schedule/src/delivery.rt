//! One round of delivery.
ghost use Rattle.std.specs.Prelude.{⊤, ◌≡◌, ◌↔◌, ◌<◌, ◌≤◌, ◌+◌, ◌^◌, ℕ, List, true, IfOk, OnErr, OnOk};
ghost use Rattle.exb_model.specs.declared.setup.Verdict.{Verdict};
ghost use Rattle.exb_model.specs.Tree.{is_extender};
ghost use Rattle.exb_link.specs.LinkFrames.{leading};
ghost use Rattle.exb_world_spec.specs.Settling.{direction, round, Played};
ghost use Rattle.exb_world_spec.specs.Steps.{words_on};
ghost use Rattle.exb_world.specs.WorldContracts.{Network, world_of, tree_of, bounds_of};
ghost use Rattle.exb_world.specs.Steps.{way_of};
ghost use Rattle.exb_schedule.specs.Rounds.{goes_along, goes_one_way, AreNext, GoesThrough, HasAsked, HasTaken};

use crate::round_progress::RoundProgress;
use exb_fate::Fate;
use exb_model::setup::Verdict;
use exb_world::{Way, World, WorldFault};

/// Asks the fate of a control word that is free, and does what it says: the word is delivered,
/// lost, delivered and kept, or left. Answers the place of the next one.
#[cold]
#[inline(never)]
pub(crate) fn take_control(
    world: &mut World,
    fate: &mut dyn Fate,
    link: u8,
    way: Way,
    place: u64,
) -> Result<u64, WorldFault>
    requires there { is_extender (tree_of world.old) link ≡ true }
    requires free { place < leading (words_on link (way_of way) (world_of world.old)) }
    requires low { place + 1 < 2 ^ 64 }
    ensures ok { IfOk result (λ next. HasTaken link (way_of way) place next (left fate.old)
        (left fate.new) world.old world.new) }
    ensures failed { OnErr result ((result ≡ Err WorldFault.Failed) ↔ (world.old.failed ≡ true)) }
    ensures memory { OnErr result (world.new.failed ≡ true) }
    ensures falls { left fate.new ≤ left fate.old }
{
    match fate.next() {
        Verdict::Pass => {
            world.deliver(link, way, place, false)?;
            Ok(place)
        }
        Verdict::Lose => {
            world.lose(link, way, place)?;
            Ok(place)
        }
        Verdict::Twice => {
            world.deliver(link, way, place, true)?;
            Ok(place + 1)
        }
        Verdict::Later => Ok(place + 1),
    }
}

/// Looks at the next word of a direction: a data word is carried, and of a control word the fate is
/// asked. It is no longer left.
#[inline(always)]
fn take_next(
    world: &mut World,
    fate: &mut dyn Fate,
    link: u8,
    way: Way,
    rest: &mut RoundProgress,
) -> Result<(), WorldFault>
    requires there { is_extender (tree_of world.old) link ≡ true }
    requires next { AreNext link (way_of way) (world_of world.old) rest.old }
    requires some { 0 < rest.old.frames + rest.old.control }
    requires low { rest.old.place + rest.old.control < 2 ^ 64 }
    ensures ok { (whole : List Verdict → Played) (before : ℕ) (old : Network)
        → GoesThrough link (way_of way) whole before (left fate.old) old world.old rest.old
        → OnOk result (GoesThrough link (way_of way) whole before (left fate.new) old world.new
        rest.new) }
    ensures fewer { OnOk result (rest.new.frames + rest.new.control + 1
        ≡ rest.old.frames + rest.old.control) }
    ensures low { OnOk result (rest.new.place + rest.new.control < 2 ^ 64) }
    ensures failed { OnErr result ((result ≡ Err WorldFault.Failed) ↔ (world.old.failed ≡ true)) }
    ensures memory { OnErr result (world.new.failed ≡ true) }
    ensures falls { left fate.new ≤ left fate.old }
{
    if world.free_at(link, way, rest.place) {
        rest.control -= 1;
        rest.place = take_control(world, fate, link, way, rest.place)?;
        Ok(())
    } else {
        rest.frames -= 1;
        world.carry(link, way)
    }
}

/// Goes once, in order, through the words that stand on a direction, and looks at each.
#[inline(always)]
fn go_through(world: &mut World, fate: &mut dyn Fate, link: u8, way: Way) -> Result<(), WorldFault>
    requires { is_extender (tree_of world.old) link ≡ true }
    ensures ok { OnOk result (HasAsked (goes_along (tree_of world.old) (bounds_of world.old)
        (direction (way_of way) link) (world_of world.old)) (left fate.old) (left fate.new)
        world.old world.new) }
    ensures failed { OnErr result ((result ≡ Err WorldFault.Failed) ↔ (world.old.failed ≡ true)) }
    ensures memory { OnErr result (world.new.failed ≡ true) }
    ensures falls { left fate.new ≤ left fate.old }
{
    let counts = world.counts(link, way);
    let mut rest = RoundProgress {
        frames: counts.frames,
        control: counts.control,
        place: 0,
    };
    'words: while rest.frames > 0 || rest.control > 0 {
        take_next(world, fate, link, way, &mut rest)?;
    }
    Ok(())
}

/// Goes through all directions of one way that have a word when their turn comes: up from the
/// deepest extender, down from the bridge.
#[inline(always)]
fn go_one_way(world: &mut World, fate: &mut dyn Fate, way: Way) -> Result<(), WorldFault>
    requires { ⊤ }
    ensures ok { OnOk result (HasAsked (goes_one_way (tree_of world.old) (bounds_of world.old)
        (way_of way) (world_of world.old)) (left fate.old) (left fate.new) world.old world.new) }
    ensures failed { OnErr result ((result ≡ Err WorldFault.Failed) ↔ (world.old.failed ≡ true)) }
    ensures memory { OnErr result (world.new.failed ≡ true) }
    ensures falls { left fate.new ≤ left fate.old }
{
    let mut from = 0;
    'directions: while let Some(turn) = world.next_busy(way, from) {
        go_through(world, fate, turn.link, way)?;
        from = turn.place + 1;
    }
    Ok(())
}

/// One round: the words that stand on the links upwards are gone through once, from the deepest
/// extender, then those downwards, from the bridge; data words are taken, and the fate is asked of
/// each control word. Then one beat passes.
#[inline(never)]
pub fn round(world: &mut World, fate: &mut dyn Fate) -> Result<(), WorldFault>
    requires { ⊤ }
    ensures ok { OnOk result (HasAsked (round (tree_of world.old) (bounds_of world.old)
        (world_of world.old)) (left fate.old) (left fate.new) world.old world.new) }
    ensures failed { (result ≡ Err WorldFault.Failed) ↔ (world.old.failed ≡ true) }
    ensures memory { OnErr result (world.new.failed ≡ true) }
    ensures falls { left fate.new ≤ left fate.old }
{
    go_one_way(world, fate, Way::Up)?;
    go_one_way(world, fate, Way::Down)?;
    world.beat()
}
