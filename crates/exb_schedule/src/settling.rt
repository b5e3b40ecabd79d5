//! Settling.
ghost use Rattle.std.specs.Prelude.{◌≡◌, ◌↔◌, ◌<◌, ◌≤◌, ◌^◌, true, IfOk, OnErr, OnOk};
ghost use Rattle.exb_model.specs.Rounds.{rounds};
ghost use Rattle.exb_world_spec.specs.AllowedSteps.{IsSettled};
ghost use Rattle.exb_world_spec.specs.Settling.{planned_in};
ghost use Rattle.exb_world.specs.WorldContracts.{world_of, tree_of, bounds_of};
ghost use Rattle.exb_schedule.specs.Rounds.{HasSettled};

use crate::delivery::round;
use exb_fate::Fate;
use exb_settling_laws::laws::rounds_spend;
use exb_world::{World, WorldFault};
use exb_world_laws::laws::runs::settles;

/// Makes rounds until nothing is left to be done, and answers how many, a number that stays at 2^64
/// - 1: at most 64 for each verdict other than Pass that the fate may still give, for each exchange
/// that is planned, and for one more.
#[inline(always)]
pub fn settle(world: &mut World, fate: &mut dyn Fate) -> Result<u64, WorldFault>
    requires few { left fate.old < 2 ^ 57 }
    ensures ok { IfOk result (λ made.
        HasSettled (rounds (left fate.old) (planned_in (tree_of world.old) (bounds_of world.old)
        (world_of world.old))) made (left fate.old) (left fate.new) world.old world.new) }
    ensures settled { OnOk result (IsSettled (tree_of world.new) (world_of world.new)) }
    ensures bound { IfOk result (λ made. made ≤ rounds (left fate.old)
        (planned_in (tree_of world.old) (bounds_of world.old) (world_of world.old))) }
    ensures failed { (result ≡ Err WorldFault.Failed) ↔ (world.old.failed ≡ true) }
    ensures memory { OnErr result (world.new.failed ≡ true) }
    ensures falls { left fate.new ≤ left fate.old }
{
    rounds_spend();
    settles();
    world.is_reached();
    let mut made: u64 = 0;
    'rounds: while !world.settled() {
        round(world, fate)?;
        made = made.saturating_add(1);
    }
    Ok(made)
}
