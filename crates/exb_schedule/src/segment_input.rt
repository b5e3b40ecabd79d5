//! What a segment gives to the network: seconds that pass, and frames that arrive.
ghost use Rattle.std.specs.Prelude.{◌≡◌, ◌↔◌, true, OnErr, OnOk};
ghost use Rattle.exb_schedule.specs.StepSequences.{HasRun};
ghost use Rattle.exb_schedule.specs.SegmentRuns.{arrive, tick, CanAll};

use exb_model::arrival::Arrival;
use exb_world::{World, WorldFault};

/// Lets seconds pass, if there are any.
#[inline(always)]
pub(crate) fn let_pass(world: &mut World, seconds: u32) -> Result<(), WorldFault>
    requires { CanAll world.old (tick seconds) }
    ensures ok { OnOk result (HasRun (tick seconds) world.old world.new) }
    ensures failed { OnErr result ((result ≡ Err WorldFault.Failed) ↔ (world.old.failed ≡ true)) }
    ensures memory { OnErr result (world.new.failed ≡ true) }
{
    if seconds == 0 {
        return Ok(());
    }
    world.tick(seconds)
}

/// Lets frames arrive, in order.
#[inline(always)]
pub(crate) fn let_arrive(world: &mut World, arrivals: &[Arrival]) -> Result<(), WorldFault>
    requires { CanAll world.old (arrive arrivals.now) }
    ensures ok { OnOk result (HasRun (arrive arrivals.now) world.old world.new) }
    ensures failed { OnErr result ((result ≡ Err WorldFault.Failed) ↔ (world.old.failed ≡ true)) }
    ensures memory { OnErr result (world.new.failed ≡ true) }
{
    for arrival in arrivals {
        world.arrive(arrival)?;
    }
    Ok(())
}
