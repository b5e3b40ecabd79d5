//! A beat of the network.
ghost use Rattle.std.specs.Prelude.{OnOk, None};
ghost use Rattle.exb_extender.specs.Machine.{Beats};
ghost use Rattle.exb_world_spec.specs.Effects.{each};
ghost use Rattle.exb_world_spec.specs.ExtenderSteps.{reacts};
ghost use Rattle.exb_world_spec.specs.Steps.{all_extenders, beats_all, if_there};
ghost use Rattle.exb_world_spec.specs.Runs.Requests.{AsksWell};
ghost use Rattle.exb_bridge.specs.TreeIndexes.{limits_in};
ghost use Rattle.exb_world.specs.MachineWorlds.{world_in, IsAt, Does};

use crate::bridge_steps::{beat_control, beat_ends};
use crate::extender_steps;
use crate::parts::WorldParts;
use exb_bridge::{StepScratch, TreeIndex};
use exb_model::device_set::first_in;
use exb_model::memory::NoMemory;

/// The beat passes at all extenders: first at those that rest, which send nothing, then at the
/// others by number.
#[inline(always)]
fn beat_all_far(
    site: &TreeIndex,
    room: &mut StepScratch,
    core: &mut WorldParts,
) -> Result<(), NoMemory>
    requires at { IsAt site.now core.old }
    ensures { OnOk result
        (Does (each (if_there site.now.tree (λ n. reacts site.now.tree n None Beats)) all_extenders
        (world_in core.old)) site.now core.new room.old.post.log room.new.post.log) }
{
    site.tree().is_tree();
    core.far.beat_resting();
    let waiting = core.far.waiting();
    let mut from = 1u8;
    'numbers: while let Some(number) = first_in(waiting, from) {
        extender_steps::beat(site, number, room, core)?;
        from = number + 1;
    }
    Ok(())
}

/// A beat: the bridge's ends by extender, then the control, then the extenders.
#[tactic(auto, unfolding(exb_world_spec::specs::Steps::beats_all, exb_world_spec::specs::Worlds::next_beat))]
#[inline(always)]
pub(crate) fn beat(
    site: &TreeIndex,
    room: &mut StepScratch,
    core: &mut WorldParts,
) -> Result<(), NoMemory>
    requires at { IsAt site.now core.old }
    requires asks { AsksWell site.now.tree (limits_in site.now) (world_in core.old).control }
    ensures { OnOk result (Does (beats_all site.now.tree (world_in core.old)) site.now core.new
        room.old.post.log room.new.post.log) }
{
    core.beats = core.beats.saturating_add(1);
    beat_ends(site, room, core)?;
    beat_control(site, room, core)?;
    beat_all_far(site, room, core)
}
