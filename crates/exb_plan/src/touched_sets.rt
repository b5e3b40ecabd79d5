//! The parts that a command touches, and the sets that come with it.
ghost use Rattle.std.specs.Prelude.{◌≡◌, not, filter, map, IfOk};
ghost use Rattle.std.specs.List.{All};
ghost use Rattle.exb_config.specs.Tables.{bridge_of};
ghost use Rattle.exb_control_spec.specs.Plans.Sets.{seen};
ghost use Rattle.exb_plan.specs.SpaceContents.{held_by};
ghost use Rattle.exb_control_spec.specs.Plans.HeldNumbers.{HoldsNeeded};
ghost use Rattle.exb_plan.specs.PlanValues.{IsPlaced, SpacesOf};
ghost use Rattle.exb_control_spec.specs.Plans.FreshSets.{has_group};
ghost use Rattle.exb_plan.specs.TouchedSets.{AreTouched};

use crate::group_guesses::Guesses;
use crate::group_sets::each_once;
use crate::touched_parts::parts_around;
use exb_config::Config;
use exb_control_spec::SetAt;
use exb_model::command::Command;
use exb_model::memory::NoMemory;
use exb_model::tree::Tree;
use exb_numbers::Spaces;
use std::alloc::Global;

/// What a command touches.
#[derive(Drop)]
pub struct TouchedSets {
    /// The non-empty parts before the command.
    pub before: Vec<SetAt>,
    /// Those after it.
    pub later: Vec<SetAt>,
    /// Those of the later ones whose sets have no group yet.
    pub unfound: Vec<SetAt>,
    /// The sets of these, each once.
    pub fresh: Vec<SetAt>,
}

// Whether a set has a group.
fn has_group(spaces: &Spaces, near: &mut Guesses, set: &SetAt) -> bool
    requires { IsPlaced spaces.now (seen set.now) }
    ensures { result ≡ has_group (held_by spaces.now) (seen set.now) }
{
    near.find(spaces.groups(set.bridge_port), set).is_some()
}

// The parts whose sets have no group, in their order.
fn without_group(
    alloc: Global,
    spaces: &Spaces,
    parts: &[SetAt],
    near: &mut Guesses,
) -> Result<Vec<SetAt>, NoMemory>
    requires { All (λ s. IsPlaced spaces.now (seen s)) parts.now }
    ensures { IfOk result (λ made. map seen made.items
        ≡ filter (λ s. not (has_group (held_by spaces.now) s)) (map seen parts.now)) }
{
    let mut fresh = Vec::new(alloc);
    for part in parts {
        if !has_group(spaces, near, part) {
            fresh.push(*part)?;
        }
    }
    Ok(fresh)
}

/// What a command touches, where just what the configuration needs is held. The groups of the later
/// parts are kept as guesses.
pub(crate) fn touched_sets(
    alloc: Global,
    tree: &Tree,
    spaces: &Spaces,
    config: &Config,
    command: &Command,
    near: &mut Guesses,
) -> Result<TouchedSets, NoMemory>
    requires spaces { SpacesOf tree.now spaces.now }
    requires held { HoldsNeeded tree.now (bridge_of config.now) (held_by spaces.now) }
    ensures { IfOk result (λ made. AreTouched tree.now command.now (bridge_of config.now)
        (held_by spaces.now) made) }
{
    tree.is_tree();
    let parts = parts_around(alloc, tree, config, command)?;
    let unfound = without_group(alloc, spaces, parts.later.as_slice(), near)?;
    let fresh = each_once(alloc, unfound.as_slice())?;
    Ok(TouchedSets {
        before: parts.before,
        later: parts.later,
        unfound,
        fresh,
    })
}
