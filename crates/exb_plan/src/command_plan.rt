//! The plan of a command, by what it touches.
ghost use Rattle.std.specs.Prelude.{◌≡◌, ℕ, ◌+◌, ◌≤◌, ◌<◌, true, None, [], map, length, slice_index_or, IfOk, OnOk, OnErr};
ghost use Rattle.std.specs.List.{All};
ghost use Rattle.exb_model.specs.Tree.{is_cascade};
ghost use Rattle.exb_model.specs.Setup.{Limits};
ghost use Rattle.exb_model.specs.Configuration.{after};
ghost use Rattle.exb_numbers.specs.Spaces.{groups_at};
ghost use Rattle.exb_config.specs.Tables.{bridge_of};
ghost use Rattle.exb_control_spec.specs.Plans.Sets.{seen, sets_of};
ghost use Rattle.exb_plan.specs.SpaceContents.{held_by, HasSpaces};
ghost use Rattle.exb_control_spec.specs.Plans.HeldNumbers.{HoldsNeeded};
ghost use Rattle.exb_control_spec.specs.Plans.Differences.{goes_up, refusal_between};
ghost use Rattle.exb_control_spec.specs.Plans.Plans.{change_of, claimed, decision, held_after};
ghost use Rattle.exb_plan.specs.PlanValues.{IsPlaced, IsAlike, SpacesOf};
ghost use Rattle.exb_control_spec.specs.Plans.FreshSets.{IsAnyExtended, how_many, is_at, refusal_by};
ghost use Rattle.exb_plan.specs.TouchedSets.{AreTouched};
ghost use Rattle.exb_plan.specs.UseCounts.{IsCounted, used_at};
ghost use Rattle.exb_plan.specs.Recount.{AreOwn, HavePlaces, AreEnough, AreMoved, HaveRowsOf};
ghost use Rattle.exb_plan.specs.Decisions.{IfDecided};

use crate::change::make_change;
use crate::group_guesses::Guesses;
use crate::group_uses::GroupUses;
use crate::lost_uses::gone_groups;
use crate::presence::{goes_down, goes_up};
use crate::recount::{lower_all, raise_all, raise_new};
use crate::refusals::channels_short;
use crate::shortage::groups_short;
use crate::touched_sets::{TouchedSets, touched_sets};
use exb_config::Config;
use exb_control_spec::{Change, Decision, SetAt};
use exb_model::command::Command;
use exb_model::event::Cause;
use exb_model::memory::NoMemory;
use exb_model::port::PortId;
use exb_model::tree::Tree;
use exb_numbers::Spaces;
use std::alloc::Global;

// The uses after a command, at the groups that there are. The guesses are of the parts before it
// and of the later ones.
fn moved(
    spaces: &Spaces,
    uses: &GroupUses,
    before: &[SetAt],
    later: &[SetAt],
    near: &mut Guesses,
    near_later: &mut Guesses,
) -> Result<GroupUses, NoMemory>
    requires before { All (λ s. IsPlaced spaces.now (seen s)) before.now }
    requires later { All (λ s. IsPlaced spaces.now (seen s)) later.now }
    requires own { AreOwn spaces.now }
    requires places { HavePlaces spaces.now uses.now }
    requires enough { AreEnough spaces.now (map seen before.now) uses.now }
    ensures { IfOk result (λ made. AreMoved spaces.now (map seen before.now) (map seen later.now)
        uses.now made) }
{
    let mut next = uses.copy()?;
    lower_all(&mut next, spaces, before, near);
    near_later.again();
    raise_all(&mut next, spaces, later, near_later)?;
    Ok(next)
}

// The change of a command that isn't refused. The uses are then those of the configuration after
// it.
fn ready(
    alloc: Global,
    tree: &Tree,
    spaces: &mut Spaces,
    uses: &mut GroupUses,
    config: &Config,
    command: &Command,
    up: &Option<PortId>,
    touched: &TouchedSets,
    near_later: &mut Guesses,
) -> Result<Change, NoMemory>
    requires limits { (l : Limits) × HasSpaces tree.now l spaces.old × (l.groups ≤ 12288) }
    requires rows { (k : ℕ) → k < 64 → is_cascade tree.now k ≡ true
        → length (slice_index_or uses.old k []) ≡ (groups_at spaces.old k).limit }
    requires held { HoldsNeeded tree.now (bridge_of config.now) (held_by spaces.old) }
    requires counted { IsCounted tree.now (bridge_of config.now) (held_by spaces.old) uses.old }
    requires up { up.now ≡ goes_up tree.now (bridge_of config.now)
        (after command.now (bridge_of config.now)) }
    requires touched { AreTouched tree.now command.now (bridge_of config.now) (held_by spaces.old)
        touched.now }
    requires fits { (l : Limits) → HasSpaces tree.now l spaces.old
        → refusal_between tree.now l (bridge_of config.now)
        (after command.now (bridge_of config.now)) ≡ None }
    ensures change { (l : Limits) → HasSpaces tree.now l spaces.old
        → IfOk result (λ made. made ≡ change_of tree.now l (bridge_of config.now)
        (after command.now (bridge_of config.now)) (held_by spaces.old)) }
    ensures held { (l : Limits) → HasSpaces tree.now l spaces.old
        → OnOk result (held_by spaces.new ≡ claimed tree.now l (bridge_of config.now)
        (after command.now (bridge_of config.now)) (held_by spaces.old)) }
    ensures err { OnErr result (held_by spaces.new ≡ held_by spaces.old) }
    ensures alike { IsAlike spaces.old spaces.new }
    ensures counted { OnOk result (IsCounted tree.now (after command.now (bridge_of config.now))
        (held_by spaces.new) uses.new) }
    ensures unchanged { OnErr result (uses.new ≡ uses.old) }
    ensures rows { HaveRowsOf uses.old uses.new }
{
    tree.is_tree();
    let before = touched.before.as_slice();
    let fresh = touched.fresh.as_slice();
    let mut near = Guesses::new(alloc);
    let mut next = moved(
        spaces,
        uses,
        before,
        touched.later.as_slice(),
        &mut near,
        near_later,
    )?;
    let gone = gone_groups(alloc, tree, spaces, &next, before, &mut near)?;
    let down = goes_down(tree, config, command);
    let change = make_change(alloc, tree, spaces, up, &down, gone.as_slice(), fresh)?;
    raise_new(&mut next, spaces, touched.unfound.as_slice(), near_later);
    *uses = next;
    Ok(change)
}

// Why a command is refused, if it is.
fn refusal(
    tree: &Tree,
    spaces: &Spaces,
    uses: &GroupUses,
    config: &Config,
    up: &Option<PortId>,
    fresh: &[SetAt],
) -> Option<Cause>
    requires up { IsAnyExtended tree.now up.now }
    requires spaces { SpacesOf tree.now spaces.now }
    requires counted { (k : ℕ) → k < 64 → is_cascade tree.now k ≡ true
        → used_at uses.now k ≡ how_many (is_at (k + 1)) (sets_of tree.now (bridge_of config.now)) }
    ensures { (l : Limits) → HasSpaces tree.now l spaces.now
        → result ≡ refusal_by tree.now l (bridge_of config.now) up.now
        (sets_of tree.now (bridge_of config.now)) (map seen fresh.now) }
{
    tree.is_tree();
    if let Some(port) = up {
        let short = channels_short(tree, spaces, config, *port);
        if short.is_some() {
            return short;
        }
    }
    groups_short(tree, spaces, uses, fresh)
}

/// The plan of a command, by what it touches. Refused exactly where the numbers of a bridge port
/// don't suffice for the configurations before and after the command; else the new numbers are
/// claimed, the lowest free ones, and the asks are those that lay and clear what changes. The
/// spaces hold just what the configuration needs, and the uses are those of its sets; afterwards
/// the uses are those after the command. Refused or out of memory nothing is claimed, and no use
/// changes.
pub fn plan(
    alloc: Global,
    tree: &Tree,
    spaces: &mut Spaces,
    uses: &mut GroupUses,
    config: &Config,
    command: &Command,
) -> Result<Decision, NoMemory>
    requires limits { (l : Limits) × HasSpaces tree.now l spaces.old × (l.groups ≤ 12288) }
    requires rows { (k : ℕ) → k < 64 → is_cascade tree.now k ≡ true
        → length (slice_index_or uses.old k []) ≡ (groups_at spaces.old k).limit }
    requires held { HoldsNeeded tree.now (bridge_of config.now) (held_by spaces.old) }
    requires counted { IsCounted tree.now (bridge_of config.now) (held_by spaces.old) uses.old }
    ensures decision { (l : Limits) → HasSpaces tree.now l spaces.old
        → IfOk result (λ made. made ≡ decision tree.now l (bridge_of config.now)
        (after command.now (bridge_of config.now)) (held_by spaces.old)) }
    ensures claimed { (l : Limits) → HasSpaces tree.now l spaces.old
        → OnOk result (held_by spaces.new ≡ held_after tree.now l (bridge_of config.now)
        (after command.now (bridge_of config.now)) (held_by spaces.old)) }
    ensures no_memory { OnErr result (held_by spaces.new ≡ held_by spaces.old) }
    ensures spaces { (l : Limits) → HasSpaces tree.now l spaces.old
        → HasSpaces tree.now l spaces.new }
    ensures counted { IfOk result (λ made. IfDecided made (uses.new ≡ uses.old)
        (IsCounted tree.now (after command.now (bridge_of config.now)) (held_by spaces.new)
        uses.new)) }
    ensures unchanged { OnErr result (uses.new ≡ uses.old) }
    ensures rows { HaveRowsOf uses.old uses.new }
{
    tree.is_tree();
    let mut near = Guesses::new(alloc);
    let touched = touched_sets(alloc, tree, spaces, config, command, &mut near)?;
    let up = goes_up(tree, config, command);
    let fresh = touched.fresh.as_slice();
    if let Some(cause) = refusal(tree, spaces, uses, config, &up, fresh) {
        return Ok(Decision::Refused(cause));
    }
    let change = ready(
        alloc, tree, spaces, uses, config, command, &up, &touched, &mut near,
    )?;
    Ok(Decision::Ready(change))
}
