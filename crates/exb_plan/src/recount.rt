//! How the uses of groups follow the parts that go and come.
ghost use Rattle.std.specs.Prelude.{◌≡◌, ◌^◌, ℕ, ◌-◌, ◌<◌, [], ◌∷◌, Some, map, IsOk, OnOk};
ghost use Rattle.std.specs.List.{All};
ghost use Rattle.exb_control_spec.specs.Plans.Sets.{seen};
ghost use Rattle.exb_plan.specs.SpaceContents.{held_by};
ghost use Rattle.exb_control_spec.specs.Plans.HeldNumbers.{group_in};
ghost use Rattle.exb_plan.specs.PlanValues.{IsPlaced};
ghost use Rattle.exb_plan.specs.UseCounts.{count_at};
ghost use Rattle.exb_plan.specs.Recount.{AreOwn, HavePlaces, HaveRowsOf, AreRaised, AreLowered, AreEnough, AreUnused};

use crate::group_guesses::Guesses;
use crate::group_uses::GroupUses;
use exb_control_spec::SetAt;
use exb_model::memory::NoMemory;
use exb_numbers::Spaces;

// A use more of the group of a part's set, if it has one.
fn raise(
    uses: &mut GroupUses,
    spaces: &Spaces,
    near: &mut Guesses,
    part: &SetAt,
) -> Result<(), NoMemory>
    requires placed { IsPlaced spaces.now (seen part.now) }
    requires own { AreOwn spaces.now }
    requires places { HavePlaces spaces.now uses.old }
    ensures counts { OnOk result (AreRaised spaces.now (seen part.now ∷ []) uses.old uses.new) }
    ensures rows { HaveRowsOf uses.old uses.new }
    ensures met { ((g : ℕ) → group_in (held_by spaces.now) (part.now.bridge_port - 1)
        (seen part.now).ports ≡ Some g
        → count_at uses.old (part.now.bridge_port - 1) g < 2 ^ 63) → IsOk result }
{
    match near.find(spaces.groups(part.bridge_port), part) {
        Some(group) => uses.raise(part.bridge_port, group),
        None => Ok(()),
    }
}

// A use less.
fn lower(uses: &mut GroupUses, spaces: &Spaces, near: &mut Guesses, part: &SetAt)
    requires placed { IsPlaced spaces.now (seen part.now) }
    requires own { AreOwn spaces.now }
    requires used { (g : ℕ) → group_in (held_by spaces.now) (part.now.bridge_port - 1)
        (seen part.now).ports ≡ Some g
        → 0 < count_at uses.old (part.now.bridge_port - 1) g }
    ensures counts { AreLowered spaces.now (seen part.now ∷ []) uses.old uses.new }
    ensures rows { HaveRowsOf uses.old uses.new }
{
    if let Some(group) = near.find(spaces.groups(part.bridge_port), part) {
        uses.lower(part.bridge_port, group);
    }
}

/// Each group has a use more for each part that is its set.
pub(crate) fn raise_all(
    uses: &mut GroupUses,
    spaces: &Spaces,
    parts: &[SetAt],
    near: &mut Guesses,
) -> Result<(), NoMemory>
    requires placed { All (λ s. IsPlaced spaces.now (seen s)) parts.now }
    requires own { AreOwn spaces.now }
    requires places { HavePlaces spaces.now uses.old }
    ensures counts { OnOk result (AreRaised spaces.now (map seen parts.now) uses.old uses.new) }
    ensures rows { HaveRowsOf uses.old uses.new }
{
    for part in parts {
        raise(uses, spaces, near, part)?;
    }
    Ok(())
}

// A use more of the group of a part's set, if it has one, which has fewer than 2^63 uses.
fn raise_few(uses: &mut GroupUses, spaces: &Spaces, near: &mut Guesses, part: &SetAt)
    requires placed { IsPlaced spaces.now (seen part.now) }
    requires own { AreOwn spaces.now }
    requires places { HavePlaces spaces.now uses.old }
    requires few { (g : ℕ) → group_in (held_by spaces.now) (part.now.bridge_port - 1)
        (seen part.now).ports ≡ Some g
        → count_at uses.old (part.now.bridge_port - 1) g < 2 ^ 63 }
    ensures counts { AreRaised spaces.now (seen part.now ∷ []) uses.old uses.new }
    ensures rows { HaveRowsOf uses.old uses.new }
{
    raise(uses, spaces, near, part).unwrap()
}

/// Each group has a use more for each part that is its set. None of those groups has a use before.
pub(crate) fn raise_new(uses: &mut GroupUses, spaces: &Spaces, parts: &[SetAt], near: &mut Guesses)
    requires placed { All (λ s. IsPlaced spaces.now (seen s)) parts.now }
    requires own { AreOwn spaces.now }
    requires places { HavePlaces spaces.now uses.old }
    requires unused { AreUnused spaces.now (map seen parts.now) uses.old }
    ensures counts { AreRaised spaces.now (map seen parts.now) uses.old uses.new }
    ensures rows { HaveRowsOf uses.old uses.new }
{
    for part in parts {
        raise_few(uses, spaces, near, part);
    }
}

/// Each group has a use less for each part that is its set.
pub(crate) fn lower_all(uses: &mut GroupUses, spaces: &Spaces, parts: &[SetAt], near: &mut Guesses)
    requires placed { All (λ s. IsPlaced spaces.now (seen s)) parts.now }
    requires own { AreOwn spaces.now }
    requires enough { AreEnough spaces.now (map seen parts.now) uses.old }
    ensures counts { AreLowered spaces.now (map seen parts.now) uses.old uses.new }
    ensures rows { HaveRowsOf uses.old uses.new }
{
    for part in parts {
        lower(uses, spaces, near, part);
    }
}
