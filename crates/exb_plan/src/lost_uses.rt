//! The groups that go: those of the touched parts that have no use any more.
ghost use Rattle.std.specs.Prelude.{◌≡◌, ℕ, ◌-◌, ◌≤◌, ◌<◌, ◌++◌, ◌∷◌, ◌||◌, [], true, List, map, IfOk, OnOk};
ghost use Rattle.std.specs.List.{All};
ghost use Rattle.exb_model.specs.Tree.{is_cascade};
ghost use Rattle.exb_numbers.specs.Spaces.{has_space};
ghost use Rattle.exb_control_spec.specs.Plans.Sets.{PortsAt, seen};
ghost use Rattle.exb_plan.specs.SpaceContents.{held_by};
ghost use Rattle.exb_control_spec.specs.Plans.Differences.{group_at, gone_at, gone_groups};
ghost use Rattle.exb_plan.specs.PlanValues.{IsPlaced};
ghost use Rattle.exb_control_spec.specs.Plans.FreshSets.{seen_group};
ghost use Rattle.exb_plan.specs.RisingNumbers.{is_among, IsRising};
ghost use Rattle.exb_plan.specs.Recount.{AreOwn};
ghost use Rattle.exb_plan.specs.LostUses.{is_left, AreGroups, AreLeft, AreInUse};

use crate::cascade_ports::is_cascade;
use crate::group_guesses::Guesses;
use crate::group_uses::GroupUses;
use crate::rising_numbers::put_rising;
use exb_control_spec::{GroupAt, SetAt};
use exb_model::memory::NoMemory;
use exb_model::tree::Tree;
use exb_numbers::Spaces;
use std::alloc::Global;

// Puts the group of a part among rising numbers, if it is below that bridge port and has no use.
fn put_left(
    numbers: &mut Vec<u16>,
    spaces: &Spaces,
    uses: &GroupUses,
    near: &mut Guesses,
    part: &SetAt,
    bridge_port: u8,
) -> Result<(), NoMemory>
    requires placed { IsPlaced spaces.now (seen part.now) }
    requires own { AreOwn spaces.now }
    requires from1 { 1 ≤ bridge_port }
    requires cascade { has_space spaces.now (bridge_port - 1) ≡ true }
    requires rising { IsRising numbers.old.items }
    requires groups { AreGroups numbers.old.items }
    ensures rising { IsRising numbers.new.items }
    ensures groups { OnOk result (AreGroups numbers.new.items) }
    ensures members { OnOk result ((g : ℕ) → is_among numbers.new.items g
        ≡ (is_left (held_by spaces.now) uses.now (seen part.now ∷ []) (bridge_port - 1) g
        || is_among numbers.old.items g)) }
{
    if part.bridge_port != bridge_port {
        near.skip();
        return Ok(());
    }
    match near.find(spaces.groups(bridge_port), part) {
        Some(group) => {
            if uses.count(bridge_port, group) > 0 {
                return Ok(());
            }
            put_rising(numbers, group)
        }
        None => Ok(()),
    }
}

// The groups of parts below a bridge port that have no use, by rising number.
fn left_at(
    alloc: Global,
    spaces: &Spaces,
    uses: &GroupUses,
    parts: &[SetAt],
    bridge_port: u8,
    near: &mut Guesses,
) -> Result<Vec<u16>, NoMemory>
    requires placed { All (λ s. IsPlaced spaces.now (seen s)) parts.now }
    requires own { AreOwn spaces.now }
    requires from1 { 1 ≤ bridge_port }
    requires cascade { has_space spaces.now (bridge_port - 1) ≡ true }
    ensures rising { IfOk result (λ made. IsRising made.items) }
    ensures groups { IfOk result (λ made. AreGroups made.items) }
    ensures members { IfOk result (λ made. (g : ℕ) → is_among made.items g
        ≡ is_left (held_by spaces.now) uses.now (map seen parts.now) (bridge_port - 1) g) }
{
    let mut numbers = Vec::new(alloc);
    near.again();
    for part in parts {
        put_left(&mut numbers, spaces, uses, near, part, bridge_port)?;
    }
    Ok(numbers)
}

// Puts the groups of these numbers with their sets.
fn put_groups(
    gone: &mut Vec<GroupAt>,
    spaces: &Spaces,
    numbers: &[u16],
    bridge_port: u8,
) -> Result<(), NoMemory>
    requires from1 { 1 ≤ bridge_port }
    requires cascade { has_space spaces.now (bridge_port - 1) ≡ true }
    requires used { AreInUse (held_by spaces.now) (bridge_port - 1) numbers.now }
    ensures { OnOk result (map seen_group gone.new.items ≡ map seen_group gone.old.items
        ++ map (group_at (held_by spaces.now) (bridge_port - 1)) numbers.now) }
{
    let groups = spaces.groups(bridge_port);
    for number in numbers {
        if let Some(set) = groups.set(*number) {
            gone.push(GroupAt {
                bridge_port,
                number: *number,
                set: *set,
            })?;
        }
    }
    Ok(())
}

// Puts the groups of a cascade port of the bridge that go.
fn put_gone_at(
    gone: &mut Vec<GroupAt>,
    spaces: &Spaces,
    uses: &GroupUses,
    parts: &[SetAt],
    bridge_port: u8,
    near: &mut Guesses,
) -> Result<(), NoMemory>
    requires placed { All (λ s. IsPlaced spaces.now (seen s)) parts.now }
    requires own { AreOwn spaces.now }
    requires from1 { 1 ≤ bridge_port }
    requires cascade { has_space spaces.now (bridge_port - 1) ≡ true }
    ensures { (kept : List PortsAt) → AreLeft (held_by spaces.now) uses.now (map seen parts.now)
        kept (bridge_port - 1)
        → OnOk result (map seen_group gone.new.items ≡ map seen_group gone.old.items
        ++ gone_at kept (held_by spaces.now) (bridge_port - 1)) }
{
    let alloc = *gone.allocator();
    let numbers = left_at(alloc, spaces, uses, parts, bridge_port, near)?;
    put_groups(gone, spaces, numbers.as_slice(), bridge_port)
}

/// The groups of parts that have no use any more, by bridge port and number. They are those whose
/// sets aren't kept. The parts are those of which the guesses are.
pub(crate) fn gone_groups(
    alloc: Global,
    tree: &Tree,
    spaces: &Spaces,
    uses: &GroupUses,
    parts: &[SetAt],
    near: &mut Guesses,
) -> Result<Vec<GroupAt>, NoMemory>
    requires placed { All (λ s. IsPlaced spaces.now (seen s)) parts.now }
    requires own { AreOwn spaces.now }
    requires cascades { (k : ℕ) → k < 64 → is_cascade tree.now k ≡ true
        → has_space spaces.now k ≡ true }
    ensures { (kept : List PortsAt) → ((k : ℕ) → k < 64 → is_cascade tree.now k ≡ true
        → AreLeft (held_by spaces.now) uses.now (map seen parts.now) kept k)
        → IfOk result (λ made. map seen_group made.items
        ≡ gone_groups tree.now kept (held_by spaces.now)) }
{
    let mut gone = Vec::new(alloc);
    for bridge_port in 1..65u8 {
        if is_cascade(tree, bridge_port) {
            put_gone_at(&mut gone, spaces, uses, parts, bridge_port, near)?;
        }
    }
    Ok(gone)
}
