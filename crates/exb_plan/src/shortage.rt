//! Whether the groups suffice for the sets that there are and those that come.
ghost use Rattle.std.specs.Prelude.{◌≡◌, ◌^◌, ℕ, ◌+◌, ◌-◌, ◌≤◌, ◌<◌, true, List, map};
ghost use Rattle.exb_model.specs.Tree.{is_cascade};
ghost use Rattle.exb_model.specs.Setup.{Limits};
ghost use Rattle.exb_numbers.specs.Spaces.{has_space};
ghost use Rattle.exb_control_spec.specs.Plans.Sets.{PortsAt, seen};
ghost use Rattle.exb_plan.specs.PlanValues.{AreLimited};
ghost use Rattle.exb_control_spec.specs.Plans.FreshSets.{how_many, is_at, short_by, short_at};
ghost use Rattle.exb_plan.specs.UseCounts.{used_at};

use crate::cascade_ports::is_cascade;
use crate::group_uses::GroupUses;
use exb_control_spec::SetAt;
use exb_model::event::Cause;
use exb_model::tree::Tree;
use exb_numbers::Spaces;

// How many of the sets are below a bridge port.
fn count_at(sets: &[SetAt], bridge_port: u8) -> u64
    ensures value { result ≡ how_many (is_at bridge_port) (map seen sets.now) }
    ensures small { result < 2 ^ 63 }
{
    let mut count = 0;
    for set in sets {
        if set.bridge_port == bridge_port {
            count += 1;
        }
    }
    count
}

// Why the groups of a cascade port of the bridge don't suffice for those in use and fresh sets, if
// they don't.
fn groups_short_at(
    spaces: &Spaces,
    uses: &GroupUses,
    fresh: &[SetAt],
    bridge_port: u8,
) -> Option<Cause>
    requires from1 { 1 ≤ bridge_port }
    requires cascade { has_space spaces.now (bridge_port - 1) ≡ true }
    ensures { (l : Limits) → (had : List PortsAt) → AreLimited l.groups spaces.now
        → used_at uses.now (bridge_port - 1) ≡ how_many (is_at bridge_port) had
        → result ≡ short_at l had (map seen fresh.now) bridge_port }
{
    let needed = uses.used(bridge_port) as u64 + count_at(fresh, bridge_port);
    let limit = spaces.groups(bridge_port).limit() as u32;
    if needed > limit as u64 {
        Some(Cause::Groups { needed, limit })
    } else {
        None
    }
}

/// Why the groups of the lowest bridge port that has too few don't suffice, if there is one. As
/// many groups have a use as there are sets.
pub(crate) fn groups_short(
    tree: &Tree,
    spaces: &Spaces,
    uses: &GroupUses,
    fresh: &[SetAt],
) -> Option<Cause>
    requires { (k : ℕ) → k < 64 → is_cascade tree.now k ≡ true → has_space spaces.now k ≡ true }
    ensures { (l : Limits) → (had : List PortsAt) → AreLimited l.groups spaces.now
        → ((k : ℕ) → k < 64 → is_cascade tree.now k ≡ true → used_at uses.now k
        ≡ how_many (is_at (k + 1)) had)
        → result ≡ short_by tree.now l had (map seen fresh.now) }
{
    for bridge_port in 1..65u8 {
        if is_cascade(tree, bridge_port) {
            let short = groups_short_at(spaces, uses, fresh, bridge_port);
            if short.is_some() {
                return short;
            }
        }
    }
    None
}
