//! How numbers are claimed, and given back where a plan comes to nothing.
ghost use Rattle.std.specs.Prelude.{◌≡◌, ℕ, ◌-◌, ◌/◌, ◌≤◌, [], true, None, map, length, vec_capacity};
ghost use Rattle.exb_model.specs.Tree.{trunk, is_extender};
ghost use Rattle.exb_numbers.specs.Spaces.{has_space, groups_at};
ghost use Rattle.exb_control_spec.specs.Plans.Sets.{seen};
ghost use Rattle.exb_control_spec.specs.Plans.HeldNumbers.{Held, group_for, group_used, give, take_back, free_channel, channel_used, give_channel, free_port_of};
ghost use Rattle.exb_plan.specs.SpaceContents.{held_by};
ghost use Rattle.exb_control_spec.specs.Plans.FreshSets.{seen_group, IsFresh};
ghost use Rattle.exb_plan.specs.PlanValues.{IsPlaced, CanClaim, AreLimited, AreClaimed, IsLaterBy, IsAlike, CanClaimChannel, channel_limit};

use exb_control_spec::{GroupAt, SetAt};
use exb_model::port::PortId;
use exb_model::tree::Tree;
use exb_numbers::Spaces;

// Gives a set the lowest free group.
fn claim_group(spaces: &mut Spaces, set: &SetAt) -> u16
    requires placed { IsPlaced spaces.old (seen set.now) }
    requires fresh { IsFresh (groups_at spaces.old (set.now.bridge_port - 1)).limit
        (held_by spaces.old) (seen set.now) }
    ensures number { result ≡ (group_for (groups_at spaces.old (set.now.bridge_port - 1)).limit
        (held_by spaces.old) (seen set.now)).number }
    ensures held { held_by spaces.new
        ≡ give (group_for (groups_at spaces.old (set.now.bridge_port - 1)).limit
        (held_by spaces.old) (seen set.now)) (held_by spaces.old) }
    ensures alike { IsAlike spaces.old spaces.new }
{
    spaces.groups_mut(set.bridge_port).claim(&set.set).unwrap()
}

/// Gives each set in turn the lowest free group of its space. There is room for the groups.
pub(crate) fn claim_groups(spaces: &mut Spaces, sets: &[SetAt], given: &mut Vec<GroupAt>)
    requires fresh { CanClaim spaces.old (map seen sets.now) }
    requires none { given.old.items ≡ [] }
    requires room { length sets.now ≤ vec_capacity given.old }
    ensures claimed { (groups : ℕ) → AreLimited groups spaces.old
        → AreClaimed groups (held_by spaces.old) (map seen sets.now)
        (map seen_group given.new.items) (held_by spaces.new) }
    ensures alike { IsAlike spaces.old spaces.new }
{
    for set in sets {
        let number = claim_group(spaces, set);
        given
            .push(GroupAt {
                bridge_port: set.bridge_port,
                number,
                set: set.set,
            })
            .unwrap();
    }
}

// Frees a group.
fn free_group(spaces: &mut Spaces, group: &GroupAt)
    requires from1 { 1 ≤ group.now.bridge_port }
    requires cascade { has_space spaces.old (group.now.bridge_port - 1) ≡ true }
    requires used { group_used (held_by spaces.old) (group.now.bridge_port - 1) group.now.number
        ≡ true }
    ensures held { held_by spaces.new ≡ take_back (seen_group group.now) (held_by spaces.old) }
    ensures alike { IsAlike spaces.old spaces.new }
{
    spaces.groups_mut(group.bridge_port).release(group.number);
}

/// Frees the groups that were given, the last one first.
pub(crate) fn free_groups(spaces: &mut Spaces, mut given: Vec<GroupAt>)
    requires { (h : Held) × IsLaterBy spaces.old h (map seen_group given.items)
        (held_by spaces.old) }
    ensures held { (h : Held) → IsLaterBy spaces.old h (map seen_group given.items)
        (held_by spaces.old) → held_by spaces.new ≡ h }
    ensures alike { IsAlike spaces.old spaces.new }
{
    while let Some(group) = given.pop() {
        free_group(spaces, &group);
    }
}

/// Gives a port the lowest free channel of its trunk.
pub(crate) fn claim_channel(spaces: &mut Spaces, tree: &Tree, port: PortId) -> u16
    requires { CanClaimChannel tree.now spaces.old port }
    ensures number { result ≡ free_channel (channel_limit spaces.old (trunk tree.now (port / 64)))
        (held_by spaces.old) (trunk tree.now (port / 64)) }
    ensures held { held_by spaces.new ≡ give_channel tree.now port result (held_by spaces.old) }
    ensures free { (held_by spaces.old).port (trunk tree.now (port / 64)) result ≡ None }
    ensures alike { IsAlike spaces.old spaces.new }
{
    let trunk = tree.trunk(port.device());
    spaces.channels_mut(trunk).claim(port).unwrap()
}

/// Frees the channel of a port.
pub(crate) fn free_channel(spaces: &mut Spaces, tree: &Tree, port: PortId, channel: u16)
    requires extender { is_extender tree.now (port / 64) ≡ true }
    requires cascade { has_space spaces.old (trunk tree.now (port / 64)) ≡ true }
    requires used { channel_used (held_by spaces.old) (trunk tree.now (port / 64)) channel ≡ true }
    ensures held { held_by spaces.new ≡ free_port_of tree.now port channel (held_by spaces.old) }
    ensures alike { IsAlike spaces.old spaces.new }
{
    let trunk = tree.trunk(port.device());
    spaces.channels_mut(trunk).release(channel);
}
