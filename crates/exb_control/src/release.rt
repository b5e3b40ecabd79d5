//! How the numbers of a change are freed.
ghost use Rattle.std.specs.Prelude.{◌≡◌, ◌-◌, ◌&&◌, nat_lt};
ghost use Rattle.exb_model.specs.Setup.{Limits};
ghost use Rattle.exb_plan.specs.SpaceContents.{HasSpaces, held_by};
ghost use Rattle.exb_plan.specs.PlanValues.{IsAlike};
ghost use Rattle.exb_control_spec.specs.Decisions.{release, without_channel, without_group};
ghost use Rattle.exb_control_spec.specs.Plans.HeldNumbers.{is_place, in_spaces};

use exb_control_spec::{Change, Number};
use exb_model::port::PortId;
use exb_model::role::Role;
use exb_model::tree::Tree;
use exb_numbers::Spaces;

/// Whether a bridge port has a space. Bridge ports are numbered from 1.
pub(crate) fn is_place(tree: &Tree, bridge_port: u8) -> bool
    ensures { result ≡ (nat_lt 0 bridge_port && is_place tree.now (bridge_port - 1)) }
{
    tree.is_tree();
    if bridge_port == 0 || bridge_port > 64 {
        return false;
    }
    match tree.role(PortId::new(bridge_port as u16 - 1).unwrap()) {
        Role::Cascade { .. } => true,
        _ => false,
    }
}

// Frees a channel, if it is in use.
fn release_channel(tree: &Tree, spaces: &mut Spaces, number: &Number)
    requires { (l : Limits) × HasSpaces tree.now l spaces.old }
    ensures held { in_spaces tree.now (held_by spaces.new)
        ≡ without_channel number.now (in_spaces tree.now (held_by spaces.old)) }
    ensures alike { IsAlike spaces.old spaces.new }
{
    if !is_place(tree, number.bridge_port) {
        return;
    }
    if spaces
        .channels(number.bridge_port)
        .port(number.number)
        .is_some()
    {
        spaces
            .channels_mut(number.bridge_port)
            .release(number.number);
    }
}

// Frees a group, if it is in use.
fn release_group(tree: &Tree, spaces: &mut Spaces, number: &Number)
    requires { (l : Limits) × HasSpaces tree.now l spaces.old }
    ensures held { in_spaces tree.now (held_by spaces.new)
        ≡ without_group number.now (in_spaces tree.now (held_by spaces.old)) }
    ensures alike { IsAlike spaces.old spaces.new }
{
    if !is_place(tree, number.bridge_port) {
        return;
    }
    if spaces
        .groups(number.bridge_port)
        .set(number.number)
        .is_some()
    {
        spaces.groups_mut(number.bridge_port).release(number.number);
    }
}

/// Frees the numbers of a change, those that are in use.
pub(crate) fn release(tree: &Tree, spaces: &mut Spaces, change: &Change)
    requires { (l : Limits) × HasSpaces tree.now l spaces.old }
    ensures held { in_spaces tree.now (held_by spaces.new)
        ≡ release change.now (in_spaces tree.now (held_by spaces.old)) }
    ensures alike { IsAlike spaces.old spaces.new }
{
    let channels = change.channels.as_slice();
    for number in channels {
        release_channel(tree, spaces, number);
    }
    let groups = change.groups.as_slice();
    for number in groups {
        release_group(tree, spaces, number);
    }
}
