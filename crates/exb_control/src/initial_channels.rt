//! How the bridge begins: with channels for the cascade ports of its extenders.
ghost use Rattle.std.specs.Prelude.{◌≡◌, ◌/◌, ◌≤◌, IfOk};
ghost use Rattle.exb_model.specs.Tree.{trunk};
ghost use Rattle.exb_model.specs.Setup.{Limits};
ghost use Rattle.exb_plan.specs.SpaceContents.{HasSpaces, held_by};
ghost use Rattle.exb_control_spec.specs.Plans.HeldNumbers.{free_channel, give_channel};
ghost use Rattle.exb_plan.specs.PlanValues.{CanClaimChannel, IsAlike, channel_limit};
ghost use Rattle.exb_control_spec.specs.InitialState.{nothing_held, is_deep, first_held, HasChannels};
ghost use Rattle.exb_control_spec.specs.Plans.Laws.{HoldsFirst};
ghost use Rattle.exb_control_spec.specs.Plans.HeldNumbers.{in_spaces};

use exb_model::memory::NoMemory;
use exb_model::port::{PORTS, PortId};
use exb_model::role::Role;
use exb_model::tree::Tree;
use exb_numbers::Spaces;
use std::alloc::Global;

/// The spaces of the cascade ports of the bridge, in which the cascade ports of extenders have
/// channels.
pub(crate) fn first_spaces(
    alloc: Global,
    tree: &Tree,
    channels: u16,
    groups: u16,
) -> Result<Spaces, NoMemory>
    requires channels { HasChannels tree.now (record { channels = channels; groups = groups }) }
    requires groups { groups ≤ 12288 }
    ensures spaces { IfOk result (λ made.
        HasSpaces tree.now (record { channels = channels; groups = groups }) made) }
    ensures held { IfOk result (λ made. in_spaces tree.now (held_by made)
        ≡ first_held tree.now (record { channels = channels; groups = groups })) }
    ensures first { IfOk result (λ made. HoldsFirst tree.now (held_by made)) }
{
    let mut spaces = Spaces::new(alloc, tree, channels, groups)?;
    claim_all(tree, &mut spaces);
    Ok(spaces)
}

// Gives each cascade port of an extender the lowest free channel of its trunk, in port order. No
// number is in use before.
fn claim_all(tree: &Tree, spaces: &mut Spaces)
    requires limits { (l : Limits) × HasSpaces tree.now l spaces.old × HasChannels tree.now l }
    requires none { in_spaces tree.now (held_by spaces.old) ≡ nothing_held }
    ensures held { (l : Limits) → HasSpaces tree.now l spaces.old
        → in_spaces tree.now (held_by spaces.new) ≡ first_held tree.now l }
    ensures first { HoldsFirst tree.now (held_by spaces.new) }
    ensures alike { IsAlike spaces.old spaces.new }
{
    tree.is_tree();
    for number in 0..PORTS {
        let port = PortId::new(number).unwrap();
        if is_deep(tree, port) {
            claim(tree, spaces, port);
        }
    }
}

// Whether it is a cascade port of an extender.
fn is_deep(tree: &Tree, port: PortId) -> bool
    ensures { result ≡ is_deep tree.now port }
{
    tree.is_tree();
    if port.number() < 64 {
        return false;
    }
    match tree.role(port) {
        Role::Cascade { .. } => true,
        _ => false,
    }
}

// Gives a port the lowest free channel of its trunk.
fn claim(tree: &Tree, spaces: &mut Spaces, port: PortId)
    requires { CanClaimChannel tree.now spaces.old port }
    ensures held { held_by spaces.new ≡ give_channel tree.now port
        (free_channel (channel_limit spaces.old (trunk tree.now (port / 64))) (held_by spaces.old)
        (trunk tree.now (port / 64))) (held_by spaces.old) }
    ensures alike { IsAlike spaces.old spaces.new }
{
    let trunk = tree.trunk(port.device());
    let _channel = spaces.channels_mut(trunk).claim(port).unwrap();
}
