//! Copies of the spaces.
ghost use Rattle.std.specs.Prelude.{◌≡◌, ◌-◌, ◌≤◌, true, IfOk, OnOk};
ghost use Rattle.exb_numbers.specs.Spaces.{has_space, with_channels, with_groups, channels_at, groups_at};
ghost use Rattle.exb_plan.specs.SpaceContents.{HasSpaces, held_by};
ghost use Rattle.exb_control_spec.specs.Plans.HeldNumbers.{in_spaces};

use crate::release::is_place;
use exb_model::memory::NoMemory;
use exb_model::tree::Tree;
use exb_numbers::Spaces;
use std::alloc::Global;

// Copies the channels and groups of one bridge port.
fn copy_space(spaces: &Spaces, bridge_port: u8, made: &mut Spaces) -> Result<(), NoMemory>
    requires from1 { 1 ≤ bridge_port }
    requires there { has_space spaces.now (bridge_port - 1) ≡ true }
    requires place { has_space made.old (bridge_port - 1) ≡ true }
    ensures { OnOk result (made.new
        ≡ with_groups (with_channels made.old (bridge_port - 1)
        (channels_at spaces.now (bridge_port - 1))) (bridge_port - 1)
        (groups_at spaces.now (bridge_port - 1))) }
{
    let channels = spaces.channels(bridge_port).copy()?;
    let groups = spaces.groups(bridge_port).copy()?;
    *made.channels_mut(bridge_port) = channels;
    *made.groups_mut(bridge_port) = groups;
    Ok(())
}

/// Spaces in which the same numbers are held.
pub(crate) fn copy_spaces(
    alloc: Global,
    tree: &Tree,
    spaces: &Spaces,
    channels: u16,
    groups: u16,
) -> Result<Spaces, NoMemory>
    requires channels { channels ≤ 4094 }
    requires groups { groups ≤ 12288 }
    requires spaces { HasSpaces tree.now (record { channels = channels; groups = groups })
        spaces.now }
    ensures spaces { IfOk result (λ made.
        HasSpaces tree.now (record { channels = channels; groups = groups }) made) }
    ensures held { IfOk result (λ made. in_spaces tree.now (held_by made)
        ≡ in_spaces tree.now (held_by spaces.now)) }
{
    let mut made = Spaces::new(alloc, tree, channels, groups)?;
    for bridge_port in 1..65u8 {
        if is_place(tree, bridge_port) {
            copy_space(spaces, bridge_port, &mut made)?;
        }
    }
    Ok(made)
}
