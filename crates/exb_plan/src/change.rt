//! The plan of a change.
ghost use Rattle.std.specs.Prelude.{◌≡◌, map, IfOk, OnOk, OnErr};
ghost use Rattle.exb_model.specs.Setup.{Limits};
ghost use Rattle.exb_control_spec.specs.Plans.Sets.{seen};
ghost use Rattle.exb_plan.specs.SpaceContents.{held_by, HasSpaces};
ghost use Rattle.exb_control_spec.specs.Plans.Plans.{own_channel, new_channel, with_channel, without_channel, freed_channel, number_of, prepare_with, cleanup_with};
ghost use Rattle.exb_control_spec.specs.Plans.FreshSets.{seen_group, IsAnyExtended};
ghost use Rattle.exb_plan.specs.PlanValues.{IsAlike, CanClaim, CanClaimUp, HasUp, SpacesOf, prepare_by, claimed_by, change_with};

use crate::claims::{claim_channel, claim_groups, free_channel, free_groups};
use crate::group_requests::put_groups;
use crate::request_messages::{put_create, put_delete};
use exb_control_spec::{Change, GroupAt, Number, RowAction, SetAt};
use exb_csp::AskAt;
use exb_model::list::List;
use exb_model::memory::NoMemory;
use exb_model::port::PortId;
use exb_model::tree::Tree;
use exb_numbers::Spaces;
use std::alloc::Global;

// The channel of a port that goes down; 0 where none does.
fn own_channel(tree: &Tree, spaces: &Spaces, down: &Option<PortId>) -> u16
    requires down { IsAnyExtended tree.now down.now }
    requires spaces { SpacesOf tree.now spaces.now }
    ensures { result ≡ own_channel tree.now (held_by spaces.now) down.now }
{
    tree.is_tree();
    match down {
        Some(port) => {
            let bridge_port = tree.trunk(port.device());
            spaces.channels(bridge_port).of(*port).unwrap_or(0)
        }
        None => 0,
    }
}

// The channel of a port that goes down, as one to free.
fn freed_channel(
    alloc: Global,
    tree: &Tree,
    channel: u16,
    down: &Option<PortId>,
) -> Result<List<Number>, NoMemory>
    requires { IsAnyExtended tree.now down.now }
    ensures { IfOk result (λ made. made ≡ freed_channel tree.now channel down.now) }
{
    let mut channels = List::new(alloc);
    if let Some(port) = down {
        channels.push(Number {
            bridge_port: tree.trunk(port.device()),
            number: channel,
        })?;
    }
    Ok(channels)
}

// The numbers of groups.
fn numbers_of(alloc: Global, groups: &[GroupAt]) -> Result<List<Number>, NoMemory>
    ensures { IfOk result (λ made. made ≡ map number_of (map seen_group groups.now)) }
{
    let mut numbers = List::new(alloc);
    for group in groups {
        numbers.push(Number {
            bridge_port: group.bridge_port,
            number: group.number,
        })?;
    }
    Ok(numbers)
}

/// What is asked after the commit.
pub(crate) fn cleanup(
    alloc: Global,
    tree: &Tree,
    channel: u16,
    down: &Option<PortId>,
    gone: &[GroupAt],
) -> Result<List<AskAt>, NoMemory>
    ensures { IfOk result (λ made. made ≡ cleanup_with tree.now channel down.now
        (map seen_group gone.now)) }
{
    let mut asks = List::new(alloc);
    put_groups(alloc, tree, RowAction::Clear, gone, &mut asks)?;
    if let Some(port) = down {
        put_delete(alloc, tree, *port, channel, &mut asks)?;
    }
    Ok(asks)
}

/// What is asked before the commit.
pub(crate) fn prepare(
    alloc: Global,
    tree: &Tree,
    channel: u16,
    up: &Option<PortId>,
    fresh: &[GroupAt],
) -> Result<List<AskAt>, NoMemory>
    ensures { IfOk result (λ made. made ≡ prepare_with tree.now channel up.now
        (map seen_group fresh.now)) }
{
    let mut asks = List::new(alloc);
    if let Some(port) = up {
        put_create(alloc, tree, *port, false, channel, &mut asks)?;
    }
    put_groups(alloc, tree, RowAction::Lay, fresh, &mut asks)?;
    Ok(asks)
}

// Claims the channel of a port that goes up; 0 where none does.
fn claim_up(spaces: &mut Spaces, tree: &Tree, up: &Option<PortId>) -> u16
    requires { CanClaimUp tree.now spaces.old up.now }
    ensures number { (l : Limits) → HasSpaces tree.now l spaces.old
        → result ≡ new_channel tree.now l (held_by spaces.old) up.now }
    ensures held { held_by spaces.new ≡ with_channel tree.now result up.now (held_by spaces.old) }
    ensures has { HasUp tree.now spaces.new up.now result }
    ensures back { without_channel tree.now result up.now (held_by spaces.new)
        ≡ held_by spaces.old }
    ensures alike { IsAlike spaces.old spaces.new }
{
    match up {
        Some(port) => claim_channel(spaces, tree, *port),
        None => 0,
    }
}

// Frees that channel.
fn free_up(spaces: &mut Spaces, tree: &Tree, up: &Option<PortId>, channel: u16)
    requires { HasUp tree.now spaces.old up.now channel }
    ensures held { held_by spaces.new ≡ without_channel tree.now channel up.now
        (held_by spaces.old) }
    ensures alike { IsAlike spaces.old spaces.new }
{
    if let Some(port) = up {
        free_channel(spaces, tree, *port, channel);
    }
}

// Claims the numbers, and says what is asked before the commit. Out of memory nothing is claimed.
fn claim(
    alloc: Global,
    tree: &Tree,
    spaces: &mut Spaces,
    up: &Option<PortId>,
    fresh: &[SetAt],
) -> Result<List<AskAt>, NoMemory>
    requires up { CanClaimUp tree.now spaces.old up.now }
    requires fresh { CanClaim spaces.old (map seen fresh.now) }
    ensures prepare { (l : Limits) → HasSpaces tree.now l spaces.old
        → IfOk result (λ made. made ≡ prepare_by tree.now l (held_by spaces.old) up.now
        (map seen fresh.now)) }
    ensures held { (l : Limits) → HasSpaces tree.now l spaces.old
        → OnOk result (held_by spaces.new ≡ claimed_by tree.now l (held_by spaces.old) up.now
        (map seen fresh.now)) }
    ensures err { OnErr result (held_by spaces.new ≡ held_by spaces.old) }
    ensures alike { IsAlike spaces.old spaces.new }
{
    let mut given = Vec::with_capacity(alloc, fresh.len())?;
    let channel = claim_up(spaces, tree, up);
    claim_groups(spaces, fresh, &mut given);
    match prepare(alloc, tree, channel, up, given.as_slice()) {
        Ok(asks) => Ok(asks),
        Err(NoMemory) => {
            free_groups(spaces, given);
            free_up(spaces, tree, up, channel);
            Err(NoMemory)
        }
    }
}

/// The change in which a port goes up or down, these groups go and these fresh sets get one. The
/// new numbers are claimed, the lowest free ones, and the asks are those that lay and clear what
/// changes. Out of memory nothing is claimed.
pub fn make_change(
    alloc: Global,
    tree: &Tree,
    spaces: &mut Spaces,
    up: &Option<PortId>,
    down: &Option<PortId>,
    gone: &[GroupAt],
    fresh: &[SetAt],
) -> Result<Change, NoMemory>
    requires up { CanClaimUp tree.now spaces.old up.now }
    requires down { IsAnyExtended tree.now down.now }
    requires fresh { CanClaim spaces.old (map seen fresh.now) }
    requires spaces { SpacesOf tree.now spaces.old }
    ensures change { (l : Limits) → HasSpaces tree.now l spaces.old → IfOk result (λ made. made
        ≡ change_with tree.now l (held_by spaces.old) up.now down.now (map seen_group gone.now)
        (map seen fresh.now)) }
    ensures held { (l : Limits) → HasSpaces tree.now l spaces.old
        → OnOk result (held_by spaces.new ≡ claimed_by tree.now l (held_by spaces.old) up.now
        (map seen fresh.now)) }
    ensures err { OnErr result (held_by spaces.new ≡ held_by spaces.old) }
    ensures alike { IsAlike spaces.old spaces.new }
{
    let channel = own_channel(tree, spaces, down);
    let channels = freed_channel(alloc, tree, channel, down)?;
    let groups = numbers_of(alloc, gone)?;
    let cleanup = cleanup(alloc, tree, channel, down, gone)?;
    let prepare = claim(alloc, tree, spaces, up, fresh)?;
    Ok(Change {
        prepare,
        cleanup,
        channels,
        groups,
    })
}
