//! Which direction of a link has its turn next.
ghost use Rattle.std.specs.Prelude.{◌≡◌, ℕ, ◌≤◌, [], IfNone, IfSome, Some, length, slice_get};
ghost use Rattle.std.specs.List.{All};
ghost use Rattle.exb_world_spec.specs.Steps.{words_on};
ghost use Rattle.exb_link.specs.Links.{words_of};
ghost use Rattle.exb_model.specs.DeviceSets.{IsNumber};
ghost use Rattle.exb_world.specs.Steps.{way_of};
ghost use Rattle.exb_bridge.specs.TreeIndexes.{ArePlaces};
ghost use Rattle.exb_world.specs.LinkTurns.{order_of, IsEarlier, IsFirst, IsTurn};
ghost use Rattle.exb_world.specs.MachineWorlds.{world_in};

use crate::parts::WorldParts;
use crate::step::Way;
use exb_bridge::TreeIndex;
use exb_link::Links;
use exb_model::port::DEVICES;

/// A direction that has a word: its place in the order in which a round goes through the directions
/// of one way, and its extender.
#[derive(Clone, Copy)]
pub struct LinkTurn {
    pub place: u8,
    pub link: u8,
}

/// The earlier of two places, where the second isn't before `from`; else the first.
#[inline(always)]
fn earlier(first: u8, place: u8, from: u8) -> u8
    ensures { IsEarlier first place from result }
{
    if place < from || first < place {
        first
    } else {
        place
    }
}

/// The turn at a place in the order, if there is one.
#[inline(always)]
fn turn_at(order: &[u8], place: u8) -> Option<LinkTurn>
    requires { length order.now ≤ 64 }
    ensures found { IfSome result (λ turn. (turn.place ≡ place)
        × (slice_get order.now place ≡ Some turn.link)) }
    ensures none { IfNone result (length order.now ≤ place) }
{
    if place >= order.len() as u8 {
        return None;
    }
    let link = order[place as usize];
    Some(LinkTurn { place, link })
}

/// The first of these links, from a place on, that has a word. Only links that have one are looked
/// at: of each its place in the order is known.
#[inline(always)]
fn first_among(
    order: &[u8],
    places: &[u8; DEVICES as usize],
    links: &Links,
    from: u8,
) -> Option<LinkTurn>
    requires few { length order.now ≤ 64 }
    requires places { ArePlaces order.now places.now }
    ensures found { IfSome result (IsFirst order.now links.now from) }
    ensures none { IfNone result ((k n : ℕ) → from ≤ k → slice_get order.now k ≡ Some n
        → words_of links.now n ≡ []) }
{
    let mut first = 64u8;
    let mut number = 0u8;
    'links: while let Some(link) = links.next_busy(number) {
        first = earlier(first, places[link as usize], from);
        number = link + 1;
    }
    turn_at(order, first)
}

/// The turn of the link at a place in the order, if that has a word.
#[inline(always)]
fn turn_here(order: &[u8], links: &Links, place: u8) -> Option<LinkTurn>
    requires low { All IsNumber order.now }
    requires few { length order.now ≤ 64 }
    ensures { IfSome result (IsFirst order.now links.now place) }
{
    let turn = turn_at(order, place)?;
    if links.has_word(turn.link) {
        Some(turn)
    } else {
        None
    }
}

/// The first of these links, from a place on, that has a word. Mostly none has one, and where many
/// have one it is that at the place itself.
#[inline(always)]
fn first_busy(
    order: &[u8],
    places: &[u8; DEVICES as usize],
    links: &Links,
    from: u8,
) -> Option<LinkTurn>
    requires low { All IsNumber order.now }
    requires few { length order.now ≤ 64 }
    requires places { ArePlaces order.now places.now }
    ensures found { IfSome result (IsFirst order.now links.now from) }
    ensures none { IfNone result ((k n : ℕ) → from ≤ k → slice_get order.now k ≡ Some n
        → words_of links.now n ≡ []) }
{
    links.next_busy(0)?;
    match turn_here(order, links, from) {
        Some(turn) => Some(turn),
        None => first_among(order, places, links, from),
    }
}

/// The first direction of a way, from a place on, that has a word.
#[inline(always)]
pub(crate) fn next_busy(site: &TreeIndex, core: &WorldParts, way: Way, from: u8) -> Option<LinkTurn>
    ensures found { IfSome result (IsTurn site.now.tree (way_of way) (world_in core.now) from) }
    ensures none { IfNone result ((k n : ℕ) → from ≤ k
        → slice_get (order_of site.now.tree (way_of way)) k ≡ Some n
        → words_on n (way_of way) (world_in core.now) ≡ []) }
{
    site.tree().is_tree();
    match way {
        Way::Up => first_busy(site.upwards(), site.upward_places(), &core.up, from),
        Way::Down => first_busy(
            site.downwards(),
            site.downward_places(),
            &core.bridge.down,
            from,
        ),
    }
}
