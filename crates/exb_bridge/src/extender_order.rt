//! The extenders of a tree: from the deepest, as a set, and their places in an order.
ghost use Rattle.std.specs.Prelude.{◌≡◌, ◌<◌, ◌≤◌, IfOk, length};
ghost use Rattle.std.specs.List.{All};
ghost use Rattle.exb_model.specs.Tree.{by_depth, hangs_at_depth, path};
ghost use Rattle.exb_world_spec.specs.Settling.{deepest_first};
ghost use Rattle.exb_bridge.specs.TreeIndexes.{AreExtenders, ArePlaces, StandsOnce};

use exb_model::device_set::with_bit;
use exb_model::memory::NoMemory;
use exb_model::port::{DEVICES, PortId};
use exb_model::tree::Tree;
use std::alloc::Global;

/// How many ports there are from a port up to the bridge, where an extender hangs on the port of
/// its number.
fn height(on: &[PortId; DEVICES as usize], from: PortId) -> u8
    ensures { result ≡ length (path on.now from) }
{
    let mut at = from;
    let mut count: u8 = 1;
    for _step in 0..64u32 {
        if at.device() == 0 {
            return count;
        }
        at = on[at.device() as usize];
        count += 1;
    }
    count
}

/// Whether there is an extender of that number at that depth.
fn is_at_depth(tree: &Tree, on: &[PortId; DEVICES as usize], number: u8, wanted: u8) -> bool
    requires places { on.now ≡ tree.now.on }
    requires some { 0 < number }
    requires range { number < 65 }
    ensures { result ≡ hangs_at_depth tree.now number wanted }
{
    tree.is_extender(number) && height(on, on[number as usize]) == wanted
}

/// The extenders from the deepest, at one depth by number.
pub(crate) fn deepest_first(
    alloc: Global,
    tree: &Tree,
    on: &[PortId; DEVICES as usize],
) -> Result<Vec<u8>, NoMemory>
    requires { on.now ≡ tree.now.on }
    ensures { IfOk result (λ order. order.items ≡ deepest_first tree.now 64) }
{
    let mut order = Vec::new(alloc);
    for below in 0..64u8 {
        for before in 0..64u8 {
            let number = before + 1;
            if is_at_depth(tree, on, number, 64 - below) {
                order.push(number)?;
            }
        }
    }
    Ok(order)
}

/// The extenders, as a set of numbers.
pub(crate) fn all_extenders(tree: &Tree) -> u64
    ensures { AreExtenders tree.now result }
{
    tree.is_tree();
    let mut extenders = 0u64;
    for number in 1..DEVICES {
        extenders = with_bit(extenders, number, tree.is_extender(number));
    }
    extenders
}

/// By extender its place in an order, and 64 where it isn't in it.
fn places_in(order: &[u8]) -> [u8; DEVICES as usize]
    requires low { All (λ n. n < 65) order.now }
    requires few { length order.now ≤ 64 }
    requires once { StandsOnce order.now }
    ensures { ArePlaces order.now result }
{
    let mut places = [64u8; DEVICES as usize];
    for place in 0..order.len() as u8 {
        let number = order[place as usize];
        places[number as usize] = place;
    }
    places
}

/// The places of the extenders from the deepest, which are given in that order.
pub(crate) fn upward_places(tree: &Tree, order: &[u8]) -> [u8; DEVICES as usize]
    requires { order.now ≡ deepest_first tree.now 64 }
    ensures { ArePlaces (deepest_first tree.now 64) result }
{
    tree.is_tree();
    places_in(order)
}

/// The places of the extenders by depth.
pub(crate) fn downward_places(tree: &Tree) -> [u8; DEVICES as usize]
    ensures { ArePlaces (by_depth tree.now) result }
{
    tree.is_tree();
    places_in(tree.order())
}
