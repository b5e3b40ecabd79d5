//! The tables of a tree beside its layout, by device (0 is the bridge, n is extender n) or by port.
ghost use Rattle.std.specs.Prelude.{◌≡◌, ℕ, ◌<◌, ◌≤◌, length, slice_index, IfOk};
ghost use Rattle.exb_model.specs.Ports.{port_in};
ghost use Rattle.exb_model.specs.Tree.{IsTree, path, by_depth, is_port, hangs_at_depth};
ghost use Rattle.exb_model.specs.TreeTables.{IsHung, IsTopped};

use crate::layout::Layout;
use crate::memory::NoMemory;
use crate::port::{PORTS, PortId};
use crate::port_set::PortSet;
use std::alloc::Global;

/// How many ports there are from a port up to the bridge.
fn height(layout: &Layout, from: u16) -> u8
    requires { from < 4160 }
    ensures { result ≡ length (path layout.now.on from) }
{
    let mut at = from;
    let mut count: u8 = 1;
    for _step in 0..64u32 {
        if at < 64 {
            return count;
        }
        at = layout.on(at / 64);
        count += 1;
    }
    count
}

/// Whether there is an extender of that number at that depth.
fn is_at_depth(layout: &Layout, number: u16, wanted: u8) -> bool
    requires some { 0 < number }
    requires range { number < 65 }
    ensures { result ≡ hangs_at_depth layout.now number wanted }
{
    layout.is_extender(number) && height(layout, layout.on(number)) == wanted
}

/// The extenders by depth and then number.
pub(crate) fn order_of(alloc: Global, layout: &Layout) -> Result<Vec<u8>, NoMemory>
    ensures { IfOk result (λ order. order.items ≡ by_depth layout.now) }
{
    let mut order = Vec::new(alloc);
    for above in 0..64u8 {
        for before in 0..64u8 {
            let number = before + 1;
            if is_at_depth(layout, number as u16, above + 1) {
                order.push(number)?;
            }
        }
    }
    Ok(order)
}

/// The bridge port above each extender.
pub(crate) fn tops_of(layout: &Layout) -> [u16; 65]
    ensures { IsTopped layout.now result }
{
    let mut tops = [0; 65];
    for number in 0..65u16 {
        tops[number as usize] = layout.top(layout.on(number));
    }
    tops
}

/// The ports of the tree.
pub(crate) fn known_ports(layout: &Layout) -> PortSet
    requires { length layout.now.ports ≡ 65 }
    ensures { (q : ℕ) → port_in result q ≡ is_port layout.now q }
{
    let mut known = PortSet::empty();
    for number in 0..PORTS {
        if layout.is_port(number) {
            known.insert(PortId::new(number).unwrap());
        }
    }
    known
}

/// So many zeros.
fn zeros(alloc: Global, count: usize) -> Result<Vec<u8>, NoMemory>
    ensures sized { IfOk result (λ made. length made.items ≡ count) }
    ensures zeros { IfOk result (λ made. (p : ℕ) → slice_index made.items p ≡ 0) }
{
    Ok(Vec::from_elem(alloc, 0, count)?)
}

/// Notes each extender at the port on which it hangs.
fn hang(layout: &Layout, below: &mut [u8])
    requires tree { IsTree layout.now }
    requires room { length below.old ≡ 4160 }
    requires none { (p : ℕ) → slice_index below.old p ≡ 0 }
    ensures { IsHung layout.now below.new }
{
    for number in 1..65u8 {
        if layout.is_extender(number as u16) {
            below[layout.on(number as u16) as usize] = number;
        }
    }
}

/// The extender that hangs on each of that many ports, 0 for none.
pub(crate) fn hanging(alloc: Global, layout: &Layout, ports: usize) -> Result<Vec<u8>, NoMemory>
    requires tree { IsTree layout.now }
    requires all { ports ≡ 4160 }
    ensures { IfOk result (λ below. IsHung layout.now below.items) }
{
    let mut below = zeros(alloc, ports)?;
    hang(layout, below.as_mut_slice());
    Ok(below)
}
