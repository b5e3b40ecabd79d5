//! Bridges with extenders of 64 ports, the rows of a set and number spaces.

use exb_control::ActiveConfig;
use exb_model::list::List;
use exb_model::memory::NoMemory;
use exb_model::setup::{ExtenderSetup, Place, Setup};
use exb_model::tree::Tree;
use std::alloc::Global;

/// A bridge of one port with no extender and no VLAN, and numbers at their limits.
pub(crate) fn bare(alloc: Global) -> Setup {
    Setup {
        ports: 1,
        extenders: List::new(alloc),
        channels: 4094,
        groups: 12288,
        ageing: 300,
        start: List::new(alloc),
    }
}

/// Hangs an extender of 64 ports somewhere.
pub(crate) fn hang(setup: &mut Setup, number: u8, on: Place) -> Result<(), NoMemory> {
    setup.extenders.push(ExtenderSetup {
        number,
        ports: 64,
        on,
    })
}

// Hangs 64 extenders, 63 of them on the ports of the first.
fn hang_on_first(setup: &mut Setup) -> Result<(), NoMemory> {
    hang(setup, 1, Place::Bridge { port: 1 })?;
    for port in 1..64u8 {
        hang(setup, port + 1, Place::Extender { number: 1, port })?;
    }
    Ok(())
}

// Gives the bridge 64 ports, and hangs an extender on each of so many.
fn hang_on_each(setup: &mut Setup, count: u8) -> Result<(), NoMemory> {
    setup.ports = 64;
    for port in 1..count.saturating_add(1) {
        hang(setup, port, Place::Bridge { port })?;
    }
    Ok(())
}

// How many rows there are in all for so many calls.
fn all_rows(alloc: Global, tree: &Tree, times: u32) -> Result<u64, NoMemory> {
    let set = tree.extended_ports();
    let mut count = 0u64;
    for _time in 0..times {
        let rows = exb_plan::rows(alloc, tree, &set)?;
        count = count.wrapping_add(rows.as_slice().len() as u64);
    }
    Ok(count)
}

/// How many rows there are in all for so many calls, of a set of 4,033 ports.
pub(crate) fn rows(alloc: Global, setup: &mut Setup, times: u32) -> Result<u64, NoMemory> {
    hang_on_first(setup)?;
    if !setup.valid() {
        return Ok(0);
    }
    let tree = Tree::new(alloc, setup)?;
    all_rows(alloc, &tree, times)
}

/// Number spaces for so many ports of the bridge; 1 where they are made.
pub(crate) fn spaces(alloc: Global, setup: &mut Setup, count: u8) -> Result<u64, NoMemory> {
    hang_on_each(setup, count)?;
    if !setup.valid() {
        return Ok(0);
    }
    match ActiveConfig::new(alloc, setup) {
        Ok(_active) => Ok(1),
        Err(fault) => Err(fault),
    }
}
