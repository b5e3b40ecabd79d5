//! The tree.
ghost use Rattle.std.specs.Prelude.{◌≡◌, ◌≤◌, ◌<◌, ◌+◌, ◌*◌, ◌++◌, ◌∷◌, [], IfOk, OnOk};
ghost use Rattle.std.specs.List.{range_with_len};
ghost use Rattle.exb_make.specs.GeneratedTree.{extenders, hung, setup_with, site_ports};

use exb_model::command::Command;
use exb_model::list::List;
use exb_model::memory::NoMemory;
use exb_model::port::PortId;
use exb_model::setup::{ExtenderSetup, Place, Setup};
use std::alloc::Global;

/// Puts an extender with 8 ports at the end.
fn add(extenders: &mut List<ExtenderSetup>, number: u8, on: Place) -> Result<(), NoMemory>
    ensures { OnOk result (extenders.new ≡ extenders.old ++ hung number on ∷ []) }
{
    extenders.push(ExtenderSetup {
        number,
        ports: 8,
        on,
    })
}

/// The extenders: x1 with x3 and x4 below it, and x2 with x5 and x6, each on the last port of the
/// one above.
fn extenders(alloc: Global) -> Result<List<ExtenderSetup>, NoMemory>
    ensures { IfOk result (λ made. made ≡ extenders) }
{
    let mut extenders = List::new(alloc);
    add(&mut extenders, 1, Place::Bridge { port: 1 })?;
    add(&mut extenders, 2, Place::Bridge { port: 2 })?;
    add(&mut extenders, 3, Place::Extender { number: 1, port: 8 })?;
    add(&mut extenders, 4, Place::Extender { number: 3, port: 8 })?;
    add(&mut extenders, 5, Place::Extender { number: 2, port: 8 })?;
    add(&mut extenders, 6, Place::Extender { number: 5, port: 8 })?;
    Ok(extenders)
}

/// The setup with these commands at its start.
pub(crate) fn setup(alloc: Global, start: List<Command>) -> Result<Setup, NoMemory>
    ensures { IfOk result (λ made. made ≡ setup_with start) }
{
    let extenders = extenders(alloc)?;
    Ok(Setup {
        ports: 4,
        extenders,
        channels: 4094,
        groups: 12288,
        ageing: 300,
        start,
    })
}

/// Puts so many ports of a device at the end, from its first or a later place on.
fn add_ports(ports: &mut Vec<PortId>, device: u8, first: u8, count: u8) -> Result<(), NoMemory>
    requires device { device < 65 }
    requires places { first + count ≤ 64 }
    ensures { OnOk result (ports.new.items ≡ ports.old.items ++ range_with_len (64 * device + first)
        count) }
{
    for place in first..first + count {
        ports.push(PortId::at(device, place))?;
    }
    Ok(())
}

/// The external ports: two of the bridge, and those of the extenders, of which four have a port
/// with another one on it.
pub(crate) fn external_ports(alloc: Global) -> Result<Vec<PortId>, NoMemory>
    ensures { IfOk result (λ ports. ports.items ≡ site_ports) }
{
    let mut ports = Vec::new(alloc);
    add_ports(&mut ports, 0, 2, 2)?;
    add_ports(&mut ports, 1, 0, 7)?;
    add_ports(&mut ports, 2, 0, 7)?;
    add_ports(&mut ports, 3, 0, 7)?;
    add_ports(&mut ports, 4, 0, 8)?;
    add_ports(&mut ports, 5, 0, 7)?;
    add_ports(&mut ports, 6, 0, 8)?;
    Ok(ports)
}
