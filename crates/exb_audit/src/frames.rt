//! Frames by port, and how they are found.
ghost use Rattle.std.specs.Prelude.{◌≡◌, ◌<◌, ◌==◌, ℕ, length, slice_index, slice_set, if◌then◌else◌, IfOk};
ghost use Rattle.exb_audit.specs.Frames.{frames_by, IsTable};

use exb_model::bytes::Bytes;
use exb_model::memory::NoMemory;
use exb_model::port::{PORTS, PortId};
use std::alloc::Global;

/// The frames of a capture or of an output file, in order, with the port whose file it is.
#[derive(Drop)]
pub struct PortFrames {
    pub port: PortId,
    pub frames: Vec<Bytes>,
}

/// Notes a place, from 1, where none is noted yet.
fn note(table: &mut [usize], port: PortId, place: usize)
    requires { length table.old ≡ 4160 }
    ensures set { table.new ≡ (if slice_index table.old port == 0 then slice_set table.old port
        place else table.old) }
    ensures low { port < 4160 }
{
    let at = port.number() as usize;
    if table[at] == 0 {
        table[at] = place;
    }
}

/// Notes the places of all.
fn fill(all: &[PortFrames], table: &mut [usize])
    requires length { length table.old ≡ 4160 }
    requires none { (p : ℕ) → slice_index table.old p ≡ 0 }
    ensures { IsTable all.now table.new }
{
    for (i, one) in all.iter().enumerate() {
        note(table, one.port, i + 1);
    }
}

/// By port the place of its frames in the list, from 1; 0 where the port isn't named.
pub(crate) fn table_of(alloc: Global, all: &[PortFrames]) -> Result<Vec<usize>, NoMemory>
    ensures { IfOk result (λ table. IsTable all.now table.items) }
{
    let mut table = vec![in alloc; 0usize; PORTS as usize]?;
    fill(all, table.as_mut_slice());
    Ok(table)
}

/// The frames of a port: of a port that is named twice those that stand first, and none of one that
/// isn't named.
pub(crate) fn frames_at<'a>(all: &'a [PortFrames], table: &[usize], port: PortId) -> &'a [Bytes]
    requires { IsTable all.now table.now }
    ensures { result.now ≡ frames_by all.now port }
{
    let place = table[port.number() as usize];
    if place == 0 {
        return &[];
    }
    let one = &all[place - 1];
    one.frames.as_slice()
}
