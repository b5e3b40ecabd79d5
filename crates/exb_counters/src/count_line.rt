//! The line of a port.
ghost use Rattle.std.specs.Prelude.{◌≡◌, ◌++◌, OnOk, OnErr};
ghost use Rattle.exb_counters.specs.Counters.{count_line};

use crate::Counts5;
use exb_journal::PortName;
use exb_model::memory::NoMemory;
use exb_model::port::PortId;

/// Puts the line of a port's counts, with its newline, behind a text.
#[tactic(auto, unfolding(crate::specs::Counters::count_line))]
pub fn write_count_line(text: &mut Vec<u8>, port: PortId, counts: &Counts5) -> Result<(), NoMemory>
    ensures { OnOk result (text.new.items ≡ text.old.items ++ count_line port counts.now) }
{
    let Counts5 {
        relayed,
        dropped,
        ignored,
        left,
        octets,
    } = *counts;
    let line = format!(in *text.allocator();
        "{} relayed {relayed} dropped {dropped} ignored {ignored} left {left} octets {octets}\n",
        PortName(port)
    )?;
    text.extend_from_slice(line.as_bytes())?;
    Ok(())
}
