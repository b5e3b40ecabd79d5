//! Frames that arrive.
ghost use Rattle.std.specs.Prelude.{◌≡◌, ◌++◌, ◌∷◌, [], OnOk};
ghost use Rattle.exb_world_spec.specs.ExtenderSteps.{stamp_of};
ghost use Rattle.exb_bridge.specs.BridgeWorlds.{KeepsTrace};

use exb_link::Stamp;
use exb_model::arrival::Arrival;
use exb_model::event::Event;
use exb_model::memory::NoMemory;
use exb_outbox::Log;

/// The stamp of the words of an arrival.
#[inline(always)]
pub fn stamp_of(arrival: &Arrival) -> Stamp
    ensures { result ≡ stamp_of arrival.now }
{
    Stamp {
        port: arrival.port,
        index: arrival.index,
        moment: arrival.moment,
    }
}

/// A frame is ignored.
#[cold]
#[inline(never)]
pub fn ignore(arrival: &Arrival, log: &mut Log) -> Result<(), NoMemory>
    ensures events { OnOk result (log.new.events ≡ log.old.events ++ Event.Ignored arrival.now.port
        arrival.now.index ∷ []) }
    ensures passed { log.new.passed ≡ log.old.passed }
    ensures left { log.new.left ≡ log.old.left }
    ensures trace { KeepsTrace log.old log.new }
{
    log.events.push(Event::Ignored {
        port: arrival.port,
        index: arrival.index,
    })
}
