//! What a call of the control gives.
ghost use Rattle.std.specs.Prelude.{◌≡◌, []};

use exb_control_spec::Asked;
use exb_model::event::Event;
use exb_model::list::List;
use exb_model::port::PortId;
use std::alloc::Global;

/// What happened in a call, the messages that go out to extenders, and the ports that commands made
/// go down, of which what was learned at them is to be forgotten. Each call fills it anew.
#[derive(Drop)]
pub struct Outbox {
    pub events: List<Event>,
    pub asks: List<Asked>,
    pub downs: List<PortId>,
}

impl Outbox {
    /// An outbox with nothing in it.
    pub fn new(alloc: Global) -> Outbox
        ensures events { result.events ≡ [] }
        ensures asks { result.asks ≡ [] }
        ensures downs { result.downs ≡ [] }
    {
        Outbox {
            events: List::new(alloc),
            asks: List::new(alloc),
            downs: List::new(alloc),
        }
    }

    /// Takes out what the call before gave.
    pub(crate) fn empty(&mut self)
        ensures events { self.new.events ≡ [] }
        ensures asks { self.new.asks ≡ [] }
        ensures downs { self.new.downs ≡ [] }
    {
        self.events.clear();
        self.asks.clear();
        self.downs.clear();
    }
}
