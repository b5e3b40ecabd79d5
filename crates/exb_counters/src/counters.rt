//! What is counted at each port.
ghost use Rattle.std.specs.Prelude.{◌≡◌, ◌<◌, ℕ, true, length, IfOk};
ghost use Rattle.exb_model.specs.Setup.{IsValid, shape_of};
ghost use Rattle.exb_model.specs.Tree.{is_external};
ghost use Rattle.exb_counters.specs.CounterUpdates.{counts_at, nothing, rest_after, plus_event, plus_events, with_ignored, with_left, with_relay, FitsCounts, HasPort, SameButAt};

use exb_model::event::Event;
use exb_model::memory::NoMemory;
use exb_model::port::{PORTS, PortId};
use exb_model::setup::Setup;
use exb_model::tree::Tree;
use std::alloc::Global;

/// What is counted at one port.
#[derive(Clone, Copy)]
pub struct Counts5 {
    /// Frames that came in and were relayed.
    pub relayed: u64,
    /// Those of them that a rule let pass nowhere.
    pub dropped: u64,
    /// Frames that came in and were ignored.
    pub ignored: u64,
    /// Frames that left.
    pub left: u64,
    /// The bytes of the frames that left.
    pub octets: u64,
}

/// Counts by port.
pub struct Counters {
    /// By the number of the port, up to the last external one.
    counts: Vec<Counts5>,
}

impl Drop for Counters {
    fn drop(self) {
        let Counters { counts: _ } = self;
    }
}

fn with_relay(counts: Counts5, passed: bool) -> Counts5
    requires { FitsCounts (with_relay passed counts) }
    ensures { result ≡ with_relay passed counts }
{
    Counts5 {
        relayed: counts.relayed + 1,
        dropped: if passed {
            counts.dropped
        } else {
            counts.dropped + 1
        },
        ignored: counts.ignored,
        left: counts.left,
        octets: counts.octets,
    }
}

fn with_ignored(counts: Counts5) -> Counts5
    requires { FitsCounts (with_ignored counts) }
    ensures { result ≡ with_ignored counts }
{
    Counts5 {
        relayed: counts.relayed,
        dropped: counts.dropped,
        ignored: counts.ignored + 1,
        left: counts.left,
        octets: counts.octets,
    }
}

fn with_left(counts: Counts5, octets: u32) -> Counts5
    requires { FitsCounts (with_left octets counts) }
    ensures { result ≡ with_left octets counts }
{
    Counts5 {
        relayed: counts.relayed,
        dropped: counts.dropped,
        ignored: counts.ignored,
        left: counts.left + 1,
        octets: counts.octets + u64::from(octets),
    }
}

/// How many ports there are up to the last external one.
fn behind_last(tree: &Tree) -> u16
    ensures { (q : ℕ) → q < 4160 → is_external tree.now q ≡ true → q < result }
{
    let mut behind = 0;
    for number in 0..PORTS {
        let port = PortId::new(number).unwrap();
        if tree.is_external(port) {
            behind = number + 1;
        }
    }
    behind
}

/// Counts for so many ports.
fn no_counts(alloc: Global, ports: usize) -> Result<Counters, NoMemory>
    ensures ports { IfOk result (λ made. (q : ℕ) → q < ports → HasPort made q) }
    ensures counts { IfOk result (λ made. (q : ℕ) → counts_at made q ≡ nothing) }
{
    let none = Counts5 {
        relayed: 0,
        dropped: 0,
        ignored: 0,
        left: 0,
        octets: 0,
    };
    Ok(Counters {
        counts: Vec::from_elem(alloc, none, ports)?,
    })
}

impl Counters {
    /// Nothing is counted yet. There are counts for each external port of a setup.
    pub fn new(alloc: Global, setup: &Setup) -> Result<Counters, NoMemory>
        requires { IsValid setup.now }
        ensures ports { IfOk result (λ made. (q : ℕ) → q < 4160 → is_external (shape_of setup.now) q
            ≡ true → HasPort made q) }
        ensures counts { IfOk result (λ made. (q : ℕ) → counts_at made q ≡ nothing) }
    {
        let tree = Tree::new(alloc, setup)?;
        let ports = behind_last(&tree);
        drop(tree);
        no_counts(alloc, ports as usize)
    }

    /// The counts of a port.
    pub fn line(&self, port: PortId) -> Counts5
        requires { HasPort self.now port }
        ensures { result ≡ counts_at self.now port }
    {
        self.counts[port.number() as usize]
    }

    /// Sets the counts of a port.
    fn put(&mut self, port: PortId, counts: Counts5)
        requires { HasPort self.old port }
        ensures { SameButAt port counts self.old self.new }
    {
        self.counts[port.number() as usize] = counts;
    }

    /// A frame came in at a port and was relayed; it passed, or a rule let it pass nowhere.
    pub fn relayed(&mut self, port: PortId, passed: bool)
        requires port { HasPort self.old port }
        requires fits { FitsCounts (with_relay passed (counts_at self.old port)) }
        ensures { SameButAt port (with_relay passed (counts_at self.old port)) self.old self.new }
    {
        let counts = with_relay(self.line(port), passed);
        self.put(port, counts);
    }

    /// A frame came in at a port and was ignored.
    pub fn ignored(&mut self, port: PortId)
        requires port { HasPort self.old port }
        requires fits { FitsCounts (with_ignored (counts_at self.old port)) }
        ensures { SameButAt port (with_ignored (counts_at self.old port)) self.old self.new }
    {
        let counts = with_ignored(self.line(port));
        self.put(port, counts);
    }

    /// A frame of so many bytes left a port.
    pub fn left(&mut self, port: PortId, octets: u32)
        requires port { HasPort self.old port }
        requires fits { FitsCounts (with_left octets (counts_at self.old port)) }
        ensures { SameButAt port (with_left octets (counts_at self.old port)) self.old self.new }
    {
        let counts = with_left(self.line(port), octets);
        self.put(port, counts);
    }

    /// Counts a frame that came in at a port and was relayed, where there are counts of it.
    fn relayed_there(&mut self, port: PortId, passed: bool)
        requires { HasPort self.old port
            → FitsCounts (with_relay passed (counts_at self.old port)) }
        ensures { SameButAt port (with_relay passed (counts_at self.old port)) self.old self.new }
    {
        if (port.number() as usize) < self.counts.len() {
            self.relayed(port, passed);
        }
    }

    /// Counts a frame that came in at a port and was ignored, where there are counts of it.
    fn ignored_there(&mut self, port: PortId)
        requires { HasPort self.old port → FitsCounts (with_ignored (counts_at self.old port)) }
        ensures { SameButAt port (with_ignored (counts_at self.old port)) self.old self.new }
    {
        if (port.number() as usize) < self.counts.len() {
            self.ignored(port);
        }
    }

    /// Counts an event; where it is a Relay, by the first of what was said of Relays. What was said
    /// of others is answered.
    fn event<'a>(&mut self, event: &Event, said: &'a [bool]) -> &'a [bool]
        requires { (q : ℕ) → HasPort self.old q
            → FitsCounts (plus_event event.now said.now q (counts_at self.old q)) }
        ensures ports { length self.new.counts.items ≡ length self.old.counts.items }
        ensures counts { (q : ℕ) → HasPort self.old q → counts_at self.new q
            ≡ plus_event event.now said.now q (counts_at self.old q) }
        ensures rest { result.now ≡ rest_after event.now said.now }
    {
        match event {
            Event::Relay { port, .. } => match said.split_first() {
                Some((passed, rest)) => {
                    self.relayed_there(*port, *passed);
                    rest
                }
                None => {
                    self.relayed_there(*port, true);
                    said
                }
            },
            Event::Ignored { port, .. } => {
                self.ignored_there(*port);
                said
            }
            _ => said,
        }
    }

    /// Counts events, with what was said of the Relays among them: whether each passed, in order.
    /// An event of a port of which there are no counts is passed by.
    pub fn events(&mut self, events: &[Event], said: &[bool])
        requires { (q : ℕ) → HasPort self.old q
            → FitsCounts (plus_events events.now said.now q (counts_at self.old q)) }
        ensures ports { length self.new.counts.items ≡ length self.old.counts.items }
        ensures counts { (q : ℕ) → HasPort self.old q → counts_at self.new q
            ≡ plus_events events.now said.now q (counts_at self.old q) }
    {
        let mut rest = said;
        for event in events {
            rest = self.event(event, rest);
        }
    }
}
