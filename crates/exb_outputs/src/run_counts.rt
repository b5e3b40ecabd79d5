//! What is counted of a run: its summary, and by port where counters are asked for.
ghost use Rattle.std.specs.Prelude.{◌≡◌, fold, IfOk, IfSome, []};
ghost use Rattle.exb_model.specs.Setup.{IsValid, shape_of};
ghost use Rattle.exb_model.specs.Texts.{counted, with_left};
ghost use Rattle.exb_journal.specs.Tallies.{counts_of, FitsTally};
ghost use Rattle.exb_outputs.specs.Counts.{CanCount, CanCountAt, CountsOn, IsCounted};

use crate::Manifest;
use exb_counters::Counters;
use exb_journal::Tally;
use exb_model::event::Event;
use exb_model::memory::NoMemory;
use exb_model::setup::Setup;
use std::alloc::Global;

/// What is counted of a run.
pub struct RunCounts {
    /// For its summary.
    pub tally: Tally,
    /// By port, where counters are asked for.
    pub ports: Option<Counters>,
}

impl Drop for RunCounts {
    fn drop(self) {
        let RunCounts { tally: _, ports: _ } = self;
    }
}

/// Counts events.
fn count_all(tally: &mut Tally, events: &[Event])
    requires { FitsTally (fold (λ c e. counted e c) (counts_of tally.old) events.now) }
    ensures { counts_of tally.new ≡ fold (λ c e. counted e c) (counts_of tally.old) events.now }
{
    for event in events {
        tally.count(event);
    }
}

/// Counts what came in at the ports, where counters are asked for.
fn count_in(ports: &mut Option<Counters>, events: &[Event], passed: &[bool])
    requires { IfSome ports.old (CanCountAt events.now passed.now) }
    ensures { CountsOn ports.old ports.new events.now passed.now }
{
    if let Some(counters) = ports {
        counters.events(events, passed);
    }
}

impl RunCounts {
    /// Nothing is counted yet.
    pub fn new(alloc: Global, setup: &Setup, manifest: &Manifest) -> Result<RunCounts, NoMemory>
        requires valid { IsValid setup.now }
        requires tree { manifest.now.tree ≡ shape_of setup.now }
        ensures { IfOk result (λ made. IsCounted manifest.now made [] [] []) }
    {
        let tally = Tally::new();
        if !manifest.options().counters {
            return Ok(RunCounts { tally, ports: None });
        }
        let ports = Counters::new(alloc, setup)?;
        Ok(RunCounts {
            tally,
            ports: Some(ports),
        })
    }

    /// Counts what has happened: events, whether each relayed frame among them passed, and how many
    /// frames left.
    #[inline(always)]
    pub fn note(&mut self, events: &[Event], passed: &[bool], left: usize)
        requires { CanCount self.old events.now passed.now left }
        ensures tally { counts_of self.new.tally
            ≡ with_left left (fold (λ c e. counted e c) (counts_of self.old.tally) events.now) }
        ensures ports { CountsOn self.old.ports self.new.ports events.now passed.now }
    {
        count_all(&mut self.tally, events);
        self.tally.add_left(left as u64);
        count_in(&mut self.ports, events, passed);
    }
}
