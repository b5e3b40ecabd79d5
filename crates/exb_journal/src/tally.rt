//! The summary of a run.
ghost use Rattle.std.specs.Prelude.{◌≡◌, ◌<◌, ◌+◌, ◌^◌, IfOk, string_bytes};
ghost use Rattle.exb_model.specs.Texts.{counted, with_left, summary_line};
ghost use Rattle.exb_journal.specs.Tallies.{counts_of, nothing_counted, FitsTally};

use exb_model::event::Event;
use exb_model::memory::NoMemory;
use std::alloc::Global;

/// What the summary of a run counts.
#[derive(Clone, Copy, Default)]
pub struct Tally {
    /// Arrivals that were relayed.
    pub relayed: u64,
    /// Arrivals that were ignored.
    pub ignored: u64,
    /// Frames that left the external ports.
    pub left: u64,
    /// Commands that took effect.
    pub commits: u64,
    /// Commands that were refused.
    pub refusals: u64,
}

impl Tally {
    /// Nothing counted yet.
    pub fn new() -> Tally
        ensures { counts_of result ≡ nothing_counted }
    {
        Tally::default()
    }

    /// Counts an event, but not the frames that left by it.
    pub fn count(&mut self, event: &Event)
        requires { FitsTally (counted event.now (counts_of self.old)) }
        ensures { counts_of self.new ≡ counted event.now (counts_of self.old) }
    {
        match event {
            Event::Relay { .. } => self.relayed += 1,
            Event::Settled => {}
            _ => self.count_rare(event),
        }
    }

    /// Counts an event of which not each frame has one.
    #[cold]
    #[inline(never)]
    fn count_rare(&mut self, event: &Event)
        requires { FitsTally (counted event.now (counts_of self.old)) }
        ensures { counts_of self.new ≡ counted event.now (counts_of self.old) }
    {
        match event {
            Event::Relay { .. } => self.relayed += 1,
            Event::Ignored { .. } => self.ignored += 1,
            Event::Commit { .. } => self.commits += 1,
            Event::Refuse { .. } => self.refusals += 1,
            _ => {}
        }
    }

    /// Counts frames that left.
    pub fn add_left(&mut self, frames: u64)
        requires { self.old.left + frames < 2 ^ 64 }
        ensures { counts_of self.new ≡ with_left frames (counts_of self.old) }
    {
        self.left += frames;
    }

    /// The line that a run prints at its end, with its newline.
    #[tactic(auto, unfolding(exb_model::specs::Texts::summary_line))]
    pub fn line(&self, alloc: Global) -> Result<String, NoMemory>
        requires { self.now.relayed + self.now.ignored < 2 ^ 64 }
        ensures { IfOk result (λ line. string_bytes line ≡ summary_line (counts_of self.now)) }
    {
        let Tally {
            relayed,
            ignored,
            left,
            commits,
            refusals,
        } = *self;
        let arrivals = relayed + ignored;
        Ok(format!(in alloc;
            "arrivals {arrivals} relayed {relayed} ignored {ignored} left {left} commits {commits} refusals {refusals}\n"
        )?)
    }
}
