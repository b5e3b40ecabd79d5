//! Fates, and the one that disturbs nothing.
ghost use Rattle.std.specs.Prelude.{◌≡◌, ◌≢◌, ℕ, ◌+◌, ◌<◌, ◌≤◌, ◌^◌, length, OnOk, OnErr};

use exb_model::memory::NoMemory;
use exb_model::setup::Verdict;

/// What becomes of control frames: it is asked at each one that comes to its turn. Its meaning is a
/// number: how many verdicts other than Pass it may still give.
pub trait Fate: Drop {
    ghost left: { Self → ℕ };

    /// Plans verdicts for the control frames that come next. Where memory runs out it may give as
    /// many as before.
    fn arm(&mut self, plan: &[Verdict]) -> Result<(), NoMemory>
        requires { left self.old + length plan.now < 2 ^ 58 }
        ensures ok { OnOk result (left self.new ≤ left self.old + length plan.now) }
        ensures err { OnErr result (left self.new ≡ left self.old) };

    /// What becomes of the next control frame.
    fn next(&mut self) -> Verdict
        ensures falls { left self.new ≤ left self.old }
        ensures pays { result ≢ Verdict.Pass → left self.new < left self.old };

    /// How many verdicts other than Pass it may still give.
    fn left(&self) -> u64
        ensures { result ≡ left self.now };
}

/// Each control frame is delivered.
#[derive(Drop)]
pub struct QuietFate {}

impl QuietFate {
    pub fn new() -> QuietFate {
        QuietFate {}
    }
}

impl Fate for QuietFate {
    ghost left = { λ _. 0 };

    fn arm(&mut self, _plan: &[Verdict]) -> Result<(), NoMemory> {
        Ok(())
    }

    fn next(&mut self) -> Verdict
        ensures pass { result ≡ Verdict.Pass }
        // Its number is always 0.
        ensures falls { 0 ≤ 0 }
        ensures pays { result ≢ Verdict.Pass → 0 < 0 }
    {
        Verdict::Pass
    }

    fn left(&self) -> u64 {
        0
    }
}
