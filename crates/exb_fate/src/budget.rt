//! A fate that is drawn.
ghost use Rattle.std.specs.Prelude.{◌≡◌, ◌≢◌, ◌+◌, ◌<◌, ◌≤◌, ◌^◌, length, IsOk, OnOk, OnErr};
ghost use Rattle.exb_fate.specs.Fates.{drawn, after_draw, verdict_of};

use crate::fate::Fate;
use exb_model::memory::NoMemory;
use exb_model::setup::Verdict;
use rand_core::utils::NextWord;
use rand_pcg::Lcg64Xsh32;
use std::marker::Model;

/// Draws what becomes of each control frame, as long as its budget of verdicts other than Pass
/// lasts.
#[derive(Drop)]
pub struct BudgetFate {
    rng: Lcg64Xsh32,
    budget: u64,
}

impl Model for BudgetFate {
    ghost use Rattle.std.specs.Prelude.{◌<◌, ◌^◌};
    ghost use Rattle.exb_fate.specs.Fates.{Budget};

    ghost Value = { Budget };

    ghost view = { λ f. record { generator = f.rng; left = f.budget } };
}

/// The verdict that a number means.
fn verdict_of(number: u32) -> Verdict
    ensures { result ≡ verdict_of number }
{
    match number % 4 {
        0 => Verdict::Pass,
        1 => Verdict::Lose,
        2 => Verdict::Twice,
        _ => Verdict::Later,
    }
}

impl BudgetFate {
    /// With this generator, and at most so many verdicts other than Pass.
    pub fn new(rng: Lcg64Xsh32, budget: u64) -> BudgetFate
        requires { budget < 2 ^ 56 }
        ensures { result ≡ record { generator = rng; left = budget } }
    {
        BudgetFate { rng, budget }
    }
}

impl Fate for BudgetFate {
    ghost left = { λ f. f.left };

    fn arm(&mut self, plan: &[Verdict]) -> Result<(), NoMemory>
        requires { self.old.left + length plan.now < 2 ^ 58 }
        ensures armed { IsOk result }
        ensures ok { OnOk result (self.new.left ≤ self.old.left + length plan.now) }
        ensures err { OnErr result (self.new.left ≡ self.old.left) }
        ensures raised { self.new ≡ record self.old { left = self.old.left + length plan.now } }
    {
        self.budget += plan.len() as u64;
        Ok(())
    }

    fn next(&mut self) -> Verdict
        ensures gives { result ≡ drawn self.old }
        ensures after { self.new ≡ after_draw self.old }
        ensures falls { self.new.left ≤ self.old.left }
        ensures pays { result ≢ Verdict.Pass → self.new.left < self.old.left }
    {
        if self.budget == 0 {
            return Verdict::Pass;
        }
        let verdict = verdict_of(self.rng.next_word());
        if verdict != Verdict::Pass {
            self.budget -= 1;
        }
        verdict
    }

    fn left(&self) -> u64 {
        self.budget
    }
}
