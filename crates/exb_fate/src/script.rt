//! A fate that is planned.
ghost use Rattle.std.specs.Prelude.{◌≡◌, ◌≢◌, ◌+◌, ◌<◌, ◌≤◌, ◌^◌, ◌++◌, [], length, OnOk, OnErr};
ghost use Rattle.exb_fate.specs.Fates.{first_of, rest_of};

use crate::fate::Fate;
use exb_model::memory::NoMemory;
use exb_model::setup::Verdict;
use std::alloc::Global;
use std::marker::Model;

/// Gives the verdicts with which it was armed, in order, and then Pass. Its value is the list of
/// those not yet given.
#[derive(Drop)]
pub struct ScriptFate {
    armed: Vec<Verdict>,
    given: usize,
}

impl Model for ScriptFate {
    ghost use Rattle.std.specs.Prelude.{List, drop, vec_len, ◌≤◌};
    ghost use Rattle.exb_model.specs.declared.setup.Verdict.{Verdict};

    ghost Value = { List Verdict };

    ghost view = { λ s. drop s.given s.armed.items };

    ghost invariant = { λ s. s.given ≤ vec_len s.armed };
}

impl ScriptFate {
    /// Nothing is planned.
    pub fn new(alloc: Global) -> ScriptFate
        ensures { result ≡ [] }
    {
        ScriptFate {
            armed: Vec::new(alloc),
            given: 0,
        }
    }
}

impl Fate for ScriptFate {
    ghost left = { λ s. length s };

    fn arm(&mut self, plan: &[Verdict]) -> Result<(), NoMemory>
        requires { length self.old + length plan.now < 2 ^ 58 }
        ensures armed { OnOk result (self.new ≡ self.old ++ plan.now) }
        ensures same { OnErr result (self.new ≡ self.old) }
        ensures ok { OnOk result (length self.new ≤ length self.old + length plan.now) }
        ensures err { OnErr result (length self.new ≡ length self.old) }
    {
        match self.armed.extend_from_slice(plan) {
            Ok(()) => Ok(()),
            Err(_) => Err(NoMemory),
        }
    }

    fn next(&mut self) -> Verdict
        ensures gives { result ≡ first_of self.old }
        ensures rest { self.new ≡ rest_of self.old }
        ensures falls { length self.new ≤ length self.old }
        ensures pays { result ≢ Verdict.Pass → length self.new < length self.old }
    {
        if self.given < self.armed.len() {
            let verdict = self.armed[self.given];
            self.given += 1;
            verdict
        } else {
            Verdict::Pass
        }
    }

    fn left(&self) -> u64 {
        (self.armed.len() - self.given) as u64
    }
}
