//! Which extenders were heard.
ghost use Rattle.std.specs.Prelude.{◌≡◌, ◌<◌, ◌≤◌, false, if◌then◌else◌};
ghost use Rattle.exb_control.specs.Controls.{is_heard};
ghost use Rattle.exb_control.specs.MachineSteps.{heard_of, noted, waits_for, unheard_at, unheard_to};

use exb_control_spec::Job;
use exb_model::tree::Tree;
use std::marker::Model;

/// How many devices there can be: the bridge and 64 extenders.
const DEVICES: usize = 65;

/// Which extenders were heard, by number.
#[derive(Drop)]
pub(crate) struct Heard {
    heard: [bool; DEVICES],
}

impl Model for Heard {
    ghost use Rattle.std.specs.Prelude.{Bool, List};

    ghost Value = { List Bool };

    ghost view = { λ h. h.heard };
}

fn one_if(test: bool) -> u64
    ensures { result ≡ (if test then 1 else 0) }
{
    if test { 1 } else { 0 }
}

impl Heard {
    /// No extender was heard.
    pub(crate) fn new() -> Heard
        ensures { heard_of result ≡ λ n. false }
    {
        Heard {
            heard: [false; DEVICES],
        }
    }

    /// An extender was heard.
    pub(crate) fn note(&mut self, extender: u8)
        requires { extender < 65 }
        ensures { heard_of self.new ≡ noted extender (heard_of self.old) }
    {
        self.heard[extender as usize] = true;
    }

    /// Whether a job has to wait: an opening waits for the announcement of its extender.
    pub(crate) fn waits(&self, job: &Job) -> bool
        ensures { result ≡ waits_for self.now job.now }
    {
        match job {
            Job::Opening { extender } => !self.is_heard(*extender),
            _ => false,
        }
    }

    /// Whether an extender was heard.
    fn is_heard(&self, extender: u8) -> bool
        ensures { result ≡ is_heard self.now extender }
    {
        match self.heard.get(extender as usize) {
            Some(heard) => *heard,
            None => false,
        }
    }

    /// Whether there is an extender of that number that wasn't heard yet.
    fn is_unheard(&self, tree: &Tree, number: u8) -> bool
        ensures { result ≡ unheard_at tree.now self.now number }
    {
        tree.is_extender(number) && !self.is_heard(number)
    }

    /// How many extenders of a tree weren't heard yet.
    pub(crate) fn unheard(&self, tree: &Tree) -> u64
        ensures value { result ≡ unheard_to tree.now self.now 64 }
        ensures few { result ≤ 64 }
    {
        let mut count = 0;
        for number in 1..65u8 {
            count += one_if(self.is_unheard(tree, number));
        }
        count
    }
}
