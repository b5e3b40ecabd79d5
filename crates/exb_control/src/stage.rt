//! How far a change is.
ghost use Rattle.std.specs.Prelude.{◌≡◌};
ghost use Rattle.exb_control.specs.ActiveConfigs.{in_force};

use exb_control_spec::{Change, Job};

/// The change at work, and whether it is in force.
#[derive(Drop)]
pub enum Stage {
    /// No change is at work.
    AtRest,
    /// The numbers of a change are claimed; the old configuration is in force.
    Prepared { job: Job, change: Change },
    /// The new configuration is in force; the old numbers aren't free yet.
    InForce { job: Job, change: Change },
}

impl Stage {
    /// The stage once a prepared change takes effect.
    pub(crate) fn in_force(self) -> Stage
        ensures { result ≡ in_force self }
    {
        match self {
            Stage::Prepared { job, change } => Stage::InForce { job, change },
            other => other,
        }
    }
}
