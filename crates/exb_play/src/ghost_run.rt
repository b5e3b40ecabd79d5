//! Which run is played, for proofs alone.
ghost use Rattle.exb_play.specs.BridgeRuns.{Run, no_run};

use std::marker::Brand;

/// A run of which contracts speak: its input and the files before it. No code reads it.
pub trait OfRun {
    /// The run.
    ghost run: { Run };
}

/// Whoever plays picks the run at the call.
impl OfRun for Brand {
    ghost run = { no_run };
}
