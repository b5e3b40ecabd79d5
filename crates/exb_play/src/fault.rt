//! Why playing ends before its end.
ghost use Rattle.std.specs.Prelude.{◌≡◌};

use exb_shelf::ShelfFault;
use exb_timeline::CaptureFault;

/// Why playing ends before its end.
#[derive(Clone, Copy)]
pub enum PlayFault {
    /// Captures could not be read on.
    Reading(CaptureFault),
    /// What happened could not be played or written.
    Writing(ShelfFault),
}

impl From<CaptureFault> for PlayFault {
    ghost use Rattle.exb_play.specs.declared.fault.PlayFault.TheVariants.{Reading};

    ghost from_gives = { λ failure fault. fault ≡ Reading failure };

    fn from(failure: CaptureFault) -> Self {
        PlayFault::Reading(failure)
    }
}

impl From<ShelfFault> for PlayFault {
    ghost use Rattle.exb_play.specs.declared.fault.PlayFault.TheVariants.{Writing};

    ghost from_gives = { λ failure fault. fault ≡ Writing failure };

    fn from(failure: ShelfFault) -> Self {
        PlayFault::Writing(failure)
    }
}
