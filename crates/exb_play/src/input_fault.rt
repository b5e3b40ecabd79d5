//! Why playing ended, as a fault of the whole.
ghost use Rattle.std.specs.Prelude.{◌≡◌};
ghost use Rattle.exb_play.specs.Faults.{fault_of_play};

use crate::fault::PlayFault;
use exb_inputs::Fault;

impl From<PlayFault> for Fault {
    ghost from_gives = { λ failure fault. fault ≡ fault_of_play failure };

    fn from(failure: PlayFault) -> Self {
        match failure {
            PlayFault::Reading(failure) => Fault::from(failure),
            PlayFault::Writing(failure) => Fault::from(failure),
        }
    }
}
