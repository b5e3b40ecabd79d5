//! Random numbers.
ghost use Rattle.std.specs.Prelude.{◌≡◌, ◌<◌};
ghost use Rattle.exb_make.specs.Draws.{drawn};

use rand_core::utils::NextWord;
use rand_pcg::Lcg64Xsh32;

/// A number below `limit`.
#[tactic(auto, unfolding(crate::specs::Draws::drawn))]
pub(crate) fn draw(rng: &mut Lcg64Xsh32, limit: u32) -> u32
    requires { 0 < limit }
    ensures value { result ≡ (drawn limit rng.old).0 }
    ensures gone_on { rng.new ≡ (drawn limit rng.old).1 }
    ensures low { result < limit }
{
    rng.next_word() % limit
}
