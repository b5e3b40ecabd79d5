//! The steps that are asked for when they were drawn.
ghost use Rattle.std.specs.Prelude.{◌≡◌};
ghost use Rattle.exb_world_spec.specs.Worlds.{Carry, Control, Lose};
ghost use Rattle.exb_world.specs.WorldContracts.{step_of};
ghost use Rattle.exb_world.specs.Steps.{way_of};

use exb_world::{Step, Way};

/// The first data word of a direction is taken.
pub(crate) fn carry(link: u8, way: Way) -> Step<'static>
    ensures { step_of result ≡ Carry link (way_of way) }
{
    Step::Carry { link, way }
}

/// The control word at a place is delivered, and may be kept.
pub(crate) fn deliver(link: u8, way: Way, at: u64, keep: bool) -> Step<'static>
    ensures { step_of result ≡ Control link (way_of way) at keep }
{
    Step::Control {
        link,
        way,
        at,
        keep,
    }
}

/// The control word at a place is lost.
pub(crate) fn lose(link: u8, way: Way, at: u64) -> Step<'static>
    ensures { step_of result ≡ Lose link (way_of way) at }
{
    Step::Lose { link, way, at }
}
