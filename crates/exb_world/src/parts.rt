//! The parts of a network.
ghost use Rattle.std.specs.Prelude.{◌≡◌, IfOk};
ghost use Rattle.exb_model.specs.Setup.{IsValid, shape_of, start_of, limits_of};
ghost use Rattle.exb_world_spec.specs.Worlds.{first_world};
ghost use Rattle.exb_bridge.specs.TreeIndexes.{Site, limits_in};
ghost use Rattle.exb_world.specs.MachineWorlds.{world_in, IsAt};

use crate::indices::Indices;
use exb_bridge::Bridge;
use exb_extender::Extenders;
use exb_link::Links;
use exb_model::memory::NoMemory;
use exb_model::setup::Setup;
use std::alloc::Global;

/// The bridge, the extenders, what is on the links, and what was counted.
#[derive(Drop)]
pub(crate) struct WorldParts {
    pub(crate) bridge: Bridge,
    pub(crate) far: Extenders,
    pub(crate) up: Links,
    pub(crate) next: Indices,
    pub(crate) beats: u64,
}

impl WorldParts {
    /// As it begins.
    pub(crate) fn new(alloc: Global, setup: &Setup) -> Result<WorldParts, NoMemory>
        requires { IsValid setup.now }
        ensures world { IfOk result (λ made. world_in made ≡ first_world (shape_of setup.now)
            (limits_of setup.now) (start_of setup.now) setup.now.ageing) }
        ensures at { IfOk result (λ made. (s : Site) → s.tree ≡ shape_of setup.now
            → limits_in s ≡ limits_of setup.now → IsAt s made) }
    {
        let up = Links::new(alloc)?;
        let next = Indices::new(alloc)?;
        let far = Extenders::new(alloc, setup)?;
        let bridge = Bridge::new(alloc, setup)?;
        Ok(WorldParts {
            bridge,
            far,
            up,
            next,
            beats: 0,
        })
    }
}
