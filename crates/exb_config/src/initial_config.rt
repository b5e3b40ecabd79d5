//! The configuration to start with.
ghost use Rattle.std.specs.Prelude.{◌≡◌, fold, IfOk, OnOk};
ghost use Rattle.exb_model.specs.Configuration.{after};
ghost use Rattle.exb_model.specs.Setup.{shape_of, start_of};
ghost use Rattle.exb_config.specs.Pvids.{HasPvids};
ghost use Rattle.exb_config.specs.Tables.{bridge_of};

use crate::config::Config;
use exb_model::command::Command;
use exb_model::memory::NoMemory;
use exb_model::setup::Setup;
use exb_model::tree::Tree;
use std::alloc::Global;

/// Does commands in order.
fn apply_all(config: &mut Config, commands: &[Command]) -> Result<(), NoMemory>
    requires { HasPvids (bridge_of config.old) }
    ensures config { OnOk result (bridge_of config.new
        ≡ fold (λ k c. after c k) (bridge_of config.old) commands.now) }
    ensures pvids { OnOk result (HasPvids (bridge_of config.new)) }
{
    for command in commands {
        config.apply(command)?;
    }
    Ok(())
}

impl Config {
    /// The configuration with which the bridge of a setup begins, where this is the setup's tree:
    /// the bridge's own external ports are present, and the commands of the start are done.
    #[tactic(auto, unfolding(exb_model::specs::Setup::start_of))]
    pub fn first(alloc: Global, tree: &Tree, setup: &Setup) -> Result<Config, NoMemory>
        requires { tree.now ≡ shape_of setup.now }
        ensures config { IfOk result (λ made. bridge_of made ≡ start_of setup.now) }
        ensures pvids { IfOk result (λ made. HasPvids (bridge_of made)) }
    {
        let mut config = Config::new(alloc, &tree.local_ports())?;
        apply_all(&mut config, setup.start.as_slice())?;
        Ok(config)
    }
}
