//! The configuration with all ports present.
ghost use Rattle.std.specs.Prelude.{◌≡◌, fold, IfOk, OnOk};
ghost use Rattle.exb_model.specs.Configuration.{after};
ghost use Rattle.exb_model.specs.Setup.{shape_of, IsValid};
ghost use Rattle.exb_config.specs.Tables.{bridge_of};
ghost use Rattle.exb_capacity.specs.NeededNumbers.{opened};

use exb_config::Config;
use exb_model::command::Command;
use exb_model::memory::NoMemory;
use exb_model::setup::Setup;
use exb_model::tree::Tree;
use std::alloc::Global;

/// Does commands in order.
fn apply_all(config: &mut Config, commands: &[Command]) -> Result<(), NoMemory>
    ensures { OnOk result (bridge_of config.new ≡ fold (λ k c. after c k) (bridge_of config.old)
        commands.now) }
{
    for command in commands {
        config.apply(command)?;
    }
    Ok(())
}

/// The configuration to start with, but with all external ports present.
pub(crate) fn opened(alloc: Global, tree: &Tree, setup: &Setup) -> Result<Config, NoMemory>
    requires tree { tree.now ≡ shape_of setup.now }
    requires valid { IsValid setup.now }
    ensures { IfOk result (λ made. bridge_of made ≡ opened setup.now) }
{
    let mut config = Config::new(alloc, &tree.external_ports())?;
    match apply_all(&mut config, setup.start.as_slice()) {
        Ok(()) => Ok(config),
        Err(memory) => {
            drop(config);
            Err(memory)
        }
    }
}
