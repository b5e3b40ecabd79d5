//! The extended port that goes up or down with a command.
ghost use Rattle.std.specs.Prelude.{◌≡◌};
ghost use Rattle.exb_model.specs.declared.command.Command.TheVariants as command;
ghost use Rattle.exb_model.specs.Configuration.{after};
ghost use Rattle.exb_config.specs.Tables.{bridge_of};
ghost use Rattle.exb_control_spec.specs.Plans.Differences.{goes_up, goes_down};

use exb_config::Config;
use exb_model::command::Command;
use exb_model::port::PortId;
use exb_model::tree::Tree;

// A port that is made present goes up if it is extended and absent before.
fn risen(tree: &Tree, config: &Config, port: PortId) -> Option<PortId>
    ensures { result ≡ goes_up tree.now (bridge_of config.now)
        (after (command.Up port) (bridge_of config.now)) }
{
    tree.is_tree();
    let is_present = config.present(port);
    let is_extended = tree.is_extended(port);
    if is_extended && !is_present {
        Some(port)
    } else {
        None
    }
}

// A port that is made absent goes down if it is extended and present before.
fn fallen(tree: &Tree, config: &Config, port: PortId) -> Option<PortId>
    ensures { result ≡ goes_down tree.now (bridge_of config.now)
        (after (command.Down port) (bridge_of config.now)) }
{
    tree.is_tree();
    let is_present = config.present(port);
    let is_extended = tree.is_extended(port);
    if is_extended && is_present {
        Some(port)
    } else {
        None
    }
}

/// The extended port that goes up with a command, if one does.
pub(crate) fn goes_up(tree: &Tree, config: &Config, command: &Command) -> Option<PortId>
    ensures { result ≡ goes_up tree.now (bridge_of config.now)
        (after command.now (bridge_of config.now)) }
{
    match *command {
        Command::Up { port } => risen(tree, config, port),
        _ => None,
    }
}

/// The extended port that goes down with a command, if one does.
pub(crate) fn goes_down(tree: &Tree, config: &Config, command: &Command) -> Option<PortId>
    ensures { result ≡ goes_down tree.now (bridge_of config.now)
        (after command.now (bridge_of config.now)) }
{
    match *command {
        Command::Down { port } => fallen(tree, config, port),
        _ => None,
    }
}
