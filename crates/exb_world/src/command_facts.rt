//! What the type of commands brings, as a fact for whoever calls these functions. They do nothing.
ghost use Rattle.std.specs.Prelude.{All};
ghost use Rattle.exb_world_spec.specs.Runs.ReachedWorlds.{HasVid};

use exb_model::command::Command;

/// The VLAN that a command names is a VLAN.
pub(crate) fn names_vlan(command: &Command)
    ensures { HasVid command.now }
{
    if let Command::Pvid { vid, port: _ } = command {
        let _ = vid.number();
    }
}

/// So it is of all commands.
pub(crate) fn name_vlans(commands: &[Command])
    ensures { All HasVid commands.now }
{
    for command in commands {
        names_vlan(command);
    }
}
