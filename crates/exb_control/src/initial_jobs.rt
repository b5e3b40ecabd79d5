//! The jobs to begin with.
ghost use Rattle.std.specs.Prelude.{◌≡◌, ◌<◌, ◌++◌, [], OnOk, map};
ghost use Rattle.exb_model.specs.Tree.{externals_of, is_external};
ghost use Rattle.exb_control_spec.specs.InitialState.{first_jobs};
ghost use Rattle.exb_control.specs.MachineSteps.{up_if};

use crate::queue::Queue;
use exb_control_spec::Job;
use exb_model::memory::NoMemory;
use exb_model::port::PortId;
use exb_model::tree::Tree;

/// Puts the automatic ups of an extender at the end of the queue, in port order.
fn put_ups(tree: &Tree, extender: u8, queue: &mut Queue<Job>) -> Result<(), NoMemory>
    requires { extender < 65 }
    ensures { OnOk result (queue.new ≡ queue.old ++ map (λ p. Job.AutomaticUp p)
        (externals_of tree.now extender)) }
{
    for place in 0..64u8 {
        put_up(tree, PortId::at(extender, place), queue)?;
    }
    Ok(())
}

/// Puts the automatic up of a port at the end of the queue, if it is an external port.
fn put_up(tree: &Tree, port: PortId, queue: &mut Queue<Job>) -> Result<(), NoMemory>
    ensures { OnOk result (queue.new ≡ queue.old ++ up_if (is_external tree.now port) port) }
{
    if tree.is_external(port) {
        queue.push(&Job::AutomaticUp { port })
    } else {
        Ok(())
    }
}

/// The jobs to begin with: for each extender, by depth and number, its opening and then the
/// automatic ups of its external ports.
pub(crate) fn first_jobs(tree: &Tree, queue: &mut Queue<Job>) -> Result<(), NoMemory>
    requires { queue.old ≡ [] }
    ensures { OnOk result (queue.new ≡ first_jobs tree.now) }
{
    let order = tree.order();
    for extender in order {
        queue.push(&Job::Opening {
            extender: *extender,
        })?;
        put_ups(tree, *extender, queue)?;
    }
    Ok(())
}
