//! Playing the captures of all bridges of a net.
ghost use Rattle.std.specs.Prelude.{◌<◌, ◌≤◌, ◌^◌, Some, All, length};
ghost use Rattle.exb_cli.specs.CommandLines.{Net};
ghost use Rattle.exb_inputs.specs.Answers.{status_of};
ghost use Rattle.exb_inputs.specs.ShelfEffects.{CountsFaults};
ghost use Rattle.exb_run.specs.OpenedFiles.{OpensBy, OpensInOrder};
ghost use Rattle.exb_run.specs.Outcomes.{CameOut};

use crate::finish::finished;
use exb_fate::Fate;
use exb_inputs::Fault;
use exb_net::play_net;
use exb_shelf::Shelf;
use std::alloc::Global;

/// Reads the net in the file of this name, plays it, and answers the summary line of all its
/// bridges.
pub(crate) fn run_net<S: Shelf>(
    alloc: Global,
    shelf: &mut S,
    name: &str,
    counters: bool,
    fate: Box<dyn Fate>,
    more: Vec<Box<dyn Fate>>,
) -> Result<String, Fault>
    requires fate { left fate < 2 ^ 56 }
    requires many { 15 ≤ length more.items }
    requires each { All (λ f. left f < 2 ^ 56) more.items }
    ensures came { CameOut S.tells (Some (Net name.now counters)) result (S.file shelf.old)
        (S.file shelf.new) }
    ensures opens { OpensBy S.tells (status_of result) (Some (Net name.now counters))
        (S.file shelf.old) (S.ids shelf.old) (S.ids shelf.new) }
    ensures order { OpensInOrder S.tells (Some (Net name.now counters)) result (S.file shelf.old)
        (S.ids shelf.old) (S.ids shelf.new) }
    ensures faults { CountsFaults result (S.faults shelf.old) (S.faults shelf.new) }
{
    let played = play_net(alloc, shelf, name, counters, fate, more);
    finished(shelf, played)
}
