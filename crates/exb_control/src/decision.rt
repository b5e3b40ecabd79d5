//! What becomes of a job when its turn comes.
ghost use Rattle.std.specs.Prelude.{◌≡◌, ℕ, ◌/◌, ◌<◌, ◌≤◌, ◌++◌, true, [], length, slice_index_or, IfOk, OnOk, OnErr};
ghost use Rattle.exb_model.specs.Tree.{is_extender, is_cascade};
ghost use Rattle.exb_model.specs.Setup.{Limits};
ghost use Rattle.exb_config.specs.Tables.{bridge_of};
ghost use Rattle.exb_numbers.specs.Spaces.{groups_at};
ghost use Rattle.exb_plan.specs.SpaceContents.{HasSpaces, held_by};
ghost use Rattle.exb_control_spec.specs.Plans.HeldNumbers.{HoldsNeeded};
ghost use Rattle.exb_plan.specs.PlanValues.{SpacesOf};
ghost use Rattle.exb_plan.specs.UseCounts.{IsCounted};
ghost use Rattle.exb_plan.specs.Decisions.{IfDecided};
ghost use Rattle.exb_plan.specs.Recount.{HaveRowsOf};
ghost use Rattle.exb_control_spec.specs.Decisions.{cascade_asks, opening_asks, opening_change, bridge_after, decide};
ghost use Rattle.exb_control_spec.specs.JobsOfTree.{Fits};
ghost use Rattle.exb_control.specs.ActiveConfigs.{decision_of, held_after};

use exb_config::Config;
use exb_control_spec::{Change, Decision, Job};
use exb_csp::{AskAt, Request};
use exb_model::command::Command;
use exb_model::list::List;
use exb_model::memory::NoMemory;
use exb_model::port::PortId;
use exb_model::role::Role;
use exb_model::tree::Tree;
use exb_numbers::Spaces;
use exb_plan::request_messages::put_create;
use exb_plan::{GroupUses, plan};
use std::alloc::Global;

// Asks that a port of an extender is created, if it is a cascade port.
fn put_cascade(
    alloc: Global,
    tree: &Tree,
    spaces: &Spaces,
    port: PortId,
    asks: &mut List<AskAt>,
) -> Result<(), NoMemory>
    requires extender { is_extender tree.now (port / 64) ≡ true }
    requires spaces { SpacesOf tree.now spaces.now }
    ensures { OnOk result (asks.new ≡ asks.old ++ cascade_asks tree.now (held_by spaces.now) port) }
{
    tree.is_tree();
    if let Role::Cascade { .. } = tree.role(port) {
        let trunk = tree.trunk(port.device());
        let channel = spaces.channels(trunk).of(port).unwrap_or(0);
        put_create(alloc, tree, port, true, channel, asks)?;
    }
    Ok(())
}

// What is asked to open an extender: Open, then that each of its cascade ports is created.
fn opening_asks(
    alloc: Global,
    tree: &Tree,
    spaces: &Spaces,
    extender: u8,
) -> Result<List<AskAt>, NoMemory>
    requires extender { is_extender tree.now extender ≡ true }
    requires spaces { SpacesOf tree.now spaces.now }
    ensures { IfOk result (λ made. made ≡ opening_asks tree.now extender (held_by spaces.now)) }
{
    tree.is_tree();
    let mut asks = List::new(alloc);
    asks.push(AskAt {
        extender,
        request: Request::Open,
    })?;
    for place in 0..64u8 {
        let port = PortId::at(extender, place);
        put_cascade(alloc, tree, spaces, port, &mut asks)?;
    }
    Ok(asks)
}

// The change that opens an extender. It claims, clears and frees nothing.
fn opening_change(
    alloc: Global,
    tree: &Tree,
    spaces: &Spaces,
    extender: u8,
) -> Result<Change, NoMemory>
    requires extender { is_extender tree.now extender ≡ true }
    requires spaces { SpacesOf tree.now spaces.now }
    ensures { IfOk result (λ made. made ≡ opening_change tree.now extender (held_by spaces.now)) }
{
    Ok(Change {
        prepare: opening_asks(alloc, tree, spaces, extender)?,
        cleanup: List::new(alloc),
        channels: List::new(alloc),
        groups: List::new(alloc),
    })
}

/// Decides a job: says why it is refused, or claims the numbers of its change. The uses are then
/// those after the job. Refused or out of memory nothing is claimed, and no use changes.
pub(crate) fn decide(
    alloc: Global,
    tree: &Tree,
    spaces: &mut Spaces,
    uses: &mut GroupUses,
    config: &Config,
    job: &Job,
) -> Result<Decision, NoMemory>
    requires limits { (l : Limits) × HasSpaces tree.now l spaces.old × (l.groups ≤ 12288) }
    requires rows { (k : ℕ) → k < 64 → is_cascade tree.now k ≡ true
        → length (slice_index_or uses.old k []) ≡ (groups_at spaces.old k).limit }
    requires held { HoldsNeeded tree.now (bridge_of config.now) (held_by spaces.old) }
    requires counted { IsCounted tree.now (bridge_of config.now) (held_by spaces.old) uses.old }
    requires fits { Fits tree.now job.now }
    ensures decision { (l : Limits) → HasSpaces tree.now l spaces.old
        → IfOk result (λ made. made ≡ decision_of (decide tree.now l (bridge_of config.now)
        (held_by spaces.old) job.now)) }
    ensures claimed { (l : Limits) → HasSpaces tree.now l spaces.old
        → OnOk result (held_by spaces.new
        ≡ held_after (decide tree.now l (bridge_of config.now) (held_by spaces.old) job.now)
        (held_by spaces.old)) }
    ensures no_memory { OnErr result (held_by spaces.new ≡ held_by spaces.old) }
    ensures spaces { (l : Limits) → HasSpaces tree.now l spaces.old
        → HasSpaces tree.now l spaces.new }
    ensures counted { IfOk result (λ made. IfDecided made (uses.new ≡ uses.old)
        (IsCounted tree.now (bridge_after job.now (bridge_of config.now)) (held_by spaces.new)
        uses.new)) }
    ensures unchanged { OnErr result (uses.new ≡ uses.old) }
    ensures rows { HaveRowsOf uses.old uses.new }
{
    match job {
        Job::Opening { extender } => {
            let change = opening_change(alloc, tree, spaces, *extender)?;
            Ok(Decision::Ready(change))
        }
        Job::AutomaticUp { port } => {
            let command = Command::Up { port: *port };
            plan(alloc, tree, spaces, uses, config, &command)
        }
        Job::Ordered { number: _, command } => { plan(alloc, tree, spaces, uses, config, command) }
    }
}
