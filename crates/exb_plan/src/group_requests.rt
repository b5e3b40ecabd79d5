//! What is asked for the rows of groups.
ghost use Rattle.std.specs.Prelude.{◌≡◌, ℕ, ◌<◌, ◌++◌, map, IfOk, OnOk};
ghost use Rattle.exb_control_spec.specs.Plans.ChangeRequests.{rows_at, group_asks};
ghost use Rattle.exb_control_spec.specs.Plans.FreshSets.{seen_group};
ghost use Rattle.exb_plan.specs.PlanValues.{row_of_covered, rows_of_covered};

use crate::request_messages::put_messages;
use exb_control_spec::{GroupAt, RowAction};
use exb_csp::{AskAt, GroupRow};
use exb_model::list::List;
use exb_model::memory::NoMemory;
use exb_model::port_set::PortSet;
use exb_model::tree::Tree;
use std::alloc::Global;

/// A group's number, and the ports with a port of its set in their subtree.
#[derive(Clone, Copy)]
pub(crate) struct Covered {
    pub(crate) number: u16,
    pub(crate) ports: PortSet,
}

impl Covered {
    // The row at an extender, if there is one.
    fn row(&self, extender: u8) -> Option<GroupRow>
        requires { extender < 65 }
        ensures { result ≡ row_of_covered extender self.now }
    {
        let mask = self.ports.mask(extender);
        if mask == 0 {
            return None;
        }
        Some(GroupRow {
            ecid: self.number,
            mask,
        })
    }
}

// Of each group, the ports with a port of its set in their subtree.
fn cover_all(alloc: Global, tree: &Tree, groups: &[GroupAt]) -> Result<Vec<Covered>, NoMemory>
    ensures { IfOk result (λ made. (n : ℕ) → rows_of_covered made.items n
        ≡ rows_at tree.now (map seen_group groups.now) n) }
{
    let mut covered = Vec::with_capacity(alloc, groups.len())?;
    for group in groups {
        covered.push(Covered {
            number: group.number,
            ports: tree.covered(&group.set),
        })?;
    }
    Ok(covered)
}

// The rows at an extender, in the order of the groups, in place of what was in `rows`.
fn rows_at(covered: &[Covered], extender: u8, rows: &mut Vec<GroupRow>) -> Result<(), NoMemory>
    requires { extender < 65 }
    ensures { OnOk result (rows.new.items ≡ rows_of_covered covered.now extender) }
{
    rows.clear();
    for group in covered {
        if let Some(row) = group.row(extender) {
            rows.push(row)?;
        }
    }
    Ok(())
}

/// Asks each extender, by depth and number, for the rows there of all groups.
pub(crate) fn put_groups(
    alloc: Global,
    tree: &Tree,
    step: RowAction,
    groups: &[GroupAt],
    asks: &mut List<AskAt>,
) -> Result<(), NoMemory>
    ensures { OnOk result (asks.new ≡ asks.old ++ group_asks step tree.now
        (map seen_group groups.now)) }
{
    let covered = cover_all(alloc, tree, groups)?;
    let mut rows = Vec::with_capacity(alloc, groups.len())?;
    for extender in tree.order() {
        rows_at(covered.as_slice(), *extender, &mut rows)?;
        put_messages(asks, step, *extender, rows.as_slice())?;
    }
    Ok(())
}
