//! The rows of a set of ports.
ghost use Rattle.std.specs.Prelude.{◌≡◌, IfOk};
ghost use Rattle.exb_model.specs.Ports.{port_in};
ghost use Rattle.exb_control_spec.specs.Plans.Rows.{rows_of};

use exb_control_spec::Row;
use exb_model::memory::NoMemory;
use exb_model::port_set::PortSet;
use exb_model::tree::Tree;
use std::alloc::Global;

/// One row for each extender with a port of the set in its subtree, by depth and number: the ports
/// whose subtree has a port of the set.
pub fn rows(alloc: Global, tree: &Tree, set: &PortSet) -> Result<Vec<Row>, NoMemory>
    ensures { IfOk result (λ rows. rows.items ≡ rows_of tree.now (port_in set.now)) }
{
    let covered = tree.covered(set);
    let mut rows = Vec::new(alloc);
    for extender in tree.order() {
        let mask = covered.mask(*extender);
        if mask != 0 {
            rows.push(Row {
                extender: *extender,
                mask,
            })?;
        }
    }
    Ok(rows)
}
