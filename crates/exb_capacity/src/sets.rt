//! How many sets are needed.
ghost use Rattle.std.specs.Prelude.{◌≡◌, ◌==◌, ◌<◌, map, count_by, IfOk};
ghost use Rattle.exb_model.specs.Tree.{Shape};
ghost use Rattle.exb_model.specs.Configuration.{Bridge};
ghost use Rattle.exb_config.specs.Tables.{bridge_of};
ghost use Rattle.exb_control_spec.specs.Plans.Sets.{sets_of, seen};
ghost use Rattle.exb_capacity.specs.NeededNumbers.{greatest_below, sets_below};

use exb_config::Config;
use exb_control_spec::SetAt;
use exb_model::memory::NoMemory;
use exb_model::port::PortId;
use exb_model::tree::Tree;
use std::alloc::Global;

/// How many of these sets are below a bridge port, which is numbered from 1.
fn count_below(sets: &[SetAt], bridge_port: u8) -> usize
    ensures { result ≡ count_by (λ s. s.bridge_port == bridge_port) sets.now }
{
    sets.iter()
        .filter(|set| set.bridge_port == bridge_port)
        .count()
}

/// How many of these sets are below a bridge port, which is counted from 0.
fn sets_below(sets: &[SetAt], place: u8) -> u64
    requires { place < 64 }
    ensures { (t : Shape) (b : Bridge) → map seen sets.now ≡ sets_of t b
        → result ≡ sets_below t b place }
{
    exb_control_spec::laws::sets_of_each();
    count_below(sets, place + 1) as u64
}

/// The greatest number of these sets that are below one cascade port of the bridge.
fn most_of(tree: &Tree, sets: &[SetAt]) -> u64
    ensures { (b : Bridge) → map seen sets.now ≡ sets_of tree.now b
        → result ≡ greatest_below tree.now (sets_below tree.now b) }
{
    let mut most: u64 = 0;
    for place in 0..64u8 {
        if tree.is_cascade(PortId::at(0, place)) {
            most = most.max(sets_below(sets, place));
        }
    }
    most
}

/// How many sets of ports the fullest cascade port of the bridge needs.
pub(crate) fn sets(alloc: Global, tree: &Tree, config: &Config) -> Result<u64, NoMemory>
    ensures { IfOk result (λ most. most ≡ greatest_below tree.now
        (sets_below tree.now (bridge_of config.now))) }
{
    let sets = exb_plan::sets(alloc, tree, config)?;
    Ok(most_of(tree, sets.as_slice()))
}
