//! The external ports of a tree that words name.
ghost use Rattle.std.specs.Prelude.{◌≡◌, ◌==◌, ◌&&◌, ◌||◌, ◌-◌, ◌+◌, ◌/◌, ℕ, ◌<◌, nat_le};
ghost use Rattle.std.specs.List.{list_all};
ghost use Rattle.exb_model.specs.Ports.{port_in};
ghost use Rattle.exb_topology.specs.Checks.{all_from, is_known, names, listed};

use exb_model::port::PortId;
use exb_model::port_set::PortSet;
use exb_model::tree::Tree;
use exb_toml_keys::text_values::PortPattern;

/// Puts the ports of a device that are in a set into another one.
fn add_device(from: &PortSet, device: usize, set: &mut PortSet)
    requires { device < 65 }
    ensures { (q : ℕ) → port_in set.new q
        ≡ (port_in set.old q || (q / 64 == device && port_in from.now q)) }
{
    set.words[device] |= from.words[device];
}

/// Puts the ports of a set into another one.
fn add_all(from: &PortSet, set: &mut PortSet)
    ensures { (q : ℕ) → port_in set.new q ≡ (port_in set.old q || port_in from.now q) }
{
    for device in 0..65usize {
        add_device(from, device, set);
    }
}

/// Puts the ports of a set from a first to a last one into another set.
fn add_range(from: &PortSet, first: PortId, last: PortId, set: &mut PortSet)
    ensures { (q : ℕ) → port_in set.new q
        ≡ (port_in set.old q || ((nat_le first q && nat_le q last) && port_in from.now q)) }
{
    for number in first.number()..last.number() + 1 {
        let port = PortId::new(number).unwrap();
        if from.contains(port) {
            set.insert(port);
        }
    }
}

/// Whether all ports from a first to a last one are in a set.
fn has_range(set: &PortSet, first: PortId, last: PortId) -> bool
    ensures { result ≡ all_from (port_in set.now) first (last + 1 - first) }
{
    for number in first.number()..last.number() + 1 {
        let port = PortId::new(number).unwrap();
        if !set.contains(port) {
            return false;
        }
    }
    true
}

/// Whether the tree has what a word names.
fn is_known(tree: &Tree, word: PortPattern) -> bool
    ensures { result ≡ is_known tree.now word }
{
    match word {
        PortPattern::All => true,
        PortPattern::Whole { extender } => tree.is_extender(extender),
        PortPattern::Ports { first, last } => has_range(&tree.external_ports(), first, last),
    }
}

/// Whether the tree has what each of these words names.
pub(crate) fn are_known(tree: &Tree, words: &[PortPattern]) -> bool
    ensures { result ≡ list_all (is_known tree.now) words.now }
{
    for word in words {
        if !is_known(tree, *word) {
            return false;
        }
    }
    true
}

/// Puts the external ports that a word names into a set.
fn add(tree: &Tree, word: PortPattern, set: &mut PortSet)
    ensures { (q : ℕ) → port_in set.new q ≡ (port_in set.old q || names tree.now q word) }
{
    let external = tree.external_ports();
    match word {
        PortPattern::All => add_all(&external, set),
        PortPattern::Whole { extender } => {
            if extender < 65 {
                add_device(&external, extender as usize, set);
            }
        }
        PortPattern::Ports { first, last } => add_range(&external, first, last, set),
    }
}

/// The external ports that the words of a list name.
pub(crate) fn listed(tree: &Tree, words: &[PortPattern]) -> PortSet
    ensures { (q : ℕ) → port_in result q ≡ listed tree.now words.now q }
{
    let mut set = PortSet::empty();
    for word in words {
        add(tree, *word, &mut set);
    }
    set
}
