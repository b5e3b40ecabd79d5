//! The branches of a tree below the bridge's ports, out of which the sets of a configuration are
//! cut.
ghost use Rattle.std.specs.Prelude.{◌≡◌, ◌≢◌, ◌<◌, ◌≤◌, ◌==◌, ◌&&◌, ◌/◌, ℕ, Bool, true, false, slice_index, slice_index_or};
ghost use Rattle.exb_model.specs.Ports.{port_in};
ghost use Rattle.exb_model.specs.Tree.{is_under};
ghost use Rattle.exb_control_spec.specs.Plans.TouchedParts.{touches_below};
ghost use Rattle.exb_plan.specs.Branches.{AreTrunks, ArePlaces, AreBranches};

use crate::config_view::View;
use crate::places::Places;
use exb_model::command::Command;
use exb_model::port::{DEVICES, PortId};
use exb_model::port_set::PortSet;
use exb_model::tree::Tree;

/// The extended ports of a tree by the bridge port above them, the isolated ports of a
/// configuration, and the bridge ports below which parts are looked for.
#[derive(Drop)]
pub struct Branches {
    /// By device: the bridge port above an extender, from 1; 0 where there is no extender.
    pub trunks: [u8; 65],
    /// The bridge ports below which parts are looked for.
    pub places: Places,
    pub extended: PortSet,
    pub isolated: PortSet,
}

/// The bridge port above each extender, from 1; 0 where there is no extender.
fn trunks_of(tree: &Tree) -> [u8; 65]
    ensures { AreTrunks tree.now result }
{
    let mut trunks = [0; 65];
    for number in 0..DEVICES {
        if tree.is_extender(number) {
            trunks[number as usize] = tree.trunk(number);
        }
    }
    trunks
}

// Marks a bridge port, where a word has a port.
fn mark(reached: &mut [bool; 65], bridge_port: u8, word: u64)
    ensures marked { word ≢ 0 → bridge_port < 65 → slice_index_or reached.new bridge_port false
        ≡ true }
    ensures kept { (k : ℕ) → slice_index_or reached.old k false ≡ true
        → slice_index_or reached.new k false ≡ true }
{
    if word == 0 || bridge_port > 64 {
        return;
    }
    reached[bridge_port as usize] = true;
}

impl Branches {
    // Of a tree and a view of a configuration, below some bridge ports.
    fn below<V: View>(tree: &Tree, view: &V, places: Places) -> Branches
        ensures { (here : ℕ → Bool) → ArePlaces here places
            → AreBranches tree.now (V.bridge view.now) here result }
    {
        Branches {
            trunks: trunks_of(tree),
            places,
            extended: tree.extended_ports(),
            isolated: view.isolated(),
        }
    }

    /// Of a tree and a view of a configuration, below all bridge ports.
    pub fn new<V: View>(tree: &Tree, view: &V) -> Branches
        ensures { AreBranches tree.now (V.bridge view.now) (λ k. true) result }
    {
        Branches::below(tree, view, Places { first: 1, past: 65 })
    }

    // Those below the bridge port that a port is under, if it is under one.
    fn above<V: View>(tree: &Tree, view: &V, port: PortId) -> Branches
        ensures { AreBranches tree.now (V.bridge view.now) (λ k. is_under tree.now k port) result }
    {
        tree.is_tree();
        if !tree.is_extended(port) {
            return Branches::below(tree, view, Places { first: 1, past: 1 });
        }
        let first = tree.trunk(port.device());
        let past = first + 1;
        Branches::below(tree, view, Places { first, past })
    }

    /// Those below the bridge ports below which a command changes parts.
    pub fn touched<V: View>(tree: &Tree, view: &V, command: &Command) -> Branches
        ensures { AreBranches tree.now (V.bridge view.now) (touches_below tree.now command.now)
            result }
    {
        match *command {
            Command::Member { port, .. }
            | Command::Unmember { port, .. }
            | Command::Isolate { port, .. }
            | Command::Up { port }
            | Command::Down { port } => Branches::above(tree, view, port),
            _ => Branches::new(tree, view),
        }
    }

    /// The bridge ports, from 1, above the extenders that have a port of a set.
    pub fn reached(&self, set: &PortSet) -> [bool; 65]
        ensures { (q : ℕ) → port_in set.now q ≡ true → slice_index self.now.trunks (q / 64) < 65
            → slice_index_or result (slice_index self.now.trunks (q / 64)) false ≡ true }
    {
        let mut reached = [false; 65];
        for device in 0..65usize {
            mark(&mut reached, self.trunks[device], set.words[device]);
        }
        reached
    }

    /// The ports of a set whose extenders have that trunk.
    pub fn under(&self, set: &PortSet, bridge_port: u8) -> PortSet
        requires { 0 < bridge_port }
        ensures { (q : ℕ) → port_in result q ≡ (slice_index self.now.trunks (q / 64) == bridge_port
            && port_in set.now q) }
    {
        let mut words = [0; 65];
        for device in 0..65usize {
            if self.trunks[device] == bridge_port {
                words[device] = set.words[device];
            }
        }
        PortSet { words }
    }
}
