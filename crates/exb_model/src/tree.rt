//! The tree of extenders below the bridge.
ghost use Rattle.std.specs.Prelude.{◌≡◌, ℕ, ◌+◌, ◌<◌, ◌≤◌, ◌&&◌, true, nat_lt, length, slice_index, IfOk};
ghost use Rattle.exb_model.specs.Masks.{bits_of};
ghost use Rattle.exb_model.specs.Ports.{port_in};
ghost use Rattle.exb_model.specs.Setup.{shape_of, IsValid};
ghost use Rattle.exb_model.specs.Tree.{HasRole, IsTree, by_depth, is_cascade, is_extended, is_extender, is_external, trunk};
ghost use Rattle.exb_model.specs.TreeSets.{covers};

use crate::layout::Layout;
use crate::memory::NoMemory;
use crate::port::{DEVICES, PORTS, PortId};
use crate::port_set::PortSet;
use crate::role::Role;
use crate::setup::Setup;
use crate::tree_tables::{hanging, known_ports, order_of, tops_of};
use std::alloc::Global;
use std::marker::Model;

/// The tree of a setup: which ports there are, where each extender hangs, and what lies above a
/// port. What is asked for each frame is looked up in a table.
pub struct Tree {
    /// How many ports a device has, and where an extender hangs.
    layout: Layout,
    /// The bridge port above an extender.
    tops: [u16; 65],
    /// The ports of the tree.
    known: PortSet,
    /// Those of them on which no extender hangs.
    external: PortSet,
    /// The extenders by depth and then number.
    order: Vec<u8>,
    /// The extender that hangs on a port, 0 for none.
    below: Vec<u8>,
}

impl Drop for Tree {
    fn drop(self) {
        let Tree {
            layout: _,
            tops: _,
            known: _,
            external: _,
            order: _,
            below: _,
        } = self;
    }
}

impl Model for Tree {
    ghost use Rattle.exb_model.specs.Tree.{Shape};
    ghost use Rattle.exb_model.specs.TreeTables.{IsSound};

    ghost Value = { Shape };

    ghost view = { λ t. t.layout };

    ghost invariant = { λ t. IsSound t.layout t.tops t.known.words t.external.words t.order.items
        t.below.items };
}

impl Tree {
    /// The tree of a setup.
    pub fn new(alloc: Global, setup: &Setup) -> Result<Tree, NoMemory>
        requires { IsValid setup.now }
        ensures { IfOk result (λ tree. tree ≡ shape_of setup.now) }
    {
        let layout = Layout::new(setup);
        let order = order_of(alloc, &layout)?;
        let below = hanging(alloc, &layout, PORTS as usize)?;
        let tops = tops_of(&layout);
        let known = known_ports(&layout);
        let external = layout.external(&layout.cascades());
        Ok(Tree {
            layout,
            tops,
            known,
            external,
            order,
            below,
        })
    }

    /// That it is a tree, as a fact for whoever calls it. It does nothing.
    pub fn is_tree(&self)
        ensures { IsTree self.now }
    {
        let _ = &self.tops;
    }

    /// The role of a port: Unknown exactly where the tree has no such port.
    pub fn role(&self, port: PortId) -> Role
        ensures { HasRole self.now port result }
    {
        if !self.known.contains(port) {
            return Role::Unknown;
        }
        match self.below[port.number() as usize] {
            0 => Role::External,
            extender => Role::Cascade { extender },
        }
    }

    /// Whether it is a port of the tree on which no extender hangs.
    pub fn is_external(&self, port: PortId) -> bool
        ensures { result ≡ is_external self.now port }
    {
        self.external.contains(port)
    }

    /// Whether it is an external port of an extender.
    pub fn is_extended(&self, port: PortId) -> bool
        ensures { result ≡ is_extended self.now port }
    {
        port.device() > 0 && self.is_external(port)
    }

    /// Whether an extender hangs on the port.
    pub fn is_cascade(&self, port: PortId) -> bool
        ensures { result ≡ is_cascade self.now port }
    {
        let below = self.below.as_slice();
        below[port.number() as usize] != 0
    }

    /// Whether there is an extender of that number.
    pub fn is_extender(&self, number: u8) -> bool
        ensures { result ≡ is_extender self.now number }
    {
        let layout = &self.layout;
        if number >= DEVICES {
            return false;
        }
        layout.is_extender(u16::from(number))
    }

    /// The ports of the tree on which no extender hangs.
    pub fn external_ports(&self) -> PortSet
        ensures { (q : ℕ) → port_in result q ≡ is_external self.now q }
    {
        self.external
    }

    /// The external ports of the bridge itself.
    pub fn local_ports(&self) -> PortSet
        ensures { (q : ℕ) → port_in result q ≡ (nat_lt q 64 && is_external self.now q) }
    {
        self.external_ports().of_device(0)
    }

    /// The external ports of extenders.
    pub fn extended_ports(&self) -> PortSet
        ensures { (q : ℕ) → port_in result q ≡ is_extended self.now q }
    {
        self.external_ports().except(&self.local_ports())
    }

    /// The bridge port above an extender, 1 to 64.
    pub fn trunk(&self, extender: u8) -> u8
        requires { is_extender self.now extender ≡ true }
        ensures value { result ≡ trunk self.now extender + 1 }
        ensures range { result ≤ 64 }
    {
        self.tops[extender as usize] as u8 + 1
    }

    /// The ports that have a port of the set in their subtree.
    pub fn covered(&self, set: &PortSet) -> PortSet
        ensures { (p : ℕ) → port_in result p ≡ covers self.now (port_in set.now) p }
    {
        let mut marks = set.both(&self.known);
        // A deeper extender comes after the one on which it hangs, so all below an extender is
        // marked when its turn comes.
        let order = self.order.as_slice();
        for index in (0..order.len()).rev() {
            let extender = order[index];
            if marks.mask(extender) != 0 {
                marks.insert(PortId::new(self.layout.on(extender as u16)).unwrap());
            }
        }
        marks
    }

    /// The bridge ports whose subtree has a port of the set: bit k - 1 is bridge port k.
    pub fn reach(&self, set: &PortSet) -> u64
        ensures { result ≡ bits_of (covers self.now (port_in set.now)) 64 }
    {
        self.covered(set).mask(0)
    }

    /// The extenders by depth and then number.
    pub fn order(&self) -> &[u8]
        ensures { result.now ≡ by_depth self.now }
    {
        self.order.as_slice()
    }
}
