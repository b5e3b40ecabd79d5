//! What never changes in a network: its tree, and what is looked up beside it.
ghost use Rattle.std.specs.Prelude.{◌≡◌, true, IfOk, slice_index};
ghost use Rattle.exb_model.specs.Setup.{IsPlace, IsValid, port_at, shape_of, limits_of};
ghost use Rattle.exb_model.specs.Tree.{by_depth, is_extender, on};
ghost use Rattle.exb_world_spec.specs.ExtenderSteps.{hung_on};
ghost use Rattle.exb_world_spec.specs.Settling.{deepest_first};
ghost use Rattle.exb_model.specs.DeviceSets.{IsNumber};
ghost use Rattle.exb_bridge.specs.TreeIndexes.{limits_in, AreExtenders, ArePlaces};

use crate::extender_order::{all_extenders, deepest_first, downward_places, upward_places};
use exb_model::memory::NoMemory;
use exb_model::port::{DEVICES, PortId};
use exb_model::role::Role;
use exb_model::setup::{Place, Setup};
use exb_model::tree::Tree;
use std::alloc::Global;
use std::marker::Model;

/// What never changes: the tree, and how many E-channels and groups the space of a bridge port has.
pub struct TreeIndex {
    tree: Tree,
    channels: u16,
    groups: u16,
    /// How many ports each device has.
    ports: [u8; DEVICES as usize],
    /// The port on which each extender hangs.
    on: [PortId; DEVICES as usize],
    /// The extenders from the deepest, at one depth by number.
    upwards: Vec<u8>,
    /// The extenders, as a set of numbers.
    extenders: u64,
    /// By extender its place among those from the deepest, and among those by depth; 64 where there
    /// is none.
    upward_places: [u8; DEVICES as usize],
    downward_places: [u8; DEVICES as usize],
}

impl Drop for TreeIndex {
    fn drop(self) {
        let TreeIndex {
            tree: _,
            channels: _,
            groups: _,
            ports: _,
            on: _,
            upwards: _,
            extenders: _,
            upward_places: _,
            downward_places: _,
        } = self;
    }
}

impl Model for TreeIndex {
    ghost use Rattle.exb_bridge.specs.TreeIndexes.{HasTables, Site};

    ghost Value = { Site };

    ghost view = { λ s. record { tree = s.tree; channels = s.channels; groups = s.groups } };

    ghost invariant = { λ s. HasTables s.tree s.ports s.on s.upwards.items s.extenders
        s.upward_places s.downward_places };
}

/// The port at a place of a setup.
fn port_at(place: &Place) -> PortId
    requires { IsPlace place.now }
    ensures { result ≡ port_at place.now }
{
    match place {
        Place::Bridge { port } => PortId::at(0, *port - 1),
        Place::Extender { number, port } => PortId::at(*number, *port - 1),
    }
}

/// How many ports each device of a setup has.
fn port_counts(setup: &Setup) -> [u8; DEVICES as usize]
    requires { IsValid setup.now }
    ensures { result ≡ (shape_of setup.now).ports }
{
    let mut ports = [0u8; DEVICES as usize];
    ports[0] = setup.ports;
    for extender in setup.extenders.as_slice() {
        ports[extender.number as usize] = extender.ports;
    }
    ports
}

/// The port on which each extender of a setup hangs.
fn places(setup: &Setup) -> [PortId; DEVICES as usize]
    requires { IsValid setup.now }
    ensures { result ≡ (shape_of setup.now).on }
{
    let first = PortId::at(0, 0);
    let mut places = [first; DEVICES as usize];
    for extender in setup.extenders.as_slice() {
        places[extender.number as usize] = port_at(&extender.on);
    }
    places
}

impl TreeIndex {
    /// The site of a setup.
    pub fn new(alloc: Global, setup: &Setup) -> Result<TreeIndex, NoMemory>
        requires { IsValid setup.now }
        ensures tree { IfOk result (λ made. made.tree ≡ shape_of setup.now) }
        ensures limits { IfOk result (λ made. limits_in made ≡ limits_of setup.now) }
    {
        let tree = Tree::new(alloc, setup)?;
        let ports = port_counts(setup);
        let on = places(setup);
        let upwards = deepest_first(alloc, &tree, &on)?;
        let extenders = all_extenders(&tree);
        let upward_places = upward_places(&tree, upwards.as_slice());
        let downward_places = downward_places(&tree);
        Ok(TreeIndex {
            tree,
            channels: setup.channels,
            groups: setup.groups,
            ports,
            on,
            upwards,
            extenders,
            upward_places,
            downward_places,
        })
    }

    /// The tree.
    pub fn tree(&self) -> &Tree
        ensures { result.now ≡ self.now.tree }
    {
        &self.tree
    }

    /// That the number of an extender is 1 to 64, as a fact for whoever calls it. It does nothing.
    pub fn has_low_number(&self, extender: u8)
        requires { is_extender self.now.tree extender ≡ true }
        ensures { IsNumber extender }
    {
        self.tree.is_tree();
    }

    /// How many ports an extender has.
    pub fn ports(&self, extender: u8) -> u8
        requires { is_extender self.now.tree extender ≡ true }
        ensures { result ≡ slice_index self.now.tree.ports extender }
    {
        self.tree.is_tree();
        let ports = &self.ports;
        ports[extender as usize]
    }

    /// The port on which an extender hangs.
    pub fn on(&self, extender: u8) -> PortId
        requires { is_extender self.now.tree extender ≡ true }
        ensures { result ≡ on self.now.tree extender }
    {
        self.tree.is_tree();
        let on = &self.on;
        on[extender as usize]
    }

    /// The extenders in the order in which a round goes through the upward directions.
    pub fn upwards(&self) -> &[u8]
        ensures { result.now ≡ deepest_first self.now.tree 64 }
    {
        self.upwards.as_slice()
    }

    /// By extender its place among those from the deepest.
    pub fn upward_places(&self) -> &[u8; DEVICES as usize]
        ensures { ArePlaces (deepest_first self.now.tree 64) result.now }
    {
        &self.upward_places
    }

    /// By extender its place among those by depth.
    pub fn downward_places(&self) -> &[u8; DEVICES as usize]
        ensures { ArePlaces (by_depth self.now.tree) result.now }
    {
        &self.downward_places
    }

    /// The extenders, as a set of numbers.
    pub fn extenders(&self) -> u64
        ensures { AreExtenders self.now.tree result }
    {
        self.extenders
    }

    /// The extenders in the order in which a round goes through the downward directions.
    pub fn downwards(&self) -> &[u8]
        ensures { result.now ≡ by_depth self.now.tree }
    {
        self.tree.order()
    }
}

/// The extender that hangs on a port.
#[inline(always)]
pub fn hung_on(tree: &Tree, port: PortId) -> Option<u8>
    ensures { result ≡ hung_on tree.now port }
{
    tree.is_tree();
    match tree.role(port) {
        Role::Cascade { extender } => Some(extender),
        _ => None,
    }
}
