//! A net: bridges that are wired to one another.
ghost use Rattle.std.specs.Prelude.{All, ◌≡◌, ◌≢◌, ◌∷◌, [], ◌↔◌, ◌+◌, ◌==◌, if◌then◌else◌, ◌<◌, ◌≤◌, ◌^◌, ℕ, Some, false, true, IfNone, IfOk, IfSome, OnErr, OnOk, length, slice_get};
ghost use Rattle.exb_world_spec.specs.AllowedSteps.{Can};
ghost use Rattle.exb_world_spec.specs.Worlds.{Arrive, Order, Tick};
ghost use Rattle.exb_world.specs.WorldContracts.{tree_of, world_of};
ghost use Rattle.exb_net_spec.specs.Nets.{Net as Wired, IsNet, is_wired};
ghost use Rattle.exb_net_laws.specs.NetRuns.{Dones};
ghost use Rattle.exb_net.specs.PairedLists.{AreEach};
ghost use Rattle.exb_net.specs.BridgeSets.{AreQuietBut, AreQuietFrom, AreSameBut};
ghost use Rattle.exb_net.specs.Nodes.{HasDone, HasForgotten, HasPassed};
ghost use Rattle.exb_net.specs.Deliveries.{Turn, IsTurn, HasDelivered, IsComing, Begins, HasPlayed};

use crate::assembly::make_all;
use crate::bridge_set::BridgeSet;
use crate::crossing::Crossing;
use crate::node::{Node, enter, forget, let_come, let_pass, open_one, order};
use exb_fate::Fate;
use exb_model::arrival::Arrival;
use exb_model::memory::NoMemory;
use exb_model::setup::Timed;
use exb_net_laws::laws::{bridges_handle, deliveries_end_soon, opened_nets_run, seconds_pass};
use exb_net_spec::wires::NetSetup;
use exb_schedule::{World, WorldFault};
use std::alloc::Global;
use std::collections::VecDeque;

/// Bridges whose external ports are wired to one another, numbered from 0. Each has a world with a
/// fate of its own.
#[derive(Drop)]
pub struct Net {
    pub(crate) nodes: Vec<Node>,
    /// The frames that are between bridges; none between calls.
    pub(crate) queue: VecDeque<Crossing>,
    /// How many wires there are.
    pub(crate) wires: usize,
    /// How many frames came to the net.
    pub(crate) came: u64,
    /// Whether memory ran out in a call.
    pub(crate) failed: bool,
    pub(crate) alloc: Global,
    /// The bridges to which something came since they were cleared.
    pub(crate) touched: BridgeSet,
    ghost quiet: { AreQuietBut touched nodes.items },
}

/// Opens each bridge: it settles and is marked.
fn open_all(nodes: &mut Vec<Node>) -> Result<(), WorldFault>
    requires few { All (λ x. left x.fate < 2 ^ 57) nodes.old.items }
    ensures ok { OnOk result
        (AreEach (λ b x y. HasDone [] x.world y.world x.ends.items y.ends.items) nodes.old.items
        nodes.new.items) }
    ensures fates { OnOk result (AreEach (λ b x y. left y.fate ≤ left x.fate) nodes.old.items
        nodes.new.items) }
{
    for node in nodes.iter_mut() {
        open_one(node)?;
    }
    Ok(())
}

/// Seconds pass at each bridge.
fn pass_all(nodes: &mut Vec<Node>, seconds: u32) -> Result<(), WorldFault>
    requires can { All (λ x. Can (tree_of x.world) (world_of x.world) (Tick seconds))
        nodes.old.items }
    ensures ok { OnOk result (AreEach (λ b x y. HasPassed seconds x.world y.world x.ends.items
        y.ends.items) nodes.old.items nodes.new.items) }
    ensures fates { OnOk result (AreEach (λ b x y. left y.fate ≤ left x.fate) nodes.old.items
        nodes.new.items) }
{
    for node in nodes.iter_mut() {
        let_pass(node, seconds)?;
    }
    Ok(())
}

/// Forgets what was told and has left, where something came.
fn clear_all(nodes: &mut Vec<Node>, touched: BridgeSet)
    requires { AreQuietBut touched nodes.old.items }
    ensures forgotten { AreEach (λ b x y. HasForgotten x.world y.world x.ends.items y.ends.items)
        nodes.old.items nodes.new.items }
    ensures fates { AreEach (λ b x y. left y.fate ≤ left x.fate) nodes.old.items nodes.new.items }
{
    let mut from = 0;
    'clearing: while let Some(bridge) = touched.first_from(from) {
        if bridge >= nodes.len() {
            return;
        }
        forget(&mut nodes[bridge]);
        from = bridge + 1;
    }
}

/// A frame that crossed a wire arrives at the far end, and what leaves there for it is put at the
/// end of the queue.
fn deliver(
    alloc: Global,
    nodes: &mut Vec<Node>,
    crossing: Crossing,
    queue: &mut VecDeque<Crossing>,
) -> Result<(), NoMemory>
    requires turn { (m : Turn)
        × ((k : ℕ) × (IsTurn m × (HasDelivered m k nodes.old.items (crossing ∷ queue.old.items)
        × (k < length m.net.wires)))) }
    requires few { All (λ x. left x.fate < 2 ^ 57) nodes.old.items }
    ensures ok { OnOk result ((m : Turn) (k : ℕ) → IsTurn m
        → HasDelivered m k nodes.old.items (crossing ∷ queue.old.items) → k < length m.net.wires
        → HasDelivered m (k + 1) nodes.new.items queue.new.items) }
    ensures others { (b : ℕ) → b ≢ crossing.to.bridge → slice_get nodes.new.items b
        ≡ slice_get nodes.old.items b }
    ensures fates { OnOk result (AreEach (λ b x y. left y.fate ≤ left x.fate) nodes.old.items
        nodes.new.items) }
{
    deliveries_end_soon();
    bridges_handle();
    // That it is below 4,160 is a fact of its type.
    let _ = crossing.to.port.number();
    let bridge = crossing.to.bridge as usize;
    let_come(alloc, &mut nodes[bridge], crossing, queue)
}

/// Frames between bridges arrive, one after another, until none is left. So many wires there are,
/// and no more deliveries. Answers to which bridges they came.
fn deliver_all(
    alloc: Global,
    nodes: &mut Vec<Node>,
    wires: usize,
    queue: &mut VecDeque<Crossing>,
) -> Result<BridgeSet, NoMemory>
    requires turn { (m : Turn) × (IsTurn m × (HasDelivered m 0 nodes.old.items queue.old.items
        × (wires ≡ length m.net.wires))) }
    requires few { All (λ x. left x.fate < 2 ^ 57) nodes.old.items }
    ensures ok { OnOk result ((m : Turn) → IsTurn m
        → HasDelivered m 0 nodes.old.items queue.old.items → wires ≡ length m.net.wires
        → HasPlayed m.net m.bridge m.arrival m.dones m.told nodes.new.items queue.new.items) }
    ensures others { IfOk result (λ touched. AreSameBut touched nodes.old.items nodes.new.items) }
    ensures fates { OnOk result (AreEach (λ b x y. left y.fate ≤ left x.fate) nodes.old.items
        nodes.new.items) }
{
    deliveries_end_soon();
    let mut touched = BridgeSet::none();
    for _delivery in 0..wires {
        let Some(crossing) = queue.pop_front() else {
            return Ok(touched);
        };
        touched.mark(crossing.to.bridge as usize);
        deliver(alloc, nodes, crossing, queue)?;
    }
    Ok(touched)
}

/// A frame arrives at a bridge, and what leaves there for it is put at the end of the queue.
fn begin(
    alloc: Global,
    nodes: &mut Vec<Node>,
    queue: &mut VecDeque<Crossing>,
    bridge: u8,
    arrival: &Arrival,
) -> Result<(), NoMemory>
    requires can { (n : Wired)
        × ((s : Dones) × ((told : Dones) × IsComing n bridge arrival.now s told nodes.old.items
        queue.old.items)) }
    requires few { All (λ x. left x.fate < 2 ^ 57) nodes.old.items }
    ensures ok { OnOk result ((n : Wired) (s told : Dones)
        → IsComing n bridge arrival.now s told nodes.old.items queue.old.items
        → Begins n bridge arrival.now s told nodes.new.items queue.new.items) }
    ensures others { (b : ℕ) → b ≢ bridge → slice_get nodes.new.items b
        ≡ slice_get nodes.old.items b }
    ensures fates { OnOk result (AreEach (λ b x y. left y.fate ≤ left x.fate) nodes.old.items
        nodes.new.items) }
{
    bridges_handle();
    enter(alloc, &mut nodes[bridge as usize], arrival, queue)
}

/// A frame arrives at a bridge, and then each at the far end of its wire that leaves a wired port.
fn play_arrival(
    alloc: Global,
    nodes: &mut Vec<Node>,
    wires: usize,
    queue: &mut VecDeque<Crossing>,
    bridge: u8,
    arrival: &Arrival,
) -> Result<BridgeSet, NoMemory>
    requires can { (n : Wired)
        × ((s : Dones) × ((told : Dones)
        × (IsComing n bridge arrival.now s told nodes.old.items queue.old.items
        × (wires ≡ length n.wires)))) }
    requires few { All (λ x. left x.fate < 2 ^ 57) nodes.old.items }
    ensures ok { OnOk result ((n : Wired) (s told : Dones)
        → IsComing n bridge arrival.now s told nodes.old.items queue.old.items
        → wires ≡ length n.wires
        → HasPlayed n bridge arrival.now s told nodes.new.items queue.new.items) }
    ensures others { IfOk result (λ touched. AreSameBut touched nodes.old.items nodes.new.items) }
    ensures fates { OnOk result (AreEach (λ b x y. left y.fate ≤ left x.fate) nodes.old.items
        nodes.new.items) }
{
    begin(alloc, nodes, queue, bridge, arrival)?;
    let mut touched = deliver_all(alloc, nodes, wires, queue)?;
    touched.mark(bridge as usize);
    Ok(touched)
}

impl Net {
    ghost use Rattle.exb_net.specs.NetStates.{IsSetupOf, IsBegun, IsPlaying, IsOpen, Opens, Handled, Passes};

    /// The bridges of these setups, before their opening, each with the fate at its place; a fate
    /// is armed for the opening before.
    pub fn new(alloc: Global, setup: &NetSetup, fates: Vec<Box<dyn Fate>>) -> Result<Net, NoMemory>
        requires net { (n : Wired) × (IsSetupOf n setup.now × IsNet n) }
        requires whole { length fates.items ≡ length setup.now.setups }
        requires few { All (λ f. left f < 2 ^ 57) fates.items }
        ensures begun { IfOk result (λ made. (n : Wired) → IsSetupOf n setup.now → IsNet n
            → IsBegun n made) }
        ensures awake { IfOk result (λ made. made.failed ≡ false) }
        ensures fates { IfOk result (λ made. AreEach (λ b f x. left x.fate ≡ left f) fates.items
            made.nodes.items) }
    {
        let mut fates = fates;
        let mut nodes = Vec::new(alloc);
        match make_all(alloc, setup, &mut fates, &mut nodes) {
            Ok(()) => Ok(Net {
                nodes,
                queue: VecDeque::new(alloc),
                wires: setup.wires.as_slice().len(),
                came: 0,
                failed: false,
                alloc,
                touched: BridgeSet::all(),
            }),
            Err(_) => {
                // By a call, since a block's end is far longer to prove where it lets worlds go.
                drop(nodes);
                Err(NoMemory)
            }
        }
    }

    /// Opens all bridges: the extenders of each are heard and opened, and each of its ports goes
    /// up, or is refused that; settled and marked.
    pub fn open(&mut self) -> Result<(), WorldFault>
        requires few { All (λ x. left x.fate < 2 ^ 57) self.old.nodes.items }
        ensures ok { OnOk result ((n : Wired) → IsBegun n self.old → Opens n self.new) }
        ensures failed { (result ≡ Err WorldFault.Failed) ↔ (self.old.failed ≡ true) }
        ensures memory { OnErr result (self.new.failed ≡ true) }
        ensures came { OnOk result (self.new.came ≡ self.old.came) }
        ensures fates { OnOk result (AreEach (λ b x y. left y.fate ≤ left x.fate)
            self.old.nodes.items self.new.nodes.items) }
    {
        opened_nets_run();
        if self.failed {
            return Err(WorldFault::Failed);
        }
        self.touched = BridgeSet::all();
        match open_all(&mut self.nodes) {
            Ok(()) => Ok(()),
            Err(_) => {
                self.failed = true;
                Err(WorldFault::Memory)
            }
        }
    }

    /// Seconds pass at all bridges, if there are any.
    pub fn tick(&mut self, seconds: u32) -> Result<(), WorldFault>
        requires opened { IsOpen self.old }
        requires can { (seconds == 0) ≡ false
            → All (λ x. Can (tree_of x.world) (world_of x.world) (Tick seconds))
            self.old.nodes.items }
        ensures ok { OnOk result ((n : Wired) (s told : Dones) → IsPlaying n s told self.old
            → Passes n seconds s told self.new) }
        ensures failed { (result ≡ Err WorldFault.Failed) ↔ (self.old.failed ≡ true) }
        ensures memory { OnErr result (self.new.failed ≡ true) }
        ensures came { OnOk result (self.new.came ≡ self.old.came) }
        ensures fates { OnOk result (AreEach (λ b x y. left y.fate ≤ left x.fate)
            self.old.nodes.items self.new.nodes.items) }
    {
        seconds_pass();
        if self.failed {
            return Err(WorldFault::Failed);
        }
        if seconds == 0 {
            return Ok(());
        }
        self.touched = BridgeSet::all();
        match pass_all(&mut self.nodes, seconds) {
            Ok(()) => Ok(()),
            Err(_) => {
                self.failed = true;
                Err(WorldFault::Memory)
            }
        }
    }

    /// A frame arrives at a bridge that no wire brings there, and all that follows is played: what
    /// leaves a wired port arrives at the far end of its wire, at the same moment, and so on until
    /// no frame is between bridges.
    pub fn arrive(&mut self, bridge: u8, arrival: &Arrival) -> Result<(), WorldFault>
        requires opened { self.old.failed ≡ false → (n : Wired)
            × ((s : Dones) × ((told : Dones) × (IsPlaying n s told self.old
            × (is_wired n.wires bridge arrival.now.port ≡ false)))) }
        requires here { bridge < length self.old.nodes.items }
        requires can { (x : _) → slice_get self.old.nodes.items bridge ≡ Some x
            → Can (tree_of x.world) (world_of x.world) (Arrive arrival.now) }
        requires few { self.old.came < 2 ^ 62 }
        requires fates { All (λ x. left x.fate < 2 ^ 57) self.old.nodes.items }
        ensures ok { OnOk result ((n : Wired) (s told : Dones) → IsPlaying n s told self.old
            → is_wired n.wires bridge arrival.now.port ≡ false
            → Handled n bridge (Arrive arrival.now) s told self.new) }
        ensures failed { (result ≡ Err WorldFault.Failed) ↔ (self.old.failed ≡ true) }
        ensures memory { OnErr result (self.new.failed ≡ true) }
        ensures came { OnOk result (self.new.came ≡ self.old.came + 1) }
        ensures fates { OnOk result (AreEach (λ b x y. left y.fate ≤ left x.fate)
            self.old.nodes.items self.new.nodes.items) }
    {
        if self.failed {
            return Err(WorldFault::Failed);
        }
        let nodes = &mut self.nodes;
        let queue = &mut self.queue;
        match play_arrival(self.alloc, nodes, self.wires, queue, bridge, arrival) {
            Ok(touched) => {
                self.touched.join(touched);
                self.came += 1;
                Ok(())
            }
            Err(_) => {
                self.touched = BridgeSet::all();
                self.failed = true;
                Err(WorldFault::Memory)
            }
        }
    }

    /// A command is given to a bridge, which settles. Its fate is armed with the command's plan
    /// just before. Nothing leaves for it.
    pub fn command(&mut self, bridge: u8, command: &Timed) -> Result<(), WorldFault>
        requires opened { IsOpen self.old }
        requires here { bridge < length self.old.nodes.items }
        requires can { (x : _) → slice_get self.old.nodes.items bridge ≡ Some x
            → Can (tree_of x.world) (world_of x.world) (Order command.now.command) }
        requires fate { (x : _) → slice_get self.old.nodes.items bridge ≡ Some x
            → left x.fate + length command.now.fate < 2 ^ 57 }
        ensures ok { OnOk result ((n : Wired) (s told : Dones) → IsPlaying n s told self.old
            → Handled n bridge (Order command.now.command) s told self.new) }
        ensures failed { (result ≡ Err WorldFault.Failed) ↔ (self.old.failed ≡ true) }
        ensures memory { OnErr result (self.new.failed ≡ true) }
        ensures came { OnOk result (self.new.came ≡ self.old.came) }
        ensures fates { OnOk result
            (AreEach (λ b x y. left y.fate ≤ left x.fate
            + (if b == bridge then length command.now.fate else 0)) self.old.nodes.items
            self.new.nodes.items) }
    {
        bridges_handle();
        if self.failed {
            return Err(WorldFault::Failed);
        }
        self.touched.mark(bridge as usize);
        match order(&mut self.nodes[bridge as usize], command) {
            Ok(()) => Ok(()),
            Err(_) => {
                self.failed = true;
                Err(WorldFault::Memory)
            }
        }
    }

    /// The world of a bridge.
    pub fn world(&self, bridge: u8) -> &World
        requires { bridge < length self.now.nodes.items }
        ensures { (x : _) → slice_get self.now.nodes.items bridge ≡ Some x → result.now ≡ x.world }
    {
        &self.nodes[bridge as usize].world
    }

    /// A bridge to which something may have come since it was cleared, the first from this one on:
    /// to those before it nothing came. None where nothing came to any from this one on.
    pub fn first_touched(&self, from: usize) -> Option<usize>
        ensures found { IfSome result (λ b. (from ≤ b) × (b < length self.now.nodes.items)
            × AreQuietFrom from b self.now.nodes.items) }
        ensures none { IfNone result (AreQuietFrom from (length self.now.nodes.items)
            self.now.nodes.items) }
    {
        let Some(bridge) = self.touched.first_from(from) else {
            return None;
        };
        if bridge < self.nodes.len() {
            Some(bridge)
        } else {
            None
        }
    }

    /// Forgets what was told and has left, of all bridges, and changes nothing else.
    pub fn clear(&mut self)
        ensures ok { (n : Wired) (s told : Dones) → IsPlaying n s told self.old
            → IsPlaying n s s self.new }
        ensures failed { self.new.failed ≡ self.old.failed }
        ensures came { self.new.came ≡ self.old.came }
        ensures fates { AreEach (λ b x y. left y.fate ≤ left x.fate) self.old.nodes.items
            self.new.nodes.items }
    {
        clear_all(&mut self.nodes, self.touched);
        self.touched = BridgeSet::none();
    }
}
