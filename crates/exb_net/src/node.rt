//! A bridge of a net.
ghost use Rattle.std.specs.Prelude.{All, ◌≡◌, ◌∷◌, [], ◌+◌, ◌<◌, ◌≤◌, ◌^◌, IfOk, OnOk, length, map, false};
ghost use Rattle.exb_model.specs.Setup.{IsValid, limits_of, shape_of};
ghost use Rattle.exb_model.specs.Tree.{external_ports};
ghost use Rattle.exb_world_spec.specs.AllowedSteps.{Can};
ghost use Rattle.exb_world_spec.specs.Worlds.{Arrive, Order, Tick};
ghost use Rattle.exb_world_spec.specs.Runs.ReachedWorlds.{HasVid, beginning};
ghost use Rattle.exb_world.specs.WorldContracts.{bounds_of, tree_of, world_of, IsQuiet};
ghost use Rattle.exb_schedule.specs.PlayedSegments.{IsPlayedOut};
ghost use Rattle.exb_net.specs.WiredPorts.{ends_over, next_in, with_next};
ghost use Rattle.exb_net.specs.Nodes.{HasDone, HasEntered, HasForgotten, HasPassed, come_as};

use crate::crossing::{Crossing, send};
use crate::wired_ports::{WiredPort, ends_of, next_at, set_next};
use exb_fate::Fate;
use exb_model::arrival::Arrival;
use exb_model::memory::NoMemory;
use exb_model::setup::{Setup, Timed};
use exb_net_spec::wires::Wire;
use exb_schedule::{World, WorldFault, count_left, eager};
use std::alloc::Global;
use std::collections::VecDeque;
use std::slice;

/// A bridge of a net: its world, the fate of its control words, and its wired ports in port order.
#[derive(Drop)]
pub struct Node {
    pub world: World,
    pub fate: Box<dyn Fate>,
    pub ends: Vec<WiredPort>,
}

impl Node {
    /// The bridge of that number, before its opening.
    pub fn new(
        alloc: Global,
        bridge: usize,
        setup: &Setup,
        wires: &[Wire],
        fate: Box<dyn Fate>,
    ) -> Result<Node, NoMemory>
        requires { IsValid setup.now }
        ensures tree { IfOk result (λ made. tree_of made.world ≡ shape_of setup.now) }
        ensures limits { IfOk result (λ made. bounds_of made.world ≡ limits_of setup.now) }
        ensures world { IfOk result (λ made. world_of made.world ≡ beginning setup.now) }
        ensures quiet { IfOk result (λ made. IsQuiet made.world) }
        ensures awake { IfOk result (λ made. made.world.failed ≡ false) }
        ensures ends { IfOk result (λ made. made.ends.items
            ≡ ends_over wires.now bridge (λ q. 1) (external_ports (shape_of setup.now))) }
        ensures vids { IfOk result (λ made. All HasVid setup.now.start) }
        ensures fate { IfOk result (λ made. left made.fate ≡ left fate) }
    {
        let world = World::new(alloc, setup, false)?;
        match ends_of(alloc, wires, bridge, world.tree()) {
            Ok(ends) => Ok(Node { world, fate, ends }),
            Err(_) => {
                // By a call, since a block's end is far longer to prove where it lets a world go.
                drop(world);
                Err(NoMemory)
            }
        }
    }
}

/// A frame arrives at a bridge, which settles and is marked.
fn take_in(node: &mut Node, arrival: &Arrival) -> Result<(), NoMemory>
    requires can { Can (tree_of node.old.world) (world_of node.old.world) (Arrive arrival.now) }
    requires few { left node.old.fate < 2 ^ 57 }
    ensures ok { OnOk result (IsPlayedOut (Arrive arrival.now ∷ []) node.old.world node.new.world) }
    ensures ends { node.new.ends ≡ node.old.ends }
    ensures fate { left node.new.fate ≤ left node.old.fate }
{
    let fate = &mut *node.fate;
    match eager(&mut node.world, fate, 0, &[], slice::from_ref(arrival)) {
        Ok(()) => Ok(()),
        Err(_) => Err(NoMemory),
    }
}

/// A bridge is opened: it settles and is marked.
pub(crate) fn open_one(node: &mut Node) -> Result<(), WorldFault>
    requires { left node.old.fate < 2 ^ 57 }
    ensures ok { OnOk result (HasDone [] node.old.world node.new.world node.old.ends.items
        node.new.ends.items) }
    ensures fate { left node.new.fate ≤ left node.old.fate }
{
    eager(&mut node.world, &mut *node.fate, 0, &[], &[])
}

/// Seconds pass at a bridge.
pub(crate) fn let_pass(node: &mut Node, seconds: u32) -> Result<(), WorldFault>
    requires { Can (tree_of node.old.world) (world_of node.old.world) (Tick seconds) }
    ensures ok { OnOk result (HasPassed seconds node.old.world node.new.world node.old.ends.items
        node.new.ends.items) }
    ensures fate { left node.new.fate ≤ left node.old.fate }
{
    node.world.tick(seconds)
}

/// A bridge forgets what was told and has left.
pub(crate) fn forget(node: &mut Node)
    ensures forgotten { HasForgotten node.old.world node.new.world node.old.ends.items
        node.new.ends.items }
    ensures fate { left node.new.fate ≤ left node.old.fate }
{
    node.world.clear();
}

/// A command is given to a bridge, which settles and is marked.
pub fn order(node: &mut Node, command: &Timed) -> Result<(), WorldFault>
    requires can { Can (tree_of node.old.world) (world_of node.old.world)
        (Order command.now.command) }
    requires few { left node.old.fate + length command.now.fate < 2 ^ 57 }
    ensures ok { OnOk result (HasDone (Order command.now.command ∷ []) node.old.world node.new.world
        node.old.ends.items node.new.ends.items) }
    ensures fate { left node.new.fate ≤ left node.old.fate + length command.now.fate }
{
    let fate = &mut *node.fate;
    eager(&mut node.world, fate, 0, slice::from_ref(command), &[])
}

/// A frame arrives at a bridge, which settles; and what has left its wired ports for it is put at
/// the end of the queue.
pub fn enter(
    alloc: Global,
    node: &mut Node,
    arrival: &Arrival,
    queue: &mut VecDeque<Crossing>,
) -> Result<(), NoMemory>
    requires can { Can (tree_of node.old.world) (world_of node.old.world) (Arrive arrival.now) }
    requires few { left node.old.fate < 2 ^ 57 }
    ensures ok { OnOk result (HasEntered arrival.now node.old.ends.items node.old.world
        node.new.world queue.old.items queue.new.items) }
    ensures ends { node.new.ends ≡ node.old.ends }
    ensures fate { left node.new.fate ≤ left node.old.fate }
{
    let before = count_left(node.world.left());
    take_in(node, arrival)?;
    let left = node.world.left();
    send(alloc, node.ends.as_slice(), left, before, queue)
}

/// A frame that crossed a wire arrives at its far end, with the port's next index.
pub fn let_come(
    alloc: Global,
    node: &mut Node,
    crossing: Crossing,
    queue: &mut VecDeque<Crossing>,
) -> Result<(), NoMemory>
    requires can { Can (tree_of node.old.world) (world_of node.old.world)
        (Arrive (come_as node.old.ends.items crossing)) }
    requires few { left node.old.fate < 2 ^ 57 }
    ensures ok { OnOk result (HasEntered (come_as node.old.ends.items crossing) node.old.ends.items
        node.old.world node.new.world queue.old.items queue.new.items) }
    ensures ends { node.new.ends.items
        ≡ map (with_next crossing.to.port (next_in node.old.ends.items crossing.to.port + 1))
        node.old.ends.items }
    ensures fate { left node.new.fate ≤ left node.old.fate }
{
    let port = crossing.to.port;
    let index = next_at(node.ends.as_slice(), port);
    let arrival = Arrival {
        port,
        index,
        moment: crossing.moment,
        bytes: crossing.bytes,
    };
    set_next(&mut node.ends, port, index + 1);
    enter(alloc, node, &arrival, queue)
}
