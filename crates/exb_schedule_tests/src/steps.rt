//! A world before its first step, what is on its links, and its single steps, each asked of it
//! before it is made. They have no clauses, so that what stands above them is proved without any of
//! a world's.
use exb_fate::{Fate, ScriptFate};
use exb_link::Counts;
use exb_model::arrival::Arrival;
use exb_model::bytes::Bytes;
use exb_model::port::PortId;
use exb_model::setup::{Timed, Verdict};
use exb_schedule::{Step, Way, World, settle};
use exb_topology::Topology;
use std::alloc::Global;
use std::process::Abort;

/// More verdicts than any fate of these tests may give.
const MANY: u64 = 1_000_000_000;

/// A fate that does as it is armed to.
pub(crate) fn scripted(rt: &impl Abort, alloc: Global) -> Box<dyn Fate> {
    Box::new(alloc, ScriptFate::new(alloc)).expect(rt, "memory")
}

/// A world of a topology in which nothing has happened yet, with a trace or without.
pub(crate) fn begun(rt: &impl Abort, alloc: Global, topology: &Topology, trace: bool) -> World {
    assert!(rt; topology.setup.valid());
    World::new(alloc, &topology.setup, trace).expect(rt, "memory")
}

/// How many words are on a direction.
pub(crate) fn counts(rt: &impl Abort, world: &World, link: u8, way: Way) -> Counts {
    assert!(rt; world.tree().is_extender(link));
    world.counts(link, way)
}

/// Whether a control word of a direction is free.
pub(crate) fn is_free(rt: &impl Abort, world: &World, link: u8, way: Way, at: u64) -> bool {
    assert!(rt; world.tree().is_extender(link));
    world.free_at(link, way, at)
}

/// The first data word of a direction is taken.
pub(crate) fn carry(rt: &impl Abort, world: &mut World, link: u8, way: Way) {
    assert!(rt; world.can(&Step::Carry { link, way }));
    world.carry(link, way).expect(rt, "memory");
}

/// A control word is delivered, and may stay on its link too.
pub(crate) fn deliver(rt: &impl Abort, world: &mut World, link: u8, way: Way, at: u64, keep: bool) {
    assert!(rt;
        world.can(&Step::Control {
            link,
            way,
            at,
            keep,
        })
    );
    world.deliver(link, way, at, keep).expect(rt, "memory");
}

/// A control word is lost.
pub(crate) fn lose(rt: &impl Abort, world: &mut World, link: u8, way: Way, at: u64) {
    assert!(rt; world.can(&Step::Lose { link, way, at }));
    world.lose(link, way, at).expect(rt, "memory");
}

/// A beat passes.
pub(crate) fn beat(rt: &impl Abort, world: &mut World) {
    assert!(rt; world.can(&Step::Beat));
    world.beat().expect(rt, "memory");
}

/// A record arrives, at the moment 0.
pub(crate) fn arrive(rt: &impl Abort, world: &mut World, port: PortId, index: u64, frame: Vec<u8>) {
    let arrival = Arrival {
        port,
        index,
        moment: 0,
        bytes: Bytes::from_vec(frame),
    };
    let arrival = &arrival;
    assert!(rt; world.can(&Step::Arrive { arrival }));
    world.arrive(arrival).expect(rt, "memory");
}

// The fate is armed.
fn arm(rt: &impl Abort, fate: &mut dyn Fate, plan: &[Verdict]) {
    assert!(rt; fate.left() < MANY);
    assert!(rt; plan.len() < 1_000_000);
    fate.arm(plan).expect(rt, "memory");
}

/// The fate is armed with so many plain deliveries.
pub(crate) fn arm_with(rt: &impl Abort, alloc: Global, fate: &mut dyn Fate, count: u64) {
    let mut plan = Vec::new(alloc);
    for _ in 0..count {
        plan.push(Verdict::Pass).expect(rt, "memory");
    }
    arm(rt, fate, plan.as_slice());
}

// A command is given.
fn command(rt: &impl Abort, world: &mut World, timed: &Timed) {
    let command = &timed.command;
    assert!(rt; world.can(&Step::Command { command }));
    world.order(command).expect(rt, "memory");
}

/// A command is given, for which the fate is armed just before.
pub(crate) fn give(rt: &impl Abort, world: &mut World, fate: &mut dyn Fate, timed: &Timed) {
    arm(rt, fate, timed.fate.as_slice());
    command(rt, world, timed);
}

/// How many of so many verdicts were given with which the fate was armed.
pub(crate) fn asked(fate: &dyn Fate, armed: u64) -> u64 {
    armed.saturating_sub(fate.left())
}

// What is settled is marked.
fn mark(rt: &impl Abort, world: &mut World) {
    assert!(rt; world.can(&Step::Mark));
    world.mark().expect(rt, "memory");
}

// How many rounds a settling may take: 64 for each of so many verdicts that may not be Pass, each
// planned exchange, and one more.
fn bound_of(rt: &impl Abort, world: &World, left: u64) -> u64 {
    let planned = world.planned().expect(rt, "memory");
    let all = left.saturating_add(planned);
    all.saturating_add(1).saturating_mul(64)
}

// All settles; how many rounds that took.
fn settled(rt: &impl Abort, world: &mut World, fate: &mut dyn Fate) -> u64 {
    assert!(rt; fate.left() < MANY);
    settle(world, fate).expect(rt, "memory")
}

// All settles within its bound, and in as many beats as it says.
fn settle_in_bound(rt: &impl Abort, world: &mut World, fate: &mut dyn Fate) {
    let bound = bound_of(rt, world, fate.left());
    let before = world.beats();
    let made = settled(rt, world, fate);
    assert!(rt; made <= bound);
    assert!(rt; world.beats().saturating_sub(before) == made);
}

/// All settles within its bound, and is marked.
pub(crate) fn rest(rt: &impl Abort, world: &mut World, fate: &mut dyn Fate) {
    settle_in_bound(rt, world, fate);
    mark(rt, world);
}
