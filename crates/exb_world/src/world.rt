//! The network as one value, and its calls.
ghost use Rattle.std.specs.Prelude.{◌≡◌, ◌≢◌, ◌↔◌, ◌<◌, ◌≤◌, ℕ, [], true, false, All, IfNone, IfOk, IfSome, IsTrue, OnErr, OnOk, Some, length, filter, slice_get};
ghost use Rattle.exb_model.specs.Setup.{IsValid, limits_of, shape_of, start_of};
ghost use Rattle.exb_model.specs.Tree.{is_extender};
ghost use Rattle.exb_link.specs.LinkFrames.{is_control, is_data, leading};
ghost use Rattle.exb_control_spec.specs.PlannedExchanges.{planned};
ghost use Rattle.exb_control_spec.specs.Decisions.{decide};
ghost use Rattle.exb_world_spec.specs.AllowedSteps.{Can, IsSettled};
ghost use Rattle.exb_world_spec.specs.Steps.{words_on};
ghost use Rattle.exb_world_spec.specs.Worlds.{Arrive, Beat, Carry, Control, Lose, Mark, Order, Tick, first_world};
ghost use Rattle.exb_world.specs.IdleExtenders.{IsIdle};
ghost use Rattle.exb_world_spec.specs.Runs.ReachedWorlds.{HasVid, MayTake, IsReached};
ghost use Rattle.exb_model.specs.DeviceSets.{IsNumber};
ghost use Rattle.exb_world.specs.Steps.{way_of};
ghost use Rattle.exb_world.specs.LinkTurns.{order_of, IsTurn};
ghost use Rattle.exb_world.specs.MachineWorlds.{world_in, IsAt};

use crate::command_facts::name_vlans;
use crate::link_turns::LinkTurn;
use crate::parts::WorldParts;
use crate::step::{Step, Way};
use crate::{allowed_steps, link_turns, live_steps};
use exb_bridge::{StepScratch, TreeIndex};
use exb_link::{Counts, Link};
use exb_model::arrival::Arrival;
use exb_model::command::Command;
use exb_model::event::Event;
use exb_model::memory::NoMemory;
use exb_model::setup::Setup;
use exb_model::trace::TraceLine;
use exb_model::tree::Tree;
use exb_outbox::Left;
use exb_world_spec::laws::{begins_written, setups_begin_sound};
use std::alloc::Global;
use std::marker::{Model, PhantomData};

/// Why a step did not come to its end.
#[derive(Clone, Copy, Debug)]
pub enum WorldFault {
    /// Memory ran out in this step.
    Memory,
    /// Memory ran out in an earlier step.
    Failed,
}

/// The controlling bridge with all extenders and links, and what has happened since the last
/// `clear`.
pub struct World {
    site: TreeIndex,
    core: WorldParts,
    room: StepScratch,
    failed: bool,
    /// Names the types of a step, for functions that make one.
    steps: PhantomData<Step<'static>>,
}

impl Drop for World {
    fn drop(self) {
        let World {
            site: _,
            core: _,
            room: _,
            failed: _,
            steps: _,
        } = self;
    }
}

impl Model for World {
    ghost use Rattle.exb_world.specs.WorldContracts.{Network};

    ghost Value = { Network };

    ghost use Rattle.exb_world.specs.WorldContracts.{network_of, IsKept};

    ghost view = { λ w. network_of w.site w.core w.room.post.log w.failed };

    ghost invariant = { λ w. IsKept w.site w.core w.failed };
}

impl World {
    ghost use Rattle.exb_world.specs.WorldContracts.{world_of, tree_of, bounds_of, step_of, IsQuiet, IsSame, IsStepped};

    /// The world of a setup, with a trace of all that passes on links and ports where that is
    /// wanted. Nothing has happened in it yet.
    pub fn new(alloc: Global, setup: &Setup, trace: bool) -> Result<World, NoMemory>
        requires { IsValid setup.now }
        ensures world { IfOk result (λ made. world_of made ≡ first_world (shape_of setup.now)
            (limits_of setup.now) (start_of setup.now) setup.now.ageing) }
        ensures tree { IfOk result (λ made. tree_of made ≡ shape_of setup.now) }
        ensures limits { IfOk result (λ made. bounds_of made ≡ limits_of setup.now) }
        ensures quiet { IfOk result IsQuiet }
        ensures awake { IfOk result (λ made. made.failed ≡ false) }
        ensures tracing { IfOk result (λ made. made.log.tracing ≡ trace) }
        ensures vids { All HasVid setup.now.start }
    {
        name_vlans(setup.start.as_slice());
        setups_begin_sound();
        begins_written();
        let site = TreeIndex::new(alloc, setup)?;
        let core = WorldParts::new(alloc, setup)?;
        Ok(World {
            site,
            core,
            room: StepScratch::new(alloc, trace),
            failed: false,
            steps: PhantomData,
        })
    }

    /// Whether a step may be made, where memory hasn't run out. An arrival: the port is external,
    /// the index is the port's next one and below 2^63, and the frame has at most 262,144 bytes. A
    /// carry: a data word is in that direction. A control word: it is there, and to be delivered it
    /// is free: no data word sent before it is left. A tick: it has at least one second, and the
    /// clock stays below 2^63. A command: its ports are external, and fewer than 65,536 were given.
    /// A mark: nothing is left to be done.
    pub fn can(&self, step: &Step<'_>) -> bool
        ensures may { result ≡ true → Can (tree_of self.now) (world_of self.now)
            (step_of step.now) }
        ensures exact { self.now.failed ≡ false → Can (tree_of self.now) (world_of self.now)
            (step_of step.now) → result ≡ true }
    {
        !self.failed && allowed_steps::can(&self.site, &self.core, step)
    }

    /// A frame of at most 262,144 bytes arrives at an external port. Like each kind of step it is
    /// put into the place of its call.
    #[inline(always)]
    pub fn arrive(&mut self, arrival: &Arrival) -> Result<(), WorldFault>
        requires { Can (tree_of self.old) (world_of self.old) (Arrive arrival.now) }
        ensures ok { OnOk result (IsStepped (Arrive arrival.now) self.old self.new) }
        ensures may { OnOk result (MayTake (tree_of self.old) (world_of self.old)
            (Arrive arrival.now)) }
        ensures failed { (result ≡ Err WorldFault.Failed) ↔ (self.old.failed ≡ true) }
        ensures memory { OnErr result (self.new.failed ≡ true) }
    {
        if self.failed {
            return Err(WorldFault::Failed);
        }
        let made = live_steps::arrive(&self.site, arrival, &mut self.room, &mut self.core);
        closed(made, &mut self.failed)
    }

    /// The first data word of a direction is taken.
    #[inline(always)]
    pub fn carry(&mut self, link: u8, way: Way) -> Result<(), WorldFault>
        requires { Can (tree_of self.old) (world_of self.old) (Carry link (way_of way)) }
        ensures ok { OnOk result (IsStepped (Carry link (way_of way)) self.old self.new) }
        ensures may { OnOk result (MayTake (tree_of self.old) (world_of self.old)
            (Carry link (way_of way))) }
        ensures failed { (result ≡ Err WorldFault.Failed) ↔ (self.old.failed ≡ true) }
        ensures memory { OnErr result (self.new.failed ≡ true) }
    {
        if self.failed {
            return Err(WorldFault::Failed);
        }
        let made = live_steps::carry(&self.site, link, way, &mut self.room, &mut self.core);
        closed(made, &mut self.failed)
    }

    /// The control word at a position, before which no data word is left, is delivered; it stays on
    /// the link too if it is kept.
    #[inline(always)]
    pub fn deliver(&mut self, link: u8, way: Way, at: u64, keep: bool) -> Result<(), WorldFault>
        requires { Can (tree_of self.old) (world_of self.old) (Control link (way_of way) at keep) }
        ensures ok { OnOk result (IsStepped (Control link (way_of way) at keep) self.old self.new) }
        ensures may { OnOk result (MayTake (tree_of self.old) (world_of self.old)
            (Control link (way_of way) at keep)) }
        ensures failed { (result ≡ Err WorldFault.Failed) ↔ (self.old.failed ≡ true) }
        ensures memory { OnErr result (self.new.failed ≡ true) }
    {
        if self.failed {
            return Err(WorldFault::Failed);
        }
        let made = live_steps::deliver(
            &self.site,
            link,
            way,
            at,
            keep,
            &mut self.room,
            &mut self.core,
        );
        closed(made, &mut self.failed)
    }

    /// The control word at a position is lost.
    #[inline(always)]
    pub fn lose(&mut self, link: u8, way: Way, at: u64) -> Result<(), WorldFault>
        requires { Can (tree_of self.old) (world_of self.old) (Lose link (way_of way) at) }
        ensures ok { OnOk result (IsStepped (Lose link (way_of way) at) self.old self.new) }
        ensures may { OnOk result (MayTake (tree_of self.old) (world_of self.old)
            (Lose link (way_of way) at)) }
        ensures failed { (result ≡ Err WorldFault.Failed) ↔ (self.old.failed ≡ true) }
        ensures memory { OnErr result (self.new.failed ≡ true) }
    {
        if self.failed {
            return Err(WorldFault::Failed);
        }
        let made = live_steps::lose(&self.site, link, way, at, &mut self.room, &mut self.core);
        closed(made, &mut self.failed)
    }

    /// A beat passes at all ends.
    #[inline(always)]
    pub fn beat(&mut self) -> Result<(), WorldFault>
        requires { Can (tree_of self.old) (world_of self.old) Beat }
        ensures ok { OnOk result (IsStepped Beat self.old self.new) }
        ensures may { OnOk result (MayTake (tree_of self.old) (world_of self.old) Beat) }
        ensures failed { (result ≡ Err WorldFault.Failed) ↔ (self.old.failed ≡ true) }
        ensures memory { OnErr result (self.new.failed ≡ true) }
    {
        if self.failed {
            return Err(WorldFault::Failed);
        }
        let made = live_steps::beat(&self.site, &mut self.room, &mut self.core);
        closed(made, &mut self.failed)
    }

    /// The clock goes on, by at least one second. It stays below 2^63.
    #[inline(always)]
    pub fn tick(&mut self, seconds: u32) -> Result<(), WorldFault>
        requires { Can (tree_of self.old) (world_of self.old) (Tick seconds) }
        ensures ok { OnOk result (IsStepped (Tick seconds) self.old self.new) }
        ensures may { OnOk result (MayTake (tree_of self.old) (world_of self.old) (Tick seconds)) }
        ensures failed { (result ≡ Err WorldFault.Failed) ↔ (self.old.failed ≡ true) }
        ensures memory { OnErr result (self.new.failed ≡ true) }
    {
        if self.failed {
            return Err(WorldFault::Failed);
        }
        let made = live_steps::tick(&self.site, seconds, &mut self.room, &mut self.core);
        closed(made, &mut self.failed)
    }

    /// A command is given.
    #[inline(always)]
    pub fn order(&mut self, command: &Command) -> Result<(), WorldFault>
        requires { Can (tree_of self.old) (world_of self.old) (Order command.now) }
        ensures ok { OnOk result (IsStepped (Order command.now) self.old self.new) }
        ensures may { OnOk result (MayTake (tree_of self.old) (world_of self.old)
            (Order command.now)) }
        ensures failed { (result ≡ Err WorldFault.Failed) ↔ (self.old.failed ≡ true) }
        ensures memory { OnErr result (self.new.failed ≡ true) }
    {
        if self.failed {
            return Err(WorldFault::Failed);
        }
        let made = live_steps::order(&self.site, command, &mut self.room, &mut self.core);
        closed(made, &mut self.failed)
    }

    /// Nothing is left to be done, and that is marked.
    #[inline(always)]
    pub fn mark(&mut self) -> Result<(), WorldFault>
        requires { Can (tree_of self.old) (world_of self.old) Mark }
        ensures ok { OnOk result (IsStepped Mark self.old self.new) }
        ensures may { OnOk result (MayTake (tree_of self.old) (world_of self.old) Mark) }
        ensures failed { (result ≡ Err WorldFault.Failed) ↔ (self.old.failed ≡ true) }
        ensures memory { OnErr result (self.new.failed ≡ true) }
    {
        if self.failed {
            return Err(WorldFault::Failed);
        }
        let made = live_steps::mark(&self.site, &mut self.room, &mut self.core);
        closed(made, &mut self.failed)
    }

    /// Whether memory ran out.
    pub fn has_failed(&self) -> bool
        ensures { result ≡ self.now.failed }
    {
        self.failed
    }

    /// Whether nothing is left to be done, and memory hasn't run out: no job waits and no change is
    /// at work, nothing is on any link, and every end of the transport is idle.
    pub fn settled(&self) -> bool
        ensures { IsTrue result ↔ ((self.now.failed ≡ false)
            × IsSettled (tree_of self.now) (world_of self.now)) }
    {
        !self.failed && is_settled(&self.site, &self.core)
    }

    /// How many beats there were; it stays at 2^64 - 1.
    pub fn beats(&self) -> u64
        ensures { result ≡ (world_of self.now).beats }
    {
        self.core.beats
    }

    /// What memory it is in.
    pub fn alloc(&self) -> Global {
        self.room.post.alloc
    }

    /// The tree.
    pub fn tree(&self) -> &Tree
        ensures { result.now ≡ tree_of self.now }
    {
        self.site.tree()
    }

    /// How many exchanges and announcements are still to come before all jobs are done.
    pub fn planned(&self) -> Result<u64, NoMemory>
        ensures { self.now.failed ≡ false
            → IfOk result (λ count. count ≡ planned (tree_of self.now)
            (decide (tree_of self.now) (bounds_of self.now)) (world_of self.now).control) }
    {
        self.core.bridge.control.planned()
    }

    /// How many data words and control words are on a direction.
    pub fn counts(&self, link: u8, way: Way) -> Counts
        requires { is_extender (tree_of self.now) link ≡ true }
        ensures frames { result.frames
            ≡ length (filter is_data (words_on link (way_of way) (world_of self.now))) }
        ensures control { result.control
            ≡ length (filter is_control (words_on link (way_of way) (world_of self.now))) }
    {
        self.site.has_low_number(link);
        link_of(&self.core, link, way).counts()
    }

    /// Whether there is a control word at a position of a direction, and no data word sent before
    /// it is left.
    pub fn free_at(&self, link: u8, way: Way, at: u64) -> bool
        requires { is_extender (tree_of self.now) link ≡ true }
        ensures { IsTrue result ↔ (at < leading (words_on link (way_of way) (world_of self.now))) }
    {
        self.site.has_low_number(link);
        link_of(&self.core, link, way).free_at(at)
    }

    /// The first extender, by number from one on, on whose link of a way a frame is.
    #[inline(always)]
    pub fn next_link(&self, way: Way, from: u8) -> Option<u8>
        requires { from ≤ 65 }
        ensures found { IfSome result (λ n. (from ≤ n) × (n < 65)
            × (words_on n (way_of way) (world_of self.now) ≢ [])) }
        ensures none { IfNone result ((n : ℕ) → from ≤ n
            → words_on n (way_of way) (world_of self.now) ≡ []) }
    {
        match way {
            Way::Up => self.core.up.next_busy(from),
            Way::Down => self.core.bridge.down.next_busy(from),
        }
    }

    /// The first direction of a way, from a place on in the order in which a round goes through
    /// them, that has a word.
    pub fn next_busy(&self, way: Way, from: u8) -> Option<LinkTurn>
        ensures found { IfSome result (λ turn. IsTurn (tree_of self.now) (way_of way)
            (world_of self.now) from turn) }
        ensures none { IfNone result ((k n : ℕ) → from ≤ k
            → slice_get (order_of (tree_of self.now) (way_of way)) k ≡ Some n
            → words_on n (way_of way) (world_of self.now) ≡ []) }
    {
        link_turns::next_busy(&self.site, &self.core, way, from)
    }

    /// What happened since the last `clear`, in order.
    pub fn events(&self) -> &[Event]
        ensures { result.now ≡ self.now.log.events }
    {
        self.room.post.log.events.as_slice()
    }

    /// For each Relay among the events, in order, whether its frame passed at its port.
    pub fn passed(&self) -> &[bool]
        ensures { result.now ≡ self.now.log.passed }
    {
        self.room.post.log.passed.as_slice()
    }

    /// What left the ports since the last `clear`, in order.
    pub fn left(&self) -> &[Left]
        ensures { result.now ≡ self.now.log.left }
    {
        self.room.post.log.left.as_slice()
    }

    /// The lines of the trace since the last `clear`, in order; none where no trace is kept.
    pub fn trace(&self) -> &[TraceLine]
        ensures { result.now ≡ self.now.log.lines }
    {
        self.room.post.log.lines.as_slice()
    }

    /// Marks that memory ran out in the middle of a work: no later step is made.
    pub fn fail(&mut self)
        ensures failed { self.new.failed ≡ true }
        ensures world { world_of self.new ≡ world_of self.old }
        ensures site { self.new.site ≡ self.old.site }
        ensures log { self.new.log ≡ self.old.log }
    {
        self.failed = true;
    }

    /// That a run of a valid setup comes to this network, where memory hasn't run out, as a fact
    /// for whoever calls this. It does nothing.
    pub fn is_reached(&self)
        ensures { self.now.failed ≡ false → IsReached (tree_of self.now) (bounds_of self.now)
            (world_of self.now) }
    {
        let _ = &self.core;
    }

    /// Forgets what happened, and changes nothing else.
    #[inline(always)]
    pub fn clear(&mut self)
        ensures world { world_of self.new ≡ world_of self.old }
        ensures same { IsSame self.old self.new }
        ensures quiet { IsQuiet self.new }
    {
        self.room.post.log.clear(&mut self.room.post.store);
    }
}

/// What a step answers that was made in a world: where memory ran out the world has failed.
#[inline(always)]
fn closed(made: Result<(), NoMemory>, failed: &mut bool) -> Result<(), WorldFault>
    ensures made { OnOk result ((made ≡ Ok tt) × (failed.new ≡ failed.old)) }
    ensures memory { OnErr result ((result ≡ Err WorldFault.Memory) × (failed.new ≡ true)) }
{
    match made {
        Ok(()) => Ok(()),
        Err(_) => {
            *failed = true;
            Err(WorldFault::Memory)
        }
    }
}

/// Whether nothing is left to be done.
pub(crate) fn is_settled(site: &TreeIndex, core: &WorldParts) -> bool
    requires { IsAt site.now core.now }
    ensures { IsTrue result ↔ IsSettled site.now.tree (world_in core.now) }
{
    core.bridge.control.settled() && are_idle(site, core)
}

/// The link of an extender in a direction.
pub(crate) fn link_of(core: &WorldParts, number: u8, way: Way) -> &Link
    requires { IsNumber number }
    ensures { result.now ≡ words_on number (way_of way) (world_in core.now) }
{
    match way {
        Way::Up => core.up.link(number),
        Way::Down => core.bridge.down.link(number),
    }
}

/// Whether nothing is on the link of any extender, and both ends of its transport are idle.
fn are_idle(site: &TreeIndex, core: &WorldParts) -> bool
    ensures { IsTrue result ↔ ((n : ℕ) → is_extender site.now.tree n ≡ true
        → IsIdle (world_in core.now) n) }
{
    let all = site.extenders();
    if core.bridge.near.are_sending(all) {
        return false;
    }
    if core.far.are_sending(all) {
        return false;
    }
    if core.bridge.down.have_words(all) {
        return false;
    }
    !core.up.have_words(all)
}
