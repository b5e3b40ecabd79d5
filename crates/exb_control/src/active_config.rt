//! The configuration in force with its numbers, and the change at work.
ghost use Rattle.std.specs.Prelude.{◌≡◌, IfOk, OnOk, OnErr};
ghost use Rattle.exb_model.specs.Setup.{Limits, IsValid, shape_of, limits_of, start_of};
ghost use Rattle.exb_config.specs.Tables.{bridge_of};
ghost use Rattle.exb_plan.specs.SpaceContents.{HasSpaces, held_by};
ghost use Rattle.exb_plan.specs.PlanValues.{IsAlike};
ghost use Rattle.exb_control_spec.specs.declared.plan.change.Change.{Change};
ghost use Rattle.exb_control_spec.specs.InitialState.{first_held};
ghost use Rattle.exb_control_spec.specs.Decisions.{bridge_after, release, decide};
ghost use Rattle.exb_config.specs.Pvids.{HasPvids};
ghost use Rattle.exb_control.specs.ActiveConfigs.{bridge_at_end, held_at_end};
ghost use Rattle.exb_control_spec.specs.Plans.HeldNumbers.{in_spaces};

use crate::decision::decide;
use crate::initial_channels::first_spaces;
use crate::release::release;
use crate::space_copies::copy_spaces;
use crate::stage::Stage;
use exb_config::Config;
use exb_control_spec::{Decision, Job};
use exb_model::command::Command;
use exb_model::event::Cause;
use exb_model::memory::NoMemory;
use exb_model::setup::Setup;
use exb_model::tree::Tree;
use exb_numbers::Spaces;
use exb_plan::GroupUses;
use std::alloc::Global;
use std::marker::Model;
use std::mem;
use std::rc::Rc;

/// The controlling bridge's configuration, the channels and groups that it holds for its extenders,
/// and the change at work, if there is one.
pub struct ActiveConfig {
    alloc: Global,
    /// Copies share it.
    tree: Rc<Tree>,
    /// How many channels the space of each cascade port has.
    channels: u16,
    /// How many groups it has.
    groups: u16,
    /// The configuration in force.
    config: Config,
    spaces: Spaces,
    /// How often the set of each group is a part of the configuration at the end of the change at
    /// work.
    uses: GroupUses,
    stage: Stage,
}

impl Drop for ActiveConfig {
    fn drop(self) {
        let ActiveConfig {
            alloc: _,
            tree: _,
            channels: _,
            groups: _,
            config: _,
            spaces: _,
            uses: _,
            stage: _,
        } = self;
    }
}

impl Model for ActiveConfig {
    ghost use Rattle.exb_control.specs.ActiveConfigs.{ActiveConfig, active_config_of};
    ghost use Rattle.exb_control.specs.GroupUses.{IsKept};

    ghost Value = { ActiveConfig };

    ghost view = { λ f. active_config_of f.tree.value f.channels f.groups f.config f.spaces
        f.stage };

    ghost invariant = { λ f. IsKept (active_config_of f.tree.value f.channels f.groups f.config
        f.spaces f.stage) f.uses };
}

// A tree that copies share.
fn shared(alloc: Global, tree: Tree) -> Result<Rc<Tree>, NoMemory>
    ensures { IfOk result (λ made. made.value ≡ tree) }
{
    match Rc::new(alloc, tree) {
        Ok(tree) => Ok(tree),
        Err(_) => Err(NoMemory),
    }
}

// Does what a job does to the configuration.
fn apply_job(config: &mut Config, job: &Job) -> Result<(), NoMemory>
    requires { HasPvids (bridge_of config.old) }
    ensures config { OnOk result (bridge_of config.new
        ≡ bridge_after job.now (bridge_of config.old)) }
    ensures pvids { HasPvids (bridge_of config.new) }
    ensures err { OnErr result (config.new ≡ config.old) }
{
    match job {
        Job::Opening { extender: _ } => Ok(()),
        Job::AutomaticUp { port } => config.apply(&Command::Up { port: *port }),
        Job::Ordered { number: _, command } => config.apply(command),
    }
}

// Lets the change at work take effect, if it hasn't yet.
fn take_effect(stage: &Stage, config: &mut Config) -> Result<(), NoMemory>
    requires { HasPvids (bridge_of config.old) }
    ensures config { OnOk result (bridge_of config.new
        ≡ bridge_at_end stage.now (bridge_of config.old)) }
    ensures pvids { HasPvids (bridge_of config.new) }
    ensures err { OnErr result (config.new ≡ config.old) }
{
    match stage {
        Stage::Prepared { job, change: _ } => apply_job(config, job),
        _ => Ok(()),
    }
}

// A copy of the configuration, in which the change at work has taken effect.
fn config_at_end(stage: &Stage, config: &Config) -> Result<Config, NoMemory>
    requires { HasPvids (bridge_of config.now) }
    ensures config { IfOk result (λ made. bridge_of made
        ≡ bridge_at_end stage.now (bridge_of config.now)) }
    ensures pvids { IfOk result (λ made. HasPvids (bridge_of made)) }
{
    let mut made = config.copy()?;
    take_effect(stage, &mut made)?;
    Ok(made)
}

// Frees the numbers of the change at work, if there is one.
fn free_numbers(stage: &Stage, tree: &Tree, spaces: &mut Spaces)
    requires { (l : Limits) × HasSpaces tree.now l spaces.old }
    ensures held { in_spaces tree.now (held_by spaces.new)
        ≡ held_at_end stage.now (in_spaces tree.now (held_by spaces.old)) }
    ensures alike { IsAlike spaces.old spaces.new }
{
    match stage {
        Stage::AtRest => {}
        Stage::Prepared { job: _, change } => release(tree, spaces, change),
        Stage::InForce { job: _, change } => release(tree, spaces, change),
    }
}

impl ActiveConfig {
    ghost use Rattle.exb_control.specs.ActiveConfigs.{IsActiveConfig, IsPrepared, IsInForce, bridge_in, held_in, stage_of, cause_of, held_after};
    ghost use Rattle.exb_control_spec.specs.JobsOfTree.{Fits};

    /// The bridge of a setup: its local external ports are present, and the commands of its start
    /// are applied. The cascade ports of its extenders have channels, in port order.
    pub fn new(alloc: Global, setup: &Setup) -> Result<ActiveConfig, NoMemory>
        requires { IsValid setup.now }
        ensures shape { IfOk result (λ made. made.shape ≡ shape_of setup.now) }
        ensures limits { IfOk result (λ made. made.limits ≡ limits_of setup.now) }
        ensures config { IfOk result (λ made. bridge_in made ≡ start_of setup.now) }
        ensures held { IfOk result (λ made. held_in made ≡ first_held (shape_of setup.now)
            (limits_of setup.now)) }
        ensures stage { IfOk result (λ made. made.stage ≡ Stage.AtRest) }
    {
        let tree = shared(alloc, Tree::new(alloc, setup)?)?;
        let uses = GroupUses::new(alloc, &tree, setup.groups)?;
        let spaces = first_spaces(alloc, &tree, setup.channels, setup.groups)?;
        let config = Config::first(alloc, &tree, setup)?;
        Ok(ActiveConfig {
            alloc,
            tree,
            channels: setup.channels,
            groups: setup.groups,
            config,
            spaces,
            uses,
            stage: Stage::AtRest,
        })
    }

    /// Decides a job whose turn has come: says why it is refused, or claims the numbers of its
    /// change, which is then at work. Refused or out of memory nothing changes.
    pub fn start(&mut self, job: &Job) -> Result<Option<Cause>, NoMemory>
        requires rest { self.old.stage ≡ Stage.AtRest }
        requires fits { Fits self.old.shape job.now }
        ensures cause { IfOk result (λ made. made
            ≡ cause_of (decide self.old.shape self.old.limits (bridge_in self.old)
            (held_in self.old) job.now)) }
        ensures held { OnOk result (held_in self.new
            ≡ held_after (decide self.old.shape self.old.limits (bridge_in self.old)
            (held_in self.old) job.now) (held_in self.old)) }
        ensures stage { OnOk result (self.new.stage
            ≡ stage_of job.now (decide self.old.shape self.old.limits (bridge_in self.old)
            (held_in self.old) job.now)) }
        ensures config { self.new.config ≡ self.old.config }
        ensures err_held { OnErr result (held_in self.new ≡ held_in self.old) }
        ensures err_stage { OnErr result (self.new.stage ≡ Stage.AtRest) }
        ensures shape { self.new.shape ≡ self.old.shape }
        ensures limits { self.new.limits ≡ self.old.limits }
    {
        let decision = decide(
            self.alloc,
            &self.tree,
            &mut self.spaces,
            &mut self.uses,
            &self.config,
            job,
        )?;
        match decision {
            Decision::Refused(cause) => Ok(Some(cause)),
            Decision::Ready(change) => {
                self.stage = Stage::Prepared { job: *job, change };
                Ok(None)
            }
        }
    }

    /// The change takes effect. Out of memory nothing changes.
    pub fn commit(&mut self) -> Result<(), NoMemory>
        requires { IsPrepared self.old.stage }
        ensures stage { OnOk result ((j : Job) (x : Change) → self.old.stage ≡ Stage.Prepared j x
            → self.new.stage ≡ Stage.InForce j x) }
        ensures config { OnOk result ((j : Job) (x : Change) → self.old.stage ≡ Stage.Prepared j x
            → bridge_in self.new ≡ bridge_after j (bridge_in self.old)) }
        ensures held { held_in self.new ≡ held_in self.old }
        ensures err { OnErr result (self.new ≡ self.old) }
        ensures shape { self.new.shape ≡ self.old.shape }
        ensures limits { self.new.limits ≡ self.old.limits }
    {
        take_effect(&self.stage, &mut self.config)?;
        self.stage = mem::replace(&mut self.stage, Stage::AtRest).in_force();
        Ok(())
    }

    /// All is answered: the numbers that are no longer needed are free.
    pub fn finish(&mut self)
        requires { IsInForce self.old.stage }
        ensures held { (j : Job) (x : Change) → self.old.stage ≡ Stage.InForce j x
            → held_in self.new ≡ release x (held_in self.old) }
        ensures stage { self.new.stage ≡ Stage.AtRest }
        ensures config { self.new.config ≡ self.old.config }
        ensures shape { self.new.shape ≡ self.old.shape }
        ensures limits { self.new.limits ≡ self.old.limits }
    {
        free_numbers(&self.stage, &self.tree, &mut self.spaces);
        self.stage = Stage::AtRest;
    }

    /// The change at work.
    pub fn stage(&self) -> &Stage
        ensures { result.now ≡ self.now.stage }
    {
        &self.stage
    }

    /// The tree of extenders.
    pub fn tree(&self) -> &Tree
        ensures { result.now ≡ self.now.shape }
    {
        &self.tree
    }

    /// The configuration in force.
    pub fn config(&self) -> &Config
        ensures { result.now ≡ self.now.config }
    {
        &self.config
    }

    /// The channels and groups that are held.
    pub fn spaces(&self) -> &Spaces
        ensures { result.now ≡ self.now.spaces }
    {
        &self.spaces
    }

    /// A copy in which the change at work is done to its end.
    pub fn copy_at_rest(&self) -> Result<ActiveConfig, NoMemory>
        ensures shape { IfOk result (λ made. made.shape ≡ self.now.shape) }
        ensures limits { IfOk result (λ made. made.limits ≡ self.now.limits) }
        ensures stage { IfOk result (λ made. made.stage ≡ Stage.AtRest) }
        ensures config { IfOk result (λ made. bridge_in made
            ≡ bridge_at_end self.now.stage (bridge_in self.now)) }
        ensures held { IfOk result (λ made. held_in made ≡ held_at_end self.now.stage
            (held_in self.now)) }
    {
        let tree = self.tree.clone()?;
        let uses = self.uses.copy()?;
        let mut spaces = copy_spaces(
            self.alloc,
            &self.tree,
            &self.spaces,
            self.channels,
            self.groups,
        )?;
        free_numbers(&self.stage, &self.tree, &mut spaces);
        let config = config_at_end(&self.stage, &self.config)?;
        Ok(ActiveConfig {
            alloc: self.alloc,
            tree,
            channels: self.channels,
            groups: self.groups,
            config,
            spaces,
            uses,
            stage: Stage::AtRest,
        })
    }

    /// What holds of every active configuration, as a fact for whoever calls it. It does nothing.
    pub fn is_active_config(&self)
        ensures { IsActiveConfig self.now }
    {
        let _ = &self.tree;
    }
}
