//! The control, and its calls.
ghost use Rattle.std.specs.Prelude.{◌≡◌, ℕ, ◌+◌, ◌-◌, ◌<◌, ◌≤◌, ◌^◌, ◌↔◌, [], true, false, IfOk, OnOk, OnErr, is_err};
ghost use Rattle.std.specs.List.{All};
ghost use Rattle.exb_model.specs.Setup.{IsValid, NamesExternal, shape_of, limits_of};
ghost use Rattle.exb_model.specs.Tree.{is_extender, is_cascade};
ghost use Rattle.exb_csp.specs.Sessions.AskingEnd.{took};

use crate::active_config::ActiveConfig;
use crate::announcements::Heard;
use crate::change_execution::{ChangeExecutor, beat, outstanding};
use crate::held_channels::{channel_of, port_of};
use crate::initial_jobs::first_jobs;
use crate::job_turns::{give, take, wake};
use crate::outbox::Outbox;
use crate::planned_exchanges::planned;
use crate::queue::Queue;
use crate::sessions::Sessions;
use exb_control_spec::Job;
use exb_csp::{Message, Taken};
use exb_model::command::Command;
use exb_model::memory::NoMemory;
use exb_model::port::PortId;
use exb_model::setup::Setup;
use exb_model::tree::Tree;
use std::alloc::Global;
use std::marker::Model;

/// Why a call did not come to its end.
#[derive(Clone, Copy)]
pub enum ControlFault {
    /// Memory ran out in this call.
    Memory,
    /// Memory ran out in an earlier call.
    Failed,
}

/// The controlling bridge's control. A call in which memory runs out leaves it failed, with the
/// tree and the limits that it had; each later call that can answer so then says that it has
/// failed, and changes nothing.
pub struct Control {
    core: ChangeExecutor,
    queue: Queue<Job>,
    heard: Heard,
    given: u32,
    failed: bool,
}

impl Drop for Control {
    fn drop(self) {
        let Control {
            core: _,
            queue: _,
            heard: _,
            given: _,
            failed: _,
        } = self;
    }
}

impl Model for Control {
    ghost use Rattle.exb_control.specs.Controls.{Parts};

    ghost Value = { Parts };

    ghost use Rattle.exb_control.specs.ControlParts.{parts_of, IsKept};

    ghost view = { λ c. parts_of c.core c.queue c.heard c.given c.failed };

    ghost invariant = { λ c. IsKept c.core c.queue c.given c.failed };
}

impl Control {
    ghost use Rattle.exb_control_spec.specs.PlannedExchanges.{planned};
    ghost use Rattle.exb_control.specs.ActiveConfigs.{IsActiveConfig, held_in};
    ghost use Rattle.exb_control_spec.specs.Machine.{ordered, heard, answered, beats};
    ghost use Rattle.exb_control.specs.CallEffects.{IsMoved, IsStill};
    ghost use Rattle.exb_control.specs.EncodableRequests.{CanBeSpelled};
    ghost use Rattle.exb_control.specs.Controls.{state_of, decide_of, first_of, is_settled, channel_at_trunk};

    /// The control of a setup: nothing was heard or given yet.
    pub fn new(alloc: Global, setup: &Setup) -> Result<Control, NoMemory>
        requires { IsValid setup.now }
        ensures state { IfOk result (λ made. state_of made ≡ first_of setup.now) }
        ensures shape { IfOk result (λ made. made.active.shape ≡ shape_of setup.now) }
        ensures limits { IfOk result (λ made. made.active.limits ≡ limits_of setup.now) }
        ensures failed { IfOk result (λ made. made.failed ≡ false) }
    {
        let mut queue = Queue::new(alloc);
        let sessions = Sessions::new(alloc)?;
        let active = ActiveConfig::new(alloc, setup)?;
        let begun = first_jobs(active.tree(), &mut queue);
        if begun.is_err() {
            // By a call, since an early end is far longer to prove where it lets an active
            // configuration go.
            drop(active);
            return Err(NoMemory);
        }
        let core = ChangeExecutor {
            active,
            place: 0,
            sessions,
        };
        Ok(Control {
            core,
            queue,
            heard: Heard::new(),
            given: 0,
            failed: false,
        })
    }

    /// A command is given. Commands are numbered from 1 in the order in which they are given.
    pub fn command(&mut self, command: &Command, out: &mut Outbox) -> Result<(), ControlFault>
        requires few { self.old.given < 65536 }
        requires names { NamesExternal self.old.active.shape command.now }
        ensures ok { OnOk result (IsMoved (ordered (decide_of self.old.active) command.now
            (state_of self.old)) self.old self.new out.new) }
        ensures spelled { OnOk result (All (CanBeSpelled self.old.active.shape) out.new.asks) }
        ensures failed { (result ≡ Err ControlFault.Failed) ↔ (self.old.failed ≡ true) }
        ensures memory { OnErr result (self.new.failed ≡ true) }
        ensures still { self.old.failed ≡ true → IsStill self.old self.new out.new }
        ensures shape { self.new.active.shape ≡ self.old.active.shape }
        ensures limits { self.new.active.limits ≡ self.old.active.limits }
    {
        out.empty();
        if self.failed {
            return Err(ControlFault::Failed);
        }
        let given = self.given + 1;
        let done = give(
            given,
            command,
            &self.heard,
            &mut self.queue,
            &mut self.core,
            out,
        );
        self.given = given;
        if done.is_err() {
            self.failed = true;
            return Err(ControlFault::Memory);
        }
        Ok(())
    }

    /// An extender is heard.
    pub fn heard(&mut self, extender: u8, out: &mut Outbox) -> Result<(), ControlFault>
        requires { is_extender self.old.active.shape extender ≡ true }
        ensures ok { OnOk result (IsMoved (heard (decide_of self.old.active) extender
            (state_of self.old)) self.old self.new out.new) }
        ensures spelled { OnOk result (All (CanBeSpelled self.old.active.shape) out.new.asks) }
        ensures failed { (result ≡ Err ControlFault.Failed) ↔ (self.old.failed ≡ true) }
        ensures memory { OnErr result (self.new.failed ≡ true) }
        ensures still { self.old.failed ≡ true → IsStill self.old self.new out.new }
        ensures shape { self.new.active.shape ≡ self.old.active.shape }
        ensures limits { self.new.active.limits ≡ self.old.active.limits }
    {
        out.empty();
        if self.failed {
            return Err(ControlFault::Failed);
        }
        self.core.active.is_active_config();
        self.heard.note(extender);
        let done = wake(&self.heard, &mut self.queue, &mut self.core, out);
        if done.is_err() {
            self.failed = true;
            return Err(ControlFault::Memory);
        }
        Ok(())
    }

    /// A message of the control protocol comes from an extender; says what it is to the session
    /// with it.
    pub fn answered(
        &mut self,
        extender: u8,
        message: &Message,
        out: &mut Outbox,
    ) -> Result<Taken, ControlFault>
        requires { is_extender self.old.active.shape extender ≡ true }
        ensures ok { OnOk result (IsMoved (answered (decide_of self.old.active) extender message.now
            (state_of self.old)) self.old self.new out.new) }
        ensures spelled { OnOk result (All (CanBeSpelled self.old.active.shape) out.new.asks) }
        ensures taken { IfOk result (λ taken. taken
            ≡ (took ((state_of self.old).askers extender) message.now).1) }
        ensures failed { (result ≡ Err ControlFault.Failed) ↔ (self.old.failed ≡ true) }
        ensures memory { OnErr result (self.new.failed ≡ true) }
        ensures still { self.old.failed ≡ true → IsStill self.old self.new out.new }
        ensures shape { self.new.active.shape ≡ self.old.active.shape }
        ensures limits { self.new.active.limits ≡ self.old.active.limits }
    {
        out.empty();
        if self.failed {
            return Err(ControlFault::Failed);
        }
        self.core.active.is_active_config();
        let done = take(
            extender,
            message,
            &self.heard,
            &mut self.queue,
            &mut self.core,
            out,
        );
        match done {
            Ok(taken) => Ok(taken),
            Err(_) => {
                self.failed = true;
                Err(ControlFault::Memory)
            }
        }
    }

    /// A beat: the outstanding request goes out again at each sixteenth beat without its answer.
    pub fn beat(&mut self, out: &mut Outbox) -> Result<(), ControlFault>
        ensures ok { OnOk result (IsMoved (beats (state_of self.old)) self.old self.new out.new) }
        ensures spelled { OnOk result (All (CanBeSpelled self.old.active.shape) out.new.asks) }
        ensures failed { (result ≡ Err ControlFault.Failed) ↔ (self.old.failed ≡ true) }
        ensures memory { OnErr result (self.new.failed ≡ true) }
        ensures still { self.old.failed ≡ true → IsStill self.old self.new out.new }
        ensures shape { self.new.active.shape ≡ self.old.active.shape }
        ensures limits { self.new.active.limits ≡ self.old.active.limits }
    {
        out.empty();
        if self.failed {
            return Err(ControlFault::Failed);
        }
        if beat(&mut self.core, &mut out.asks).is_err() {
            self.failed = true;
            return Err(ControlFault::Memory);
        }
        Ok(())
    }

    /// Whether no job waits and no change is at work.
    pub fn settled(&self) -> bool
        ensures { result ≡ is_settled (state_of self.now) }
    {
        self.queue.is_empty() && outstanding(&self.core.active, self.core.place).is_none()
    }

    /// The channel that a port of an extender holds; None for other ports, and where it holds none.
    pub fn of(&self, port: PortId) -> Option<u16>
        ensures { result ≡ channel_at_trunk self.now.active.shape (held_in self.now.active) port }
    {
        channel_of(&self.core.active, port)
    }

    /// The port that holds a channel of a cascade port of the bridge, 1 to 64.
    pub fn port(&self, bridge_port: u8, channel: u16) -> Option<PortId>
        requires from1 { 1 ≤ bridge_port }
        requires to64 { bridge_port ≤ 64 }
        requires cascade { is_cascade self.now.active.shape (bridge_port - 1) ≡ true }
        ensures { result ≡ (held_in self.now.active).port (bridge_port - 1) channel }
    {
        port_of(&self.core.active, bridge_port, channel)
    }

    /// How many requests and announcements are still to come before all jobs are done: requests
    /// that aren't answered, and extenders that weren't heard. Where no job waits it needs no
    /// memory.
    pub fn planned(&self) -> Result<u64, NoMemory>
        ensures count { IfOk result (λ count. count ≡ planned self.now.active.shape
            (decide_of self.now.active) (state_of self.now)) }
        ensures none { self.now.failed ≡ false → self.now.queue ≡ [] → is_err result ≡ false }
    {
        if self.failed {
            return Err(NoMemory);
        }
        planned(&self.core, &self.queue, &self.heard)
    }

    /// The configuration in force.
    #[inline(always)]
    pub fn active(&self) -> &ActiveConfig
        ensures { result.now ≡ self.now.active }
    {
        &self.core.active
    }

    /// The tree of extenders.
    pub fn tree(&self) -> &Tree
        ensures { result.now ≡ self.now.active.shape }
    {
        self.core.active.tree()
    }

    /// How many commands were given.
    pub fn given(&self) -> u32
        ensures { result ≡ self.now.given }
    {
        self.given
    }

    /// That the serials of all requests stay below 2 to the power of 40, however many changes come,
    /// as a fact for whoever calls it. It does nothing.
    pub fn has_low_serials(&self)
        ensures { self.now.failed ≡ false → (n : ℕ) → ((state_of self.now).askers n).serial
            < 2 ^ 40 }
    {
        let _ = &self.core;
    }

    /// What holds of the active configuration, as a fact for whoever calls it. It does nothing.
    pub fn is_active_config(&self)
        ensures { IsActiveConfig self.now.active }
    {
        self.core.active.is_active_config();
    }
}
