//! Whose turn it is: jobs are started until a request is outstanding, an opening waits, or none is
//! left.
ghost use Rattle.std.specs.Prelude.{◌≡◌, ◌++◌, ◌∷◌, [], ◌+◌, ◌*◌, ◌<◌, ◌^◌, ℕ, OnOk, IfOk, true, false, length};
ghost use Rattle.exb_model.specs.Setup.{NamesExternal};
ghost use Rattle.exb_csp.specs.Sessions.AskingEnd.{took};
ghost use Rattle.exb_control_spec.specs.JobsOfTree.{AreFit};
ghost use Rattle.exb_control_spec.specs.Machine.{goes_on, wakes, answered};
ghost use Rattle.exb_control.specs.Controls.{work_at, decide_of};
ghost use Rattle.exb_control.specs.MachineSteps.{Front, askers_of, rest_of, state_in, reached, reached_by, with_queue};
ghost use Rattle.exb_control.specs.Soundness.{MayAsk, IsSteady, AsksOrRests};

use crate::announcements::Heard;
use crate::change_execution::{ChangeExecutor, is_at_rest, proceed, start};
use crate::outbox::Outbox;
use crate::queue::Queue;
use crate::stage::Stage;
use exb_control_spec::Job;
use exb_csp::{Message, Taken};
use exb_model::command::Command;
use exb_model::memory::NoMemory;

/// Starts the next job; false where the jobs that follow have to wait.
fn turn(
    heard: &Heard,
    queue: &mut Queue<Job>,
    core: &mut ChangeExecutor,
    out: &mut Outbox,
) -> Result<bool, NoMemory>
    requires stage { core.old.active.stage ≡ Stage.AtRest }
    requires fit { AreFit core.old.active.shape queue.old }
    requires may { MayAsk (2 ^ 21 * length queue.old) (askers_of core.old.sessions) }
    ensures ends { IfOk result (λ goes. goes ≡ false → (f : Front) → f.heard ≡ heard.now →
        reached (state_in (with_queue queue.new f) core.new) out.new.events out.new.asks
        out.new.downs
        ≡ reached_by (goes_on (decide_of core.old.active) queue.old (rest_of f core.old))
        out.old.events out.old.asks out.old.downs) }
    ensures goes { IfOk result (λ goes. goes ≡ true → (f : Front) → f.heard ≡ heard.now →
        reached_by (goes_on (decide_of core.old.active) queue.new (rest_of f core.new))
        out.new.events out.new.asks out.new.downs
        ≡ reached_by (goes_on (decide_of core.old.active) queue.old (rest_of f core.old))
        out.old.events out.old.asks out.old.downs) }
    ensures steady { OnOk result ((k : ℕ) → MayAsk (2 ^ 21 * length queue.old + k)
        (askers_of core.old.sessions) →
        IsSteady (2 ^ 21 * length queue.new + k) (work_at core.new.active.stage core.new.place)
        (askers_of core.new.sessions)) }
    ensures rests { OnOk result (AsksOrRests core.new) }
    ensures stage { IfOk result (λ goes. goes ≡ true → core.new.active.stage ≡ Stage.AtRest) }
    ensures fit { OnOk result (AreFit core.old.active.shape queue.new) }
    ensures shorter { IfOk result (λ goes. goes ≡ true → length queue.new < length queue.old) }
    ensures shape { core.new.active.shape ≡ core.old.active.shape }
    ensures limits { core.new.active.limits ≡ core.old.active.limits }
{
    let Some(job) = queue.first() else {
        return Ok(false);
    };
    if heard.waits(&job) {
        return Ok(false);
    }
    start(core, &job, out)?;
    queue.remove_first();
    Ok(is_at_rest(&core.active))
}

/// Goes on with the jobs that wait, where no change is at work.
pub(crate) fn go_on(
    heard: &Heard,
    queue: &mut Queue<Job>,
    core: &mut ChangeExecutor,
    out: &mut Outbox,
) -> Result<(), NoMemory>
    requires stage { core.old.active.stage ≡ Stage.AtRest }
    requires fit { AreFit core.old.active.shape queue.old }
    requires may { MayAsk (2 ^ 21 * length queue.old) (askers_of core.old.sessions) }
    ensures reached { OnOk result ((f : Front) → f.heard ≡ heard.now →
        reached (state_in (with_queue queue.new f) core.new) out.new.events out.new.asks
        out.new.downs
        ≡ reached_by (goes_on (decide_of core.old.active) queue.old (rest_of f core.old))
        out.old.events out.old.asks out.old.downs) }
    ensures steady { OnOk result ((k : ℕ) → MayAsk (2 ^ 21 * length queue.old + k)
        (askers_of core.old.sessions) →
        IsSteady (2 ^ 21 * length queue.new + k) (work_at core.new.active.stage core.new.place)
        (askers_of core.new.sessions)) }
    ensures rests { OnOk result (AsksOrRests core.new) }
    ensures fit { OnOk result (AreFit core.old.active.shape queue.new) }
    ensures shape { core.new.active.shape ≡ core.old.active.shape }
    ensures limits { core.new.active.limits ≡ core.old.active.limits }
{
    'turns: loop {
        if !turn(heard, queue, core, out)? {
            return Ok(());
        }
    }
}

/// Goes on with the jobs that wait, unless a change is at work.
pub(crate) fn wake(
    heard: &Heard,
    queue: &mut Queue<Job>,
    core: &mut ChangeExecutor,
    out: &mut Outbox,
) -> Result<(), NoMemory>
    requires rests { AsksOrRests core.old }
    requires fit { AreFit core.old.active.shape queue.old }
    requires steady { IsSteady (2 ^ 21 * length queue.old)
        (work_at core.old.active.stage core.old.place) (askers_of core.old.sessions) }
    ensures reached { OnOk result ((f : Front) → f.heard ≡ heard.now → f.queue ≡ queue.old →
        reached (state_in (with_queue queue.new f) core.new) out.new.events out.new.asks
        out.new.downs
        ≡ reached_by (wakes (decide_of core.old.active) (state_in f core.old)) out.old.events
        out.old.asks out.old.downs) }
    ensures steady { OnOk result ((k : ℕ) → IsSteady (2 ^ 21 * length queue.old + k)
        (work_at core.old.active.stage core.old.place) (askers_of core.old.sessions) →
        IsSteady (2 ^ 21 * length queue.new + k) (work_at core.new.active.stage core.new.place)
        (askers_of core.new.sessions)) }
    ensures rests { OnOk result (AsksOrRests core.new) }
    ensures fit { OnOk result (AreFit core.old.active.shape queue.new) }
    ensures shape { core.new.active.shape ≡ core.old.active.shape }
    ensures limits { core.new.active.limits ≡ core.old.active.limits }
{
    if is_at_rest(&core.active) {
        go_on(heard, queue, core, out)
    } else {
        Ok(())
    }
}

/// A command is put at the end of the queue, and the queue goes on.
pub(crate) fn give(
    number: u32,
    command: &Command,
    heard: &Heard,
    queue: &mut Queue<Job>,
    core: &mut ChangeExecutor,
    out: &mut Outbox,
) -> Result<(), NoMemory>
    requires rests { AsksOrRests core.old }
    requires names { NamesExternal core.old.active.shape command.now }
    requires fit { AreFit core.old.active.shape queue.old }
    requires steady { IsSteady (2 ^ 21 * (length queue.old + 1))
        (work_at core.old.active.stage core.old.place) (askers_of core.old.sessions) }
    ensures reached { OnOk result ((f : Front) → f.heard ≡ heard.now
        → f.queue ≡ queue.old ++ Job.Ordered number command.now ∷ [] →
        reached (state_in (with_queue queue.new f) core.new) out.new.events out.new.asks
        out.new.downs
        ≡ reached_by (wakes (decide_of core.old.active) (state_in f core.old)) out.old.events
        out.old.asks out.old.downs) }
    ensures steady { OnOk result ((k : ℕ) → IsSteady (2 ^ 21 * (length queue.old + 1) + k)
        (work_at core.old.active.stage core.old.place) (askers_of core.old.sessions) →
        IsSteady (2 ^ 21 * length queue.new + k) (work_at core.new.active.stage core.new.place)
        (askers_of core.new.sessions)) }
    ensures rests { OnOk result (AsksOrRests core.new) }
    ensures fit { OnOk result (AreFit core.old.active.shape queue.new) }
    ensures shape { core.new.active.shape ≡ core.old.active.shape }
    ensures limits { core.new.active.limits ≡ core.old.active.limits }
{
    queue.push(&Job::Ordered {
        number,
        command: *command,
    })?;
    wake(heard, queue, core, out)
}

/// A message comes from an extender. If it is the answer that is waited for, the change at work
/// goes on.
pub(crate) fn take(
    extender: u8,
    message: &Message,
    heard: &Heard,
    queue: &mut Queue<Job>,
    core: &mut ChangeExecutor,
    out: &mut Outbox,
) -> Result<Taken, NoMemory>
    requires known { extender < 65 }
    requires rests { AsksOrRests core.old }
    requires fit { AreFit core.old.active.shape queue.old }
    requires steady { IsSteady (2 ^ 21 * length queue.old)
        (work_at core.old.active.stage core.old.place) (askers_of core.old.sessions) }
    ensures taken { IfOk result (λ taken. taken
        ≡ (took (askers_of core.old.sessions extender) message.now).1) }
    ensures reached { OnOk result ((f : Front) → f.heard ≡ heard.now → f.queue ≡ queue.old →
        reached (state_in (with_queue queue.new f) core.new) out.new.events out.new.asks
        out.new.downs
        ≡ reached_by (answered (decide_of core.old.active) extender message.now
        (state_in f core.old)) out.old.events out.old.asks out.old.downs) }
    ensures steady { OnOk result ((k : ℕ) → IsSteady (2 ^ 21 * length queue.old + k)
        (work_at core.old.active.stage core.old.place) (askers_of core.old.sessions) →
        IsSteady (2 ^ 21 * length queue.new + k) (work_at core.new.active.stage core.new.place)
        (askers_of core.new.sessions)) }
    ensures rests { OnOk result (AsksOrRests core.new) }
    ensures fit { OnOk result (AreFit core.old.active.shape queue.new) }
    ensures shape { core.new.active.shape ≡ core.old.active.shape }
    ensures limits { core.new.active.limits ≡ core.old.active.limits }
{
    let taken = core.sessions.take(extender, message);
    if let Taken::Answer(_) = taken {
        core.active.is_active_config();
        core.place += 1;
        proceed(core, out)?;
        wake(heard, queue, core, out)?;
    }
    Ok(taken)
}
