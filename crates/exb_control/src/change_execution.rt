//! How changes are carried out: one request at a time.
ghost use Rattle.std.specs.Prelude.{◌≡◌, ◌+◌, ◌<◌, ◌^◌, ◌++◌, [], true, false, ℕ, List, OnOk, IfOk, Some, drop, is_some, length};
ghost use Rattle.std.specs.Option.{option_copied};
ghost use Rattle.exb_control.specs.ActiveConfigs.{IsPrepared, IsInForce, bridge_in, held_in};
ghost use Rattle.exb_control_spec.specs.JobsOfTree.{Fits};
ghost use Rattle.exb_control_spec.specs.Machine.{commanded_down, committed, refused, downs_of, starts};
ghost use Rattle.exb_control.specs.Controls.{work_at, decide_of};
ghost use Rattle.exb_control.specs.MachineSteps.{Front, is_at_rest, advances, after_beat, messages_at_beat, rest_of, state_in, askers_of, commits_at, left_at, reached, reached_by, asks_in, asks_after, ask_at, after_ask, messages_for};
ghost use Rattle.exb_control.specs.Soundness.{AreKnown, MayAsk, CanAsk, IsSteady, AsksOrRests};

use crate::active_config::ActiveConfig;
use crate::outbox::Outbox;
use crate::sessions::Sessions;
use crate::stage::Stage;
use exb_control_spec::{Asked, Change, Job};
use exb_csp::AskAt;
use exb_model::command::Command;
use exb_model::event::{Cause, Event};
use exb_model::list::List;
use exb_model::memory::NoMemory;
use exb_model::port::PortId;

/// The configuration with the change at work, the place of the outstanding request among those of
/// its phase, and the sessions.
#[derive(Drop)]
pub(crate) struct ChangeExecutor {
    pub(crate) active: ActiveConfig,
    pub(crate) place: usize,
    pub(crate) sessions: Sessions,
}

/// The requests of the phase.
pub(crate) fn asks_in(stage: &Stage) -> &[AskAt]
    ensures { result.now ≡ asks_in stage.now }
{
    match stage {
        Stage::AtRest => &[],
        Stage::Prepared { job: _, change } => change.prepare.as_slice(),
        Stage::InForce { job: _, change } => change.cleanup.as_slice(),
    }
}

/// The requests after those of the phase.
pub(crate) fn asks_after(stage: &Stage) -> &[AskAt]
    ensures { result.now ≡ asks_after stage.now }
{
    match stage {
        Stage::Prepared { job: _, change } => change.cleanup.as_slice(),
        _ => &[],
    }
}

/// The outstanding request.
pub(crate) fn outstanding(active: &ActiveConfig, place: usize) -> Option<&AskAt>
    ensures { option_copied result ≡ ask_at active.now.stage place }
{
    asks_in(active.stage()).get(place)
}

/// Whether no change is at work.
pub(crate) fn is_at_rest(active: &ActiveConfig) -> bool
    ensures { result ≡ is_at_rest active.now.stage }
{
    matches!(active.stage(), Stage::AtRest)
}

/// Whether the change at work is prepared and not yet in force.
fn is_prepared(active: &ActiveConfig) -> bool
    ensures yes { result ≡ true → IsPrepared active.now.stage }
    ensures no { result ≡ false → is_at_rest active.now.stage ≡ false → IsInForce active.now.stage }
{
    matches!(active.stage(), Stage::Prepared { .. })
}

/// Asks the request at a place of the phase; false where there is none.
fn ask_at(
    active: &ActiveConfig,
    place: usize,
    sessions: &mut Sessions,
    asks: &mut List<Asked>,
) -> Result<bool, NoMemory>
    requires { CanAsk (ask_at active.now.stage place) (askers_of sessions.old) }
    ensures asked { IfOk result (λ done. done ≡ is_some (ask_at active.now.stage place)) }
    ensures sessions { OnOk result (askers_of sessions.new
        ≡ after_ask (ask_at active.now.stage place) (askers_of sessions.old)) }
    ensures asks { OnOk result (asks.new ≡ asks.old ++ messages_for (ask_at active.now.stage place)
        (askers_of sessions.old)) }
{
    match outstanding(active, place) {
        None => Ok(false),
        Some(ask) => {
            let message = sessions.ask(ask.extender, ask.request.copy());
            asks.push(Asked {
                extender: ask.extender,
                message,
            })?;
            Ok(true)
        }
    }
}

/// The port that a command makes go down is told.
fn tell_down(command: &Command, downs: &mut List<PortId>) -> Result<(), NoMemory>
    ensures { OnOk result (downs.new ≡ downs.old ++ commanded_down command.now) }
{
    match command {
        Command::Down { port } => downs.push(*port),
        _ => Ok(()),
    }
}

/// A job takes effect: its event, and the port that it makes go down.
fn tell_commit(job: &Job, out: &mut Outbox) -> Result<(), NoMemory>
    ensures events { OnOk result (out.new.events ≡ out.old.events ++ committed job.now) }
    ensures asks { out.new.asks ≡ out.old.asks }
    ensures downs { OnOk result (out.new.downs ≡ out.old.downs ++ downs_of job.now) }
{
    match job {
        Job::Opening { extender: _ } => Ok(()),
        Job::AutomaticUp { port } => out.events.push(Event::Up { port: *port }),
        Job::Ordered { number, command } => {
            tell_down(command, &mut out.downs)?;
            out.events.push(Event::Commit { number: *number })
        }
    }
}

/// A job is refused: its event.
fn tell_refusal(job: &Job, cause: Cause, events: &mut List<Event>) -> Result<(), NoMemory>
    ensures { OnOk result (events.new ≡ events.old ++ refused job.now cause) }
{
    match job {
        Job::Opening { extender: _ } => Ok(()),
        Job::AutomaticUp { port } => events.push(Event::NoUp { port: *port, cause }),
        Job::Ordered { number, command: _ } => events.push(Event::Refuse {
            number: *number,
            cause,
        }),
    }
}

/// The change at work takes effect: its event, and the port that it makes go down.
fn tell(stage: &Stage, out: &mut Outbox) -> Result<(), NoMemory>
    ensures events { OnOk result ((j : Job) (x : Change) → stage.now ≡ Stage.InForce j x
        → out.new.events ≡ out.old.events ++ committed j) }
    ensures asks { out.new.asks ≡ out.old.asks }
    ensures downs { OnOk result ((j : Job) (x : Change) → stage.now ≡ Stage.InForce j x
        → out.new.downs ≡ out.old.downs ++ downs_of j) }
{
    match stage {
        Stage::InForce { job, change: _ } => tell_commit(job, out),
        _ => Ok(()),
    }
}

/// The cleanup of the change in force begins; without one the change is done.
fn clean(core: &mut ChangeExecutor, asks: &mut List<Asked>) -> Result<(), NoMemory>
    requires stage { IsInForce core.old.active.stage }
    requires known { AreKnown (asks_in core.old.active.stage) }
    requires may { MayAsk (length (asks_in core.old.active.stage)) (askers_of core.old.sessions) }
    ensures reached { OnOk result ((f : Front) (events : List Event) (downs : List ℕ) →
        reached (state_in f core.new) events asks.new downs
        ≡ reached_by (advances core.old.active.stage (asks_in core.old.active.stage)
        (rest_of f core.old)) events asks.old downs) }
    ensures rests { OnOk result (AsksOrRests core.new) }
    ensures shape { core.new.active.shape ≡ core.old.active.shape }
    ensures limits { core.new.active.limits ≡ core.old.active.limits }
{
    core.place = 0;
    if ask_at(&core.active, core.place, &mut core.sessions, asks)? {
        return Ok(());
    }
    core.active.finish();
    Ok(())
}

/// The prepared change takes effect, and its cleanup begins.
fn commit(core: &mut ChangeExecutor, out: &mut Outbox) -> Result<(), NoMemory>
    requires stage { IsPrepared core.old.active.stage }
    requires known { AreKnown (asks_after core.old.active.stage) }
    requires may { MayAsk (length (asks_after core.old.active.stage))
        (askers_of core.old.sessions) }
    ensures reached { OnOk result ((f : Front) →
        reached (state_in f core.new) out.new.events out.new.asks out.new.downs
        ≡ reached_by (commits_at core.old.active.stage (rest_of f core.old)) out.old.events
        out.old.asks out.old.downs) }
    ensures rests { OnOk result (AsksOrRests core.new) }
    ensures shape { core.new.active.shape ≡ core.old.active.shape }
    ensures limits { core.new.active.limits ≡ core.old.active.limits }
{
    core.active.commit()?;
    tell(core.active.stage(), out)?;
    clean(core, &mut out.asks)
}

/// The phase ends: a prepared change takes effect, and one in force is done.
fn end_phase(core: &mut ChangeExecutor, out: &mut Outbox) -> Result<(), NoMemory>
    requires busy { is_at_rest core.old.active.stage ≡ false }
    requires known { AreKnown (asks_after core.old.active.stage) }
    requires may { MayAsk (length (asks_after core.old.active.stage))
        (askers_of core.old.sessions) }
    ensures reached { OnOk result ((f : Front) →
        reached (state_in f core.new) out.new.events out.new.asks out.new.downs
        ≡ reached_by (advances core.old.active.stage [] (rest_of f core.old)) out.old.events
        out.old.asks out.old.downs) }
    ensures rests { OnOk result (AsksOrRests core.new) }
    ensures shape { core.new.active.shape ≡ core.old.active.shape }
    ensures limits { core.new.active.limits ≡ core.old.active.limits }
{
    if is_prepared(&core.active) {
        return commit(core, out);
    }
    core.active.finish();
    Ok(())
}

/// The request at the place goes out; where there is none, the phase ends.
pub(crate) fn proceed(core: &mut ChangeExecutor, out: &mut Outbox) -> Result<(), NoMemory>
    requires busy { is_at_rest core.old.active.stage ≡ false }
    requires known { AreKnown (drop core.old.place (asks_in core.old.active.stage)) }
    requires after { AreKnown (asks_after core.old.active.stage) }
    requires may { MayAsk (left_at core.old.active.stage core.old.place)
        (askers_of core.old.sessions) }
    ensures reached { OnOk result ((f : Front) →
        reached (state_in f core.new) out.new.events out.new.asks out.new.downs
        ≡ reached_by (advances core.old.active.stage
        (drop core.old.place (asks_in core.old.active.stage)) (rest_of f core.old))
        out.old.events out.old.asks out.old.downs) }
    ensures steady { OnOk result ((k : ℕ)
        → MayAsk (left_at core.old.active.stage core.old.place + k) (askers_of core.old.sessions) →
        IsSteady k (work_at core.new.active.stage core.new.place) (askers_of core.new.sessions)) }
    ensures rests { OnOk result (AsksOrRests core.new) }
    ensures shape { core.new.active.shape ≡ core.old.active.shape }
    ensures limits { core.new.active.limits ≡ core.old.active.limits }
{
    if ask_at(&core.active, core.place, &mut core.sessions, &mut out.asks)? {
        return Ok(());
    }
    end_phase(core, out)
}

/// A job's turn has come: it is refused, or its change begins.
pub(crate) fn start(core: &mut ChangeExecutor, job: &Job, out: &mut Outbox) -> Result<(), NoMemory>
    requires stage { core.old.active.stage ≡ Stage.AtRest }
    requires fits { Fits core.old.active.shape job.now }
    requires may { MayAsk (2 ^ 21) (askers_of core.old.sessions) }
    ensures reached { OnOk result ((f : Front) →
        reached (state_in f core.new) out.new.events out.new.asks out.new.downs
        ≡ reached_by (starts job.now (decide_of core.old.active (bridge_in core.old.active)
        (held_in core.old.active) job.now) (rest_of f core.old))
        out.old.events out.old.asks out.old.downs) }
    ensures steady { OnOk result ((k : ℕ) → MayAsk (2 ^ 21 + k) (askers_of core.old.sessions) →
        IsSteady k (work_at core.new.active.stage core.new.place) (askers_of core.new.sessions)) }
    ensures rests { OnOk result (AsksOrRests core.new) }
    ensures shape { core.new.active.shape ≡ core.old.active.shape }
    ensures limits { core.new.active.limits ≡ core.old.active.limits }
{
    match core.active.start(job)? {
        Some(cause) => tell_refusal(job, cause, &mut out.events),
        None => {
            core.active.is_active_config();
            core.place = 0;
            proceed(core, out)
        }
    }
}

/// A beat of waiting: at each sixteenth the outstanding request goes out again.
pub(crate) fn beat(core: &mut ChangeExecutor, asks: &mut List<Asked>) -> Result<(), NoMemory>
    requires { (a : AskAt) → ask_at core.old.active.stage core.old.place ≡ Some a
        → a.extender < 65 }
    ensures sessions { askers_of core.new.sessions
        ≡ after_beat (ask_at core.old.active.stage core.old.place) (askers_of core.old.sessions) }
    ensures asks { OnOk result (asks.new ≡ asks.old ++ messages_at_beat
        (ask_at core.old.active.stage core.old.place) (askers_of core.old.sessions)) }
    ensures rest { core.new ≡ record core.old { sessions = core.new.sessions } }
{
    if let Some(ask) = outstanding(&core.active, core.place) {
        let extender = ask.extender;
        if let Some(message) = core.sessions.beat(extender) {
            asks.push(Asked { extender, message })?;
        }
    }
    Ok(())
}
