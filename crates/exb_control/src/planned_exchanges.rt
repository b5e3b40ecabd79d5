//! How many exchanges are still to come.
ghost use Rattle.std.specs.Prelude.{◌≡◌, ◌*◌, ◌≤◌, ◌<◌, ◌^◌, [], false, Ok, IfOk, OnOk, is_err, length};
ghost use Rattle.exb_control_spec.specs.PlannedExchanges.{requests_of, requests_in, bridge_left, held_left, planned};
ghost use Rattle.exb_control_spec.specs.JobsOfTree.{Fits, AreFit};
ghost use Rattle.exb_control.specs.ActiveConfigs.{bridge_in, held_in, bridge_at_end, held_at_end};
ghost use Rattle.exb_control.specs.Controls.{decide_of};
ghost use Rattle.exb_control.specs.MachineSteps.{Front, state_in, left_at};
ghost use Rattle.exb_control.specs.Soundness.{AsksOrRests};

use crate::active_config::ActiveConfig;
use crate::announcements::Heard;
use crate::change_execution::{ChangeExecutor, asks_after, asks_in};
use crate::queue::Queue;
use crate::stage::Stage;
use exb_control_spec::Job;
use exb_model::memory::NoMemory;

/// Runs a job to its end, and counts its requests.
fn run(active: &mut ActiveConfig, job: &Job) -> Result<u64, NoMemory>
    requires stage { active.old.stage ≡ Stage.AtRest }
    requires fits { Fits active.old.shape job.now }
    ensures count { IfOk result (λ count. count
        ≡ requests_of (decide_of active.old (bridge_in active.old) (held_in active.old) job.now)) }
    ensures few { IfOk result (λ count. count ≤ 2 ^ 21) }
    ensures bridge { OnOk result (bridge_in active.new
        ≡ bridge_left job.now (decide_of active.old (bridge_in active.old) (held_in active.old)
        job.now) (bridge_in active.old)) }
    ensures held { OnOk result (held_in active.new
        ≡ held_left (decide_of active.old (bridge_in active.old) (held_in active.old) job.now)
        (held_in active.old)) }
    ensures stage { OnOk result (active.new.stage ≡ Stage.AtRest) }
    ensures shape { active.new.shape ≡ active.old.shape }
    ensures limits { active.new.limits ≡ active.old.limits }
{
    if active.start(job)?.is_some() {
        return Ok(0);
    }
    active.is_active_config();
    let count = left(active, 0);
    active.commit()?;
    active.finish();
    Ok(count)
}

/// The requests of the change at work from a place of its phase on.
fn left(active: &ActiveConfig, place: usize) -> u64
    ensures value { result ≡ left_at active.now.stage place }
    ensures few { result ≤ 2 ^ 21 }
{
    active.is_active_config();
    let stage = active.stage();
    (asks_in(stage).len().saturating_sub(place) + asks_after(stage).len()) as u64
}

/// The requests of the jobs that wait, run in order.
fn count_jobs(active: &mut ActiveConfig, queue: &Queue<Job>) -> Result<u64, NoMemory>
    requires stage { active.old.stage ≡ Stage.AtRest }
    requires fit { AreFit active.old.shape queue.now }
    requires few { 2 ^ 21 * length queue.now < 2 ^ 63 }
    ensures count { IfOk result (λ count. count ≡ requests_in (decide_of active.old)
        (bridge_in active.old) (held_in active.old) queue.now) }
    ensures few { IfOk result (λ count. count ≤ 2 ^ 21 * length queue.now) }
{
    let mut count = 0;
    'jobs: for at in 0..queue.len() {
        count += run(active, &queue.item(at))?;
    }
    Ok(count)
}

/// The requests of the jobs that wait, run in order once the change at work is done. The active
/// configuration is copied only where a job waits.
fn waiting(active: &ActiveConfig, queue: &Queue<Job>) -> Result<u64, NoMemory>
    requires fit { AreFit active.now.shape queue.now }
    requires few { 2 ^ 21 * length queue.now < 2 ^ 63 }
    ensures count { IfOk result (λ count. count ≡ requests_in (decide_of active.now)
        (bridge_at_end active.now.stage (bridge_in active.now))
        (held_at_end active.now.stage (held_in active.now)) queue.now) }
    ensures few { IfOk result (λ count. count ≤ 2 ^ 21 * length queue.now) }
    ensures none { queue.now ≡ [] → result ≡ Ok 0 }
{
    if queue.is_empty() {
        return Ok(0);
    }
    let mut trial = active.copy_at_rest()?;
    let count = count_jobs(&mut trial, queue);
    // By a call, since a block's end is far longer to prove where it lets an active configuration
    // go.
    drop(trial);
    count
}

/// How many requests and announcements are still to come.
pub(crate) fn planned(
    core: &ChangeExecutor,
    queue: &Queue<Job>,
    heard: &Heard,
) -> Result<u64, NoMemory>
    requires fit { AreFit core.now.active.shape queue.now }
    requires rests { AsksOrRests core.now }
    requires few { 2 ^ 21 * length queue.now < 2 ^ 63 }
    ensures count { IfOk result (λ count. (f : Front) → f.queue ≡ queue.now → f.heard ≡ heard.now →
        count ≡ planned core.now.active.shape (decide_of core.now.active) (state_in f core.now)) }
    ensures none { queue.now ≡ [] → is_err result ≡ false }
{
    let asked = left(&core.active, core.place);
    let waiting = waiting(&core.active, queue)?;
    Ok(asked + waiting + heard.unheard(core.active.tree()))
}
