//! What the outputs of a run say together, and what an audit says of them. A law is a function that
//! does nothing and ensures it.
ghost use Rattle.exb_run.specs.AuditsAfterRuns.{AuditsFollowRuns};
ghost use Rattle.exb_run.specs.Laws.{CountersSumUp};

use exb_audit_files::audit_laws::runs_are_found_legal;
use exb_counters::laws::counts_of_inputs_are_the_summary;
use exb_topology::laws::read_is_sound;

/// The counters of a run sum up to its summary: relayed and ignored of all external ports together
/// are its arrivals, and left of all ports its left. It is said of what status 0 names: a topology
/// that was read, and a history that its input allows.
pub fn counters_sum_up()
    ensures { CountersSumUp }
{
    read_is_sound();
    counts_of_inputs_are_the_summary();
}

/// After a run with its trace, nothing but want of memory and a failure of shelf or sink stops the
/// audit of what it wrote: over files as the run left them, none of which passes a limit, it
/// answers 0, or 1 for want of memory.
pub fn audits_follow_runs()
    ensures { AuditsFollowRuns }
{
    read_is_sound();
    runs_are_found_legal();
}
