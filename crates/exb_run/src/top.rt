//! The top call.
ghost use Rattle.std.specs.Prelude.{◌≡◌, ◌<◌, ◌≤◌, ◌+◌, ◌⊎◌, ◌^◌, ℕ, true, All, length, Some, string_bytes, IfOk, IfErr, IsErrOf};
ghost use Rattle.exb_make.specs.GeneratedInputs.{made};
ghost use Rattle.exb_model.specs.Input.{Eager};
ghost use Rattle.exb_model.specs.Setup.{IsValid, shape_of};
ghost use Rattle.exb_shelf.specs.Files.{SameFiles};
ghost use Rattle.exb_shelf.specs.Shelf.{Opens};
ghost use Rattle.exb_topology.specs.Soundness.{IsSound};
ghost use Rattle.exb_cli.specs.CommandLines.{Run, Make};
ghost use Rattle.exb_inputs.specs.declared.fault.Fault.{Fault};
ghost use Rattle.exb_inputs.specs.declared.fault.InputFlaw.{InputFlaw};
ghost use Rattle.exb_inputs.specs.Inputs.{input_of, is_named};
ghost use Rattle.exb_run.specs.Outputs.{AreFrontsOf, IsPlayed};
ghost use Rattle.exb_inputs.specs.CaptureChecks.{AreAllGood, FirstFault};
ghost use Rattle.exb_inputs.specs.ShelfEffects.{ReadsBelow, ReadsCapture, CountsFaults};
ghost use Rattle.exb_outputs.specs.CreationOrder.{MakesInOrder};
ghost use Rattle.exb_outputs.specs.OutputNames.{OnlyOutputs};
ghost use Rattle.exb_run.specs.OpenedFiles.{IsFileOf, IsOpenedFor, MadeBehind, OpensBy, OpensInOrder, manifest_for};
ghost use Rattle.exb_inputs.specs.FaultPhases.{IsOfPlay, IsOfPlaying};
ghost use Rattle.exb_run.specs.Answers.{asked, mode_for, eager_summary, IsStatus};
ghost use Rattle.exb_inputs.specs.Answers.{status_of};
ghost use Rattle.exb_run.specs.Endings.{Broken, Done, Leaves, Refused};
ghost use Rattle.exb_run.specs.Outcomes.{CameOut};
ghost use Rattle.exb_run.specs.PartialOutputs.{LeavesParts};
ghost use Rattle.exb_play.specs.BridgeRuns.{mode_of};
ghost use Rattle.exb_outputs.specs.Counts.{IsSummary};

use crate::audit::audit_topology;
use crate::check::check_topology;
use crate::finish::finished;
use crate::generated_run::make_input;
use crate::net::run_net;
use exb_cli::{Invocation, Options, accept};
use exb_fate::Fate;
use exb_inputs::{Fault, check_captures, read_topology, report};
use exb_outputs::Manifest;
use exb_play::{Schedule, Script, play};
use exb_shelf::{Shelf, Sink};
use exb_topology::Topology;
use std::alloc::Global;

/// Eager, or drawn from a seed.
fn schedule_of(seed: Option<u64>) -> Schedule
    ensures { mode_of result ≡ mode_for seed }
{
    match seed {
        None => Schedule::Eager,
        Some(seed) => Schedule::Seeded { seed },
    }
}

/// Checks the captures of a topology, plays them, and answers the summary line.
fn play_topology<S: Shelf>(
    alloc: Global,
    shelf: &mut S,
    topology: &Topology,
    options: Options,
    fate: Box<dyn Fate>,
) -> Result<String, Fault>
    requires valid { IsValid topology.now.setup }
    requires sound { IsSound topology.now }
    requires fate { left fate < 2 ^ 56 }
    ensures good { S.tells → IfOk result (λ line. AreAllGood topology.now.captures
        (S.file shelf.old)) }
    ensures done { S.tells → IfOk result (λ line.
        IsPlayed (mode_for options.seed) options (input_of topology.now (S.file shelf.old))
        topology.now.prefix
        (S.file shelf.old) (S.file shelf.new) (string_bytes line)) }
    ensures says { IfOk result (λ line. IsSummary (string_bytes line)) }
    ensures fronts { S.tells → mode_for options.seed ≡ Eager
        → AreFrontsOf (input_of topology.now (S.file shelf.old)) topology.now.prefix
        (S.file shelf.old) (S.file shelf.new) }
    ensures parts { S.tells → LeavesParts options topology.now (S.file shelf.old)
        (S.file shelf.new) }

    // Each fault has its cause.
    ensures cause { S.tells → IfErr result (λ fault.
        ((p : ℕ) × FirstFault topology.now.captures (S.file shelf.old) p fault)
        ⊎ (fault ≡ Fault.Read) ⊎ (fault ≡ Fault.Write) ⊎ (fault ≡ Fault.Memory)) }
    ensures stops { S.tells → (p : ℕ) (fault : Fault)
        → FirstFault topology.now.captures (S.file shelf.old) p fault
        → IsErrOf result fault ⊎ IsErrOf result Fault.Read ⊎ IsErrOf result Fault.Memory }
    ensures causes { IfErr result IsOfPlaying }

    // What stays, and what is opened.
    ensures early { IfErr result (λ fault. IsOfPlay fault
        ⊎ SameFiles (S.file shelf.old) (S.file shelf.new)) }
    ensures stopped { S.tells → (p : ℕ) (fault : Fault)
        → FirstFault topology.now.captures (S.file shelf.old) p fault
        → SameFiles (S.file shelf.old) (S.file shelf.new) }
    ensures others { S.tells → OnlyOutputs options (shape_of topology.now.setup) topology.now.prefix
        (S.file shelf.old) (S.file shelf.new) }
    ensures opened { IfErr result (λ fault. IsOfPlay fault
        ⊎ Opens (ReadsCapture topology.now.captures) (S.ids shelf.old) (S.ids shelf.new)) }
    ensures played { S.tells → Opens (IsOpenedFor options topology.now (S.file shelf.old))
        (S.ids shelf.old) (S.ids shelf.new) }
    ensures files { Opens (IsFileOf options topology.now) (S.ids shelf.old) (S.ids shelf.new) }
    ensures made { MakesInOrder (manifest_for topology.now options) result (S.ids shelf.old)
        (S.ids shelf.new) }
    ensures behind { MadeBehind topology.now.captures (S.ids shelf.old) (S.ids shelf.new) }
    ensures port { IfErr result (λ fault. (p at : ℕ) → fault ≡ Fault.Changed p at
        → is_named topology.now.captures p ≡ true) }
    ensures own { (p : ℕ) (flaw : InputFlaw) → IsErrOf result (Fault.Capture p flaw)
        → (is_named topology.now.captures p ≡ true)
        × Opens (ReadsBelow topology.now.captures (p + 1)) (S.ids shelf.old) (S.ids shelf.new) }
    ensures upto { S.tells → (p : ℕ) (fault : Fault)
        → FirstFault topology.now.captures (S.file shelf.old) p fault
        → Opens (ReadsBelow topology.now.captures (p + 1)) (S.ids shelf.old) (S.ids shelf.new) }
    ensures faults { CountsFaults result (S.faults shelf.old) (S.faults shelf.new) }
{
    let checked = check_captures(alloc, shelf, topology.captures.as_slice())?;
    let manifest = Manifest::new(alloc, &topology.setup, topology.prefix.as_str(), options)?;
    let script = Script {
        setup: &topology.setup,
        commands: topology.commands.as_slice(),
        fate: topology.fate.as_slice(),
    };
    let schedule = schedule_of(options.seed);
    let played = play(
        alloc,
        shelf,
        &manifest,
        &script,
        topology.captures.as_slice(),
        checked.as_slice(),
        schedule,
        fate,
    );
    // By calls, since a block's end is far longer to prove where it lets these go.
    drop(manifest);
    drop(checked);
    played
}

/// Reads the topology of this name, plays it, and answers the summary line. Within `work` a frame
/// would take a few instructions more.
#[inline(never)]
fn run_topology<S: Shelf>(
    alloc: Global,
    shelf: &mut S,
    name: &str,
    options: Options,
    fate: Box<dyn Fate>,
) -> Result<String, Fault>
    requires { left fate < 2 ^ 56 }
    ensures came { CameOut S.tells (Some (Run name.now options)) result (S.file shelf.old)
        (S.file shelf.new) }
    ensures opens { OpensBy S.tells (status_of result) (Some (Run name.now options))
        (S.file shelf.old) (S.ids shelf.old) (S.ids shelf.new) }
    ensures order { OpensInOrder S.tells (Some (Run name.now options)) result (S.file shelf.old)
        (S.ids shelf.old) (S.ids shelf.new) }
    ensures faults { CountsFaults result (S.faults shelf.old) (S.faults shelf.new) }
{
    let topology = read_topology(alloc, shelf, name)?;
    let played = play_topology(alloc, shelf, &topology, options, fate);
    // By a call, since a block's end is far longer to prove where it lets a topology go.
    drop(topology);
    finished(shelf, played)
}

/// Does all but print: what the words ask for.
fn work<S: Shelf>(
    alloc: Global,
    words: &[String],
    shelf: &mut S,
    fate: Box<dyn Fate>,
    more: Vec<Box<dyn Fate>>,
) -> Result<String, Fault>
    requires fate { left fate < 2 ^ 56 }
    requires many { 15 ≤ length more.items }
    requires each { All (λ f. left f < 2 ^ 56) more.items }
    ensures came { CameOut S.tells (asked words.now) result (S.file shelf.old) (S.file shelf.new) }
    ensures makes { (number : ℕ) → asked words.now ≡ Some (Make number)
        → IfOk result (λ line. string_bytes line ≡ eager_summary (made number)) }
    ensures alone { (number : ℕ) → asked words.now ≡ Some (Make number) → shelf.new ≡ shelf.old }
    ensures opens { OpensBy S.tells (status_of result) (asked words.now) (S.file shelf.old)
        (S.ids shelf.old) (S.ids shelf.new) }
    ensures order { OpensInOrder S.tells (asked words.now) result (S.file shelf.old)
        (S.ids shelf.old) (S.ids shelf.new) }
    ensures faults { CountsFaults result (S.faults shelf.old) (S.faults shelf.new) }
{
    match accept(words) {
        None => Err(Fault::Usage),
        Some(Invocation::Run { topology, options }) => {
            run_topology(alloc, shelf, topology, options, fate)
        }
        Some(Invocation::Check { topology }) => check_topology(alloc, shelf, topology),
        Some(Invocation::Make { number }) => make_input(alloc, number, fate),
        Some(Invocation::Audit { topology }) => audit_topology(alloc, shelf, topology),
        Some(Invocation::Net { file, counters }) => run_net(
            alloc, shelf, file, counters, fate, more,
        ),
    }
}

/// Does all that the program does, by its words without the program's name, and answers its status.
pub fn run<S: Shelf, O: Sink>(
    alloc: Global,
    words: &[String],
    shelf: &mut S,
    out: &mut O,
    fate: Box<dyn Fate>,
    more: Vec<Box<dyn Fate>>,
) -> u8
    requires fate { left fate < 2 ^ 56 }
    requires many { 15 ≤ length more.items }
    requires each { All (λ f. left f < 2 ^ 56) more.items }
    // 0: all that the words ask for was read, played and written, and the sink got the text that
    // says so and nothing else. The headline is here.
    ensures done { Done S.tells O.tells (asked words.now) result (S.file shelf.old)
        (S.file shelf.new) (O.text out.old) (O.text out.new) }
    // 2, 3, 4, 5, 11 and 12: exactly by the first fault of the words, or of what they ask for. Its
    // line is printed, and no file has changed.
    ensures refused { Refused S.tells O.tells (asked words.now) result (S.file shelf.old)
        (S.file shelf.new) (O.faults out.old) (O.faults out.new) (O.text out.old) (O.text out.new) }
    // 1, 6, 7 and 10: memory ran out, or the shelf or the sink failed and counted that, once;
    // nothing is tried again. Else what can be done is done.
    ensures broken { Broken S.tells O.tells (asked words.now) result (S.file shelf.old)
        (S.file shelf.new) (S.faults shelf.old) (S.faults shelf.new)
        (S.ids shelf.old) (S.ids shelf.new) (O.faults out.old) (O.faults out.new) (O.text out.old)
        (O.text out.new) }
    // However it ended: what is printed, which files stay and what the others hold, and what was
    // opened, in which order.
    ensures leaves { Leaves S.tells O.tells (asked words.now) result (S.file shelf.old)
        (S.file shelf.new) (S.faults shelf.old) (S.faults shelf.new)
        (S.ids shelf.old) (S.ids shelf.new) (O.faults out.old) (O.faults out.new) (O.text out.old)
        (O.text out.new) }
    // Which statuses can come; and to make an input asks nothing of the shelf.
    ensures status { IsStatus (asked words.now) result }
    ensures alone { (number : ℕ) → asked words.now ≡ Some (Make number) → shelf.new ≡ shelf.old }
{
    let outcome = work(alloc, words, shelf, fate, more);
    let status = report(alloc, out, &outcome);
    drop(outcome);
    status
}
