//! What is made before the first event: the desk of each bridge, its captures opened again, and its
//! fate.
ghost use Rattle.std.specs.Prelude.{◌≡◌, ◌<◌, ◌++◌, ◌∷◌, [], false, ℕ, List, IfErr, IfOk, IsErrOf, OnErr, OnOk, length, map, All, ◌≤◌, ◌+◌, ◌^◌, AllPairs, true};
ghost use Rattle.std.specs.List.{AllByRecursion};
ghost use Rattle.exb_inputs.specs.declared.fault.Fault.{Fault};
ghost use Rattle.exb_timeline.specs.declared.bridge_timeline.Timeline.{Timeline};
ghost use Rattle.exb_timeline.specs.NetMergeOrder.{IsAgenda, all_ids, programmes_in};
ghost use Rattle.exb_model.specs.Setup.{IsValid};
ghost use Rattle.exb_net.specs.PairedLists.{AreEach};
ghost use Rattle.exb_net_file.specs.declared.net_parts.BridgeInputs.{BridgeInputs};
ghost use Rattle.exb_net_spec.specs.declared.wires.Wire.{Wire};
ghost use Rattle.exb_net_file.specs.declared.members.NetMember.{NetMember};
ghost use Rattle.exb_net_file.specs.SetupParts.{IsTakenApart, rest_of};
ghost use Rattle.exb_inputs.specs.NetContents.{AreRead};
ghost use Rattle.exb_inputs.specs.OpenedNetFiles.{ReadsMemberCapture};
ghost use Rattle.exb_inputs.specs.ReplayStart.{AreSince};
ghost use Rattle.exb_inputs.specs.CaptureChecks.{AreChecked};
ghost use Rattle.exb_inputs.specs.Inputs.{is_named};
ghost use Rattle.exb_inputs.specs.ShelfEffects.{CountsFaults, ReadsCapture};
ghost use Rattle.exb_outputs.specs.CreationOrder.{MakesInOrder};
ghost use Rattle.exb_outputs.specs.ShelfEffects.{IsOfWriting, OnlyMakes};
ghost use Rattle.exb_outputs.specs.WrittenTexts.{AreCut};
ghost use Rattle.exb_shelf.specs.Files.{SameFiles};
ghost use Rattle.exb_shelf.specs.Shelf.{Opens};
ghost use Rattle.exb_journal.specs.declared.file_names.OutputKind.{OutputKind};
ghost use Rattle.exb_net.specs.declared.bridge_outputs.BridgeOutputs.{BridgeOutputs};
ghost use Rattle.exb_net.specs.WrittenOutputs.{OnlyAllListed};
ghost use Rattle.exb_net.specs.Answers.{IsOfNetPlay};
ghost use Rattle.exb_net.specs.Nets.{net_of, manifest_with};
ghost use Rattle.exb_net.specs.OpenOrder.{HasCaptureAt, MakesNet, WritesNetOutput};
ghost use Rattle.exb_net.specs.ReopenedCaptures.{IsOpenedAgain, start_of_told};
ghost use Rattle.exb_net.specs.Preparation.{AreCutAs, AreSet, GoesFrom, IsSet, IsToBeOpened, manifest_under};
ghost use Rattle.exb_net.specs.ShelfEffects.{IsNetChange, IsOfCaptures};
ghost use Rattle.exb_net.specs.NetInvariants.{AreOfRests, Begins, LeadsOn};

use crate::bridge_outputs::BridgeOutputs;
use exb_cli::Options;
use exb_fate::Fate;
use exb_inputs::{CheckedCapture, Fault, earliest_in, of_member, open_all};
use exb_model::memory::NoMemory;
use exb_model::setup::{Setup, Verdict};
use exb_net_file::laws::bridges_write_apart;
use exb_net_file::{BridgeInputs, NetParts, prefix_of};
use exb_outputs::{Manifest, RunCounts, create_all};
use exb_shelf::Shelf;
use exb_timeline::laws::{agendas_stay, dues_of_all, net_start_is_least};
use exb_timeline::{NetTimeline, Timeline};
use std::alloc::Global;

/// What a bridge of this name writes.
fn manifest_of(
    alloc: Global,
    setup: &Setup,
    name: &str,
    counters: bool,
) -> Result<Manifest, NoMemory>
    requires { IsValid setup.now }
    ensures { IfOk result (λ manifest. manifest ≡ manifest_under setup.now name.now counters) }
{
    let prefix = prefix_of(alloc, name)?;
    let options = Options::eager(counters);
    Manifest::new(alloc, setup, prefix.as_str(), options)
}

/// Makes the files of a bridge, and puts its desk behind those of the bridges before it.
fn set_desk<S: Shelf>(
    alloc: Global,
    shelf: &mut S,
    setup: &Setup,
    name: &str,
    counters: bool,
    desks: &mut Vec<BridgeOutputs>,
) -> Result<(), Fault>
    requires valid { IsValid setup.now }
    ensures set { OnOk result ((d : BridgeOutputs) × (desks.new.items ≡ desks.old.items ++ d ∷ [])
        × (d.manifest ≡ manifest_under setup.now name.now counters)
        × IsSet S.tells (S.file shelf.new) (S.ids shelf.new) d) }
    ensures cut { S.tells → OnErr result ((text : OutputKind → List ℕ) → GoesFrom text
        → AreCut (manifest_under setup.now name.now counters) (S.file shelf.old)
        (S.file shelf.new) text) }
    ensures only { OnlyMakes S.tells (manifest_under setup.now name.now counters) (S.file shelf.old)
        (S.file shelf.new) (S.ids shelf.old) (S.ids shelf.new) }
    ensures made { MakesInOrder (manifest_under setup.now name.now counters) result
        (S.ids shelf.old) (S.ids shelf.new) }
    ensures causes { IfErr result IsOfWriting }
    ensures faults { CountsFaults result (S.faults shelf.old) (S.faults shelf.new) }
{
    // First, so that a desk that is made needn't be let go of.
    if desks.reserve(1).is_err() {
        return Err(Fault::Memory);
    }
    let manifest = manifest_of(alloc, setup, name, counters)?;
    let counted = RunCounts::new(alloc, setup, &manifest)?;
    let outputs = create_all(alloc, shelf, &manifest)?;
    desks.push_reserved(BridgeOutputs {
        manifest,
        outputs,
        counted,
    });
    Ok(())
}

/// Makes the files of all bridges, bridge after bridge.
pub(crate) fn set_desks<S: Shelf>(
    alloc: Global,
    shelf: &mut S,
    parts: &NetParts,
    counters: bool,
) -> Result<Vec<BridgeOutputs>, Fault>
    requires read { (ms : List NetMember)
        × ((ws : List Wire) × (IsTakenApart ms ws parts.now × AreRead ms ws)) }
    ensures set { IfOk result (λ desks. (ms : List NetMember) (ws : List Wire)
        → IsTakenApart ms ws parts.now → AreRead ms ws
        → AreSet S.tells (map (manifest_with counters) ms) (S.file shelf.old) (S.file shelf.new)
        (S.ids shelf.new) desks.items) }
    ensures cut { S.tells → OnErr result ((ms : List NetMember) (ws : List Wire)
        → IsTakenApart ms ws parts.now → AreRead ms ws
        → (text : ℕ → OutputKind → List ℕ) → ((b : ℕ) → GoesFrom (text b))
        → AreCutAs (map (manifest_with counters) ms) (S.file shelf.old) (S.file shelf.new) text) }
    ensures only { S.tells → (ms : List NetMember) (ws : List Wire) → IsTakenApart ms ws parts.now
        → AreRead ms ws → OnlyAllListed (map (manifest_with counters) ms) (S.file shelf.old)
        (S.file shelf.new) }
    ensures opened { (ms : List NetMember) (ws : List Wire) → IsTakenApart ms ws parts.now
        → AreRead ms ws → Opens (WritesNetOutput counters ms) (S.ids shelf.old) (S.ids shelf.new) }
    ensures made { (ms : List NetMember) (ws : List Wire) → IsTakenApart ms ws parts.now
        → AreRead ms ws → MakesNet counters ms result (S.ids shelf.old) (S.ids shelf.new) }
    ensures causes { IfErr result IsOfWriting }
    ensures faults { CountsFaults result (S.faults shelf.old) (S.faults shelf.new) }
{
    bridges_write_apart();
    let mut desks = Vec::new(alloc);
    let setups = parts.setup.setups.as_slice();
    let rests = parts.rests.as_slice();
    for bridge in 0..rests.len() {
        let name = rests[bridge].name.as_str();
        set_desk(alloc, shelf, &setups[bridge], name, counters, &mut desks)?;
    }
    Ok(desks)
}

/// The second from which commands count: the least whole second of any first record of any bridge,
/// or 0.
fn start_of_all(checked: &[Vec<CheckedCapture>]) -> u64
    ensures { result ≡ start_of_told checked.now }
{
    let mut least = None;
    for captures in checked {
        least = earliest_in(least, captures.as_slice());
    }
    least.unwrap_or(0)
}

/// Opens the captures of a bridge again, and puts its programme behind those of the bridges before
/// it.
fn open_bridge<'a, S: Shelf>(
    alloc: Global,
    shelf: &mut S,
    rest: &'a BridgeInputs,
    checked: &[CheckedCapture],
    start: u64,
    agenda: &mut NetTimeline<'a>,
) -> Result<(), Fault>
    requires checked { AreChecked S.tells rest.now.captures (S.file shelf.old) checked.now }
    requires start { start < 2 ^ 32 }
    requires since { AreSince start checked.now }
    requires few { length rest.now.commands ≤ 65536 }
    requires rising { AllPairs (λ c d. c.at ≤ d.at) rest.now.commands }
    requires agenda { IsAgenda (S.ids shelf.old) agenda.old }
    requires room { length (programmes_in agenda.old) < 256 }
    requires given { AllByRecursion (λ k. (S.ids shelf.old k).given ≡ true)
        (all_ids (programmes_in agenda.old)) }
    ensures agenda { OnOk result (IsAgenda (S.ids shelf.new) agenda.new) }
    ensures programme { OnOk result ((p : Timeline)
        × (programmes_in agenda.new ≡ programmes_in agenda.old ++ p ∷ [])
        × IsOpenedAgain S.tells start rest.now checked.now (S.file shelf.old) (S.file shelf.new)
        (S.ids shelf.old) (S.ids shelf.new) p) }
    ensures never { S.tells → IfErr result (λ fault. IsNetChange fault → ⊥) }
    ensures opens { Opens (ReadsCapture rest.now.captures) (S.ids shelf.old) (S.ids shelf.new) }
    ensures files { SameFiles (S.file shelf.old) (S.file shelf.new) }
    ensures changed { IfErr result (λ fault. (name : List ℕ) (p at : ℕ)
        → fault ≡ Fault.MemberChanged name p at → (name ≡ rest.now.name)
        × (is_named rest.now.captures p ≡ true)) }
    ensures causes { IfErr result IsOfNetPlay }
    ensures faults { CountsFaults result (S.faults shelf.old) (S.faults shelf.new) }
{
    agendas_stay();
    match open_all(alloc, shelf, rest.captures.as_slice(), checked) {
        Ok(captures) => {
            let programme = Timeline::new(captures, rest.commands.as_slice(), start);
            agenda.add(programme)?;
            Ok(())
        }
        Err(fault) => Err(of_member(alloc, rest.name.as_str(), fault)),
    }
}

/// Opens the captures of all bridges again, bridge after bridge.
pub(crate) fn open_agenda<'a, S: Shelf>(
    alloc: Global,
    shelf: &mut S,
    rests: &'a [BridgeInputs],
    checked: &[Vec<CheckedCapture>],
) -> Result<NetTimeline<'a>, Fault>
    requires read { (ms : List NetMember)
        × ((ws : List Wire) × IsToBeOpened S.tells ms ws rests.now (S.file shelf.old) checked.now) }
    ensures agenda { IfOk result (IsAgenda (S.ids shelf.new)) }
    ensures rests { IfOk result (λ agenda. AreOfRests rests.now (programmes_in agenda)) }
    ensures fresh { IfOk result (λ agenda. AllByRecursion (λ k. (S.ids shelf.old k).given ≡ false)
        (all_ids (programmes_in agenda))) }
    ensures named { IfOk result (λ agenda. (ms : List NetMember) → rests.now ≡ map rest_of ms
        → AllByRecursion (λ k. ReadsMemberCapture ms (S.ids shelf.new k))
        (all_ids (programmes_in agenda))) }
    ensures ports { IfOk result (λ agenda. (ms : List NetMember) → rests.now ≡ map rest_of ms
        → (name : List ℕ) (q : ℕ) → IsOfCaptures rests.now (programmes_in agenda) name q
        → HasCaptureAt ms name q) }
    ensures begins { IfOk result (λ agenda. (ms : List NetMember) (ws : List Wire)
        → IsToBeOpened S.tells ms ws rests.now (S.file shelf.old) checked.now
        → Begins (net_of ms ws (S.file shelf.old)) (programmes_in agenda)) }
    ensures leads { S.tells → IfOk result (λ agenda. (ms : List NetMember) (ws : List Wire)
        → IsToBeOpened S.tells ms ws rests.now (S.file shelf.old) checked.now
        → LeadsOn (net_of ms ws (S.file shelf.old)) [] (S.file shelf.new) (S.ids shelf.new)
        (programmes_in agenda)) }
    ensures never { S.tells → IfErr result (λ fault. IsNetChange fault → ⊥) }
    ensures opens { (ms : List NetMember) → rests.now ≡ map rest_of ms
        → Opens (ReadsMemberCapture ms) (S.ids shelf.old) (S.ids shelf.new) }
    ensures files { SameFiles (S.file shelf.old) (S.file shelf.new) }
    ensures changed { (ms : List NetMember) → rests.now ≡ map rest_of ms
        → (name : List ℕ) (p at : ℕ) → IsErrOf result (Fault.MemberChanged name p at)
        → HasCaptureAt ms name p }
    ensures causes { IfErr result IsOfNetPlay }
    ensures faults { CountsFaults result (S.faults shelf.old) (S.faults shelf.new) }
{
    agendas_stay();
    dues_of_all();
    net_start_is_least();
    let start = start_of_all(checked);
    let mut agenda = NetTimeline::new(alloc);
    for bridge in 0..rests.len() {
        let rest = &rests[bridge];
        let captures = checked[bridge].as_slice();
        open_bridge(alloc, shelf, rest, captures, start, &mut agenda)?;
    }
    Ok(agenda)
}

/// Arms a fate for the opening of its bridge.
fn arm_fate(fate: &mut Box<dyn Fate>, plan: &[Verdict]) -> Result<(), NoMemory>
    requires low { left fate.old < 2 ^ 56 }
    requires plan { length plan.now ≤ 60000 }
    ensures { OnOk result (left fate.new < 2 ^ 56 + length plan.now) }
{
    fate.arm(plan)
}

/// Puts a fate that is armed for the opening of its bridge behind those of the bridges before it.
fn arm_one(
    fates: &mut Vec<Box<dyn Fate>>,
    fate: Box<dyn Fate>,
    plan: &[Verdict],
) -> Result<(), NoMemory>
    requires low { left fate < 2 ^ 56 }
    requires plan { length plan.now ≤ 60000 }
    ensures { OnOk result ((rs : List BridgeInputs) (r : BridgeInputs) → r.fate ≡ plan.now
        → AreEach (λ b r f. left f < 2 ^ 56 + length r.fate) rs fates.old.items
        → AreEach (λ b r f. left f < 2 ^ 56 + length r.fate) (rs ++ r ∷ []) fates.new.items) }
{
    let mut fate = fate;
    arm_fate(&mut fate, plan)?;
    fates.push(fate)?;
    Ok(())
}

/// A fate for each bridge, armed for its opening: this one for the first, and the next of more for
/// each other.
pub(crate) fn arm_all(
    alloc: Global,
    rests: &[BridgeInputs],
    fate: Box<dyn Fate>,
    more: &mut Vec<Box<dyn Fate>>,
) -> Result<Vec<Box<dyn Fate>>, NoMemory>
    requires some { 1 ≤ length rests.now }
    requires plans { All (λ r. length r.fate ≤ 60000) rests.now }
    requires fate { left fate < 2 ^ 56 }
    requires enough { length rests.now ≤ length more.old.items + 1 }
    requires low { All (λ f. left f < 2 ^ 56) more.old.items }
    ensures armed { IfOk result (λ fates. AreEach (λ b r f. left f < 2 ^ 56 + length r.fate)
        rests.now fates.items) }
{
    let mut fates = Vec::new(alloc);
    arm_one(&mut fates, fate, rests[0].fate.as_slice())?;
    let others = &rests[1..];
    for rest in others {
        arm_one(&mut fates, more.remove(0), rest.fate.as_slice())?;
    }
    Ok(fates)
}
