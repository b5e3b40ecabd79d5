//! Playing a script and captures that were checked: the opening, then each segment in its turn.
ghost use Rattle.std.specs.Prelude.{[], ◌≡◌, ◌<◌, ◌^◌, ℕ, true, IfOk, IfErr, string_bytes};
ghost use Rattle.exb_model.specs.Input.{Eager};
ghost use Rattle.exb_model.specs.Setup.{IsValid, shape_of};
ghost use Rattle.exb_outputs.specs.InputsApart.{CanBeRead};
ghost use Rattle.exb_inputs.specs.Inputs.{input_from, is_named};
ghost use Rattle.exb_inputs.specs.ShelfEffects.{ReadsCapture, CountsFaults};
ghost use Rattle.exb_outputs.specs.CreationOrder.{MakesInOrder};
ghost use Rattle.exb_play.specs.PartialOutputs.{AreCutSoFar};
ghost use Rattle.exb_outputs.specs.KindTexts.{AreCutEagerly};
ghost use Rattle.exb_play.specs.Outputs.{HasPlayed};
ghost use Rattle.exb_outputs.specs.Manifests.{OnlyListed};
ghost use Rattle.exb_play.specs.RunInvariants.{IsRunOf};
ghost use Rattle.exb_play.specs.BridgeRuns.{IsScript, mode_of};
ghost use Rattle.exb_outputs.specs.Counts.{IsSummary};
ghost use Rattle.exb_inputs.specs.FaultPhases.{IsChange, IsOfPlay};
ghost use Rattle.exb_play.specs.ShelfEffects.{OnlyPlays};
ghost use Rattle.exb_outputs.specs.CaptureSizes.{HasSent};
ghost use Rattle.exb_outputs.specs.WrittenTexts.{HasTexts, IsReady, first_text, pieces_of};
ghost use Rattle.exb_shelf.specs.Shelf.{Opens};

use crate::bridge_player::play_feed;
use crate::feed::Feed;
use crate::ghost_run::OfRun;
use crate::script::{Schedule, Script};
use exb_fate::Fate;
use exb_inputs::{CheckedCapture, Fault, open_all, start_of};
use exb_outputs::{Manifest, Outputs, create_all};
use exb_shelf::Shelf;
use exb_timeline::Timeline;
use exb_timeline::laws::{merge_of_all, start_is_least};
use exb_topology_tables::Named;
use std::alloc::Global;
use std::marker::Brand;

/// Plays a script and the captures that are named, of which this was told, into outputs that were
/// made, and answers the summary line.
fn play_into<S: Shelf, R: OfRun>(
    alloc: Global,
    shelf: &mut S,
    manifest: &Manifest,
    script: &Script<'_>,
    names: &[Named],
    checked: &[CheckedCapture],
    schedule: Schedule,
    fate: Box<dyn Fate>,
    outputs: Outputs,
) -> Result<String, Fault>
    requires valid { IsValid script.now.setup.now }
    requires tree { manifest.now.tree ≡ shape_of script.now.setup.now }
    requires script { IsScript (shape_of script.now.setup.now) script.now.commands.now
        script.now.fate.now }
    requires captures { CanBeRead S.tells manifest.now names.now (S.file shelf.old) checked.now }
    requires fate { left fate < 2 ^ 56 }
    requires ready { IsReady manifest.now (S.ids shelf.old) outputs }
    requires run { IsRunOf S.tells R.run script.now.setup.now script.now.commands.now names.now
        (S.file shelf.old) }
    requires texts { S.tells → HasTexts manifest.now (pieces_of outputs) R.run.before
        (S.file shelf.old) first_text }
    requires sent { HasSent manifest.now outputs (λ q. []) }
    ensures done { S.tells
        → IfOk result (λ line. HasPlayed (mode_of schedule) R.run.input manifest.now R.run.before
        (S.file shelf.new) (string_bytes line)) }
    ensures says { IfOk result (λ line. IsSummary (string_bytes line)) }
    ensures fronts { S.tells → mode_of schedule ≡ Eager
        → AreCutEagerly R.run.input manifest.now R.run.before (S.file shelf.new) }
    ensures so_far { S.tells → AreCutSoFar (mode_of schedule) R.run.input manifest.now R.run.before
        (S.file shelf.new) }
    ensures never { S.tells → IfErr result (λ fault. IsChange fault → ⊥) }
    ensures others { S.tells → OnlyListed manifest.now (S.file shelf.old) (S.file shelf.new) }
    ensures opens { Opens (ReadsCapture names.now) (S.ids shelf.old) (S.ids shelf.new) }
    ensures port { IfErr result (λ fault. (p at : ℕ) → fault ≡ Fault.Changed p at
        → is_named names.now p ≡ true) }
    ensures causes { IfErr result IsOfPlay }
    ensures faults { CountsFaults result (S.faults shelf.old) (S.faults shelf.new) }
{
    merge_of_all();
    start_is_least();
    let captures = open_all(alloc, shelf, names, checked)?;
    let start = start_of(checked);
    let programme = Timeline::new(captures, script.commands, start);
    let mut feed = Feed {
        programme,
        gathered: Vec::new(alloc),
        played: Vec::new(alloc),
    };
    Ok(play_feed::<S, R>(
        alloc, shelf, manifest, script, schedule, fate, outputs, &mut feed,
    )?)
}

/// Plays a script and the captures that are named, of which this was told, in a run of them. The
/// outputs are made first; then each capture is read again in pieces.
fn play_run<S: Shelf, R: OfRun>(
    alloc: Global,
    shelf: &mut S,
    manifest: &Manifest,
    script: &Script<'_>,
    names: &[Named],
    checked: &[CheckedCapture],
    schedule: Schedule,
    fate: Box<dyn Fate>,
) -> Result<String, Fault>
    requires valid { IsValid script.now.setup.now }
    requires tree { manifest.now.tree ≡ shape_of script.now.setup.now }
    requires script { IsScript (shape_of script.now.setup.now) script.now.commands.now
        script.now.fate.now }
    requires captures { CanBeRead S.tells manifest.now names.now (S.file shelf.old) checked.now }
    requires fate { left fate < 2 ^ 56 }
    requires run { IsRunOf S.tells R.run script.now.setup.now script.now.commands.now names.now
        (S.file shelf.old) }
    requires before { S.tells → R.run.before ≡ S.file shelf.old }
    ensures done { S.tells
        → IfOk result (λ line. HasPlayed (mode_of schedule) R.run.input manifest.now R.run.before
        (S.file shelf.new) (string_bytes line)) }
    ensures says { IfOk result (λ line. IsSummary (string_bytes line)) }
    ensures fronts { S.tells → mode_of schedule ≡ Eager
        → AreCutEagerly R.run.input manifest.now R.run.before (S.file shelf.new) }
    ensures so_far { S.tells → AreCutSoFar (mode_of schedule) R.run.input manifest.now R.run.before
        (S.file shelf.new) }
    ensures never { S.tells → IfErr result (λ fault. IsChange fault → ⊥) }
    ensures only { OnlyPlays S.tells names.now manifest.now (S.file shelf.old) (S.file shelf.new)
        (S.ids shelf.old) (S.ids shelf.new) }
    ensures made { MakesInOrder manifest.now result (S.ids shelf.old) (S.ids shelf.new) }
    ensures port { IfErr result (λ fault. (p at : ℕ) → fault ≡ Fault.Changed p at
        → is_named names.now p ≡ true) }
    ensures causes { IfErr result IsOfPlay }
    ensures faults { CountsFaults result (S.faults shelf.old) (S.faults shelf.new) }
{
    let outputs = create_all(alloc, shelf, manifest)?;
    play_into::<S, R>(
        alloc, shelf, manifest, script, names, checked, schedule, fate, outputs,
    )
}

/// Plays a script and the captures that are named, of which this was told, and answers the summary
/// line.
pub fn play<S: Shelf>(
    alloc: Global,
    shelf: &mut S,
    manifest: &Manifest,
    script: &Script<'_>,
    names: &[Named],
    checked: &[CheckedCapture],
    schedule: Schedule,
    fate: Box<dyn Fate>,
) -> Result<String, Fault>
    requires valid { IsValid script.now.setup.now }
    requires tree { manifest.now.tree ≡ shape_of script.now.setup.now }
    requires script { IsScript (shape_of script.now.setup.now) script.now.commands.now
        script.now.fate.now }
    requires captures { CanBeRead S.tells manifest.now names.now (S.file shelf.old) checked.now }
    requires fate { left fate < 2 ^ 56 }
    ensures done { S.tells
        → IfOk result (λ line. HasPlayed (mode_of schedule)
        (input_from script.now.setup.now script.now.commands.now names.now (S.file shelf.old))
        manifest.now (S.file shelf.old) (S.file shelf.new) (string_bytes line)) }
    ensures says { IfOk result (λ line. IsSummary (string_bytes line)) }
    ensures fronts { S.tells → mode_of schedule ≡ Eager
        → AreCutEagerly (input_from script.now.setup.now script.now.commands.now names.now
        (S.file shelf.old)) manifest.now (S.file shelf.old) (S.file shelf.new) }
    ensures so_far { S.tells → AreCutSoFar (mode_of schedule)
        (input_from script.now.setup.now script.now.commands.now names.now (S.file shelf.old))
        manifest.now (S.file shelf.old) (S.file shelf.new) }
    ensures never { S.tells → IfErr result (λ fault. IsChange fault → ⊥) }
    ensures only { OnlyPlays S.tells names.now manifest.now (S.file shelf.old) (S.file shelf.new)
        (S.ids shelf.old) (S.ids shelf.new) }
    ensures made { MakesInOrder manifest.now result (S.ids shelf.old) (S.ids shelf.new) }
    ensures port { IfErr result (λ fault. (p at : ℕ) → fault ≡ Fault.Changed p at
        → is_named names.now p ≡ true) }
    ensures causes { IfErr result IsOfPlay }
    ensures faults { CountsFaults result (S.faults shelf.old) (S.faults shelf.new) }
{
    play_run::<S, Brand>(
        alloc, shelf, manifest, script, names, checked, schedule, fate,
    )
}
