//! A run under way: the world, what is written of it, and what is counted.
ghost use Rattle.std.specs.Prelude.{◌≡◌, ◌≤◌, ◌<◌, ◌+◌, ◌^◌, ◌++◌, ◌∷◌, [], ℕ, List, length, drop, All, IfOk, OnOk, OnErr, None, Some, string_bytes};
ghost use Rattle.exb_model.specs.Input.{Input, Eager, Segment, seconds_after};
ghost use Rattle.exb_model.specs.Setup.{IsValid, shape_of};
ghost use Rattle.exb_model.specs.Texts.{summary_line};
ghost use Rattle.exb_trace_spec.specs.WritableLines.{HasBytes};
ghost use Rattle.exb_trace_spec.specs.RoundTrips.{IsOfNumbers};
ghost use Rattle.exb_world_laws.specs.SegmentRuns.{IsTimely};
ghost use Rattle.exb_world.specs.WorldContracts.{IsSame};
ghost use Rattle.exb_bridge.specs.BridgeWorlds.{all_left};
ghost use Rattle.exb_schedule.specs.SegmentRuns.{CanAll, IsSegment, gives, letters_in};
ghost use Rattle.exb_shelf.specs.Files.{Files, Filled};
ghost use Rattle.exb_journal.specs.declared.file_names.OutputKind.{OutputKind};
ghost use Rattle.exb_journal.specs.Tallies.{counts_of};
ghost use Rattle.exb_outputs.specs.Manifests.{kind_at, output_count, output_name};
ghost use Rattle.exb_outputs.specs.CaptureSizes.{AreCountedAt};
ghost use Rattle.exb_outputs.specs.WrittenTexts.{AreCut, HasTexts, IsReady, pieces_of};
ghost use Rattle.exb_outputs.specs.Counts.{AreCountsOf, CanCount, IsSummary};
ghost use Rattle.exb_outputs.specs.SentFrames.{CanBeWritten};
ghost use Rattle.exb_outputs.specs.TextUpdates.{with_end};
ghost use Rattle.exb_outputs.specs.KindTexts.{AreCutEagerly};
ghost use Rattle.exb_play.specs.Disks.{disk};
ghost use Rattle.exb_play.specs.PlayerViews.{here};
ghost use Rattle.exb_play.specs.BridgeRuns.{HasTold, IsCutOff, Told, mode_of, player, ◌with◌};
ghost use Rattle.exb_play.specs.RunInvariants.{CanBegin, CanBePlayed, CanGoOn, CountsLog, HasPlayedAll, IsCleared, IsCutWithin, IsOneMore, IsOpened, PlaysOn, Stands, WritesLog, WritesOn};
ghost use Rattle.exb_play.specs.PartialOutputs.{AreCutSoFar};
ghost use Rattle.exb_play.specs.Outputs.{HasPlayed};

use crate::fault::PlayFault;
use crate::feed::Feed;
use crate::ghost_run::OfRun;
use crate::script::{Schedule, Script};
use exb_audit::facts::{events_numbers, lines_bytes};
use exb_fate::Fate;
use exb_model::arrival::Arrival;
use exb_model::setup::Timed;
use exb_net_laws::laws::counts_go_on;
use exb_outputs::{LineScratch, Manifest, Outputs, RunCounts, write_end, write_told};
use exb_schedule::{World, WorldFault, count_left, eager, open, seeded};
use exb_shelf::{Shelf, ShelfFault};
use exb_trace_laws::laws::{runs_tell_legally, runs_tell_so_far};
use exb_world_laws::laws::runs::{
    runs_are_few, runs_are_under_way, runs_say_passed, runs_write_eagerly, runs_write_fronts,
    runs_write_legally,
};
use exb_world_spec::laws::steps_tell_passed;
use rand_core::SeedableRng;
use rand_pcg::Lcg64Xsh32;
use std::alloc::Global;

/// The world with the fate of its control words, what is written of it, and what is counted.
#[derive(Drop)]
struct BridgePlayer {
    world: World,
    fate: Box<dyn Fate>,
    outputs: Outputs,
    counted: RunCounts,
    /// What seeded runs draw from.
    rng: Lcg64Xsh32,
    room: LineScratch,
}

/// The number from which a schedule's generator begins; an eager run draws nothing.
fn seed_of(schedule: Schedule) -> u64 {
    match schedule {
        Schedule::Eager => 0,
        Schedule::Seeded { seed } => seed,
    }
}

/// Writes what has happened in a world since it was cleared.
#[inline(always)]
fn write_all<S: Shelf>(
    shelf: &mut S,
    manifest: &Manifest,
    outputs: &mut Outputs,
    room: &mut LineScratch,
    world: &World,
) -> Result<(), ShelfFault>
    requires ready { IsReady manifest.now (S.ids shelf.old) outputs.old }
    requires frames { All (λ x. CanBeWritten manifest.now x) world.now.log.left }
    ensures { WritesLog S.tells manifest.now (disk S.Shelf shelf.old) (disk S.Shelf shelf.new)
        outputs.old outputs.new world.now.log result }
{
    write_told(
        shelf,
        manifest,
        outputs,
        room,
        world.events(),
        world.left(),
        world.trace(),
    )
}

/// Plays a segment by a schedule.
#[inline(always)]
fn play_segment(
    schedule: Schedule,
    world: &mut World,
    fate: &mut dyn Fate,
    rng: &mut Lcg64Xsh32,
    seconds: u32,
    commands: &[Timed],
    arrivals: &[Arrival],
) -> Result<(), WorldFault>
    requires can { CanAll world.old (gives seconds commands.now arrivals.now) }
    requires few { left fate.old + letters_in commands.now < 2 ^ 57 }
    ensures plays { OnOk result ((i : Input) (so_far : List Segment) (s : Segment) (t : Told)
        → IsSegment i s seconds commands.now arrivals.now
        → HasTold (mode_of schedule) i so_far world.old (t with world.old.log)
        → HasTold (mode_of schedule) i (so_far ++ s ∷ []) world.new (t with world.new.log)) }
    ensures same { OnOk result (IsSame world.old world.new) }
    ensures fate { left fate.new ≤ left fate.old + letters_in commands.now }
{
    match schedule {
        Schedule::Eager => eager(world, fate, seconds, commands, arrivals),
        Schedule::Seeded { .. } => seeded(world, fate, rng, seconds, commands, arrivals),
    }
}

/// That the numbers of what a world told have 64 bits and the frames of its lines are bytes, by
/// their types. It does nothing.
fn told_by_types(world: &World)
    ensures numbers { All IsOfNumbers world.now.log.events }
    ensures bytes { All HasBytes world.now.log.lines }
{
    events_numbers(world.events());
    lines_bytes(world.trace());
}

/// The seconds from what came before to what comes at `second`, 0 for what comes first.
fn seconds_since(last: Option<u64>, second: u64) -> u32
    requires { seconds_after last second < 2 ^ 32 }
    ensures { result ≡ seconds_after last second }
{
    match last {
        None => 0,
        Some(last) => second.saturating_sub(last) as u32,
    }
}

impl BridgePlayer {
    /// Writes and counts what has happened in the world since it was cleared, and clears it.
    #[inline(always)]
    fn note<S: Shelf>(&mut self, shelf: &mut S, manifest: &Manifest) -> Result<(), ShelfFault>
        requires ready { IsReady manifest.now (S.ids shelf.old) self.old.outputs }
        requires frames { All (λ x. CanBeWritten manifest.now x) self.old.world.log.left }
        requires can { CanCount self.old.counted self.old.world.log.events self.old.world.log.passed
            (length (all_left self.old.world.log.left)) }
        ensures writes { WritesLog S.tells manifest.now (disk S.Shelf shelf.old)
            (disk S.Shelf shelf.new) self.old.outputs self.new.outputs self.old.world.log result }
        ensures cleared { OnOk result (IsCleared self.old.world self.new.world) }
        ensures counts { OnOk result (CountsLog self.old.counted self.new.counted
            self.old.world.log) }
        ensures fate { OnOk result (left self.new.fate ≡ left self.old.fate) }
    {
        write_all(
            shelf,
            manifest,
            &mut self.outputs,
            &mut self.room,
            &self.world,
        )?;
        self.counted.note(
            self.world.events(),
            self.world.passed(),
            count_left(self.world.left()) as usize,
        );
        self.world.clear();
        Ok(())
    }

    /// Plays a segment, and writes and counts what happens.
    fn turn<S: Shelf, R: OfRun>(
        &mut self,
        shelf: &mut S,
        manifest: &Manifest,
        schedule: Schedule,
        seconds: u32,
        commands: &[Timed],
        arrivals: &[Arrival],
    ) -> Result<(), ShelfFault>
        requires playable { CanBePlayed S.tells R.run
            (here schedule manifest.now self.old (disk S.Shelf shelf.old)) seconds commands.now
            arrivals.now }
        requires budget { left self.old.fate + letters_in commands.now < 2 ^ 57 }
        ensures told { OnOk result (IsOneMore S.tells R.run
            (here schedule manifest.now self.old (disk S.Shelf shelf.old))
            (here schedule manifest.now self.new (disk S.Shelf shelf.new)) seconds commands.now
            arrivals.now) }
        ensures cut { S.tells
            → OnErr result (IsCutWithin S.tells R.run (here schedule manifest.now self.old
            (disk S.Shelf shelf.old)) seconds commands.now arrivals.now (S.file shelf.new)) }
        ensures budget { OnOk result (left self.new.fate ≤ left self.old.fate + letters_in
            commands.now) }
        ensures writes { WritesOn S.tells manifest.now (disk S.Shelf shelf.old)
            (disk S.Shelf shelf.new) result }
    {
        runs_are_under_way();
        runs_are_few();
        steps_tell_passed();
        manifest.is_tree();
        if play_segment(
            schedule,
            &mut self.world,
            &mut *self.fate,
            &mut self.rng,
            seconds,
            commands,
            arrivals,
        )
        .is_err()
        {
            return Err(ShelfFault::Memory);
        }
        told_by_types(&self.world);
        self.note(shelf, manifest)
    }

    /// Plays what was gathered, of this second, behind what came before it. So many commands were
    /// taken `from` the programme before it.
    fn go_on<S: Shelf, R: OfRun>(
        &mut self,
        shelf: &mut S,
        manifest: &Manifest,
        schedule: Schedule,
        last: Option<u64>,
        second: u64,
        from: usize,
        feed: &Feed<'_>,
    ) -> Result<(), ShelfFault>
        requires gathered { CanGoOn S.tells R.run (here schedule manifest.now self.old
            (disk S.Shelf shelf.old)) last second from feed.now }
        requires budget { left self.old.fate + letters_in
            (drop from feed.now.programme.commands.now) < 2 ^ 57 }
        ensures stands { OnOk result (Stands S.tells R.run
            (here schedule manifest.now self.new (disk S.Shelf shelf.new)) (Some second)
            feed.now.programme) }
        ensures cut { S.tells → OnErr result (IsCutOff (mode_of schedule) R.run manifest.now
            (S.file shelf.new)) }
        ensures budget { OnOk result (left self.new.fate + letters_in
            (drop feed.now.programme.taken feed.now.programme.commands.now) < 2 ^ 57) }
        ensures writes { WritesOn S.tells manifest.now (disk S.Shelf shelf.old)
            (disk S.Shelf shelf.new) result }
    {
        runs_are_under_way();
        let commands = feed.programme.taken_since(from);
        let arrivals = feed.gathered.as_slice();
        let seconds = seconds_since(last, second);
        self.turn::<S, R>(shelf, manifest, schedule, seconds, commands, arrivals)
    }

    /// Plays all that comes, one segment after another.
    fn play_all<S: Shelf, R: OfRun>(
        &mut self,
        alloc: Global,
        shelf: &mut S,
        manifest: &Manifest,
        schedule: Schedule,
        feed: &mut Feed<'_>,
    ) -> Result<(), PlayFault>
        requires stands { Stands S.tells R.run (here schedule manifest.now self.old
            (disk S.Shelf shelf.old)) None feed.old.programme }
        requires budget { left self.old.fate + letters_in
            (drop feed.old.programme.taken feed.old.programme.commands.now) < 2 ^ 57 }
        ensures played { OnOk result (HasPlayedAll S.tells R.run
            (here schedule manifest.now self.new (disk S.Shelf shelf.new))) }
        ensures cut { S.tells → OnErr result (IsCutOff (mode_of schedule) R.run manifest.now
            (S.file shelf.new)) }
        ensures plays { PlaysOn S.tells manifest.now (disk S.Shelf shelf.old) feed.old.programme
            (disk S.Shelf shelf.new) result }
    {
        runs_are_under_way();
        runs_are_few();
        let mut last: Option<u64> = None;
        let mut taken = feed.programme.taken();
        'events: while let Some(second) = feed.gather(alloc, shelf, schedule)? {
            self.go_on::<S, R>(shelf, manifest, schedule, last, second, taken, feed)?;
            taken = feed.programme.taken();
            last = Some(second);
        }
        Ok(())
    }

    /// Writes what is still to be written, and answers the summary line.
    fn end<S: Shelf>(
        &mut self,
        alloc: Global,
        shelf: &mut S,
        manifest: &Manifest,
    ) -> Result<String, ShelfFault>
        requires ready { IsReady manifest.now (S.ids shelf.old) self.old.outputs }
        requires counted { AreCountsOf manifest.now self.old.counted.ports }
        requires sent { AreCountedAt manifest.now self.old.outputs }
        requires few { self.old.counted.tally.relayed + self.old.counted.tally.ignored < 2 ^ 64 }
        ensures texts { S.tells → OnOk result ((orig : Files) (text : OutputKind → List ℕ)
            → HasTexts manifest.now (pieces_of self.old.outputs) orig (S.file shelf.old) text
            → Filled orig (S.file shelf.new) (output_count manifest.now) (output_name manifest.now)
            (λ j bytes. bytes ≡ with_end text manifest.now self.old.counted.ports self.old.outputs
            (kind_at manifest.now j))) }
        ensures cut { S.tells → OnErr result ((orig : Files) (text : OutputKind → List ℕ)
            → HasTexts manifest.now (pieces_of self.old.outputs) orig (S.file shelf.old) text
            → AreCut manifest.now orig (S.file shelf.new)
            (with_end text manifest.now self.old.counted.ports self.old.outputs)) }
        ensures line { IfOk result (λ line. string_bytes line
            ≡ summary_line (counts_of self.old.counted.tally)) }
        ensures writes { WritesOn S.tells manifest.now (disk S.Shelf shelf.old)
            (disk S.Shelf shelf.new) result }
    {
        write_end(
            shelf,
            manifest,
            &mut self.outputs,
            &mut self.room,
            &self.counted.ports,
        )?;
        self.outputs.finish(shelf, manifest)?;
        match self.counted.tally.line(alloc) {
            Ok(line) => Ok(line),
            Err(_) => Err(ShelfFault::Memory),
        }
    }

    /// Plays all that comes, writes what is still to be written, and answers the summary line.
    fn play_on<S: Shelf, R: OfRun>(
        &mut self,
        alloc: Global,
        shelf: &mut S,
        manifest: &Manifest,
        schedule: Schedule,
        feed: &mut Feed<'_>,
    ) -> Result<String, PlayFault>
        requires stands { Stands S.tells R.run (here schedule manifest.now self.old
            (disk S.Shelf shelf.old)) None feed.old.programme }
        requires timely { IsTimely R.run.input }
        requires budget { left self.old.fate + letters_in
            (drop feed.old.programme.taken feed.old.programme.commands.now) < 2 ^ 57 }
        ensures done { S.tells
            → IfOk result (λ line. HasPlayed (mode_of schedule) R.run.input manifest.now
            R.run.before (S.file shelf.new) (string_bytes line)) }
        ensures says { IfOk result (λ line. IsSummary (string_bytes line)) }
        ensures cut { S.tells → OnErr result (IsCutOff (mode_of schedule) R.run manifest.now
            (S.file shelf.new)) }
        ensures plays { PlaysOn S.tells manifest.now (disk S.Shelf shelf.old) feed.old.programme
            (disk S.Shelf shelf.new) result }
    {
        runs_are_under_way();
        runs_write_legally();
        runs_write_eagerly();
        runs_say_passed();
        counts_go_on();
        runs_tell_legally();
        manifest.is_tree();
        self.play_all::<S, R>(alloc, shelf, manifest, schedule, feed)?;
        Ok(self.end(alloc, shelf, manifest)?)
    }

    /// Writes and counts what happened by the opening, plays all that comes, and answers the
    /// summary line.
    fn play_opened<S: Shelf, R: OfRun>(
        &mut self,
        alloc: Global,
        shelf: &mut S,
        manifest: &Manifest,
        schedule: Schedule,
        feed: &mut Feed<'_>,
    ) -> Result<String, PlayFault>
        requires opened { IsOpened S.tells R.run (here schedule manifest.now self.old
            (disk S.Shelf shelf.old)) feed.old.programme }
        requires budget { left self.old.fate + letters_in
            (drop feed.old.programme.taken feed.old.programme.commands.now) < 2 ^ 57 }
        ensures done { S.tells
            → IfOk result (λ line. HasPlayed (mode_of schedule) R.run.input manifest.now
            R.run.before (S.file shelf.new) (string_bytes line)) }
        ensures says { IfOk result (λ line. IsSummary (string_bytes line)) }
        ensures cut { S.tells → OnErr result (IsCutOff (mode_of schedule) R.run manifest.now
            (S.file shelf.new)) }
        ensures plays { PlaysOn S.tells manifest.now (disk S.Shelf shelf.old) feed.old.programme
            (disk S.Shelf shelf.new) result }
    {
        runs_are_under_way();
        runs_are_few();
        steps_tell_passed();
        manifest.is_tree();
        told_by_types(&self.world);
        self.note(shelf, manifest)?;
        self.play_on::<S, R>(alloc, shelf, manifest, schedule, feed)
    }
}

/// Plays what a feed has in a world that is opened, and answers the summary line.
fn play_world<S: Shelf, R: OfRun>(
    alloc: Global,
    shelf: &mut S,
    manifest: &Manifest,
    schedule: Schedule,
    world: World,
    fate: Box<dyn Fate>,
    outputs: Outputs,
    counted: RunCounts,
    feed: &mut Feed<'_>,
) -> Result<String, PlayFault>
    requires opened { IsOpened S.tells R.run (player schedule manifest.now world counted outputs
        (disk S.Shelf shelf.old)) feed.old.programme }
    requires budget { left fate + letters_in
        (drop feed.old.programme.taken feed.old.programme.commands.now) < 2 ^ 57 }
    ensures done { S.tells
        → IfOk result (λ line. HasPlayed (mode_of schedule) R.run.input manifest.now R.run.before
        (S.file shelf.new) (string_bytes line)) }
    ensures says { IfOk result (λ line. IsSummary (string_bytes line)) }
    ensures cut { S.tells → OnErr result (IsCutOff (mode_of schedule) R.run manifest.now
        (S.file shelf.new)) }
    ensures plays { PlaysOn S.tells manifest.now (disk S.Shelf shelf.old) feed.old.programme
        (disk S.Shelf shelf.new) result }
{
    let mut game = BridgePlayer {
        world,
        fate,
        outputs,
        counted,
        rng: Lcg64Xsh32::seed_from_u64(seed_of(schedule)),
        room: LineScratch::new(alloc),
    };
    let played = game.play_opened::<S, R>(alloc, shelf, manifest, schedule, feed);
    // By a call, since a block's end is far longer to prove where it lets a world go.
    drop(game);
    played
}

/// Opens the world of a script's setup, plays what a feed has from there into outputs that were
/// made, and answers the summary line.
pub(crate) fn play_feed<S: Shelf, R: OfRun>(
    alloc: Global,
    shelf: &mut S,
    manifest: &Manifest,
    script: &Script<'_>,
    schedule: Schedule,
    fate: Box<dyn Fate>,
    outputs: Outputs,
    feed: &mut Feed<'_>,
) -> Result<String, PlayFault>
    requires valid { IsValid script.now.setup.now }
    requires tree { manifest.now.tree ≡ shape_of script.now.setup.now }
    requires begins { CanBegin S.tells (mode_of schedule) R.run script.now.setup.now manifest.now
        (disk S.Shelf shelf.old) outputs feed.old.programme }
    requires budget { left fate + length script.now.fate.now + letters_in
        (drop feed.old.programme.taken feed.old.programme.commands.now) < 2 ^ 57 }
    ensures done { S.tells
        → IfOk result (λ line. HasPlayed (mode_of schedule) R.run.input manifest.now R.run.before
        (S.file shelf.new) (string_bytes line)) }
    ensures says { IfOk result (λ line. IsSummary (string_bytes line)) }
    ensures fronts { S.tells → mode_of schedule ≡ Eager
        → AreCutEagerly R.run.input manifest.now R.run.before (S.file shelf.new) }
    ensures so_far { S.tells → AreCutSoFar (mode_of schedule) R.run.input manifest.now R.run.before
        (S.file shelf.new) }
    ensures plays { PlaysOn S.tells manifest.now (disk S.Shelf shelf.old) feed.old.programme
        (disk S.Shelf shelf.new) result }
{
    runs_write_fronts();
    runs_tell_so_far();
    let Ok(counted) = RunCounts::new(alloc, script.setup, manifest) else {
        return Err(PlayFault::Writing(ShelfFault::Memory));
    };
    let mut fate = fate;
    let Ok(world) = open(
        alloc,
        script.setup,
        &mut *fate,
        script.fate,
        manifest.options().trace,
    ) else {
        return Err(PlayFault::Writing(ShelfFault::Memory));
    };
    play_world::<S, R>(
        alloc, shelf, manifest, schedule, world, fate, outputs, counted, feed,
    )
}
