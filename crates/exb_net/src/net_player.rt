//! A net under way: its bridges, what is written of them, and what is counted.
ghost use Rattle.std.specs.Prelude.{◌≡◌, ◌+◌, ◌<◌, ◌≤◌, ◌^◌, ℕ, List, Some, None, All, length, slice_get, IfErr, IfOk, IfSome, IsErrOf, OnErr, OnOk, string_bytes};
ghost use Rattle.exb_model.specs.Input.{seconds_after};
ghost use Rattle.exb_model.specs.Texts.{summary_line};
ghost use Rattle.exb_timeline.specs.NetMergeOrder.{AreAllReplays, ComesTo, IsAgenda, IsFirstOf, all_ids, programmes_in};
ghost use Rattle.exb_timeline.specs.declared.bridge_timeline.Timeline.{Timeline};
ghost use Rattle.exb_timeline.specs.Streams.{Stream};
ghost use Rattle.exb_net_spec.specs.Nets.{Net as Wired};
ghost use Rattle.exb_net_laws.specs.NetRuns.{Dones};
ghost use Rattle.exb_net.specs.PairedLists.{AreEach};
ghost use Rattle.exb_net.specs.NetStates.{Handled, IsPlaying};
ghost use Rattle.exb_journal.specs.Tallies.{FitsTally, counts_of};
ghost use Rattle.exb_inputs.specs.ShelfEffects.{CountsFaults, OnlyReads};
ghost use Rattle.exb_outputs.specs.ShelfEffects.{CountsWrites, IsOfWriting};
ghost use Rattle.exb_outputs.specs.Counts.{IsSummary};
ghost use Rattle.exb_net.specs.Answers.{IsOfNetPlay};
ghost use Rattle.exb_net.specs.WrittenOutputs.{AllGoTogether, AreAllFronts, AreMore, AreNoted, AreManifestsApart, AreReady, CanEndAll, CanNoteAll, OnlyWritesAll, AreWhole, manifests_in, tallies_in};
ghost use Rattle.exb_net.specs.ShelfEffects.{AreOthersAll, IsNetChange, IsOfCaptures, OnlyGoesOnAll};
ghost use Rattle.exb_net.specs.Summaries.{added};
ghost use Rattle.exb_net.specs.NetInvariants.{AreOfRests, CanBegin, CanGive, HasWritten, IsAllTold, IsCutOff, IsDue, IsGoing, IsPaid, IsWithin, NetRun, came_by, letters_at};

use crate::Net;
use crate::bridge_outputs::{BridgeOutputs, NetLineScratch, add, finish, note};
use exb_inputs::{Fault, of_member};
use exb_journal::Tally;
use exb_model::moment::SECOND;
use exb_net_file::BridgeInputs;
use exb_net_laws::laws::{
    counts_go_on, events_add_one, nets_are_played_eagerly, opened_nets_are_new, opened_nets_run,
    seconds_pass,
};
use exb_schedule::WorldFault;
use exb_shelf::{Shelf, ShelfFault};
use exb_timeline::laws::agendas_stay;
use exb_timeline::{NetNext, NetTimeline, Next};
use exb_world_spec::laws::steps_tell_passed;
use std::alloc::Global;
use std::mem;

/// A net, and the desk of each of its bridges.
#[derive(Drop)]
pub(crate) struct NetPlayer {
    pub(crate) net: Net,
    pub(crate) desks: Vec<BridgeOutputs>,
    pub(crate) room: NetLineScratch,
}

/// The seconds from what came before to what comes at `second`, 0 for what comes first.
fn seconds_since(last: Option<u64>, second: u64) -> u32
    requires { seconds_after last second < 2 ^ 32 }
    ensures { result ≡ seconds_after last second }
{
    match last {
        None => 0,
        Some(last) => second.saturating_sub(last) as u32,
    }
}

/// Takes what comes next; None exactly where nothing is left. A capture of a bridge that is another
/// one than the one that was checked is a fault of that bridge. A record's bytes come in `buffer`,
/// which is written anew.
fn next_due<S: Shelf>(
    alloc: Global,
    shelf: &mut S,
    rests: &[BridgeInputs],
    agenda: &mut NetTimeline<'_>,
    buffer: &mut Vec<u8>,
) -> Result<Option<NetNext>, Fault>
    requires agenda { IsAgenda (S.ids shelf.old) agenda.old }
    requires rests { length (programmes_in agenda.old) ≤ length rests.now }
    ensures agenda { OnOk result (IsAgenda (S.ids shelf.new) agenda.new) }
    ensures coming { IfOk result (λ due.
        IfSome due (λ d. ComesTo (programmes_in agenda.old) d (programmes_in agenda.new))) }
    ensures order { S.tells → IfOk result (λ due. (streams : List (List Stream))
        → AreAllReplays (S.file shelf.old) (S.ids shelf.old) (programmes_in agenda.old) streams
        → IsFirstOf (programmes_in agenda.old) streams due (programmes_in agenda.new)
        (λ rest. AreAllReplays (S.file shelf.new) (S.ids shelf.new) (programmes_in agenda.new)
        rest)) }
    ensures never { S.tells → IfErr result (λ fault. IsNetChange fault
        → AreOthersAll (S.file shelf.old) (S.ids shelf.old) (programmes_in agenda.old)) }
    ensures ids { OnOk result (all_ids (programmes_in agenda.new)
        ≡ all_ids (programmes_in agenda.old)) }
    ensures reads { OnlyReads (all_ids (programmes_in agenda.old)) (S.file shelf.old)
        (S.file shelf.new) (S.ids shelf.old) (S.ids shelf.new) }
    ensures changed { (name : List ℕ) (p at : ℕ) → IsErrOf result (Fault.MemberChanged name p at)
        → IsOfCaptures rests.now (programmes_in agenda.old) name p }
    ensures causes { IfErr result IsOfNetPlay }
    ensures faults { CountsFaults result (S.faults shelf.old) (S.faults shelf.new) }
{
    match agenda.next(shelf, mem::replace(buffer, Vec::new(alloc))) {
        Ok(due) => Ok(due),
        Err(failure) => {
            let fault = Fault::from(failure.fault);
            match rests.get(failure.bridge as usize) {
                Some(rest) => Err(of_member(alloc, rest.name.as_str(), fault)),
                None => Err(fault),
            }
        }
    }
}

/// Gives what comes to its bridge, and plays what follows. A record's buffer is given back.
fn give(
    net: &mut Net,
    rests: &[BridgeInputs],
    due: NetNext,
    buffer: &mut Vec<u8>,
) -> Result<(), WorldFault>
    requires can { (n : Wired)
        × ((s : Dones) × ((told : Dones) × CanGive n s told rests.now due net.old)) }
    requires fates { All (λ x. left x.fate < 2 ^ 57) net.old.nodes.items }
    requires pays { (x : _) → slice_get net.old.nodes.items due.bridge ≡ Some x
        → left x.fate + letters_at rests.now due due.bridge < 2 ^ 57 }
    ensures ok { OnOk result ((n : Wired) (s told : Dones)
        (can : CanGive n s told rests.now due net.old)
        → Handled n due.bridge can.step s told net.new) }
    ensures came { OnOk result (net.new.came ≡ net.old.came + came_by due.next) }
    ensures fates { OnOk result
        (AreEach (λ b x y. left y.fate ≤ left x.fate + letters_at rests.now due b)
        net.old.nodes.items net.new.nodes.items) }
{
    let bridge = due.bridge;
    match due.next {
        Next::Record(came) => {
            let given = net.arrive(bridge, &came);
            *buffer = came.bytes.into_buffer();
            given
        }
        Next::Command { number, .. } => {
            let commands = rests[bridge as usize].commands.as_slice();
            net.command(bridge, &commands[number as usize - 1])
        }
    }
}

/// Writes and counts what all bridges told, and what left them, since they were cleared; those
/// alone are looked at to which something came.
fn note_all<S: Shelf>(
    shelf: &mut S,
    room: &mut NetLineScratch,
    desks: &mut Vec<BridgeOutputs>,
    net: &Net,
) -> Result<(), ShelfFault>
    requires ready { AreReady (S.ids shelf.old) desks.old.items }
    requires apart { AreManifestsApart (manifests_in desks.old.items) }
    requires can { CanNoteAll desks.old.items net.now.nodes.items }
    ensures manifests { manifests_in desks.new.items ≡ manifests_in desks.old.items }
    ensures ready { AreReady (S.ids shelf.new) desks.new.items }
    ensures noted { OnOk result ((told dones : Dones) → AllGoTogether told net.now.nodes.items
        → AreMore told dones net.now.nodes.items
        → AreNoted S.tells (S.file shelf.old) desks.old.items told
        → AreNoted S.tells (S.file shelf.new) desks.new.items dones) }
    ensures cut { S.tells → OnErr result ((told dones : Dones)
        → AllGoTogether told net.now.nodes.items → AreMore told dones net.now.nodes.items
        → AreNoted S.tells (S.file shelf.old) desks.old.items told
        → AreAllFronts (manifests_in desks.old.items) (S.file shelf.new) dones) }
    ensures only { OnlyWritesAll S.tells (manifests_in desks.old.items) (S.file shelf.old)
        (S.file shelf.new) (S.ids shelf.old) (S.ids shelf.new) }
    ensures faults { CountsWrites result (S.faults shelf.old) (S.faults shelf.new) }
{
    let mut from = 0;
    'noting: while let Some(bridge) = net.first_touched(from) {
        note(shelf, room, &mut desks[bridge], net.world(bridge as u8))?;
        from = bridge + 1;
    }
    Ok(())
}

/// Writes what is still to be written of all bridges.
fn finish_all<S: Shelf>(
    shelf: &mut S,
    room: &mut NetLineScratch,
    desks: &mut Vec<BridgeOutputs>,
) -> Result<(), ShelfFault>
    requires ready { AreReady (S.ids shelf.old) desks.old.items }
    requires apart { AreManifestsApart (manifests_in desks.old.items) }
    requires can { CanEndAll desks.old.items }
    ensures manifests { manifests_in desks.new.items ≡ manifests_in desks.old.items }
    ensures tallies { tallies_in desks.new.items ≡ tallies_in desks.old.items }
    ensures texts { S.tells → OnOk result ((dones : Dones)
        → AreNoted S.tells (S.file shelf.old) desks.old.items dones
        → AreWhole desks.old.items (S.file shelf.new) dones) }
    ensures cut { S.tells → OnErr result ((dones : Dones)
        → AreNoted S.tells (S.file shelf.old) desks.old.items dones
        → AreAllFronts (manifests_in desks.old.items) (S.file shelf.new) dones) }
    ensures only { OnlyWritesAll S.tells (manifests_in desks.old.items) (S.file shelf.old)
        (S.file shelf.new) (S.ids shelf.old) (S.ids shelf.new) }
    ensures faults { CountsWrites result (S.faults shelf.old) (S.faults shelf.new) }
{
    for bridge in 0..desks.len() {
        finish(shelf, room, &mut desks[bridge])?;
    }
    Ok(())
}

/// What all bridges counted together.
fn count_all(desks: &[BridgeOutputs]) -> Tally
    requires { FitsTally (added (tallies_in desks.now)) }
    ensures { counts_of result ≡ added (tallies_in desks.now) }
{
    let mut total = Tally::new();
    for desk in desks {
        add(&mut total, &desk.counted.tally);
    }
    total
}

impl NetPlayer {
    /// Writes and counts what happened since all bridges were cleared, and clears them.
    fn note<S: Shelf>(&mut self, shelf: &mut S) -> Result<(), ShelfFault>
        requires ready { AreReady (S.ids shelf.old) self.old.desks.items }
        requires apart { AreManifestsApart (manifests_in self.old.desks.items) }
        requires can { CanNoteAll self.old.desks.items self.old.net.nodes.items }
        ensures manifests { manifests_in self.new.desks.items ≡ manifests_in self.old.desks.items }
        ensures ready { AreReady (S.ids shelf.new) self.new.desks.items }
        ensures noted { OnOk result ((told dones : Dones)
            → AllGoTogether told self.old.net.nodes.items
            → AreMore told dones self.old.net.nodes.items
            → AreNoted S.tells (S.file shelf.old) self.old.desks.items told
            → AreNoted S.tells (S.file shelf.new) self.new.desks.items dones) }
        ensures cut { S.tells → OnErr result ((told dones : Dones)
            → AllGoTogether told self.old.net.nodes.items
            → AreMore told dones self.old.net.nodes.items
            → AreNoted S.tells (S.file shelf.old) self.old.desks.items told
            → AreAllFronts (manifests_in self.old.desks.items) (S.file shelf.new) dones) }
        ensures playing { OnOk result ((n : Wired) (s told : Dones)
            → IsPlaying n s told self.old.net → IsPlaying n s s self.new.net) }
        ensures came { OnOk result (self.new.net.came ≡ self.old.net.came) }
        ensures fates { OnOk result (AreEach (λ b x y. left y.fate ≤ left x.fate)
            self.old.net.nodes.items self.new.net.nodes.items) }
        ensures only { OnlyWritesAll S.tells (manifests_in self.old.desks.items) (S.file shelf.old)
            (S.file shelf.new) (S.ids shelf.old) (S.ids shelf.new) }
        ensures faults { CountsWrites result (S.faults shelf.old) (S.faults shelf.new) }
    {
        note_all(shelf, &mut self.room, &mut self.desks, &self.net)?;
        self.net.clear();
        Ok(())
    }

    /// Lets seconds pass, plays what comes then, and writes and counts what happens. A record's
    /// buffer is given back.
    fn turn<S: Shelf>(
        &mut self,
        shelf: &mut S,
        rests: &[BridgeInputs],
        seconds: u32,
        due: NetNext,
        buffer: &mut Vec<u8>,
    ) -> Result<(), ShelfFault>
        requires due { (r : NetRun)
            × ((second : ℕ) × ((ps : List Timeline)
            × (IsDue S.tells r (S.file shelf.old) (S.ids shelf.old) seconds second self.old due ps
            × (AreOfRests rests.now ps × IsPaid self.old.net.nodes.items (λ x. left x.fate)
            rests.now due ps)))) }
        ensures manifests { manifests_in self.new.desks.items ≡ manifests_in self.old.desks.items }
        ensures told { OnOk result ((r : NetRun) (second : ℕ) (ps : List Timeline)
            → IsDue S.tells r (S.file shelf.old) (S.ids shelf.old) seconds second self.old due ps
            → AreOfRests rests.now ps
            → IsGoing S.tells r (S.file shelf.new) (S.ids shelf.new) (Some second) self.new ps) }
        ensures budget { OnOk result ((ps : List Timeline)
            → IsPaid self.old.net.nodes.items (λ x. left x.fate) rests.now due ps
            → IsWithin self.new.net.nodes.items (λ x. left x.fate) ps) }
        ensures cut { S.tells → OnErr result ((r : NetRun) (second : ℕ) (ps : List Timeline)
            → IsDue S.tells r (S.file shelf.old) (S.ids shelf.old) seconds second self.old due ps
            → AreOfRests rests.now ps
            → IsCutOff r (S.file shelf.new)) }
        ensures only { OnlyWritesAll S.tells (manifests_in self.old.desks.items) (S.file shelf.old)
            (S.file shelf.new) (S.ids shelf.old) (S.ids shelf.new) }
        ensures faults { CountsWrites result (S.faults shelf.old) (S.faults shelf.new) }
    {
        agendas_stay();
        events_add_one();
        steps_tell_passed();
        seconds_pass();
        if self.net.tick(seconds).is_err() {
            return Err(ShelfFault::Memory);
        }
        if give(&mut self.net, rests, due, buffer).is_err() {
            return Err(ShelfFault::Memory);
        }
        self.note(shelf)
    }

    /// Plays all that comes, one event after another.
    fn play_all<S: Shelf>(
        &mut self,
        alloc: Global,
        shelf: &mut S,
        rests: &[BridgeInputs],
        agenda: &mut NetTimeline<'_>,
    ) -> Result<(), Fault>
        requires agenda { IsAgenda (S.ids shelf.old) agenda.old }
        requires rests { AreOfRests rests.now (programmes_in agenda.old) }
        requires going { (r : NetRun) × IsGoing S.tells r (S.file shelf.old) (S.ids shelf.old) None
            self.old (programmes_in agenda.old) }
        requires budget { IsWithin self.old.net.nodes.items (λ x. left x.fate)
            (programmes_in agenda.old) }
        ensures manifests { manifests_in self.new.desks.items ≡ manifests_in self.old.desks.items }
        ensures ready { OnOk result (AreReady (S.ids shelf.new) self.new.desks.items) }
        ensures can { OnOk result (CanEndAll self.new.desks.items) }
        ensures told { S.tells → OnOk result ((r : NetRun)
            → IsGoing S.tells r (S.file shelf.old) (S.ids shelf.old) None self.old
            (programmes_in agenda.old)
            → IsAllTold S.tells r (S.file shelf.new) (S.ids shelf.new) self.new) }
        ensures cut { S.tells → OnErr result ((r : NetRun)
            → IsGoing S.tells r (S.file shelf.old) (S.ids shelf.old) None self.old
            (programmes_in agenda.old)
            → IsCutOff r (S.file shelf.new)) }
        ensures never { S.tells → IfErr result (λ fault. IsNetChange fault → (r : NetRun)
            → IsGoing S.tells r (S.file shelf.old) (S.ids shelf.old) None self.old
            (programmes_in agenda.old) → ⊥) }
        ensures only { OnlyGoesOnAll S.tells (manifests_in self.old.desks.items)
            (all_ids (programmes_in agenda.old)) (S.file shelf.old) (S.file shelf.new)
            (S.ids shelf.old) (S.ids shelf.new) }
        ensures changed { (name : List ℕ) (p at : ℕ)
            → IsErrOf result (Fault.MemberChanged name p at)
            → IsOfCaptures rests.now (programmes_in agenda.old) name p }
        ensures causes { IfErr result IsOfNetPlay }
        ensures faults { CountsFaults result (S.faults shelf.old) (S.faults shelf.new) }
    {
        agendas_stay();
        let mut last: Option<u64> = None;
        let mut buffer = Vec::new(alloc);
        'events: while let Some(due) = next_due(alloc, shelf, rests, agenda, &mut buffer)? {
            let second = due.next.moment() / SECOND;
            let seconds = seconds_since(last, second);
            self.turn(shelf, rests, seconds, due, &mut buffer)?;
            last = Some(second);
        }
        Ok(())
    }

    /// Writes what is still to be written, and answers the summary line.
    fn end<S: Shelf>(&mut self, alloc: Global, shelf: &mut S) -> Result<String, Fault>
        requires ready { AreReady (S.ids shelf.old) self.old.desks.items }
        requires apart { AreManifestsApart (manifests_in self.old.desks.items) }
        requires can { CanEndAll self.old.desks.items }
        ensures texts { S.tells → OnOk result ((dones : Dones)
            → AreNoted S.tells (S.file shelf.old) self.old.desks.items dones
            → AreWhole self.old.desks.items (S.file shelf.new) dones) }
        ensures cut { S.tells → OnErr result ((dones : Dones)
            → AreNoted S.tells (S.file shelf.old) self.old.desks.items dones
            → AreAllFronts (manifests_in self.old.desks.items) (S.file shelf.new) dones) }
        ensures line { IfOk result (λ line. string_bytes line
            ≡ summary_line (added (tallies_in self.old.desks.items))) }
        ensures only { OnlyWritesAll S.tells (manifests_in self.old.desks.items) (S.file shelf.old)
            (S.file shelf.new) (S.ids shelf.old) (S.ids shelf.new) }
        ensures causes { IfErr result IsOfWriting }
        ensures faults { CountsFaults result (S.faults shelf.old) (S.faults shelf.new) }
    {
        finish_all(shelf, &mut self.room, &mut self.desks)?;
        Ok(count_all(self.desks.as_slice()).line(alloc)?)
    }

    /// Plays all that comes, writes what is still to be written, and answers the summary line.
    fn play_on<S: Shelf>(
        &mut self,
        alloc: Global,
        shelf: &mut S,
        rests: &[BridgeInputs],
        agenda: &mut NetTimeline<'_>,
    ) -> Result<String, Fault>
        requires agenda { IsAgenda (S.ids shelf.old) agenda.old }
        requires rests { AreOfRests rests.now (programmes_in agenda.old) }
        requires going { (r : NetRun) × IsGoing S.tells r (S.file shelf.old) (S.ids shelf.old) None
            self.old (programmes_in agenda.old) }
        requires budget { IsWithin self.old.net.nodes.items (λ x. left x.fate)
            (programmes_in agenda.old) }
        ensures done { S.tells → IfOk result (λ line. (r : NetRun)
            → IsGoing S.tells r (S.file shelf.old) (S.ids shelf.old) None self.old
            (programmes_in agenda.old)
            → HasWritten r (S.file shelf.new) (string_bytes line)) }
        ensures says { IfOk result (λ line. IsSummary (string_bytes line)) }
        ensures cut { S.tells → OnErr result ((r : NetRun)
            → IsGoing S.tells r (S.file shelf.old) (S.ids shelf.old) None self.old
            (programmes_in agenda.old)
            → IsCutOff r (S.file shelf.new)) }
        ensures never { S.tells → IfErr result (λ fault. IsNetChange fault → (r : NetRun)
            → IsGoing S.tells r (S.file shelf.old) (S.ids shelf.old) None self.old
            (programmes_in agenda.old) → ⊥) }
        ensures only { OnlyGoesOnAll S.tells (manifests_in self.old.desks.items)
            (all_ids (programmes_in agenda.old)) (S.file shelf.old) (S.file shelf.new)
            (S.ids shelf.old) (S.ids shelf.new) }
        ensures changed { (name : List ℕ) (p at : ℕ)
            → IsErrOf result (Fault.MemberChanged name p at)
            → IsOfCaptures rests.now (programmes_in agenda.old) name p }
        ensures causes { IfErr result IsOfNetPlay }
        ensures faults { CountsFaults result (S.faults shelf.old) (S.faults shelf.new) }
    {
        nets_are_played_eagerly();
        counts_go_on();
        self.play_all(alloc, shelf, rests, agenda)?;
        self.end(alloc, shelf)
    }

    /// Opens the bridges, plays all that comes, and answers the summary line.
    pub(crate) fn play<S: Shelf>(
        &mut self,
        alloc: Global,
        shelf: &mut S,
        rests: &[BridgeInputs],
        agenda: &mut NetTimeline<'_>,
    ) -> Result<String, Fault>
        requires agenda { IsAgenda (S.ids shelf.old) agenda.old }
        requires rests { AreOfRests rests.now (programmes_in agenda.old) }
        requires begins { (r : NetRun) × CanBegin S.tells r (S.file shelf.old) (S.ids shelf.old)
            self.old (programmes_in agenda.old) }
        requires budget { IsWithin self.old.net.nodes.items (λ x. left x.fate)
            (programmes_in agenda.old) }
        ensures done { S.tells → IfOk result (λ line. (r : NetRun)
            → CanBegin S.tells r (S.file shelf.old) (S.ids shelf.old) self.old
            (programmes_in agenda.old)
            → HasWritten r (S.file shelf.new) (string_bytes line)) }
        ensures says { IfOk result (λ line. IsSummary (string_bytes line)) }
        ensures cut { S.tells → OnErr result ((r : NetRun)
            → CanBegin S.tells r (S.file shelf.old) (S.ids shelf.old) self.old
            (programmes_in agenda.old)
            → IsCutOff r (S.file shelf.new)) }
        ensures never { S.tells → IfErr result (λ fault. IsNetChange fault → (r : NetRun)
            → CanBegin S.tells r (S.file shelf.old) (S.ids shelf.old) self.old
            (programmes_in agenda.old) → ⊥) }
        ensures only { OnlyGoesOnAll S.tells (manifests_in self.old.desks.items)
            (all_ids (programmes_in agenda.old)) (S.file shelf.old) (S.file shelf.new)
            (S.ids shelf.old) (S.ids shelf.new) }
        ensures changed { (name : List ℕ) (p at : ℕ)
            → IsErrOf result (Fault.MemberChanged name p at)
            → IsOfCaptures rests.now (programmes_in agenda.old) name p }
        ensures causes { IfErr result IsOfNetPlay }
        ensures faults { CountsFaults result (S.faults shelf.old) (S.faults shelf.new) }
    {
        agendas_stay();
        opened_nets_are_new();
        opened_nets_run();
        steps_tell_passed();
        if self.net.open().is_err() {
            return Err(Fault::Memory);
        }
        self.note(shelf)?;
        self.play_on(alloc, shelf, rests, agenda)
    }
}
