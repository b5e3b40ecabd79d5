//! The whole call.
ghost use Rattle.std.specs.Prelude.{◌<◌, ◌≤◌, ◌+◌, ◌^◌, ◌⊎◌, ℕ, Bool, List, All, IfErr, IfOk, IsErrOf, OnErr, length, map, string_bytes};
ghost use Rattle.exb_inputs.specs.declared.fault.Fault.{Fault};
ghost use Rattle.exb_inputs.specs.ShelfEffects.{CountsFaults};
ghost use Rattle.exb_timeline.specs.NetMergeOrder.{IsAgenda, all_ids, programmes_in};
ghost use Rattle.exb_net_spec.specs.declared.wires.Wire.{Wire};
ghost use Rattle.exb_net.specs.PairedLists.{AreEach};
ghost use Rattle.exb_net_file.specs.declared.members.NetMember.{NetMember};
ghost use Rattle.exb_net_file.specs.SetupParts.{IsTakenApart};
ghost use Rattle.exb_inputs.specs.MemberChecks.{AreMembersChecked};
ghost use Rattle.exb_inputs.specs.NetContents.{AreRead};
ghost use Rattle.exb_inputs.specs.OpenedNetFiles.{ReadsMemberCapture};
ghost use Rattle.exb_shelf.specs.Files.{Files, SameFiles};
ghost use Rattle.exb_shelf.specs.Shelf.{IsReading, Opens};
ghost use Rattle.exb_outputs.specs.Counts.{IsSummary};
ghost use Rattle.exb_net.specs.Answers.{AreFrontsOfNet, IsNetFailure, IsOfNet, IsOfNetPlay, NetPlayed, NetStops, OnlyNetAsked};
ghost use Rattle.exb_net.specs.WrittenOutputs.{OnlyAllListed, manifests_in};
ghost use Rattle.exb_net.specs.Nets.{net_of, manifest_with};
ghost use Rattle.exb_net.specs.OpenOrder.{HasCaptureAt, IsNetWanted, MakesNet, MakesNetOutputOf, NetOpensInOrder, WritesNetOutput};
ghost use Rattle.exb_net.specs.Outputs.{AreNetFronts, IsNetPlayed};
ghost use Rattle.exb_net.specs.Preparation.{CanPlay, IsPrepared, run_of};
ghost use Rattle.exb_net.specs.ShelfEffects.{IsNetChange, IsOfCaptures, OnlyGoesOnAll};
ghost use Rattle.exb_net.specs.NetInvariants.{AreOfRests, HasWritten, IsCutOff, IsWithin, NetRun};

use crate::Net;
use crate::bridge_outputs::{BridgeOutputs, NetLineScratch};
use crate::net_player::NetPlayer;
use crate::preparation::{arm_all, open_agenda, set_desks};
use exb_fate::Fate;
use exb_inputs::net_laws::{inputs_are_of_members, nets_have_one_cause};
use exb_inputs::{CheckedCapture, Fault, NetInputs, check_members, read_net};
use exb_journal::JournalScratch;
use exb_net_file::laws::{bridges_write_apart, nets_are_timely};
use exb_net_file::{BridgeInputs, NetParts, take_apart};
use exb_net_laws::laws::nets_are_played;
use exb_net_spec::laws::{histories_go_on, histories_hold_all, nets_have_histories};
use exb_shelf::Shelf;
use exb_timeline::NetTimeline;
use std::alloc::Global;

/// Plays what is on the agenda in a net that was made, into files that were made, and answers the
/// summary line.
fn play_agenda<S: Shelf>(
    alloc: Global,
    shelf: &mut S,
    rests: &[BridgeInputs],
    agenda: &mut NetTimeline<'_>,
    net: Net,
    desks: Vec<BridgeOutputs>,
) -> Result<String, Fault>
    requires agenda { IsAgenda (S.ids shelf.old) agenda.old }
    requires rests { AreOfRests rests.now (programmes_in agenda.old) }
    requires can { (r : NetRun) × CanPlay S.tells r (S.file shelf.old) (S.ids shelf.old) net
        desks.items (programmes_in agenda.old) }
    requires budget { IsWithin net.nodes.items (λ x. left x.fate) (programmes_in agenda.old) }
    ensures done { S.tells → IfOk result (λ line. (r : NetRun)
        → CanPlay S.tells r (S.file shelf.old) (S.ids shelf.old) net desks.items
        (programmes_in agenda.old)
        → HasWritten r (S.file shelf.new) (string_bytes line)) }
    ensures says { IfOk result (λ line. IsSummary (string_bytes line)) }
    ensures cut { S.tells → OnErr result ((r : NetRun)
        → CanPlay S.tells r (S.file shelf.old) (S.ids shelf.old) net desks.items
        (programmes_in agenda.old)
        → IsCutOff r (S.file shelf.new)) }
    ensures never { S.tells → IfErr result (λ fault. IsNetChange fault → (r : NetRun)
        → CanPlay S.tells r (S.file shelf.old) (S.ids shelf.old) net desks.items
        (programmes_in agenda.old) → ⊥) }
    ensures only { OnlyGoesOnAll S.tells (manifests_in desks.items)
        (all_ids (programmes_in agenda.old)) (S.file shelf.old) (S.file shelf.new) (S.ids shelf.old)
        (S.ids shelf.new) }
    ensures changed { (name : List ℕ) (p at : ℕ) → IsErrOf result (Fault.MemberChanged name p at)
        → IsOfCaptures rests.now (programmes_in agenda.old) name p }
    ensures causes { IfErr result IsOfNetPlay }
    ensures faults { CountsFaults result (S.faults shelf.old) (S.faults shelf.new) }
{
    let mut game = NetPlayer {
        net,
        desks,
        room: NetLineScratch {
            line: JournalScratch::new(alloc),
            text: Vec::new(alloc),
        },
    };
    let played = game.play(alloc, shelf, rests, agenda);
    // By a call, since a block's end is far longer to prove where it lets worlds go.
    drop(game);
    played
}

/// Makes the net, opens the captures again, and plays all into files that were made.
fn play_into<S: Shelf>(
    alloc: Global,
    shelf: &mut S,
    parts: &NetParts,
    checked: &[Vec<CheckedCapture>],
    fates: Vec<Box<dyn Fate>>,
    desks: Vec<BridgeOutputs>,
) -> Result<String, Fault>
    requires prepared { (counters : Bool) × ((ms : List NetMember)
        × ((ws : List Wire) × ((before : Files) × IsPrepared S.tells counters ms ws parts.now
        checked.now before (S.file shelf.old) (S.ids shelf.old) desks.items))) }
    requires fates { AreEach (λ b r f. left f < 2 ^ 56 + length r.fate) parts.now.rests
        fates.items }
    ensures done { S.tells → IfOk result (λ line. (counters : Bool) (ms : List NetMember)
        (ws : List Wire) (before : Files)
        → IsPrepared S.tells counters ms ws parts.now checked.now before (S.file shelf.old)
        (S.ids shelf.old) desks.items
        → HasWritten (run_of counters ms ws (S.file shelf.old) before) (S.file shelf.new)
        (string_bytes line)) }
    ensures says { IfOk result (λ line. IsSummary (string_bytes line)) }
    ensures cut { S.tells → OnErr result ((counters : Bool) (ms : List NetMember) (ws : List Wire)
        (before : Files)
        → IsPrepared S.tells counters ms ws parts.now checked.now before (S.file shelf.old)
        (S.ids shelf.old) desks.items
        → IsCutOff (run_of counters ms ws (S.file shelf.old) before) (S.file shelf.new)) }
    ensures never { S.tells → IfErr result (λ fault. IsNetChange fault → ⊥) }
    ensures only { S.tells → OnlyAllListed (manifests_in desks.items) (S.file shelf.old)
        (S.file shelf.new) }
    ensures opens { (ms : List NetMember) (ws : List Wire) → IsTakenApart ms ws parts.now
        → Opens (ReadsMemberCapture ms) (S.ids shelf.old) (S.ids shelf.new) }
    ensures changed { (ms : List NetMember) (ws : List Wire) → IsTakenApart ms ws parts.now
        → (name : List ℕ) (p at : ℕ) → IsErrOf result (Fault.MemberChanged name p at)
        → HasCaptureAt ms name p }
    ensures causes { IfErr result IsOfNetPlay }
    ensures faults { CountsFaults result (S.faults shelf.old) (S.faults shelf.new) }
{
    inputs_are_of_members();
    nets_are_timely();
    let rests = parts.rests.as_slice();
    let mut agenda = open_agenda(alloc, shelf, rests, checked)?;
    let Ok(net) = Net::new(alloc, &parts.setup, fates) else {
        return Err(Fault::Memory);
    };
    play_agenda(alloc, shelf, rests, &mut agenda, net, desks)
}

/// Plays a net that was read, and of which the captures were checked.
fn play_checked<S: Shelf>(
    alloc: Global,
    shelf: &mut S,
    parts: &NetParts,
    checked: &[Vec<CheckedCapture>],
    counters: bool,
    fates: Vec<Box<dyn Fate>>,
) -> Result<String, Fault>
    requires read { (ms : List NetMember)
        × ((ws : List Wire) × (IsTakenApart ms ws parts.now
        × (AreRead ms ws × AreMembersChecked S.tells ms (S.file shelf.old) checked.now))) }
    requires fates { AreEach (λ b r f. left f < 2 ^ 56 + length r.fate) parts.now.rests
        fates.items }
    ensures done { S.tells → IfOk result (λ line. (ms : List NetMember) (ws : List Wire)
        → IsTakenApart ms ws parts.now → AreRead ms ws
        → AreMembersChecked S.tells ms (S.file shelf.old) checked.now
        → IsNetPlayed counters ms (net_of ms ws (S.file shelf.old)) (S.file shelf.old)
        (S.file shelf.new) (string_bytes line)) }
    ensures says { IfOk result (λ line. IsSummary (string_bytes line)) }
    ensures fronts { S.tells → (ms : List NetMember) (ws : List Wire) → IsTakenApart ms ws parts.now
        → AreRead ms ws → AreMembersChecked S.tells ms (S.file shelf.old) checked.now
        → AreNetFronts ms (net_of ms ws (S.file shelf.old)) (S.file shelf.old) (S.file shelf.new) }
    ensures never { S.tells → IfErr result (λ fault. IsNetChange fault → ⊥) }
    ensures only { S.tells → (ms : List NetMember) (ws : List Wire) → IsTakenApart ms ws parts.now
        → AreRead ms ws → OnlyAllListed (map (manifest_with counters) ms) (S.file shelf.old)
        (S.file shelf.new) }
    ensures opens { (ms : List NetMember) (ws : List Wire) → IsTakenApart ms ws parts.now
        → AreRead ms ws
        → Opens (λ i. ReadsMemberCapture ms i ⊎ WritesNetOutput counters ms i) (S.ids shelf.old)
        (S.ids shelf.new) }
    ensures made { (ms : List NetMember) (ws : List Wire) → IsTakenApart ms ws parts.now
        → AreRead ms ws → MakesNet counters ms result (S.ids shelf.old) (S.ids shelf.new) }
    ensures changed { (ms : List NetMember) (ws : List Wire) → IsTakenApart ms ws parts.now
        → (name : List ℕ) (p at : ℕ) → IsErrOf result (Fault.MemberChanged name p at)
        → HasCaptureAt ms name p }
    ensures causes { IfErr result IsOfNetPlay }
    ensures faults { CountsFaults result (S.faults shelf.old) (S.faults shelf.new) }
{
    bridges_write_apart();
    histories_go_on();
    inputs_are_of_members();
    nets_are_played();
    nets_have_histories();
    let desks = set_desks(alloc, shelf, parts, counters)?;
    play_into(alloc, shelf, parts, checked, fates, desks)
}

/// Reads the net in the file of this name, with its topologies, checks its captures, plays it, and
/// answers the summary line. The first bridge has this fate, and each other the next one of more.
pub fn play_net<S: Shelf>(
    alloc: Global,
    shelf: &mut S,
    name: &str,
    counters: bool,
    fate: Box<dyn Fate>,
    more: Vec<Box<dyn Fate>>,
) -> Result<String, Fault>
    requires fate { left fate < 2 ^ 56 }
    requires many { 15 ≤ length more.items }
    requires each { All (λ f. left f < 2 ^ 56) more.items }
    ensures done { S.tells → IfOk result (λ line. NetPlayed name.now counters (S.file shelf.old)
        (S.file shelf.new) (string_bytes line)) }
    ensures says { IfOk result (λ line. IsSummary (string_bytes line)) }
    ensures cause { S.tells → IfErr result (λ fault. NetStops name.now (S.file shelf.old) fault
        ⊎ IsNetFailure fault) }
    ensures stops { S.tells → (fault : Fault) → NetStops name.now (S.file shelf.old) fault
        → IsErrOf result fault ⊎ IsErrOf result Fault.Read ⊎ IsErrOf result Fault.Memory }
    ensures causes { IfErr result IsOfNet }
    ensures early { IfErr result (λ fault. IsOfNetPlay fault
        ⊎ SameFiles (S.file shelf.old) (S.file shelf.new)) }
    ensures stopped { S.tells → (fault : Fault) → NetStops name.now (S.file shelf.old) fault
        → SameFiles (S.file shelf.old) (S.file shelf.new) }
    ensures others { S.tells → OnlyNetAsked name.now counters (S.file shelf.old)
        (S.file shelf.new) }
    ensures fronts { S.tells → AreFrontsOfNet name.now (S.file shelf.old) (S.file shelf.new) }
    ensures reads { IfErr result (λ fault. IsOfNetPlay fault
        ⊎ Opens IsReading (S.ids shelf.old) (S.ids shelf.new)) }
    ensures wanted { S.tells → IfErr result (λ fault. IsOfNetPlay fault
        ⊎ Opens (IsNetWanted name.now (S.file shelf.old)) (S.ids shelf.old) (S.ids shelf.new)) }
    ensures only { S.tells → Opens (λ i. IsNetWanted name.now (S.file shelf.old) i
        ⊎ MakesNetOutputOf name.now counters (S.file shelf.old) i) (S.ids shelf.old)
        (S.ids shelf.new) }
    ensures order { NetOpensInOrder S.tells name.now counters result (S.file shelf.old)
        (S.ids shelf.old) (S.ids shelf.new) }
    ensures faults { CountsFaults result (S.faults shelf.old) (S.faults shelf.new) }
{
    histories_hold_all();
    inputs_are_of_members();
    nets_are_timely();
    nets_have_one_cause();
    let NetInputs { members, wires } = read_net(alloc, shelf, name)?;
    let checked = check_members(alloc, shelf, members.as_slice())?;
    let parts = take_apart(alloc, members, wires)?;
    let mut more = more;
    let Ok(fates) = arm_all(alloc, parts.rests.as_slice(), fate, &mut more) else {
        return Err(Fault::Memory);
    };
    play_checked(alloc, shelf, &parts, checked.as_slice(), counters, fates)
}
