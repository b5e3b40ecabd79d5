//! Checking the captures of all bridges of a net.
ghost use Rattle.std.specs.Prelude.{◌≡◌, ◌⊎◌, IfOk, OnOk, IfErr};
ghost use Rattle.exb_shelf.specs.Files.{SameFiles};
ghost use Rattle.exb_shelf.specs.Shelf.{Opens};
ghost use Rattle.exb_inputs.specs.declared.fault.Fault.{Fault};
ghost use Rattle.exb_inputs.specs.CaptureChecks.{AreChecked};
ghost use Rattle.exb_inputs.specs.ShelfEffects.{CountsFaults, OpensEach, ReadsCapture};
ghost use Rattle.exb_inputs.specs.MemberChecks.{AreAllMembersGood, AreGood, AreMembersChecked};
ghost use Rattle.exb_inputs.specs.OpenedNetFiles.{EndsAtMember, EndsWithin, OpensCaptures, OpensEachOf};
ghost use Rattle.exb_inputs.specs.NetFaultPhases.{IsOfMemberCapture};
ghost use Rattle.exb_inputs.specs.NetRefusals.{FirstMemberFault, IsOwnFault};

use crate::member_faults::of_member;
use crate::{CheckedCapture, Fault, check_captures};
use exb_net_file::NetMember;
use exb_shelf::Shelf;
use std::alloc::Global;

/// Checks the captures of a bridge.
fn check_member<S: Shelf>(
    alloc: Global,
    shelf: &mut S,
    member: &NetMember,
) -> Result<Vec<CheckedCapture>, Fault>
    ensures checked { IfOk result (λ checked. AreChecked S.tells member.now.topology.captures
        (S.file shelf.old) checked.items) }
    ensures good { S.tells → OnOk result (AreGood member.now (S.file shelf.old)) }
    ensures flaw { S.tells → IfErr result (λ fault. IsOwnFault member.now (S.file shelf.old) fault
        ⊎ (fault ≡ Fault.Read) ⊎ (fault ≡ Fault.Memory)) }
    ensures causes { IfErr result IsOfMemberCapture }
    ensures ends { IfErr result (EndsWithin S.tells member.now (S.file shelf.old) (S.ids shelf.old)
        (S.ids shelf.new)) }
    ensures each { OnOk result (OpensEach member.now.topology.captures 4160 (S.ids shelf.old)
        (S.ids shelf.new)) }
    ensures opened { Opens (ReadsCapture member.now.topology.captures) (S.ids shelf.old)
        (S.ids shelf.new) }
    ensures files { SameFiles (S.file shelf.old) (S.file shelf.new) }
    ensures faults { CountsFaults result (S.faults shelf.old) (S.faults shelf.new) }
{
    match check_captures(alloc, shelf, member.topology.captures.as_slice()) {
        Ok(checked) => Ok(checked),
        Err(fault) => Err(of_member(alloc, member.name.as_str(), fault)),
    }
}

/// Checks the captures of these bridges, bridge after bridge and each in port order, up to the
/// first that has a fault.
pub fn check_members<S: Shelf>(
    alloc: Global,
    shelf: &mut S,
    members: &[NetMember],
) -> Result<Vec<Vec<CheckedCapture>>, Fault>
    ensures checked { IfOk result (λ checked. AreMembersChecked S.tells members.now
        (S.file shelf.old) checked.items) }
    ensures good { S.tells → OnOk result (AreAllMembersGood members.now (S.file shelf.old)) }
    ensures flaw { S.tells → IfErr result (λ fault.
        FirstMemberFault members.now (S.file shelf.old) fault ⊎ (fault ≡ Fault.Read)
        ⊎ (fault ≡ Fault.Memory)) }
    ensures causes { IfErr result IsOfMemberCapture }
    ensures ends { IfErr result (EndsAtMember S.tells members.now (S.file shelf.old)
        (S.ids shelf.old) (S.ids shelf.new)) }
    ensures each { OnOk result (OpensEachOf members.now (S.ids shelf.old) (S.ids shelf.new)) }
    ensures opened { OpensCaptures members.now (S.ids shelf.old) (S.ids shelf.new) }
    ensures files { SameFiles (S.file shelf.old) (S.file shelf.new) }
    ensures faults { CountsFaults result (S.faults shelf.old) (S.faults shelf.new) }
{
    let mut checked = Vec::new(alloc);
    'checking: for member in members {
        let one = check_member(alloc, shelf, member)?;
        if checked.push(one).is_err() {
            return Err(Fault::Memory);
        }
    }
    Ok(checked)
}
