//! Checking the captures.
ghost use Rattle.std.specs.Prelude.{◌≡◌, ◌<◌, ◌≤◌, ◌*◌, ◌^◌, ◌⊎◌, ℕ, None, Some, IfOk, OnOk, IfErr, IfSome, IfNone};
ghost use Rattle.exb_shelf.specs.Files.{SameFiles};
ghost use Rattle.exb_shelf.specs.Shelf.{IsReadingOf, Opens};
ghost use Rattle.exb_inputs.specs.CaptureChecks.{AreAllGood, AreChecked, FirstFault, HasFault, IsGood, most_bytes};
ghost use Rattle.exb_inputs.specs.Inputs.{name_of};
ghost use Rattle.exb_inputs.specs.ShelfEffects.{EndsAt, OpensEach, OpensNew, ReadsCapture, CountsFaults};
ghost use Rattle.exb_inputs.specs.declared.fault.InputFlaw.{InputFlaw};
ghost use Rattle.exb_inputs.specs.FaultPhases.{IsOfCapture};

use crate::fault::{Fault, InputFlaw};
use exb_capture::{ScanFault, Scanned, scan};
use exb_model::port::{PORTS, PortId};
use exb_model::text::Text;
use exb_shelf::Shelf;
use exb_topology_tables::Named;
use std::alloc::Global;

/// The most bytes of one capture.
const LIMIT: u64 = 1_099_511_627_776;

/// The capture of a port that was checked, and what was told of it.
#[derive(Clone, Copy)]
pub struct CheckedCapture {
    /// The port.
    pub port: PortId,
    /// What was told of its capture.
    pub told: Scanned,
}

/// The port of a number.
fn port_of(number: u16) -> PortId
    requires { number < 4160 }
    ensures { result ≡ number }
{
    PortId::new(number).unwrap()
}

/// The name of the file with the capture of a port, if it has one.
pub fn name_of(names: &[Named], port: PortId) -> Option<&str>
    ensures found { IfSome result (λ name. name_of names.now port ≡ Some name.now) }
    ensures none { IfNone result (name_of names.now port ≡ None) }
{
    'looking: for named in names {
        if named.port == port {
            return Some(named.name.as_str());
        }
    }
    None
}

/// The fault of a file of this name that is not there.
pub fn missing(alloc: Global, name: &str) -> Fault
    ensures { (result ≡ Fault.Missing name.now) ⊎ (result ≡ Fault.Memory) }
{
    match Text::from_str(alloc, name) {
        Ok(name) => Fault::Missing { name },
        Err(_) => Fault::Memory,
    }
}

/// Checks the capture of a port.
fn check_capture<S: Shelf>(
    alloc: Global,
    shelf: &mut S,
    port: PortId,
    name: &str,
) -> Result<CheckedCapture, Fault>
    requires port { port < 4160 }
    ensures port { IfOk result (λ checked. checked.port ≡ port) }
    ensures small { IfOk result (λ checked. checked.told.bytes ≤ most_bytes) }
    ensures in_time { IfOk result (λ checked. IfSome checked.told.first (λ first.
        first < 2 ^ 32 * 1_000_000_000)) }
    ensures good { S.tells → IfOk result (λ checked.
        IsGood (S.file shelf.old name.now) checked.told) }
    ensures flaw { S.tells → IfErr result (λ fault.
        HasFault port name.now (S.file shelf.old name.now) fault ⊎ (fault ≡ Fault.Read)
        ⊎ (fault ≡ Fault.Memory)) }
    ensures causes { IfErr result IsOfCapture }
    ensures own { IfErr result (λ fault. (q : ℕ) (flaw : InputFlaw) → fault ≡ Fault.Capture q flaw
        → q ≡ port) }
    ensures scanned { OnOk result (OpensNew name.now (S.ids shelf.old) (S.ids shelf.new)) }
    ensures opened { Opens (IsReadingOf name.now) (S.ids shelf.old) (S.ids shelf.new) }
    ensures files { SameFiles (S.file shelf.old) (S.file shelf.new) }
    ensures faults { CountsFaults result (S.faults shelf.old) (S.faults shelf.new) }
{
    match scan(alloc, shelf, name, LIMIT) {
        Ok(told) => Ok(CheckedCapture { port, told }),
        Err(ScanFault::Missing) => Err(missing(alloc, name)),
        Err(ScanFault::Read) => Err(Fault::Read),
        Err(ScanFault::Memory) => Err(Fault::Memory),
        Err(ScanFault::Fault { fault }) => {
            let flaw = InputFlaw::Broken { fault };
            Err(Fault::Capture { port, flaw })
        }
        Err(ScanFault::Large { limit }) => {
            let flaw = InputFlaw::Large { limit };
            Err(Fault::Capture { port, flaw })
        }
    }
}

/// Checks the captures that are named, in port order, up to the first that has a fault.
pub fn check_captures<S: Shelf>(
    alloc: Global,
    shelf: &mut S,
    names: &[Named],
) -> Result<Vec<CheckedCapture>, Fault>
    ensures checked { IfOk result (λ checked. AreChecked S.tells names.now (S.file shelf.old)
        checked.items) }
    ensures good { S.tells → OnOk result (AreAllGood names.now (S.file shelf.old)) }
    ensures flaw { S.tells → IfErr result (λ fault.
        ((p : ℕ) × FirstFault names.now (S.file shelf.old) p fault) ⊎ (fault ≡ Fault.Read)
        ⊎ (fault ≡ Fault.Memory)) }
    ensures causes { IfErr result IsOfCapture }
    ensures ends { IfErr result (EndsAt S.tells names.now (S.file shelf.old) (S.ids shelf.old)
        (S.ids shelf.new)) }
    ensures each { OnOk result (OpensEach names.now 4160 (S.ids shelf.old) (S.ids shelf.new)) }
    ensures opened { Opens (ReadsCapture names.now) (S.ids shelf.old) (S.ids shelf.new) }
    ensures files { SameFiles (S.file shelf.old) (S.file shelf.new) }
    ensures faults { CountsFaults result (S.faults shelf.old) (S.faults shelf.new) }
{
    let mut checked = Vec::new(alloc);
    'checking: for number in 0..PORTS {
        let port = port_of(number);
        let Some(name) = name_of(names, port) else {
            continue;
        };
        let one = check_capture(alloc, shelf, port, name)?;
        if checked.push(one).is_err() {
            return Err(Fault::Memory);
        }
    }
    Ok(checked)
}
