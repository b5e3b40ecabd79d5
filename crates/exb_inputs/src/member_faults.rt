//! Faults of a bridge as those of the net.
ghost use Rattle.std.specs.Prelude.{◌≡◌, ◌⊎◌};
ghost use Rattle.exb_shelf.specs.Shelf.{Faults};
ghost use Rattle.exb_inputs.specs.FaultCounts.{CountsFault};
ghost use Rattle.exb_inputs.specs.NetRefusals.{member_fault, net_fault_by};

use crate::Fault;
use exb_model::text::Text;
use exb_toml_keys::faults::TopoFault;
use std::alloc::Global;

/// Why a net is not taken where its file or its wires are refused.
pub(crate) fn refused(fault: TopoFault) -> Fault
    ensures { result ≡ net_fault_by fault }
{
    match fault {
        TopoFault::Memory => Fault::Memory,
        TopoFault::NotToml => Fault::Net { fault },
        TopoFault::Large => Fault::Net { fault },
        TopoFault::At { fault, key } => {
            let fault = TopoFault::At { fault, key };
            Fault::Net { fault }
        }
    }
}

/// A fault of a bridge of this name, with that name where it is one of its topology or of a
/// capture; or want of memory for the name.
pub fn of_member(alloc: Global, name: &str, fault: Fault) -> Fault
    ensures is { (result ≡ member_fault name.now fault) ⊎ (result ≡ Fault.Memory) }
    ensures counts { (old new : Faults) → CountsFault fault old new → CountsFault result old new }
{
    match fault {
        Fault::Topology { fault } => match Text::from_str(alloc, name) {
            Ok(name) => Fault::Member { name, fault },
            Err(_) => Fault::Memory,
        },
        Fault::Capture { port, flaw } => match Text::from_str(alloc, name) {
            Ok(name) => Fault::MemberCapture { name, port, flaw },
            Err(_) => Fault::Memory,
        },
        Fault::Changed { port, at } => match Text::from_str(alloc, name) {
            Ok(name) => Fault::MemberChanged { name, port, at },
            Err(_) => Fault::Memory,
        },
        other => other,
    }
}
