//! Why a file is refused.
ghost use Rattle.exb_toml_keys.specs.declared.faults.TopoFault.TheVariants.{Memory};
ghost use Rattle.std.specs.Prelude.{◌≡◌};

use exb_model::memory::NoMemory;
use exb_model::text::Text;
use std::alloc::{AllocError, AllocFailed};

/// What is wrong at a key.
#[derive(Clone, Copy, Debug)]
pub enum KeyFault {
    /// A key or table that is required is absent.
    Missing,
    /// A key that its table doesn't define.
    Unknown,
    /// The value has another type than it should.
    Kind,
    /// A number is out of its range, or there are too many of something.
    Range,
    /// A text is none of the words or forms that may stand there.
    Name,
    /// A port that isn't there, or isn't external.
    UnknownPort,
    /// Two extenders have one number, so it would have two upstream ports.
    TwoUpstreams,
    /// Two extenders hang on one port.
    SharedPort,
    /// The bridge isn't reached from an extender.
    Loop,
    /// There are fewer E-channels than cascade ports need.
    FewChannels,
    /// Something is given a second time.
    Repeat,
}

/// Why a file is refused.
#[derive(Debug, Drop)]
pub enum TopoFault {
    /// Memory ran out.
    Memory,
    /// The bytes are no TOML document.
    NotToml,
    /// There are more bytes than a file may have.
    Large,
    /// The fault at a key or table, with its name as it is printed: `bridge.ports`, `vlan[2].vid`.
    At { fault: KeyFault, key: Text },
}

impl From<NoMemory> for TopoFault {
    ghost from_gives = { λ _ e. e ≡ Memory };

    fn from(_: NoMemory) -> TopoFault {
        TopoFault::Memory
    }
}

impl From<AllocError> for TopoFault {
    ghost from_gives = { λ _ e. e ≡ Memory };

    fn from(_: AllocError) -> TopoFault {
        TopoFault::Memory
    }
}

impl<T: Drop> From<AllocFailed<T>> for TopoFault {
    ghost from_gives = { λ _ e. e ≡ Memory };

    fn from(_: AllocFailed<T>) -> TopoFault {
        TopoFault::Memory
    }
}
