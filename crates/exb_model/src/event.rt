//! What happens to the bridge, in the order of the journal.
use crate::bytes::Bytes;
use crate::port::PortId;

/// Why a change is refused: which numbers run out below a port of the bridge.
#[derive(Clone, Copy)]
pub enum Cause {
    /// `needed` E-channels, where `limit` are configured.
    Channels { needed: u64, limit: u32 },
    /// `needed` groups, where `limit` are configured.
    Groups { needed: u64, limit: u32 },
}

/// An event. Commands are numbered from 1 in the order of the topology file, records from 1 at each
/// port.
#[derive(Drop)]
pub enum Event {
    /// A frame was relayed: by VLAN, targets and learning it was dealt with, and may have left
    /// nowhere. `moment` is the time of its record in nanoseconds.
    Relay {
        port: PortId,
        index: u64,
        moment: u64,
        bytes: Bytes,
    },
    /// A frame was ignored, and left nowhere.
    Ignored {
        port: PortId,
        index: u64,
    },
    /// The clock went on.
    Tick {
        seconds: u32,
    },
    /// A command took effect.
    Commit {
        number: u32,
    },
    /// A command was refused, and changed nothing.
    Refuse {
        number: u32,
        cause: Cause,
    },
    /// An extended port became present at the opening.
    Up {
        port: PortId,
    },
    /// An extended port was refused at the opening, and stays absent.
    NoUp {
        port: PortId,
        cause: Cause,
    },
    /// Nothing was left to be done.
    Settled,
}
