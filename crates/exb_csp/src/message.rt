//! Requests, responses and the messages that carry them.

ghost use Rattle.std.specs.Prelude.{◌≡◌};
ghost use Rattle.exb_csp.specs.RequestKinds.{kind_of};

use crate::ecids::Ecids;
use crate::group_rows::GroupRows;

/// What the controlling bridge asks of an extender. Ports are counted from 1, and bit k - 1 of a
/// mask is port k. A request may hold any numbers: the extender decides on them, and answers a
/// code.
#[derive(Drop)]
pub enum Request {
    /// Begins the session: announcements stop.
    Open,
    /// Gives a port its kind and its own E-channel.
    PortCreate {
        port: u8,
        cascade: bool,
        channel: u16,
    },
    /// Takes a port's E-channel back.
    PortDelete {
        port: u8,
    },
    /// Registers the ports of the mask for an E-CID.
    Register {
        ecid: u16,
        mask: u64,
    },
    /// Takes all ports of an E-CID out.
    Unregister {
        ecid: u16,
    },
    /// Registers the rows in order, all of them or none; as a message it has 2 to 64 rows.
    RegisterMany {
        rows: GroupRows,
    },
    /// Unregisters the E-CIDs in order, all of them or none; as a message it has 2 to 64 E-CIDs.
    UnregisterMany {
        ecids: Ecids,
    },
}

/// Which request it is.
#[derive(Clone, Copy, Debug)]
pub enum RequestKind {
    Open,
    PortCreate,
    PortDelete,
    Register,
    Unregister,
    RegisterMany,
    UnregisterMany,
}

/// An extender's answer.
#[derive(Clone, Copy, Debug)]
pub struct Response {
    /// The kind of the request that is answered.
    pub to: RequestKind,
    /// 0: done. 1: a port isn't there, or has no channel. 2: a channel or E-CID is out of its
    /// range. 3: the port has a channel already, or the E-CID a pair.
    pub code: u8,
    /// The port count in the answer to Open, else 0.
    pub ports: u8,
}

/// What a message carries.
#[derive(Drop)]
pub enum Body {
    /// What the bridge asks.
    Ask(Request),
    /// What the extender answers.
    Answer(Response),
}

/// A message of the control protocol.
#[derive(Drop)]
pub struct Message {
    /// Serials count a session's requests from 1; an answer has its request's.
    pub serial: u64,
    pub body: Body,
}

impl Request {
    /// Which request it is.
    pub fn kind(&self) -> RequestKind
        ensures { result ≡ kind_of self.now }
    {
        match self {
            Request::Open => RequestKind::Open,
            Request::PortCreate { .. } => RequestKind::PortCreate,
            Request::PortDelete { .. } => RequestKind::PortDelete,
            Request::Register { .. } => RequestKind::Register,
            Request::Unregister { .. } => RequestKind::Unregister,
            Request::RegisterMany { .. } => RequestKind::RegisterMany,
            Request::UnregisterMany { .. } => RequestKind::UnregisterMany,
        }
    }

    /// The same request once more.
    pub fn copy(&self) -> Request
        ensures { result ≡ self.now }
    {
        match self {
            Request::Open => Request::Open,
            Request::PortCreate {
                port,
                cascade,
                channel,
            } => Request::PortCreate {
                port: *port,
                cascade: *cascade,
                channel: *channel,
            },
            Request::PortDelete { port } => Request::PortDelete { port: *port },
            Request::Register { ecid, mask } => Request::Register {
                ecid: *ecid,
                mask: *mask,
            },
            Request::Unregister { ecid } => Request::Unregister { ecid: *ecid },
            Request::RegisterMany { rows } => Request::RegisterMany { rows: rows.copy() },
            Request::UnregisterMany { ecids } => Request::UnregisterMany {
                ecids: ecids.copy(),
            },
        }
    }
}
