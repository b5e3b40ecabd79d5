//! What a plan decides.

use exb_csp::AskAt;
use exb_model::event::Cause;
use exb_model::list::List;

/// A channel or a group in the space of a bridge port, which is numbered 1 to 64.
#[derive(Clone, Copy)]
pub struct Number {
    pub bridge_port: u8,
    pub number: u16,
}

/// How the extenders follow a change of the configuration.
pub struct Change {
    /// What is asked before the change is committed, in order.
    pub prepare: List<AskAt>,
    /// What is asked after it, in order.
    pub cleanup: List<AskAt>,
    /// The channels to free once the whole cleanup is answered.
    pub channels: List<Number>,
    /// The groups to free then.
    pub groups: List<Number>,
}

impl Drop for Change {
    fn drop(self) {
        let Change {
            prepare: _,
            cleanup: _,
            channels: _,
            groups: _,
        } = self;
    }
}

/// Whether a change is made.
#[derive(Drop)]
pub enum Decision {
    /// The numbers below a bridge port don't suffice.
    Refused(Cause),
    /// They do, and the new ones are claimed.
    Ready(Change),
}
