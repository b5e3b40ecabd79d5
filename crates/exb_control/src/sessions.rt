//! The bridge's ends of the sessions with its extenders.
ghost use Rattle.std.specs.Prelude.{◌≡◌, ◌<◌, ◌^◌, IfOk, length, replicate};
ghost use Rattle.exb_csp.specs.Sessions.AskingEnd.{begun, asked, took, beaten, message_again};
ghost use Rattle.exb_control.specs.MachineSteps.{askers_of, put, due};

use exb_csp::{Asker, Message, Request, Taken};
use exb_model::memory::NoMemory;
use std::alloc::Global;
use std::marker::Model;

/// How many devices there can be: the bridge and 64 extenders.
const DEVICES: u8 = 65;

/// The asking end of the session with each extender, by its number.
#[derive(Drop)]
pub(crate) struct Sessions {
    askers: Vec<Asker>,
}

impl Model for Sessions {
    ghost use Rattle.std.specs.Prelude.{◌≡◌, List, length};
    ghost use Rattle.exb_csp.specs.Sessions.AskingEnd.{AskerState};

    ghost Value = { List AskerState };

    ghost view = { λ s. s.askers.items };

    ghost invariant = { λ s. length s.askers.items ≡ 65 };
}

impl Sessions {
    /// Nothing is asked yet.
    pub(crate) fn new(alloc: Global) -> Result<Sessions, NoMemory>
        ensures { IfOk result (λ made. made ≡ replicate 65 begun) }
    {
        let mut askers = Vec::new(alloc);
        for _ in 0..DEVICES {
            askers.push(Asker::new())?;
        }
        Ok(Sessions { askers })
    }

    /// Asks an extender, and gives the message.
    pub(crate) fn ask(&mut self, extender: u8, request: Request) -> Message
        requires known { extender < 65 }
        requires idle { (askers_of self.old extender).waiting ≡ None }
        requires room { (askers_of self.old extender).serial < 2 ^ 63 }
        ensures state { askers_of self.new
            ≡ put extender (asked (askers_of self.old extender) request).0 (askers_of self.old) }
        ensures message { result ≡ (asked (askers_of self.old extender) request).1 }
    {
        let asker = &mut self.askers[extender as usize];
        asker.ask(request)
    }

    /// Takes a message of an extender.
    pub(crate) fn take(&mut self, extender: u8, message: &Message) -> Taken
        requires { extender < 65 }
        ensures state { askers_of self.new
            ≡ put extender (took (askers_of self.old extender) message.now).0 (askers_of self.old) }
        ensures taken { result ≡ (took (askers_of self.old extender) message.now).1 }
    {
        let asker = &mut self.askers[extender as usize];
        asker.take(message)
    }

    /// Counts a beat of waiting for an extender; at each sixteenth it gives the message once more.
    pub(crate) fn beat(&mut self, extender: u8) -> Option<Message>
        requires { extender < 65 }
        ensures state { askers_of self.new ≡ put extender (beaten (askers_of self.old extender)).0
            (askers_of self.old) }
        ensures due { result ≡ due (beaten (askers_of self.old extender)).1
            (message_again (askers_of self.old extender)) }
    {
        let asker = &mut self.askers[extender as usize];
        again_if_due(asker)
    }
}

/// The message of an asker once more, if this beat is one at which it is due.
fn again_if_due(asker: &mut Asker) -> Option<Message>
    ensures state { asker.new ≡ (beaten asker.old).0 }
    ensures due { result ≡ due (beaten asker.old).1 (message_again asker.old) }
{
    if !asker.beat() {
        return None;
    }
    Some(asker.again())
}
