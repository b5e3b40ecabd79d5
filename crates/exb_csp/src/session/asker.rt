//! The end of a session that asks.

ghost use Rattle.std.specs.Prelude.{◌≡◌, ◌<◌, ◌^◌, IsTrue, IsSome, IsNone, ◌↔◌, Some};
ghost use Rattle.exb_csp.specs.RequestKinds.{kind_of, same_kind};
ghost use Rattle.exb_csp.specs.Sessions.AskingEnd.{begun, asked, message_again, took, beaten};

use crate::message::{Body, Message, Request, RequestKind, Response};
use std::marker::Model;

/// The bridge's end of a session: it asks a request under the next serial, and waits for its answer
/// before it asks the next.
#[derive(Drop)]
pub struct Asker {
    serial: u64,
    waiting: Option<Request>,
    beats: u8,
}

impl Model for Asker {
    ghost use Rattle.std.specs.Prelude.{◌<◌};
    ghost use Rattle.exb_csp.specs.Sessions.AskingEnd.{AskerState};

    ghost Value = { AskerState };

    ghost view = { λ a. record { serial = a.serial; waiting = a.waiting; beats = a.beats } };

    ghost invariant = { λ a. a.beats < 16 };
}

/// What a message is to an asker.
#[derive(Clone, Copy, Debug)]
pub enum Taken {
    /// The answer that is waited for.
    Answer(Response),
    /// An answer to an earlier request: its serial is below the one that is waited for.
    Stale,
    /// Nothing is waited for, or the message is a request, its serial is above the one that is
    /// waited for, or it answers a request of another kind.
    NotOurs,
}

// Whether a response to this kind is one to the request.
fn is_answer(to: RequestKind, request: &Request) -> bool
    ensures { result ≡ same_kind to (kind_of request.now) }
{
    to == request.kind()
}

impl Asker {
    /// Nothing is asked yet: the serial is 0.
    pub fn new() -> Asker
        ensures { result ≡ begun }
    {
        Asker {
            serial: 0,
            waiting: None,
            beats: 0,
        }
    }

    /// Asks a request under the next serial, and answers its message. From then on it waits.
    pub fn ask(&mut self, request: Request) -> Message
        requires idle { IsNone self.old.waiting }
        requires room { self.old.serial < 2 ^ 63 }
        ensures state { self.new ≡ (asked self.old request).0 }
        ensures message { result ≡ (asked self.old request).1 }
    {
        self.serial += 1;
        self.waiting = Some(request.copy());
        self.beats = 0;
        Message {
            serial: self.serial,
            body: Body::Ask(request),
        }
    }

    /// The message of the request that is waited for, once more.
    pub fn again(&self) -> Message
        requires { IsSome self.now.waiting }
        ensures { Some result ≡ message_again self.now }
    {
        match &self.waiting {
            Some(request) => Message {
                serial: self.serial,
                body: Body::Ask(request.copy()),
            },
            None => unreachable!(),
        }
    }

    /// Takes a message. Only the answer that is waited for ends the waiting.
    pub fn take(&mut self, message: &Message) -> Taken
        ensures state { self.new ≡ (took self.old message.now).0 }
        ensures taken { result ≡ (took self.old message.now).1 }
    {
        let Some(request) = &self.waiting else {
            return Taken::NotOurs;
        };
        let Body::Answer(response) = message.body else {
            return Taken::NotOurs;
        };
        if message.serial < self.serial {
            return Taken::Stale;
        }
        if message.serial > self.serial || !is_answer(response.to, request) {
            return Taken::NotOurs;
        }
        self.waiting = None;
        self.beats = 0;
        Taken::Answer(response)
    }

    /// Counts one beat of waiting. True at each sixteenth: the request is to be asked again.
    pub fn beat(&mut self) -> bool
        ensures state { self.new ≡ (beaten self.old).0 }
        ensures due { result ≡ (beaten self.old).1 }
    {
        if self.waiting.is_none() {
            return false;
        }
        if self.beats == 15 {
            self.beats = 0;
            return true;
        }
        self.beats += 1;
        false
    }

    /// Whether an answer is waited for.
    pub fn waiting(&self) -> bool
        ensures { IsTrue result ↔ IsSome self.now.waiting }
    {
        self.waiting.is_some()
    }

    /// The serial of the last request that was asked, 0 before the first.
    pub fn serial(&self) -> u64
        ensures { result ≡ self.now.serial }
    {
        self.serial
    }
}
