//! The end of a session that answers.

ghost use Rattle.std.specs.Prelude.{◌≡◌, false, IsTrue};
ghost use Rattle.exb_csp.specs.Sessions.AnsweringEnd.{fresh, is_owing, arrived, stored, stored_message};

use crate::message::{Body, Message, Request, Response};
use std::marker::Model;

/// The extender's end of a session: it has the requests 1 to `last` executed, each once.
#[derive(Drop)]
pub struct Answerer {
    last: u64,
    answer: Option<Response>,
}

impl Model for Answerer {
    ghost use Rattle.exb_csp.specs.Sessions.AnsweringEnd.{AnswererState};

    ghost Value = { AnswererState };

    ghost view = { λ a. record { last = a.last; answer = a.answer } };
}

/// What is due for a request.
#[derive(Drop)]
pub enum Due {
    /// It is the next one: it is to be executed, and its response stored.
    Execute(Request),
    /// It is the last one again: the stored answer is to be sent again.
    Again,
    /// It is neither.
    Ignore,
}

impl Answerer {
    /// Nothing is executed yet.
    pub fn new() -> Answerer
        ensures { result ≡ fresh }
    {
        Answerer {
            last: 0,
            answer: None,
        }
    }

    /// Takes a request with its serial.
    pub fn take(&mut self, serial: u64, request: Request) -> Due
        requires { is_owing self.old ≡ false }
        ensures state { self.new ≡ (arrived self.old serial request).0 }
        ensures due { result ≡ (arrived self.old serial request).1 }
    {
        if serial == 0 {
            return Due::Ignore;
        }
        if serial == self.last {
            return Due::Again;
        }
        if serial - 1 != self.last {
            return Due::Ignore;
        }
        self.last = serial;
        self.answer = None;
        Due::Execute(request)
    }

    /// Stores the response to the request that was executed.
    pub fn store(&mut self, response: Response)
        requires { IsTrue (is_owing self.old) }
        ensures { self.new ≡ stored self.old response }
    {
        self.answer = Some(response);
    }

    /// The answer to the last request that was executed; None exactly where none is stored.
    pub fn stored(&self) -> Option<Message>
        ensures { result ≡ stored_message self.now }
    {
        match self.answer {
            Some(response) => Some(Message {
                serial: self.last,
                body: Body::Answer(response),
            }),
            None => None,
        }
    }
}
