//! The bridge's ends of the transport between it and its extenders (ECP, IEEE 802.1Q, clause 43).
ghost use Rattle.std.specs.Prelude.{◌≡◌, ◌↔◌, ℕ, ◌≤◌, false, IfNone, IfOk, IfSome, None, length};
ghost use Rattle.exb_ecp.specs.StopAndWait.{new_state, submitted, stopped, acknowledged, heard, is_fresh, beaten, beat_of};
ghost use Rattle.exb_model.specs.Tables.{at};
ghost use Rattle.exb_ecp.specs.Ends.{near_of, IsNextSending};
ghost use Rattle.exb_model.specs.DeviceSets.{number_in, IsNumber};

use crate::stop_and_wait::{Beat, Ecp};
use exb_model::device_set::{first_in, meet, with_bit};
use exb_model::memory::NoMemory;
use exb_model::port::DEVICES;
use std::alloc::Global;
use std::marker::Model;

/// The bridge's end with each extender, by its number.
pub struct Ends {
    ends: Vec<Ecp>,
    /// The extenders with which the end sends something.
    sending: u64,
}

impl Drop for Ends {
    fn drop(self) {
        let Ends {
            ends: _,
            sending: _,
        } = self;
    }
}

impl Model for Ends {
    ghost use Rattle.std.specs.Prelude.{List};
    ghost use Rattle.exb_ecp.specs.StopAndWait.{State};
    ghost use Rattle.exb_ecp.specs.Ends.{AreNoted};

    ghost Value = { List State };

    ghost view = { λ s. s.ends.items };

    ghost invariant = { λ s. AreNoted s.ends.items s.sending };
}

impl Ends {
    /// Nothing is sent yet.
    pub fn new(alloc: Global) -> Result<Ends, NoMemory>
        ensures { IfOk result (λ made. near_of made ≡ λ n. new_state) }
    {
        let mut ends = Vec::new(alloc);
        for _ in 0..DEVICES {
            ends.push(Ecp::new())?;
        }
        Ok(Ends { ends, sending: 0 })
    }

    /// Submits a payload to an extender in place of what is sent there; gives its sequence.
    pub fn submit(&mut self, extender: u8, payload: &[u8]) -> u16
        requires known { IsNumber extender }
        requires fits { length payload.now ≤ 1024 }
        ensures state { near_of self.new
            ≡ at extender (submitted payload.now (stopped (near_of self.old extender)))
            (near_of self.old) }
        ensures sequence { result ≡ (near_of self.old extender).next }
    {
        let end = &mut self.ends[extender as usize];
        end.stop();
        let sequence = end.submit(payload);
        let sends = !end.idle();
        self.sending = with_bit(self.sending, extender, sends);
        sequence
    }

    /// Ends what is sent to an extender.
    pub fn stop(&mut self, extender: u8)
        requires { IsNumber extender }
        ensures { near_of self.new ≡ at extender (stopped (near_of self.old extender))
            (near_of self.old) }
    {
        let end = &mut self.ends[extender as usize];
        end.stop();
        let sends = !end.idle();
        self.sending = with_bit(self.sending, extender, sends);
    }

    /// Takes an acknowledgement of an extender.
    pub fn acked(&mut self, extender: u8, sequence: u16)
        requires { IsNumber extender }
        ensures { near_of self.new ≡ at extender (acknowledged sequence (near_of self.old extender))
            (near_of self.old) }
    {
        let end = &mut self.ends[extender as usize];
        end.acked(sequence);
        let sends = !end.idle();
        self.sending = with_bit(self.sending, extender, sends);
    }

    /// Whether a request of an extender has another sequence than the last one, which it then is.
    pub fn received(&mut self, extender: u8, sequence: u16) -> bool
        requires { IsNumber extender }
        ensures state { near_of self.new ≡ at extender (heard sequence (near_of self.old extender))
            (near_of self.old) }
        ensures fresh { result ≡ is_fresh sequence (near_of self.old extender) }
    {
        let end = &mut self.ends[extender as usize];
        let fresh = end.received(sequence);
        let sends = !end.idle();
        self.sending = with_bit(self.sending, extender, sends);
        fresh
    }

    /// A beat passes at the end with an extender.
    pub fn beat(&mut self, extender: u8) -> Beat
        requires { IsNumber extender }
        ensures state { near_of self.new ≡ at extender (beaten (near_of self.old extender))
            (near_of self.old) }
        ensures due { result ≡ beat_of (near_of self.old extender).sending }
    {
        let end = &mut self.ends[extender as usize];
        let due = end.beat();
        let sends = !end.idle();
        self.sending = with_bit(self.sending, extender, sends);
        due
    }

    /// Whether an end with one of these extenders sends something.
    pub fn are_sending(&self, among: u64) -> bool
        ensures { (result ≡ false) ↔ ((n : ℕ) → number_in among n ≡ 1 → (near_of self.now n).sending
            ≡ None) }
    {
        meet(self.sending, among)
    }

    /// The first end, by extender from a number on, that sends something.
    pub fn next_sending(&self, from: u8) -> Option<u8>
        requires { from ≤ 65 }
        ensures found { IfSome result (IsNextSending self.now from) }
        ensures none { IfNone result ((n : ℕ) → from ≤ n → (near_of self.now n).sending ≡ None) }
    {
        first_in(self.sending, from)
    }

    /// The end with an extender.
    pub fn with(&self, extender: u8) -> &Ecp
        requires { IsNumber extender }
        ensures { result.now ≡ near_of self.now extender }
    {
        &self.ends[extender as usize]
    }
}
