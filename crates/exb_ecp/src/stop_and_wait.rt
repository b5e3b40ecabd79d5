//! The machine of one end: it sends one payload until it is acknowledged, stopped or given up, and
//! tells a request that is new from one that came before.
ghost use Rattle.std.specs.Prelude.{◌≡◌, ◌≤◌, length, None, IfSome, IsTrue, ◌↔◌};
ghost use Rattle.exb_ecp.specs.StopAndWait.{after};

use arrayvec::ArrayVec;
use std::marker::Model;

/// What is due at a beat.
#[derive(Clone, Copy, Debug)]
pub enum Beat {
    Nothing,
    /// The payload is to be sent again.
    SendAgain,
    /// This was the twelfth beat: the payload is not sent any more.
    GaveUp,
}

/// One end of ECP: what it sends, which sequence comes next, and which was received last. A payload
/// is sent again at the third, sixth and ninth beat after its submit, and given up at the twelfth.
#[derive(Drop)]
pub struct Ecp {
    /// The sequence of the latest submit, 0 before the first.
    latest: u16,
    /// The beats since then, while the payload is sent.
    beats: Option<u8>,
    payload: ArrayVec<u8, 1024>,
    received: Option<u16>,
}

impl Model for Ecp {
    ghost use Rattle.exb_ecp.specs.StopAndWait.{State};

    ghost Value = { State };

    ghost use Rattle.exb_ecp.specs.Ecp.{state_of, IsKept};

    ghost view = { state_of };

    ghost invariant = { IsKept };
}

/// The sequence after this one.
#[tactic(auto, unfolding(crate::specs::StopAndWait::after))]
fn next_sequence(sequence: u16) -> u16
    ensures { result ≡ after sequence }
{
    match sequence {
        u16::MAX => 0,
        _ => sequence + 1,
    }
}

impl Ecp {
    ghost use Rattle.exb_ecp.specs.StopAndWait.{new_state, submitted, stopped, acknowledged, heard, is_fresh, beaten, beat_of, sent_payload, IsSound};

    /// An end that sends nothing and has received nothing. Its first sequence is 1.
    #[tactic(auto, unfolding(crate::specs::StopAndWait::after))]
    pub fn new() -> Ecp
        ensures { result ≡ new_state }
    {
        Ecp {
            latest: 0,
            beats: None,
            payload: ArrayVec::new(),
            received: None,
        }
    }

    /// Begins to send a payload of at most 1,024 bytes, and answers its sequence. The caller sends
    /// it now.
    pub fn submit(&mut self, payload: &[u8]) -> u16
        requires idle { self.old.sending ≡ None }
        requires fits { length payload.now ≤ 1024 }
        ensures step { self.new ≡ submitted payload.now self.old }
        ensures sequence { result ≡ self.old.next }
    {
        self.latest = next_sequence(self.latest);
        self.beats = Some(0);
        self.payload.clear();
        let _ = self.payload.try_extend_from_slice(payload);
        self.latest
    }

    /// Sends no more of what was submitted.
    pub fn stop(&mut self)
        ensures { self.new ≡ stopped self.old }
    {
        self.beats = None;
    }

    /// An acknowledgement came.
    pub fn acked(&mut self, sequence: u16)
        ensures { self.new ≡ acknowledged sequence self.old }
    {
        if self.latest == sequence {
            self.beats = None;
        }
    }

    /// A request came, which the caller acknowledges whatever the answer is: true where it is to be
    /// handed up, false where its sequence is the last received one.
    pub fn received(&mut self, sequence: u16) -> bool
        ensures step { self.new ≡ heard sequence self.old }
        ensures fresh { result ≡ is_fresh sequence self.old }
    {
        let fresh = self.received != Some(sequence);
        self.received = Some(sequence);
        fresh
    }

    /// One beat passes.
    pub fn beat(&mut self) -> Beat
        ensures step { self.new ≡ beaten self.old }
        ensures due { result ≡ beat_of self.old.sending }
    {
        let Some(beats) = self.beats else {
            return Beat::Nothing;
        };
        match beats + 1 {
            12 => {
                self.beats = None;
                Beat::GaveUp
            }
            beat => {
                self.beats = Some(beat);
                if matches!(beat, 3 | 6 | 9) {
                    Beat::SendAgain
                } else {
                    Beat::Nothing
                }
            }
        }
    }

    /// Whether nothing is sent.
    pub fn idle(&self) -> bool
        ensures idle { IsTrue result ↔ (self.now.sending ≡ None) }
        ensures sound { IsSound self.now }
    {
        self.beats.is_none()
    }

    /// The sequence of the latest submit, 0 before the first.
    pub fn sequence(&self) -> u16
        ensures latest { after result ≡ self.now.next }
        ensures sent { IfSome self.now.sending (λ x. result ≡ x.sequence) }
    {
        self.latest
    }

    /// What is sent; no bytes where nothing is.
    pub fn payload(&self) -> &[u8]
        ensures { result.now ≡ sent_payload self.now.sending }
    {
        match self.beats {
            Some(_) => self.payload.as_slice(),
            None => &[],
        }
    }
}
