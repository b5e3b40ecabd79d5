//! The control of an extender: what it hears, answers and sends by itself.
ghost use Rattle.std.specs.Prelude.{◌≡◌, ◌↔◌, ◌≤◌, ◌<◌, ◌++◌, [], ◌∷◌, ◌==◌, ◌&&◌, ◌||◌, not, if◌then◌else◌, length, false, Ok, None, IsTrue};
ghost use Rattle.exb_csp.specs.Execution.{ExtenderTables};
ghost use Rattle.exb_ecp.specs.StopAndWait.{new_state, beaten, beat_of, IsSound};
ghost use Rattle.exb_csp.specs.Sessions.AnsweringEnd.{fresh};
ghost use Rattle.exb_extender.specs.ExtenderParts.{state_with, state_in};
ghost use Rattle.exb_extender.specs.ControlState.{IsInOrder};
ghost use Rattle.exb_csp.specs.Decoding.{read_message};
ghost use Rattle.exb_extender.specs.Machine.{address_of, acknowledgement_frame, request_frame, announcement_frame, is_open, next_count, answers, beats, sends_again, takes_request, takes_message, hears_request, hears_pdu, hears};
ghost use Rattle.exb_extender.specs.Forwarding.{up};
ghost use Rattle.exb_extender.specs.IdleExtender.{rests, rested};
ghost use Rattle.exb_extender.specs.SentFrames.{IsNothing, own_sent};

use crate::sends::Sends;
use crate::tables::ForwardingTables;
use exb_csp::{Answerer, Body, Due, ECP_SUBTYPE, Message, Request};
use exb_ecp::{Beat, Ecp, PAYLOAD_AT, Pdu};
use exb_lldp::Announce;
use exb_model::address::Mac;
use exb_model::buffers::ControlBuf;
use std::marker::Model;

/// What an extender keeps beside its tables.
#[derive(Drop)]
pub(crate) struct ExtenderControl {
    /// The extender's number, 1 to 64.
    number: u8,
    session: Answerer,
    ecp: Ecp,
    /// The count of beats, modulo 16.
    beats: u8,
    /// Whether Open was executed: then it announces itself no more.
    opened: bool,
}

impl Model for ExtenderControl {
    ghost use Rattle.exb_extender.specs.ControlState.{ControlState, IsInOrder};

    ghost Value = { ControlState };

    ghost view = { λ c. record {
      number = c.number;
      session = c.session;
      ecp = c.ecp;
      beats = c.beats;
      opened = c.opened;
    } };

    ghost invariant = { λ c. IsInOrder c.number c.session c.ecp c.beats };
}

// The address of an extender.
fn address_of(number: u8) -> Mac
    ensures { result ≡ address_of number }
{
    Mac([0x02, 0x45, 0x42, 0x01, 0x00, number])
}

// Writes the acknowledgement of a request with that sequence.
fn write_acknowledgement(number: u8, sequence: u16, out: &mut ControlBuf)
    ensures { out.new.items ≡ acknowledgement_frame number sequence }
{
    let pdu = Pdu {
        acknowledgement: true,
        subtype: ECP_SUBTYPE,
        sequence,
        payload_at: PAYLOAD_AT as u32,
    };
    exb_ecp::write(address_of(number), &pdu, &[], out);
}

// Writes a request with that sequence and payload.
fn write_request(number: u8, sequence: u16, payload: &[u8], out: &mut ControlBuf)
    requires { length payload.now ≤ 1024 }
    ensures { out.new.items ≡ request_frame number sequence payload.now }
{
    let pdu = Pdu {
        acknowledgement: false,
        subtype: ECP_SUBTYPE,
        sequence,
        payload_at: PAYLOAD_AT as u32,
    };
    exb_ecp::write(address_of(number), &pdu, payload, out);
}

// Writes the announcement of an extender with so many ports, if it isn't opened and the count is 1.
fn announce(number: u8, ports: u8, opened: bool, count: u8, out: &mut ControlBuf)
    requires ports { (1 ≤ ports) × (ports ≤ 64) }
    requires empty { out.old.items ≡ [] }
    ensures { own_sent out.new.items
        ≡ (if not opened && (count == 1) then up (announcement_frame number ports) ∷ [] else []) }
{
    if opened {
        return;
    }
    if count != 1 {
        return;
    }
    let announce = Announce {
        chassis: address_of(number),
        ports,
    };
    exb_lldp::write(&announce, out);
}

// One beat passes at the ECP of an extender, which may send again.
fn beat_at(number: u8, ecp: &mut Ecp, out: &mut ControlBuf)
    requires sound { IsSound ecp.old }
    requires empty { out.old.items ≡ [] }
    ensures state { ecp.new ≡ beaten ecp.old }
    ensures sends { own_sent out.new.items ≡ sends_again (beat_of ecp.old.sending) number
        ecp.old.sending }
{
    match ecp.beat() {
        Beat::SendAgain => write_request(number, ecp.sequence(), ecp.payload(), out),
        Beat::Nothing => {}
        Beat::GaveUp => {}
    }
}

// Whether Open was executed, once this request is.
fn is_opened(opened: bool, request: &Request) -> bool
    ensures { result ≡ (opened || is_open request.now) }
{
    match request {
        Request::Open => true,
        _ => opened,
    }
}

// The count after this one.
fn next_count(beats: u8) -> u8
    requires { beats < 16 }
    ensures { result ≡ next_count beats }
{
    match beats {
        15 => 0,
        _ => beats + 1,
    }
}

impl ExtenderControl {
    /// At power-on: nothing was heard, executed or sent.
    pub(crate) fn new(number: u8) -> ExtenderControl
        requires { (1 ≤ number) × (number ≤ 64) }
        ensures { (t : ExtenderTables) → state_with t result
            ≡ record {
              number = number;
              tables = t;
              session = fresh;
              ecp = new_state;
              beats = 0;
              opened = false;
            } }
    {
        ExtenderControl {
            number,
            session: Answerer::new(),
            ecp: Ecp::new(),
            beats: 0,
            opened: false,
        }
    }

    // Submits the stored answer, in the place of what is sent, and writes it.
    fn answer(&mut self, out: &mut ControlBuf)
        requires { out.old.items ≡ [] }
        ensures state { (t : ExtenderTables) → state_with t self.new
            ≡ (answers (state_with t self.old)).0 }
        ensures sends { (t : ExtenderTables) → own_sent out.new.items
            ≡ (answers (state_with t self.old)).1 }
    {
        let Some(message) = self.session.stored() else {
            return;
        };
        // what goes out has the answer until the transport does
        exb_csp::write(&message, out);
        self.ecp.stop();
        let sequence = self.ecp.submit(out.as_slice());
        write_request(self.number, sequence, self.ecp.payload(), out);
    }

    /// One beat passes, at an extender of so many ports.
    pub(crate) fn beat(&mut self, ports: u8, sends: &mut Sends)
        requires ports { (1 ≤ ports) × (ports ≤ 64) }
        requires empty { IsNothing sends.old }
        ensures state { (t : ExtenderTables) → state_with t self.new
            ≡ (beats (state_with t self.old)).0 }
        ensures frames { sends.new.frames ≡ sends.old.frames }
        ensures sends { (t : ExtenderTables) → t.ports ≡ ports
            → own_sent sends.new.first.items ++ own_sent sends.new.second.items
            ≡ (beats (state_with t self.old)).1 }
    {
        self.beats = next_count(self.beats);
        announce(
            self.number,
            ports,
            self.opened,
            self.beats,
            &mut sends.first,
        );
        beat_at(self.number, &mut self.ecp, &mut sends.second);
    }

    /// Whether nothing is sent.
    pub(crate) fn idle(&self) -> bool
        ensures idle { IsTrue result ↔ (self.now.ecp.sending ≡ None) }
        ensures sound { IsInOrder self.now.number self.now.session self.now.ecp self.now.beats }
    {
        self.ecp.idle()
    }

    /// Whether it was opened, and nothing is sent.
    pub(crate) fn rests(&self) -> bool
        ensures { (t : ExtenderTables) → result ≡ rests (state_with t self.now) }
    {
        self.opened && self.ecp.idle()
    }

    /// So many beats pass where it rests; else it stays as it is.
    pub(crate) fn pass(&mut self, beats: u8)
        requires { beats ≤ 16 }
        ensures { (t : ExtenderTables) → state_with t self.new
            ≡ rested beats (state_with t self.old) }
    {
        if self.rests() {
            self.beats = (self.beats + beats) % 16;
        }
    }

    // Executes the next request, answers the last one again, and ignores any other.
    fn take_request(
        &mut self,
        tables: &mut ForwardingTables,
        serial: u64,
        request: Request,
        out: &mut ControlBuf,
    )
        requires { out.old.items ≡ [] }
        ensures state { state_in tables.new self.new
            ≡ (takes_request serial request (state_in tables.old self.old)).0 }
        ensures sends { own_sent out.new.items
            ≡ (takes_request serial request (state_in tables.old self.old)).1 }
    {
        match self.session.take(serial, request) {
            Due::Execute(request) => {
                let response = tables.execute(&request);
                self.session.store(response);
                self.opened = is_opened(self.opened, &request);
                self.answer(out);
            }
            Due::Again => self.answer(out),
            Due::Ignore => {}
        }
    }

    fn take_payload(&mut self, tables: &mut ForwardingTables, payload: &[u8], out: &mut ControlBuf)
        requires { out.old.items ≡ [] }
        ensures state { state_in tables.new self.new
            ≡ (takes_message (read_message payload.now) (state_in tables.old self.old)).0 }
        ensures sends { own_sent out.new.items
            ≡ (takes_message (read_message payload.now) (state_in tables.old self.old)).1 }
    {
        let Ok(message) = exb_csp::read(payload) else {
            return;
        };
        let Message { serial, body } = message;
        match body {
            Body::Ask(request) => self.take_request(tables, serial, request, out),
            Body::Answer(_) => {}
        }
    }

    // Acknowledges a request of ECP, and takes its payload if it is fresh.
    fn hear_request(
        &mut self,
        tables: &mut ForwardingTables,
        sequence: u16,
        payload: &[u8],
        sends: &mut Sends,
    )
        requires { IsNothing sends.old }
        ensures state { state_in tables.new self.new
            ≡ (hears_request sequence payload.now (state_in tables.old self.old)).0 }
        ensures frames { sends.new.frames ≡ sends.old.frames }
        ensures sends { own_sent sends.new.first.items ++ own_sent sends.new.second.items
            ≡ (hears_request sequence payload.now (state_in tables.old self.old)).1 }
    {
        write_acknowledgement(self.number, sequence, &mut sends.first);
        if self.ecp.received(sequence) {
            self.take_payload(tables, payload, &mut sends.second);
        }
    }

    fn hear_pdu(
        &mut self,
        tables: &mut ForwardingTables,
        pdu: &Pdu,
        frame: &[u8],
        sends: &mut Sends,
    )
        requires long { 18 ≤ length frame.now }
        requires empty { IsNothing sends.old }
        ensures state { state_in tables.new self.new
            ≡ (hears_pdu (Ok pdu.now) frame.now (state_in tables.old self.old)).0 }
        ensures frames { sends.new.frames ≡ sends.old.frames }
        ensures sends { own_sent sends.new.first.items ++ own_sent sends.new.second.items
            ≡ (hears_pdu (Ok pdu.now) frame.now (state_in tables.old self.old)).1 }
    {
        if pdu.subtype != ECP_SUBTYPE {
            return;
        }
        if pdu.acknowledgement {
            self.ecp.acked(pdu.sequence);
            return;
        }
        let (_, payload) = frame.split_at(PAYLOAD_AT);
        self.hear_request(tables, pdu.sequence, payload, sends);
    }

    /// Hears a control frame that comes from upstream without an E-TAG.
    pub(crate) fn hear(&mut self, tables: &mut ForwardingTables, frame: &[u8], sends: &mut Sends)
        requires { IsNothing sends.old }
        ensures state { state_in tables.new self.new
            ≡ (hears frame.now (state_in tables.old self.old)).0 }
        ensures frames { sends.new.frames ≡ sends.old.frames }
        ensures sends { own_sent sends.new.first.items ++ own_sent sends.new.second.items
            ≡ (hears frame.now (state_in tables.old self.old)).1 }
    {
        match exb_ecp::read(frame) {
            Ok(pdu) => self.hear_pdu(tables, &pdu, frame, sends),
            Err(_) => {}
        }
    }
}
