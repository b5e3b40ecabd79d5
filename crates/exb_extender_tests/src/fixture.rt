//! An extender under test, and what it sent last.
ghost use Rattle.std.specs.Prelude.{◌≡◌, ◌≤◌, length};
ghost use Rattle.exb_extender.specs.Fields.{state_of};

use exb_ecp::Pdu;
use exb_extender::{Entry, Extender, Out, Sends, Side};
use exb_model::address::Mac;
use exb_model::buffers::ControlBuf;
use std::alloc::Global;
use std::process::Abort;

const BRIDGE: Mac = Mac([0x02, 0x45, 0x42, 0, 0, 0]);

/// Extender 1 with three ports, and the sequence of the bridge's last request.
#[derive(Drop)]
pub(crate) struct Fixture {
    extender: Extender,
    sends: Sends,
    sequence: u16,
    pub ghost three: { (state_of extender).tables.ports ≡ 3 },
}

impl Fixture {
    pub(crate) fn new(rt: &impl Abort, alloc: Global) -> Fixture {
        let extender = Extender::new(alloc, 1, 3).expect(rt, "an extender");
        Fixture {
            extender,
            sends: Sends::new(),
            sequence: 0,
        }
    }

    /// A frame comes from upstream.
    pub(crate) fn down(&mut self, frame: &[u8]) {
        self.extender.take(Side::Up, frame, &mut self.sends);
    }

    /// ECP comes from the bridge, with any sequence.
    pub(crate) fn control(&mut self, acknowledgement: bool, sequence: u16, payload: &[u8])
        requires { length payload.now ≤ 1024 }
    {
        let pdu = Pdu {
            acknowledgement,
            subtype: 2,
            sequence,
            payload_at: 18,
        };
        let mut frame = ControlBuf::new();
        exb_ecp::write(BRIDGE, &pdu, payload, &mut frame);
        self.down(frame.as_slice());
    }

    /// The bridge's next request comes, with this payload.
    pub(crate) fn hear(&mut self, payload: &[u8])
        requires { length payload.now ≤ 1024 }
    {
        self.sequence = self.sequence.wrapping_add(1);
        self.repeat(payload);
    }

    /// A request with the last sequence again.
    pub(crate) fn repeat(&mut self, payload: &[u8])
        requires { length payload.now ≤ 1024 }
    {
        self.control(false, self.sequence, payload);
    }

    /// What was sent with this sequence is acknowledged.
    pub(crate) fn acknowledge(&mut self, sequence: u16) {
        self.control(true, sequence, &[]);
    }

    /// A frame comes from the cascade port 3.
    pub(crate) fn up(&mut self, rt: &impl Abort, frame: &[u8]) {
        let cascade = self.extender.cascade(3);
        assert!(rt; cascade);
        self.extender
            .take(Side::Port { port: 3 }, frame, &mut self.sends);
    }

    /// A frame arrives at the external port 1.
    pub(crate) fn arrive(&mut self, rt: &impl Abort, frame: &[u8]) -> Entry {
        let cascade = self.extender.cascade(1);
        assert!(rt; !cascade);
        self.extender.arrive(1, frame, &mut self.sends)
    }

    pub(crate) fn beat(&mut self) {
        self.extender.beat(&mut self.sends);
    }

    pub(crate) fn idle(&self) -> bool {
        self.extender.idle()
    }

    pub(crate) fn outs(&self) -> &[Out] {
        self.sends.frames.as_slice()
    }

    pub(crate) fn first(&self) -> &[u8] {
        self.sends.first.as_slice()
    }

    pub(crate) fn second(&self) -> &[u8] {
        self.sends.second.as_slice()
    }

    /// Whether nothing was sent.
    pub(crate) fn is_silent(&self) -> bool {
        self.outs().is_empty() && self.first().is_empty() && self.second().is_empty()
    }
}
