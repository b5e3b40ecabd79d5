//! The extenders of a network.
ghost use Rattle.std.specs.Prelude.{◌≡◌, ◌↔◌, ◌&&◌, ℕ, ◌≤◌, ◌<◌, true, false, not, if◌then◌else◌, is_none, IfOk, IfSome, None, []};
ghost use Rattle.std.specs.List.{All};
ghost use Rattle.exb_model.specs.Frames.{is_control_frame};
ghost use Rattle.exb_model.specs.Setup.{IsValid, shape_of};
ghost use Rattle.exb_model.specs.Tree.{is_extender};
ghost use Rattle.exb_extender.specs.Fields.{state_of};
ghost use Rattle.exb_extender.specs.Forwarding.{emitted, is_ignored};
ghost use Rattle.exb_extender.specs.Machine.{Arrives, Beats, CanTake, IsPort, react};
ghost use Rattle.exb_extender.specs.SingleSide.{GoesTo};
ghost use Rattle.exb_extender.specs.IdleExtender.{rests, rested};
ghost use Rattle.exb_extender.specs.SentFrames.{form_sent, sent_by, CanBeGiven};
ghost use Rattle.exb_extender.specs.Forms.{CanGo};
ghost use Rattle.exb_model.specs.Tables.{at};
ghost use Rattle.exb_extender.specs.Extenders.{far_of, first_far, has_extender, if_rests, IsPoweredOn, AreSame};
ghost use Rattle.exb_model.specs.DeviceSets.{number_in, IsNumber};

use crate::extender::Extender;
use crate::sends::{Form, Out, Sends, Side};
use exb_model::address::is_control_frame;
use exb_model::device_set::{meet, with_bit};
use exb_model::memory::NoMemory;
use exb_model::port::DEVICES;
use exb_model::setup::Setup;
use std::alloc::Global;
use std::marker::Model;

/// The extenders by number.
pub struct Extenders {
    /// How many ports each device has, 0 where there is none.
    ports: [u8; DEVICES as usize],
    extenders: Vec<Option<Extender>>,
    /// Those that send something that waits for an acknowledgement.
    sending: u64,
    /// Those that are there and don't rest.
    waiting: u64,
    /// How many beats, modulo 16, have passed at all that rest. They aren't counted in these yet:
    /// so a beat costs nothing at an extender that rests.
    passed: u8,
}

impl Drop for Extenders {
    fn drop(self) {
        let Extenders {
            ports: _,
            extenders: _,
            sending: _,
            waiting: _,
            passed: _,
        } = self;
    }
}

impl Model for Extenders {
    ghost use Rattle.exb_extender.specs.Extenders.{AreNoted, Devices};

    ghost Value = { Devices };

    ghost view = { λ d. record {
      ports = d.ports;
      extenders = d.extenders.items;
      passed = d.passed;
    } };

    ghost invariant = { λ d. AreNoted d.extenders.items d.sending d.waiting d.passed };
}

/// An extender at power-on, where the device is one: it isn't the bridge, and has ports.
fn at_power_on(alloc: Global, number: u8, ports: u8) -> Result<Option<Extender>, NoMemory>
    requires ports { ports ≤ 64 }
    requires number { number ≤ 64 }
    ensures { IfOk result (λ made. IsPoweredOn number ports made) }
{
    if number == 0 || ports == 0 {
        return Ok(None);
    }
    Ok(Some(Extender::new(alloc, number, ports)?))
}

/// That an extender has at most 64 ports, as a fact for whoever calls it. It does nothing.
fn has_few_ports(extender: &Extender)
    ensures { (state_of extender.now).tables.ports ≤ 64 }
{
    let _ = extender.idle();
}

/// The beats that passed go out of the count again, where it rests.
fn put_back(extender: &mut Extender, passed: u8)
    requires { passed < 16 }
    ensures { rested passed (state_of extender.new) ≡ state_of extender.old }
{
    // Its clause has that the count is below 16.
    let _ = extender.idle();
    extender.pass(16 - passed);
}

impl Extenders {
    /// All extenders of a setup, at power-on.
    pub fn new(alloc: Global, setup: &Setup) -> Result<Extenders, NoMemory>
        requires { IsValid setup.now }
        ensures far { IfOk result (λ made. far_of made ≡ first_far (shape_of setup.now)) }
        ensures there { IfOk result (λ made. (n : ℕ) → is_extender (shape_of setup.now) n ≡ true
            → has_extender made n ≡ true) }
        ensures only { IfOk result (λ made. (n : ℕ) → has_extender made n ≡ true
            → is_extender (shape_of setup.now) n ≡ true) }
    {
        let ports = setup.port_counts();
        let mut extenders = Vec::new(alloc);
        // The bridge isn't one.
        extenders.push(None)?;
        let mut waiting = 0u64;
        for number in 1..DEVICES {
            let extender = at_power_on(alloc, number, ports[number as usize])?;
            waiting = with_bit(waiting, number, extender.is_some());
            extenders.push(extender)?;
        }
        Ok(Extenders {
            ports,
            extenders,
            sending: 0,
            waiting,
            passed: 0,
        })
    }

    /// The one side to which a frame from upstream, or from one of its cascade ports, goes on, with
    /// its form there, where nothing else comes of it. None says nothing.
    #[inline(always)]
    pub fn only_out(&self, number: u8, from: Side, frame: &[u8]) -> Option<Out>
        requires there { has_extender self.now number ≡ true }
        requires from { CanTake (far_of self.now number) from }
        ensures { IfSome result (GoesTo (far_of self.now number).tables from frame.now) }
    {
        match &self.extenders[number as usize] {
            Some(extender) => extender.only_out(from, frame),
            None => None,
        }
    }

    /// An extender takes a frame from upstream, or from one of its cascade ports.
    #[inline(always)]
    pub fn take(&mut self, number: u8, from: Side, frame: &[u8], sends: &mut Sends)
        requires known { IsNumber number }
        requires there { has_extender self.old number ≡ true }
        requires from { CanTake (far_of self.old number) from }
        ensures state { far_of self.new
            ≡ at number (react (Arrives from frame.now) (far_of self.old number)).0
            (far_of self.old) }
        ensures sends { sent_by frame.now sends.new
            ≡ (react (Arrives from frame.now) (far_of self.old number)).1 }
        ensures given { All (CanGo frame.now) sends.new.frames.items }
        ensures same { AreSame self.old self.new }
    {
        if is_control_frame(frame) {
            self.hear(number, from, frame, sends);
        } else {
            self.forward(number, from, frame, sends);
        }
    }

    /// It takes a control frame.
    #[cold]
    #[inline(never)]
    fn hear(&mut self, number: u8, from: Side, frame: &[u8], sends: &mut Sends)
        requires known { IsNumber number }
        requires there { has_extender self.old number ≡ true }
        requires from { CanTake (far_of self.old number) from }
        ensures state { far_of self.new
            ≡ at number (react (Arrives from frame.now) (far_of self.old number)).0
            (far_of self.old) }
        ensures sends { sent_by frame.now sends.new
            ≡ (react (Arrives from frame.now) (far_of self.old number)).1 }
        ensures given { All (CanGo frame.now) sends.new.frames.items }
        ensures same { AreSame self.old self.new }
    {
        if let Some(extender) = &mut self.extenders[number as usize] {
            extender.pass(self.passed);
            has_few_ports(extender);
            extender.take(from, frame, sends);
            put_back(extender, self.passed);
            let busy = !extender.idle();
            let wakes = !extender.rests();
            self.sending = with_bit(self.sending, number, busy);
            self.waiting = with_bit(self.waiting, number, wakes);
        }
    }

    /// It takes a data frame, which changes nothing of it: it sends and rests as before.
    fn forward(&mut self, number: u8, from: Side, frame: &[u8], sends: &mut Sends)
        requires there { has_extender self.old number ≡ true }
        requires from { CanTake (far_of self.old number) from }
        requires plain { is_control_frame frame.now ≡ false }
        ensures state { far_of self.new
            ≡ at number (react (Arrives from frame.now) (far_of self.old number)).0
            (far_of self.old) }
        ensures sends { sent_by frame.now sends.new
            ≡ (react (Arrives from frame.now) (far_of self.old number)).1 }
        ensures given { All (CanGo frame.now) sends.new.frames.items }
        ensures same { AreSame self.old self.new }
    {
        if let Some(extender) = &mut self.extenders[number as usize] {
            has_few_ports(extender);
            extender.take(from, frame, sends);
        }
    }

    /// The form in which a frame goes up that arrives at a port of an extender that is no cascade
    /// port; None where it is ignored.
    #[inline(always)]
    pub fn form_in(&self, number: u8, port: u8, frame: &[u8]) -> Option<Form>
        requires there { has_extender self.now number ≡ true }
        requires port { IsPort (far_of self.now number) port }
        requires external { (far_of self.now number).tables.cascade port ≡ false }
        ensures sends { form_sent frame.now result ≡ emitted (far_of self.now number).tables
            (Side.Port port) frame.now }
        ensures given { IfSome result (CanBeGiven frame.now) }
        ensures ignored { is_none result ≡ is_ignored ((far_of self.now number).tables.own port)
            frame.now }
    {
        match &self.extenders[number as usize] {
            Some(extender) => extender.form_in(port, frame),
            None => None,
        }
    }

    /// A beat passes at an extender.
    pub fn beat(&mut self, number: u8, sends: &mut Sends)
        requires known { IsNumber number }
        requires there { has_extender self.old number ≡ true }
        ensures state { far_of self.new ≡ at number (react Beats (far_of self.old number)).0
            (far_of self.old) }
        ensures sends { sent_by [] sends.new ≡ (react Beats (far_of self.old number)).1 }
        ensures none { sends.new.frames.items ≡ [] }
        ensures same { AreSame self.old self.new }
    {
        if let Some(extender) = &mut self.extenders[number as usize] {
            extender.pass(self.passed);
            extender.beat(sends);
            put_back(extender, self.passed);
            let busy = !extender.idle();
            let wakes = !extender.rests();
            self.sending = with_bit(self.sending, number, busy);
            self.waiting = with_bit(self.waiting, number, wakes);
        }
    }

    /// A beat passes at all extenders that rest.
    pub fn beat_resting(&mut self)
        ensures state { (n : ℕ) → far_of self.new n ≡ if_rests (far_of self.old n) }
        ensures same { AreSame self.old self.new }
    {
        self.passed = (self.passed + 1) % 16;
    }

    /// The extenders that don't rest, as a set of numbers.
    pub fn waiting(&self) -> u64
        ensures { (n : ℕ) → number_in result n
            ≡ (if has_extender self.now n && not (rests (far_of self.now n)) then 1 else 0) }
    {
        self.waiting
    }

    /// Whether a port of an extender is a cascade port.
    pub fn cascade(&self, number: u8, port: u8) -> bool
        requires there { has_extender self.now number ≡ true }
        requires port { IsPort (far_of self.now number) port }
        ensures { result ≡ (far_of self.now number).tables.cascade port }
    {
        match &self.extenders[number as usize] {
            Some(extender) => extender.cascade(port),
            None => false,
        }
    }

    /// Whether one of these extenders sends something that waits for an acknowledgement.
    pub fn are_sending(&self, among: u64) -> bool
        ensures { (result ≡ false) ↔ ((n : ℕ) → number_in among n ≡ 1
            → (far_of self.now n).ecp.sending ≡ None) }
    {
        meet(self.sending, among)
    }
}
