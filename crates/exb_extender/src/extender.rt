//! The extender.
ghost use Rattle.std.specs.Prelude.{◌≡◌, ◌↔◌, ◌⊎◌, ℕ, ◌≤◌, [], List, true, false, is_none, All, None, IfOk, IfSome, IsTrue};
ghost use Rattle.exb_extender.specs.ExtenderParts.{state_in};
ghost use Rattle.exb_extender.specs.Forwarding.{emitted, is_ignored};
ghost use Rattle.exb_extender.specs.Machine.{comes};
ghost use Rattle.exb_extender.specs.SentFrames.{IsNothing, sent_by, form_sent, CanBeGiven};
ghost use Rattle.exb_extender.specs.Tables.{tables_of};

use crate::control::ExtenderControl;
use crate::forwarding::{
    form_from_cascade, form_from_external, is_bare_control, only_down, only_up, send_down,
};
use crate::sends::{Entry, Form, Out, Sends, Side};
use crate::tables::ForwardingTables;
use exb_model::memory::NoMemory;
use std::alloc::Global;
use std::marker::Model;

/// A port extender of 1 to 64 ports. It forwards frames by its tables, which the controlling bridge
/// sets by requests; it acknowledges and answers these, sends an answer again until it is
/// acknowledged, and announces itself until it is opened.
pub struct Extender {
    tables: ForwardingTables,
    control: ExtenderControl,
}

impl Drop for Extender {
    fn drop(self) {
        let Extender {
            tables: _,
            control: _,
        } = self;
    }
}

impl Model for Extender {
    ghost use Rattle.exb_extender.specs.Fields.{Fields};

    ghost Value = { Fields };

    ghost use Rattle.exb_extender.specs.ExtenderParts.{fields_in};

    ghost view = { λ x. fields_in x.tables x.control };
}

// Adds that the frame goes up in a form, if there is one.
fn send_up(form: Option<Form>, sends: &mut Sends)
    requires { IsNothing sends.old }
    ensures sends { (f : List ℕ) → sent_by f sends.new ≡ form_sent f form }
    ensures given { (f : List ℕ) → IfSome form (CanBeGiven f)
        → All (λ out. CanBeGiven f out.form) sends.new.frames.items }
{
    if let Some(form) = form {
        sends.frames.push(Out { to: Side::Up, form });
    }
}

// Takes a frame from a port that is a cascade port or has no channel.
fn take_up(tables: &ForwardingTables, port: u8, frame: &[u8], sends: &mut Sends)
    requires empty { IsNothing sends.old }
    requires port { port ≤ 64 }
    requires cascade { ((tables_of tables.now).cascade port ≡ true)
        ⊎ ((tables_of tables.now).own port ≡ 0) }
    ensures sends { sent_by frame.now sends.new ≡ emitted (tables_of tables.now)
        (Side.Port port) frame.now }
    ensures given { All (λ out. CanBeGiven frame.now out.form) sends.new.frames.items }
{
    if tables.cascade(port) {
        send_up(form_from_cascade(tables.channel(port), frame), sends);
    }
}

// Takes a frame from upstream.
fn take_down(
    tables: &mut ForwardingTables,
    control: &mut ExtenderControl,
    frame: &[u8],
    sends: &mut Sends,
)
    requires { IsNothing sends.old }
    ensures state { state_in tables.new control.new
        ≡ (comes Side.Up frame.now (state_in tables.old control.old)).0 }
    ensures sends { sent_by frame.now sends.new
        ≡ (comes Side.Up frame.now (state_in tables.old control.old)).1 }
    ensures given { All (λ out. CanBeGiven frame.now out.form) sends.new.frames.items }
{
    if is_bare_control(frame) {
        control.hear(tables, frame, sends);
    } else {
        send_down(tables, frame, &mut sends.frames);
    }
}

impl Extender {
    ghost use Rattle.exb_extender.specs.Fields.{state_of};
    ghost use Rattle.exb_extender.specs.Machine.{at_power_on, react, Arrives, Beats, IsPort, CanTake, IsSameDevice, IsExtender};
    ghost use Rattle.exb_extender.specs.SingleSide.{GoesTo};
    ghost use Rattle.exb_extender.specs.IdleExtender.{rests, rested};

    /// Extender `number` at power-on: each port is external and without a channel. This call alone
    /// takes memory.
    pub fn new(alloc: Global, number: u8, ports: u8) -> Result<Extender, NoMemory>
        requires numbered { (1 ≤ number) × (number ≤ 64) }
        requires ports { (1 ≤ ports) × (ports ≤ 64) }
        ensures state { IfOk result (λ made. state_of made ≡ at_power_on number ports) }
        ensures ports { IfOk result (λ made. (state_of made).tables.ports ≡ ports) }
    {
        let tables = ForwardingTables::new(alloc, ports)?;
        let control = ExtenderControl::new(number);
        Ok(Extender { tables, control })
    }

    /// Takes a frame from upstream, or from a port that is a cascade port or has no channel. What
    /// is in `sends` is replaced; an acknowledgement stands there before an answer.
    pub fn take(&mut self, from: Side, frame: &[u8], sends: &mut Sends)
        requires { CanTake (state_of self.old) from }
        ensures state { state_of self.new ≡ (react (Arrives from frame.now) (state_of self.old)).0 }
        ensures sends { sent_by frame.now sends.new
            ≡ (react (Arrives from frame.now) (state_of self.old)).1 }
        ensures given { All (λ out. CanBeGiven frame.now out.form) sends.new.frames.items }
        ensures device { IsSameDevice (state_of self.old) (state_of self.new) }
    {
        sends.clear();
        match from {
            Side::Up => take_down(&mut self.tables, &mut self.control, frame, sends),
            Side::Port { port } => take_up(&self.tables, port, frame, sends),
        }
    }

    /// The one side to which a frame from upstream, or from a port as `take` has it, goes on, and
    /// its form there, where nothing else comes of it: mostly so, and it need not be taken then.
    /// None says nothing.
    #[inline(always)]
    pub fn only_out(&self, from: Side, frame: &[u8]) -> Option<Out>
        requires { CanTake (state_of self.now) from }
        ensures { IfSome result (GoesTo (state_of self.now).tables from frame.now) }
    {
        match from {
            Side::Up => only_down(&self.tables, frame),
            Side::Port { port } => only_up(&self.tables, port, frame),
        }
    }

    /// The form in which a frame goes up that arrives at a port that is no cascade port; None where
    /// it is ignored. It need not be taken then: nothing else comes of it.
    #[inline(always)]
    pub fn form_in(&self, port: u8, frame: &[u8]) -> Option<Form>
        requires port { IsPort (state_of self.now) port }
        requires external { (state_of self.now).tables.cascade port ≡ false }
        ensures sends { form_sent frame.now result ≡ emitted (state_of self.now).tables
            (Side.Port port) frame.now }
        ensures given { IfSome result (CanBeGiven frame.now) }
        ensures ignored { is_none result ≡ is_ignored ((state_of self.now).tables.own port)
            frame.now }
    {
        form_from_external(self.tables.channel(port), frame)
    }

    /// Takes a frame that arrives at a port that is no cascade port. What is in `sends` is
    /// replaced.
    pub fn arrive(&mut self, port: u8, frame: &[u8], sends: &mut Sends) -> Entry
        requires port { IsPort (state_of self.old) port }
        requires external { (state_of self.old).tables.cascade port ≡ false }
        ensures state { self.new ≡ self.old }
        ensures sends { sent_by frame.now sends.new
            ≡ (react (Arrives (Side.Port port) frame.now) (state_of self.old)).1 }
        ensures given { All (λ out. CanBeGiven frame.now out.form) sends.new.frames.items }
        ensures ignored { (result ≡ Entry.Ignored)
            ↔ IsTrue (is_ignored ((state_of self.old).tables.own port) frame.now) }
    {
        sends.clear();
        let form = form_from_external(self.tables.channel(port), frame);
        send_up(form, sends);
        match form {
            Some(_) => Entry::Sent,
            None => Entry::Ignored,
        }
    }

    /// One beat passes. What is in `sends` is replaced.
    pub fn beat(&mut self, sends: &mut Sends)
        ensures state { state_of self.new ≡ (react Beats (state_of self.old)).0 }
        ensures sends { sent_by [] sends.new ≡ (react Beats (state_of self.old)).1 }
        ensures none { sends.new.frames.items ≡ [] }
        ensures device { IsSameDevice (state_of self.old) (state_of self.new) }
    {
        sends.clear();
        self.control.beat(self.tables.ports(), sends);
    }

    /// Whether it sends nothing that waits for an acknowledgement.
    pub fn idle(&self) -> bool
        ensures idle { IsTrue result ↔ ((state_of self.now).ecp.sending ≡ None) }
        ensures sound { IsExtender (state_of self.now) }
    {
        self.control.idle()
    }

    /// Whether it rests: it was opened, and sends nothing that waits for an acknowledgement. A beat
    /// then changes its count alone.
    pub fn rests(&self) -> bool
        ensures { result ≡ rests (state_of self.now) }
    {
        self.control.rests()
    }

    /// So many beats pass at once where it rests; else it stays as it is. After sixteen the count
    /// is as before.
    pub fn pass(&mut self, beats: u8)
        requires { beats ≤ 16 }
        ensures { state_of self.new ≡ rested beats (state_of self.old) }
    {
        self.control.pass(beats);
    }

    /// Whether a port is a cascade port.
    pub fn cascade(&self, port: u8) -> bool
        requires { IsPort (state_of self.now) port }
        ensures { result ≡ (state_of self.now).tables.cascade port }
    {
        self.tables.cascade(port)
    }
}
