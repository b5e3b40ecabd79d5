//! What an extender sends of one frame, or at one beat.

use arrayvec::ArrayVec;
use exb_model::buffers::ControlBuf;

/// A side of an extender.
#[derive(Clone, Copy, Default)]
pub enum Side {
    /// Towards the controlling bridge.
    #[default]
    Up,
    /// One of its ports, from 1.
    Port { port: u8 },
}

/// In which form the frame that came goes out.
#[derive(Clone, Copy, Default)]
pub enum Form {
    /// As it is.
    #[default]
    AsIs,
    /// Without the E-TAG at byte 12.
    Stripped,
    /// With an E-TAG put in at byte 12 that names this channel: PCP 0, DEI 0, ingress number 0.
    Tagged { channel: u16 },
}

/// A side to which the frame that came goes out, and in which form.
#[derive(Clone, Copy, Default)]
pub struct Out {
    pub to: Side,
    pub form: Form,
}

/// What becomes of a frame that arrives at an external port.
#[derive(Clone, Copy)]
pub enum Entry {
    /// It goes up.
    Sent,
    /// It is too short or too long, has a reserved destination, or the port has no channel.
    Ignored,
}

/// What an extender sends. No frame is copied here: a form says what becomes of the one that came.
#[derive(Drop)]
pub struct Sends {
    /// Where the frame that came goes out, in order.
    pub frames: ArrayVec<Out, 65>,
    /// A control frame of the extender's own, which goes up; empty where none is sent.
    pub first: ControlBuf,
    /// Likewise, after the first.
    pub second: ControlBuf,
}

impl Sends {
    ghost use Rattle.exb_extender.specs.SentFrames.{IsNothing};

    /// Nothing is sent.
    pub fn new() -> Sends
        ensures { IsNothing result }
    {
        Sends {
            frames: ArrayVec::new(),
            first: ControlBuf::new(),
            second: ControlBuf::new(),
        }
    }

    /// Makes it nothing.
    pub(crate) fn clear(&mut self)
        ensures { IsNothing self.new }
    {
        self.frames.clear();
        self.first.clear();
        self.second.clear();
    }
}
