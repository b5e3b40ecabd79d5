//! What is lent to every step of a network.
ghost use Rattle.std.specs.Prelude.{◌≡◌, []};

use crate::relayed_frames::Outgoing;
use exb_control::Outbox;
use exb_extender::Sends;
use exb_model::buffers::ControlBuf;
use exb_model::command::Command;
use exb_outbox::{FreeList, Log, StepOutput};
use std::alloc::Global;
use std::marker::PhantomData;

/// Where messages and frames are written; nothing in it is kept from step to step.
#[derive(Drop)]
pub struct Buffers {
    /// A message.
    pub message: ControlBuf,
    /// A control frame.
    pub control: ControlBuf,
}

/// What is lent to every step: where calls write what they give, which each call replaces, and what
/// has happened.
pub struct StepScratch {
    /// What a call of the control gives.
    pub outbox: Outbox,
    /// What the bridge makes of a frame.
    pub outgoing: Outgoing,
    /// What an extender sends.
    pub sends: Sends,
    pub buffers: Buffers,
    pub post: StepOutput,
    /// Names the type of commands, for functions that make a step.
    pub commands: PhantomData<Command>,
}

impl Drop for StepScratch {
    fn drop(self) {
        let StepScratch {
            outbox: _,
            outgoing: _,
            sends: _,
            buffers: _,
            post: _,
            commands: _,
        } = self;
    }
}

impl StepScratch {
    pub fn new(alloc: Global, tracing: bool) -> StepScratch
        ensures events { result.post.log.events ≡ [] }
        ensures passed { result.post.log.passed ≡ [] }
        ensures left { result.post.log.left ≡ [] }
        ensures lines { result.post.log.lines ≡ [] }
        ensures tracing { result.post.log.tracing ≡ tracing }
    {
        StepScratch {
            outbox: Outbox::new(alloc),
            outgoing: Outgoing::new(),
            sends: Sends::new(),
            buffers: Buffers {
                message: ControlBuf::new(),
                control: ControlBuf::new(),
            },
            post: StepOutput {
                alloc,
                store: FreeList::new(alloc),
                log: Log::new(alloc, tracing),
            },
            commands: PhantomData,
        }
    }
}
