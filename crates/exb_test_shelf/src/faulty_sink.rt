//! A sink whose calls are disturbed.
ghost use Rattle.std.specs.Prelude.{◌≡◌, []};
ghost use Rattle.exb_test_shelf.specs.DisturbedFiles.{printed, print_faults};

use crate::disturbance::{Call, CallFate, CallKind, Disturbance, note, tell};
use exb_shelf::{ShelfFault, Sink};
use std::alloc::Global;

/// Text in memory, whose calls are disturbed.
#[derive(Drop)]
pub struct FaultySink {
    disturbance: Disturbance,
    calls: Vec<Call>,
    faults: u64,
    text: Vec<u8>,
}

impl FaultySink {
    /// An empty text.
    pub fn new(alloc: Global, disturbance: Disturbance) -> FaultySink
        ensures { printed result ≡ [] }
    {
        FaultySink {
            disturbance,
            calls: Vec::new(alloc),
            faults: 0,
            text: Vec::new(alloc),
        }
    }

    /// The calls that were made.
    pub fn calls(&self) -> &[Call] {
        &self.calls
    }

    /// What was written so far.
    pub fn text(&self) -> &[u8]
        ensures { result.now ≡ printed self.now }
    {
        &self.text
    }
}

impl Sink for FaultySink {
    ghost tells = { Unit {0} };

    ghost text = { printed };

    ghost faults = { print_faults };

    fn write(&mut self, bytes: &[u8]) -> Result<usize, ShelfFault> {
        match note(&mut self.calls, self.disturbance, CallKind::Print) {
            Ok(CallFate::Fails) => {
                self.faults = self.faults.saturating_add(1);
                Err(ShelfFault::Failed)
            }
            Ok(CallFate::Moves { most }) => {
                let length = bytes.len().min(most.max(1));
                match self.text.extend_from_slice(&bytes[..length]) {
                    Ok(()) => {
                        tell(&mut self.calls, length);
                        Ok(length)
                    }
                    Err(_) => Err(ShelfFault::Memory),
                }
            }
            _ => Err(ShelfFault::Memory),
        }
    }
}
