//! The index of the next record of each port.
ghost use Rattle.std.specs.Prelude.{◌≡◌, ◌+◌, ◌<◌, ◌^◌, IfOk};
ghost use Rattle.exb_model.specs.Tables.{at};
ghost use Rattle.exb_bridge.specs.Indices.{next_of};

use exb_model::memory::NoMemory;
use exb_model::port::{PORTS, PortId};
use std::alloc::Global;
use std::marker::Model;

/// By port, the index of its next record; each begins with 1.
#[derive(Drop)]
pub struct Indices {
    next: Vec<u64>,
}

impl Model for Indices {
    ghost use Rattle.std.specs.Prelude.{◌≡◌, ℕ, List, length};

    ghost Value = { List ℕ };

    ghost view = { λ x. x.next.items };

    ghost invariant = { λ x. length x.next.items ≡ 4160 };
}

impl Indices {
    /// No record has come.
    pub fn new(alloc: Global) -> Result<Indices, NoMemory>
        ensures { IfOk result (λ made. next_of made ≡ λ p. 1) }
    {
        let mut next = Vec::new(alloc);
        for _ in 0..PORTS {
            next.push(1u64)?;
        }
        Ok(Indices { next })
    }

    /// The index of a port's next record.
    pub fn next(&self, port: PortId) -> u64
        ensures { result ≡ next_of self.now port }
    {
        self.next[port.number() as usize]
    }

    /// A record of a port has come.
    pub fn count(&mut self, port: PortId)
        requires { next_of self.old port < 2 ^ 63 }
        ensures { next_of self.new ≡ at port (next_of self.old port + 1) (next_of self.old) }
    {
        let next = &mut self.next[port.number() as usize];
        *next += 1;
    }
}
