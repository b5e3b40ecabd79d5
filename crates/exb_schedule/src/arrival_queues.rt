//! The arrivals of a segment that are still to come, port by port.
ghost use Rattle.std.specs.Prelude.{◌≤◌, length};

use exb_model::arrival::Arrival;
use exb_model::memory::NoMemory;
use exb_model::port::PortId;
use std::alloc::Global;
use std::collections::VecDeque;

/// The places of the arrivals at one port, in order.
#[derive(Drop)]
pub struct ArrivalQueue {
    pub port: PortId,
    pub waiting: VecDeque<usize>,
}

/// How many of the queues are of a lower port. Their ports rise, so the place is found by halves.
fn place_of(queues: &[ArrivalQueue], port: PortId) -> usize
    ensures { result ≤ length queues.now }
{
    let mut low = 0;
    let mut high = queues.len();
    'halves: while low < high {
        let middle = low + (high - low) / 2;
        if queues[middle].port.number() < port.number() {
            low = middle + 1;
        } else {
            high = middle;
        }
    }
    low
}

/// Puts an arrival behind those of its port.
fn enqueue(
    queues: &mut Vec<ArrivalQueue>,
    alloc: Global,
    port: PortId,
    at: usize,
) -> Result<(), NoMemory> {
    let place = place_of(queues.as_slice(), port);
    if place == queues.len() || queues[place].port != port {
        queues.insert(
            place,
            ArrivalQueue {
                port,
                waiting: VecDeque::new(alloc),
            },
        )?;
    }
    queues[place].waiting.push_back(at)?;
    Ok(())
}

/// The queues of a segment's arrivals, in port order.
pub(crate) fn queues_of(
    alloc: Global,
    arrivals: &[Arrival],
) -> Result<Vec<ArrivalQueue>, NoMemory> {
    let mut queues = Vec::new(alloc);
    for at in 0..arrivals.len() {
        enqueue(&mut queues, alloc, arrivals[at].port, at)?;
    }
    Ok(queues)
}

/// The place of the arrival that is next in a queue.
pub(crate) fn next_in(queues: &[ArrivalQueue], queue: usize) -> Option<usize> {
    match queues.get(queue) {
        Some(queue) => queue.waiting.front().copied(),
        None => None,
    }
}

/// It came. A queue in which no arrival is left goes.
pub(crate) fn take_from(queues: &mut Vec<ArrivalQueue>, queue: usize) {
    if queue < queues.len() {
        let _ = queues[queue].waiting.pop_front();
        if queues[queue].waiting.is_empty() {
            let _ = queues.remove(queue);
        }
    }
}
