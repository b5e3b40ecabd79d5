//! The channels of a space.
ghost use Rattle.std.specs.Prelude.{◌≡◌, ℕ, ◌+◌, ◌==◌, ◌<◌, ◌≤◌, ◌↔◌, true, false, length, replicate, slice_set, Some, None, if◌then◌else◌, IfOk, OnErr, IfSome, MatchResult};
ghost use Rattle.exb_numbers.specs.Channels.{holder, is_used, channel_of, lowest_channel};

use exb_model::memory::NoMemory;
use exb_model::port::{PORTS, PortId};
use std::alloc::Global;
use std::marker::Model;

/// All channels are in use.
#[derive(Clone, Copy)]
pub struct NoChannel;

/// The channels of a space: each is free, or of one port, and a port has at most one. Contracts see
/// the port of each channel, channel 0 being of none.
#[derive(Drop)]
pub struct Channels {
    /// The port of each channel.
    ports: Vec<Option<PortId>>,
    /// The channel of each port.
    channels: Vec<Option<u16>>,
    /// The lowest free channel, one past the last where all are in use.
    free: u16,
}

impl Model for Channels {
    ghost use Rattle.std.specs.Prelude.{ℕ, List, Option};

    ghost Value = { List (Option ℕ) };

    ghost use Rattle.exb_numbers.specs.Channels.{AreKept};

    ghost view = { λ c. c.ports.items };

    ghost invariant = { λ c. AreKept c.ports.items c.channels.items c.free };
}

// The first place from `from` on that holds no port, or one past the last.
fn next_free(ports: &[Option<PortId>], from: u16) -> u16
    requires start { from ≤ length ports.now }
    requires short { length ports.now ≤ 4095 }
    ensures low { from ≤ result }
    ensures high { result ≤ length ports.now }
    ensures passed { (c : ℕ) → from ≤ c → c < result → is_used ports.now c ≡ true }
    ensures free { is_used ports.now result ≡ false }
{
    let mut place = from;
    while (place as usize) < ports.len() && ports[place as usize].is_some() {
        place += 1;
    }
    place
}

// So many places without a port.
fn no_ports(alloc: Global, count: usize) -> Result<Vec<Option<PortId>>, NoMemory>
    ensures { IfOk result (λ made. made.items ≡ replicate count None) }
{
    Ok(Vec::from_elem(alloc, None, count)?)
}

// So many places without a channel.
fn no_channels(alloc: Global, count: usize) -> Result<Vec<Option<u16>>, NoMemory>
    ensures { IfOk result (λ made. made.items ≡ replicate count None) }
{
    Ok(Vec::from_elem(alloc, None, count)?)
}

impl Channels {
    /// Channels 1 to `limit`, all free, with the room for every later claim. The limit is at most
    /// 4,094.
    pub fn new(alloc: Global, limit: u16) -> Result<Channels, NoMemory>
        requires { limit ≤ 4094 }
        ensures { IfOk result (λ made. made ≡ replicate (limit + 1) None) }
    {
        Ok(Channels {
            ports: no_ports(alloc, limit as usize + 1)?,
            channels: no_channels(alloc, PORTS as usize)?,
            free: 1,
        })
    }

    /// Equal channels.
    pub fn copy(&self) -> Result<Channels, NoMemory>
        ensures { IfOk result (λ made. made ≡ self.now) }
    {
        Ok(Channels {
            ports: self.ports.clone()?,
            channels: self.channels.clone()?,
            free: self.free,
        })
    }

    /// Gives a port the lowest free channel. The port has none before. `NoChannel` exactly where
    /// all are in use.
    pub fn claim(&mut self, port: PortId) -> Result<u16, NoChannel>
        requires { channel_of self.old port ≡ None }
        ensures lowest { MatchResult result (λ c. lowest_channel self.old ≡ Some c)
            (λ _. lowest_channel self.old ≡ None) }
        ensures ok { IfOk result (λ c. self.new ≡ slice_set self.old c (Some port)) }
        ensures holders { IfOk result (λ c. (e : ℕ) → holder self.new e
            ≡ (if e == c then Some port else holder self.old e)) }
        ensures err { OnErr result (self.new ≡ self.old) }
    {
        let channel = self.free;
        if channel as usize >= self.ports.len() {
            return Err(NoChannel);
        }
        self.ports[channel as usize] = Some(port);
        self.channels[port.number() as usize] = Some(channel);
        self.free = next_free(self.ports.as_slice(), channel);
        Ok(channel)
    }

    /// Frees a channel that is in use.
    pub fn release(&mut self, channel: u16)
        requires { is_used self.old channel ≡ true }
        ensures table { self.new ≡ slice_set self.old channel None }
        ensures holders { (e : ℕ) → holder self.new e
            ≡ (if e == channel then None else holder self.old e) }
    {
        let Some(port) = self.ports[channel as usize] else {
            return;
        };
        self.channels[port.number() as usize] = None;
        self.ports[channel as usize] = None;
        if channel < self.free {
            self.free = channel;
        }
    }

    /// How many channels there are.
    pub fn limit(&self) -> u16
        ensures { length self.now ≡ result + 1 }
    {
        self.ports.len() as u16 - 1
    }

    /// The channel of a port; None exactly where it has none.
    pub fn of(&self, port: PortId) -> Option<u16>
        ensures value { result ≡ channel_of self.now port }
        ensures exact { (c : ℕ) → (result ≡ Some c) ↔ (holder self.now c ≡ Some port) }
        ensures range { IfSome result (λ c. (1 ≤ c) × (c ≤ 4094)) }
    {
        self.channels[port.number() as usize]
    }

    /// The port of a channel; None exactly where the channel is free or there is no such channel.
    pub fn port(&self, channel: u16) -> Option<PortId>
        ensures { result ≡ holder self.now channel }
    {
        match self.ports.get(channel as usize) {
            Some(port) => *port,
            None => None,
        }
    }
}
