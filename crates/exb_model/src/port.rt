//! Ports of the bridge and of the extenders.
ghost use Rattle.std.specs.Prelude.{◌≡◌, ◌+◌, ◌*◌, ◌/◌, ◌%◌, ◌<◌, ◌↔◌, IsSome, IfSome};

use std::marker::Model;

/// How many ports a device has at most.
pub const PORTS_OF_A_DEVICE: u16 = 64;

/// How many devices there are at most: the bridge and 64 extenders.
pub const DEVICES: u8 = 65;

/// How many ports bridge and extenders have at most: 64 of each device.
pub const PORTS: u16 = 4160;

/// A port: 64 n + k - 1 for port k of extender n, with n = 0 for the bridge, so below 4,160.
/// The order of ports is the order of these numbers.
#[derive(Clone, Copy, PartialEq, Eq, Default)]
pub struct PortId {
    number: u16,
}

impl Model for PortId {
    ghost use Rattle.std.specs.Prelude.{ℕ, ◌<◌};

    ghost Value = { ℕ };

    ghost view = { λ p. p.number };

    ghost invariant = { λ p. p.number < 4160 };

    ghost inverse = { λ n. record { number = n } };
}

impl PortId {
    /// The port of that number; None exactly where it isn't below 4,160.
    pub fn new(number: u16) -> Option<PortId>
        ensures valid { IsSome result ↔ (number < 4160) }
        ensures value { IfSome result (λ port. port ≡ number) }
    {
        if number < PORTS {
            Some(PortId { number })
        } else {
            None
        }
    }

    /// The port of a device, 0 for the bridge and n for extender n, at a place, counted from 0.
    pub fn at(device: u8, place: u8) -> PortId
        requires device { device < 65 }
        requires place { place < 64 }
        ensures { result ≡ 64 * device + place }
    {
        PortId {
            number: PORTS_OF_A_DEVICE * u16::from(device) + u16::from(place),
        }
    }

    /// The number, below 4,160.
    pub fn number(&self) -> u16
        ensures value { result ≡ self.now }
        ensures range { self.now < 4160 }
    {
        self.number
    }

    /// The device that has the port: 0 is the bridge, n is extender n, up to 64.
    pub fn device(&self) -> u8
        ensures value { result ≡ self.now / 64 }
        ensures range { result < 65 }
    {
        (self.number / PORTS_OF_A_DEVICE) as u8
    }

    /// The place of the port at its device, counted from 0, so below 64.
    pub fn place(&self) -> u8
        ensures value { result ≡ self.now % 64 }
        ensures range { result < 64 }
    {
        (self.number % PORTS_OF_A_DEVICE) as u8
    }
}
