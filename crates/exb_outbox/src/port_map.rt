//! Rows: some ports of one device.
ghost use Rattle.std.specs.Prelude.{◌≡◌, ◌∷◌, ◌++◌, ◌<◌, ◌≤◌, [], true, false, length, IfNone, IfSome};
ghost use Rattle.exb_csp.specs.AllTables.{port_of};
ghost use Rattle.exb_outbox.specs.PortMaps.{ports_in, HasNoneFrom, HasSome};

use exb_model::port::PortId;
use std::marker::Model;

/// Some ports of one device.
#[derive(Clone, Copy)]
pub struct PortMap {
    device: u8,
    /// Each a bit: that of port k, counted from 1, is bit k - 1.
    ports: u64,
}

impl Model for PortMap {
    ghost use Rattle.exb_outbox.specs.PortMaps.{Row};

    ghost Value = { Row };

    ghost use Rattle.std.specs.Prelude.{◌<◌};

    ghost view = { λ r. record { device = r.device; ports = r.ports } };

    ghost invariant = { λ r. r.device < 65 };

    ghost inverse = { λ v. record { device = v.device; ports = v.ports } };
}

impl PortMap {
    /// No port of a device.
    #[inline(always)]
    pub fn none(device: u8) -> PortMap
        requires { device < 65 }
        ensures device { result.device ≡ device }
        ensures bits { result.ports ≡ 0 }
        ensures ports { ports_in result ≡ [] }
    {
        PortMap { device, ports: 0 }
    }

    /// One port alone.
    #[inline(always)]
    pub fn of(port: PortId) -> PortMap
        ensures { ports_in result ≡ port ∷ [] }
    {
        let mut row = PortMap::none(port.device());
        row.put(port.place() + 1);
        row
    }

    /// The device.
    #[inline(always)]
    pub fn device(&self) -> u8
        ensures value { result ≡ self.now.device }
        ensures range { self.now.device < 65 }
    {
        self.device
    }

    /// Whether no port is in it.
    #[inline(always)]
    pub fn is_empty(&self) -> bool
        ensures empty { result ≡ true → ports_in self.now ≡ [] }
        ensures some { result ≡ false → HasSome (ports_in self.now) }
    {
        self.ports == 0
    }

    /// Whether neither the port of that number nor one behind it is in the row.
    #[inline(always)]
    pub fn ends_before(&self, port: u8) -> bool
        requires some { 0 < port }
        requires low { port ≤ 64 }
        ensures { result ≡ true → HasNoneFrom self.now port }
    {
        self.ports >> (port - 1) == 0
    }

    /// Puts the port of that number behind all that are in the row.
    #[inline(always)]
    pub fn put(&mut self, port: u8)
        requires some { 0 < port }
        requires low { port ≤ 64 }
        requires end { HasNoneFrom self.old port }
        ensures device { self.new.device ≡ self.old.device }
        ensures ports { ports_in self.new ≡ ports_in self.old ++ port_of self.old.device port ∷ [] }
    {
        self.ports |= 1 << (port - 1);
    }

    /// Takes the lowest port out, where there is one.
    #[inline(always)]
    pub fn next(&mut self) -> Option<PortId>
        ensures none { IfNone result (ports_in self.old ≡ []) }
        ensures some { IfSome result (λ port. ports_in self.old ≡ port ∷ ports_in self.new) }
        ensures fewer { IfSome result (λ port. self.new.ports < self.old.ports) }
    {
        if self.ports == 0 {
            return None;
        }
        let place = self.ports.trailing_zeros() as u8;
        self.ports &= !(1 << place);
        Some(PortId::at(self.device, place))
    }

    /// How many ports are in it.
    #[inline(always)]
    pub fn count(&self) -> u32
        ensures ports { result ≡ length (ports_in self.now) }
        ensures few { result ≤ 64 }
    {
        self.ports.count_ones()
    }
}
