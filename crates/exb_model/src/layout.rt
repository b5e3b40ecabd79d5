//! The tree of a setup as two tables by device, and whether it is a tree.
ghost use Rattle.std.specs.Prelude.{◌≡◌, ◌<◌, ◌≤◌, ◌≢◌, ◌↔◌, ℕ, IsTrue, All, length, slice_index};
ghost use Rattle.exb_model.specs.Ports.{port_in};
ghost use Rattle.exb_model.specs.Tree.{HangsOn, IsTree, is_port, is_extender, is_cascade, is_external, is_cascade_under, cascades_under, top};
ghost use Rattle.exb_model.specs.Setup.{InRange, IsPlace, port_at, shape_of};

use crate::port::PortId;
use crate::port_set::PortSet;
use crate::setup::{Place, Setup};
use std::marker::Model;

/// The tree by device: 0 is the bridge, n is extender n.
#[derive(Drop)]
pub(crate) struct Layout {
    /// How many ports a device has; 0 where there is no such extender.
    ports: [u8; 65],
    /// The port on which an extender hangs.
    on: [u16; 65],
}

impl Model for Layout {
    ghost use Rattle.exb_model.specs.Tree.{Shape};
    ghost use Rattle.exb_model.specs.Setup.{AreTables};

    ghost Value = { Shape };

    ghost view = { λ l. record { ports = l.ports; on = l.on } };

    ghost invariant = { λ l. AreTables l.ports l.on };
}

/// The port at a place.
fn port_at(place: Place) -> u16
    requires { IsPlace place }
    ensures value { result ≡ port_at place }
    ensures range { result < 4160 }
{
    match place {
        Place::Bridge { port } => port as u16 - 1,
        Place::Extender { number, port } => 64 * number as u16 + (port as u16 - 1),
    }
}

impl Layout {
    /// The tables of a setup. Where two extenders have one number, the later one counts.
    pub(crate) fn new(setup: &Setup) -> Layout
        requires { All InRange setup.now.extenders }
        ensures { result ≡ shape_of setup.now }
    {
        let mut ports = [0u8; 65];
        let mut on = [0u16; 65];
        ports[0] = setup.ports;
        for extender in setup.extenders.as_slice() {
            let number = extender.number as usize;
            ports[number] = extender.ports;
            on[number] = port_at(extender.on);
        }
        Layout { ports, on }
    }

    /// How many devices there can be: the bridge and 64 extenders.
    fn devices(&self) -> u16
        ensures value { result ≡ 65 }
        ensures sized { length self.now.ports ≡ 65 }
    {
        let ports = &self.ports;
        ports.len() as u16
    }

    /// Whether there is an extender of that number.
    pub(crate) fn is_extender(&self, number: u16) -> bool
        requires { number < 65 }
        ensures { result ≡ is_extender self.now number }
    {
        number > 0 && self.ports[number as usize] > 0
    }

    /// Whether the tree has that port.
    pub(crate) fn is_port(&self, port: u16) -> bool
        requires { port < 4160 }
        ensures { result ≡ is_port self.now port }
    {
        port % 64 < self.ports[port as usize / 64] as u16
    }

    /// The port on which an extender hangs.
    pub(crate) fn on(&self, number: u16) -> u16
        requires { number < 65 }
        ensures value { result ≡ slice_index self.now.on number }
        ensures range { result < 4160 }
    {
        self.on[number as usize]
    }

    /// The last port on the way up from a port, at most 63 ports above it.
    pub(crate) fn top(&self, port: u16) -> u16
        requires { port < 4160 }
        ensures { result ≡ top self.now.on 63 port }
    {
        let mut at = port;
        for _step in 0..63u32 {
            if at < 64 {
                return at;
            }
            at = self.on(at / 64);
        }
        at
    }

    /// Whether each extender hangs on a port of the tree.
    fn hang_on_ports(&self) -> bool
        ensures sized { length self.now.ports ≡ 65 }
        ensures on_ports { IsTrue result ↔ ((n : ℕ) → IsTrue (is_extender self.now n)
            → IsTrue (is_port self.now (slice_index self.now.on n))) }
    {
        for number in 1..self.devices() {
            if self.is_extender(number) && !self.is_port(self.on(number)) {
                return false;
            }
        }
        true
    }

    /// Whether no extender of a lower number hangs on the port of that one.
    fn hangs_alone(&self, number: u16) -> bool
        requires { number < 65 }
        ensures { IsTrue result ↔ ((n : ℕ) → n < number → IsTrue (is_extender self.now n)
            → slice_index self.now.on n ≢ slice_index self.now.on number) }
    {
        for lower in 1..number {
            if self.is_extender(lower) && self.on(lower) == self.on(number) {
                return false;
            }
        }
        true
    }

    /// Whether no two extenders hang on one port.
    fn hang_alone(&self) -> bool
        ensures { IsTrue result ↔ ((n m : ℕ) → n < m → IsTrue (is_extender self.now n)
            → IsTrue (is_extender self.now m) → slice_index self.now.on n
            ≢ slice_index self.now.on m) }
    {
        for number in 1..self.devices() {
            if self.is_extender(number) && !self.hangs_alone(number) {
                return false;
            }
        }
        true
    }

    /// Whether the bridge is reached from each extender.
    fn reach_bridge(&self) -> bool
        ensures { IsTrue result ↔ ((n : ℕ) → IsTrue (is_extender self.now n)
            → top self.now.on 63 (slice_index self.now.on n) < 64) }
    {
        for number in 1..self.devices() {
            if self.is_extender(number) && self.top(self.on(number)) >= 64 {
                return false;
            }
        }
        true
    }

    /// Whether it is a tree: each extender hangs on a port of its own, which is there, and the
    /// bridge is reached from it.
    pub(crate) fn is_tree(&self) -> bool
        ensures { IsTrue result ↔ IsTree self.now }
    {
        if !self.hang_on_ports() || !self.hang_alone() {
            return false;
        }
        self.reach_bridge()
    }

    /// The ports on which an extender hangs.
    pub(crate) fn cascades(&self) -> PortSet
        ensures { (q : ℕ) → port_in result q ≡ is_cascade self.now q }
    {
        let mut cascades = PortSet::empty();
        for number in 0..self.devices() {
            if self.is_extender(number) {
                cascades.insert(PortId::new(self.on(number)).unwrap());
            }
        }
        cascades
    }

    /// Whether a port is one of an extender on which an extender hangs, and below that port of the
    /// bridge.
    fn is_cascade_under(&self, cascades: &PortSet, bridge_port: u16, port: PortId) -> bool
        requires { (q : ℕ) → port_in cascades.now q ≡ is_cascade self.now q }
        ensures { result ≡ is_cascade_under self.now bridge_port port }
    {
        let number = port.number();
        if number < 64 || !self.is_port(number) || !cascades.contains(port) {
            return false;
        }
        self.top(self.on(number / 64)) == bridge_port
    }

    /// How many of those there are.
    fn cascades_under(&self, cascades: &PortSet, bridge_port: u16) -> u16
        requires { (q : ℕ) → port_in cascades.now q ≡ is_cascade self.now q }
        ensures { result ≡ cascades_under self.now bridge_port }
    {
        let mut count = 0;
        for number in 0..64 * self.devices() {
            let port = PortId::new(number).unwrap();
            if self.is_cascade_under(cascades, bridge_port, port) {
                count += 1;
            }
        }
        count
    }

    /// Whether below no port of the bridge there are more cascade ports than that many.
    pub(crate) fn has_room(&self, cascades: &PortSet, channels: u16) -> bool
        requires { (q : ℕ) → port_in cascades.now q ≡ is_cascade self.now q }
        ensures { IsTrue result ↔ ((k : ℕ) → k < 64 → cascades_under self.now k ≤ channels) }
    {
        for bridge_port in 0..64u16 {
            if self.cascades_under(cascades, bridge_port) > channels {
                return false;
            }
        }
        true
    }

    /// Whether a port is there and no extender hangs on it.
    fn is_external(&self, cascades: &PortSet, port: PortId) -> bool
        requires { (q : ℕ) → port_in cascades.now q ≡ is_cascade self.now q }
        ensures { result ≡ is_external self.now port }
    {
        self.is_port(port.number()) && !cascades.contains(port)
    }

    /// The ports that are there and on which no extender hangs.
    pub(crate) fn external(&self, cascades: &PortSet) -> PortSet
        requires { (q : ℕ) → port_in cascades.now q ≡ is_cascade self.now q }
        ensures { (q : ℕ) → port_in result q ≡ is_external self.now q }
    {
        let mut external = PortSet::empty();
        for number in 0..64 * self.devices() {
            let port = PortId::new(number).unwrap();
            if self.is_external(cascades, port) {
                external.insert(port);
            }
        }
        external
    }
}
