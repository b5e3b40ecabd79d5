//! What a topology sets up, and when that is valid.
ghost use Rattle.std.specs.Prelude.{◌≡◌, ◌≢◌, ◌↔◌, ℕ, ◌==◌, ◌≤◌, IsTrue, All, AllPairs, slice_index};
ghost use Rattle.std.specs.List.{list_any};
ghost use Rattle.exb_model.specs.Ports.{port_in};
ghost use Rattle.exb_model.specs.Tree.{Shape, is_external};
ghost use Rattle.exb_model.specs.Setup.{InRange, IsPlace, IsAgeing, IsStart, NamesExternal, IsValid, shape_of};

use crate::command::Command;
use crate::layout::Layout;
use crate::list::List;
use crate::port::DEVICES;
use crate::port_set::PortSet;

/// The port on which an extender hangs, numbered from 1.
#[derive(Clone, Copy)]
pub enum Place {
    /// A local port of the bridge.
    Bridge { port: u8 },
    /// A port of an extender.
    Extender { number: u8, port: u8 },
}

impl Place {
    /// Whether its numbers are 1 to 64.
    fn is_in_range(self) -> bool
        ensures { IsTrue result ↔ IsPlace self }
    {
        match self {
            Place::Bridge { port } => port >= 1 && port <= 64,
            Place::Extender { number, port } => {
                number >= 1 && number <= 64 && port >= 1 && port <= 64
            }
        }
    }
}

/// A port extender (IEEE 802.1BR): its number and how many ports it has, both 1 to 64, and where it
/// hangs.
#[derive(Clone, Copy)]
pub struct ExtenderSetup {
    pub number: u8,
    pub ports: u8,
    pub on: Place,
}

impl ExtenderSetup {
    /// Whether all its numbers are 1 to 64.
    fn is_in_range(&self) -> bool
        ensures { IsTrue result ↔ InRange self.now }
    {
        self.number >= 1
            && self.number <= 64
            && self.ports >= 1
            && self.ports <= 64
            && self.on.is_in_range()
    }
}

/// Whether all numbers of these extenders are 1 to 64.
fn are_in_range(extenders: &[ExtenderSetup]) -> bool
    ensures { IsTrue result ↔ All InRange extenders.now }
{
    for extender in extenders {
        if !extender.is_in_range() {
            return false;
        }
    }
    true
}

/// Whether one of these extenders has that number.
pub fn has_number(extenders: &[ExtenderSetup], number: u8) -> bool
    ensures { result ≡ list_any (λ e. e.number == number) extenders.now }
{
    for extender in extenders {
        if extender.number == number {
            return true;
        }
    }
    false
}

/// Whether no two of these extenders have one number.
fn are_distinct(extenders: &[ExtenderSetup]) -> bool
    ensures { IsTrue result ↔ AllPairs (λ a b. a.number ≢ b.number) extenders.now }
{
    for (index, extender) in extenders.iter().enumerate() {
        if has_number(&extenders[..index], extender.number) {
            return false;
        }
    }
    true
}

impl Command {
    /// Whether it names ports of this set alone.
    pub fn names_only(&self, external: &PortSet) -> bool
        ensures { (t : Shape) → ((q : ℕ) → port_in external.now q ≡ is_external t q)
            → (IsTrue result ↔ NamesExternal t self.now) }
    {
        match self {
            Command::Vlan {
                tagged,
                untagged,
                ..
            } => tagged.is_within(external) && untagged.is_within(external),
            Command::Static { ports, .. } => ports.is_within(external),
            Command::Unstatic { .. } => true,
            Command::Member { port, .. }
            | Command::Unmember { port, .. }
            | Command::Pvid { port, .. }
            | Command::Accept { port, .. }
            | Command::Filter { port, .. }
            | Command::Isolate { port, .. }
            | Command::Up { port }
            | Command::Down { port } => external.contains(*port),
        }
    }

    /// Whether it may stand at the start: it names ports of this set alone, and makes none present
    /// or absent.
    fn is_start(&self, external: &PortSet) -> bool
        ensures { (t : Shape) → ((q : ℕ) → port_in external.now q ≡ is_external t q)
            → (IsTrue result ↔ IsStart t self.now) }
    {
        match self {
            Command::Up { .. } | Command::Down { .. } => false,
            _ => self.names_only(external),
        }
    }
}

/// Whether all these commands may stand at the start.
fn are_start(commands: &[Command], external: &PortSet) -> bool
    ensures { (t : Shape) → ((q : ℕ) → port_in external.now q ≡ is_external t q)
        → (IsTrue result ↔ All (IsStart t) commands.now) }
{
    for command in commands {
        if !command.is_start(external) {
            return false;
        }
    }
    true
}

/// The bridge, its tree of extenders, and the configuration to start with.
pub struct Setup {
    /// Local ports of the bridge, 1 to 64.
    pub ports: u8,
    /// The extenders, in the order of the topology file.
    pub extenders: List<ExtenderSetup>,
    /// How many E-channels each cascade port of the bridge has, 1 to 4094.
    pub channels: u16,
    /// How many groups each cascade port of the bridge has, 1 to 12288.
    pub groups: u16,
    /// The ageing time in seconds, 0 (nothing is learned) or 10 to 1,000,000.
    pub ageing: u32,
    /// Commands that are applied to an empty configuration before anything happens.
    pub start: List<Command>,
}

impl Drop for Setup {
    fn drop(self) {
        let Setup {
            ports: _,
            extenders: _,
            channels: _,
            groups: _,
            ageing: _,
            start: _,
        } = self;
    }
}

impl Setup {
    /// Whether the bridge's own numbers are in their ranges.
    fn has_ranges(&self) -> bool
        ensures { IsTrue result ↔ ((1 ≤ self.now.ports) × (self.now.ports ≤ 64)
            × (1 ≤ self.now.channels) × (self.now.channels ≤ 4094) × (1 ≤ self.now.groups)
            × (self.now.groups ≤ 12288) × IsAgeing self.now.ageing) }
    {
        self.ports >= 1
            && self.ports <= 64
            && self.channels >= 1
            && self.channels <= 4094
            && self.groups >= 1
            && self.groups <= 12288
            && (self.ageing == 0 || self.ageing >= 10 && self.ageing <= 1_000_000)
    }

    /// Whether it can be set up: all numbers are in their ranges; the extenders have distinct
    /// numbers, and each hangs on a port of its own in a tree below the bridge; no port of the
    /// bridge has more cascade ports below it than E-channels; and the start names external ports
    /// alone and makes none present or absent.
    pub fn valid(&self) -> bool
        ensures { IsTrue result ↔ IsValid self.now }
    {
        let extenders = self.extenders.as_slice();
        if !self.has_ranges() || !are_in_range(extenders) || !are_distinct(extenders) {
            return false;
        }
        let layout = Layout::new(self);
        let cascades = layout.cascades();
        layout.is_tree()
            && layout.has_room(&cascades, self.channels)
            && are_start(self.start.as_slice(), &layout.external(&cascades))
    }

    /// How many ports each device has, 0 where there is none: the bridge is device 0, an extender
    /// has its own number.
    pub fn port_counts(&self) -> [u8; DEVICES as usize]
        requires { IsValid self.now }
        ensures counts { result ≡ (shape_of self.now).ports }
        ensures few { (n : ℕ) → slice_index result n ≤ 64 }
    {
        let mut ports = [0u8; DEVICES as usize];
        ports[0] = self.ports;
        for extender in self.extenders.as_slice() {
            ports[extender.number as usize] = extender.ports;
        }
        ports
    }
}

/// What becomes of a control frame on a link.
#[derive(Clone, Copy)]
pub enum Verdict {
    /// It is delivered.
    Pass,
    /// It is lost.
    Lose,
    /// It is delivered, and stays to be delivered again.
    Twice,
    /// It stays to be delivered later.
    Later,
}

/// A command of the topology file: `at` in seconds after the start, and what becomes of the control
/// frames that follow it.
#[derive(Drop)]
pub struct Timed {
    pub at: u32,
    pub command: Command,
    pub fate: List<Verdict>,
}
