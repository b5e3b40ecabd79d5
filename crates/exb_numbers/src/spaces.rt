//! The spaces of the bridge's cascade ports.
ghost use Rattle.std.specs.Prelude.{◌≡◌, ℕ, ◌+◌, ◌-◌, ◌<◌, ◌≤◌, ◌&&◌, true, [], None, nat_lt, replicate, if◌then◌else◌, IfOk, OnOk};
ghost use Rattle.std.specs.Borrow.{sem};
ghost use Rattle.exb_model.specs.Tree.{is_cascade};
ghost use Rattle.exb_numbers.specs.Groups.{set_of};
ghost use Rattle.exb_numbers.specs.Spaces.{has_space, channels_at, groups_at, IsAdded};

use crate::channels::Channels;
use crate::groups::Groups;
use exb_model::memory::NoMemory;
use exb_model::port::PortId;
use exb_model::tree::Tree;
use std::alloc::Global;
use std::marker::Model;

/// How many ports the bridge can have.
const BRIDGE_PORTS: u8 = 64;

/// The channels and groups of each cascade port of the bridge, each in a space of its own. In
/// contracts bridge port k is place k - 1.
pub struct Spaces {
    /// Whether a bridge port has a space.
    cascades: Vec<bool>,
    /// The channels of each bridge port; one without a space has none.
    channels: Vec<Channels>,
    /// The groups likewise.
    groups: Vec<Groups>,
}

impl Drop for Spaces {
    fn drop(self) {
        let Spaces {
            cascades: _,
            channels: _,
            groups: _,
        } = self;
    }
}

impl Model for Spaces {
    ghost use Rattle.std.specs.Prelude.{◌≡◌};
    ghost use Rattle.exb_numbers.specs.Spaces.{Spaces};

    ghost Value = { Spaces };

    ghost view = { λ s. record {
      cascades = s.cascades.items;
      channels = s.channels.items;
      groups = s.groups.items;
    } };
}

// How many numbers a bridge port gets.
fn granted(is_cascade: bool, count: u16) -> u16
    ensures { result ≡ (if is_cascade then count else 0) }
{
    if is_cascade { count } else { 0 }
}

impl Spaces {
    ghost use Rattle.exb_numbers.specs.BorrowedSpaces.{LendsChannels, LendsGroups};

    /// A space for each cascade port of the bridge, with so many channels and groups, all free.
    pub fn new(alloc: Global, tree: &Tree, channels: u16, groups: u16) -> Result<Spaces, NoMemory>
        requires channels { channels ≤ 4094 }
        requires groups { groups ≤ 12288 }
        ensures spaces { IfOk result (λ made. (k : ℕ) → has_space made k
            ≡ (nat_lt k 64 && is_cascade tree.now k)) }
        ensures channels { IfOk result (λ made. (k : ℕ) → has_space made k ≡ true
            → channels_at made k ≡ replicate (channels + 1) None) }
        ensures groups { IfOk result (λ made. (k : ℕ) → has_space made k ≡ true → (g : ℕ)
            → set_of (groups_at made k) g ≡ []) }
        ensures limits { IfOk result (λ made. (k : ℕ) → has_space made k ≡ true
            → (groups_at made k).limit ≡ groups) }
    {
        let mut spaces = Spaces {
            cascades: Vec::new(alloc),
            channels: Vec::new(alloc),
            groups: Vec::new(alloc),
        };
        for number in 0..BRIDGE_PORTS {
            let is_cascade = tree.is_cascade(PortId::at(0, number));
            spaces.add(alloc, is_cascade, channels, groups)?;
        }
        Ok(spaces)
    }

    // Adds the space of the next bridge port.
    fn add(
        &mut self,
        alloc: Global,
        is_cascade: bool,
        channels: u16,
        groups: u16,
    ) -> Result<(), NoMemory>
        requires channels { channels ≤ 4094 }
        requires groups { groups ≤ 12288 }
        ensures { OnOk result (IsAdded self.old is_cascade channels groups self.new) }
    {
        let free_channels = Channels::new(alloc, granted(is_cascade, channels))?;
        let free_groups = Groups::new(alloc, granted(is_cascade, groups))?;
        self.cascades.push(is_cascade)?;
        self.channels.push(free_channels)?;
        self.groups.push(free_groups)?;
        Ok(())
    }

    /// The channels of a cascade port of the bridge.
    pub fn channels(&self, bridge_port: u8) -> &Channels
        requires from1 { 1 ≤ bridge_port }
        requires cascade { has_space self.now (bridge_port - 1) ≡ true }
        ensures { result.now ≡ channels_at self.now (bridge_port - 1) }
    {
        &self.channels[bridge_port as usize - 1]
    }

    /// The groups of a cascade port of the bridge.
    pub fn groups(&self, bridge_port: u8) -> &Groups
        requires from1 { 1 ≤ bridge_port }
        requires cascade { has_space self.now (bridge_port - 1) ≡ true }
        ensures { result.now ≡ groups_at self.now (bridge_port - 1) }
    {
        &self.groups[bridge_port as usize - 1]
    }

    /// The channels of a cascade port of the bridge, to claim and release. The other spaces stay.
    pub fn channels_mut(&mut self, bridge_port: u8) -> &mut Channels
        requires from1 { 1 ≤ bridge_port }
        requires cascade { has_space self.old (bridge_port - 1) ≡ true }
        ensures* writes_back { sem 𝓛 (LendsChannels self.entry (bridge_port - 1) result) }
        ensures value { result.now ≡ channels_at self.old (bridge_port - 1) }
    {
        &mut self.channels[bridge_port as usize - 1]
    }

    /// The groups of a cascade port of the bridge, to claim and release. The other spaces stay.
    pub fn groups_mut(&mut self, bridge_port: u8) -> &mut Groups
        requires from1 { 1 ≤ bridge_port }
        requires cascade { has_space self.old (bridge_port - 1) ≡ true }
        ensures* writes_back { sem 𝓛 (LendsGroups self.entry (bridge_port - 1) result) }
        ensures value { result.now ≡ groups_at self.old (bridge_port - 1) }
    {
        &mut self.groups[bridge_port as usize - 1]
    }
}
