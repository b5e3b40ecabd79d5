//! The row of one VLAN.
ghost use Rattle.std.specs.Prelude.{◌≡◌, ℕ, ◌/◌, ◌%◌, ◌==◌, ◌||◌, None, false, is_some, option_copied, IfOk};
ghost use Rattle.std.specs.List.{list_any};
ghost use Rattle.exb_model.specs.Ports.{all_ports};
ghost use Rattle.exb_model.specs.Configuration.{kind_in};
ghost use Rattle.exb_config.specs.Rows.{kind_by, is_marked};

use crate::members::Members;
use exb_model::memory::NoMemory;
use exb_model::port::PortId;
use exb_model::vlan::Kind;
use std::alloc::Global;
use std::marker::Model;

/// The members of a VLAN, if it has any.
#[derive(Drop)]
pub struct VlanRow {
    /// The devices that may have a member, by their bits: at a device without one a port is looked
    /// up, in VLAN after VLAN, with no look at their members.
    spread: u64,
    /// The places at which some device may have a member, by their bits: so a port of a device that
    /// is marked is mostly looked up without a look at the members too.
    places: u64,
    members: Option<Box<Members>>,
}

impl Model for VlanRow {
    ghost use Rattle.std.specs.Prelude.{Option};
    ghost use Rattle.exb_config.specs.declared.members.Members.{Members};

    ghost Value = { Option Members };

    ghost use Rattle.exb_config.specs.Rows.{boxed, IsKnownBy, IsSpread, IsPlaced};

    ghost view = { λ r. boxed r.members };

    ghost invariant = { λ r. IsKnownBy (boxed r.members) × IsSpread r.spread (boxed r.members)
        × IsPlaced r.places (boxed r.members) };
}

/// Marks a device; 0 and 64 have the same bit.
fn mark(spread: u64, device: u8) -> u64
    ensures { (d : ℕ) → is_marked result d ≡ (d % 64 == device % 64 || is_marked spread d) }
{
    spread | (1 << (device % 64))
}

/// Whether a device is marked.
#[inline(always)]
fn is_marked(spread: u64, device: u8) -> bool
    ensures { result ≡ is_marked spread device }
{
    (spread >> (device % 64)) & 1 == 1
}

/// The devices that have a member.
fn spread_of(members: &Members) -> u64
    ensures { (q : ℕ) → is_marked result (q / 64) ≡ false
        → kind_in members.now.tagged members.now.untagged q ≡ None }
{
    let mut spread = 0;
    for device in 0..65u8 {
        if members.is_on(device) {
            spread = mark(spread, device);
        }
    }
    spread
}

/// The places at which a device has a member.
fn places_of(members: &Members) -> u64
    ensures { (q : ℕ) → is_marked result (q % 64) ≡ false
        → kind_in members.now.tagged members.now.untagged q ≡ None }
{
    let mut places = 0;
    for device in 0..65usize {
        places |= members.tagged.words[device] | members.untagged.words[device];
    }
    places
}

impl VlanRow {
    /// No member.
    pub fn none() -> VlanRow
        ensures { result ≡ None }
    {
        VlanRow {
            spread: 0,
            places: 0,
            members: None,
        }
    }

    /// The row of a VLAN with these members.
    pub fn new(alloc: Global, members: &Members) -> Result<VlanRow, NoMemory>
        ensures { IfOk result (λ row. (q : ℕ) → kind_by row q
            ≡ kind_in members.now.tagged members.now.untagged q) }
    {
        if members.is_empty() {
            return Ok(VlanRow::none());
        }
        let spread = spread_of(members);
        let places = places_of(members);
        match Box::new(alloc, *members) {
            Ok(row) => Ok(VlanRow {
                spread,
                places,
                members: Some(row),
            }),
            Err(_) => Err(NoMemory),
        }
    }

    /// An equal row.
    pub fn copy(&self, alloc: Global) -> Result<VlanRow, NoMemory>
        ensures { IfOk result (λ made. made ≡ self.now) }
    {
        let members = match &self.members {
            Some(members) => match Box::new(alloc, **members) {
                Ok(made) => Some(made),
                Err(_) => return Err(NoMemory),
            },
            None => None,
        };
        Ok(VlanRow {
            spread: self.spread,
            places: self.places,
            members,
        })
    }

    /// The members; None exactly where there is none.
    pub fn members(&self) -> Option<&Members>
        ensures row { option_copied result ≡ self.now }
        ensures known { is_some (option_copied result)
            ≡ list_any (λ q. is_some (kind_by self.now q)) all_ports }
    {
        match &self.members {
            Some(members) => Some(members.as_ref()),
            None => None,
        }
    }

    /// How a port is a member.
    #[inline(always)]
    pub fn kind(&self, port: PortId) -> Option<Kind>
        ensures { result ≡ kind_by self.now port }
    {
        if !is_marked(self.spread, port.device()) || !is_marked(self.places, port.place()) {
            return None;
        }
        match &self.members {
            Some(members) => members.kind(port),
            None => None,
        }
    }
}
