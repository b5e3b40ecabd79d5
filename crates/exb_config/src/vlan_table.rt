//! The members of each VLAN.
ghost use Rattle.std.specs.Prelude.{◌≡◌, ℕ, ◌==◌, None, is_some, option_copied, if◌then◌else◌, replicate, IfOk, OnOk, OnErr};
ghost use Rattle.std.specs.List.{list_any};
ghost use Rattle.exb_model.specs.Ports.{all_ports};
ghost use Rattle.exb_model.specs.Configuration.{kind_in};
ghost use Rattle.exb_config.specs.Rows.{kind_by, member_of};

use crate::members::Members;
use crate::vlan_row::VlanRow;
use exb_model::memory::NoMemory;
use exb_model::port::PortId;
use exb_model::vlan::{Kind, Vid};
use std::alloc::Global;
use std::marker::Model;

/// As many places as VLANs can have numbers, with 0 and 4,095, which none has.
const PLACES: usize = 4096;

/// A row for each VLAN, at the place of the VLAN's number, so that nothing is searched.
#[derive(Drop)]
pub struct VlanTable {
    rows: Vec<VlanRow>,
}

impl Model for VlanTable {
    ghost use Rattle.std.specs.Prelude.{◌≡◌, List, Option, length};
    ghost use Rattle.exb_config.specs.declared.members.Members.{Members};

    ghost Value = { List (Option Members) };

    ghost view = { λ t. t.rows.items };

    ghost invariant = { λ t. length t.rows.items ≡ 4096 };
}

// So many rows without a member.
fn no_rows(alloc: Global, count: usize) -> Result<Vec<VlanRow>, NoMemory>
    ensures { IfOk result (λ made. made.items ≡ replicate count None) }
{
    let mut rows = Vec::new(alloc);
    for _ in 0..count {
        rows.push(VlanRow::none())?;
    }
    Ok(rows)
}

impl VlanTable {
    /// No VLAN has a member.
    pub fn new(alloc: Global) -> Result<VlanTable, NoMemory>
        ensures { IfOk result (λ made. (v q : ℕ) → member_of made v q ≡ None) }
    {
        Ok(VlanTable {
            rows: no_rows(alloc, PLACES)?,
        })
    }

    /// An equal table.
    pub fn copy(&self) -> Result<VlanTable, NoMemory>
        ensures { IfOk result (λ made. made ≡ self.now) }
    {
        let alloc = *self.rows.allocator();
        let mut rows = Vec::with_capacity(alloc, PLACES)?;
        for row in &self.rows {
            rows.push(row.copy(alloc)?)?;
        }
        Ok(VlanTable { rows })
    }

    /// The row of a VLAN; None exactly where it has no member.
    pub fn row(&self, vid: Vid) -> Option<&Members>
        ensures kinds { (q : ℕ) → kind_by (option_copied result) q ≡ member_of self.now vid q }
        ensures known { is_some (option_copied result)
            ≡ list_any (λ q. is_some (member_of self.now vid q)) all_ports }
    {
        self.rows[vid.number() as usize].members()
    }

    /// The members of a VLAN.
    pub fn members(&self, vid: Vid) -> Members
        ensures { (q : ℕ) → kind_in result.tagged result.untagged q ≡ member_of self.now vid q }
    {
        match self.row(vid) {
            Some(members) => *members,
            None => Members::none(),
        }
    }

    /// How a port is a member of a VLAN.
    pub fn kind(&self, vid: Vid, port: PortId) -> Option<Kind>
        ensures { result ≡ member_of self.now vid port }
    {
        self.rows[vid.number() as usize].kind(port)
    }

    /// Whether a VLAN has a member.
    pub fn is_known(&self, vid: Vid) -> bool
        ensures { result ≡ list_any (λ q. is_some (member_of self.now vid q)) all_ports }
    {
        self.row(vid).is_some()
    }

    /// Sets the members of a VLAN. It has a row exactly while it has a member.
    pub fn put(&mut self, vid: Vid, members: Members) -> Result<(), NoMemory>
        ensures ok { OnOk result ((w q : ℕ) → member_of self.new w q
            ≡ (if w == vid then kind_in members.tagged members.untagged q else member_of self.old w
            q)) }
        ensures err { OnErr result (self.new ≡ self.old) }
    {
        let row = VlanRow::new(*self.rows.allocator(), &members)?;
        self.rows[vid.number() as usize] = row;
        Ok(())
    }
}
