//! How often the set of each group is a part of a configuration.
ghost use Rattle.std.specs.Prelude.{◌≡◌, ◌^◌, ℕ, ◌+◌, ◌-◌, ◌<◌, ◌≤◌, ◌==◌, ◌&&◌, ◌++◌, true, [], length, replicate, slice_index_or, slice_set, vec_capacity, if◌then◌else◌, IfOk, IsOk, OnOk, OnErr};
ghost use Rattle.exb_model.specs.Tree.{is_cascade};
ghost use Rattle.exb_plan.specs.UseCounts.{count_in, count_at, used_in, used_at};

use crate::cascade_ports::is_cascade;
use exb_model::memory::NoMemory;
use exb_model::tree::Tree;
use std::alloc::Global;
use std::marker::Model;

/// The lowest number of a group.
const FIRST: u16 = 4096;

/// How many ports the bridge can have.
const BRIDGE_PORTS: u8 = 64;

// How many groups a bridge port gets.
fn granted(is_cascade: bool, count: u16) -> u16
    ensures { result ≡ (if is_cascade then count else 0) }
{
    if is_cascade { count } else { 0 }
}

/// How often the set of each group of one space is a part, from the lowest number on.
#[derive(Drop)]
struct SpaceUses {
    /// How many groups there are.
    limit: u16,
    /// The uses as far as a group ever had one, with the room for all, so that a copy copies no
    /// more than these. The others have none.
    counts: Vec<u64>,
    /// How many of them aren't 0.
    used: u16,
}

impl Model for SpaceUses {
    ghost use Rattle.std.specs.Prelude.{◌≡◌, ℕ, ◌≤◌, List, length, count_by, nat_lt, vec_capacity};
    ghost use Rattle.exb_plan.specs.UseCounts.{padded};

    ghost Value = { List ℕ };

    ghost view = { λ r. padded r.limit r.counts.items };

    ghost invariant = { λ r. (r.used ≡ count_by (nat_lt 0) r.counts.items)
        × (length r.counts.items ≤ r.limit) × (r.limit ≤ 12288)
        × (r.limit ≤ vec_capacity r.counts) };
}

// Makes so many places, the new ones without a use.
fn reach(counts: &mut Vec<u64>, count: usize)
    requires room { count ≤ vec_capacity counts.old }
    ensures items { counts.new.items ≡ counts.old.items ++ replicate
        (count - length counts.old.items) 0 }
    ensures room { vec_capacity counts.old ≤ vec_capacity counts.new }
{
    if counts.len() < count {
        counts.resize(count, 0).unwrap();
    }
}

impl SpaceUses {
    // So many groups, each without a use.
    fn new(alloc: Global, groups: u16) -> Result<SpaceUses, NoMemory>
        requires { groups ≤ 12288 }
        ensures { IfOk result (λ made. made ≡ replicate groups 0) }
    {
        Ok(SpaceUses {
            limit: groups,
            counts: Vec::with_capacity(alloc, groups as usize)?,
            used: 0,
        })
    }

    // An equal row.
    fn copy(&self) -> Result<SpaceUses, NoMemory>
        ensures { IfOk result (λ made. made ≡ self.now) }
    {
        let mut counts = Vec::with_capacity(*self.counts.allocator(), self.limit as usize)?;
        counts.extend_from_slice(self.counts.as_slice())?;
        Ok(SpaceUses {
            limit: self.limit,
            counts,
            used: self.used,
        })
    }

    // How often the set of a group is a part.
    fn count(&self, group: u16) -> u64
        requires low { 4096 ≤ group }
        ensures { result ≡ count_in self.now group }
    {
        match self.counts.get((group - FIRST) as usize) {
            Some(count) => *count,
            None => 0,
        }
    }

    // How many groups have a use.
    fn used(&self) -> u16
        ensures { result ≡ used_in self.now }
    {
        self.used
    }

    // One use more.
    fn raise(&mut self, group: u16) -> Result<(), NoMemory>
        requires low { 4096 ≤ group }
        requires there { group - 4096 < length self.old }
        ensures ok { OnOk result (self.new ≡ slice_set self.old (group - 4096)
            (count_in self.old group + 1)) }
        ensures err { OnErr result (self.new ≡ self.old) }
        ensures met { count_in self.old group < 2 ^ 63 → IsOk result }
    {
        let place = (group - FIRST) as usize;
        reach(&mut self.counts, place + 1);
        let count = self.counts[place];
        if count == u64::MAX {
            return Err(NoMemory);
        }
        self.counts[place] = count + 1;
        if count == 0 {
            self.used += 1;
        }
        Ok(())
    }

    // One use less.
    fn lower(&mut self, group: u16)
        requires low { 4096 ≤ group }
        requires used { 0 < count_in self.old group }
        ensures { self.new ≡ slice_set self.old (group - 4096) (count_in self.old group - 1) }
    {
        let place = (group - FIRST) as usize;
        let count = self.counts[place];
        self.counts[place] = count - 1;
        if count == 1 {
            self.used -= 1;
        }
    }
}

/// How often the set of each group is a part of a configuration. In contracts bridge port k is
/// place k - 1, and group 4,096 + i its place i.
pub struct GroupUses {
    /// The groups of each bridge port; one that is no cascade port has none.
    rows: Vec<SpaceUses>,
}

impl Drop for GroupUses {
    fn drop(self) {
        let GroupUses { rows: _ } = self;
    }
}

impl Model for GroupUses {
    ghost use Rattle.std.specs.Prelude.{ℕ, List};

    ghost Value = { List (List ℕ) };

    ghost view = { λ u. u.rows.items };
}

impl GroupUses {
    /// None is used. A row for each cascade port of the bridge.
    pub fn new(alloc: Global, tree: &Tree, groups: u16) -> Result<GroupUses, NoMemory>
        requires groups { groups ≤ 12288 }
        ensures zero { IfOk result (λ made. (k g : ℕ) → count_at made k g ≡ 0) }
        ensures rows { IfOk result (λ made. (k : ℕ) → k < 64 → is_cascade tree.now k ≡ true
            → length (slice_index_or made k []) ≡ groups) }
    {
        let mut rows = Vec::new(alloc);
        for number in 0..BRIDGE_PORTS {
            let size = granted(is_cascade(tree, number + 1), groups);
            rows.push(SpaceUses::new(alloc, size)?)?;
        }
        Ok(GroupUses { rows })
    }

    /// Equal uses.
    pub fn copy(&self) -> Result<GroupUses, NoMemory>
        ensures { IfOk result (λ made. made ≡ self.now) }
    {
        let mut rows = Vec::new(*self.rows.allocator());
        for row in &self.rows {
            rows.push(row.copy()?)?;
        }
        Ok(GroupUses { rows })
    }

    /// How often the set of a group is a part.
    pub fn count(&self, bridge_port: u8, group: u16) -> u64
        requires from1 { 1 ≤ bridge_port }
        requires low { 4096 ≤ group }
        ensures { result ≡ count_at self.now (bridge_port - 1) group }
    {
        match self.rows.get(bridge_port as usize - 1) {
            Some(row) => row.count(group),
            None => 0,
        }
    }

    /// How many groups of a bridge port have a use.
    pub fn used(&self, bridge_port: u8) -> u16
        requires from1 { 1 ≤ bridge_port }
        ensures { result ≡ used_at self.now (bridge_port - 1) }
    {
        match self.rows.get(bridge_port as usize - 1) {
            Some(row) => row.used(),
            None => 0,
        }
    }

    /// One use more. Out of memory where there are 2^64 - 1 uses, which no memory holds.
    pub fn raise(&mut self, bridge_port: u8, group: u16) -> Result<(), NoMemory>
        requires from1 { 1 ≤ bridge_port }
        requires low { 4096 ≤ group }
        requires there { group - 4096 < length (slice_index_or self.old (bridge_port - 1) []) }
        ensures ok { OnOk result ((k g : ℕ) → 4096 ≤ g → count_at self.new k g
            ≡ (if k == bridge_port - 1 && g == group then count_at self.old k g + 1 else count_at
            self.old k g)) }
        ensures err { OnErr result (self.new ≡ self.old) }
        ensures met { count_at self.old (bridge_port - 1) group < 2 ^ 63 → IsOk result }
        ensures rows { (k : ℕ) → length (slice_index_or self.new k [])
            ≡ length (slice_index_or self.old k []) }
    {
        self.rows[bridge_port as usize - 1].raise(group)
    }

    /// One use less.
    pub fn lower(&mut self, bridge_port: u8, group: u16)
        requires from1 { 1 ≤ bridge_port }
        requires low { 4096 ≤ group }
        requires used { 0 < count_at self.old (bridge_port - 1) group }
        ensures counts { (k g : ℕ) → 4096 ≤ g → count_at self.new k g
            ≡ (if k == bridge_port - 1 && g == group then count_at self.old k g - 1 else count_at
            self.old k g) }
        ensures rows { (k : ℕ) → length (slice_index_or self.new k [])
            ≡ length (slice_index_or self.old k []) }
    {
        self.rows[bridge_port as usize - 1].lower(group)
    }
}
