//! The groups of a space.
ghost use Rattle.std.specs.Prelude.{◌≡◌, ◌≢◌, ℕ, ◌+◌, ◌==◌, ◌<◌, ◌≤◌, not, true, false, [], Some, None, if◌then◌else◌, length, slice_index, vec_capacity, IfOk, OnErr, IfSome, MatchOption, MatchResult};
ghost use Rattle.exb_model.specs.Ports.{ports_of};
ghost use Rattle.exb_model.specs.Refusals.{is_empty_set};
ghost use Rattle.exb_numbers.specs.Groups.{set_of, sets_of, is_used, group_of, lowest_group};
ghost use Rattle.exb_numbers.specs.GroupOrder.{compared, ranks_at, rank_of, mixed, joined, key_of, is_held, put_at, put_key_at, IsRising, IsAt, SplitsAt, IsEntered, IsLeft, HaveKeys};

use exb_model::memory::NoMemory;
use exb_model::port_set::PortSet;
use std::alloc::Global;
use std::cmp::Ordering;
use std::marker::Model;

/// The lowest number of a group.
const FIRST: u16 = 4096;

/// An odd number whose bits are spread: a key is the words of a set as digits to this base.
const FACTOR: u64 = 11400714819323198485;

/// Another such number, to whose powers the numbers of the pieces are taken.
const FAR: u64 = 13787848793156543929;

/// All groups are in use.
#[derive(Clone, Copy)]
pub struct NoGroup;

/// The groups of a space: each is free, or of one set of ports that isn't empty, and a set has at
/// most one. Contracts see the limit, and the ports of each group in order; a free one has none.
#[derive(Drop)]
pub struct Groups {
    limit: u16,
    /// The set of each group, from the lowest number on as far as one was ever claimed; empty where
    /// it is free.
    sets: Vec<PortSet>,
    /// The key of each of these sets, 0 where the group is free, so that a search looks at few
    /// sets.
    keys: Vec<u64>,
    /// The places of the groups in use, in the order of the keys of their sets, and then of their
    /// words.
    order: Vec<u16>,
    /// The place of the lowest free group.
    free: u16,
}

impl Model for Groups {
    ghost use Rattle.std.specs.Prelude.{vec_capacity, ◌≤◌};
    ghost use Rattle.exb_numbers.specs.Groups.{Groups};

    ghost Value = { Groups };

    ghost use Rattle.exb_numbers.specs.Groups.{sets_of};
    ghost use Rattle.exb_numbers.specs.GroupOrder.{AreOrdered, HaveKeys};

    ghost view = { λ g. record { limit = g.limit; sets = sets_of g.sets.items } };

    ghost invariant = { λ g. AreOrdered g.limit g.sets.items g.order.items g.free
        × (g.limit ≤ vec_capacity g.sets) × (g.limit ≤ vec_capacity g.order)
        × (g.limit ≤ vec_capacity g.keys) × HaveKeys g.sets.items g.keys.items };
}

/// Whether a set has a port, as a set that claims a group must.
pub fn has_ports(set: &PortSet) -> bool
    ensures { result ≡ not (is_empty_set (ports_of set.now)) }
{
    !set.is_same(&PortSet::empty())
}

// Whether two sets have the same words.
fn are_same(one: &PortSet, other: &PortSet) -> bool
    ensures { result ≡ true → one.now.words ≡ other.now.words }
{
    for device in 0..65usize {
        if one.words[device] != other.words[device] {
            return false;
        }
    }
    true
}

// The key with a word more.
#[tactic(auto, unfolding(crate::specs::GroupOrder::mixed))]
#[inline(always)]
fn mixed(key: u64, word: u64) -> u64
    ensures { result ≡ mixed key word }
{
    key.wrapping_mul(FACTOR).wrapping_add(word)
}

// The number of a piece behind that of the pieces before it.
#[tactic(auto, unfolding(crate::specs::GroupOrder::joined))]
#[inline(always)]
fn joined(key: u64, piece: u64) -> u64
    ensures { result ≡ joined key piece }
{
    key.wrapping_mul(FAR).wrapping_add(piece)
}

// The key of a set, by which most sets are told apart. The digits of one piece wait for each other,
// and those of four go side by side.
#[tactic(auto, unfolding(crate::specs::GroupOrder::key_of))]
#[inline(always)]
fn key_of(set: &PortSet) -> u64
    ensures { result ≡ key_of set.now.words }
{
    let mut first = 0;
    let mut second = 0;
    let mut third = 0;
    let mut fourth = 0;
    for place in 0..16usize {
        first = mixed(first, set.words[place]);
        second = mixed(second, set.words[16 + place]);
        third = mixed(third, set.words[32 + place]);
        fourth = mixed(fourth, set.words[48 + place]);
    }
    let key = joined(joined(first, second), third);
    joined(key, mixed(fourth, set.words[64]))
}

// How the set of a place compares with a set of this key.
fn against(keys: &[u64], sets: &[PortSet], place: u16, key: u64, set: &PortSet) -> Ordering
    requires keys { HaveKeys sets.now keys.now }
    requires key { key ≡ key_of set.now.words }
    ensures { result ≡ compared (ranks_at sets.now place) (rank_of set.now) }
{
    match keys.get(place as usize) {
        Some(other) => match other.cmp(&key) {
            Ordering::Equal => sets[place as usize].words.cmp(&set.words),
            order => order,
        },
        None => Ordering::Less,
    }
}

// Where a set stands among the places, or where it would.
fn search(
    keys: &[u64],
    sets: &[PortSet],
    order: &[u16],
    key: u64,
    set: &PortSet,
) -> Result<usize, usize>
    requires rising { IsRising (ranks_at sets.now) order.now }
    requires keys { HaveKeys sets.now keys.now }
    requires key { key ≡ key_of set.now.words }
    ensures { MatchResult result (IsAt (ranks_at sets.now) order.now (rank_of set.now))
        (SplitsAt (ranks_at sets.now) order.now (rank_of set.now)) }
{
    order.binary_search_by(|place: &u16| against(keys, sets, *place, key, set))
}

// Puts a place into the order, at which no set is yet that compares as equal.
fn enter(keys: &[u64], sets: &[PortSet], order: &mut Vec<u16>, place: u16, key: u64, set: &PortSet)
    requires rising { IsRising (ranks_at sets.now) order.old.items }
    requires keys { HaveKeys sets.now keys.now }
    requires key { key ≡ key_of set.now.words }
    requires absent { (k : ℕ) → k < length order.old.items
        → ranks_at sets.now (slice_index order.old.items k) ≢ rank_of set.now }
    requires room { length order.old.items < vec_capacity order.old }
    ensures order { IsEntered (ranks_at sets.now) order.old.items (rank_of set.now) place
        order.new.items }
    ensures room { vec_capacity order.old ≤ vec_capacity order.new }
{
    if let Err(index) = search(keys, sets, order.as_slice(), key, set) {
        order.insert(index, place).unwrap();
    }
}

// Takes the place of a set out of the order.
fn leave(keys: &[u64], sets: &[PortSet], order: &mut Vec<u16>, key: u64, set: &PortSet)
    requires rising { IsRising (ranks_at sets.now) order.old.items }
    requires keys { HaveKeys sets.now keys.now }
    requires key { key ≡ key_of set.now.words }
    requires there { (k : ℕ) × (k < length order.old.items)
        × (ranks_at sets.now (slice_index order.old.items k) ≡ rank_of set.now) }
    ensures order { IsLeft (ranks_at sets.now) order.old.items (rank_of set.now) order.new.items }
    ensures room { vec_capacity order.old ≤ vec_capacity order.new }
{
    if let Ok(index) = search(keys, sets, order.as_slice(), key, set) {
        order.remove(index);
    }
}

// Whether a place holds a set. The key of one without ports is 0, so most are told by their keys.
fn is_held(keys: &[u64], sets: &[PortSet], place: u16) -> bool
    requires keys { HaveKeys sets.now keys.now }
    requires within { place < length sets.now }
    ensures { result ≡ is_held (sets_of sets.now) place }
{
    keys[place as usize] != 0 || has_ports(&sets[place as usize])
}

// The first place from `from` on that holds no set.
fn next_free(keys: &[u64], sets: &[PortSet], from: u16) -> u16
    requires start { from ≤ length sets.now }
    requires short { length sets.now ≤ 12288 }
    requires keys { HaveKeys sets.now keys.now }
    ensures low { from ≤ result }
    ensures high { result ≤ length sets.now }
    ensures passed { (n : ℕ) → from ≤ n → n < result → is_held (sets_of sets.now) n ≡ true }
    ensures free { is_held (sets_of sets.now) result ≡ false }
{
    let mut place = from;
    while (place as usize) < sets.len() && is_held(keys, sets, place) {
        place += 1;
    }
    place
}

// Puts a set at a place, or at the next one past the last.
fn put_set(sets: &mut Vec<PortSet>, place: u16, set: PortSet)
    requires next { place ≤ length sets.old.items }
    requires room { place < vec_capacity sets.old }
    ensures items { sets.new.items ≡ put_at sets.old.items place set }
    ensures room { vec_capacity sets.old ≤ vec_capacity sets.new }
{
    if (place as usize) < sets.len() {
        sets[place as usize] = set;
    } else {
        sets.push(set).unwrap();
    }
}

// Puts a key at a place, or at the next one past the last.
fn put_key(keys: &mut Vec<u64>, place: u16, key: u64)
    requires next { place ≤ length keys.old.items }
    requires room { place < vec_capacity keys.old }
    ensures items { keys.new.items ≡ put_key_at keys.old.items place key }
    ensures room { vec_capacity keys.old ≤ vec_capacity keys.new }
{
    if (place as usize) < keys.len() {
        keys[place as usize] = key;
    } else {
        keys.push(key).unwrap();
    }
}

// Equal items, with the room for so many.
fn copied<T: Copy>(alloc: Global, items: &[T], room: usize) -> Result<Vec<T>, NoMemory>
    ensures items { IfOk result (λ made. made.items ≡ items.now) }
    ensures room { IfOk result (λ made. room ≤ vec_capacity made) }
{
    let mut made = Vec::with_capacity(alloc, room)?;
    made.extend_from_slice(items)?;
    Ok(made)
}

impl Groups {
    /// Groups 4096 to 4095 + `limit`, all free, with the room for every later claim. The limit is
    /// at most 12,288.
    pub fn new(alloc: Global, limit: u16) -> Result<Groups, NoMemory>
        requires { limit ≤ 12288 }
        ensures free { IfOk result (λ made. (g : ℕ) → set_of made g ≡ []) }
        ensures limit { IfOk result (λ made. made.limit ≡ limit) }
    {
        Ok(Groups {
            limit,
            sets: Vec::with_capacity(alloc, limit as usize)?,
            keys: Vec::with_capacity(alloc, limit as usize)?,
            order: Vec::with_capacity(alloc, limit as usize)?,
            free: 0,
        })
    }

    /// Equal groups, with the room for every later claim.
    pub fn copy(&self) -> Result<Groups, NoMemory>
        ensures { IfOk result (λ made. made ≡ self.now) }
    {
        let alloc = *self.sets.allocator();
        let room = self.limit as usize;
        Ok(Groups {
            limit: self.limit,
            sets: copied(alloc, self.sets.as_slice(), room)?,
            keys: copied(alloc, self.keys.as_slice(), room)?,
            order: copied(alloc, self.order.as_slice(), room)?,
            free: self.free,
        })
    }

    /// How many groups there are.
    pub fn limit(&self) -> u16
        ensures { result ≡ self.now.limit }
    {
        self.limit
    }

    /// The set of a group; None exactly where the group is free or there is no such group.
    pub fn set(&self, group: u16) -> Option<&PortSet>
        ensures { MatchOption result (set_of self.now group ≡ []) (λ s.
            (ports_of s.now ≡ set_of self.now group) × (is_used self.now group ≡ true)) }
    {
        if group < FIRST {
            return None;
        }
        let set = self.sets.get((group - FIRST) as usize)?;
        if has_ports(set) { Some(set) } else { None }
    }

    /// The group of a set; None exactly where the set has none.
    pub fn find(&self, set: &PortSet) -> Option<u16>
        ensures value { result ≡ group_of self.now (ports_of set.now) }
        ensures range { IfSome result (λ g. (4096 ≤ g) × (g < 16384)) }
    {
        let key = key_of(set);
        let keys = self.keys.as_slice();
        match search(keys, self.sets.as_slice(), self.order.as_slice(), key, set) {
            Ok(index) => Some(FIRST + self.order[index]),
            Err(_) => None,
        }
    }

    /// The group of a set, as `find` tells it; soon where it is the group that is guessed.
    pub fn find_near(&self, set: &PortSet, guess: u16) -> Option<u16>
        ensures value { result ≡ group_of self.now (ports_of set.now) }
        ensures range { IfSome result (λ g. (4096 ≤ g) × (g < 16384)) }
    {
        if self.is_of(guess, set) {
            return Some(guess);
        }
        self.find(set)
    }

    // Whether a group is known to be that of a set.
    fn is_of(&self, group: u16, set: &PortSet) -> bool
        ensures group { result ≡ true → group_of self.now (ports_of set.now) ≡ Some group }
        ensures range { result ≡ true → (4096 ≤ group) × (group < 16384) }
    {
        if group < FIRST {
            return false;
        }
        let place = (group - FIRST) as usize;
        if place >= self.keys.len() || self.keys[place] == 0 {
            return false;
        }
        are_same(&self.sets[place], set)
    }

    /// Gives a set the lowest free group. The set isn't empty, and has none before. `NoGroup`
    /// exactly where all are in use.
    pub fn claim(&mut self, set: &PortSet) -> Result<u16, NoGroup>
        requires some { is_empty_set (ports_of set.now) ≡ false }
        requires absent { group_of self.old (ports_of set.now) ≡ None }
        ensures lowest { MatchResult result (λ g. lowest_group self.old ≡ Some g)
            (λ _. lowest_group self.old ≡ None) }
        ensures sets { IfOk result (λ g. (e : ℕ) → set_of self.new e
            ≡ (if e == g then ports_of set.now else set_of self.old e)) }
        ensures limit { self.new.limit ≡ self.old.limit }
        ensures err { OnErr result (self.new ≡ self.old) }
    {
        let place = self.free;
        if place >= self.limit {
            return Err(NoGroup);
        }
        let key = key_of(set);
        let keys = self.keys.as_slice();
        enter(keys, self.sets.as_slice(), &mut self.order, place, key, set);
        put_set(&mut self.sets, place, *set);
        put_key(&mut self.keys, place, key);
        self.free = next_free(self.keys.as_slice(), self.sets.as_slice(), place);
        Ok(FIRST + place)
    }

    /// Frees a group that is in use.
    pub fn release(&mut self, group: u16)
        requires { is_used self.old group ≡ true }
        ensures sets { (e : ℕ) → set_of self.new e
            ≡ (if e == group then [] else set_of self.old e) }
        ensures limit { self.new.limit ≡ self.old.limit }
    {
        let place = group - FIRST;
        let set = self.sets[place as usize];
        let key = self.keys[place as usize];
        let keys = self.keys.as_slice();
        leave(keys, self.sets.as_slice(), &mut self.order, key, &set);
        self.sets[place as usize] = PortSet::empty();
        self.keys[place as usize] = 0;
        if place < self.free {
            self.free = place;
        }
    }
}
