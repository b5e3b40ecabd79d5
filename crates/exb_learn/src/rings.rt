//! Rings of slots: doubly linked lists, each of which closes in its head.
ghost use Rattle.std.specs.Prelude.{◌≡◌, ◌+◌, ◌<◌, ◌≤◌, length, OnOk};
ghost use Rattle.exb_learn.specs.RingLinks.{next_in, prev_in, in_table, put, links_of, room_of, itself, placed, replaced, taken, first_of, IsNow, IsClosed};

use exb_model::memory::NoMemory;
use std::alloc::Global;
use std::marker::Model;

/// The node after a node and the one before it, in its ring.
#[derive(Clone, Copy)]
pub struct RingLink {
    pub next: usize,
    pub prev: usize,
}

/// A fixed number of rings, in which slots stand one behind the other. A node is the head of a
/// ring, or a slot, whose numbers follow those of the heads. A node for which there is no room yet
/// stands alone.
#[derive(Drop)]
pub struct Rings {
    heads: usize,
    links: Vec<RingLink>,
}

impl Model for Rings {
    ghost use Rattle.exb_learn.specs.RingLinks.{RingTable, IsClosed};

    ghost Value = { RingTable };

    ghost view = { λ r. record { heads = r.heads; links = r.links.items } };

    ghost invariant = { λ r. IsClosed r.links.items };
}

impl Rings {
    /// So many rings, each of which is empty.
    pub fn new(alloc: Global, heads: usize) -> Rings
        ensures heads { result.heads ≡ heads }
        ensures links { links_of result ≡ itself }
    {
        Rings {
            heads,
            links: Vec::new(alloc),
        }
    }

    /// Makes room for so many slots.
    pub fn reserve(&mut self, slots: usize) -> Result<(), NoMemory>
        ensures heads { self.new.heads ≡ self.old.heads }
        ensures links { links_of self.new ≡ links_of self.old }
        ensures ok { OnOk result (slots ≤ room_of self.new) }
        ensures room { room_of self.old ≤ room_of self.new }
    {
        grow(&mut self.links, self.heads.saturating_add(slots))
    }

    /// The slot that is first in a ring, if there is one.
    pub fn first(&self, ring: usize) -> Option<usize>
        ensures { result ≡ first_of self.now.heads (links_of self.now) ring }
    {
        let node = link_of(&self.links, ring).next;
        if node == ring {
            None
        } else {
            Some(node.saturating_sub(self.heads))
        }
    }

    /// Puts a slot that stands in no ring behind all others of a ring.
    pub fn put(&mut self, ring: usize, slot: usize)
        requires ring { ring < self.old.heads }
        requires slot { slot < room_of self.old }
        ensures { IsNow self.old self.new (placed (links_of self.old) ring
            (self.old.heads + slot)) }
    {
        place(&mut self.links, ring, self.heads + slot);
    }

    /// Takes a slot out of its ring, and puts it behind all others of a ring.
    pub fn move_to(&mut self, ring: usize, slot: usize)
        requires ring { ring < self.old.heads }
        requires slot { slot < room_of self.old }
        ensures { IsNow self.old self.new
            (placed (taken (links_of self.old) (self.old.heads + slot)) ring
            (self.old.heads + slot)) }
    {
        relocate(&mut self.links, ring, self.heads + slot);
    }

    /// Takes a slot out of its ring.
    pub fn remove(&mut self, slot: usize)
        requires { slot < room_of self.old }
        ensures { IsNow self.old self.new (taken (links_of self.old) (self.old.heads + slot)) }
    {
        take(&mut self.links, self.heads + slot);
    }

    /// Takes a slot out of its ring, and gives another slot its number.
    pub fn replace(&mut self, slot: usize, other: usize)
        requires slot { slot < room_of self.old }
        requires other { other < room_of self.old }
        ensures { IsNow self.old self.new (replaced (links_of self.old) (self.old.heads + slot)
            (self.old.heads + other)) }
    {
        replace(&mut self.links, self.heads + slot, self.heads + other);
    }
}

// The links of a node; where there are none, it stands alone.
fn link_of(links: &[RingLink], node: usize) -> RingLink
    ensures next { result.next ≡ next_in links.now node }
    ensures prev { result.prev ≡ prev_in links.now node }
{
    links.get(node).copied().unwrap_or(RingLink {
        next: node,
        prev: node,
    })
}

// Makes a table as long as this, or leaves it as long as it is. What is new stands alone.
fn grow(links: &mut Vec<RingLink>, nodes: usize) -> Result<(), NoMemory>
    requires closed { IsClosed links.old.items }
    ensures closed { IsClosed links.new.items }
    ensures links { in_table links.new.items ≡ in_table links.old.items }
    ensures ok { OnOk result (nodes ≤ length links.new.items) }
    ensures len { length links.old.items ≤ length links.new.items }
{
    for node in links.len()..nodes {
        links.push(RingLink {
            next: node,
            prev: node,
        })?;
    }
    Ok(())
}

fn set_next(links: &mut [RingLink], node: usize, to: usize)
    requires { node < length links.old }
    ensures links { in_table links.new ≡ record {
      next = put (next_in links.old) node to;
      prev = prev_in links.old;
    } }
    ensures len { length links.new ≡ length links.old }
{
    links[node].next = to;
}

fn set_prev(links: &mut [RingLink], node: usize, to: usize)
    requires { node < length links.old }
    ensures links { in_table links.new ≡ record {
      next = next_in links.old;
      prev = put (prev_in links.old) node to;
    } }
    ensures len { length links.new ≡ length links.old }
{
    links[node].prev = to;
}

// Takes a node out of its ring.
fn take(links: &mut [RingLink], node: usize)
    requires closed { IsClosed links.old }
    requires node { node < length links.old }
    ensures closed { IsClosed links.new }
    ensures links { in_table links.new ≡ taken (in_table links.old) node }
    ensures len { length links.new ≡ length links.old }
{
    let RingLink { next, prev } = links[node];
    set_next(links, prev, next);
    set_prev(links, next, prev);
}

// Puts a node that stands in no ring before another.
fn place(links: &mut [RingLink], behind: usize, node: usize)
    requires closed { IsClosed links.old }
    requires behind { behind < length links.old }
    requires node { node < length links.old }
    ensures closed { IsClosed links.new }
    ensures links { in_table links.new ≡ placed (in_table links.old) behind node }
    ensures len { length links.new ≡ length links.old }
{
    let last = links[behind].prev;
    set_next(links, last, node);
    set_next(links, node, behind);
    set_prev(links, node, last);
    set_prev(links, behind, node);
}

// Takes a node out of its ring, and puts it before another.
fn relocate(links: &mut [RingLink], behind: usize, node: usize)
    requires closed { IsClosed links.old }
    requires behind { behind < length links.old }
    requires node { node < length links.old }
    ensures closed { IsClosed links.new }
    ensures links { in_table links.new ≡ placed (taken (in_table links.old) node) behind node }
    ensures len { length links.new ≡ length links.old }
{
    take(links, node);
    place(links, behind, node);
}

// Takes a node out of its ring, and puts it where another stands, which is taken out.
fn replace(links: &mut [RingLink], node: usize, other: usize)
    requires closed { IsClosed links.old }
    requires node { node < length links.old }
    requires other { other < length links.old }
    ensures closed { IsClosed links.new }
    ensures links { in_table links.new ≡ replaced (in_table links.old) node other }
    ensures len { length links.new ≡ length links.old }
{
    take(links, node);
    let behind = link_of(links, other).next;
    take(links, other);
    place(links, behind, node);
}
