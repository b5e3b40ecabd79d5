//! Whose turn it is of what stands in a list.
ghost use Rattle.std.specs.Prelude.{◌≡◌, ◌<◌, ◌*◌, ◌+◌, ◌++◌, ◌∷◌, [], ℕ, List, Option, Some, None, length, set, OnOk, IfSome, IfNone};
ghost use Rattle.std.specs.List.{AllByRecursion};
ghost use Rattle.exb_timeline.specs.Tournaments.{AreTurns, HasLeaves, HasPending, HasTurn, IsFirst, sooner};

use exb_model::memory::NoMemory;
use std::alloc::Global;

/// The moment of a racer that has no turn: later than any.
const NEVER: u64 = u64::MAX;

/// A moment outweighs all racers.
const MOMENT: u128 = 0x1_0000_0000_0000_0000;

/// The turns of what stands in a list: the moment that comes next of each place, if one does.
///
/// They are a tournament of racers, one of each place that was added with a turn: what never has
/// one costs no round. Of its nodes each but a leaf, at n, has two below it, at 2n and 2n + 1, and
/// the root is at 1; each racer has a leaf.
pub struct Tournament {
    /// The moment of each racer, or `NEVER`.
    moments: Vec<u64>,
    /// The leaf of each racer.
    leaves: Vec<usize>,
    /// The racer whose turn is first of those below each node.
    firsts: Vec<usize>,
    /// The place of each racer, ascending.
    places: Vec<usize>,
    /// The racer of each place; of no meaning where the place was added without a turn.
    racers: Vec<usize>,
}

impl Drop for Tournament {
    fn drop(self) {
        let Tournament {
            moments: _,
            leaves: _,
            firsts: _,
            places: _,
            racers: _,
        } = self;
    }
}

/// Which of two racers has its turn first: by moment, and at the same moment the lower one.
#[inline(always)]
fn sooner(moments: &[u64], one: usize, other: usize) -> usize
    requires one { one < length moments.now }
    requires other { other < length moments.now }
    ensures { result ≡ sooner moments.now one other }
{
    let first = moments[one] as u128 * MOMENT + one as u128;
    let second = moments[other] as u128 * MOMENT + other as u128;
    if second < first { other } else { one }
}

/// Finds which racer is first at a node and at those above it.
#[inline(always)]
fn settle(moments: &[u64], firsts: &mut [usize], pending: usize)
    requires pending { HasPending moments.now firsts.old pending }
    ensures settled { HasPending moments.now firsts.new 0 }
    ensures leaves { HasLeaves (length moments.now) firsts.old firsts.new }
{
    let mut node = pending;
    'nodes: while node > 0 {
        firsts[node] = sooner(moments, firsts[2 * node], firsts[2 * node + 1]);
        node /= 2;
    }
}

/// Puts a racer behind those so far, with a leaf and two nodes that aren't its own yet.
fn add_racer(
    racer: usize,
    moment: u64,
    moments: &mut Vec<u64>,
    leaves: &mut Vec<usize>,
    firsts: &mut Vec<usize>,
) -> Result<(), NoMemory>
    ensures moments { OnOk result (moments.new.items ≡ moments.old.items ++ moment ∷ []) }
    ensures leaves { OnOk result (leaves.new.items ≡ leaves.old.items ++ racer ∷ []) }
    ensures firsts { OnOk result (firsts.new.items ≡ (firsts.old.items ++ racer ∷ [])
        ++ racer ∷ []) }
{
    moments.push(moment)?;
    leaves.push(racer)?;
    firsts.push(racer)?;
    Ok(firsts.push(racer)?)
}

impl Tournament {
    /// No place yet.
    pub fn new(alloc: Global) -> Tournament
        ensures { AreTurns [] result }
    {
        Tournament {
            moments: Vec::new(alloc),
            leaves: Vec::new(alloc),
            firsts: Vec::new(alloc),
            places: Vec::new(alloc),
            racers: Vec::new(alloc),
        }
    }

    /// One place more. Its racer, if it has a turn, shares the node of the first leaf.
    pub fn add(&mut self, moment: Option<u64>) -> Result<(), NoMemory>
        requires turns { (moments : List (Option ℕ)) × AreTurns moments self.old }
        requires small { IfSome moment (λ m. m < 18446744073709551615) }
        ensures { OnOk result ((moments : List (Option ℕ)) → AreTurns moments self.old
            → AreTurns (moments ++ moment ∷ []) self.new) }
    {
        let place = self.racers.len();
        let racer = self.moments.len();
        self.racers.push(racer)?;
        let Some(moment) = moment else {
            return Ok(());
        };
        self.places.push(place)?;
        add_racer(
            racer,
            moment,
            &mut self.moments,
            &mut self.leaves,
            &mut self.firsts,
        )?;
        let beside = self.firsts[racer];
        self.firsts[2 * racer] = beside;
        self.leaves[beside] = 2 * racer;
        self.leaves[racer] = 2 * racer + 1;
        settle(self.moments.as_slice(), self.firsts.as_mut_slice(), racer);
        Ok(())
    }

    /// The first turn of all, if there is one: its moment and its place.
    #[inline(always)]
    pub fn first(&self) -> Option<(u64, usize)>
        requires turns { (moments : List (Option ℕ)) × AreTurns moments self.now }
        ensures some { IfSome result (λ t. (moments : List (Option ℕ)) → AreTurns moments self.now
            → IsFirst moments t.0 t.1) }
        ensures none { IfNone result ((moments : List (Option ℕ)) → AreTurns moments self.now
            → AllByRecursion (λ m. m ≡ None) moments) }
    {
        let racer = *self.firsts.get(1)?;
        let moment = self.moments[racer];
        if moment == NEVER {
            return None;
        }
        Some((moment, self.places[racer]))
    }

    /// Gives a place that has a turn its next one, or takes it away.
    #[inline(always)]
    pub fn put(&mut self, place: usize, moment: Option<u64>)
        requires turn { (moments : List (Option ℕ)) × AreTurns moments self.old
            × HasTurn moments place }
        requires small { IfSome moment (λ m. m < 18446744073709551615) }
        ensures { (moments : List (Option ℕ)) → AreTurns moments self.old
            → AreTurns (set moments place moment) self.new }
    {
        let racer = self.racers[place];
        self.moments[racer] = moment.unwrap_or(NEVER);
        settle(
            self.moments.as_slice(),
            self.firsts.as_mut_slice(),
            self.leaves[racer] / 2,
        );
    }
}
