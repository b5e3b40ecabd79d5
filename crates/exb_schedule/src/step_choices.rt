//! What may be drawn next, and the draw.
ghost use Rattle.std.specs.Prelude.{◌≡◌, ◌≤◌, ◌<◌, true, IfSome};
ghost use Rattle.exb_model.specs.Tree.{is_extender};
ghost use Rattle.exb_world.specs.WorldContracts.{tree_of};

use crate::arrival_queues::{ArrivalQueue, next_in};
use crate::remaining_input::RemainingInput;
use exb_world::{Way, World};
use rand_core::utils::NextWord;
use rand_pcg::Lcg64Xsh32;

/// What is drawn: that the seconds pass, that the next command is given, that the next arrival of a
/// queue comes, that the first data word of a direction is taken, that the fate of a control word
/// is asked, or a beat.
#[derive(Clone, Copy)]
pub enum StepChoice {
    Tick,
    Command,
    Arrival { queue: usize },
    Data { link: u8, way: Way },
    Control { link: u8, way: Way, place: u64 },
    Beat,
}

/// What may be drawn, offered one after another in a fixed order: how many there were so far, and
/// the one with the number that is wanted, from 0. So a draw keeps no list: they are gone through
/// once to be counted, and once more for the one that is drawn.
#[derive(Drop)]
struct StepChoices {
    count: u64,
    wanted: u64,
    drawn: StepChoice,
}

impl StepChoices {
    fn new(wanted: u64) -> StepChoices {
        StepChoices {
            count: 0,
            wanted,
            drawn: StepChoice::Beat,
        }
    }

    fn offer(&mut self, choice: StepChoice) {
        if self.count == self.wanted {
            self.drawn = choice;
        }
        self.count = self.count.saturating_add(1);
    }

    /// Offers the next arrival of each queue, in order.
    fn offer_arrivals(&mut self, queues: usize) {
        let queue = self.wanted.wrapping_sub(self.count);
        if queue < queues as u64 {
            self.drawn = StepChoice::Arrival {
                queue: queue as usize,
            };
        }
        self.count = self.count.saturating_add(queues as u64);
    }
}

/// What is left of the segment.
fn offer_given(
    offers: &mut StepChoices,
    rest: &RemainingInput,
    commands: usize,
    queues: &[ArrivalQueue],
) {
    if rest.seconds != 0 {
        offers.offer(StepChoice::Tick);
    }
    if rest.taken < commands {
        offers.offer(StepChoice::Command);
    }
    offers.offer_arrivals(queues.len());
}

/// The words of a direction: the first data word, and each control word that is free.
fn offer_words(offers: &mut StepChoices, world: &World, link: u8, way: Way)
    requires { is_extender (tree_of world.now) link ≡ true }
{
    let counts = world.counts(link, way);
    if counts.frames > 0 {
        offers.offer(StepChoice::Data { link, way });
    }
    for place in 0..counts.control {
        if world.free_at(link, way, place) {
            offers.offer(StepChoice::Control { link, way, place });
        }
    }
}

/// The words of a link, first those upwards.
fn offer_link(offers: &mut StepChoices, world: &World, link: u8) {
    if world.tree().is_extender(link) {
        offer_words(offers, world, link, Way::Up);
        offer_words(offers, world, link, Way::Down);
    }
}

/// The first link, by number from one on, on which a frame is, up or down.
#[inline(always)]
fn next_link(world: &World, from: u8) -> Option<u8>
    requires { from ≤ 65 }
    ensures { IfSome result (λ n. (from ≤ n) × (n < 65)) }
{
    let up = world.next_link(Way::Up, from);
    let down = world.next_link(Way::Down, from);
    match (up, down) {
        (Some(up), Some(down)) => Some(up.min(down)),
        (Some(link), None) | (None, Some(link)) => Some(link),
        (None, None) => None,
    }
}

/// The frames of all links, by number. Links without a frame aren't looked at.
fn offer_links(offers: &mut StepChoices, world: &World) {
    let mut from = 1u8;
    'links: while let Some(link) = next_link(world, from) {
        offer_link(offers, world, link);
        from = link + 1;
    }
}

/// All that may be drawn: what is left of the segment, the words of all links, and last a beat.
fn offer_all(
    offers: &mut StepChoices,
    world: &World,
    rest: &RemainingInput,
    commands: usize,
    queues: &[ArrivalQueue],
) {
    offer_given(offers, rest, commands, queues);
    offer_links(offers, world);
    offers.offer(StepChoice::Beat);
}

/// Draws what comes next.
pub(crate) fn choose(
    world: &World,
    rest: &RemainingInput,
    commands: usize,
    queues: &[ArrivalQueue],
    rng: &mut Lcg64Xsh32,
) -> StepChoice {
    let mut all = StepChoices::new(u64::MAX);
    offer_all(&mut all, world, rest, commands, queues);
    // a beat is always among them
    if all.count == 0 {
        return StepChoice::Beat;
    }
    let mut offers = StepChoices::new(u64::from(rng.next_word()) % all.count);
    offer_all(&mut offers, world, rest, commands, queues);
    offers.drawn
}
