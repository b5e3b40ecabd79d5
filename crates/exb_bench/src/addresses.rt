//! Addresses in the learned table.
ghost use Rattle.std.specs.Prelude.{◌≡◌, false};
ghost use Rattle.exb_model.specs.Frames.{is_group};

use exb_learn::Learned;
use exb_model::address::Mac;
use exb_model::memory::NoMemory;
use exb_model::port::PortId;
use exb_model::vlan::Vid;
use std::alloc::Global;
use std::time::{Clock, Instant};

/// How an address is made of its number: what that is multiplied by, and the last byte.
#[derive(Clone, Copy)]
struct AddressForm {
    factor: u32,
    last: u8,
}

/// The number stands at the end, but for one byte.
const SPREAD: AddressForm = AddressForm { factor: 1, last: 1 };

/// It stands before two bytes that are 0.
const ALIKE: AddressForm = AddressForm {
    factor: 256,
    last: 0,
};

fn address(form: AddressForm, number: u32) -> Mac
    ensures { is_group result.0 ≡ false }
{
    let [first, second, third, fourth] = number.wrapping_mul(form.factor).to_be_bytes();
    Mac([2, first, second, third, fourth, form.last])
}

// The address with a number is seen at a port.
fn see(
    learned: &mut Learned,
    form: AddressForm,
    number: u32,
    port: PortId,
) -> Result<(), NoMemory> {
    learned.reserve()?;
    learned.see(Vid::default(), address(form, number), port);
    Ok(())
}

// The same at one of 64 ports.
fn see_there(learned: &mut Learned, form: AddressForm, number: u32) -> Result<(), NoMemory> {
    see(learned, form, number, PortId::at(1, (number % 64) as u8))
}

// So many addresses are seen.
fn fill(learned: &mut Learned, form: AddressForm, count: u32) -> Result<(), NoMemory> {
    for number in 0..count {
        see_there(learned, form, number)?;
    }
    Ok(())
}

// The next number by chance.
fn next(chance: u32) -> u32 {
    chance.wrapping_mul(1_664_525).wrapping_add(1_013_904_223)
}

// How many look-ups found a port, and how many entries are held.
fn turns(
    learned: &mut Learned,
    form: AddressForm,
    count: u32,
    times: u32,
) -> Result<u64, NoMemory> {
    fill(learned, form, count)?;
    let count = count.max(1);
    let (mut chance, mut found) = (1u32, 0u64);
    for _time in 0..times {
        chance = next(chance);
        see_there(learned, form, (chance >> 4) % count)?;
        chance = next(chance);
        let known = learned.look(Vid::default(), address(form, (chance >> 4) % count));
        found = found.wrapping_add(u64::from(known.is_some()));
    }
    Ok(found.wrapping_add(learned.held()))
}

// The nanoseconds since a moment; None where the clock can't be read.
fn since(clock: &impl Clock, start: Instant) -> Option<u64> {
    let taken = start.elapsed(clock).ok()?;
    let seconds = taken.as_secs().saturating_mul(1_000_000_000);
    Some(seconds.saturating_add(u64::from(taken.subsec_nanos())))
}

// The nanoseconds in which so many seconds go by, one by one, from the first second on.
fn ticks(clock: &impl Clock, learned: &mut Learned, times: u32) -> Option<u64> {
    if learned.clock() != 0 {
        return None;
    }
    let start = Instant::now(clock).ok()?;
    for time in 0..times {
        learned.tick(1);
    }
    since(clock, start)
}

// The nanoseconds in which a port at which ten addresses are seen first is forgotten.
fn forgotten(clock: &impl Clock, learned: &mut Learned) -> Option<u64> {
    for number in 0..10u32 {
        see(learned, ALIKE, number, PortId::default()).ok()?;
    }
    let start = Instant::now(clock).ok()?;
    learned.forget(PortId::default());
    since(clock, start)
}

fn forgets(clock: &impl Clock, learned: &mut Learned, times: u32) -> Option<u64> {
    let mut sum = 0u64;
    for _time in 0..times {
        sum = sum.saturating_add(forgotten(clock, learned)?);
    }
    Some(sum)
}

// The nanoseconds of each `tick` or of forgetting, where so many addresses are held.
fn timed(
    clock: &impl Clock,
    learned: &mut Learned,
    what: &str,
    count: u32,
    times: u32,
) -> Option<u64> {
    fill(learned, SPREAD, count).ok()?;
    if what == "tick" {
        ticks(clock, learned, times)
    } else {
        forgets(clock, learned, times)
    }
}

/// What `spread` and `alike` count and what `tick` and `forget` take; None where memory runs out or
/// the clock can't be read.
pub(crate) fn measured(
    clock: &impl Clock,
    alloc: Global,
    what: &str,
    count: u32,
    times: u32,
) -> Option<u64> {
    // Nothing dies before its clock ends.
    let mut learned = Learned::new(alloc, 1_000_000_000);
    match what {
        "spread" => turns(&mut learned, SPREAD, count, times).ok(),
        "alike" => turns(&mut learned, ALIKE, count, times).ok(),
        _ => timed(clock, &mut learned, what, count, times),
    }
}
