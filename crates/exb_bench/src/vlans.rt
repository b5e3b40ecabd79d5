//! Changes of a port where there are many VLANs, each with a set of its own.
ghost use Rattle.std.specs.Prelude.{◌≡◌, ◌<◌, true, IsSome};
ghost use Rattle.exb_control_spec.specs.JobsOfTree.{Fits};
ghost use Rattle.exb_control.specs.ActiveConfigs.{IsPrepared, IsInForce};

use crate::setups::hang;
use exb_control::{ActiveConfig, Stage};
use exb_control_spec::Job;
use exb_model::command::Command;
use exb_model::memory::NoMemory;
use exb_model::port::PortId;
use exb_model::port_set::PortSet;
use exb_model::setup::{Place, Setup};
use exb_model::vlan::{Kind, Vid};
use std::alloc::Global;

/// The place of the port that is in all VLANs.
const IN_ALL: u8 = 12;
/// The place of a port that is in none.
const SPARE: u8 = 13;

/// What a command does with a port.
#[derive(Clone, Copy)]
enum PortChange {
    /// It becomes a tagged member of VLAN 1.
    Join,
    /// It is none any more.
    Leave,
    Rise,
    Fall,
}

// The port of this place of the extender.
fn port(place: u8) -> PortId
    requires { place < 64 }
{
    PortId::at(1, place)
}

// The ports whose bits a VLAN's number has, and the port in all VLANs.
fn members(vid: Vid) -> PortSet {
    let mut ports = PortSet::empty();
    ports.insert(port(IN_ALL));
    for bit in 0..12u8 {
        if vid.number() >> bit & 1 == 1 {
            ports.insert(port(bit));
        }
    }
    ports
}

// Hangs an extender on the bridge, and makes so many VLANs.
fn make(setup: &mut Setup, count: u16) -> Result<(), NoMemory> {
    hang(setup, 1, Place::Bridge { port: 1 })?;
    for number in 1..count.saturating_add(1) {
        if let Some(vid) = Vid::new(number) {
            setup.start.push(Command::Vlan {
                vid,
                tagged: members(vid),
                untagged: PortSet::empty(),
            })?;
        }
    }
    Ok(())
}

fn is_at_rest(stage: &Stage) -> bool
    ensures { result ≡ true → stage.now ≡ Stage.AtRest }
{
    match stage {
        Stage::AtRest => true,
        _ => false,
    }
}

// How many requests a change has before its commit; None where none is prepared.
fn prepared(stage: &Stage) -> Option<u64>
    ensures { IsSome result → IsPrepared stage.now }
{
    match stage {
        Stage::Prepared { job: _, change } => Some(change.prepare.as_slice().len() as u64),
        _ => None,
    }
}

fn is_in_force(stage: &Stage) -> bool
    ensures { result ≡ true → IsInForce stage.now }
{
    match stage {
        Stage::InForce { .. } => true,
        _ => false,
    }
}

// Commits the change that is prepared, if one is, and ends it; how many requests it has before its
// commit.
fn commit(active: &mut ActiveConfig) -> Result<u64, NoMemory> {
    let Some(asks) = prepared(active.stage()) else {
        return Ok(0);
    };
    active.commit()?;
    if is_in_force(active.stage()) {
        active.finish();
    }
    Ok(asks)
}

// Carries out a change; how many requests it has before its commit.
fn play(active: &mut ActiveConfig, job: &Job) -> Result<u64, NoMemory>
    requires { Fits active.old.shape job.now }
{
    if !is_at_rest(active.stage()) || active.start(job)?.is_some() {
        return Ok(0);
    }
    commit(active)
}

// Carries out a command on a port, if it is an external one.
fn order(active: &mut ActiveConfig, port: PortId, doing: PortChange) -> Result<u64, NoMemory> {
    if !active.tree().is_external(port) {
        return Ok(0);
    }
    let vid = Vid::default();
    let kind = Kind::Tagged;
    let command = match doing {
        PortChange::Join => Command::Member { vid, port, kind },
        PortChange::Leave => Command::Unmember { vid, port },
        PortChange::Rise => Command::Up { port },
        PortChange::Fall => Command::Down { port },
    };
    play(active, &Job::Ordered { number: 1, command })
}

// The ports go up.
fn raise(active: &mut ActiveConfig) -> Result<(), NoMemory> {
    for place in 0..SPARE + 1 {
        order(active, port(place), PortChange::Rise)?;
    }
    Ok(())
}

// Two changes after one another so many times; how many requests they have in all, and one more.
fn turns(
    active: &mut ActiveConfig,
    of: PortId,
    first: PortChange,
    second: PortChange,
    times: u32,
) -> Result<u64, NoMemory> {
    let mut asks = 1u64;
    for _time in 0..times {
        asks = asks.wrapping_add(order(active, of, first)?);
        asks = asks.wrapping_add(order(active, of, second)?);
    }
    Ok(asks)
}

// The changes that `member` or `port` names.
fn changes(active: &mut ActiveConfig, what: &str, times: u32) -> Result<u64, NoMemory> {
    raise(active)?;
    if what == "member" {
        turns(
            active,
            port(SPARE),
            PortChange::Join,
            PortChange::Leave,
            times,
        )
    } else {
        turns(
            active,
            port(IN_ALL),
            PortChange::Fall,
            PortChange::Rise,
            times,
        )
    }
}

/// How many requests the changes have that `member` or `port` names, so many times, where there are
/// so many VLANs; and one more.
pub(crate) fn change(
    alloc: Global,
    setup: &mut Setup,
    what: &str,
    count: u16,
    times: u32,
) -> Result<u64, NoMemory> {
    make(setup, count)?;
    if !setup.valid() {
        return Ok(0);
    }
    let mut active = ActiveConfig::new(alloc, setup)?;
    changes(&mut active, what, times)
}
