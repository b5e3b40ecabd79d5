//! The frames that arrive.
ghost use Rattle.std.specs.Prelude.{◌≡◌, ◌<◌, ◌++◌, ◌∷◌, [], map, IfOk, OnOk};
ghost use Rattle.exb_make.specs.Draws.{Adds, drawn};
ghost use Rattle.exb_make.specs.GeneratedTree.{site_ports};
ghost use Rattle.exb_make.specs.DrawOrder.{station, time_of, destination, body, frame, frames};
ghost use Rattle.exb_make.specs.GeneratedParts.{frame_of};

use crate::commands::port_at;
use crate::draws::draw;
use exb_model::memory::NoMemory;
use exb_model::moment::SECOND;
use exb_model::port::PortId;
use rand_pcg::Lcg64Xsh32;
use std::alloc::Global;

/// How many frames there are.
const FRAMES: u32 = 1000;

/// The second of the first frame.
const FIRST_SECOND: u64 = 1000;

/// From one frame to the next within a second, in nanoseconds.
const STEP: u64 = 1_000_000;

/// A frame, the port at which it arrives, and its time in nanoseconds.
#[derive(Drop)]
pub(crate) struct TimedFrame {
    pub(crate) port: PortId,
    pub(crate) moment: u64,
    pub(crate) bytes: Vec<u8>,
}

/// The address of the station at a port.
fn station(number: u8) -> [u8; 6]
    ensures { result ≡ station number }
{
    [2, 0, 0, 0, 0, number]
}

/// Where a frame goes: to all, or to a station.
#[tactic(auto, unfolding(crate::specs::DrawOrder::destination))]
fn destination(rng: &mut Lcg64Xsh32) -> [u8; 6]
    ensures value { result ≡ (destination rng.old).0 }
    ensures gone_on { rng.new ≡ (destination rng.old).1 }
{
    if draw(rng, 4) == 0 {
        return [0xFF; 6];
    }
    station(draw(rng, 46) as u8)
}

/// What follows the addresses: a tag with one of the VLANs or none, a type, and zeros.
#[tactic(auto, unfolding(crate::specs::DrawOrder::body))]
fn add_body(rng: &mut Lcg64Xsh32, bytes: &mut Vec<u8>) -> Result<(), NoMemory>
    ensures bytes { OnOk result (bytes.new.items ≡ bytes.old.items ++ (body rng.old).0) }
    ensures gone_on { OnOk result (rng.new ≡ (body rng.old).1) }
{
    if draw(rng, 2) != 0 {
        let vid = 1 + draw(rng, 4) as u8;
        bytes.extend_from_slice(&[0x81, 0x00, 0, vid])?;
    }
    bytes.extend_from_slice(&[0x08, 0x00])?;
    bytes.extend_from_slice(&[0; 46])?;
    Ok(())
}

/// The time of a frame: ten come in each second.
fn time_of(number: u32) -> u64
    requires { number < 1000 }
    ensures { result ≡ time_of number }
{
    (FIRST_SECOND + u64::from(number / 10)) * SECOND + u64::from(number % 10) * STEP
}

/// Draws a frame.
#[tactic(auto, unfolding(crate::specs::DrawOrder::frame))]
fn draw_arriving(
    alloc: Global,
    rng: &mut Lcg64Xsh32,
    places: &[PortId],
    number: u32,
) -> Result<TimedFrame, NoMemory>
    requires ports { places.now ≡ site_ports }
    requires number { number < 1000 }
    ensures value { IfOk result (λ made. (frame number rng.old).0 ≡ frame_of made ∷ []) }
    ensures gone_on { OnOk result (rng.new ≡ (frame number rng.old).1) }
{
    let source = draw(rng, 46);
    let mut bytes = Vec::new(alloc);
    bytes.extend_from_slice(&destination(rng))?;
    bytes.extend_from_slice(&station(source as u8))?;
    add_body(rng, &mut bytes)?;
    Ok(TimedFrame {
        port: port_at(places, source),
        moment: time_of(number),
        bytes,
    })
}

/// Draws all frames.
pub(crate) fn add_frames(
    alloc: Global,
    rng: &mut Lcg64Xsh32,
    places: &[PortId],
    arrived: &mut Vec<TimedFrame>,
) -> Result<(), NoMemory>
    requires { places.now ≡ site_ports }
    ensures { OnOk result (Adds frames (map frame_of arrived.old.items)
        (map frame_of arrived.new.items) rng.old rng.new) }
{
    for number in 0..FRAMES {
        let arriving = draw_arriving(alloc, rng, places, number)?;
        arrived.push(arriving)?;
    }
    Ok(())
}
