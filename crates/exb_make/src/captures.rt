//! The captures of what arrives.
ghost use Rattle.std.specs.Prelude.{◌≡◌, ◌≤◌, ◌+◌, ◌*◌, ◌++◌, All, Ok, map, length, sum_by, IfOk, OnOk};
ghost use Rattle.exb_model.specs.Texts.{capture_text, record_text};
ghost use Rattle.exb_make.specs.GeneratedInputs.{records_at};
ghost use Rattle.exb_make.specs.GeneratedParts.{frame_of, read_of, sent_of, sent_at, IsPlayable};

use crate::frames::TimedFrame;
use exb_capture::{header_text, record_text};
use exb_model::memory::NoMemory;
use exb_model::port::PortId;
use std::alloc::Global;

/// The capture of a port: a classic pcap file.
#[derive(Drop)]
pub struct GeneratedCapture {
    pub port: PortId,
    pub file: Vec<u8>,
}

/// Puts a frame at the end of a capture.
fn add_record(file: &mut Vec<u8>, arriving: &TimedFrame) -> Result<(), NoMemory>
    requires { IsPlayable (frame_of arriving.now) }
    ensures { OnOk result (file.new.items ≡ file.old.items ++ record_text
        (sent_of (frame_of arriving.now))) }
{
    file.extend_from_slice(&record_text(arriving.moment, arriving.bytes.len() as u32))?;
    file.extend_from_slice(arriving.bytes.as_slice())?;
    Ok(())
}

/// The file with what arrives at a port.
fn file_of(alloc: Global, arrived: &[TimedFrame], port: PortId) -> Result<Vec<u8>, NoMemory>
    requires { All IsPlayable (map frame_of arrived.now) }
    ensures file { IfOk result (λ file. file.items
        ≡ capture_text (sent_at (map frame_of arrived.now) port)) }
    ensures small { IfOk result (λ file. length file.items ≤ 24 + 80 * length arrived.now) }
{
    let mut file = Vec::from_slice(alloc, &header_text())?;
    for arriving in arrived {
        if arriving.port == port {
            add_record(&mut file, arriving)?;
        }
    }
    Ok(file)
}

/// The capture of a port. A reader gives of it what arrives there.
fn capture_of(
    alloc: Global,
    arrived: &[TimedFrame],
    port: PortId,
) -> Result<GeneratedCapture, NoMemory>
    requires { All IsPlayable (map frame_of arrived.now) }
    ensures read { IfOk result (λ made. read_of made
        ≡ (port, Ok (records_at (map frame_of arrived.now) port))) }
    ensures small { IfOk result (λ made. length made.file.items ≤ 24 + 80 * length arrived.now) }
{
    exb_capture::laws::written_is_read();
    let file = file_of(alloc, arrived, port)?;
    Ok(GeneratedCapture { port, file })
}

/// The captures of these ports.
pub(crate) fn captures(
    alloc: Global,
    arrived: &[TimedFrame],
    places: &[PortId],
) -> Result<Vec<GeneratedCapture>, NoMemory>
    requires { All IsPlayable (map frame_of arrived.now) }
    ensures read { IfOk result (λ made. map read_of made.items
        ≡ map (λ q. (q, Ok (records_at (map frame_of arrived.now) q))) places.now) }
    ensures small { IfOk result (λ made. sum_by (λ c. length c.file.items) made.items
        ≤ (24 + 80 * length arrived.now) * length places.now) }
{
    let mut captures = Vec::new(alloc);
    for port in places {
        let capture = capture_of(alloc, arrived, *port)?;
        captures.push(capture)?;
    }
    Ok(captures)
}
