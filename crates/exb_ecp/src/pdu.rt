//! Frames: destination, source and EtherType 8940; 16 bits of version (4), operation (2) and
//! subtype (10); 16 bits of sequence; and the payload.
ghost use Rattle.std.specs.Prelude.{◌≡◌, ◌+◌, ◌≤◌, ◌++◌, drop, length, Ok};
ghost use Rattle.arrayvec.specs.ArrayVec.{array_vec_len};
ghost use Rattle.exb_ecp.specs.Frames.{is_ecp, pdu_in, spelling, carried, CanBeWritten};

use exb_model::address::{CONTROL_ADDRESS, Mac, is_control_frame};
use exb_model::buffers::ControlBuf;
use exb_model::bytes::number_at;

/// The EtherType of ECP.
const ECP_TYPE: u16 = 0x8940;
/// Where the header begins.
const HEADER: usize = 14;
/// Where the payload begins in a frame.
pub const PAYLOAD_AT: usize = 18;

/// What the header of an ECP frame says.
#[derive(Clone, Copy, Debug)]
pub struct Pdu {
    /// Whether it acknowledges a request, or else is one.
    pub acknowledgement: bool,
    /// Which upper layer it is for, below 1,024.
    pub subtype: u16,
    /// Its sequence, or that of the request which it acknowledges.
    pub sequence: u16,
    /// The offset of the payload in the frame: 18. The payload of an acknowledgement is ignored.
    pub payload_at: u32,
}

/// Why a frame has no header of ECP; they are tried in this order.
#[derive(Clone, Copy, Debug)]
pub enum EcpFault {
    /// It has no destination and EtherType, or others than those of ECP.
    NotEcp,
    /// It ends before the payload's place.
    Cut,
    /// The version is not 1.
    Version,
    /// The operation is neither a request's nor an acknowledgement's.
    Operation,
}

/// Whether the frame has the destination and the EtherType of ECP.
fn is_ecp_frame(frame: &[u8]) -> bool
    ensures { result ≡ is_ecp frame.now }
{
    if frame.len() < HEADER {
        return false;
    }
    is_control_frame(frame) && number_at(frame, 12) == ECP_TYPE
}

/// What the header of a frame says, or its first fault.
pub fn read(frame: &[u8]) -> Result<Pdu, EcpFault>
    ensures { result ≡ pdu_in frame.now }
{
    if !is_ecp_frame(frame) {
        return Err(EcpFault::NotEcp);
    }
    if frame.len() < PAYLOAD_AT {
        return Err(EcpFault::Cut);
    }
    let header = number_at(frame, HEADER);
    let sequence = number_at(frame, HEADER + 2);
    if header / 4096 != 1 {
        return Err(EcpFault::Version);
    }
    let operation = header / 1024 % 4;
    if operation > 1 {
        return Err(EcpFault::Operation);
    }
    Ok(Pdu {
        acknowledgement: operation == 1,
        subtype: header % 1024,
        sequence,
        payload_at: PAYLOAD_AT as u32,
    })
}

/// Appends bytes for which there is room.
fn append(out: &mut ControlBuf, bytes: &[u8])
    requires { array_vec_len out.old + length bytes.now ≤ 1100 }
    ensures { out.new.items ≡ out.old.items ++ bytes.now }
{
    let _ = out.try_extend_from_slice(bytes);
}

/// Writes the frame from this source with this header and payload, and nothing else, into `out`. An
/// acknowledgement is written without its payload.
pub fn write(source: Mac, pdu: &Pdu, payload: &[u8], out: &mut ControlBuf)
    requires { CanBeWritten pdu.now payload.now }
    ensures spelled { out.new.items ≡ spelling source pdu.now payload.now }
    ensures read_again { pdu_in out.new.items ≡ Ok pdu.now }
    ensures payload_again { drop 18 out.new.items ≡ carried pdu.now payload.now }
{
    let operation: u16 = if pdu.acknowledgement { 1 } else { 0 };
    let header = 4096 + operation * 1024 + pdu.subtype;
    out.clear();
    append(out, &CONTROL_ADDRESS);
    append(out, &source.0);
    append(out, &ECP_TYPE.to_be_bytes());
    append(out, &header.to_be_bytes());
    append(out, &pdu.sequence.to_be_bytes());
    if !pdu.acknowledgement {
        append(out, payload);
    }
}
