//! Writing the bytes of a control message.

ghost use Rattle.std.specs.Prelude.{◌≡◌, ◌+◌, ◌*◌, ◌≤◌, ◌++◌, ◌∷◌, [], length};
ghost use Rattle.std.specs.Int.{w16, w64, to_be_bytes};
ghost use Rattle.std.specs.List.{flat_map};
ghost use Rattle.arrayvec.specs.ArrayVec.{array_vec_len};
ghost use Rattle.exb_csp.specs.Encoding.{row_bytes, ecid_bytes, request_bytes, answer_bytes, message_bytes, HasSpelling};

use crate::ecids::Ecids;
use crate::group_rows::GroupRows;
use crate::message::{Body, Message, Request, RequestKind, Response};
use crate::message_kind::number_of;
use exb_model::buffers::ControlBuf;

// Appends bytes for which there is room.
fn append(out: &mut ControlBuf, bytes: &[u8])
    requires { array_vec_len out.old + length bytes.now ≤ 1100 }
    ensures { out.new.items ≡ out.old.items ++ bytes.now }
{
    let _ = out.try_extend_from_slice(bytes);
}

fn append_rows(out: &mut ControlBuf, rows: &GroupRows)
    requires { array_vec_len out.old + 10 * length rows.now ≤ 1100 }
    ensures { out.new.items ≡ out.old.items ++ flat_map row_bytes rows.now }
{
    let rows = rows.as_slice();
    'rows: for row in rows {
        append(out, &row.ecid.to_be_bytes());
        append(out, &row.mask.to_be_bytes());
    }
}

fn append_ecids(out: &mut ControlBuf, ecids: &Ecids)
    requires { array_vec_len out.old + 2 * length ecids.now ≤ 1100 }
    ensures { out.new.items ≡ out.old.items ++ flat_map ecid_bytes ecids.now }
{
    let ecids = ecids.as_slice();
    'ecids: for ecid in ecids {
        append(out, &ecid.to_be_bytes());
    }
}

// The length of a request's body.
#[tactic(auto, unfolding(crate::specs::Encoding::request_bytes), using(crate::proofs::ListLengths::lengths))]
fn request_length(request: &Request) -> u16
    ensures length { result ≡ length (request_bytes request.now) }
    ensures few { result ≤ 640 }
{
    match request {
        Request::Open => 0,
        Request::PortCreate { .. } => 4,
        Request::PortDelete { .. } => 1,
        Request::Register { .. } => 10,
        Request::Unregister { .. } => 2,
        Request::RegisterMany { rows } => 10 * rows.as_slice().len() as u16,
        Request::UnregisterMany { ecids } => 2 * ecids.as_slice().len() as u16,
    }
}

#[tactic(auto, unfolding(crate::specs::Encoding::request_bytes), using(crate::proofs::ListLengths::lengths))]
fn append_request(out: &mut ControlBuf, request: &Request)
    requires { array_vec_len out.old + length (request_bytes request.now) ≤ 1100 }
    ensures { out.new.items ≡ out.old.items ++ request_bytes request.now }
{
    match request {
        Request::Open => {}
        Request::PortCreate {
            port,
            cascade,
            channel,
        } => {
            append(out, &[*port, *cascade as u8]);
            append(out, &channel.to_be_bytes());
        }
        Request::PortDelete { port } => append(out, &[*port]),
        Request::Register { ecid, mask } => {
            append(out, &ecid.to_be_bytes());
            append(out, &mask.to_be_bytes());
        }
        Request::Unregister { ecid } => append(out, &ecid.to_be_bytes()),
        Request::RegisterMany { rows } => append_rows(out, rows),
        Request::UnregisterMany { ecids } => append_ecids(out, ecids),
    }
}

// The length of an answer's body.
fn answer_length(response: &Response) -> u16
    ensures length { result ≡ length (answer_bytes response.now.to response.now.code
        response.now.ports) }
    ensures few { result ≤ 2 }
{
    match response.to {
        RequestKind::Open => 2,
        _ => 1,
    }
}

fn append_answer(out: &mut ControlBuf, response: &Response)
    requires { array_vec_len out.old + 2 ≤ 1100 }
    ensures { out.new.items ≡ out.old.items ++ answer_bytes response.now.to response.now.code
        response.now.ports }
{
    match response.to {
        RequestKind::Open => append(out, &[response.code, response.ports]),
        _ => append(out, &[response.code]),
    }
}

// The type, serial and length that stand before a body.
fn append_header(out: &mut ControlBuf, kind: u8, serial: u64, length: u16)
    requires { out.old.items ≡ [] }
    ensures { out.new.items ≡ kind ∷ (to_be_bytes w64 serial ++ to_be_bytes w16 length) }
{
    append(out, &[kind]);
    append(out, &serial.to_be_bytes());
    append(out, &length.to_be_bytes());
}

/// The one spelling of a message, in place of what was in `out`. The condition holds of every
/// message that is read: a serial above 0, 2 to 64 members in a list of many, a code of at most 3,
/// and a port count of 1 to 64 in the answer to Open and else 0. A message has at most 651 bytes.
#[tactic(auto, unfolding(crate::specs::Encoding::message_bytes), using(crate::proofs::RoundTrip::are_short))]
pub fn write(message: &Message, out: &mut ControlBuf)
    requires { HasSpelling message.now }
    ensures spelled { out.new.items ≡ message_bytes message.now }
    ensures few { length out.new.items ≤ 651 }
{
    out.clear();
    match &message.body {
        Body::Ask(request) => {
            append_header(
                out,
                number_of(request.kind()),
                message.serial,
                request_length(request),
            );
            append_request(out, request);
        }
        Body::Answer(response) => {
            append_header(
                out,
                0x80 + number_of(response.to),
                message.serial,
                answer_length(response),
            );
            append_answer(out, response);
        }
    }
}
