//! Reading the bytes of a control message.

ghost use Rattle.std.specs.Prelude.{◌≡◌, ◌+◌, ◌*◌, ◌≤◌, length, drop, IsTrue, OnOk, IfOk};
ghost use Rattle.exb_csp.specs.RequestKinds.{is_length};
ghost use Rattle.exb_csp.specs.Decoding.{u16_at, u64_at, rows_at, ecids_at, request_in, ports_in, response_in, body_in, form_at, serial_at, read_message};
ghost use Rattle.exb_csp.specs.Encoding.{message_bytes, HasSpelling};
ghost use Rattle.exb_csp.specs.declared.message_kind.MessageKind.TheVariants as forms;

use crate::ecids::Ecids;
use crate::fault::CspFault;
use crate::group_rows::{GroupRow, GroupRows};
use crate::message::{Body, Message, Request, RequestKind, Response};
use crate::message_kind::{MessageKind, form_of, is_length};

fn u16_at(bytes: &[u8], at: usize) -> u16
    requires { at + 2 ≤ length bytes.now }
    ensures { result ≡ u16_at bytes.now at }
{
    let mut number = [0; 2];
    number.copy_from_slice(&bytes[at..][..2]);
    u16::from_be_bytes(number)
}

fn u64_at(bytes: &[u8], at: usize) -> u64
    requires { at + 8 ≤ length bytes.now }
    ensures { result ≡ u64_at bytes.now at }
{
    let mut number = [0; 8];
    number.copy_from_slice(&bytes[at..][..8]);
    u64::from_be_bytes(number)
}

fn rows_at(count: usize, bytes: &[u8]) -> GroupRows
    requires few { count ≤ 64 }
    requires long { length bytes.now ≡ 10 * count }
    ensures { result ≡ rows_at count bytes.now }
{
    let mut rows = GroupRows::new();
    let mut rest = bytes;
    'rows: for _ in 0..count {
        rows.push(GroupRow {
            ecid: u16_at(rest, 0),
            mask: u64_at(rest, 2),
        });
        (_, rest) = rest.split_at(10);
    }
    rows
}

fn ecids_at(count: usize, bytes: &[u8]) -> Ecids
    requires few { count ≤ 64 }
    requires long { length bytes.now ≡ 2 * count }
    ensures { result ≡ ecids_at count bytes.now }
{
    let mut ecids = Ecids::new();
    let mut rest = bytes;
    'ecids: for _ in 0..count {
        ecids.push(u16_at(rest, 0));
        (_, rest) = rest.split_at(2);
    }
    ecids
}

// The request of that kind in its body.
fn request_in(kind: RequestKind, body: &[u8]) -> Result<Request, CspFault>
    requires { IsTrue (is_length (forms.Ask kind) (length body.now)) }
    ensures { result ≡ request_in kind body.now }
{
    match kind {
        RequestKind::Open => Ok(Request::Open),
        RequestKind::PortCreate => {
            if body[1] > 1 {
                return Err(CspFault::Range);
            }
            Ok(Request::PortCreate {
                port: body[0],
                cascade: body[1] == 1,
                channel: u16_at(body, 2),
            })
        }
        RequestKind::PortDelete => Ok(Request::PortDelete { port: body[0] }),
        RequestKind::Register => Ok(Request::Register {
            ecid: u16_at(body, 0),
            mask: u64_at(body, 2),
        }),
        RequestKind::Unregister => Ok(Request::Unregister {
            ecid: u16_at(body, 0),
        }),
        RequestKind::RegisterMany => Ok(Request::RegisterMany {
            rows: rows_at(body.len() / 10, body),
        }),
        RequestKind::UnregisterMany => Ok(Request::UnregisterMany {
            ecids: ecids_at(body.len() / 2, body),
        }),
    }
}

// The port count in the answer to a request of that kind.
fn ports_in(to: RequestKind, body: &[u8]) -> Result<u8, CspFault>
    requires { IsTrue (is_length (forms.Answer to) (length body.now)) }
    ensures { result ≡ ports_in to body.now }
{
    match to {
        RequestKind::Open if body[1] == 0 || body[1] > 64 => Err(CspFault::Range),
        RequestKind::Open => Ok(body[1]),
        _ => Ok(0),
    }
}

// The answer to a request of that kind in its body.
fn response_in(to: RequestKind, body: &[u8]) -> Result<Response, CspFault>
    requires { IsTrue (is_length (forms.Answer to) (length body.now)) }
    ensures { result ≡ response_in to body.now }
{
    let code = body[0];
    if code > 3 {
        return Err(CspFault::Range);
    }
    let ports = ports_in(to, body)?;
    Ok(Response { to, code, ports })
}

fn body_in(form: MessageKind, body: &[u8]) -> Result<Body, CspFault>
    requires { IsTrue (is_length form (length body.now)) }
    ensures { result ≡ body_in form body.now }
{
    match form {
        MessageKind::Ask(kind) => Ok(Body::Ask(request_in(kind, body)?)),
        MessageKind::Answer(to) => Ok(Body::Answer(response_in(to, body)?)),
    }
}

// What the header's type names: its length field has to be one of the type's.
#[tactic(auto, unfolding(crate::specs::Decoding::form_at))]
fn form_at(bytes: &[u8]) -> Result<MessageKind, CspFault>
    ensures form { result ≡ form_at bytes.now }
    ensures headed { OnOk result (11 ≤ length bytes.now) }
    ensures sized { IfOk result (λ form. IsTrue (is_length form (u16_at bytes.now 9))) }
{
    if bytes.len() < 11 {
        return Err(CspFault::Cut);
    }
    let Some(form) = form_of(bytes[0]) else {
        return Err(CspFault::UnknownType);
    };
    if !is_length(form, u16_at(bytes, 9)) {
        return Err(CspFault::Length);
    }
    Ok(form)
}

// The serial, where the body is as long as the header says.
#[tactic(auto, unfolding(crate::specs::Decoding::serial_at))]
fn serial_at(bytes: &[u8]) -> Result<u64, CspFault>
    requires { 11 ≤ length bytes.now }
    ensures serial { result ≡ serial_at bytes.now }
    ensures whole { OnOk result (length (drop 11 bytes.now) ≡ u16_at bytes.now 9) }
{
    let length = u16_at(bytes, 9) as usize;
    let body = &bytes[11..];
    if body.len() < length {
        return Err(CspFault::Cut);
    }
    if body.len() > length {
        return Err(CspFault::Length);
    }
    match u64_at(bytes, 1) {
        0 => Err(CspFault::Range),
        serial => Ok(serial),
    }
}

#[tactic(auto, unfolding(crate::specs::Decoding::read_message))]
fn message_in(bytes: &[u8]) -> Result<Message, CspFault>
    ensures { result ≡ read_message bytes.now }
{
    let form = form_at(bytes)?;
    let serial = serial_at(bytes)?;
    let (_, body) = bytes.split_at(11);
    let body = body_in(form, body)?;
    Ok(Message { serial, body })
}

/// The message that the bytes spell, or the first thing that is wrong with them: a header cut
/// short, an unknown type, a length that isn't the type's, a body cut short, bytes after it, and
/// last a serial, kind, code or port count out of its range.
pub fn read(bytes: &[u8]) -> Result<Message, CspFault>
    ensures exact { result ≡ read_message bytes.now }

    // The bytes are the one spelling of the message that is read.
    ensures spelled { IfOk result (λ m. HasSpelling m × (bytes.now ≡ message_bytes m)) }
{
    message_in(bytes)
}
