//! The types of messages as their numbers.

ghost use Rattle.std.specs.Prelude.{◌≡◌};
ghost use Rattle.exb_csp.specs.RequestKinds.{number_of, kind_numbered, form_of, is_length};

use crate::message::RequestKind;

/// What the type of a message names.
#[derive(Clone, Copy)]
pub(crate) enum MessageKind {
    /// A request of this kind.
    Ask(RequestKind),
    /// The answer to a request of this kind.
    Answer(RequestKind),
}

/// The number of a kind of request, which is the type of its message.
pub(crate) fn number_of(kind: RequestKind) -> u8
    ensures { result ≡ number_of kind }
{
    match kind {
        RequestKind::Open => 1,
        RequestKind::PortCreate => 2,
        RequestKind::PortDelete => 3,
        RequestKind::Register => 4,
        RequestKind::Unregister => 5,
        RequestKind::RegisterMany => 6,
        RequestKind::UnregisterMany => 7,
    }
}

fn kind_numbered(number: u8) -> Option<RequestKind>
    ensures { result ≡ kind_numbered number }
{
    match number {
        1 => Some(RequestKind::Open),
        2 => Some(RequestKind::PortCreate),
        3 => Some(RequestKind::PortDelete),
        4 => Some(RequestKind::Register),
        5 => Some(RequestKind::Unregister),
        6 => Some(RequestKind::RegisterMany),
        7 => Some(RequestKind::UnregisterMany),
        _ => None,
    }
}

/// What a type names, if anything.
pub(crate) fn form_of(number: u8) -> Option<MessageKind>
    ensures { result ≡ form_of number }
{
    if number < 0x80 {
        kind_numbered(number).map(MessageKind::Ask)
    } else {
        kind_numbered(number - 0x80).map(MessageKind::Answer)
    }
}

/// Whether a body of that form may have this length.
pub(crate) fn is_length(form: MessageKind, length: u16) -> bool
    ensures { result ≡ is_length form length }
{
    match form {
        MessageKind::Ask(RequestKind::Open) => length == 0,
        MessageKind::Ask(RequestKind::PortCreate) => length == 4,
        MessageKind::Ask(RequestKind::PortDelete) => length == 1,
        MessageKind::Ask(RequestKind::Register) => length == 10,
        MessageKind::Ask(RequestKind::Unregister) => length == 2,
        MessageKind::Ask(RequestKind::RegisterMany) => 20 <= length
            && length <= 640
            && length % 10 == 0,
        MessageKind::Ask(RequestKind::UnregisterMany) => 4 <= length
            && length <= 128
            && length % 2 == 0,
        MessageKind::Answer(RequestKind::Open) => length == 2,
        MessageKind::Answer(_) => length == 1,
    }
}
