//! The words of the file of a net: names of bridges, and ends of wires.
ghost use Rattle.std.specs.Prelude.{◌≡◌, IfOk};
ghost use Rattle.std.specs.List.{list_all};
ghost use Rattle.exb_net_file.specs.EndNames.{is_letter, is_name, end_between, end_of};

use exb_model::memory::NoMemory;
use exb_model::port::PortId;
use exb_model::text::Text;
use exb_toml_keys::text_values::port_of;
use std::alloc::Global;

/// An end of a wire as the file names it, `NAME:PORT`.
#[derive(Drop)]
pub struct EndName {
    /// The name of a bridge, 1 to 32 letters a to z or digits.
    pub bridge: Text,
    pub port: PortId,
}

fn is_letter(byte: u8) -> bool
    ensures { result ≡ is_letter byte }
{
    byte >= b'a' && byte <= b'z' || byte >= b'0' && byte <= b'9'
}

fn are_letters(bytes: &[u8]) -> bool
    ensures { result ≡ list_all is_letter bytes.now }
{
    for byte in bytes {
        if !is_letter(*byte) {
            return false;
        }
    }
    true
}

/// Whether a text may be the name of a bridge: 1 to 32 letters a to z or digits.
#[tactic(auto, unfolding(crate::specs::EndNames::is_name))]
pub(crate) fn is_name(text: &str) -> bool
    ensures { result ≡ is_name text.now }
{
    let bytes = text.as_bytes();
    bytes.len() >= 1 && bytes.len() <= 32 && are_letters(bytes)
}

/// The end that a text names, `NAME:PORT`.
#[tactic(auto, unfolding(crate::specs::EndNames::end_of))]
pub(crate) fn end_of(alloc: Global, text: &str) -> Result<Option<EndName>, NoMemory>
    ensures { IfOk result (λ end. end ≡ end_of text.now) }
{
    match text.split_once(':') {
        None => Ok(None),
        Some((name, port)) => end_between(alloc, name, port),
    }
}

/// The end of a bridge's name and a port's.
fn end_between(alloc: Global, name: &str, port: &str) -> Result<Option<EndName>, NoMemory>
    ensures { IfOk result (λ end. end ≡ end_between (name.now, port.now)) }
{
    if !is_name(name) {
        return Ok(None);
    }
    match port_of(port.as_bytes()) {
        None => Ok(None),
        Some(port) => {
            let bridge = Text::from_str(alloc, name)?;
            Ok(Some(EndName { bridge, port }))
        }
    }
}
