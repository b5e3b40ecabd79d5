//! The words of a file: ports, lists of ports, addresses, and fates.
ghost use Rattle.std.specs.Prelude.{◌≡◌, ◌≤◌, ◌<◌, ◌+◌, IfSome, IfOk, option_map, length};
ghost use Rattle.exb_toml_keys.specs.TextValues.{small, cut, span, is_star, port_of, extended_port, word_of, extended_word, port_number, hex, verdict_of, octet_at, is_joined, address_of, accept_of, kind_of, fate_of};

use exb_model::address::Mac;
use exb_model::list::List;
use exb_model::memory::NoMemory;
use exb_model::port::PortId;
use exb_model::rules::Accept;
use exb_model::setup::Verdict;
use exb_model::vlan::Kind;
use std::alloc::Global;

/// A word of a list of ports.
#[derive(Clone, Copy)]
pub enum PortPattern {
    /// `*`: all external ports.
    All,
    /// `xN.*`: all external ports of extender N, 1 to 64.
    Whole { extender: u8 },
    /// `bA-B` or `xN.A-B`: the ports from first to last, which have one device. A port alone is
    /// both.
    Ports { first: PortId, last: PortId },
}

/// A number from 1 to 64, without leading zeros.
#[tactic(auto, unfolding(crate::specs::TextValues::small))]
fn small(text: &[u8]) -> Option<u8>
    ensures value { result ≡ small text.now }
    ensures range { IfSome result (λ n. (1 ≤ n) × (n ≤ 64)) }
{
    match text {
        [a] if a.is_ascii_digit() && *a > b'0' => Some(*a - b'0'),
        [a, b] if a.is_ascii_digit() && *a > b'0' && b.is_ascii_digit() => {
            let n = 10 * (*a - b'0') + (*b - b'0');
            if n <= 64 { Some(n) } else { None }
        }
        _ => None,
    }
}

/// What stands before and after the first such byte.
fn cut(byte: u8, text: &[u8]) -> Option<(&[u8], &[u8])>
    ensures { option_map (λ p. (p.0.now, p.1.now)) result ≡ cut byte text.now }
{
    for (i, c) in text.iter().enumerate() {
        if *c == byte {
            return Some((&text[..i], &text[i + 1..]));
        }
    }
    None
}

/// K, or A-B with A not above B.
#[tactic(auto, unfolding(crate::specs::TextValues::span))]
fn span(text: &[u8]) -> Option<(u8, u8)>
    ensures value { result ≡ span text.now }
    ensures range { IfSome result (λ s. (1 ≤ s.0) × (s.0 ≤ s.1) × (s.1 ≤ 64)) }
{
    match cut(b'-', text) {
        None => {
            let k = small(text)?;
            Some((k, k))
        }
        Some((from, to)) => {
            let a = small(from)?;
            let b = small(to)?;
            if a <= b { Some((a, b)) } else { None }
        }
    }
}

fn is_star(text: &[u8]) -> bool
    ensures { result ≡ is_star text.now }
{
    match text {
        [c, rest @ ..] => *c == b'*' && rest.is_empty(),
        [] => false,
    }
}

/// Port `port` of a device, 0 for the bridge.
fn port_number(device: u8, port: u8) -> PortId
    requires device { device ≤ 64 }
    requires some { 1 ≤ port }
    requires most { port ≤ 64 }
    ensures { result ≡ port_number device port }
{
    PortId::new(64 * device as u16 + (port as u16 - 1)).unwrap()
}

#[tactic(auto, unfolding(crate::specs::TextValues::extended_port))]
fn extended_port(text: &[u8]) -> Option<PortId>
    ensures { result ≡ extended_port text.now }
{
    let (device, port) = cut(b'.', text)?;
    let device = small(device)?;
    let port = small(port)?;
    Some(port_number(device, port))
}

/// The port of a name, `bK` or `xN.K`.
#[tactic(auto, unfolding(crate::specs::TextValues::port_of))]
pub fn port_of(text: &[u8]) -> Option<PortId>
    ensures { result ≡ port_of text.now }
{
    match text {
        [b'b', rest @ ..] => {
            let port = small(rest)?;
            Some(port_number(0, port))
        }
        [b'x', rest @ ..] => extended_port(rest),
        _ => None,
    }
}

fn ports_word(device: u8, ports: (u8, u8)) -> PortPattern
    requires device { device ≤ 64 }
    requires some { 1 ≤ ports.0 }
    requires order { ports.0 ≤ ports.1 }
    requires most { ports.1 ≤ 64 }
    ensures { result ≡ PortPattern.Ports (port_number device ports.0) (port_number device ports.1) }
{
    PortPattern::Ports {
        first: port_number(device, ports.0),
        last: port_number(device, ports.1),
    }
}

#[tactic(auto, unfolding(crate::specs::TextValues::extended_word))]
fn extended_word(text: &[u8]) -> Option<PortPattern>
    ensures { result ≡ extended_word text.now }
{
    let (device, ports) = cut(b'.', text)?;
    let extender = small(device)?;
    if is_star(ports) {
        return Some(PortPattern::Whole { extender });
    }
    let ports = span(ports)?;
    Some(ports_word(extender, ports))
}

/// A word of a list of ports.
#[tactic(auto, unfolding(crate::specs::TextValues::word_of))]
pub fn word_of(text: &[u8]) -> Option<PortPattern>
    ensures { result ≡ word_of text.now }
{
    match text {
        [b'*'] => Some(PortPattern::All),
        [b'b', rest @ ..] => {
            let ports = span(rest)?;
            Some(ports_word(0, ports))
        }
        [b'x', rest @ ..] => extended_word(rest),
        _ => None,
    }
}

fn hex(digit: u8) -> Option<u8>
    ensures value { result ≡ hex digit }
    ensures range { IfSome result (λ n. n < 16) }
{
    match digit {
        b'0'..=b'9' => Some(digit - b'0'),
        b'a'..=b'f' => Some(digit - b'a' + 10),
        b'A'..=b'F' => Some(digit - b'A' + 10),
        _ => None,
    }
}

/// The pair of hexadecimal digits that begins at a byte.
fn octet(text: &[u8], at: usize) -> Option<u8>
    requires { at + 1 < length text.now }
    ensures value { result ≡ octet_at text.now at }
{
    let high = hex(text[at])?;
    let low = hex(text[at + 1])?;
    Some(16 * high + low)
}

fn is_joined(text: &[u8], separator: u8) -> bool
    requires { length text.now ≡ 17 }
    ensures { result ≡ is_joined separator text.now }
{
    text[2] == separator
        && text[5] == separator
        && text[8] == separator
        && text[11] == separator
        && text[14] == separator
}

/// The address of six pairs of hexadecimal digits, joined by `-` throughout or by `:` throughout.
#[tactic(auto, unfolding(crate::specs::TextValues::address_of))]
pub fn address_of(text: &[u8]) -> Option<Mac>
    ensures { result ≡ address_of text.now }
{
    if text.len() != 17 || !(is_joined(text, b'-') || is_joined(text, b':')) {
        return None;
    }
    Some(Mac([
        octet(text, 0)?,
        octet(text, 3)?,
        octet(text, 6)?,
        octet(text, 9)?,
        octet(text, 12)?,
        octet(text, 15)?,
    ]))
}

/// The frame types of a word, `all`, `tagged` or `untagged`.
pub fn accept_of(text: &str) -> Option<Accept>
    ensures { result ≡ accept_of text.now }
{
    match text {
        "all" => Some(Accept::All),
        "tagged" => Some(Accept::TaggedOnly),
        "untagged" => Some(Accept::UntaggedOnly),
        _ => None,
    }
}

/// The membership of a word, `tagged` or `untagged`.
pub fn kind_of(text: &str) -> Option<Kind>
    ensures { result ≡ kind_of text.now }
{
    match text {
        "tagged" => Some(Kind::Tagged),
        "untagged" => Some(Kind::Untagged),
        _ => None,
    }
}

fn verdict_of(letter: u8) -> Option<Verdict>
    ensures { result ≡ verdict_of letter }
{
    match letter {
        b'P' => Some(Verdict::Pass),
        b'L' => Some(Verdict::Lose),
        b'T' => Some(Verdict::Twice),
        b'D' => Some(Verdict::Later),
        _ => None,
    }
}

/// The verdicts of a text of their letters; None where one is another letter.
pub fn fate_of(alloc: Global, text: &[u8]) -> Result<Option<List<Verdict>>, NoMemory>
    ensures { IfOk result (λ fate. fate ≡ fate_of text.now) }
{
    let mut fate = List::new(alloc);
    for letter in text {
        match verdict_of(*letter) {
            Some(verdict) => fate.push(verdict)?,
            None => return Ok(None),
        }
    }
    Ok(Some(fate))
}
