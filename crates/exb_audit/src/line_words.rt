//! The words of a line: where it is cut, its numbers, and the names of ports.
ghost use Rattle.std.specs.Prelude.{◌≡◌, ◌∷◌, ◌==◌, ◌≤◌, ◌<◌, ◌+◌, ◌*◌, ◌^◌, [], true, IfSome, IfNone};
ghost use Rattle.std.specs.Option.{option_map_or};
ghost use Rattle.std.specs.List.{slice_split};
ghost use Rattle.std.specs.Char.{digit_value, is_ascii_digit};
ghost use Rattle.std.specs.Str.{all_ascii_digits};
ghost use Rattle.std.specs.Str.Parse.{digits_value};
ghost use Rattle.exb_trace_spec.specs.TextFields.{extended_in, is_number, port_in, small_in, words_in};
ghost use Rattle.exb_audit.specs.LineWords.{TellsNumber};

/// What stands before the first such byte, and what stands behind it if there is one.
pub(crate) fn cut(byte: u8, text: &[u8]) -> (&[u8], Option<&[u8]>)
    ensures { slice_split (λ x. x == byte) text.now ≡ result.0.now ∷ option_map_or (λ rest.
        slice_split (λ x. x == byte) rest.now) result.1 [] }
{
    for (i, c) in text.iter().enumerate() {
        if *c == byte {
            return (&text[..i], Some(&text[i + 1..]));
        }
    }
    (text, None)
}

/// The first word of a line, and what stands behind the space after it.
#[tactic(auto, unfolding(exb_trace_spec::specs::TextFields::words_in))]
pub(crate) fn first_word(line: &[u8]) -> (&[u8], Option<&[u8]>)
    ensures { words_in line.now ≡ result.0.now ∷ option_map_or (λ rest. words_in rest.now) result.1
        [] }
{
    cut(b' ', line)
}

/// Whether all of it are digits.
fn are_digits(text: &[u8]) -> bool
    ensures { result ≡ all_ascii_digits text.now }
{
    for c in text {
        if !c.is_ascii_digit() {
            return false;
        }
    }
    true
}

/// Whether it is a number: decimal digits, with no 0 in front of others.
pub(crate) fn is_number(text: &[u8]) -> bool
    ensures { result ≡ is_number text.now }
{
    let Some(first) = text.first() else {
        return false;
    };
    if !are_digits(text) {
        return false;
    }
    *first > 48 || text.len() == 1
}

/// A value with one digit more behind it, where 64 bits hold it.
fn longer(value: u64, digit: u8) -> Option<u64>
    requires { is_ascii_digit digit ≡ true }
    ensures some { IfSome result (λ n. n ≡ value * 10 + digit_value digit) }
    ensures none { IfNone result (2 ^ 64 ≤ value * 10 + digit_value digit) }
{
    value.checked_mul(10)?.checked_add(u64::from(digit - 48))
}

/// The value of decimal digits, where 64 bits hold it.
fn value_of(digits: &[u8]) -> Option<u64>
    requires { all_ascii_digits digits.now ≡ true }
    ensures some { IfSome result (λ n. n ≡ digits_value 10 digits.now) }
    ensures none { IfNone result (2 ^ 64 ≤ digits_value 10 digits.now) }
{
    let mut value: u64 = 0;
    for c in digits {
        let Some(next) = longer(value, *c) else {
            return None;
        };
        value = next;
    }
    Some(value)
}

/// The value of a number, where 64 bits hold it.
#[tactic(auto, unfolding(exb_trace_spec::specs::TextFields::number_in))]
pub(crate) fn number(text: &[u8]) -> Option<u64>
    ensures { TellsNumber text.now result }
{
    if !is_number(text) {
        return None;
    }
    value_of(text)
}

/// The number of an extender or of a port of a device: 1 to 64.
#[tactic(auto, unfolding(exb_trace_spec::specs::TextFields::small_in))]
pub(crate) fn small(text: &[u8]) -> Option<u8>
    ensures value { result ≡ small_in text.now }
    ensures range { IfSome result (λ n. (1 ≤ n) × (n ≤ 64)) }
{
    match number(text) {
        Some(n) if n >= 1 && n <= 64 => Some(n as u8),
        _ => None,
    }
}

/// A port of an extender by its words, `N.K`.
fn extended(text: &[u8]) -> Option<u16>
    ensures value { result ≡ extended_in (slice_split (λ x. x == 46) text.now) }
    ensures range { IfSome result (λ p. p < 4160) }
{
    let (device, rest) = cut(b'.', text);
    let Some(rest) = rest else {
        return None;
    };
    let (port, more) = cut(b'.', rest);
    if more.is_some() {
        return None;
    }
    let device = small(device)?;
    let port = small(port)?;
    Some(64 * u16::from(device) + (u16::from(port) - 1))
}

/// The number of a port by its name, `bK` or `xN.K`.
#[tactic(auto, unfolding(exb_trace_spec::specs::TextFields::port_in))]
pub(crate) fn port(text: &[u8]) -> Option<u16>
    ensures value { result ≡ port_in text.now }
    ensures range { IfSome result (λ p. p < 4160) }
{
    let (first, rest) = text.split_first()?;
    match *first {
        b'b' => {
            let port = small(rest)?;
            Some(u16::from(port) - 1)
        }
        b'x' => extended(rest),
        _ => None,
    }
}
