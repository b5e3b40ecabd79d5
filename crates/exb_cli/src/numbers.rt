//! Numbers in words.
ghost use Rattle.std.specs.Prelude.{◌≡◌, ◌+◌, ◌*◌};
ghost use Rattle.exb_cli.specs.CommandLines.{if_short, number_in};

const MAX_DIGITS: usize = 20;

/// A number with a digit behind it, where that has 64 bits.
fn with_digit(number: u64, digit: u8) -> Option<u64>
    ensures { result ≡ if_short (number * 10 + digit) }
{
    number.checked_mul(10)?.checked_add(u64::from(digit))
}

/// The number that a word of decimal digits alone writes. No sign stands before it.
pub(crate) fn number(word: &[u8]) -> Option<u64>
    ensures { result ≡ number_in word.now }
{
    if word.is_empty() || word.len() > MAX_DIGITS {
        return None;
    }
    let mut number: u64 = 0;
    for digit in word {
        if !digit.is_ascii_digit() {
            return None;
        }
        match with_digit(number, *digit - b'0') {
            Some(longer) => number = longer,
            None => return None,
        }
    }
    Some(number)
}
