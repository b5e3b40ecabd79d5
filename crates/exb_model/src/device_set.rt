//! Sets of the numbers of extenders, 1 to 64, by their bits: number n has bit n - 1.
ghost use Rattle.std.specs.Prelude.{◌≡◌, ◌==◌, ℕ, ◌≤◌, ◌↔◌, false, if◌then◌else◌, IfNone, IfSome};
ghost use Rattle.exb_model.specs.DeviceSets.{number_in, IsFirstIn, IsNumber};

/// Whether a number is in a set.
#[inline(always)]
pub fn has(bits: u64, number: u8) -> bool
    requires { IsNumber number }
    ensures { (result ≡ false) ↔ (number_in bits number ≡ 0) }
{
    (bits >> (number - 1)) & 1 == 1
}

/// The set in which one number is or isn't, and all others are as before.
#[inline(always)]
pub fn with_bit(bits: u64, number: u8, wanted: bool) -> u64
    requires { IsNumber number }
    ensures { (n : ℕ) → number_in result n
        ≡ (if n == number then (if wanted then 1 else 0) else number_in bits n) }
{
    if wanted {
        bits | (1 << (number - 1))
    } else {
        bits & !(1 << (number - 1))
    }
}

/// The first number of a set that isn't below `from`.
#[inline(always)]
pub fn first_in(bits: u64, from: u8) -> Option<u8>
    requires { from ≤ 65 }
    ensures found { IfSome result (IsFirstIn bits from) }
    ensures none { IfNone result ((n : ℕ) → from ≤ n → number_in bits n ≡ 0) }
{
    let first = from.saturating_sub(1);
    if first > 63 {
        return None;
    }
    let rest = bits >> first;
    if rest == 0 {
        return None;
    }
    Some(first + rest.trailing_zeros() as u8 + 1)
}

/// Whether two sets have a number in common.
#[inline(always)]
pub fn meet(bits: u64, others: u64) -> bool
    ensures { (result ≡ false) ↔ ((n : ℕ) → number_in others n ≡ 1 → number_in bits n ≡ 0) }
{
    bits & others != 0
}
