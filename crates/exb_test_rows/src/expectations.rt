//! Verdicts by places: of bytes that are cut there or as long, and of bytes with a bit turned
//! there. A table has them one behind another, with `|` between them.
ghost use Rattle.std.specs.Prelude.{◌≡◌, length};

/// The bits of a byte.
pub const BITS: [u8; 8] = [1, 2, 4, 8, 16, 32, 64, 128];

/// An entry that was read on the way to a verdict has none, or no places.
#[derive(Clone, Copy, Debug)]
pub struct Malformed;

// What stands before the verdict of an entry, and the verdict.
fn entry_of(entry: &str) -> Result<(&str, &str), Malformed> {
    entry.trim().split_once(' ').ok_or(Malformed)
}

// A place as a number.
fn place_of(text: &str) -> Result<usize, Malformed> {
    text.parse::<usize>().ok().ok_or(Malformed)
}

// Whether a table has no entry.
fn is_bare(text: &str) -> bool {
    text.trim().is_empty()
}

/// Of entries `PLACE VERDICT|` the last whose place isn't above this one.
pub fn verdict_at(text: &str, place: usize) -> Result<Option<&str>, Malformed> {
    let mut verdict = None;
    if is_bare(text) {
        return Ok(verdict);
    }
    for entry in text.split('|') {
        let (from, then) = entry_of(entry)?;
        if place_of(from)? <= place {
            verdict = Some(then);
        }
    }
    Ok(verdict)
}

// Whether `FIRST-LAST.BITS` has the place and the bit.
fn has(span: &str, place: usize, bit: u8) -> Result<bool, Malformed> {
    let (places, bits) = span.split_once('.').unwrap_or((span, "FF"));
    let (first, last) = places.split_once('-').unwrap_or((places, places));
    let bits = u8::from_str_radix(bits, 16).ok().ok_or(Malformed)?;
    Ok(place_of(first)? <= place && place <= place_of(last)? && bits & bit != 0)
}

/// Of entries `FIRST-LAST.BITS VERDICT|` the first that has the place and the bit: all bits where
/// none are named.
pub fn verdict_of_bit(text: &str, place: usize, bit: u8) -> Result<Option<&str>, Malformed> {
    if is_bare(text) {
        return Ok(None);
    }
    for entry in text.split('|') {
        let (span, then) = entry_of(entry)?;
        if has(span, place, bit)? {
            return Ok(Some(then));
        }
    }
    Ok(None)
}

/// Turns bits of a byte. Whether there is one at that place.
pub fn turn(bytes: &mut Vec<u8>, place: usize, bits: u8) -> bool
    ensures { length bytes.new.items ≡ length bytes.old.items }
{
    match bytes.get_mut(place) {
        Some(byte) => {
            *byte ^= bits;
            true
        }
        None => false,
    }
}
