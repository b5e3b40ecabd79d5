//! Bytes put one behind another in a buffer that grows.
ghost use Rattle.std.specs.Prelude.{◌≡◌, ◌++◌, [], OnOk};

use exb_model::memory::NoMemory;

/// Empties a buffer, and makes room for so many bytes.
#[inline(always)]
pub(crate) fn begin(size: usize, into: &mut Vec<u8>) -> Result<(), NoMemory>
    ensures { into.new.items ≡ [] }
{
    into.clear();
    into.reserve(size)?;
    Ok(())
}

/// Puts bytes behind others.
#[inline(always)]
pub(crate) fn put(bytes: &[u8], into: &mut Vec<u8>) -> Result<(), NoMemory>
    ensures { OnOk result (into.new.items ≡ into.old.items ++ bytes.now) }
{
    into.extend_from_slice(bytes)?;
    Ok(())
}
