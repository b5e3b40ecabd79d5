//! Numbers in rising order, each once.
ghost use Rattle.std.specs.Prelude.{◌≡◌, ℕ, ◌==◌, ◌||◌, OnOk, OnErr};
ghost use Rattle.exb_plan.specs.RisingNumbers.{is_among, IsRising};

use exb_model::memory::NoMemory;

/// Puts a number among rising ones, unless it is there.
pub fn put_rising(numbers: &mut Vec<u16>, number: u16) -> Result<(), NoMemory>
    requires { IsRising numbers.old.items }
    ensures rising { IsRising numbers.new.items }
    ensures members { OnOk result ((g : ℕ) → is_among numbers.new.items g
        ≡ (number == g || is_among numbers.old.items g)) }
    ensures err { OnErr result (numbers.new.items ≡ numbers.old.items) }
{
    match numbers.as_slice().binary_search(&number) {
        Ok(_) => Ok(()),
        Err(index) => {
            numbers.insert(index, number)?;
            Ok(())
        }
    }
}
