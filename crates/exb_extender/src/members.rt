//! The rows by which an extender replicates (IEEE 802.1BR): for each E-CID, the ports that its
//! frames go to. Each call reads or writes one row, and every other row stays.
ghost use Rattle.std.specs.Prelude.{◌≡◌, ◌<◌, ℕ, ◌==◌, if◌then◌else◌, IfOk, length};
ghost use Rattle.exb_extender.specs.MemberSets.{row_of, with_row};

use exb_model::memory::NoMemory;
use std::alloc::Global;
use std::marker::Model;

/// How many E-CIDs there are: they have 14 bits.
const E_CIDS: usize = 16384;

/// The rows of an extender: for each E-CID a word in which bit k - 1 is port k. An E-CID whose row
/// is 0 goes to no port.
#[derive(Drop)]
pub struct MemberSets {
    rows: Vec<u64>,
}

impl Model for MemberSets {
    ghost use Rattle.std.specs.Prelude.{◌≡◌, ℕ, List, length};

    ghost Value = { List ℕ };

    ghost view = { λ s. s.rows.items };

    ghost invariant = { λ s. length s.rows.items ≡ 16384 };
}

/// So many empty rows.
fn empty_rows(alloc: Global, count: usize) -> Result<Vec<u64>, NoMemory>
    ensures many { IfOk result (λ made. length made.items ≡ count) }
    ensures rows { IfOk result (λ made. (e : ℕ) → row_of made.items e ≡ 0) }
{
    Ok(Vec::from_elem(alloc, 0, count)?)
}

impl MemberSets {
    /// No E-CID goes to any port.
    pub fn new(alloc: Global) -> Result<MemberSets, NoMemory>
        ensures { IfOk result (λ made. (e : ℕ) → row_of made e ≡ 0) }
    {
        Ok(MemberSets {
            rows: empty_rows(alloc, E_CIDS)?,
        })
    }

    /// The row of an E-CID.
    pub fn row(&self, ecid: u16) -> u64
        requires { ecid < 16384 }
        ensures { result ≡ row_of self.now ecid }
    {
        self.rows[ecid as usize]
    }

    /// Sets the row of an E-CID. Every other row stays.
    pub fn put(&mut self, ecid: u16, mask: u64)
        requires { ecid < 16384 }
        ensures table { self.new ≡ with_row self.old ecid mask }
        ensures rows { (e : ℕ) → row_of self.new e
            ≡ (if e == ecid then mask else row_of self.old e) }
    {
        self.rows[ecid as usize] = mask;
    }

    /// Takes all ports out of the row of an E-CID. Every other row stays.
    pub fn clear(&mut self, ecid: u16)
        requires { ecid < 16384 }
        ensures table { self.new ≡ with_row self.old ecid 0 }
        ensures rows { (e : ℕ) → row_of self.new e ≡ (if e == ecid then 0 else row_of self.old e) }
    {
        self.rows[ecid as usize] = 0;
    }
}
