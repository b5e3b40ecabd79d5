//! The rows of a request for many registrations.

ghost use Rattle.std.specs.Prelude.{◌≡◌, ◌<◌, ◌≤◌, [], ◌∷◌, ◌++◌, length};
ghost use Rattle.exb_csp.specs.declared.group_rows.GroupRow.{GroupRow};

use arrayvec::ArrayVec;
use std::marker::Model;

/// The ports of an extender that get the frames of one E-CID.
#[derive(Clone, Copy, Debug, Default)]
pub struct GroupRow {
    /// The E-CID. An extender takes 1 to 4094, which name one port's E-channel, and 0x1000 to
    /// 0x3FFF.
    pub ecid: u16,
    /// Bit k - 1 is port k.
    pub mask: u64,
}

/// At most 64 rows, in order. Contracts see them as a list.
#[derive(Drop)]
pub struct GroupRows {
    rows: ArrayVec<GroupRow, 64>,
}

impl Model for GroupRows {
    ghost use Rattle.std.specs.Prelude.{List, ◌≤◌, length};
    ghost use Rattle.exb_csp.specs.declared.group_rows.GroupRow.{GroupRow};

    ghost Value = { List GroupRow };

    ghost view = { λ r. r.rows.items };

    ghost invariant = { λ r. length r.rows.items ≤ 64 };
}

impl GroupRows {
    /// No row.
    pub fn new() -> GroupRows
        ensures { result ≡ [] }
    {
        GroupRows {
            rows: ArrayVec::new(),
        }
    }

    /// Appends a row.
    pub fn push(&mut self, row: GroupRow)
        requires { length self.old < 64 }
        ensures { self.new ≡ self.old ++ row ∷ [] }
    {
        self.rows.push(row);
    }

    /// The rows, at most 64.
    pub fn as_slice(&self) -> &[GroupRow]
        ensures rows { result.now ≡ self.now }
        ensures few { length self.now ≤ 64 }
    {
        self.rows.as_slice()
    }

    /// The same rows once more.
    pub fn copy(&self) -> GroupRows
        ensures { result ≡ self.now }
    {
        let mut rows = ArrayVec::new();
        let _ = rows.try_extend_from_slice(self.rows.as_slice());
        GroupRows { rows }
    }
}
