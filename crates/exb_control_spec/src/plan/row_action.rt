//! What becomes of rows.

/// What becomes of rows.
#[derive(Clone, Copy)]
pub enum RowAction {
    /// They are laid.
    Lay,
    /// Their numbers are cleared.
    Clear,
}
