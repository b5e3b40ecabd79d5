//! What a plan has and decides: rows of sets, sets and groups below a bridge port, and what is
//! asked.

pub mod change;
pub mod group_at;
pub mod row;
pub mod row_action;
pub mod set_at;

pub use change::{Change, Decision, Number};
pub use group_at::GroupAt;
pub use row::Row;
pub use row_action::RowAction;
pub use set_at::SetAt;
