//! What becomes of the control frames on the links: each is delivered, lost, delivered and kept, or
//! kept for later. Upwards a fate promises that it gives only so many verdicts that aren't a plain
//! delivery. It stands on `exb_model`.
#![tactic(auto)]

mod budget;
mod fate;
mod script;

pub use budget::BudgetFate;
pub use fate::{Fate, QuietFate};
pub use script::ScriptFate;
