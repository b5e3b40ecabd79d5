//! The two ends of a session: the bridge's, which asks, and an extender's, which answers.

mod answerer;
mod asker;

pub use answerer::{Answerer, Due};
pub use asker::{Asker, Taken};
