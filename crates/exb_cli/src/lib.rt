//! The words of the command line. `accept` says what they ask for, exactly as it is defined, or
//! that they are none of the program's; it makes no copy of a word. `OutputKinds` says which kinds
//! of files a run makes that was asked for so, and in which order they stand behind its captures.
//! It stands on `exb_journal`, which names the kinds.
#![tactic(auto)]

mod command_line;
mod invocations;
pub mod laws;
mod numbers;
mod output_kinds;
mod parser;

pub use command_line::accept;
pub use invocations::{Invocation, Options};
pub use output_kinds::OutputKinds;
