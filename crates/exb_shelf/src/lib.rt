//! Files and text as a program sees them: the traits [`Shelf`] and [`Sink`], through which all
//! input and output goes, with what each call does to the files and to the text. Upwards it
//! promises each answer with its cause, over memory, where the contents are told, and over the
//! system, where they are not; and whole files and texts, read and written in pieces. It stands on
//! `exb_model` and `std`.
#![tactic(auto)]

mod files;
mod limits;
mod made_files;
mod open_files;
mod output_creation;
mod protected_files;
mod scratch;
mod shelf;
mod terminal;
pub mod whole_files;

pub use files::{FileShelf, OutSink};
pub use scratch::ScratchShelf;
pub use shelf::{OpenFault, Shelf, ShelfFault, Sink};
pub use whole_files::{PIECE, ReadFault, print_text, read_file, room, write_text};
