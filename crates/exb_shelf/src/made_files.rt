//! The files that were made: which each is, and how much was written to it.

use crate::protected_files::Inode;
use std::alloc::AllocError;
use std::fs::Metadata;
use std::time::SystemTime;

/// What is kept of the file behind an id. Of one that is read nothing is.
#[derive(Clone, Copy)]
pub(crate) struct Output {
    node: Option<Inode>,
    born: Option<SystemTime>,
    /// How many bytes were written to it.
    pub(crate) written: u64,
}

impl Output {
    /// What is kept before the file is made.
    pub(crate) fn none() -> Output {
        Output {
            node: None,
            born: None,
            written: 0,
        }
    }

    fn of(file: &Metadata) -> Output {
        Output {
            node: Some(Inode::of(file)),
            born: file.created().ok(),
            written: 0,
        }
    }

    /// Whether a file that was opened by the output's name is the one that was made. A number that
    /// the system gave anew, to a file that came later, is told by the time at which the file was
    /// made, where the system keeps it.
    pub(crate) fn is(&self, file: &Metadata) -> bool {
        let is_as_old = match (self.born, file.created()) {
            (Some(born), Ok(time)) => born == time,
            _ => true,
        };
        self.node == Some(Inode::of(file)) && is_as_old
    }
}

/// Makes room for the next id, of which nothing was made or written.
pub(crate) fn add(outputs: &mut Vec<Output>, next: usize) -> Result<(), AllocError> {
    outputs.truncate(next);
    outputs.push(Output::none())?;
    Ok(())
}

/// Keeps which file was made for the last id.
pub(crate) fn keep(outputs: &mut [Output], file: &Metadata) {
    if let Some(output) = outputs.last_mut() {
        *output = Output::of(file);
    }
}

/// What is kept of an id.
pub(crate) fn at(outputs: &[Output], id: usize) -> Output {
    match outputs.get(id) {
        Some(output) => *output,
        None => Output::none(),
    }
}

/// Counts bytes that were written.
pub(crate) fn count(outputs: &mut [Output], id: u32, n: usize) {
    if let Some(output) = outputs.get_mut(id as usize) {
        output.written = output.written.saturating_add(n as u64);
    }
}
