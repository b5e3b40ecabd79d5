//! Which calls are disturbed, and how.
use std::alloc::AllocError;

/// What a call is asked for.
#[derive(Clone, Copy)]
pub enum CallKind {
    Open,
    Read,
    Create,
    Append,
    Finish,
    Print,
}

/// A call that was made: what it was asked for, and how many bytes it moved.
#[derive(Clone, Copy)]
pub struct Call {
    pub asked: CallKind,
    pub moved: usize,
}

/// Which calls are disturbed, by their numbers from 1, and how.
#[derive(Clone, Copy, Debug)]
pub enum Disturbance {
    /// None is.
    Quiet,
    /// One fails.
    Fails { at: usize },
    /// One wants memory that isn't there.
    WantsMemory { at: usize },
    /// One moves at most so many bytes.
    Short { at: usize, bytes: usize },
    /// The same, and the next one fails.
    Stops { at: usize, bytes: usize },
    /// Each moves at most so many bytes.
    Slow { bytes: usize },
}

/// What becomes of a call.
#[derive(Clone, Copy)]
pub(crate) enum CallFate {
    Fails,
    WantsMemory,
    /// It moves at most so many bytes, and one where it could move one.
    Moves { most: usize },
}

impl Disturbance {
    /// What becomes of the call of this number.
    fn turn(self, number: usize) -> CallFate {
        match self {
            Disturbance::Fails { at } if at == number => CallFate::Fails,
            Disturbance::Stops { at, bytes: _ } if at.checked_add(1) == Some(number) =>
                CallFate::Fails,
            Disturbance::WantsMemory { at } if at == number => CallFate::WantsMemory,
            Disturbance::Short { at, bytes } if at == number => CallFate::Moves { most: bytes },
            Disturbance::Stops { at, bytes } if at == number => CallFate::Moves { most: bytes },
            Disturbance::Slow { bytes } => CallFate::Moves { most: bytes },
            _ => CallFate::Moves { most: usize::MAX },
        }
    }
}

/// Puts a call into the list, and says what becomes of it.
pub(crate) fn note(
    calls: &mut Vec<Call>,
    disturbance: Disturbance,
    asked: CallKind,
) -> Result<CallFate, AllocError> {
    calls.push(Call { asked, moved: 0 })?;
    Ok(disturbance.turn(calls.len()))
}

/// Says of the last call how many bytes it moved.
pub(crate) fn tell(calls: &mut [Call], moved: usize) {
    if let Some(call) = calls.last_mut() {
        call.moved = moved;
    }
}
