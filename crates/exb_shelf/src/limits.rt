//! What the operator lets a run do: where its files may stand, and how much it writes.

use std::env::Env;

/// The most bytes that are written where the operator names no number: 16 GiB.
const MOST_BYTES: u64 = 17_179_869_184;

/// What the operator's environment says. No file says it, so whoever sends a topology can't.
#[derive(Clone, Copy)]
pub(crate) struct Limits {
    /// Whether files may be made outside the folder of the run: `EXBR_ANYWHERE` is 1.
    pub(crate) anywhere: bool,
    /// How many bytes may be written in all: the number in `EXBR_BYTES`.
    pub(crate) bytes: u64,
}

impl Limits {
    /// Reads them. What is no such value counts as if it weren't there, so that a slip lifts
    /// nothing.
    pub(crate) fn of(rt: &HostRuntime) -> Limits {
        Limits {
            anywhere: may_go_anywhere(rt),
            bytes: most_bytes(rt),
        }
    }
}

fn may_go_anywhere(rt: &HostRuntime) -> bool {
    let mut value = [0u8; 8];
    match rt.var("EXBR_ANYWHERE", &mut value) {
        Ok(n) => n == 1 && value[0] == b'1',
        Err(_) => false,
    }
}

fn most_bytes(rt: &HostRuntime) -> u64 {
    let mut value = [0u8; 32];
    let Ok(n) = rt.var("EXBR_BYTES", &mut value) else {
        return MOST_BYTES;
    };
    match std::str::from_utf8(&value[..n]) {
        Ok(text) => match text.parse::<u64>() {
            Ok(bytes) => bytes,
            Err(_) => MOST_BYTES,
        },
        Err(_) => MOST_BYTES,
    }
}
