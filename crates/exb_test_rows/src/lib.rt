//! What tables of bytes are written in: the bytes as hexadecimal digits, and what is wanted of them
//! by the places and bits that are cut or turned. A table that can't be read is told to whoever
//! reads it. It serves tests alone, and stands on `std` alone.
#![tactic(auto)]

pub mod expectations;
pub mod hex;
