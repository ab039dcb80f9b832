//! Words of the R3000 and where they stand in memory: bit fields, sign extension, arithmetic of 32 and 64 bits, bytes,
//! numbers that are read from bytes, and the layout of RAM and ROM as one list of words.
#![tactic(auto)]

pub mod arithmetic;
pub mod bits;
pub mod bytes;
pub mod field;
pub mod laws;
pub mod layout;
pub mod numbers;
pub mod reading;
