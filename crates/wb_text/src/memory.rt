//! Words of memory, as a reply shows them.

use arrayvec::ArrayVec;

/// Words of memory, one after the other from an address on.
#[derive(Debug, Drop, PartialEq, Eq)]
pub struct Words {
    pub address: u32,
    pub words: ArrayVec<u32, 32>,
}
