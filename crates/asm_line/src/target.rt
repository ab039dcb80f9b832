//! Targets of branches and jumps.

use crate::name::Name;

/// How an instruction gives its target.
#[derive(Clone, Copy, Debug, PartialEq, Eq)]
pub enum Reach {
    /// By its distance, in the field `imm`.
    Branch,
    /// By its low bits, in the field `index`.
    Jump,
}

/// Where a target is.
#[derive(Debug, Drop)]
pub enum Place<'a> {
    /// At an address.
    Address(u32),
    /// At a label.
    Label(Name<'a>),
}

/// The target of an instruction.
#[derive(Debug, Drop)]
pub struct Target<'a> {
    pub reach: Reach,
    pub place: Place<'a>,
}
