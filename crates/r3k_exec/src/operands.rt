//! The values that an instruction reads, and what it does with them.

use crate::access::{LoadKind, StoreKind};
use r3k_decode::Register;

/// The values that an instruction reads: those of its registers, which a pending load has not reached, HI, LO and its own
/// address.
#[derive(Clone, Copy, Debug, PartialEq, Eq)]
pub struct Operands {
    pub rs: u32,
    pub rt: u32,
    pub hi: u32,
    pub lo: u32,
    pub pc: u32,
}

/// The exceptions that an instruction makes by itself.
#[derive(Clone, Copy, Debug, PartialEq, Eq)]
pub enum Trap {
    /// Sys, a system call.
    SystemCall,
    /// Bp, a breakpoint.
    Breakpoint,
    /// Ov, arithmetic overflow.
    Overflow,
}

/// What an instruction does.
#[derive(Clone, Copy, Debug, PartialEq, Eq)]
pub enum Effect {
    /// Writes a value into a register.
    Write {
        register: Register,
        value: u32,
    },
    /// Writes HI.
    WriteHi {
        value: u32,
    },
    /// Writes LO.
    WriteLo {
        value: u32,
    },
    /// Writes HI and LO.
    WriteHiLo {
        hi: u32,
        lo: u32,
    },
    /// Makes the next step one in a delay slot, and goes to the target after it. A branch that is not taken has none.
    Jump {
        target: Option<u32>,
    },
    /// The same, and writes the return address into a register.
    JumpAndLink {
        target: Option<u32>,
        register: Register,
        value: u32,
    },
    /// Takes an exception.
    Trap(Trap),
    /// Loads from an address, for the load slot of a register.
    Load {
        kind: LoadKind,
        register: Register,
        address: u32,
    },
    /// Stores a value, or a part of it, to an address.
    Store {
        kind: StoreKind,
        address: u32,
        value: u32,
    },
    /// Moves a register of coprocessor 0 into the load slot of a register.
    MoveFromControl {
        register: Register,
        control: Register,
    },
    /// Moves a value into a register of coprocessor 0.
    MoveToControl {
        control: Register,
        value: u32,
    },
    /// Reads the translation entry that Index names.
    ReadEntry,
    /// Writes the translation entry that Index names.
    WriteIndexedEntry,
    /// Writes the translation entry that Random names.
    WriteRandomEntry,
    /// Looks for the translation entry of EntryHi.
    ProbeEntry,
    /// Returns from an exception: the old modes and enables become the previous and present ones.
    ReturnFromException,
}
