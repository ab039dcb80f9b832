//! What an exception reports to coprocessor 0.

ghost use Rattle.std.specs.Prelude.{◌≡◌, ◌≤◌};
ghost use Rattle.cop0.specs.Codes.{code_of, ce_of, number_of};

/// A coprocessor.
#[derive(Clone, Copy, Debug, PartialEq, Eq)]
pub enum Coprocessor {
    Cp0,
    Cp1,
    Cp2,
    Cp3,
}

impl Coprocessor {
    /// Its number, 0 to 3.
    #[inline]
    pub fn number(self) -> u32
        ensures value { result ≡ number_of self }
        ensures within { result ≤ 3 }
    {
        match self {
            Coprocessor::Cp0 => 0,
            Coprocessor::Cp1 => 1,
            Coprocessor::Cp2 => 2,
            Coprocessor::Cp3 => 3,
        }
    }
}

/// Why an exception is taken, in the order of its code in Cause.
#[derive(Clone, Copy, Debug, PartialEq, Eq)]
pub enum ExcCode {
    /// Int: an interrupt.
    Interrupt,
    /// Mod: a store to a page that is not dirty.
    Modification,
    /// TLBL: no translation for a load or a fetch.
    TlbLoad,
    /// TLBS: no translation for a store.
    TlbStore,
    /// AdEL: a bad address of a load or a fetch.
    AddressLoad,
    /// AdES: a bad address of a store.
    AddressStore,
    /// IBE: a bus error of a fetch.
    BusFetch,
    /// DBE: a bus error of a load.
    BusLoad,
    /// Sys: a system call.
    SystemCall,
    /// Bp: a breakpoint.
    Breakpoint,
    /// RI: a reserved instruction.
    ReservedInstruction,
    /// CpU: this coprocessor is not usable.
    CoprocessorUnusable(Coprocessor),
    /// Ov: arithmetic overflow.
    Overflow,
}

impl ExcCode {
    /// The code in Cause, 0 to 12.
    #[inline]
    pub fn number(self) -> u32
        ensures code { result ≡ code_of self }
        ensures within { result ≤ 12 }
    {
        match self {
            ExcCode::Interrupt => 0,
            ExcCode::Modification => 1,
            ExcCode::TlbLoad => 2,
            ExcCode::TlbStore => 3,
            ExcCode::AddressLoad => 4,
            ExcCode::AddressStore => 5,
            ExcCode::BusFetch => 6,
            ExcCode::BusLoad => 7,
            ExcCode::SystemCall => 8,
            ExcCode::Breakpoint => 9,
            ExcCode::ReservedInstruction => 10,
            ExcCode::CoprocessorUnusable(_) => 11,
            ExcCode::Overflow => 12,
        }
    }

    /// The field CE of Cause, 0 to 3: the number of the coprocessor that is not usable, and 0 for any other code.
    #[inline]
    pub fn coprocessor(self) -> u32
        ensures ce { result ≡ ce_of self }
        ensures within { result ≤ 3 }
    {
        match self {
            ExcCode::CoprocessorUnusable(coprocessor) => coprocessor.number(),
            _ => 0,
        }
    }
}

/// An exception of the instruction at `pc`.
#[derive(Clone, Copy, Debug, PartialEq, Eq)]
pub struct Exc {
    pub code: ExcCode,
    pub pc: u32,
    /// The instruction stands in a delay slot.
    pub delay: bool,
    /// The address that BadVAddr is loaded with.
    pub bad: Option<u32>,
    /// That address was to be translated: Context and EntryHi are loaded with its page too.
    pub mapped: bool,
    /// There was no entry for an address of kuseg: the handler for user misses is called.
    pub refill: bool,
}
