//! Exceptions: what each reports to the control registers, and what taking one does to the processor.

ghost use Rattle.std.specs.Prelude.{◌≡◌};
ghost use Rattle.r3k_machine.specs.Exceptions.{bad_of, code_of, entered, exc_of, exception_of, is_mapped, is_refill, without_row};

use crate::flow::Flow;
use crate::state::Core;
use cop0::{Coprocessor, Exc, ExcCode};
use r3k_exec::Trap;
use r3k_word::field::field;

/// What keeps an instruction from completing.
#[derive(Clone, Copy, Debug, PartialEq, Eq)]
pub enum Exception {
    /// Int: a line that is enabled asks for it.
    Interrupt,
    /// AdEL: a fetch or load from an address that is misaligned or forbidden, which is given.
    AddressErrorLoad(u32),
    /// AdES: a store to such an address.
    AddressErrorStore(u32),
    /// TLBL: a fetch or load from an address without a valid entry. Where kuseg has none at all, one is to be refilled.
    TlbLoad { address: u32, refill: bool },
    /// TLBS: a store to such an address.
    TlbStore { address: u32, refill: bool },
    /// Mod: a store to a page that is not dirty.
    Modification(u32),
    /// IBE: a fetch from neither RAM nor ROM.
    BusErrorFetch,
    /// DBE: a load from an unassigned address.
    BusErrorLoad,
    /// Sys: a system call.
    SystemCall,
    /// Bp: a breakpoint.
    Breakpoint,
    /// RI: a word that is no instruction.
    ReservedInstruction,
    /// CpU: an instruction of a coprocessor that is not usable.
    CoprocessorUnusable(Coprocessor),
    /// Ov: arithmetic overflow.
    Overflow,
}

impl Exception {
    /// The code in Cause.
    pub(crate) fn code(self) -> ExcCode
        ensures { result ≡ code_of self }
    {
        match self {
            Exception::Interrupt => ExcCode::Interrupt,
            Exception::AddressErrorLoad(_) => ExcCode::AddressLoad,
            Exception::AddressErrorStore(_) => ExcCode::AddressStore,
            Exception::TlbLoad { .. } => ExcCode::TlbLoad,
            Exception::TlbStore { .. } => ExcCode::TlbStore,
            Exception::Modification(_) => ExcCode::Modification,
            Exception::BusErrorFetch => ExcCode::BusFetch,
            Exception::BusErrorLoad => ExcCode::BusLoad,
            Exception::SystemCall => ExcCode::SystemCall,
            Exception::Breakpoint => ExcCode::Breakpoint,
            Exception::ReservedInstruction => ExcCode::ReservedInstruction,
            Exception::CoprocessorUnusable(coprocessor) => {
                ExcCode::CoprocessorUnusable(coprocessor)
            }
            Exception::Overflow => ExcCode::Overflow,
        }
    }

    // The address that BadVAddr is loaded with.
    fn bad_address(self) -> Option<u32>
        ensures { result ≡ bad_of self }
    {
        match self {
            Exception::AddressErrorLoad(address)
            | Exception::AddressErrorStore(address)
            | Exception::TlbLoad { address, .. }
            | Exception::TlbStore { address, .. }
            | Exception::Modification(address) => Some(address),
            _ => None,
        }
    }

    // Whether Context and EntryHi are loaded too.
    fn is_mapped(self) -> bool
        ensures { result ≡ is_mapped self }
    {
        matches!(
            self,
            Exception::TlbLoad { .. } | Exception::TlbStore { .. } | Exception::Modification(_)
        )
    }

    // Whether the handler for user misses is called.
    fn is_refill(self) -> bool
        ensures { result ≡ is_refill self }
    {
        match self {
            Exception::TlbLoad { refill, .. } | Exception::TlbStore { refill, .. } => refill,
            _ => false,
        }
    }

    /// The exception that an instruction makes by itself.
    pub(crate) fn of(trap: Trap) -> Exception
        ensures { result ≡ exception_of trap }
    {
        match trap {
            Trap::SystemCall => Exception::SystemCall,
            Trap::Breakpoint => Exception::Breakpoint,
            Trap::Overflow => Exception::Overflow,
        }
    }

    /// The exception of a word without a row: CpU for the opcodes of coprocessors 1 to 3, else RI.
    pub(crate) fn without_row(word: u32) -> Exception
        ensures { result ≡ without_row word }
    {
        if !matches!(field::<31, 26>(word), 17..=19 | 49..=51 | 57..=59) {
            return Exception::ReservedInstruction;
        }
        Exception::CoprocessorUnusable(match field::<27, 26>(word) {
            1 => Coprocessor::Cp1,
            2 => Coprocessor::Cp2,
            _ => Coprocessor::Cp3,
        })
    }
}

impl Core {
    // What an exception of the instruction at the PC reports to the control registers.
    fn exc(&self, exception: Exception) -> Exc
        ensures { result ≡ exc_of self.now exception }
    {
        Exc {
            code: exception.code(),
            pc: self.pc(),
            delay: self.delay(),
            bad: exception.bad_address(),
            mapped: exception.is_mapped(),
            refill: exception.is_refill(),
        }
    }

    /// Takes an exception of the instruction at the PC: it writes nothing, and the handler comes next.
    pub(crate) fn enter(&mut self, exception: Exception)
        ensures { self.new ≡ entered self.old exception }
    {
        let exc = self.exc(exception);
        let vector = self.processor.cop0.enter(exc);
        self.processor.flow.land(&mut self.processor.registers);
        self.processor.flow = Flow::at(vector);
    }
}
