//! The registers: reading, writing, and what translation and exceptions do to them.

ghost use Rattle.std.specs.Prelude.{◌≡◌, ◌↔◌, ◌≤◌, IfSome, IsTrue};
ghost use Rattle.cop0.specs.Registers.{reset_registers, register_of, written};
ghost use Rattle.cop0.specs.Exception.{entered, vector_of};
ghost use Rattle.cop0.specs.Status.{in_user_mode, is_isolated, is_swapped, is_usable, page_loaded, is_shut_down};
ghost use Rattle.cop0.specs.Changes.{StaysQuiet, sampled, is_wanted, fallen, fallen_by, returned, with_ts, with_cm, probed, loaded};

use crate::exception::Exc;
use crate::number::*;
use crate::status::{
    BEV, CM, CU0, IEC, INTERRUPTS, ISC, KUC, SWC, TS, caused, popped, pushed, vector,
};
use r3k_word::bits::merge;
use r3k_word::field::{field, with_field};
use std::marker::Model;

/// The control registers. Random is from 8 to 63.
#[derive(Clone, Copy, Debug, PartialEq, Eq)]
pub struct Cop0 {
    pub(crate) index: u32,
    pub(crate) random: u32,
    pub(crate) entry_lo: u32,
    pub(crate) context: u32,
    pub(crate) bad_vaddr: u32,
    pub(crate) entry_hi: u32,
    pub(crate) status: u32,
    pub(crate) cause: u32,
    pub(crate) epc: u32,
}

impl Model for Cop0 {
    ghost use Rattle.std.specs.Prelude.{◌≤◌, ◌<◌};
    ghost use Rattle.cop0.specs.Registers.{Registers};

    ghost Value = { Registers };

    ghost view = { λ c. record {
      index = c.index;
      random = c.random;
      entry_lo = c.entry_lo;
      context = c.context;
      bad_vaddr = c.bad_vaddr;
      entry_hi = c.entry_hi;
      status = c.status;
      cause = c.cause;
      epc = c.epc;
    } };

    ghost invariant = { λ c. (8 ≤ c.random) × (c.random ≤ 63) };

    ghost inverse = { λ r. record {
      index = r.index;
      random = r.random;
      entry_lo = r.entry_lo;
      context = r.context;
      bad_vaddr = r.bad_vaddr;
      entry_hi = r.entry_hi;
      status = r.status;
      cause = r.cause;
      epc = r.epc;
    } };
}

impl Cop0 {
    /// The registers at reset: Status has BEV alone, Random is 63, and all else is 0.
    pub fn new() -> Cop0
        ensures { result ≡ reset_registers }
    {
        Cop0 {
            index: 0,
            random: 63,
            entry_lo: 0,
            context: 0,
            bad_vaddr: 0,
            entry_hi: 0,
            status: BEV,
            cause: 0,
            epc: 0,
        }
    }

    /// Reads a register. One that is not there reads 0.
    #[inline]
    pub fn read(&self, register: u8) -> u32
        ensures { result ≡ register_of self.now register }
    {
        match register {
            INDEX => self.index,
            RANDOM => self.random << 8,
            ENTRY_LO => self.entry_lo,
            CONTEXT => self.context,
            BAD_VADDR => self.bad_vaddr,
            ENTRY_HI => self.entry_hi,
            STATUS => self.status,
            CAUSE => self.cause,
            EPC => self.epc,
            PRID => REVISION,
            _ => 0,
        }
    }

    /// Writes the bits of a register's write mask. The others stay. A register without a mask stays.
    pub fn write(&mut self, register: u8, word: u32)
        ensures { self.new ≡ written self.old register word }
    {
        match register {
            INDEX => self.index = merge(INDEX_MASK, self.index, word),
            ENTRY_LO => self.entry_lo = merge(ENTRY_LO_MASK, self.entry_lo, word),
            CONTEXT => self.context = merge(CONTEXT_MASK, self.context, word),
            ENTRY_HI => self.entry_hi = merge(ENTRY_HI_MASK, self.entry_hi, word),
            STATUS => self.status = merge(STATUS_MASK, self.status, word),
            CAUSE => self.cause = merge(CAUSE_MASK, self.cause, word),
            _ => {}
        }
    }

    /// Whether the processor is in user mode: KUc is 1.
    #[inline]
    pub fn in_user_mode(&self) -> bool
        ensures { result ≡ in_user_mode self.now }
    {
        self.status & KUC != 0
    }

    /// Whether coprocessor 0 is usable: in kernel mode, or with CU0.
    #[inline]
    pub fn is_usable(&self) -> bool
        ensures { result ≡ is_usable self.now }
    {
        !self.in_user_mode() || self.status & CU0 != 0
    }

    /// Whether loads and stores that are cacheable go to the isolated cache: IsC is 1.
    #[inline]
    pub fn is_isolated(&self) -> bool
        ensures { result ≡ is_isolated self.now }
    {
        self.status & ISC != 0
    }

    /// Whether the isolated cache is the second array: SwC is 1.
    #[inline]
    pub fn is_swapped(&self) -> bool
        ensures { result ≡ is_swapped self.now }
    {
        self.status & SWC != 0
    }

    /// Takes an exception, and gives the address of its handler.
    pub fn enter(&mut self, exception: Exc) -> u32
        ensures state { self.new ≡ entered self.old exception }
        ensures vector { result ≡ vector_of self.old.status exception.refill }
    {
        let vector = vector(self.status, exception.refill);
        self.status = pushed(self.status);
        self.cause = caused(self.cause, exception.delay, exception.code);
        self.epc = if exception.delay {
            exception.pc.wrapping_sub(4)
        } else {
            exception.pc
        };
        if let Some(address) = exception.bad {
            self.bad_vaddr = address;
            if exception.mapped {
                self.load_page(address);
            }
        }
        vector
    }

    // Context and EntryHi are loaded with the page of an address.
    fn load_page(&mut self, address: u32)
        ensures { self.new ≡ page_loaded self.old address }
    {
        self.context = with_field::<20, 2>(self.context, field::<30, 12>(address));
        self.entry_hi = with_field::<31, 12>(self.entry_hi, field::<31, 12>(address));
    }

    /// Returns from an exception: the previous mode and enable become the present ones, and the old ones the previous.
    pub fn rfe(&mut self)
        ensures { self.new ≡ returned self.old }
    {
        self.status = popped(self.status);
    }

    /// Samples the interrupt lines of the board and of the clock into Cause.
    #[inline]
    pub fn sample(&mut self, board: bool, clock: bool)
        ensures { self.new ≡ sampled self.old board clock }
    {
        self.cause = with_field::<11, 10>(self.cause, 2 * u32::from(clock) + u32::from(board));
    }

    /// Whether Cause holds these levels of the interrupt lines of the board and of the clock, so that sampling them changes
    /// nothing.
    #[inline]
    pub fn is_sampled(&self, board: bool, clock: bool) -> bool
        ensures { IsTrue result ↔ (sampled self.now board clock ≡ self.now) }
    {
        let lines = 2 * u32::from(clock) + u32::from(board);
        with_field::<11, 10>(self.cause, lines) == self.cause
    }

    /// Whether an interrupt is to be taken: one is pending, its mask bit is set, and interrupts are enabled.
    #[inline]
    pub fn wanted(&self) -> bool
        ensures { result ≡ is_wanted self.now }
    {
        self.status & IEC != 0 && self.cause & self.status & INTERRUPTS != 0
    }

    /// Whether a write of Status leaves the mode and the isolation of the cache as they are, and no interrupt is wanted after it.
    #[inline]
    pub fn stays_quiet(&self, word: u32) -> bool
        ensures { IsTrue result ↔ StaysQuiet self.now (written self.now STATUS word) }
    {
        self.is_quiet_with(merge(STATUS_MASK, self.status, word))
    }

    /// The same of the return from an exception.
    #[inline]
    pub fn returns_quietly(&self) -> bool
        ensures { IsTrue result ↔ StaysQuiet self.now (returned self.now) }
    {
        self.is_quiet_with(popped(self.status))
    }

    // The same of a change to this Status.
    #[inline]
    fn is_quiet_with(&self, status: u32) -> bool
        ensures { IsTrue result ↔ StaysQuiet self.now (record self.now { status = status }) }
    {
        let same_mode = (status & KUC != 0) == (self.status & KUC != 0);
        let same_cache = (status & ISC != 0) == (self.status & ISC != 0);
        let wanted = status & IEC != 0 && self.cause & status & INTERRUPTS != 0;
        same_mode && same_cache && !wanted
    }

    /// Random falls by one, from 8 to 63.
    #[inline]
    pub fn fall(&mut self)
        ensures { self.new ≡ fallen self.old }
    {
        self.random = if self.random == 8 {
            63
        } else {
            self.random - 1
        };
    }

    /// Random falls `falls` times.
    #[tactic(auto, using(crate::proofs::Falls::random_after_is))]
    pub fn fall_by(&mut self, falls: u32)
        ensures { self.new ≡ fallen_by falls self.old }
    {
        self.random = 8 + (self.random - 8 + (56 - falls % 56)) % 56;
    }

    /// Whether TS is set: several entries matched an address since reset.
    pub fn is_shut_down(&self) -> bool
        ensures { result ≡ is_shut_down self.now }
    {
        self.status & TS != 0
    }

    /// Sets TS: several entries matched an address.
    pub fn set_ts(&mut self)
        ensures { self.new ≡ with_ts self.old }
    {
        self.status |= TS;
    }

    /// Sets CM to whether a load of the isolated cache missed.
    pub fn set_cm(&mut self, miss: bool)
        ensures { self.new ≡ with_cm self.old miss }
    {
        self.status = merge(CM, self.status, if miss { CM } else { 0 });
    }

    /// Index after a probe: the entry that was found, at most 63, or P alone.
    pub fn probed(&mut self, found: Option<u32>)
        requires { IfSome found (λ index. index ≤ 63) }
        ensures { self.new ≡ probed self.old found }
    {
        self.index = match found {
            Some(index) => index << 8,
            None => 1 << 31,
        };
    }

    /// Loads EntryHi and EntryLo with the fields of an entry.
    pub fn loaded(&mut self, hi: u32, lo: u32)
        ensures { self.new ≡ loaded self.old hi lo }
    {
        self.entry_hi = hi & ENTRY_HI_MASK;
        self.entry_lo = lo & ENTRY_LO_MASK;
    }

    /// Makes the registers equal to others.
    pub fn assign(&mut self, other: &Cop0)
        ensures { self.new ≡ other.now }
    {
        *self = *other;
    }
}
