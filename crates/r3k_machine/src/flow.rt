//! Where a processor stands in its instructions.

ghost use Rattle.std.specs.Prelude.{◌≡◌, ◌↔◌, ◌<◌, ℕ, false, IsFalse, IsTrue, None, Option};
ghost use Rattle.r3k_word.specs.Word.{sum_of};
ghost use Rattle.r3k_machine.specs.Core.{HoldsZero};
ghost use Rattle.r3k_machine.specs.Flow.{IsStraight, at, moved, targeted};
ghost use Rattle.r3k_machine.specs.LoadSlot.{DelayedLoad, slot_after_load};
ghost use Rattle.r3k_machine.specs.State.{landed, with_register};

use r3k_decode::Register;
use r3k_word::arithmetic::add;
use std::marker::Model;

/// A load whose value has not landed yet: its register, 1 to 31, and the value.
#[derive(Clone, Copy, Debug, PartialEq, Eq)]
pub struct DelayedLoad {
    register: u32,
    value: u32,
}

impl Model for DelayedLoad {
    ghost use Rattle.std.specs.Prelude.{◌<◌};
    ghost use Rattle.r3k_machine.specs.LoadSlot.{DelayedLoad};

    ghost Value = { DelayedLoad };

    ghost view = { λ a. record { register = a.register; value = a.value } };

    ghost invariant = { λ a. (0 < a.register) × (a.register < 32) };

    ghost inverse = { λ p. record { register = p.register; value = p.value } };
}

impl DelayedLoad {
    /// A load into a register that is not r0.
    #[inline]
    pub fn new(register: Register, value: u32) -> DelayedLoad
        requires { 0 < register }
        ensures { result ≡ record { register = register; value = value } }
    {
        DelayedLoad {
            register: u32::from(register.number()),
            value,
        }
    }

    /// The register that the value is for, 1 to 31.
    #[inline]
    pub fn register(&self) -> u8
        ensures value { result ≡ self.now.register }
        ensures above { 0 < result }
        ensures within { result < 32 }
    {
        self.register as u8
    }

    /// The value.
    #[inline]
    pub fn value(&self) -> u32
        ensures { result ≡ self.now.value }
    {
        self.value
    }
}

/// Writes a register. r0 stays 0, without a test.
#[inline(always)]
#[tactic(auto, using(crate::proofs::Zero::zeroed))]
pub(crate) fn write_register(registers: &mut [u32; 32], register: Register, value: u32)
    requires zero { HoldsZero registers.old }
    ensures written { registers.new ≡ with_register registers.old register value }
    ensures zero { HoldsZero registers.new }
{
    registers[register.index()] = value;
    registers[0] = 0;
}

/// Where a processor stands: PC, next PC, the delay mark and the load slot, which is empty where its register is r0. It is small, so
/// that a loop of steps can keep it in variables of its own.
#[derive(Clone, Copy, Debug)]
pub struct Flow {
    pc: u32,
    next_pc: u32,
    delay: bool,
    slot: Register,
    value: u32,
}

impl Flow {
    /// At an address. No load is pending.
    #[inline]
    pub(crate) fn at(address: u32) -> Flow
        ensures { result ≡ at address }
    {
        Flow {
            pc: address,
            next_pc: add(address, 4),
            delay: false,
            slot: Register::new(0),
            value: 0,
        }
    }

    /// The address of the next instruction.
    #[inline]
    pub fn pc(self) -> u32
        ensures { result ≡ self.pc }
    {
        self.pc
    }

    /// The address of the one after it.
    #[inline]
    pub(crate) fn next_pc(self) -> u32
        ensures { result ≡ self.next_pc }
    {
        self.next_pc
    }

    /// Whether the next instruction stands in a delay slot.
    #[inline]
    pub fn delay(self) -> bool
        ensures { result ≡ self.delay }
    {
        self.delay
    }

    /// Whether the next instruction stands in no delay slot, and the one after it follows it.
    #[inline(always)]
    pub fn is_straight(self) -> bool
        ensures { IsTrue result ↔ IsStraight self }
    {
        !self.delay && self.next_pc == add(self.pc, 4)
    }

    /// Where it is straight at this address, that changes nothing. But then the compiler has only the load slot to keep.
    #[inline(always)]
    pub fn pin_straight(&mut self, address: u32)
        requires straight { IsStraight self.old }
        requires here { self.old.pc ≡ address }
        ensures { self.new ≡ self.old }
    {
        self.pc = address;
        self.next_pc = add(address, 4);
        self.delay = false;
    }

    /// Where no load is pending, that changes nothing. But then the compiler has no load slot to keep.
    #[inline(always)]
    pub fn pin_unloaded(&mut self)
        requires { self.old.slot ≡ 0 }
        ensures { self.new ≡ self.old }
    {
        self.slot = Register::new(0);
    }

    /// The load that has not landed yet.
    #[inline]
    pub(crate) fn load(self) -> Option<DelayedLoad>
        ensures { result ≡ slot_after_load self.slot self.value }
    {
        if self.slot.number() == 0 {
            return None;
        }
        Some(DelayedLoad::new(self.slot, self.value))
    }

    /// An instruction completes, but for what it writes: the pending load lands, and the next instruction follows.
    #[inline]
    pub(crate) fn complete(&mut self, registers: &mut [u32; 32])
        requires zero { HoldsZero registers.old }
        ensures flow { self.new ≡ moved self.old }
        ensures registers { registers.new ≡ landed registers.old (slot_after_load self.old.slot self.old.value) }
        ensures zero { HoldsZero registers.new }
    {
        self.land(registers);
        self.pc = self.next_pc;
        self.next_pc = add(self.next_pc, 4);
        self.delay = false;
    }

    /// The pending load lands.
    #[inline(always)]
    pub(crate) fn land(&mut self, registers: &mut [u32; 32])
        requires zero { HoldsZero registers.old }
        ensures flow { self.new ≡ record self.old { slot = 0 } }
        ensures registers { registers.new ≡ landed registers.old (slot_after_load self.old.slot self.old.value) }
        ensures zero { HoldsZero registers.new }
    {
        write_register(registers, self.slot, self.value);
        self.slot = Register::new(0);
    }

    /// Fills the load slot. A load into r0 leaves it empty.
    #[inline]
    pub(crate) fn set_slot(&mut self, register: Register, value: u32)
        ensures { self.new ≡ record self.old { slot = register; value = value } }
    {
        self.slot = register;
        self.value = value;
    }

    /// Marks the next instruction as one in a delay slot, with the target after it.
    #[inline]
    pub(crate) fn branch(&mut self, target: Option<u32>)
        ensures { self.new ≡ targeted self.old target }
    {
        self.delay = true;
        self.next_pc = target.unwrap_or(self.next_pc);
    }
}
