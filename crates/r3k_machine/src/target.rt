//! What a step writes.

ghost use Rattle.std.specs.Prelude.{◌≡◌, ◌≤◌};
ghost use Rattle.r3k_machine.specs.Destination.{destination_of};

use r3k_decode::Register;
use r3k_exec::Effect;
use std::marker::Model;

/// What a step may write: a word of RAM, by its physical address, or a register, by its number: 1 to 31, 32 for HI and 33 for LO.
#[derive(Clone, Copy, Debug, PartialEq, Eq)]
pub enum Target {
    Memory(u32),
    Register(u8),
}

/// The registers that a step wrote, as one number: 0 for none, 1 to 31, 32 for HI, 33 for LO, and 34 for both of these.
#[derive(Clone, Copy, Debug, PartialEq, Eq)]
pub struct Destination {
    number: usize,
}

impl Model for Destination {
    ghost use Rattle.std.specs.Prelude.{ℕ, ◌≤◌};

    ghost Value = { ℕ };

    ghost view = { λ destination. destination.number };

    ghost invariant = { λ destination. destination.number ≤ 34 };

    ghost inverse = { λ number. record { number = number } };
}

impl Destination {
    /// No register.
    #[inline(always)]
    pub(crate) fn none() -> Destination
        ensures { result ≡ 0 }
    {
        Destination { number: 0 }
    }

    /// A register. A write of r0 is none.
    #[inline(always)]
    pub(crate) fn register(register: Register) -> Destination
        ensures { result ≡ register }
    {
        Destination {
            number: register.index(),
        }
    }

    /// What an instruction writes.
    #[inline(always)]
    pub(crate) fn of_effect(effect: Effect) -> Destination
        ensures { result ≡ destination_of effect }
    {
        match effect {
            Effect::Write { register, .. }
            | Effect::JumpAndLink { register, .. }
            | Effect::Load { register, .. }
            | Effect::MoveFromControl { register, .. } => Destination::register(register),
            Effect::WriteHi { .. } => Destination { number: 32 },
            Effect::WriteLo { .. } => Destination { number: 33 },
            Effect::WriteHiLo { .. } => Destination { number: 34 },
            _ => Destination::none(),
        }
    }

    /// Its number.
    #[inline(always)]
    pub fn index(self) -> usize
        ensures value { result ≡ self }
        ensures within { result ≤ 34 }
    {
        self.number
    }
}
