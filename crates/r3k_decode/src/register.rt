//! The numbers of registers.

ghost use Rattle.std.specs.Prelude.{◌≡◌, ◌<◌};

use std::marker::Model;

/// The number of a register, 0 to 31. It is as wide as a place in a list, so that a step that uses it has not to widen it.
#[derive(Clone, Copy, Debug, PartialEq, Eq)]
pub struct Register {
    number: usize,
}

impl Model for Register {
    ghost use Rattle.std.specs.Prelude.{ℕ, ◌<◌};

    ghost Value = { ℕ };

    ghost view = { λ register. register.number };

    ghost invariant = { λ register. register.number < 32 };

    ghost inverse = { λ number. record { number = number } };
}

impl Register {
    /// The register with a number.
    #[inline]
    pub fn new(number: u8) -> Register
        requires { number < 32 }
        ensures { result ≡ number }
    {
        Register {
            number: number as usize,
        }
    }

    /// Its number.
    #[inline]
    pub fn number(self) -> u8
        ensures value { result ≡ self }
        ensures within { result < 32 }
    {
        self.number as u8
    }

    /// Its place among the 32 registers.
    #[inline]
    pub fn index(self) -> usize
        ensures value { result ≡ self }
        ensures within { result < 32 }
    {
        self.number
    }
}
