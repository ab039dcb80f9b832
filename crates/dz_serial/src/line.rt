//! The lines of the part.

ghost use Rattle.std.specs.Prelude.{◌≡◌, ◌+◌, ◌%◌, ◌<◌, ◌≤◌};

use std::marker::Model;

/// How many lines there are.
pub(crate) const LINES: usize = 4;

/// A line of the part, 0 to 3.
#[derive(Clone, Copy, Debug, Default, PartialEq, Eq)]
pub struct SerialLine {
    number: u8,
}

impl Model for SerialLine {
    ghost use Rattle.std.specs.Prelude.{ℕ, ◌≤◌};

    ghost Value = { ℕ };

    ghost view = { λ line. line.number };

    ghost invariant = { λ line. line.number ≤ 3 };

    ghost inverse = { λ number. record { number = number } };
}

impl SerialLine {
    /// The line with a number.
    #[inline]
    pub fn new(number: u8) -> SerialLine
        requires { number ≤ 3 }
        ensures { result ≡ number }
    {
        SerialLine { number }
    }

    /// Its number.
    #[inline]
    pub fn number(self) -> u8
        ensures value { result ≡ self }
        ensures within { result ≤ 3 }
    {
        self.number
    }

    /// Where a list with an entry for each line has that of this one.
    #[inline]
    pub fn index(self) -> usize
        ensures value { result ≡ self }
        ensures within { result < 4 }
    {
        self.number as usize
    }

    /// The line that is `lines` lines above, cyclic.
    #[inline]
    pub(crate) fn up(self, lines: u8) -> SerialLine
        requires { lines ≤ 3 }
        ensures { result ≡ (self + lines) % 4 }
    {
        SerialLine {
            number: (self.number + lines) % LINES as u8,
        }
    }
}
