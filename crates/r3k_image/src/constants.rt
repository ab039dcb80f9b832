//! The constants of an image.

ghost use Rattle.std.specs.Prelude.{◌≡◌, ◌↔◌, IsTrue, length};
ghost use Rattle.r3k_image.specs.Boot.{IsClockStart};

use std::marker::Model;

/// The byte time of an image that does not give it.
pub(crate) const PLAIN_BYTE_TIME: u16 = 16;

/// The unit of an image that does not give it.
pub(crate) const PLAIN_UNIT: u16 = 1;

/// The first 12 registers of the clock in an image that does not give them: midnight of Sunday, the 1st of January, in binary and
/// 24 hours.
pub(crate) const PLAIN_CLOCK_START: [u8; 12] = [0, 0, 0, 0, 0, 0, 1, 1, 1, 0, 0x20, 0x06];

/// A byte time or a unit: 1 to 65,535.
#[derive(Clone, Copy, Debug, PartialEq, Eq)]
pub struct Constant {
    number: u16,
}

impl Model for Constant {
    ghost use Rattle.std.specs.Prelude.{ℕ};
    ghost use Rattle.r3k_image.specs.Boot.{IsConstant};

    ghost Value = { ℕ };

    ghost view = { λ constant. constant.number };

    ghost invariant = { λ constant. IsConstant constant.number };

    ghost inverse = { λ number. record { number = number } };
}

impl Constant {
    ghost use Rattle.std.specs.Prelude.{◌≡◌};
    ghost use Rattle.std.specs.Option.{SomeIff};
    ghost use Rattle.r3k_image.specs.Boot.{IsConstant, plain_byte_time, plain_unit};

    /// The constant of a number, if it may be one.
    pub fn new(number: u64) -> Option<Constant>
        ensures { SomeIff result (IsConstant number) number }
    {
        if number == 0 || number > 0xFFFF {
            return None;
        }
        Some(Constant {
            number: number as u16,
        })
    }

    /// The byte time of an image that does not give it.
    pub fn plain_byte_time() -> Constant
        ensures { result ≡ plain_byte_time }
    {
        Constant {
            number: PLAIN_BYTE_TIME,
        }
    }

    /// The unit of an image that does not give it.
    pub fn plain_unit() -> Constant
        ensures { result ≡ plain_unit }
    {
        Constant { number: PLAIN_UNIT }
    }

    /// The number.
    pub fn get(self) -> u16
        ensures value { result ≡ self }
        ensures constant { IsConstant result }
    {
        self.number
    }
}

/// What the clock's first 12 registers start with: bit 7 of register A and bit 0 of register B are 0.
#[derive(Clone, Copy, Debug, PartialEq, Eq)]
pub struct ClockStart {
    registers: [u8; 12],
}

impl Model for ClockStart {
    ghost use Rattle.std.specs.Prelude.{List, ℕ};
    ghost use Rattle.r3k_image.specs.Boot.{IsClockStart};

    ghost Value = { List ℕ };

    ghost view = { λ start. start.registers };

    ghost invariant = { λ start. IsClockStart start.registers };

    ghost inverse = { λ registers. record { registers = registers } };
}

// Whether 12 registers of the clock may start so.
fn may_start(registers: &[u8]) -> bool
    requires { length registers.now ≡ 12 }
    ensures { IsTrue result ↔ IsClockStart registers.now }
{
    registers[10] < 0x80 && registers[11] % 2 == 0
}

impl ClockStart {
    ghost use Rattle.std.specs.Prelude.{◌≡◌};
    ghost use Rattle.std.specs.Option.{SomeIff};
    ghost use Rattle.r3k_image.specs.Boot.{IsClockStart, plain_clock_start};

    /// What the registers start with, if they may.
    pub fn new(registers: &[u8; 12]) -> Option<ClockStart>
        ensures { SomeIff result (IsClockStart registers.now) registers.now }
    {
        if !may_start(registers) {
            return None;
        }
        Some(ClockStart {
            registers: *registers,
        })
    }

    /// What the clock starts with in an image that does not give it.
    pub fn plain() -> ClockStart
        ensures { result ≡ plain_clock_start }
    {
        ClockStart {
            registers: PLAIN_CLOCK_START,
        }
    }

    /// The registers.
    pub fn get(self) -> [u8; 12]
        ensures value { result ≡ self }
        ensures start { IsClockStart result }
    {
        self.registers
    }
}
