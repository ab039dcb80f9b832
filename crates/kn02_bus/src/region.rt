//! The physical map.

ghost use Rattle.std.specs.Prelude.{◌≡◌, ◌≤◌};
ghost use Rattle.kn02_bus.specs.Region.{region_of, beyond_ram};

use r3k_word::layout::{PAGE_BYTES, ROM_BYTES, ROM_START};
use std::marker::Model;

/// The physical address of the serial part.
pub const SERIAL_START: u32 = 0x1FE0_0000;

/// Bytes of the serial part.
pub const SERIAL_BYTES: u32 = 0x20;

/// The physical address of the clock.
pub const CLOCK_START: u32 = 0x1FE8_0000;

/// Bytes of the clock.
pub const CLOCK_BYTES: u32 = 0x100;

/// The physical address of the board's control and status register.
pub const CSR_START: u32 = 0x1FF0_0000;

/// Bytes of the board's control and status register.
pub const CSR_BYTES: u32 = 4;

/// The number of a register of the clock, at most 63.
#[derive(Clone, Copy, Debug, PartialEq, Eq)]
pub struct ClockRegister {
    number: u8,
}

impl Model for ClockRegister {
    ghost use Rattle.std.specs.Prelude.{ℕ, ◌≤◌};

    ghost Value = { ℕ };

    ghost view = { λ r. r.number };

    ghost invariant = { λ r. r.number ≤ 63 };

    ghost inverse = { λ n. record { number = n } };
}

impl ClockRegister {
    /// The register's number.
    #[inline]
    pub fn number(self) -> u8
        ensures value { result ≡ self }
        ensures within { result ≤ 63 }
    {
        self.number
    }
}

/// A word of a device.
#[derive(Clone, Copy, Debug, PartialEq, Eq)]
pub enum Device {
    /// The word at this offset of the serial part, a multiple of 4 up to 28.
    Serial(u32),
    /// The word of this register of the clock.
    Clock(ClockRegister),
    /// The board's control and status register.
    Csr,
}

/// What stands at a physical address.
#[derive(Clone, Copy, Debug, PartialEq, Eq)]
pub enum Region {
    Ram,
    Rom,
    Device(Device),
    Unassigned,
}

impl Region {
    /// What stands at a physical address, which need not be that of a word, with `pages` pages of RAM.
    #[inline]
    #[tactic(auto, unfolding(crate::specs::Region::region_of))]
    pub fn of(pa: u32, pages: u32) -> Region
        ensures { result ≡ region_of pages pa }
    {
        if pa / PAGE_BYTES < pages {
            Region::Ram
        } else {
            Region::beyond_ram(pa)
        }
    }

    // What stands at an address after RAM.
    fn beyond_ram(pa: u32) -> Region
        ensures { result ≡ beyond_ram pa }
    {
        match pa {
            ROM_START..ROM_END => Region::Rom,
            SERIAL_START..SERIAL_END => Region::Device(Device::Serial((pa - SERIAL_START) / 4 * 4)),
            CLOCK_START..CLOCK_END => Region::Device(Device::Clock(ClockRegister {
                number: ((pa - CLOCK_START) / 4) as u8,
            })),
            CSR_START..CSR_END => Region::Device(Device::Csr),
            _ => Region::Unassigned,
        }
    }
}

const ROM_END: u32 = ROM_START + ROM_BYTES;

const SERIAL_END: u32 = SERIAL_START + SERIAL_BYTES;

const CLOCK_END: u32 = CLOCK_START + CLOCK_BYTES;

const CSR_END: u32 = CSR_START + CSR_BYTES;
