//! The numbers of the clock's 64 registers, and the bits of A to D (MC146818 data sheet, address
//! map and registers).

/// The seconds of the time. Its bytes are binary or BCD.
pub const SECONDS: u8 = 0;

/// The seconds of the alarm.
pub const SECONDS_ALARM: u8 = 1;

/// The minutes.
pub const MINUTES: u8 = 2;

/// The minutes of the alarm.
pub const MINUTES_ALARM: u8 = 3;

/// The hours.
pub const HOURS: u8 = 4;

/// The hours of the alarm.
pub const HOURS_ALARM: u8 = 5;

/// The day of the week: 1 is Sunday.
pub const WEEKDAY: u8 = 6;

/// The day of the month.
pub const DAY: u8 = 7;

/// The month.
pub const MONTH: u8 = 8;

/// The year of the century.
pub const YEAR: u8 = 9;

/// Register A: UIP, the divider's selection DV in bits 6 to 4, and the rate RS in bits 3 to 0.
pub const REGISTER_A: u8 = 10;

/// Register B: SET, the enables PIE, AIE and UIE, square wave (bit 3, without effect), DM, the hour
/// mode, and DSE.
pub const REGISTER_B: u8 = 11;

/// Register C: IRQF, and the flags PF, AF and UF.
pub const REGISTER_C: u8 = 12;

/// Register D: VRT alone.
pub const REGISTER_D: u8 = 13;

/// The first register of RAM.
pub const RAM: u8 = 14;

/// Bytes of RAM.
pub const RAM_BYTES: usize = 50;

/// In an hour of 12-hour mode: it is one after noon.
pub const PM: u8 = 0x80;

/// An alarm byte from here on is "don't care": its two highest bits are set.
pub const DONT_CARE: u8 = 0xC0;

/// In A: an update is in progress.
pub const UIP: u8 = 0x80;

/// The one DV with which the divider runs here: a time base of 32,768 Hz.
pub const DV_RUNS: u32 = 2;

/// In B: the time is being set, and is not updated.
pub const SET: u8 = 0x80;

/// In B: the periodic interrupt is enabled.
pub const PIE: u8 = 0x40;

/// In B: the alarm interrupt is enabled.
pub const AIE: u8 = 0x20;

/// In B: the update-ended interrupt is enabled.
pub const UIE: u8 = 0x10;

/// In B: the bytes of the time are binary, not BCD.
pub const DM: u8 = 0x04;

/// In B: the hours are 24, not 12.
pub const HOURS_24: u8 = 0x02;

/// In B: daylight saving, which this clock leaves out.
pub const DSE: u8 = 0x01;

/// In C: an interrupt is requested.
pub const IRQF: u8 = 0x80;

/// In C: a period has ended.
pub const PF: u8 = 0x40;

/// In C: the time of the alarm was met.
pub const AF: u8 = 0x20;

/// In C: an update has ended.
pub const UF: u8 = 0x10;

/// In D: RAM and time are valid.
pub const VRT: u8 = 0x80;
