//! The clock: its registers, what reading and writing them does, and its tick.

ghost use Rattle.std.specs.Prelude.{◌≡◌, ◌≤◌, ◌<◌, ◌%◌, slice_index};
ghost use Rattle.mc146818.specs.Clock.{started, runs, rate, is_updating, requests_interrupt, register_a, register_c, registers, after_read, written, with_a, with_b};
ghost use Rattle.mc146818.specs.Tick.{ticked, with_period, updated, with_update};

use crate::divider::Divider;
use crate::registers::*;
use crate::time::{Alarm, Format, Time};
use r3k_word::field::field;
use std::marker::Model;

/// The clock: time and alarm, registers A and B, the flags of register C, RAM, and the divider.
#[derive(Clone, Copy, Debug)]
pub struct Clock {
    time: Time,
    alarm: Alarm,
    a: u8,
    b: u8,
    pub(crate) flags: u8,
    ram: [u8; RAM_BYTES],
    pub(crate) divider: Divider,
}

impl Model for Clock {
    ghost use Rattle.std.specs.Prelude.{◌≡◌, ◌<◌, ◌%◌, length};
    ghost use Rattle.mc146818.specs.Clock.{ClockState};

    ghost Value = { ClockState };

    ghost view = { λ c. record {
      time = c.time;
      alarm = c.alarm;
      a = c.a;
      b = c.b;
      flags = c.flags;
      ram = c.ram;
      divider = c.divider.count;
      unit = c.divider.unit;
    } };

    ghost invariant = { λ c. (c.a < 128) × (c.b % 2 ≡ 0) × (length c.ram ≡ 50) };

    ghost inverse = { λ s. record {
      time = s.time;
      alarm = s.alarm;
      a = s.a;
      b = s.b;
      flags = s.flags;
      ram = s.ram;
      divider = record { count = s.divider; unit = s.unit };
    } };
}

impl PartialEq for Clock {
    ghost use Rattle.std.specs.Prelude.{◌≡◌, ◌↔◌, IsTrue};
    ghost use Rattle.std.specs.Cmp.{decided, partial_equiv_from_equiv};
    ghost use Rattle.mc146818.specs.Same.{is_same, is_same_decides};

    ghost eq = { is_same };

    ghost laws = { partial_equiv_from_equiv (decided is_same is_same_decides) };

    /// Whether all of both clocks is equal.
    fn eq(&self, other: &Clock) -> bool
        ensures value { result ≡ is_same self.now other.now }
        ensures equal { IsTrue result ↔ (self.now ≡ other.now) }
    {
        self.divider.is_same(&other.divider)
            && self.a == other.a
            && self.b == other.b
            && self.flags == other.flags
            && self.time == other.time
            && self.alarm == other.alarm
            && self.ram == other.ram
    }
}

impl Eq for Clock {
    ghost use Rattle.std.specs.Cmp.{decided};
    ghost use Rattle.mc146818.specs.Same.{is_same, is_same_decides};

    ghost laws = { decided is_same is_same_decides };
}

impl Clock {
    /// The clock with these registers 0 to 11, of which bit 7 of A and bit 0 of B are 0, and a
    /// second of 8192 times `unit` ticks, where `unit` is 1 to 65,535. All else is 0.
    pub fn new(start: [u8; 12], unit: u32) -> Clock
        requires unit_above { 1 ≤ unit }
        requires unit_within { unit ≤ 65535 }
        requires register_a { slice_index start 10 < 128 }
        requires register_b { slice_index start 11 % 2 ≡ 0 }
        ensures { result ≡ started start unit }
    {
        Clock {
            time: Time {
                seconds: start[0],
                minutes: start[2],
                hours: start[4],
                weekday: start[6],
                day: start[7],
                month: start[8],
                year: start[9],
            },
            alarm: Alarm {
                seconds: start[1],
                minutes: start[3],
                hours: start[5],
            },
            a: start[10],
            b: start[11],
            flags: 0,
            ram: [0; RAM_BYTES],
            divider: Divider::new(unit as u16),
        }
    }

    /// Takes over all of another clock.
    pub fn assign(&mut self, other: &Clock)
        ensures { self.new ≡ other.now }
    {
        *self = *other;
    }

    /// Whether the clock requests an interrupt: a flag of register C and its enable in register B
    /// are both 1.
    #[inline]
    pub fn interrupts(&self) -> bool
        ensures { result ≡ requests_interrupt self.now }
    {
        self.flags & self.b & (PF | AF | UF) != 0
    }

    // Whether the divider runs.
    #[inline]
    pub(crate) fn runs(&self) -> bool
        ensures { result ≡ runs self.now }
    {
        field::<6, 4>(u32::from(self.a)) == DV_RUNS
    }

    // Whether an update is in progress.
    fn is_updating(&self) -> bool
        ensures { result ≡ is_updating self.now }
    {
        self.runs() && self.b & SET == 0 && self.divider.is_near_end()
    }

    // What register A reads.
    fn register_a(&self) -> u8
        ensures { result ≡ register_a self.now }
    {
        if self.is_updating() {
            self.a | UIP
        } else {
            self.a
        }
    }

    // What register C reads.
    fn register_c(&self) -> u8
        ensures { result ≡ register_c self.now }
    {
        if self.interrupts() {
            self.flags | IRQF
        } else {
            self.flags
        }
    }

    // What a register reads.
    fn value(&self, register: u8) -> u8
        requires { register ≤ 63 }
        ensures { result ≡ slice_index (registers self.now) register }
    {
        match register {
            SECONDS => self.time.seconds,
            SECONDS_ALARM => self.alarm.seconds,
            MINUTES => self.time.minutes,
            MINUTES_ALARM => self.alarm.minutes,
            HOURS => self.time.hours,
            HOURS_ALARM => self.alarm.hours,
            WEEKDAY => self.time.weekday,
            DAY => self.time.day,
            MONTH => self.time.month,
            YEAR => self.time.year,
            REGISTER_A => self.register_a(),
            REGISTER_B => self.b,
            REGISTER_C => self.register_c(),
            REGISTER_D => VRT,
            _ => self.ram[(register - RAM) as usize],
        }
    }

    /// What the 64 registers read, without the effect of a read.
    pub fn values(&self) -> [u8; 64]
        ensures { result ≡ registers self.now }
    {
        // It is read, so that the number of registers is known here.
        let _ram = &self.ram;
        let mut values = [0; 64];
        for register in 0..64u8 {
            values[register as usize] = self.value(register);
        }
        values
    }

    /// Reads a register, at most 63. Reading C clears its flags.
    pub fn read(&mut self, register: u8) -> u8
        requires { register ≤ 63 }
        ensures value { result ≡ slice_index (registers self.old) register }
        ensures after { self.new ≡ after_read self.old register }
    {
        let value = self.value(register);
        if register == REGISTER_C {
            self.flags = 0;
        }
        value
    }

    // Writes register A. UIP is read only, and a divider that does not run is 0 at once.
    fn write_a(&mut self, byte: u8)
        ensures { self.new ≡ with_a self.old byte }
    {
        self.a = byte & !UIP;
        if !self.runs() {
            self.divider.clear();
        }
    }

    // Writes register B. SET, where it goes from 0 to 1, clears UIE.
    #[tactic(auto, using(crate::proofs::Flags::even, crate::proofs::Flags::still_even))]
    fn write_b(&mut self, byte: u8)
        ensures { self.new ≡ with_b self.old byte }
    {
        let b = byte & !DSE;
        if byte & SET != 0 && self.b & SET == 0 {
            self.b = b & !UIE;
        } else {
            self.b = b;
        }
    }

    /// Writes a register, at most 63. Registers C and D, bit 7 of A and bit 0 of B are read only.
    /// The divider stands at 0 as long as bits 6 to 4 of A are not 2. Where bit 7 of B, SET, goes
    /// from 0 to 1, bit 4, UIE, becomes 0.
    pub fn write(&mut self, register: u8, byte: u8)
        requires { register ≤ 63 }
        ensures { self.new ≡ written self.old register byte }
    {
        match register {
            SECONDS => self.time.seconds = byte,
            SECONDS_ALARM => self.alarm.seconds = byte,
            MINUTES => self.time.minutes = byte,
            MINUTES_ALARM => self.alarm.minutes = byte,
            HOURS => self.time.hours = byte,
            HOURS_ALARM => self.alarm.hours = byte,
            WEEKDAY => self.time.weekday = byte,
            DAY => self.time.day = byte,
            MONTH => self.time.month = byte,
            YEAR => self.time.year = byte,
            REGISTER_A => self.write_a(byte),
            REGISTER_B => self.write_b(byte),
            REGISTER_C | REGISTER_D => {}
            _ => self.ram[(register - RAM) as usize] = byte,
        }
    }

    /// Advances by a tick: the divider moves, a period may end, and at the end of a second the
    /// time is updated.
    #[inline]
    pub fn tick(&mut self)
        ensures { self.new ≡ ticked self.old }
    {
        if self.runs() {
            if self.divider.advance() {
                self.end_unit();
            }
        } else if !self.divider.is_zero() {
            self.divider.clear();
        }
    }

    // What a tick does that ends a unit.
    #[inline]
    fn end_unit(&mut self)
        ensures { self.new ≡ with_update (with_period self.old) }
    {
        if self.divider.ends_period(self.rate()) {
            self.flags |= PF;
        }
        if self.divider.is_zero() && self.b & SET == 0 {
            self.update();
        }
    }

    // The rate of the periodic interrupt.
    #[inline]
    pub(crate) fn rate(&self) -> u32
        ensures value { result ≡ rate self.now }
        ensures fits { result < 16 }
    {
        field::<3, 0>(u32::from(self.a))
    }

    // Updates the time, and sets the flags of update and alarm.
    fn update(&mut self)
        ensures { self.new ≡ updated self.old }
    {
        let time = self.time.advanced(Format::of(self.b));
        self.flags |= UF;
        if self.alarm.matches(time) {
            self.flags |= AF;
        }
        self.time = time;
    }
}
