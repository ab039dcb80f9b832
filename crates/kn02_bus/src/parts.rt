//! The devices, as they stand.

ghost use Rattle.std.specs.Prelude.{◌≡◌, ◌≤◌, ◌<◌, ◌%◌, slice_index};
ghost use Rattle.kn02_bus.specs.State.{reset_bus};
ghost use Rattle.kn02_bus.specs.Tick.{arrived, arrived_framing, wired, ticked};
ghost use Rattle.kn02_bus.specs.Quiet.{quiet_of, after};

use crate::laws::quiet_laws;
use dz_serial::{Dz, SerialLine};
use mc146818::Clock;
use std::marker::Model;

/// How many lines of the board are external.
pub(crate) const EXTERNAL: usize = 3;

/// The serial part, the clock, and of the board's interrupt lines the enables and the external levels.
#[derive(Drop, PartialEq, Eq)]
pub(crate) struct Parts {
    pub(crate) serial: Dz,
    pub(crate) clock: Clock,
    /// Bit k lets line k of the board raise its interrupt.
    pub(crate) enables: u8,
    /// Of each external line of the board, 0 to 2: its level.
    pub(crate) levels: [bool; EXTERNAL],
}

impl Model for Parts {
    ghost use Rattle.kn02_bus.specs.State.{BusState};

    ghost Value = { BusState };

    ghost view = { λ b. record { serial = b.serial; clock = b.clock; enables = b.enables; levels = b.levels } };

    ghost inverse = { λ b. record { serial = b.serial; clock = b.clock; enables = b.enables; levels = b.levels } };
}

impl Parts {
    /// The parts at reset.
    pub(crate) fn new(byte_time: u32, start: [u8; 12], unit: u32) -> Parts
        requires byte_time_above { 1 ≤ byte_time }
        requires byte_time_within { byte_time ≤ 65535 }
        requires unit_above { 1 ≤ unit }
        requires unit_within { unit ≤ 65535 }
        requires register_a { slice_index start 10 < 128 }
        requires register_b { slice_index start 11 % 2 ≡ 0 }
        ensures { result ≡ reset_bus byte_time start unit }
    {
        Parts {
            serial: Dz::new(byte_time),
            clock: Clock::new(start, unit),
            enables: 0,
            levels: [false; EXTERNAL],
        }
    }

    /// Makes the parts equal to others.
    pub(crate) fn assign(&mut self, other: &Parts)
        ensures { self.new ≡ other.now }
    {
        self.serial.assign(&other.serial);
        self.clock.assign(&other.clock);
        self.enables = other.enables;
        self.levels = other.levels;
    }

    /// A copy of the parts.
    pub(crate) fn copy(&self) -> Parts
        ensures { result ≡ self.now }
    {
        let mut copy = Parts::new(1, [0; 12], 1);
        copy.assign(self);
        copy
    }

    /// A byte arrives at a line of the serial part.
    pub(crate) fn receive(&mut self, line: SerialLine, byte: u8)
        ensures { self.new ≡ arrived self.old line byte }
    {
        self.serial.receive(line, byte);
    }

    /// A byte with a framing error arrives at a line of the serial part.
    pub(crate) fn receive_framing(&mut self, line: SerialLine, byte: u8)
        ensures { self.new ≡ arrived_framing self.old line byte }
    {
        self.serial.receive_framing(line, byte);
    }

    /// Sets the level of external line `k`, which is at most 2.
    pub(crate) fn wire(&mut self, k: u8, level: bool)
        requires { k ≤ 2 }
        ensures { self.new ≡ wired self.old k level }
    {
        self.levels[k as usize] = level;
    }

    /// Clock and serial part advance by a tick.
    pub(crate) fn tick(&mut self)
        ensures { self.new ≡ ticked self.old }
    {
        self.clock.tick();
        self.serial.tick();
    }

    /// How many ticks from now only count.
    pub(crate) fn quiet(&self) -> u32
        ensures { result ≡ quiet_of self.now }
    {
        self.serial.quiet().min(self.clock.quiet())
    }

    /// `ticks` ticks pass at once, all of them quiet.
    pub(crate) fn pass(&mut self, ticks: u32)
        requires { ticks ≤ quiet_of self.old }
        ensures { self.new ≡ after ticks self.old }
    {
        quiet_laws();
        self.serial.pass(ticks);
        self.clock.pass(ticks);
    }
}
