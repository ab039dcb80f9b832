//! The bus: the devices, and what they report to the processor.

ghost use Rattle.std.specs.Prelude.{◌≡◌, ◌≤◌, ◌<◌, ◌%◌, slice_index};
ghost use Rattle.kn02_bus.specs.State.{reset_bus};
ghost use Rattle.kn02_bus.specs.Tick.{arrived, arrived_framing, wired, ticked};
ghost use Rattle.kn02_bus.specs.Quiet.{after, quiet_of};

use crate::laws::quiet_laws;
use crate::parts::Parts;
use crate::schedule::Schedule;
use dz_serial::SerialLine;
use std::marker::Model;

/// The devices of the board, the enables of its interrupt lines, and the levels of the external
/// ones. It takes no memory beyond its own.
#[derive(Drop)]
pub struct Bus {
    /// The parts as they were when the quiet ticks began.
    pub(crate) parts: Parts,
    pub(crate) schedule: Schedule,
}

impl Model for Bus {
    ghost use Rattle.std.specs.Prelude.{◌-◌};
    ghost use Rattle.kn02_bus.specs.State.{BusState};
    ghost use Rattle.kn02_bus.specs.Quiet.{after};
    ghost use Rattle.kn02_bus.specs.Schedule.{IsScheduleFor};

    ghost Value = { BusState };

    ghost view = { λ b. after (b.schedule.planned - b.schedule.left) b.parts };

    ghost invariant = { λ b. IsScheduleFor b.parts b.schedule };
}

/// The interrupt lines to the processor.
#[derive(Clone, Copy, Debug, PartialEq, Eq)]
pub struct Lines {
    /// A line of the board and its enable are both 1.
    pub board: bool,
    /// The line of the clock.
    pub clock: bool,
}

impl Bus {
    /// The bus at reset. A line of the serial part sends a byte in `byte_time` ticks, and a second has
    /// 8192 times `unit` ticks; both are 1 to 65,535. The clock's registers 0 to 11 are those of
    /// `start`, of which bit 7 of A and bit 0 of B are 0.
    #[tactic(auto, using(crate::proofs::Quiet::owes_nothing))]
    pub fn new(byte_time: u32, start: [u8; 12], unit: u32) -> Bus
        requires byte_time_above { 1 ≤ byte_time }
        requires byte_time_within { byte_time ≤ 65535 }
        requires unit_above { 1 ≤ unit }
        requires unit_within { unit ≤ 65535 }
        requires register_a { slice_index start 10 < 128 }
        requires register_b { slice_index start 11 % 2 ≡ 0 }
        ensures { result ≡ reset_bus byte_time start unit }
    {
        let parts = Parts::new(byte_time, start, unit);
        let schedule = Schedule::of(&parts);
        Bus { parts, schedule }
    }

    /// Makes the bus equal to another one.
    pub fn assign(&mut self, other: &Bus)
        ensures { self.new ≡ other.now }
    {
        self.parts.assign(&other.parts);
        self.schedule = other.schedule;
    }

    /// A byte arrives at a line of the serial part.
    pub fn receive(&mut self, line: SerialLine, byte: u8)
        ensures { self.new ≡ arrived self.old line byte }
    {
        quiet_laws();
        self.parts.receive(line, byte);
        self.schedule.lines = self.parts.lines();
    }

    /// A byte with a framing error arrives at a line of the serial part.
    pub fn receive_framing(&mut self, line: SerialLine, byte: u8)
        ensures { self.new ≡ arrived_framing self.old line byte }
    {
        quiet_laws();
        self.parts.receive_framing(line, byte);
        self.schedule.lines = self.parts.lines();
    }

    /// Sets the level of external line `k` of the board, which is at most 2. It stays until it is set
    /// again.
    pub fn wire(&mut self, k: u8, level: bool)
        requires { k ≤ 2 }
        ensures { self.new ≡ wired self.old k level }
    {
        quiet_laws();
        self.parts.wire(k, level);
        self.schedule.lines = self.parts.lines();
    }

    /// Clock and serial part advance by a tick.
    #[inline]
    #[tactic(auto, using(crate::proofs::Quiet::owes_one_more))]
    pub fn tick(&mut self)
        ensures { self.new ≡ ticked self.old }
    {
        if self.schedule.left != 0 {
            self.schedule.left -= 1;
        } else {
            self.end_quiet_ticks();
        }
    }

    /// How many ticks from now only count, as far as they are planned.
    #[inline]
    pub fn quiet(&self) -> u32
        ensures { result ≤ quiet_of self.now }
    {
        quiet_laws();
        self.schedule.left
    }

    /// Clock and serial part advance by `ticks` ticks. Those that are planned pass at once.
    pub fn pass(&mut self, ticks: u32)
        ensures { self.new ≡ after ticks self.old }
    {
        let quiet = self.schedule.left.min(ticks);
        self.schedule.left -= quiet;
        for _ in quiet..ticks {
            self.tick();
        }
    }

    // The tick after the quiet ones.
    #[cold]
    #[tactic(auto, using(crate::proofs::Quiet::owes_nothing))]
    fn end_quiet_ticks(&mut self)
        ensures { self.new ≡ ticked self.old }
    {
        self.parts.pass(self.schedule.owed());
        self.parts.tick();
        self.schedule = Schedule::of(&self.parts);
    }
}
