//! The ticks that are planned ahead. In quiet ticks the devices do nothing but count, so they are not
//! ticked one by one. They stay where they were when the schedule was made, and pass all that they owe
//! at once when somebody looks, or when the next tick is not quiet.

ghost use Rattle.std.specs.Prelude.{◌≡◌, ◌-◌, ◌≤◌};
ghost use Rattle.kn02_bus.specs.Schedule.{schedule_for};

use crate::bus::Lines;
use crate::parts::Parts;

/// The quiet ticks of the parts, and the interrupt lines, which stay as they are over them.
#[derive(Clone, Copy, Debug)]
pub(crate) struct Schedule {
    /// How many of the quiet ticks are still to come.
    pub(crate) left: u32,
    /// How many there were.
    pub(crate) planned: u32,
    pub(crate) lines: Lines,
}

impl Schedule {
    /// The schedule for the parts as they stand.
    pub(crate) fn of(parts: &Parts) -> Schedule
        ensures { result ≡ schedule_for parts.now }
    {
        let quiet = parts.quiet();
        Schedule {
            left: quiet,
            planned: quiet,
            lines: parts.lines(),
        }
    }

    /// The ticks that have come and that the parts still owe.
    #[inline]
    pub(crate) fn owed(&self) -> u32
        requires { self.now.left ≤ self.now.planned }
        ensures { result ≡ self.now.planned - self.now.left }
    {
        self.planned - self.left
    }
}
