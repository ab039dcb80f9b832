//! The interrupt lines.

ghost use Rattle.std.specs.Prelude.{◌≡◌};
ghost use Rattle.kn02_bus.specs.Lines.{board_lines, lines_of};

use crate::bus::{Bus, Lines};
use crate::csr::*;
use crate::laws::quiet_laws;
use crate::parts::Parts;

impl Bus {
    /// The interrupt lines to the processor as they are now.
    #[inline]
    pub fn lines(&self) -> Lines
        ensures { result ≡ lines_of self.now }
    {
        quiet_laws();
        self.schedule.lines
    }
}

impl Parts {
    /// The interrupt lines to the processor.
    pub(crate) fn lines(&self) -> Lines
        ensures { result ≡ lines_of self.now }
    {
        Lines {
            board: self.enables & self.board_lines() != 0,
            clock: self.clock.interrupts(),
        }
    }

    /// The board's lines, one bit each: bit 7 is that of the serial part, and bits 2 to 0 are external.
    pub(crate) fn board_lines(&self) -> u8
        ensures { result ≡ board_lines self.now }
    {
        flag(SERIAL_LINE, self.serial.interrupts())
            + flag(LINE_2, self.levels[2])
            + flag(LINE_1, self.levels[1])
            + flag(LINE_0, self.levels[0])
    }
}
