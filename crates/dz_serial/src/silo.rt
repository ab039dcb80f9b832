//! The silo: received characters wait in it until RBUF is read.

ghost use Rattle.std.specs.Prelude.{◌≡◌};
ghost use Rattle.dz_serial.specs.Silo.{stored, taken, arrived, arrived_framing, scanner_off};

use crate::dz::Dz;
use crate::line::{LINES, SerialLine};
use std::marker::Model;

/// How many characters the silo holds.
pub(crate) const SILO: usize = 64;

/// A received character: its line, its byte, whether bytes of the line were lost just
/// before it, and whether it has a framing error.
#[derive(Clone, Copy, Debug, Default, PartialEq, Eq)]
pub(crate) struct Received {
    pub(crate) line: SerialLine,
    pub(crate) byte: u8,
    pub(crate) overrun: bool,
    pub(crate) framing: bool,
}

impl Model for Received {
    ghost use Rattle.dz_serial.specs.Character.{Character};

    ghost Value = { Character };

    ghost view = { λ a. record { line = a.line; byte = a.byte; overrun = a.overrun; framing = a.framing } };

    ghost inverse = { λ c. record { line = c.line; byte = c.byte; overrun = c.overrun; framing = c.framing } };
}

impl Dz {
    /// A byte arrives at a line. It is ignored unless MSE is 1 and the line's
    /// receiver is on, and lost where the silo is full: the next one that is stored from the line
    /// then has OERR.
    #[tactic(auto, unfolding(crate::specs::Silo::arrived))]
    pub fn receive(&mut self, line: SerialLine, byte: u8)
        ensures { self.new ≡ arrived self.old line byte }
    {
        self.take(line, byte, false);
    }

    /// A byte with a framing error arrives at a line. It is treated as any other
    /// byte, and has FERR.
    #[tactic(auto, unfolding(crate::specs::Silo::arrived_framing))]
    pub fn receive_framing(&mut self, line: SerialLine, byte: u8)
        ensures { self.new ≡ arrived_framing self.old line byte }
    {
        self.take(line, byte, true);
    }

    /// Takes a byte if MSE is 1 and the line's receiver is on.
    fn take(&mut self, line: SerialLine, byte: u8, framing: bool)
        ensures { self.new ≡ taken self.old line byte framing }
    {
        if self.mse && self.receivers[line.index()] {
            self.store(line, byte, framing);
        }
    }

    /// Stores a byte, or marks its line where the silo is full.
    fn store(&mut self, line: SerialLine, byte: u8, framing: bool)
        ensures { self.new ≡ stored self.old line byte framing }
    {
        let place = line.index();
        if self.silo.len() < SILO {
            let overrun = self.lost[place];
            self.silo.push(Received {
                line,
                byte,
                overrun,
                framing,
            });
            self.lost[place] = false;
        } else {
            self.lost[place] = true;
        }
    }

    /// The scanner is off: nothing is ready to send, and the silo is empty, with no mark of lost
    /// bytes.
    pub(crate) fn turn_off(&mut self)
        ensures { self.new ≡ scanner_off self.old }
    {
        self.trdy = false;
        self.silo.clear();
        self.lost = [false; LINES];
    }
}
