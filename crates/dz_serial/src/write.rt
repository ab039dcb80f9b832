//! Writes of the registers.

ghost use Rattle.std.specs.Prelude.{◌≡◌};
ghost use Rattle.dz_serial.specs.Writes.{csr_written, lpr_written, tcr_written, tdr_written};
ghost use Rattle.dz_serial.specs.Writes.{sent_by_tdr, after_write, sent_by};

use crate::dz::Dz;
use crate::line::SerialLine;
use crate::registers::*;
use r3k_word::field::field;

/// A byte that was sent, and its line.
#[derive(Clone, Copy, Debug, PartialEq, Eq)]
pub struct Sent {
    pub line: SerialLine,
    pub byte: u8,
}

impl Dz {
    /// Writes the word at an offset, a multiple of 4 up to 28: bit k of `lanes`, at most 15, says
    /// that byte k of the word is covered. Gives the byte that a write of TDR sends.
    #[tactic(auto, unfolding(crate::specs::Writes::after_write, crate::specs::Writes::sent_by))]
    pub fn write(&mut self, offset: u32, word: u32, lanes: u8) -> Option<Sent>
        ensures state { self.new ≡ after_write self.old offset word lanes }
        ensures sent { result ≡ sent_by self.old offset word lanes }
    {
        match offset {
            CSR => self.write_csr(word, lanes),
            LPR => self.write_lpr(word, lanes),
            TCR => self.write_tcr(word, lanes),
            TDR => return self.write_tdr(word, lanes),
            _ => {}
        }
        None
    }

    /// CLR returns the part to reset. Else TIE, RIE, MSE and MAINT are set where their byte is
    /// covered, and what is left with MSE 0 is turned off.
    fn write_csr(&mut self, word: u32, lanes: u8)
        ensures { self.new ≡ csr_written self.old word lanes }
    {
        let covers_low = lanes & BYTE_0 != 0;
        if covers_low && word & CLR != 0 {
            *self = Dz::new(self.byte_time as u32);
            return;
        }
        if covers_low {
            self.rie = word & RIE != 0;
            self.mse = word & MSE != 0;
            self.maint = word & MAINT != 0;
        }
        if lanes & BYTE_1 != 0 {
            self.tie = word & TIE != 0;
        }
        if !self.mse {
            self.turn_off();
        }
    }

    /// LPR turns a line's receiver on or off.
    fn write_lpr(&mut self, word: u32, lanes: u8)
        ensures { self.new ≡ lpr_written self.old word lanes }
    {
        if lanes & BYTE_0 != 0 {
            let line = field::<1, 0>(word) as usize;
            self.receivers[line] = lanes & BYTE_1 != 0 && word & RX_ENABLE != 0;
        }
    }

    /// TCR says which lines are enabled. TRDY is cleared where line TLINE is not.
    fn write_tcr(&mut self, word: u32, lanes: u8)
        ensures { self.new ≡ tcr_written self.old word lanes }
    {
        if lanes & BYTE_0 != 0 {
            self.enabled = [
                word & LINE_0 != 0,
                word & LINE_1 != 0,
                word & LINE_2 != 0,
                word & LINE_3 != 0,
            ];
            self.trdy = self.trdy && self.enabled[self.tline.index()];
        }
    }

    /// TDR sends a byte on line TLINE, if TRDY is 1.
    fn write_tdr(&mut self, word: u32, lanes: u8) -> Option<Sent>
        ensures state { self.new ≡ tdr_written self.old lanes }
        ensures sent { result ≡ sent_by_tdr self.old word lanes }
    {
        if lanes & BYTE_0 == 0 || !self.trdy {
            return None;
        }
        let line = self.tline;
        self.busy[line.index()] = self.byte_time;
        self.last_served = line;
        self.trdy = false;
        Some(Sent {
            line,
            byte: field::<7, 0>(word) as u8,
        })
    }
}
