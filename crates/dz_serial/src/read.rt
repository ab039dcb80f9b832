//! Reads of the registers.

ghost use Rattle.std.specs.Prelude.{◌≡◌, ◌<◌, ◌^◌, map, slice_index};
ghost use Rattle.dz_serial.specs.Serial.{entry_of};
ghost use Rattle.dz_serial.specs.Reads.{character_word, csr_of, rbuf_of, tcr_of, word_read, after_read};

use crate::dz::Dz;
use crate::line::SerialLine;
use crate::registers::*;
use crate::silo::{Received, SILO};
use arrayvec::ArrayVec;

impl Received {
    /// The word of the character in RBUF.
    fn word(self) -> u32
        ensures word { result ≡ character_word self }
        ensures fits { result < 2 ^ 16 }
    {
        flag(DVAL, true)
            + flag(OERR, self.overrun)
            + flag(FERR, self.framing)
            + u32::from(self.line.number()) * RX_LINE
            + u32::from(self.byte)
    }
}

impl Dz {
    /// Reads the word at an offset, a multiple of 4 up to 28. A read of RBUF removes the oldest
    /// character.
    #[tactic(auto, unfolding(crate::specs::Reads::after_read))]
    pub fn read(&mut self, offset: u32) -> u32
        ensures word { result ≡ word_read self.old offset }
        ensures state { self.new ≡ after_read self.old offset }
        ensures fits { result < 2 ^ 16 }
    {
        let word = self.word(offset);
        if offset == RBUF && self.rdone() {
            let _oldest = self.silo.remove(0);
        }
        word
    }

    /// The word that a read at an offset gives, without its effect.
    #[tactic(auto, unfolding(crate::specs::Reads::word_read))]
    pub fn word(&self, offset: u32) -> u32
        ensures word { result ≡ word_read self.now offset }
        ensures fits { result < 2 ^ 16 }
    {
        match offset {
            CSR => self.csr(),
            RBUF => self.rbuf(),
            TCR => self.tcr(),
            _ => 0,
        }
    }

    /// The word of CSR. A read changes nothing.
    pub fn csr(&self) -> u32
        ensures word { result ≡ csr_of self.now }
        ensures fits { result < 2 ^ 16 }
    {
        flag(TRDY, self.trdy)
            + flag(TIE, self.tie)
            + u32::from(self.tline.number()) * TLINE
            + flag(RDONE, self.rdone())
            + flag(RIE, self.rie)
            + flag(MSE, self.mse)
            + flag(MAINT, self.maint)
    }

    /// The word of RBUF: the oldest character.
    fn rbuf(&self) -> u32
        ensures word { result ≡ rbuf_of self.now.silo }
        ensures fits { result < 2 ^ 16 }
    {
        match self.silo.first() {
            Some(oldest) => oldest.word(),
            None => 0,
        }
    }

    /// The words that reads of RBUF give, one after the other.
    pub fn waiting(&self) -> ArrayVec<u32, SILO>
        ensures { result.items ≡ map character_word self.now.silo }
    {
        let mut words = ArrayVec::new();
        for character in self.silo.as_slice() {
            words.push(character.word());
        }
        words
    }

    /// Whether the receiver of a line is on.
    pub fn receives(&self, line: SerialLine) -> bool
        ensures { result ≡ entry_of self.now.receivers line }
    {
        self.receivers[line.index()]
    }

    /// Whether a byte of a line was lost since the last one stored.
    pub fn has_lost(&self, line: SerialLine) -> bool
        ensures { result ≡ entry_of self.now.lost line }
    {
        self.lost[line.index()]
    }

    /// For how many ticks a line still sends.
    pub fn busy(&self, line: SerialLine) -> u16
        ensures { result ≡ slice_index self.now.busy line }
    {
        self.busy[line.index()]
    }

    /// The line that a byte was last sent on.
    pub fn last_served(&self) -> SerialLine
        ensures { result ≡ self.now.last_served }
    {
        self.last_served
    }

    /// For how many ticks a line sends a byte.
    pub fn byte_time(&self) -> u16
        ensures { result ≡ self.now.byte_time }
    {
        self.byte_time
    }

    /// The word of TCR.
    fn tcr(&self) -> u32
        ensures word { result ≡ tcr_of self.now }
        ensures fits { result < 2 ^ 16 }
    {
        flag(LINE_3, self.enabled[3])
            + flag(LINE_2, self.enabled[2])
            + flag(LINE_1, self.enabled[1])
            + flag(LINE_0, self.enabled[0])
    }
}
