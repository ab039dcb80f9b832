//! The instructions on translation entries.

ghost use Rattle.std.specs.Prelude.{◌≡◌, ◌<◌};
ghost use Rattle.r3k_machine.specs.Translation.{place_in, with_entry_read, with_entry_written, with_probe};

use crate::state::Core;
use cop0::number::{ENTRY_HI, ENTRY_LO, INDEX};
use r3k_word::field::field;
use tlb64::Entry;

impl Core {
    // The place that Index or Random names.
    fn place_in(&self, number: u8) -> u32
        ensures place { result ≡ place_in self.now number }
        ensures within { result < 64 }
    {
        field::<13, 8>(self.cop0().read(number))
    }

    /// tlbr: loads EntryHi and EntryLo from the entry that Index names.
    pub(crate) fn read_entry(&mut self)
        ensures { self.new ≡ with_entry_read self.old }
    {
        let entry = self.entry(self.place_in(INDEX));
        self.processor.cop0.loaded(entry.hi, entry.lo);
    }

    /// tlbwi and tlbwr: replaces the entry that Index or Random names by EntryHi and EntryLo.
    pub(crate) fn write_entry(&mut self, number: u8)
        ensures { self.new ≡ with_entry_written self.old number }
    {
        let place = self.place_in(number);
        let entry = Entry {
            hi: self.processor.cop0.read(ENTRY_HI),
            lo: self.processor.cop0.read(ENTRY_LO),
        };
        self.tlb.write(place, entry);
    }

    /// tlbp: Index gives the entry of the page and the process in EntryHi.
    pub(crate) fn probe_entry(&mut self)
        ensures { self.new ≡ with_probe self.old }
    {
        let Some(found) = self.tlb.probe(self.processor.cop0.read(ENTRY_HI)) else {
            self.processor.cop0.probed(None);
            return;
        };
        if found.several {
            self.processor.cop0.set_ts();
        }
        self.processor.cop0.probed(Some(found.index));
    }
}
