//! Stores into the devices' words.

ghost use Rattle.std.specs.Prelude.{◌≡◌};
ghost use Rattle.kn02_bus.specs.Access.{clock_stored, csr_stored, after_store, sent_by_store};

use crate::bus::Bus;
use crate::csr::{BYTE_0, BYTE_2};
use crate::parts::Parts;
use crate::region::{ClockRegister, Device};
use crate::schedule::Schedule;
use dz_serial::Sent;
use r3k_word::field::field;

impl Bus {
    /// Stores into a word of a device: bit k of `lanes`, at most 15, says that byte k of the word is
    /// covered. Gives the byte that the serial part sends.
    #[tactic(auto, using(crate::proofs::Quiet::owes_nothing))]
    pub fn store(&mut self, device: Device, word: u32, lanes: u8) -> Option<Sent>
        ensures state { self.new ≡ after_store self.old device word lanes }
        ensures sent { result ≡ sent_by_store self.old device word lanes }
    {
        self.parts.pass(self.schedule.owed());
        let sent = self.parts.store(device, word, lanes);
        self.schedule = Schedule::of(&self.parts);
        sent
    }
}

impl Parts {
    /// What a store does to the parts, and the byte that it sends.
    fn store(&mut self, device: Device, word: u32, lanes: u8) -> Option<Sent>
        ensures state { self.new ≡ after_store self.old device word lanes }
        ensures sent { result ≡ sent_by_store self.old device word lanes }
    {
        match device {
            Device::Serial(offset) => return self.serial.write(offset, word, lanes),
            Device::Clock(register) => self.store_clock(register, word, lanes),
            Device::Csr => self.store_csr(word, lanes),
        }
        None
    }

    /// A register of the clock is written by byte 0 alone.
    fn store_clock(&mut self, register: ClockRegister, word: u32, lanes: u8)
        ensures { self.new ≡ clock_stored self.old register word lanes }
    {
        if lanes & BYTE_0 != 0 {
            self.clock
                .write(register.number(), field::<7, 0>(word) as u8);
        }
    }

    /// The enables are written by byte 2 alone.
    fn store_csr(&mut self, word: u32, lanes: u8)
        ensures { self.new ≡ csr_stored self.old word lanes }
    {
        if lanes & BYTE_2 != 0 {
            self.enables = field::<23, 16>(word) as u8;
        }
    }
}
