//! Loads of the devices' words.

ghost use Rattle.std.specs.Prelude.{◌≡◌, slice_index};
ghost use Rattle.dz_serial.specs.Reads as serial;
ghost use Rattle.mc146818.specs.Clock.{registers, after_read};
ghost use Rattle.kn02_bus.specs.declared.region.Device.TheVariants as device;
ghost use Rattle.kn02_bus.specs.Access.{csr_of, loaded, after_load};
ghost use Rattle.kn02_bus.specs.Quiet.{steady_word};

use crate::bus::Bus;
use crate::csr::ENABLE;
use crate::laws::quiet_laws;
use crate::parts::Parts;
use crate::region::{ClockRegister, Device};
use crate::schedule::Schedule;
use dz_serial::{CSR, Dz};
use mc146818::Clock;

impl Bus {
    /// Loads a word of a device, with the effect of that read.
    pub fn load(&mut self, device: Device) -> u32
        ensures word { result ≡ loaded self.old device }
        ensures state { self.new ≡ after_load self.old device }
    {
        match device {
            Device::Serial(offset) => self.load_serial(offset),
            Device::Clock(register) => self.load_clock(register),
            Device::Csr => self.csr(),
        }
    }

    /// The word of a register that stays over quiet ticks, and that a load leaves as it is: CSR of the serial part and of the board.
    #[inline]
    pub fn steady(&self, device: Device) -> Option<u32>
        ensures { result ≡ steady_word self.now device }
    {
        match device {
            Device::Serial(CSR) => Some(self.serial_csr()),
            Device::Csr => Some(self.csr()),
            _ => None,
        }
    }

    // CSR of the serial part stays as it is over quiet ticks.
    #[inline]
    fn serial_csr(&self) -> u32
        ensures { result ≡ serial.csr_of self.now.serial }
    {
        quiet_laws();
        self.parts.serial.csr()
    }

    // A read of the serial part neither sees quiet ticks nor ends them.
    fn load_serial(&mut self, offset: u32) -> u32
        ensures word { result ≡ loaded self.old (device.Serial offset) }
        ensures state { self.new ≡ after_load self.old (device.Serial offset) }
    {
        quiet_laws();
        let word = self.parts.load_serial(offset);
        self.schedule.lines = self.parts.lines();
        word
    }

    // A read of the clock may see how far the clock has come.
    #[tactic(auto, using(crate::proofs::Quiet::owes_nothing))]
    fn load_clock(&mut self, register: ClockRegister) -> u32
        ensures word { result ≡ loaded self.old (device.Clock register) }
        ensures state { self.new ≡ after_load self.old (device.Clock register) }
    {
        self.parts.pass(self.schedule.owed());
        let word = self.parts.load_clock(register);
        self.schedule = Schedule::of(&self.parts);
        word
    }

    /// The serial part as it stands.
    pub fn serial(&self) -> Dz
        ensures { result ≡ self.now.serial }
    {
        self.now().serial
    }

    /// The clock as it stands.
    pub fn clock(&self) -> Clock
        ensures { result ≡ self.now.clock }
    {
        self.now().clock
    }

    /// The word of CSR, which stays as it is over quiet ticks.
    pub fn csr(&self) -> u32
        ensures { result ≡ csr_of self.now }
    {
        quiet_laws();
        self.parts.csr()
    }
}

impl Parts {
    /// The word of a register of the serial part.
    fn load_serial(&mut self, offset: u32) -> u32
        ensures word { result ≡ serial.word_read self.old.serial offset }
        ensures state { self.new ≡ record self.old { serial = serial.after_read self.old.serial offset } }
    {
        self.serial.read(offset)
    }

    /// The word of a register of the clock.
    fn load_clock(&mut self, register: ClockRegister) -> u32
        ensures word { result ≡ slice_index (registers self.old.clock) register }
        ensures state { self.new ≡ record self.old { clock = after_read self.old.clock register } }
    {
        u32::from(self.clock.read(register.number()))
    }

    /// The word of the board's control and status register.
    fn csr(&self) -> u32
        ensures { result ≡ csr_of self.now }
    {
        u32::from(self.enables) * ENABLE + u32::from(self.board_lines())
    }
}
