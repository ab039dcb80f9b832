//! Loads and stores of the devices' words. They stand outside the line of a step that needs none.

ghost use Rattle.std.specs.Prelude.{◌≡◌};
ghost use Rattle.kn02_bus.specs.Region.{region_of};
ghost use Rattle.r3k_machine.specs.Devices.{sent_by_device, with_device_load, with_device_store, word_of_device};
ghost use Rattle.r3k_machine.specs.Quiet.{steady_of};

use crate::state::Core;
use dz_serial::Sent;
use kn02_bus::Region;
use r3k_exec::Covered;

impl Core {
    /// Loads the word of a device, if there is one at a physical address, with the effect of that read.
    #[inline(never)]
    pub(crate) fn load_device(&mut self, physical: u32, pages: u32) -> Option<u32>
        ensures word { result ≡ word_of_device self.old (region_of pages physical) }
        ensures core { self.new ≡ with_device_load self.old (region_of pages physical) }
    {
        match Region::of(physical, pages) {
            Region::Device(device) => Some(self.bus.load(device)),
            _ => None,
        }
    }

    /// The word of a device's register, if there is one at a physical address and it is steady.
    #[inline(never)]
    pub(crate) fn steady(&self, physical: u32, pages: u32) -> Option<u32>
        ensures { result ≡ steady_of self.now.bus (region_of pages physical) }
    {
        match Region::of(physical, pages) {
            Region::Device(device) => self.bus.steady(device),
            _ => None,
        }
    }

    /// Stores into the word of a device, if there is one at a physical address, and gives the byte that it sends.
    #[inline(never)]
    pub(crate) fn store_device(
        &mut self,
        physical: u32,
        pages: u32,
        covered: Covered,
    ) -> Option<Sent>
        ensures core { self.new ≡ with_device_store self.old (region_of pages physical) covered }
        ensures sent { result ≡ sent_by_device self.old (region_of pages physical) covered }
    {
        match Region::of(physical, pages) {
            Region::Device(device) => self.bus.store(device, covered.word, covered.lanes),
            _ => None,
        }
    }
}
