//! Loads and stores of the isolated cache.

ghost use Rattle.std.specs.Prelude.{◌≡◌};
ghost use Rattle.r3k_machine.specs.Isolated.{is_isolated, slot_at, with_isolated_load, with_isolated_store};

use crate::address::Physical;
use crate::state::Core;
use r3k_exec::StoreKind;

impl Core {
    /// Whether a load or store of this address is isolated.
    #[inline]
    pub(crate) fn is_isolated(&self, physical: Physical) -> bool
        ensures { result ≡ is_isolated self.now physical }
    {
        physical.cacheable && self.cop0().is_isolated()
    }

    /// The word of the slot of a physical address. CM says whether it was a miss.
    #[inline(never)]
    pub(crate) fn load_isolated(&mut self, address: u32) -> u32
        ensures word { result ≡ (slot_at self.old address).word }
        ensures core { self.new ≡ with_isolated_load self.old address }
    {
        let second = self.processor.cop0.is_swapped();
        let (word, hit) = self.caches.load(second, address);
        self.processor.cop0.set_cm(!hit);
        word
    }

    /// Stores into the slot of a physical address.
    #[inline(never)]
    pub(crate) fn store_isolated(&mut self, kind: StoreKind, address: u32, value: u32)
        ensures { self.new ≡ with_isolated_store self.old kind address value }
    {
        let second = self.processor.cop0.is_swapped();
        match kind {
            StoreKind::Word => self.caches.store_word(second, address, value),
            _ => self.caches.store_part(second, address),
        }
    }
}
