//! A core that is kept and does not run: kept cores share the arrays of the isolated cache where these are equal.

ghost use Rattle.std.specs.Prelude.{◌≡◌, IfOk};

use crate::state::{Core, Processor, is_same_processor};
use dcache::Caches;
use kn02_bus::Bus;
use std::alloc::{AllocError, Global};
use std::marker::Model;
use std::rc::Rc;
use tlb64::{Entry, Tlb};

/// All that a core holds, kept apart from the core that runs. The arrays of its isolated cache may be those of another one.
#[derive(Drop)]
pub struct KeptCore {
    processor: Processor,
    entries: [Entry; 64],
    caches: Rc<Caches>,
    bus: Bus,
}

impl Model for KeptCore {
    ghost use Rattle.r3k_machine.specs.Core.{Core, HoldsZero};
    ghost use Rattle.r3k_machine.specs.LoadSlot.{slot_after_load};

    ghost Value = { Core };

    ghost view = { λ c. record {
      registers = c.processor.registers;
      hi = c.processor.hi;
      lo = c.processor.lo;
      pc = c.processor.flow.pc;
      next_pc = c.processor.flow.next_pc;
      delay = c.processor.flow.delay;
      load = slot_after_load c.processor.flow.slot c.processor.flow.value;
      cop0 = c.processor.cop0;
      entries = c.entries;
      caches = c.caches.value;
      bus = c.bus;
    } };

    ghost invariant = { λ c. HoldsZero c.processor.registers };
}

impl Core {
    /// What the core holds, to be kept. Its arrays of the isolated cache are those of an earlier kept core where they equal them.
    pub fn keep(
        &mut self,
        alloc: Global,
        earlier: Option<&KeptCore>,
    ) -> Result<KeptCore, AllocError>
        ensures kept { IfOk result (λ kept. kept ≡ self.old) }
        ensures same { self.new ≡ self.old }
    {
        let caches = self
            .caches
            .keep(alloc, earlier.map(|earlier| &earlier.caches))?;
        Ok(KeptCore {
            processor: self.processor,
            entries: *self.tlb.entries(),
            caches,
            bus: copied_bus(&self.bus),
        })
    }

    /// Makes the core hold what was kept. It takes no memory.
    pub fn restore(&mut self, kept: &KeptCore)
        ensures { self.new ≡ kept.now }
    {
        self.processor = kept.processor;
        self.tlb = Tlb::of(&kept.entries);
        self.caches.restore(&kept.caches);
        self.bus.assign(&kept.bus);
    }
}

impl KeptCore {
    /// The same once more, with the same arrays of the isolated cache.
    pub fn share(&self) -> Result<KeptCore, AllocError>
        ensures { IfOk result (λ kept. kept ≡ self.now) }
    {
        Ok(KeptCore {
            processor: self.processor,
            entries: self.entries,
            caches: self.caches.clone()?,
            bus: copied_bus(&self.bus),
        })
    }
}

// The bus once more.
fn copied_bus(same: &Bus) -> Bus
    ensures { result ≡ same.now }
{
    let mut bus = Bus::new(1, [0; 12], 1);
    bus.assign(same);
    bus
}

impl PartialEq for KeptCore {
    ghost use Rattle.std.specs.Prelude.{◌≡◌, ◌↔◌, IsTrue};
    ghost use Rattle.std.specs.Cmp.{decided, partial_equiv_from_equiv};
    ghost use Rattle.r3k_machine.specs.Same.{is_same, is_same_decides};

    ghost eq = { is_same };

    ghost laws = { partial_equiv_from_equiv (decided is_same is_same_decides) };

    /// Whether all that both hold is equal.
    fn eq(&self, other: &KeptCore) -> bool
        ensures value { result ≡ is_same self.now other.now }
        ensures equal { IsTrue result ↔ (self.now ≡ other.now) }
    {
        is_same_processor(&self.processor, &other.processor)
            && self.entries == other.entries
            && self.bus == other.bus
            && *self.caches == *other.caches
    }
}

impl Eq for KeptCore {
    ghost use Rattle.std.specs.Cmp.{decided};
    ghost use Rattle.r3k_machine.specs.Same.{is_same, is_same_decides};

    ghost laws = { decided is_same is_same_decides };
}
