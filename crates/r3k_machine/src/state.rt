//! The state of the machine: all but the words of RAM and ROM.

ghost use Rattle.std.specs.Prelude.{◌≡◌, ◌↔◌, ◌<◌, IfOk, IsTrue, slice_index_or};
ghost use Rattle.tlb64.specs.Entries.{empty_entry};
ghost use Rattle.r3k_machine.specs.Core.{HoldsZero};
ghost use Rattle.r3k_machine.specs.Flow.{with_flow};
ghost use Rattle.r3k_machine.specs.Reset.{reset_core};
ghost use Rattle.r3k_machine.specs.SameProcessor.{is_same_processor, with_processor};

use crate::caches::RunningCaches;
use crate::flow::{DelayedLoad, Flow};
use cop0::Cop0;
use kn02_bus::Bus;
use r3k_image::Image;
use std::alloc::{AllocError, Global};
use std::marker::Model;
use tlb64::{Entry, Tlb};

/// The small part of the processor, which is copied freely.
#[derive(Clone, Copy, Debug)]
pub struct Processor {
    pub(crate) registers: [u32; 32],
    pub(crate) hi: u32,
    pub(crate) lo: u32,
    pub(crate) flow: Flow,
    pub(crate) cop0: Cop0,
}

/// All but RAM and ROM: registers (r0 holds 0), HI, LO, PC, next PC, delay mark, load slot, control registers, translation
/// entries, the arrays of the isolated cache, and the devices on the bus.
#[derive(Debug, Drop)]
pub struct Core {
    pub(crate) processor: Processor,
    pub(crate) tlb: Tlb,
    // On the heap, and never copied but by `copy`.
    pub(crate) caches: RunningCaches,
    pub(crate) bus: Bus,
}

impl Model for Core {
    ghost use Rattle.r3k_machine.specs.Core.{Core, HoldsZero};
    ghost use Rattle.r3k_machine.specs.LoadSlot.{slot_after_load};

    ghost Value = { Core };

    ghost view = { λ c. record {
      registers = c.processor.registers;
      hi = c.processor.hi;
      lo = c.processor.lo;
      pc = c.processor.flow.pc;
      next_pc = c.processor.flow.next_pc;
      delay = c.processor.flow.delay;
      load = slot_after_load c.processor.flow.slot c.processor.flow.value;
      cop0 = c.processor.cop0;
      entries = c.tlb;
      caches = c.caches;
      bus = c.bus;
    } };

    ghost invariant = { λ c. HoldsZero c.processor.registers };
}

// Whether the small parts of two processors are equal.
pub(crate) fn is_same_processor(a: &Processor, b: &Processor) -> bool
    ensures { result ≡ is_same_processor a.now b.now }
{
    a.registers == b.registers
        && a.hi == b.hi
        && a.lo == b.lo
        && a.flow.pc() == b.flow.pc()
        && a.flow.next_pc() == b.flow.next_pc()
        && a.flow.delay() == b.flow.delay()
        && a.flow.load() == b.flow.load()
        && a.cop0 == b.cop0
}

/// The PC at reset, in kseg1.
pub const RESET_PC: u32 = 0xBFC0_0000;

impl Core {
    /// The core at reset, with the image's byte time, unit and clock. The image's words are those of a memory beside it. All
    /// memory is taken here.
    pub fn reset(alloc: Global, image: &Image) -> Result<Core, AllocError>
        ensures { IfOk result (λ core. core ≡ reset_core image.now) }
    {
        Ok(Core {
            processor: Processor {
                registers: [0; 32],
                hi: 0,
                lo: 0,
                flow: Flow::at(RESET_PC),
                cop0: Cop0::new(),
            },
            tlb: Tlb::new(),
            caches: RunningCaches::new(alloc)?,
            bus: Bus::new(
                u32::from(image.byte_time()),
                image.clock_start(),
                u32::from(image.unit()),
            ),
        })
    }

    /// Another core that holds the same.
    pub fn copy(&self, alloc: Global) -> Result<Core, AllocError>
        ensures { IfOk result (λ copy. copy ≡ self.now) }
    {
        let mut bus = Bus::new(1, [0; 12], 1);
        bus.assign(&self.bus);
        Ok(Core {
            processor: self.processor,
            tlb: Tlb::of(self.tlb.entries()),
            caches: self.caches.copy(alloc)?,
            bus,
        })
    }

    /// Makes the core hold what another does. It takes no memory.
    pub fn assign(&mut self, other: &Core)
        ensures { self.new ≡ other.now }
    {
        self.processor = other.processor;
        self.tlb = Tlb::of(other.tlb.entries());
        self.caches.assign(&other.caches);
        self.bus.assign(&other.bus);
    }

    /// The registers. r0 holds 0.
    #[inline]
    pub fn registers(&self) -> &[u32; 32]
        ensures registers { result.now ≡ self.now.registers }
        ensures zero { HoldsZero result.now }
    {
        &self.processor.registers
    }

    /// HI.
    pub fn hi(&self) -> u32
        ensures { result ≡ self.now.hi }
    {
        self.processor.hi
    }

    /// LO.
    pub fn lo(&self) -> u32
        ensures { result ≡ self.now.lo }
    {
        self.processor.lo
    }

    /// The address of the next instruction.
    pub fn pc(&self) -> u32
        ensures { result ≡ self.now.pc }
    {
        self.processor.flow.pc()
    }

    /// The address of the one after it.
    pub fn next_pc(&self) -> u32
        ensures { result ≡ self.now.next_pc }
    {
        self.processor.flow.next_pc()
    }

    /// Whether the next instruction stands in a delay slot.
    pub fn delay(&self) -> bool
        ensures { result ≡ self.now.delay }
    {
        self.processor.flow.delay()
    }

    /// The load that has not landed yet.
    pub fn load(&self) -> Option<DelayedLoad>
        ensures { result ≡ self.now.load }
    {
        self.processor.flow.load()
    }

    /// Where it stands in its instructions.
    #[inline]
    pub fn flow(&self) -> Flow
        ensures { with_flow self.now result ≡ self.now }
    {
        self.processor.flow
    }

    /// Makes it stand there.
    #[inline]
    pub fn set_flow(&mut self, flow: Flow)
        ensures { self.new ≡ with_flow self.old flow }
    {
        self.processor.flow = flow;
    }

    /// Registers, PC and all else of the processor but translation entries and caches.
    pub fn processor(&self) -> Processor
        ensures { with_processor self.now result ≡ self.now }
    {
        self.processor
    }

    /// Whether these are as they were then.
    pub fn is_at(&self, processor: &Processor) -> bool
        ensures { IsTrue result ↔ (self.now ≡ with_processor self.now processor.now) }
    {
        is_same_processor(&self.processor, processor)
    }

    /// The devices on the bus.
    pub fn bus(&self) -> &Bus
        ensures { result.now ≡ self.now.bus }
    {
        &self.bus
    }

    /// The control registers.
    pub fn cop0(&self) -> &Cop0
        ensures { result.now ≡ self.now.cop0 }
    {
        &self.processor.cop0
    }

    /// The translation entry at a place from 0 to 63.
    pub fn entry(&self, index: u32) -> Entry
        requires { index < 64 }
        ensures { result ≡ slice_index_or self.now.entries index empty_entry }
    {
        self.tlb.read(index)
    }
}

impl PartialEq for Core {
    ghost use Rattle.std.specs.Prelude.{◌≡◌, ◌↔◌, IsTrue};
    ghost use Rattle.std.specs.Cmp.{decided, partial_equiv_from_equiv};
    ghost use Rattle.r3k_machine.specs.Same.{is_same, is_same_decides};

    ghost eq = { is_same };

    ghost laws = { partial_equiv_from_equiv (decided is_same is_same_decides) };

    /// Whether all that both cores hold is equal.
    fn eq(&self, other: &Core) -> bool
        ensures value { result ≡ is_same self.now other.now }
        ensures equal { IsTrue result ↔ (self.now ≡ other.now) }
    {
        is_same_processor(&self.processor, &other.processor)
            && self.tlb == other.tlb
            && self.bus == other.bus
            && self.caches == other.caches
    }
}

impl Eq for Core {
    ghost use Rattle.std.specs.Cmp.{decided};
    ghost use Rattle.r3k_machine.specs.Same.{is_same, is_same_decides};

    ghost laws = { decided is_same is_same_decides };
}
