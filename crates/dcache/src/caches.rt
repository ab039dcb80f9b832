//! The two arrays of the isolated cache. Status bit SwC chooses the second.

ghost use Rattle.std.specs.Prelude.{◌≡◌, IfOk};
ghost use Rattle.dcache.specs.Arrays.{reset_arrays, slot_of, hits, with_slot, filled, emptied};

use crate::slot::{SLOTS, Slot, place, tag};
use std::alloc::{AllocError, Global};
use std::marker::Model;

/// Two arrays of slots, each as long as `SLOTS` says.
#[derive(Debug, Drop)]
pub struct Caches {
    first: Vec<Slot>,
    second: Vec<Slot>,
}

impl Model for Caches {
    ghost use Rattle.std.specs.Prelude.{◌≡◌, vec_len};
    ghost use Rattle.dcache.specs.declared.slot.TheConstants.{SLOTS};
    ghost use Rattle.dcache.specs.Arrays.{Arrays};

    ghost Value = { Arrays };

    ghost view = { λ c. record { first = c.first.items; second = c.second.items } };

    ghost invariant = { λ c. (vec_len c.first ≡ SLOTS) × (vec_len c.second ≡ SLOTS) };
}

impl Caches {
    /// The arrays at reset: no slot is valid, and all are 0. All memory is taken here.
    pub fn new(alloc: Global) -> Result<Caches, AllocError>
        ensures { IfOk result (λ caches. caches ≡ reset_arrays) }
    {
        let empty = Slot {
            word: 0,
            tag: 0,
            valid: false,
        };
        Ok(Caches {
            first: vec![in alloc; empty; SLOTS as usize]?,
            second: vec![in alloc; empty; SLOTS as usize]?,
        })
    }

    /// Another pair of arrays with the same slots.
    pub fn copy(&self, alloc: Global) -> Result<Caches, AllocError>
        ensures { IfOk result (λ copy. copy ≡ self.now) }
    {
        Ok(Caches {
            first: Vec::from_slice(alloc, &self.first)?,
            second: Vec::from_slice(alloc, &self.second)?,
        })
    }

    /// Makes the slots those of another pair of arrays. It takes no memory.
    pub fn assign(&mut self, other: &Caches)
        ensures { self.new ≡ other.now }
    {
        self.first.copy_from_slice(&other.first);
        self.second.copy_from_slice(&other.second);
    }

    /// The word of the slot of a physical address, and whether that is a hit: the slot is valid and
    /// has the address's tag. On a miss the word is the slot's too.
    #[inline]
    pub fn load(&self, second: bool, address: u32) -> (u32, bool)
        ensures word { result.0 ≡ (slot_of self.now second address).word }
        ensures hit { result.1 ≡ hits (slot_of self.now second address) address }
    {
        let slot = self.slot(second, address);
        (slot.word, slot.valid && slot.tag == tag(address))
    }

    /// Stores a whole word: the slot of the physical address gets the word and the address's tag,
    /// and is valid.
    #[inline]
    pub fn store_word(&mut self, second: bool, address: u32, word: u32)
        ensures { self.new ≡ with_slot self.old second address (filled address word) }
    {
        let slot = Slot {
            word,
            tag: tag(address),
            valid: true,
        };
        self.set_slot(second, address, slot);
    }

    /// Stores a part of a word: the slot of the physical address is no longer valid. Its word and
    /// tag stay.
    #[inline]
    pub fn store_part(&mut self, second: bool, address: u32)
        ensures { self.new
            ≡ with_slot self.old second address (emptied (slot_of self.old second address)) }
    {
        let mut slot = self.slot(second, address);
        slot.valid = false;
        self.set_slot(second, address, slot);
    }

    #[inline]
    fn slot(&self, second: bool, address: u32) -> Slot
        ensures { result ≡ slot_of self.now second address }
    {
        let slots = if second { &self.second } else { &self.first };
        slots[place(address)]
    }

    #[inline]
    fn set_slot(&mut self, second: bool, address: u32, slot: Slot)
        ensures { self.new ≡ with_slot self.old second address slot }
    {
        let place = place(address);
        if second {
            self.second[place] = slot;
        } else {
            self.first[place] = slot;
        }
    }
}

impl PartialEq for Caches {
    ghost use Rattle.std.specs.Prelude.{◌≡◌, ◌↔◌, IsTrue};
    ghost use Rattle.std.specs.Cmp.{decided, partial_equiv_from_equiv};
    ghost use Rattle.dcache.specs.Same.{is_same, is_same_decides};

    ghost eq = { is_same };

    ghost laws = { partial_equiv_from_equiv (decided is_same is_same_decides) };

    /// Whether all slots are equal.
    fn eq(&self, other: &Caches) -> bool
        ensures value { result ≡ is_same self.now other.now }
        ensures equal { IsTrue result ↔ (self.now ≡ other.now) }
    {
        self.first == other.first && self.second == other.second
    }
}

impl Eq for Caches {
    ghost use Rattle.std.specs.Cmp.{decided};
    ghost use Rattle.dcache.specs.Same.{is_same, is_same_decides};

    ghost laws = { decided is_same is_same_decides };
}
