//! The arrays of the isolated cache of a core that runs.

ghost use Rattle.std.specs.Prelude.{◌≡◌, IfOk};
ghost use Rattle.dcache.specs.Arrays.{emptied, filled, hits, reset_arrays, slot_of, with_slot};

use dcache::Caches;
use std::alloc::{AllocError, Global};
use std::marker::Model;
use std::rc::Rc;

/// The arrays, and kept ones that equal them, where these are known: those that were kept or restored last, until a store.
#[derive(Debug, Drop)]
pub(crate) struct RunningCaches {
    arrays: Caches,
    kept: Option<Rc<Caches>>,
}

impl Model for RunningCaches {
    ghost use Rattle.std.specs.Prelude.{◌≡◌, IfSome};
    ghost use Rattle.dcache.specs.Arrays.{Arrays};

    ghost Value = { Arrays };

    ghost view = { λ c. c.arrays };

    ghost invariant = { λ c. IfSome c.kept (λ kept. kept.value ≡ c.arrays) };
}

impl RunningCaches {
    /// The arrays at reset. All memory is taken here.
    pub(crate) fn new(alloc: Global) -> Result<RunningCaches, AllocError>
        ensures { IfOk result (λ caches. caches ≡ reset_arrays) }
    {
        Ok(RunningCaches {
            arrays: Caches::new(alloc)?,
            kept: None,
        })
    }

    /// Other arrays that hold the same.
    pub(crate) fn copy(&self, alloc: Global) -> Result<RunningCaches, AllocError>
        ensures { IfOk result (λ copy. copy ≡ self.now) }
    {
        Ok(RunningCaches {
            arrays: self.arrays.copy(alloc)?,
            kept: None,
        })
    }

    /// Makes them hold what others do. It takes no memory.
    pub(crate) fn assign(&mut self, other: &RunningCaches)
        ensures { self.new ≡ other.now }
    {
        self.kept = None;
        self.arrays.assign(&other.arrays);
    }

    /// Makes them hold what was kept. It takes no memory.
    pub(crate) fn restore(&mut self, kept: &Rc<Caches>)
        ensures { self.new ≡ kept.now.value }
    {
        self.kept = None;
        self.arrays.assign(kept);
        self.kept = kept.clone().ok();
    }

    /// What they hold, to be kept: earlier arrays where they are known to be equal, or are found to be, or else a copy.
    pub(crate) fn keep(
        &mut self,
        alloc: Global,
        earlier: Option<&Rc<Caches>>,
    ) -> Result<Rc<Caches>, AllocError>
        ensures kept { IfOk result (λ kept. kept.value ≡ self.old) }
        ensures same { self.new ≡ self.old }
    {
        if let Some(kept) = &self.kept {
            return kept.clone();
        }
        let kept = kept_of(alloc, &self.arrays, earlier)?;
        self.kept = kept.clone().ok();
        Ok(kept)
    }

    /// The word of the slot of a physical address, and whether that is a hit.
    #[inline]
    pub(crate) fn load(&self, second: bool, address: u32) -> (u32, bool)
        ensures word { result.0 ≡ (slot_of self.now second address).word }
        ensures hit { result.1 ≡ hits (slot_of self.now second address) address }
    {
        self.arrays.load(second, address)
    }

    /// Stores a whole word into its slot.
    #[inline]
    pub(crate) fn store_word(&mut self, second: bool, address: u32, word: u32)
        ensures { self.new ≡ with_slot self.old second address (filled address word) }
    {
        self.kept = None;
        self.arrays.store_word(second, address, word);
    }

    /// Stores a part of a word: its slot is no longer valid.
    #[inline]
    pub(crate) fn store_part(&mut self, second: bool, address: u32)
        ensures { self.new ≡ with_slot self.old second address (emptied (slot_of self.old second address)) }
    {
        self.kept = None;
        self.arrays.store_part(second, address);
    }
}

impl PartialEq for RunningCaches {
    ghost use Rattle.std.specs.Prelude.{◌≡◌, ◌↔◌, IsTrue};
    ghost use Rattle.std.specs.Cmp.{decided, partial_equiv_from_equiv};
    ghost use Rattle.dcache.specs.Same.{is_same, is_same_decides};

    ghost eq = { is_same };

    ghost laws = { partial_equiv_from_equiv (decided is_same is_same_decides) };

    /// Whether both hold the same.
    fn eq(&self, other: &RunningCaches) -> bool
        ensures value { result ≡ is_same self.now other.now }
        ensures equal { IsTrue result ↔ (self.now ≡ other.now) }
    {
        self.arrays == other.arrays
    }
}

// The earlier arrays where they are equal to these, or else a copy.
fn kept_of(
    alloc: Global,
    caches: &Caches,
    earlier: Option<&Rc<Caches>>,
) -> Result<Rc<Caches>, AllocError>
    ensures { IfOk result (λ kept. kept.value ≡ caches.now) }
{
    if let Some(earlier) = earlier {
        if **earlier == *caches {
            return earlier.clone();
        }
    }
    Rc::new(alloc, caches.copy(alloc)?).map_err(|_| AllocError)
}
