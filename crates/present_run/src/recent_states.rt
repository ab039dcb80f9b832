//! The last states inside spans that were asked for.

ghost use Rattle.std.specs.Prelude.{◌≡◌, ◌≤◌, ℕ, [], ◌∷◌, ◌⊎◌, Contains, IfOk, MatchOption, OnErr, OnOk, length, nat_eq, take};
ghost use Rattle.std.specs.List.{IsDistinct};
ghost use Rattle.std.specs.Set.{remove_key};
ghost use Rattle.r3k_machine.specs.State.{State};
ghost use Rattle.present_run.specs.RecentStates.{HasNone, IsNearest, positions_of, touched};

use lru::LruCache;
use r3k_live::Boundary;
use std::alloc::{AllocError, Global};
use std::marker::Model;
use std::num::NonZeroUsize;
use std::rc::Rc;

/// States of the present run by their positions, at most 8, the one that was used last first.
#[derive(Drop)]
pub(crate) struct RecentStates<const PAGES: u32> {
    states: LruCache<u64, Rc<Boundary<PAGES>>>,
}

impl<const PAGES: u32> Model for RecentStates<PAGES> {
    ghost use Rattle.std.specs.Prelude.{◌≡◌, ℕ, List, map};
    ghost use Rattle.r3k_machine.specs.State.{State};

    ghost Value = { List (ℕ × State) };

    ghost view = { λ l. map (λ e. (e.0, e.1.value)) l.states.entries };

    ghost invariant = { λ l. l.states.cap ≡ 8 };
}

impl<const PAGES: u32> RecentStates<PAGES> {
    /// No states.
    pub(crate) fn new(alloc: Global) -> Result<RecentStates<PAGES>, AllocError>
        ensures { IfOk result (λ recent_states. recent_states ≡ []) }
    {
        let most = NonZeroUsize::new(8).unwrap();
        Ok(RecentStates {
            states: LruCache::new(alloc, most)?,
        })
    }

    /// How many there are.
    pub(crate) fn len(&self) -> usize
        ensures len { result ≡ length self.now }
        ensures few { length self.now ≤ 8 }
        ensures distinct { IsDistinct nat_eq (positions_of self.now) }
    {
        self.states.len()
    }

    /// The state at the greatest position in the range from one to another, both included, and that position.
    pub(crate) fn nearest(&self, from: u64, to: u64) -> Option<(u64, &Rc<Boundary<PAGES>>)>
        ensures { MatchOption result (HasNone from to self.now) (λ found. IsNearest from to self.now found.0 found.1.now.value) }
    {
        let mut nearest: Option<(u64, &Rc<Boundary<PAGES>>)> = None;
        for (position, state) in self.states.iter() {
            if *position < from || to < *position {
                continue;
            }
            match nearest {
                Some((best, _)) if *position < best => {}
                _ => nearest = Some((*position, state)),
            }
        }
        nearest
    }

    /// The state at a position is the one that was used last. Where there is none, nothing changes.
    pub(crate) fn touch(&mut self, position: u64)
        ensures order { self.new ≡ touched position self.old }
        ensures first { Contains (positions_of self.old) position → positions_of self.new ≡ position ∷ remove_key (nat_eq position) (positions_of self.old) }
        ensures absent { ¬ Contains (positions_of self.old) position → self.new ≡ self.old }
        ensures among { (e : ℕ × State) → Contains self.new e → Contains self.old e }
    {
        self.states.promote(&position);
    }

    /// Keeps the state at a position as the one used last. Where there were 8, the one used longest ago is dropped.
    pub(crate) fn add(
        &mut self,
        position: u64,
        state: Rc<Boundary<PAGES>>,
    ) -> Result<(), AllocError>
        requires { ¬ Contains (positions_of self.old) position }
        ensures added { OnOk result (self.new ≡ take 8 ((position, state.entry.value) ∷ self.old)) }
        ensures positions { OnOk result (positions_of self.new ≡ take 8 (position ∷ positions_of self.old)) }
        ensures among { OnOk result ((e : ℕ × State) → Contains self.new e → (e ≡ (position, state.entry.value)) ⊎ Contains self.old e) }
        ensures same { OnErr result (self.new ≡ self.old) }
    {
        self.states.put(position, state)?;
        Ok(())
    }

    /// No states are kept any more.
    pub(crate) fn clear(&mut self)
        ensures { self.new ≡ [] }
    {
        self.states.clear();
    }
}
