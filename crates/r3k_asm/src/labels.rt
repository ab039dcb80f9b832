//! Labels and their addresses.

ghost use Rattle.std.specs.Prelude.{◌≡◌, IfOk, OnOk, not};
ghost use Rattle.std.specs.FinMap as map;

use asm_line::name::Name;
use std::alloc::{AllocError, Global};
use std::collections::BTreeMap;
use std::marker::Model;

/// Labels and their addresses.
#[derive(Drop)]
pub struct Labels<'a> {
    labels: BTreeMap<&'a [u8], u32>,
}

impl<'a> Model for Labels<'a> {
    ghost use Rattle.std.specs.Prelude.{List, ℕ};
    ghost use Rattle.std.specs.Ordering.{nat_cmp};
    ghost use Rattle.std.specs.Cmp.Lexicographic.{slice_cmp};
    ghost use Rattle.std.specs.Coded.{coded_ℕ, coded_list};
    ghost use Rattle.std.specs.FinMap as map;
    ghost use Rattle.r3k_asm.specs.Labels.{names, AreSorted};

    ghost Value = { map.FinMap (slice_cmp nat_cmp) ℕ };

    ghost coded = { map.code (coded_list coded_ℕ) coded_ℕ };

    ghost view = { λ l. map.from_sorted (names l.labels.entries) };

    ghost invariant = { λ l. AreSorted (names l.labels.entries) };
}

impl<'a> Labels<'a> {
    /// No labels.
    pub fn new(alloc: Global) -> Labels<'a>
        ensures { result ≡ map.empty }
    {
        Labels {
            labels: BTreeMap::new(alloc),
        }
    }

    /// The address of a label.
    pub fn get(&self, name: &Name<'_>) -> Option<u32>
        ensures { result ≡ map.get self.now name.now }
    {
        self.labels.get(name.as_bytes()).copied()
    }

    /// Sets a label, and reports whether there was none of its name.
    pub fn insert(&mut self, name: &Name<'a>, address: u32) -> Result<bool, AllocError>
        ensures new { IfOk result (λ new. new ≡ not (map.contains_key self.old name.now)) }
        ensures labels { OnOk result (self.new ≡ map.insert self.old name.now address) }
    {
        let old = self.labels.insert(name.as_bytes(), address)?;
        Ok(old.is_none())
    }
}
