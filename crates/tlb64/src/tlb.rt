//! The 64 entries: reading, writing and looking up.

ghost use Rattle.std.specs.Prelude.{◌≡◌, ◌<◌, IfSome, slice_index_or, slice_set};
ghost use Rattle.tlb64.specs.Entries.{empty_entry, process_of, reset_entries};
ghost use Rattle.tlb64.specs.Kept.{IsSole};
ghost use Rattle.tlb64.specs.Lookup.{lookup_of, probe_of};

use crate::entry::{Entry, Found};
use crate::kept::{KEPT, Kept, NOTHING, slot, tag};
use crate::sets::{lowest_match, set_of};
use r3k_word::field::field;
use std::marker::Model;

/// The translation entries, seen as the list of them.
#[derive(Debug, Drop)]
pub struct Tlb {
    entries: [Entry; 64],
    // Of each set, the bits of its entries' places.
    sets: [u64; 64],
    // Earlier lookups, until an entry changes.
    kept: [Kept; KEPT],
}

impl Model for Tlb {
    ghost use Rattle.std.specs.Prelude.{List};
    ghost use Rattle.tlb64.specs.Kept.{AreOf};
    ghost use Rattle.tlb64.specs.Sets.{AreSetsOf};
    ghost use Rattle.tlb64.specs.declared.entry.Entry.{Entry};

    ghost Value = { List Entry };

    ghost view = { λ t. t.entries };

    ghost invariant = { λ t. (AreSetsOf t.entries t.sets) × (AreOf t.entries t.kept) };
}

impl Tlb {
    /// The entries at reset: all are 0.
    pub fn new() -> Tlb
        ensures { result ≡ reset_entries }
    {
        let mut sets = [0; 64];
        sets[0] = u64::MAX;
        Tlb {
            entries: [Entry { hi: 0, lo: 0 }; 64],
            sets,
            kept: [NOTHING; KEPT],
        }
    }

    /// These entries.
    pub fn of(entries: &[Entry; 64]) -> Tlb
        ensures { result ≡ entries.now }
    {
        let mut tlb = Tlb::new();
        for place in 0..64 {
            tlb.write(place, entries[place as usize]);
        }
        tlb
    }

    /// The lowest entry that is for the page of a virtual address, and global or of the process
    /// `pid`, and whether more than one is. No entry is of a process above 63.
    #[inline(never)]
    pub fn lookup(&self, address: u32, pid: u32) -> Option<Found>
        ensures found { result ≡ lookup_of self.now address pid }
        ensures within { IfSome result (λ found. found.index < 64) }
    {
        let candidates = self.sets[set_of(address)];
        let lowest = lowest_match(&self.entries, candidates, address, pid)?;
        Some(Found {
            index: lowest.place as u32,
            entry: self.entries[lowest.place],
            several: lowest_match(&self.entries, lowest.rest, address, pid).is_some(),
        })
    }

    /// The same lookup, for the process of a value of EntryHi. What it finds is kept, for fetches or for data, if it is just one
    /// entry.
    #[inline]
    pub fn translate(&mut self, is_fetch: bool, address: u32, hi: u32) -> Option<Found>
        ensures found { result ≡ lookup_of self.old address (process_of hi) }
        ensures same { self.new ≡ self.old }
    {
        let found = self.lookup(address, field::<11, 6>(hi))?;
        if !found.several {
            let tag = tag(address, hi);
            self.kept[slot(is_fetch, address)] = Kept {
                tag,
                lo: found.entry.lo,
            };
        }
        Some(found)
    }

    /// EntryLo of the one entry that is for an address and the process of a value of EntryHi, if `translate` kept it since an
    /// entry was last written. It searches nothing.
    #[inline(always)]
    pub fn kept(&self, is_fetch: bool, address: u32, hi: u32) -> Option<u32>
        ensures { IfSome result (λ lo. IsSole self.now address hi lo) }
    {
        let kept = self.kept[slot(is_fetch, address)];
        if kept.tag == tag(address, hi) {
            Some(kept.lo)
        } else {
            None
        }
    }

    /// The lookup for the page and the process of a value of EntryHi.
    #[inline]
    pub fn probe(&self, hi: u32) -> Option<Found>
        ensures found { result ≡ probe_of self.now hi }
        ensures within { IfSome result (λ found. found.index < 64) }
    {
        self.lookup(hi, field::<11, 6>(hi))
    }

    /// The entry at a place from 0 to 63.
    #[inline]
    pub fn read(&self, index: u32) -> Entry
        requires { index < 64 }
        ensures { result ≡ slice_index_or self.now index empty_entry }
    {
        self.entries[index as usize]
    }

    /// Replaces the entry at a place from 0 to 63.
    #[inline]
    pub fn write(&mut self, index: u32, entry: Entry)
        requires { index < 64 }
        ensures { self.new ≡ slice_set self.old index entry }
    {
        let place = index as usize;
        let bit = 1u64 << place;
        self.sets[set_of(self.entries[place].hi)] &= !bit;
        self.sets[set_of(entry.hi)] |= bit;
        self.entries[place] = entry;
        self.kept = [NOTHING; KEPT];
    }

    /// All entries.
    #[inline]
    pub fn entries(&self) -> &[Entry; 64]
        ensures { result.now ≡ self.now }
    {
        &self.entries
    }
}

impl PartialEq for Tlb {
    ghost use Rattle.std.specs.Prelude.{◌≡◌, ◌↔◌, IsTrue};
    ghost use Rattle.std.specs.Cmp.{decided, partial_equiv_from_equiv};
    ghost use Rattle.tlb64.specs.Same.{is_same, is_same_decides};

    ghost eq = { is_same };

    ghost laws = { partial_equiv_from_equiv (decided is_same is_same_decides) };

    /// Whether all entries are equal.
    fn eq(&self, other: &Tlb) -> bool
        ensures value { result ≡ is_same self.now other.now }
        ensures equal { IsTrue result ↔ (self.now ≡ other.now) }
    {
        self.entries == other.entries
    }
}

impl Eq for Tlb {
    ghost use Rattle.std.specs.Cmp.{decided};
    ghost use Rattle.tlb64.specs.Same.{is_same, is_same_decides};

    ghost laws = { decided is_same is_same_decides };
}
