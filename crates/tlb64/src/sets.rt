//! The entries by sets, so that a lookup compares only those of one set.

ghost use Rattle.std.specs.Prelude.{◌≡◌, ◌<◌, MatchOption};
ghost use Rattle.tlb64.specs.Sets.{set_of, NoneMatches, IsLowestMatch};

use crate::entry::Entry;
use r3k_word::field::field;

// 2^32 by the golden ratio, as a prime.
const SPREAD: u32 = 2_654_435_761;

/// The set of the page of a virtual address, or of EntryHi. Neither the pages of a row nor those of
/// round addresses share one set, so entries that are out of use seldom slow a lookup.
#[inline]
pub(crate) fn set_of(address: u32) -> usize
    ensures value { result ≡ set_of address }
    ensures within { result < 64 }
{
    (field::<31, 12>(address).wrapping_mul(SPREAD) >> 26) as usize
}

/// A candidate that matches, and the candidates after it.
#[derive(Clone, Copy)]
pub(crate) struct Match {
    pub place: usize,
    pub rest: u64,
}

/// The lowest candidate that matches. The places of the candidates are the bits that are 1.
#[inline]
pub(crate) fn lowest_match(
    entries: &[Entry; 64],
    candidates: u64,
    address: u32,
    pid: u32,
) -> Option<Match>
    ensures { MatchOption result (NoneMatches entries.now address pid candidates)
        (IsLowestMatch entries.now address pid candidates) }
{
    let mut left = candidates;
    while left != 0 {
        let place = left.trailing_zeros() as usize;
        left &= left - 1;
        if entries[place].matches(address, pid) {
            return Some(Match { place, rest: left });
        }
    }
    None
}
