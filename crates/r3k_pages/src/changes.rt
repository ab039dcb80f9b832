//! The few words in which a page differs from one that is kept whole.

ghost use Rattle.std.specs.Prelude.{◌≡◌, ◌+◌, ◌*◌, ◌/◌, ◌^◌, ◌<◌, ◌≤◌, ℕ, List, IsTrue, false, filter, length, nat_eq, not, slice_index, slice_index_or};
ghost use Rattle.std.specs.List.{list_any};
ghost use Rattle.r3k_pages.specs.Blocks.{IsBlockOf};
ghost use Rattle.r3k_pages.specs.Changes.{with_changes, word_after};
ghost use Rattle.r3k_pages.specs.declared.block.TheConstants.{BLOCK_WORDS};
ghost use Rattle.r3k_pages.specs.declared.changes.TheConstants.{FEW};

use crate::block::BLOCK_WORDS;
use crate::page_marks::is_marked;
use arrayvec::ArrayVec;

/// How many words of a page may be kept as changes. The room for one takes 8 bytes of each page. A page for which there is no room takes
/// 448 bytes more at least: those of a whole page and of a block.
pub(crate) const FEW: usize = 8;

/// A word of a page that is set, by its place in the page.
#[derive(Clone, Copy, Debug, Default, PartialEq, Eq)]
pub(crate) struct Change {
    pub(crate) place: u32,
    pub(crate) word: u32,
}

/// The changes outside marked blocks, of which those of the page are from `first` on.
pub(crate) fn unmarked(changes: &[Change], marks: &[bool], first: usize) -> ArrayVec<Change, FEW>
    requires few { length changes.now ≤ FEW }
    requires first { first < 2 ^ 32 }
    ensures { result.items ≡ filter (λ change. not (slice_index_or marks.now (first + change.place / BLOCK_WORDS) false)) changes.now }
{
    let mut left = ArrayVec::new();
    for change in changes {
        if !is_marked(marks, first + change.place as usize / BLOCK_WORDS) {
            left.push(*change);
        }
    }
    left
}

/// The changes of all places but one.
pub(crate) fn elsewhere(changes: &[Change], place: usize) -> ArrayVec<Change, FEW>
    requires { length changes.now ≤ FEW }
    ensures { result.items ≡ filter (λ change. not (nat_eq change.place place)) changes.now }
{
    let mut left = ArrayVec::new();
    for change in changes {
        if change.place as usize != place {
            left.push(*change);
        }
    }
    left
}

/// Adds as changes those words of a block that are others than it is kept with. Says whether there was room for all.
pub(crate) fn add_differing(
    changes: &mut ArrayVec<Change, FEW>,
    block: usize,
    kept: &[u32],
    words: &[u32],
) -> bool
    requires block { block < 2 ^ 16 }
    requires kept { length kept.now ≡ BLOCK_WORDS }
    requires words { length words.now ≡ BLOCK_WORDS }
    ensures set { IsTrue result → (page : List ℕ) → (block + 1) * BLOCK_WORDS ≤ length page →
        IsBlockOf (with_changes page changes.old.items) block kept.now → IsBlockOf (with_changes page changes.new.items) block words.now }
    ensures others { (page : List ℕ) (place : ℕ) → ¬ (place / BLOCK_WORDS ≡ block) →
        slice_index (with_changes page changes.new.items) place ≡ slice_index (with_changes page changes.old.items) place }
{
    for index in 0..BLOCK_WORDS {
        if words[index] != kept[index] {
            if changes.is_full() {
                return false;
            }
            changes.push(Change {
                place: (block * BLOCK_WORDS + index) as u32,
                word: words[index],
            });
        }
    }
    true
}

/// The word at a place after changes, where it is this one before them: that of the last change of the place.
pub(crate) fn word_after(changes: &[Change], place: usize, before: u32) -> u32
    ensures { result ≡ word_after place before changes.now }
{
    let mut word = before;
    for change in changes {
        if change.place as usize == place {
            word = change.word;
        }
    }
    word
}

/// Makes the changes in the words of a page.
pub(crate) fn make(changes: &[Change], words: &mut [u32])
    ensures { words.new ≡ with_changes words.old changes.now }
{
    for change in changes {
        let place = change.place as usize;
        if place < words.len() {
            words[place] = change.word;
        }
    }
}

/// Makes those changes in the words of a block that lie in it.
pub(crate) fn make_in_block(changes: &[Change], block: usize, words: &mut [u32; BLOCK_WORDS])
    ensures { (page : List ℕ) → (block + 1) * BLOCK_WORDS ≤ length page → IsBlockOf page block words.old → IsBlockOf (with_changes page changes.now) block words.new }
{
    for change in changes {
        let place = change.place as usize;
        if place / BLOCK_WORDS == block {
            words[place % BLOCK_WORDS] = change.word;
        }
    }
}

/// Whether one of the changes lies in a block.
pub(crate) fn touch(changes: &[Change], block: usize) -> bool
    ensures { result ≡ list_any (λ change. nat_eq (change.place / BLOCK_WORDS) block) changes.now }
{
    changes
        .iter()
        .any(|change| change.place as usize / BLOCK_WORDS == block)
}
