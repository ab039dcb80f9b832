//! Laws of words and of the layout of memory: nothing runs here.

ghost use Rattle.std.specs.Prelude.{◌≡◌, ℕ, List, ◌+◌, ◌-◌, ◌<◌, ◌≤◌, ◌^◌, ◌-ℤ◌, pos, length, slice_index, IfSome, Some};
ghost use Rattle.r3k_word.specs.Word.{field_of, with_field_of, sign_extended, signed, bytes_of, word_of};
ghost use Rattle.r3k_word.specs.Layout.{word_count_of, place_of_word, address_of_place, page_of_place};

use crate::layout::{MAX_RAM_PAGES, ROM_PAGES};

/// A field reads what was written into it, and every other field stays.
pub fn field_laws()
    ensures written { (high low word value : ℕ) → low ≤ high → value < 2 ^ (high + 1 - low) →
        field_of high low (with_field_of high low word value) ≡ value }
    ensures above { (high low top bottom word value : ℕ) → low ≤ high → value < 2 ^ (high + 1 - low) → high < bottom →
        field_of top bottom (with_field_of high low word value) ≡ field_of top bottom word }
    ensures below { (high low top bottom word value : ℕ) → low ≤ high → bottom ≤ top → top < low →
        field_of top bottom (with_field_of high low word value) ≡ field_of top bottom word }
{}

/// The signed reading of an extended number is that of the number at its own width.
pub fn sign_laws()
    ensures low { (width value : ℕ) → 1 ≤ width → width ≤ 32 → value < 2 ^ (width - 1) →
        signed (sign_extended width value) ≡ pos value }
    ensures high { (width value : ℕ) → 1 ≤ width → width ≤ 32 → 2 ^ (width - 1) ≤ value → value < 2 ^ width →
        signed (sign_extended width value) ≡ pos value -ℤ pos (2 ^ width) }
{}

/// A word and its bytes determine each other.
pub fn byte_laws()
    ensures word { (word : ℕ) → word < 2 ^ 32 → word_of (bytes_of word) ≡ word }
    ensures bytes { (bytes : List ℕ) → length bytes ≡ 4 → ((i : ℕ) → slice_index bytes i < 256) → bytes_of (word_of bytes) ≡ bytes }
{}

/// A word's place and its address determine each other, and its page is an existing one.
pub fn layout_laws()
    ensures place { (pages place : ℕ) → pages ≤ MAX_RAM_PAGES → place < word_count_of pages →
        place_of_word pages (address_of_place pages place) ≡ Some place }
    ensures address { (pages address : ℕ) → IfSome (place_of_word pages address) (λ place.
        (place < word_count_of pages) × (address_of_place pages place ≡ address)) }
    ensures page { (pages place : ℕ) → place < word_count_of pages → page_of_place place < pages + ROM_PAGES }
{}
