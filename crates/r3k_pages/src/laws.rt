//! Laws of pages: nothing runs here.

ghost use Rattle.std.specs.Prelude.{◌≡◌, ◌/◌, ◌<◌, ℕ, List, IsFalse, IsTrue, length, slice_set};
ghost use Rattle.r3k_word.specs.Layout.{page_of_place, word_count_of};
ghost use Rattle.r3k_pages.specs.Pages.{SameOutside, SamePage, holds, overlaid, page_count_of};

/// Memories that are the same outside a set of pages, and on its pages, are the same; a word that is stored into changes its page
/// alone; what is the same outside a set is so outside a larger one, and in turn; a memory with the pages of a set of another one
/// is that one on these pages, and itself outside them.
pub fn page_laws()
    ensures whole { (pages : ℕ) (set a b : List ℕ) → length a ≡ word_count_of pages → length b ≡ word_count_of pages →
        SameOutside set a b → ((page : ℕ) → IsTrue (holds set page) → SamePage page a b) → a ≡ b }
    ensures stored { (set words : List ℕ) (place word : ℕ) → IsTrue (holds set (page_of_place place)) →
        SameOutside set words (slice_set words place word) }
    ensures larger { (set other a b : List ℕ) → ((page : ℕ) → IsTrue (holds set page) → IsTrue (holds other page)) →
        SameOutside set a b → SameOutside other a b }
    ensures turned { (set a b : List ℕ) → SameOutside set a b → SameOutside set b a }
    ensures chained { (set a b c : List ℕ) → SameOutside set a b → SameOutside set b c → SameOutside set a c }
    ensures overlaid_outside { (set own other : List ℕ) → SameOutside set own (overlaid set own other) }
    ensures overlaid_on { (set own other : List ℕ) (page : ℕ) → length own ≡ length other → IsTrue (holds set page) →
        SamePage page other (overlaid set own other) }
{}
