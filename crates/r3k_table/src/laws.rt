//! Laws of the table: nothing runs here.

ghost use Rattle.std.specs.Prelude.{◌≡◌, ℕ, true, Some, IfSome};
ghost use Rattle.r3k_table.specs.Table.{instructions, all_apart, Matches, row_of};

/// Any two rows disagree in a bit that both masks hold, so the row of a word is the one that it matches.
pub fn table_laws()
    ensures apart { all_apart instructions ≡ true }
    ensures row { (word i : ℕ) → Matches word i → row_of word ≡ Some i }
    ensures found { (word : ℕ) → IfSome (row_of word) (Matches word) }
{}
