//! A law of runs by the pages that are recorded of them: nothing runs here.

ghost use Rattle.std.specs.Prelude.{◌≡◌, ℕ, Bool, IsTrue, List, length};
ghost use Rattle.input_log.specs.Event.{LogEvent};
ghost use Rattle.r3k_pages.specs.Pages.{SameOutside, SamePage, holds, overlaid};
ghost use Rattle.r3k_machine.specs.State.{State};
ghost use Rattle.r3k_machine.specs.Run.{run, trace};
ghost use Rattle.r3k_machine.specs.Locality.{IsApart, IsWithPages, is_touched};
ghost use Rattle.r3k_live.specs.Record.{touched_pages};

/// The pages that are recorded of a run as touched are all that its steps touch. So a run of which no page of a set is recorded
/// reports the same from the state with any other words in these pages, and its end is the same with these words in them: it is made
/// of both memories. A start that is the same but for pages that are not recorded is near enough to report the same.
pub fn run_locality()
    ensures recorded { (pages : ℕ) (log : List LogEvent) (time : ℕ) (s : State) (n page : ℕ) →
        holds (touched_pages pages (trace pages log time s n)) page ≡ is_touched (trace pages log time s n) page }
    ensures trace { (pages : ℕ) (log : List LogEvent) (time : ℕ) (set : ℕ → Bool) (s t : State) (other : List ℕ) (n : ℕ) →
        IsWithPages set s other t → IsApart set (holds (touched_pages pages (trace pages log time s n))) →
        trace pages log time t n ≡ trace pages log time s n }
    ensures run { (pages : ℕ) (log : List LogEvent) (time : ℕ) (set : ℕ → Bool) (s t : State) (other : List ℕ) (n : ℕ) →
        IsWithPages set s other t → IsApart set (holds (touched_pages pages (trace pages log time s n))) →
        IsWithPages set (run pages log time s n) other (run pages log time t n) }
    ensures near { (pages : ℕ) (log : List LogEvent) (time : ℕ) (s t : State) (n : ℕ) →
        t.core ≡ s.core → length t.words ≡ length s.words →
        ((page : ℕ) → IsTrue (holds (touched_pages pages (trace pages log time s n)) page) → SamePage page s.words t.words) →
        trace pages log time t n ≡ trace pages log time s n }
    ensures end { (pages : ℕ) (log : List LogEvent) (time : ℕ) (set : List ℕ) (s t : State) (n : ℕ) →
        t.core ≡ s.core → length t.words ≡ length s.words → SameOutside set s.words t.words →
        IsApart (holds set) (holds (touched_pages pages (trace pages log time s n))) →
        run pages log time t n ≡ record (run pages log time s n) { words = overlaid set (run pages log time s n).words t.words } }
{}
