//! Laws of records that nearly apply: nothing runs here.

ghost use Rattle.std.specs.Prelude.{◌≡◌, ℕ, ◌*◌, ◌≤◌, IsFalse, IsTrue, List, length};
ghost use Rattle.input_log.specs.Event.{LogEvent};
ghost use Rattle.r3k_pages.specs.Pages.{SameOutside, holds, overlaid};
ghost use Rattle.r3k_machine.specs.State.{State};
ghost use Rattle.r3k_machine.specs.Run.{run, trace};
ghost use Rattle.r3k_machine.specs.Locality.{IsApart};
ghost use Rattle.r3k_live.specs.Record.{touched_pages};
ghost use Rattle.span_fact.specs.Span.{Span, end_of, steps_of};
ghost use Rattle.checkpoints.specs.Kept.{NearlyApplies};

/// Where a span nearly applies, the steps from that start report the same, and the core is the same after each of them. They end where the
/// span ends, with the pages that differ and that it does not touch carried over from the start.
pub fn near_laws()
    ensures steps { (pages span : ℕ) (s : Span) (start : State) (events : List LogEvent) →
        NearlyApplies pages span s start events → length start.words ≡ length s.start.words →
        trace pages events (s.index * span) start span ≡ steps_of pages span s }
    ensures cores { (pages span : ℕ) (s : Span) (start : State) (events : List LogEvent) →
        NearlyApplies pages span s start events → length start.words ≡ length s.start.words → (k : ℕ) → k ≤ span →
        (run pages events (s.index * span) start k).core ≡ (run pages s.events (s.index * span) s.start k).core }
    ensures end { (pages span : ℕ) (s : Span) (start : State) (events : List LogEvent) (differing carried : List ℕ) →
        NearlyApplies pages span s start events → length start.words ≡ length s.start.words →
        SameOutside differing s.start.words start.words →
        IsApart (holds carried) (holds (touched_pages pages (steps_of pages span s))) →
        ((page : ℕ) → IsTrue (holds differing page) → IsFalse (holds (touched_pages pages (steps_of pages span s)) page) →
        IsTrue (holds carried page)) →
        run pages events (s.index * span) start span
        ≡ record (end_of pages span s) { words = overlaid carried (end_of pages span s).words start.words } }
{}
