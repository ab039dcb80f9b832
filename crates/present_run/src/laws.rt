//! Laws of what queries cost: nothing runs here.

ghost use Rattle.std.specs.Prelude.{◌≡◌, ℕ, ◌+◌, ◌*◌, ◌≤◌};
ghost use Rattle.present_run.specs.Reuse.{Holding, Lacks};

/// The number of spans that lack a record is unique, and at most the number of spans. So a bound by it says something of each
/// query: it is also a bound by the number of all spans.
///
/// That there is such a number is stated as a double negation, since no definition decides whether two states are equal.
pub fn lacking_laws()
    ensures some { (pages span : ℕ) (h : Holding) (count : ℕ) → ¬ ¬ ((lacking : ℕ) × Lacks pages span h count lacking) }
    ensures one { (pages span : ℕ) (h : Holding) (count a b : ℕ) →
        Lacks pages span h count a → Lacks pages span h count b → a ≡ b }
    ensures most { (pages span : ℕ) (h : Holding) (count lacking : ℕ) → Lacks pages span h count lacking → lacking ≤ count }
    ensures bounds { (pages span : ℕ) (h : Holding) (count cost more : ℕ) →
        ((lacking : ℕ) → Lacks pages span h count lacking → cost ≤ lacking * span + more) → cost ≤ count * span + more }
{}
