//! Laws of decoding and encoding: nothing runs here.

ghost use Rattle.std.specs.Prelude.{◌≡◌, ℕ, ◌<◌, ◌^◌, Some, IfSome};
ghost use Rattle.r3k_decode.specs.Operation.{Operation, IsOperation};
ghost use Rattle.r3k_decode.specs.Decoding.{operation_of, word_of};

/// Decoding and encoding are inverse to each other.
pub fn word_laws()
    ensures decoded { (i : Operation) → IsOperation i → operation_of (word_of i) ≡ Some i }
    ensures encoded { (word : ℕ) → word < 2 ^ 32 → IfSome (operation_of word) (λ i. word_of i ≡ word) }
    ensures fits { (i : Operation) → IsOperation i → word_of i < 2 ^ 32 }
{}
