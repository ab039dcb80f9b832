//! Bits of a word by a mask.

ghost use Rattle.std.specs.Prelude.{◌≡◌};
ghost use Rattle.r3k_word.specs.Word.{merged};

/// The word with the bits of a mask taken from another.
#[inline]
pub fn merge(mask: u32, old: u32, new: u32) -> u32
    ensures { result ≡ merged mask old new }
{
    (old & !mask) | (new & mask)
}
