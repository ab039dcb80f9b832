//! The bytes of a word, little-endian.

ghost use Rattle.std.specs.Prelude.{◌≡◌};
ghost use Rattle.r3k_word.specs.Word.{bytes_of};

/// A word's four bytes, the lowest first.
#[inline]
pub fn to_bytes(word: u32) -> [u8; 4]
    ensures { result ≡ bytes_of word }
{
    word.to_le_bytes()
}
