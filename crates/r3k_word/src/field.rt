//! Bit fields of a word, and sign extension.

ghost use Rattle.std.specs.Prelude.{◌≡◌, ℕ, ◌+◌, ◌-◌, ◌<◌, ◌≤◌, ◌^◌};
ghost use Rattle.r3k_word.specs.Word.{field_of, with_field_of, sign_extended};

/// The bits `HI` down to `LO` of a word, as a number.
#[inline]
pub fn field<const HI: u32, const LO: u32>(word: u32) -> u32
    requires ordered { LO ≤ HI }
    requires within { HI ≤ 31 }
    ensures value { result ≡ field_of HI LO word }
    ensures fits { result < 2 ^ (HI + 1 - LO) }
{
    (word >> LO) & (u32::MAX >> (31 - (HI - LO)))
}

/// The word with `value` in place of its bits `HI` down to `LO`.
#[inline]
pub fn with_field<const HI: u32, const LO: u32>(word: u32, value: u32) -> u32
    requires ordered { LO ≤ HI }
    requires within { HI ≤ 31 }
    requires fits { value < 2 ^ (HI + 1 - LO) }
    ensures { result ≡ with_field_of HI LO word value }
{
    word - (field::<HI, LO>(word) << LO) + (value << LO)
}

/// A number of `N` bits as a word of the same signed reading: its highest bit is copied upward.
#[inline]
pub fn sign<const N: u32>(value: u32) -> u32
    requires above { 1 ≤ N }
    requires within { N ≤ 32 }
    requires fits { value < 2 ^ N }
    ensures { result ≡ sign_extended N value }
{
    let top = 1 << (N - 1);
    let high = u32::from(value >= top) << (N - 1);
    value.wrapping_sub(high).wrapping_sub(high)
}
