//! Arithmetic of words: modulo 2^32, and products, quotients and remainders as HI and LO hold them.

ghost use Rattle.std.specs.Prelude.{◌≡◌, ◌+ℤ◌, ◌-ℤ◌, FitsSigned};
ghost use Rattle.std.specs.Option.{SomeIff};
ghost use Rattle.std.specs.Int.{w32};
ghost use Rattle.r3k_word.specs.Word.{signed, sum_of, difference_of, halves, product_of, signed_product_of, division_of, signed_division_of};

/// What HI and LO hold after a multiplication or a division.
#[derive(Clone, Copy, Debug, PartialEq, Eq)]
pub struct HiLo {
    pub hi: u32,
    pub lo: u32,
}

/// The sum modulo 2^32.
#[inline]
pub fn add(a: u32, b: u32) -> u32
    ensures { result ≡ sum_of a b }
{
    a.wrapping_add(b)
}

/// The difference modulo 2^32.
#[inline]
pub fn subtract(a: u32, b: u32) -> u32
    ensures { result ≡ difference_of a b }
{
    a.wrapping_sub(b)
}

/// The sum of the signed readings as a word, or `None` where it overflows.
#[inline]
pub fn checked_add(a: u32, b: u32) -> Option<u32>
    ensures { SomeIff result (FitsSigned w32 (signed a +ℤ signed b)) (sum_of a b) }
{
    a.cast_signed()
        .checked_add(b.cast_signed())
        .map(i32::cast_unsigned)
}

/// The difference of the signed readings as a word, or `None` where it overflows.
#[inline]
pub fn checked_subtract(a: u32, b: u32) -> Option<u32>
    ensures { SomeIff result (FitsSigned w32 (signed a -ℤ signed b)) (difference_of a b) }
{
    a.cast_signed()
        .checked_sub(b.cast_signed())
        .map(i32::cast_unsigned)
}

/// A number of 64 bits as its high and its low word.
#[inline]
fn split(number: u64) -> HiLo
    ensures { result ≡ halves number }
{
    HiLo {
        hi: (number >> 32) as u32,
        lo: (number & 0xFFFF_FFFF) as u32,
    }
}

/// The product of 64 bits: its high word in `hi`, its low one in `lo`.
#[inline]
pub fn product(a: u32, b: u32) -> HiLo
    ensures { result ≡ product_of a b }
{
    split(u64::from(a) * u64::from(b))
}

/// The product of the signed readings, as 64 bits.
#[inline]
pub fn signed_product(a: u32, b: u32) -> HiLo
    ensures { result ≡ signed_product_of a b }
{
    split((i64::from(a.cast_signed()) * i64::from(b.cast_signed())).cast_unsigned())
}

/// The remainder in `hi` and the quotient in `lo`. By zero the remainder is `a` and the quotient all ones.
#[inline]
pub fn division(a: u32, b: u32) -> HiLo
    ensures { result ≡ division_of a b }
{
    if b == 0 {
        HiLo {
            hi: a,
            lo: u32::MAX,
        }
    } else {
        HiLo {
            hi: a % b,
            lo: a / b,
        }
    }
}

/// The remainder and the quotient of the signed readings, rounded toward zero. By zero the remainder is `a`, and the
/// quotient -1, or 1 where `a` is negative. The most negative number by -1 is itself, with no remainder.
#[inline]
pub fn signed_division(a: u32, b: u32) -> HiLo
    ensures { result ≡ signed_division_of a b }
{
    if b == 0 {
        let lo = if a < 0x8000_0000 { u32::MAX } else { 1 };
        return HiLo { hi: a, lo };
    }
    if a == 0x8000_0000 && b == u32::MAX {
        return HiLo { hi: 0, lo: a };
    }
    let dividend = a.cast_signed();
    let divisor = b.cast_signed();
    HiLo {
        hi: (dividend % divisor).cast_unsigned(),
        lo: (dividend / divisor).cast_unsigned(),
    }
}
