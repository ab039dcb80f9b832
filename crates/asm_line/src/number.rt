//! Numbers.

ghost use Rattle.std.specs.Prelude.{◌≡◌, ◌≤◌};
ghost use Rattle.asm_line.specs.Number.{number_of, digits_of};

// No operand takes a number of this size, so each larger one is read as this one.
const LIMIT: u64 = 1 << 32;

/// The number that a word is: decimal digits, or `0x` and hexadecimal digits. One above 2^32 is read as 2^32.
#[tactic(auto, unfolding(crate::specs::Number::number_of))]
pub fn number(word: &[u8]) -> Option<u64>
    ensures { result ≡ number_of word.now }
{
    if word.starts_with(b"0x") {
        digits(16, &word[2..])
    } else {
        digits(10, word)
    }
}

// The number of digits in a base.
fn digits(base: u32, digits: &[u8]) -> Option<u64>
    requires least { 2 ≤ base }
    requires most { base ≤ 16 }
    ensures { result ≡ digits_of base digits.now }
{
    if digits.is_empty() {
        return None;
    }
    let mut number = 0u64;
    for digit in digits {
        let value = char::from(*digit).to_digit(base)?;
        number = (number * u64::from(base) + u64::from(value)).min(LIMIT);
    }
    Some(number)
}
