//! Numbers in a script line.

ghost use Rattle.std.specs.Prelude.{◌≡◌, ◌≤◌, ◌<◌, ◌+◌, ◌*◌, ◌^◌, None, MatchOption};
ghost use Rattle.std.specs.Option.{SomeIff};
ghost use Rattle.wb_text.specs.Number.{number_of, number_in, number_in_range};

use refusal::Fault;

/// The number that a word is: Syntax where it is no number, and Range where it is above 2^64 - 1.
pub fn number(word: &[u8]) -> Result<u64, Fault>
    ensures { result ≡ number_in_range (number_of word.now) }
{
    if word.starts_with(b"0x") {
        number_of_digits(16, &word[2..])
    } else {
        number_of_digits(10, word)
    }
}

// The number of digits in a base.
fn number_of_digits(base: u32, digits: &[u8]) -> Result<u64, Fault>
    requires least { 2 ≤ base }
    requires most { base ≤ 16 }
    ensures { result ≡ number_in_range (number_in base digits.now) }
{
    if digits.is_empty() {
        return Err(Fault::Syntax);
    }
    // What the digits so far say, unless it is above 2^64 - 1.
    let mut number = Some(0u64);
    for digit in digits {
        let Some(value) = char::from(*digit).to_digit(base) else {
            return Err(Fault::Syntax);
        };
        number = with_digit(number, u64::from(base), u64::from(value));
    }
    number.ok_or(Fault::Range)
}

// The number with one more digit, unless it is above 2^64 - 1.
fn with_digit(number: Option<u64>, base: u64, digit: u64) -> Option<u64>
    ensures { MatchOption number (result ≡ None)
        (λ front. SomeIff result (front * base + digit < 2 ^ 64) (front * base + digit)) }
{
    let product = number?.checked_mul(base)?;
    product.checked_add(digit)
}
