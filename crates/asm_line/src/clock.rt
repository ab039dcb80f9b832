//! The numbers of `.clock`.

ghost use Rattle.std.specs.Prelude.{◌≡◌, ◌<◌, option_map, Some, None, if◌then◌else◌};
ghost use Rattle.std.specs.Prelude.{nat_lt, length};
ghost use Rattle.std.specs.List.{list_all};
ghost use Rattle.asm_line.specs.Statement.{numbers_at, clock_of};

use crate::kind::AsmKind;
use crate::operand::{is_blank, number_at};
use crate::span::skip_blanks;
use r3k_image::ClockStart;

// The 12 numbers in a text that has nothing else.
fn numbers(text: &[u8]) -> Option<[u64; 12]>
    ensures { result ≡ numbers_at 12 text.now }
{
    let mut numbers = [0; 12];
    let mut rest = text;
    for place in 0..12 {
        let (number, after) = number_at(skip_blanks(rest))?;
        numbers[place] = number;
        rest = after;
    }
    if is_blank(rest) { Some(numbers) } else { None }
}

// The numbers as bytes, if they are.
fn bytes(numbers: &[u64; 12]) -> Option<[u8; 12]>
    ensures { result ≡
        (if list_all (λ n. nat_lt n 256) numbers.now then Some numbers.now else None) }
{
    let mut bytes = [0; 12];
    for place in 0..12 {
        if numbers[place] > 0xFF {
            return None;
        }
        bytes[place] = numbers[place] as u8;
    }
    Some(bytes)
}

/// What the clock starts with by the 12 numbers in a text that has nothing else.
#[tactic(auto, unfolding(crate::specs::Statement::clock_of))]
pub fn clock(text: &[u8]) -> Result<ClockStart, AsmKind>
    ensures { result ≡ clock_of text.now }
{
    let numbers = numbers(text).ok_or(AsmKind::Syntax)?;
    let registers = bytes(&numbers).ok_or(AsmKind::Number)?;
    ClockStart::new(&registers).ok_or(AsmKind::Number)
}
