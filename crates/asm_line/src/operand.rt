//! The operands of an instruction.

ghost use Rattle.std.specs.Prelude.{◌≡◌, ◌≤◌, ◌<◌, ◌*◌, ◌^◌, IfSome, option_map};
ghost use Rattle.asm_line.specs.Operand.{register_at, number_at, signed_at, place_at, after, register_field, number_field, target_at, based_at, operand_at, operands_at, checked, joined, aimed, is_blank};

use crate::name::{Name, register};
use crate::number::number;
use crate::span::{Class, skip_blanks, span};
use crate::target::{Place, Reach, Target};
use r3k_table::operand::Operand;
use r3k_word::arithmetic::add;

/// What operands say: the fields that they put into the word, whether their numbers are all in range, and the target, if there is
/// one. A number that is out of range puts nothing into the word.
#[derive(Debug, Drop)]
pub struct Operands<'a> {
    pub fields: u32,
    pub in_range: bool,
    pub target: Option<Target<'a>>,
}

// The register after a letter that a text begins with, and what follows it.
fn register_at(letter: u8, text: &[u8]) -> Option<(u8, &[u8])>
    ensures value { option_map (λ x. (x.0, x.1.now)) result ≡ register_at letter text.now }
    ensures within { IfSome result (λ x. x.0 < 32) }
{
    let (word, rest) = span(Class::Word, text);
    Some((register(letter, word)?, rest))
}

/// The number that a text begins with, and what follows it.
pub fn number_at(text: &[u8]) -> Option<(u64, &[u8])>
    ensures { option_map (λ x. (x.0, x.1.now)) result ≡ number_at text.now }
{
    let (word, rest) = span(Class::Word, text);
    Some((number(word)?, rest))
}

// The signed number that a text begins with, as a half word, if it is in range, and what follows it.
#[tactic(auto, unfolding(crate::specs::Operand::signed_at))]
fn signed_at(text: &[u8]) -> Option<(Option<u16>, &[u8])>
    ensures { option_map (λ x. (x.0, x.1.now)) result ≡ signed_at text.now }
{
    if text.starts_with(b"-") {
        let (number, rest) = number_at(&text[1..])?;
        let half = if number > 0x8000 {
            None
        } else {
            Some(((0x1_0000 - number) % 0x1_0000) as u16)
        };
        return Some((half, rest));
    }
    let (number, rest) = number_at(text)?;
    let half = if number < 0x8000 {
        Some(number as u16)
    } else {
        None
    };
    Some((half, rest))
}

// The place that a text begins with, a label or a number, if it is in range, and what follows it.
#[tactic(auto, unfolding(crate::specs::Operand::place_at))]
fn place_at(text: &[u8]) -> Option<(Option<Place<'_>>, &[u8])>
    ensures { option_map (λ x. (x.0, x.1.now)) result ≡ place_at text.now }
{
    let (word, rest) = span(Class::Word, text);
    if let Some(name) = Name::new(word) {
        return Some((Some(Place::Label(name)), rest));
    }
    let number = number(word)?;
    if number > 0xFFFF_FFFF {
        return Some((None, rest));
    }
    Some((Some(Place::Address(number as u32)), rest))
}

/// What follows a byte and the blanks around it, if a text begins with them.
#[tactic(auto, unfolding(crate::specs::Operand::after))]
pub fn after(byte: u8, text: &[u8]) -> Option<&[u8]>
    ensures { option_map (λ x. x.now) result ≡ after byte text.now }
{
    let text = skip_blanks(text);
    if text.is_empty() || text[0] != byte {
        return None;
    }
    Some(skip_blanks(&text[1..]))
}

// What a number says, which may be out of range.
fn checked(field: Option<u32>) -> Operands<'static>
    ensures { result ≡ checked field }
{
    match field {
        Some(fields) => Operands {
            fields,
            in_range: true,
            target: None,
        },
        None => Operands {
            fields: 0,
            in_range: false,
            target: None,
        },
    }
}

// What a target says, which may be out of range.
fn aimed(reach: Reach, place: Option<Place<'_>>) -> Operands<'_>
    ensures { result ≡ aimed reach place.entry }
{
    match place {
        Some(place) => Operands {
            fields: 0,
            in_range: true,
            target: Some(Target { reach, place }),
        },
        None => Operands {
            fields: 0,
            in_range: false,
            target: None,
        },
    }
}

// A register in its field.
#[tactic(auto, unfolding(crate::specs::Operand::register_field))]
fn register_field(letter: u8, scale: u32, text: &[u8]) -> Option<(Operands<'_>, &[u8])>
    requires { scale ≤ 2 ^ 21 }
    ensures { option_map (λ x. (x.0, x.1.now)) result ≡ register_field letter scale text.now }
{
    let (number, rest) = register_at(letter, text)?;
    Some((checked(Some(u32::from(number) * scale)), rest))
}

// A number below a limit in its field.
#[tactic(auto, unfolding(crate::specs::Operand::number_field))]
fn number_field(limit: u32, scale: u32, text: &[u8]) -> Option<(Operands<'_>, &[u8])>
    requires { limit * scale ≤ 2 ^ 26 }
    ensures { option_map (λ x. (x.0, x.1.now)) result ≡ number_field limit scale text.now }
{
    let (number, rest) = number_at(text)?;
    let field = if number < u64::from(limit) {
        Some(number as u32 * scale)
    } else {
        None
    };
    Some((checked(field), rest))
}

// A target.
#[tactic(auto, unfolding(crate::specs::Operand::target_at))]
fn target_at(reach: Reach, text: &[u8]) -> Option<(Operands<'_>, &[u8])>
    ensures { option_map (λ x. (x.0, x.1.now)) result ≡ target_at reach text.now }
{
    let (place, rest) = place_at(text)?;
    Some((aimed(reach, place), rest))
}

// An offset, and in parentheses the register that it is counted from.
#[tactic(auto, unfolding(crate::specs::Operand::based_at))]
fn based_at(text: &[u8]) -> Option<(Operands<'_>, &[u8])>
    ensures { option_map (λ x. (x.0, x.1.now)) result ≡ based_at text.now }
{
    let (offset, rest) = signed_at(text)?;
    let (base, rest) = register_at(b'r', after(b'(', rest)?)?;
    let rest = after(b')', rest)?;
    let field = match offset {
        Some(half) => Some(u32::from(half) + u32::from(base) * (1 << 21)),
        None => None,
    };
    Some((checked(field), rest))
}

// The operand that a text begins with, and what follows it.
#[tactic(auto, unfolding(crate::specs::Operand::operand_at))]
fn operand_at(operand: Operand, text: &[u8]) -> Option<(Operands<'_>, &[u8])>
    ensures { option_map (λ x. (x.0, x.1.now)) result ≡ operand_at operand text.now }
{
    match operand {
        Operand::Rs => register_field(b'r', 1 << 21, text),
        Operand::Rt => register_field(b'r', 1 << 16, text),
        Operand::Rd => register_field(b'r', 1 << 11, text),
        Operand::Control => register_field(b'c', 1 << 11, text),
        Operand::Sa => number_field(32, 1 << 6, text),
        Operand::Code => number_field(1 << 20, 1 << 6, text),
        Operand::Signed => {
            let (half, rest) = signed_at(text)?;
            let field = match half {
                Some(half) => Some(u32::from(half)),
                None => None,
            };
            Some((checked(field), rest))
        }
        Operand::Unsigned => number_field(1 << 16, 1, text),
        Operand::Branch => target_at(Reach::Branch, text),
        Operand::Jump => target_at(Reach::Jump, text),
        Operand::Based => based_at(text),
    }
}

// What operands say together.
fn joined<'a>(first: Operands<'a>, more: Operands<'a>) -> Operands<'a>
    ensures { result ≡ joined first.entry more.entry }
{
    Operands {
        fields: add(first.fields, more.fields),
        in_range: first.in_range && more.in_range,
        target: match first.target {
            Some(target) => Some(target),
            None => more.target,
        },
    }
}

/// Whether a text has only blanks.
pub fn is_blank(text: &[u8]) -> bool
    ensures { result ≡ is_blank text.now }
{
    skip_blanks(text).is_empty()
}

/// What the operands say that are written in a text, with commas between them and nothing after them.
pub fn operands_at<'a>(operands: &[Operand], text: &'a [u8]) -> Option<Operands<'a>>
    ensures { result ≡ operands_at operands.now text.now }
{
    let [first, others @ ..] = operands else {
        return if is_blank(text) {
            Some(checked(Some(0)))
        } else {
            None
        };
    };
    let (operand, rest) = operand_at(*first, skip_blanks(text))?;
    if others.is_empty() {
        return if is_blank(rest) { Some(operand) } else { None };
    }
    let more = operands_at(others, after(b',', rest)?)?;
    Some(joined(operand, more))
}
