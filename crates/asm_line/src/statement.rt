//! What a line says.

ghost use Rattle.std.specs.Prelude.{◌≡◌, Ok, option_map};
ghost use Rattle.r3k_table.specs.View.{view};
ghost use Rattle.asm_line.specs.Statement.{row_named, ends_word, one_number, instruction_of, numbered, made_of, directive_of, named, statement_of};

use crate::clock::clock;
use crate::kind::AsmKind;
use crate::name::Name;
use crate::operand::{is_blank, number_at, operands_at};
use crate::span::{Class, is_letter, skip_blanks, span};
use crate::target::Target;
use r3k_image::{ClockStart, Constant};
use r3k_table::operand::operands;
use r3k_table::row::Row;
use r3k_table::rows::table;
use r3k_word::arithmetic::add;

/// What a line says.
#[derive(Debug, Drop)]
pub enum Statement<'a> {
    /// Nothing.
    Empty,
    /// A label stands here.
    Label(Name<'a>),
    /// The place becomes this address.
    Origin(u32),
    /// A word stands here: it lacks the part that its target gives, if it has one.
    Word {
        word: u32,
        target: Option<Target<'a>>,
    },
    /// The byte time of the image.
    ByteTime(Constant),
    /// The unit of the image.
    Unit(Constant),
    /// What the clock starts with.
    Clock(ClockStart),
}

/// A directive with one number.
#[derive(Clone, Copy, Debug, PartialEq, Eq)]
enum Directive {
    Origin,
    Word,
    ByteTime,
    Unit,
}

// The row of a name.
fn row(name: &[u8]) -> Option<&'static Row>
    ensures { option_map (λ r. view r.now) result ≡ row_named name.now }
{
    for row in table() {
        if row.name.as_bytes() == name {
            return Some(row);
        }
    }
    None
}

// Whether a text may follow a mnemonic or a directive: it begins with a blank, or is empty.
fn word_ends(text: &[u8]) -> bool
    ensures { result ≡ ends_word text.now }
{
    text.is_empty() || Class::Blank.contains(text[0])
}

// The number in a text that has nothing else.
fn one_number(text: &[u8]) -> Option<u64>
    ensures { result ≡ one_number text.now }
{
    let (number, rest) = number_at(skip_blanks(text))?;
    if is_blank(rest) { Some(number) } else { None }
}

// What an instruction of a row says with the operands in a text.
#[tactic(auto, unfolding(crate::specs::Statement::instruction_of))]
fn read_instruction<'a>(row: &Row, text: &'a [u8]) -> Result<Statement<'a>, AsmKind>
    ensures { result ≡ instruction_of (view row.now) text.now }
{
    let operands = operands_at(operands(row.shape), text).ok_or(AsmKind::Syntax)?;
    if !operands.in_range {
        return Err(AsmKind::Number);
    }
    Ok(Statement::Word {
        word: add(row.value, operands.fields),
        target: operands.target,
    })
}

// What a directive says with its number, if that is in range.
fn made(directive: Directive, number: u64) -> Option<Statement<'static>>
    ensures { result ≡ made_of directive number }
{
    match directive {
        Directive::ByteTime => Some(Statement::ByteTime(Constant::new(number)?)),
        Directive::Unit => Some(Statement::Unit(Constant::new(number)?)),
        _ if number > 0xFFFF_FFFF => None,
        Directive::Origin => Some(Statement::Origin(number as u32)),
        Directive::Word => Some(Statement::Word {
            word: number as u32,
            target: None,
        }),
    }
}

// What a directive with one number says with the text after it.
#[tactic(auto, unfolding(crate::specs::Statement::numbered))]
fn numbered(directive: Directive, text: &[u8]) -> Result<Statement<'_>, AsmKind>
    ensures { result ≡ numbered directive text.now }
{
    if !word_ends(text) {
        return Err(AsmKind::Syntax);
    }
    let number = one_number(text).ok_or(AsmKind::Syntax)?;
    made(directive, number).ok_or(AsmKind::Number)
}

// What a directive says with the text after its name.
#[tactic(auto, unfolding(crate::specs::Statement::directive_of))]
fn read_directive<'a>(name: &[u8], text: &'a [u8]) -> Result<Statement<'a>, AsmKind>
    ensures { result ≡ directive_of name.now text.now }
{
    if name == b"org".as_slice() {
        numbered(Directive::Origin, text)
    } else if name == b"word".as_slice() {
        numbered(Directive::Word, text)
    } else if name == b"bytetime".as_slice() {
        numbered(Directive::ByteTime, text)
    } else if name == b"unit".as_slice() {
        numbered(Directive::Unit, text)
    } else if name == b"clock".as_slice() {
        if !word_ends(text) {
            return Err(AsmKind::Syntax);
        }
        Ok(Statement::Clock(clock(text)?))
    } else {
        Err(AsmKind::Name)
    }
}

// What a line says that begins with a word: a label, or an instruction.
#[tactic(auto, unfolding(crate::specs::Statement::named))]
fn named<'a>(word: &'a [u8], text: &'a [u8]) -> Result<Statement<'a>, AsmKind>
    ensures { result ≡ named word.now text.now }
{
    if !text.is_empty() && text[0] == b':' {
        let name = Name::new(word).ok_or(AsmKind::Syntax)?;
        if !is_blank(&text[1..]) {
            return Err(AsmKind::Syntax);
        }
        return Ok(Statement::Label(name));
    }
    let row = row(word).ok_or(AsmKind::Name)?;
    if !word_ends(text) {
        return Err(AsmKind::Syntax);
    }
    read_instruction(row, text)
}

/// What a line says, without its line feed and a carriage return before that.
#[tactic(auto, unfolding(crate::specs::Statement::statement_of))]
pub fn read_line(line: &[u8]) -> Result<Statement<'_>, AsmKind>
    ensures { result ≡ statement_of line.now }
{
    let text = skip_blanks(span(Class::Code, line).0);
    if text.is_empty() {
        return Ok(Statement::Empty);
    }
    if text[0] == b'.' {
        let (name, rest) = span(Class::Word, &text[1..]);
        return read_directive(name, rest);
    }
    if !is_letter(text[0]) {
        return Err(AsmKind::Syntax);
    }
    let (word, rest) = span(Class::Word, text);
    named(word, rest)
}
