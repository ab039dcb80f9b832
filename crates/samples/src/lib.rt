//! Images, a program, and the reading of texts that several tests use.
#![tactic(auto)]

use std::alloc::{AllocError, Global};
use std::fmt::Debug;
use std::num::ParseIntError;
use std::test::Fail;

/// No segments; byte time 16, unit 1, and the clock of a raw ROM.
pub const EMPTY_IMAGE: [u8; 32] = *b"R3KIMG1\n\x10\0\0\0\x01\0\0\0\
\0\0\0\0\0\0\x01\x01\x01\0\x20\x06\
\0\0\0\0";

/// Word 0x100 is 5, and the first four words of ROM are lui r1, 0xa000; lw r2, 256(r1); addu r3, r2, r0; addu r4, r2, r0.
pub const LOAD_SLOT: [u8; 68] = *b"R3KIMG1\n\x10\0\0\0\x01\0\0\0\
\0\0\0\0\0\0\x01\x01\x01\0\x20\x06\
\x02\0\0\0\
\0\x01\0\0\x01\0\0\0\x05\0\0\0\
\0\0\xc0\x1f\x04\0\0\0\0\xa0\x01\x3c\0\x01\x22\x8c\x21\x18\x40\0\x21\x20\x40\0";

/// The echo program: its loop of 11 steps begins at step 9, stores RBUF in word 0x100, and where a byte was there stores 0 in
/// word 0x104 and sends the byte.
pub const ECHO: &str = "lui r1, 0xbfe0
lui r8, 0xa000
addiu r4, r0, 4096
sw r4, 8(r1)
addiu r5, r0, 1
sw r5, 16(r1)
addiu r5, r0, 32
j 0x1fc01000
sw r5, 0(r1)
.org 0x1fc01000
lw r6, 8(r1)
sll r0, r0, 0
sw r6, 256(r8)
sll r7, r6, 16
bgez r7, 0x1fc01024
sll r0, r0, 0
sw r0, 260(r8)
j 0x1fc01030
sw r6, 24(r1)
sll r0, r0, 0
sll r0, r0, 0
sll r0, r0, 0
j 0x1fc01000
sll r0, r0, 0
";

/// What stands for `none` among numbers.
pub const NONE: u64 = u64::MAX;

/// A number: decimal, hexadecimal after `0x`, or `none`.
pub fn number(word: &str) -> Result<u64, ParseIntError> {
    if word == "none" {
        return Ok(NONE);
    }
    match word.strip_prefix("0x") {
        Some(digits) => u64::from_str_radix(digits, 16),
        None => u64::from_str_radix(word, 10),
    }
}

/// A source in which instructions stand with `; ` between, and `N*` before one that stands there N times, line by line.
pub fn program(alloc: Global, source: &str) -> Result<String, Fail> {
    let mut program = String::new(alloc);
    for line in source.lines().filter(|line| !line.starts_with("#")) {
        for part in line.split("; ") {
            let (count, part) = part.split_once('*').unwrap_or(("1", part));
            for _ in 0..number(count)? {
                program.push_str(part)?;
                program.push_str("\n")?;
            }
        }
    }
    Ok(program)
}

/// The lists of a text. Each begins with a line of `$` and its name. One with rows `| X | Y` is there for each row, with X in place of
/// $1, Y in place of $2 and so on. One with rows `/ X | Y` too is there for each of them too, with X in place of %1.
pub fn lists(alloc: Global, text: &str) -> Result<Vec<String>, AllocError> {
    let mut lists = Vec::new(alloc);
    for rows in text.split("\n$ ").skip(1) {
        for rows in &each_row(alloc, rows, "| ", &DOLLARS)? {
            for list in each_row(alloc, rows.as_str(), "/ ", &PERCENTS)? {
                lists.push(list)?;
            }
        }
    }
    Ok(lists)
}

/// What stands for the cells of a row.
pub const DOLLARS: [&str; 9] = ["$1", "$2", "$3", "$4", "$5", "$6", "$7", "$8", "$9"];

const PERCENTS: [&str; 9] = ["%1", "%2", "%3", "%4", "%5", "%6", "%7", "%8", "%9"];

// A list for each of its rows with a mark, or itself.
fn each_row(
    alloc: Global,
    list: &str,
    mark: &str,
    places: &[&str],
) -> Result<Vec<String>, AllocError> {
    let mut text = String::new(alloc);
    let mut rows = Vec::new(alloc);
    for line in list.lines() {
        if let Some(row) = line.strip_prefix(mark) {
            rows.push(row)?;
        } else {
            text.push_str(line)?;
            text.push_str("\n")?;
        }
    }
    let mut lists = Vec::new(alloc);
    for row in &rows {
        lists.push(filled(alloc, text.as_str(), *row, places)?)?;
    }
    if rows.is_empty() {
        lists.push(text)?;
    }
    Ok(lists)
}

/// A text with the cells of a row at their places.
pub fn filled(alloc: Global, text: &str, row: &str, places: &[&str]) -> Result<String, AllocError> {
    let mut text = text.to_string(alloc)?;
    for (place, cell) in places.iter().zip(row.split(" | ")) {
        text = text.replace(alloc, *place, cell.trim())?;
    }
    Ok(text)
}

/// The words and numbers of a text, without what stands between, and the numbers in decimal.
pub fn plain(alloc: Global, text: &str) -> Result<String, AllocError> {
    let mut words = String::new(alloc);
    for letter in text.chars() {
        let in_word = letter.is_ascii_alphanumeric();
        words.push(if in_word { letter } else { ' ' })?;
    }
    let mut plain = String::new(alloc);
    for word in words.as_str().split_whitespace() {
        match number(word) {
            Ok(number) => plain.push_str(format!(in alloc; "{number} ")?.as_str())?,
            Err(_) => plain.push_str(format!(in alloc; "{word} ")?.as_str())?,
        }
    }
    Ok(plain)
}

/// The words and numbers of a value's text: its variants, its fields and what they hold.
pub fn shown<T: Debug>(alloc: Global, value: &T) -> Result<String, AllocError> {
    plain(alloc, format!(in alloc; "{value:?}")?.as_str())
}
