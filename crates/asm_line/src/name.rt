//! Names and registers.

ghost use Rattle.std.specs.Prelude.{◌≡◌, ◌<◌, IfSome, if◌then◌else◌, Some, None};
ghost use Rattle.asm_line.specs.Name.{is_name, register_of};

use crate::span::is_digit;
use std::marker::Model;

/// The name of a label.
#[derive(Debug, Drop)]
pub struct Name<'a> {
    bytes: &'a [u8],
}

impl<'a> Model for Name<'a> {
    ghost use Rattle.std.specs.Prelude.{List, ℕ};

    ghost Value = { List ℕ };

    ghost view = { λ name. name.bytes.now };
}

impl<'a> Name<'a> {
    ghost use Rattle.std.specs.Prelude.{◌≡◌, if◌then◌else◌, Some, None};
    ghost use Rattle.asm_line.specs.Name.{is_name};

    /// The name that a word is, if it may be one.
    pub fn new(word: &'a [u8]) -> Option<Name<'a>>
        ensures { result ≡ (if is_name word.now then Some word.now else None) }
    {
        if is_good_name(word) {
            Some(Name { bytes: word })
        } else {
            None
        }
    }

    /// Its bytes.
    pub fn as_bytes(&self) -> &'a [u8]
        ensures { result.now ≡ self.now }
    {
        self.bytes
    }
}

// Whether a word may be the name of a label.
fn is_good_name(word: &[u8]) -> bool
    ensures { result ≡ is_name word.now }
{
    !word.is_empty() && word.len() <= 32 && !is_digit(word[0])
}

/// The number of the register that a word names after a letter: 0 to 31 in decimal, without zeros before it.
#[tactic(auto, unfolding(crate::specs::Name::register_of))]
pub fn register(letter: u8, word: &[u8]) -> Option<u8>
    ensures number { result ≡ register_of letter word.now }
    ensures within { IfSome result (λ number. number < 32) }
{
    if word.len() == 2 && word[0] == letter && is_digit(word[1]) {
        return Some(word[1] - b'0');
    }
    if word.len() != 3 || word[0] != letter || word[1] < b'1' || word[1] > b'3' {
        return None;
    }
    if !is_digit(word[2]) {
        return None;
    }
    let number = 10 * (word[1] - b'0') + (word[2] - b'0');
    if number < 32 { Some(number) } else { None }
}
