//! The text of what several steps and positions hold.

ghost use Rattle.std.specs.Prelude.{◌≡◌, ◌+◌, ◌≤◌, ◌++◌, length};
ghost use Rattle.arrayvec.specs.ArrayVec.{array_vec_len};
ghost use Rattle.wb_text.specs.Text.{line};
ghost use Rattle.wb_text.specs.Lists.{finds_text, sender_text, timed_text, timed_list_text};

use crate::text::{Text, push_decimal, push_number, push_text, push_word};

/// A word, and the step or the position that it belongs to.
#[derive(Clone, Copy, Debug, Default, PartialEq, Eq)]
pub struct Timed {
    pub time: u64,
    pub word: u32,
}

/// Appends the line that shows how many words there are, under a name, and the line of each.
pub(crate) fn push_timed(text: &mut Text, name: &[u8], words: &[Timed])
    requires short { length name.now ≤ 10 }
    requires few { length words.now ≤ 64 }
    requires room { array_vec_len text.old ≤ 1000 }
    ensures { text.new.items ≡ text.old.items ++ timed_list_text name.now words.now }
{
    push_number(text, name, words.len() as u64);
    for word in words {
        push_timed_word(text, *word);
    }
}

// Appends the line of a word.
fn push_timed_word(text: &mut Text, word: Timed)
    requires { array_vec_len text.old ≤ 10000 }
    ensures items { text.new.items ≡ text.old.items ++ line (timed_text word) }
    ensures room { array_vec_len text.new ≤ array_vec_len text.old + 32 }
{
    push_decimal(text, word.time);
    push_text(text, b" ");
    push_word(text, word.word);
    push_text(text, b"\n");
}

/// Appends the line that shows how many steps there are, and the line of each, with the place of the byte that it sent. The places go
/// on from one.
pub(crate) fn push_finds(text: &mut Text, first: u64, steps: &[u64])
    requires few { length steps.now ≤ 64 }
    requires room { array_vec_len text.old ≤ 1000 }
    ensures { text.new.items ≡ text.old.items ++ finds_text first steps.now }
{
    push_number(text, b"finds ", steps.len() as u64);
    let mut place = first;
    for step in steps {
        push_sender(text, place, *step);
        place = place.wrapping_add(1);
    }
}

// Appends the line of a step that sent the byte at a place.
fn push_sender(text: &mut Text, place: u64, step: u64)
    requires { array_vec_len text.old ≤ 10000 }
    ensures items { text.new.items ≡ text.old.items ++ line (sender_text place step) }
    ensures room { array_vec_len text.new ≤ array_vec_len text.old + 42 }
{
    push_decimal(text, place);
    push_text(text, b" ");
    push_decimal(text, step);
    push_text(text, b"\n");
}
