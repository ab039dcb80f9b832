//! The text of steps that transferred control.

ghost use Rattle.std.specs.Prelude.{◌≡◌, ◌+◌, ◌≤◌, ◌++◌, codes, length};
ghost use Rattle.std.specs.Fmt.{decimal};
ghost use Rattle.arrayvec.specs.ArrayVec.{array_vec_len};
ghost use Rattle.wb_text.specs.Text.{line};
ghost use Rattle.wb_text.specs.Jumps.{jump_text, jumps_text};

use crate::text::{Text, push_decimal, push_text, push_word};
use crate::trace::{push_exception, push_fetched};
use r3k_machine::Jump;

/// Appends the line that shows how many jumps there are and the position from which to ask on, and the line of each jump.
pub(crate) fn push_jumps(text: &mut Text, next: u64, jumps: &[Jump])
    requires few { length jumps.now ≤ 64 }
    requires room { array_vec_len text.old ≤ 1000 }
    ensures { text.new.items ≡ text.old.items ++ jumps_text next jumps.now }
{
    push_counts(text, jumps.len() as u64, next);
    for jump in jumps {
        push_jump(text, jump);
    }
}

// Appends the line of the two numbers.
fn push_counts(text: &mut Text, count: u64, next: u64)
    requires { array_vec_len text.old ≤ 1000 }
    ensures items { text.new.items ≡ text.old.items ++ line (codes "jumps " ++ decimal count ++ codes " " ++ decimal next) }
    ensures room { array_vec_len text.new ≤ array_vec_len text.old + 48 }
{
    push_text(text, b"jumps ");
    push_decimal(text, count);
    push_text(text, b" ");
    push_decimal(text, next);
    push_text(text, b"\n");
}

// Appends the line of a jump.
#[tactic(auto, unfolding(crate::specs::Jumps::jump_text))]
fn push_jump(text: &mut Text, jump: &Jump)
    requires { array_vec_len text.old ≤ 15000 }
    ensures items { text.new.items ≡ text.old.items ++ line (jump_text jump.now) }
    ensures room { array_vec_len text.new ≤ array_vec_len text.old + 100 }
{
    push_decimal(text, jump.step);
    push_text(text, b" pc ");
    push_word(text, jump.pc);
    push_fetched(text, jump.word);
    push_text(text, b" to ");
    push_word(text, jump.to);
    push_exception(text, jump.exception);
    push_text(text, b"\n");
}
