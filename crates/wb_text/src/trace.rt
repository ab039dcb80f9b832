//! The text of the traces of steps.

ghost use Rattle.std.specs.Prelude.{◌≡◌, ◌+◌, ◌≤◌, ◌++◌, length};
ghost use Rattle.arrayvec.specs.ArrayVec.{array_vec_len};
ghost use Rattle.wb_text.specs.Text.{line, numbered};
ghost use Rattle.wb_text.specs.Trace.{access_text, exception_text, fetched_text, hi_lo_text, kind_text, reach_text, sent_text, shut_down_text, step_text, write_text};

use crate::text::{Text, push_byte, push_decimal, push_register, push_text, push_word};
use cop0::ExcCode;
use dz_serial::Sent;
use r3k_machine::{Access, AccessKind, Reach, RegisterWrite, Traced};
use r3k_word::arithmetic::HiLo;

/// Appends the lines of steps, whose numbers go on from one.
pub(crate) fn push_steps(text: &mut Text, first: u64, steps: &[Traced])
    requires few { length steps.now ≤ 64 }
    requires room { array_vec_len text.old ≤ 1000 }
    ensures { text.new.items ≡ text.old.items ++ numbered step_text first steps.now }
{
    let mut number = first;
    for step in steps {
        push_step(text, number, *step);
        number = number.wrapping_add(1);
    }
}

// Appends the line of a step.
fn push_step(text: &mut Text, number: u64, step: Traced)
    requires { array_vec_len text.old ≤ 15000 }
    ensures items { text.new.items ≡ text.old.items ++ line (step_text number step) }
    ensures room { array_vec_len text.new ≤ array_vec_len text.old + 220 }
{
    push_decimal(text, number);
    push_text(text, b" pc ");
    push_word(text, step.pc);
    push_fetched(text, step.word);
    push_write(text, step.write);
    push_hi_lo(text, step.hi_lo);
    push_access(text, step.access);
    push_sent(text, step.done.sent);
    push_shut_down(text, step.shuts_down);
    push_exception(text, step.exception);
    push_text(text, b"\n");
}

/// Appends the word that was fetched.
pub(crate) fn push_fetched(text: &mut Text, word: Option<u32>)
    requires { array_vec_len text.old ≤ 16000 }
    ensures items { text.new.items ≡ text.old.items ++ fetched_text word }
    ensures room { array_vec_len text.new ≤ array_vec_len text.old + 16 }
{
    match word {
        None => push_text(text, b" word none"),
        Some(word) => {
            push_text(text, b" word ");
            push_word(text, word);
        }
    }
}

// Appends the register that was written.
fn push_write(text: &mut Text, write: Option<RegisterWrite>)
    requires { array_vec_len text.old ≤ 16000 }
    ensures items { text.new.items ≡ text.old.items ++ write_text write }
    ensures room { array_vec_len text.new ≤ array_vec_len text.old + 33 }
{
    if let Some(write) = write {
        push_text(text, b" ");
        push_register(text, u64::from(write.register), write.value);
    }
}

// Appends HI and LO.
fn push_hi_lo(text: &mut Text, pair: Option<HiLo>)
    requires { array_vec_len text.old ≤ 16000 }
    ensures items { text.new.items ≡ text.old.items ++ hi_lo_text pair }
    ensures room { array_vec_len text.new ≤ array_vec_len text.old + 28 }
{
    if let Some(pair) = pair {
        push_text(text, b" hi ");
        push_word(text, pair.hi);
        push_text(text, b" lo ");
        push_word(text, pair.lo);
    }
}

// Appends the access of a word.
fn push_access(text: &mut Text, access: Option<Access>)
    requires { array_vec_len text.old ≤ 16000 }
    ensures items { text.new.items ≡ text.old.items ++ access_text access }
    ensures room { array_vec_len text.new ≤ array_vec_len text.old + 37 }
{
    if let Some(access) = access {
        push_text(text, kind_name(access.kind));
        push_word(text, access.address);
        push_text(text, b" ");
        push_word(text, access.word);
        push_text(text, reach_name(access.reach));
    }
}

// What a kind of access is called.
fn kind_name(kind: AccessKind) -> &'static [u8]
    ensures text { result.now ≡ kind_text kind }
    ensures short { length result.now ≤ 7 }
{
    match kind {
        AccessKind::Load => b" load ",
        AccessKind::Store => b" store ",
    }
}

// The mark of an access by what it reaches.
fn reach_name(reach: Reach) -> &'static [u8]
    ensures text { result.now ≡ reach_text reach }
    ensures short { length result.now ≤ 9 }
{
    match reach {
        Reach::Bus => b"",
        Reach::Isolated => b" isolated",
        Reach::Ignored => b" ignored",
    }
}

// Appends the byte that was sent.
fn push_sent(text: &mut Text, sent: Option<Sent>)
    requires { array_vec_len text.old ≤ 16000 }
    ensures items { text.new.items ≡ text.old.items ++ sent_text sent }
    ensures room { array_vec_len text.new ≤ array_vec_len text.old + 31 }
{
    if let Some(sent) = sent {
        push_text(text, b" sent ");
        push_decimal(text, u64::from(sent.line.number()));
        push_text(text, b" 0x");
        push_byte(text, sent.byte);
    }
}

// Appends that TS became 1.
fn push_shut_down(text: &mut Text, shuts_down: bool)
    requires { array_vec_len text.old ≤ 16000 }
    ensures items { text.new.items ≡ text.old.items ++ shut_down_text shuts_down }
    ensures room { array_vec_len text.new ≤ array_vec_len text.old + 3 }
{
    if shuts_down {
        push_text(text, b" ts");
    }
}

/// Appends the exception that was taken.
pub(crate) fn push_exception(text: &mut Text, exception: Option<ExcCode>)
    requires { array_vec_len text.old ≤ 16000 }
    ensures items { text.new.items ≡ text.old.items ++ exception_text exception }
    ensures room { array_vec_len text.new ≤ array_vec_len text.old + 31 }
{
    if let Some(code) = exception {
        push_text(text, b" exception ");
        push_decimal(text, u64::from(code.number()));
    }
}
