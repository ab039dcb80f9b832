//! Bytes that were sent: those of a line that are shown, and the step that sent one of them.

ghost use Rattle.std.specs.Prelude.{◌≡◌, ℕ, ◌+◌, ◌-◌, ◌^◌, ◌<◌, ◌≤◌, ◌++◌, List, Some, length, slice_get};
ghost use Rattle.present_run.specs.Console.{Shows, with_byte};
ghost use Rattle.present_run.specs.Sent.{Seeks, bytes_on, on_line, steps_on};

use arrayvec::ArrayVec;
use dz_serial::SerialLine;
use r3k_live::SentAt;

/// What is shown of a console: how many bytes were sent, and those from a place on.
#[derive(Drop)]
pub struct Shown {
    pub total: u64,
    pub bytes: ArrayVec<u8, 256>,
}

impl Shown {
    /// Takes the bytes of a line among those that were sent next.
    pub(crate) fn take_of(&mut self, line: SerialLine, sent: &[SentAt], from: u64, count: usize)
        requires room { self.old.total + length sent.now < 2 ^ 64 }
        requires count { count ≤ 256 }
        ensures shows { (console : List ℕ) → Shows from count console self.old →
            Shows from count (console ++ bytes_on line sent.now) self.new }
        ensures few { self.new.total ≤ self.old.total + length sent.now }
    {
        for one in sent {
            self.take(byte_on(line, *one), from, count);
        }
    }

    // Takes the next byte of the console, if there is one.
    #[tactic(auto, using(crate::proofs::Consoles::part_more, crate::proofs::Consoles::part_enough, crate::proofs::Consoles::part_before))]
    fn take(&mut self, byte: Option<u8>, from: u64, count: usize)
        requires room { self.old.total < 2 ^ 64 - 1 }
        requires count { count ≤ 256 }
        ensures shows { (console : List ℕ) → Shows from count console self.old →
            Shows from count (with_byte console byte) self.new }
        ensures one_more { self.new.total ≤ self.old.total + 1 }
    {
        let Some(byte) = byte else {
            return;
        };
        if self.total >= from && self.bytes.len() < count {
            self.bytes.push(byte);
        }
        self.total += 1;
    }
}

// A byte, if it was sent on this line.
fn byte_on(line: SerialLine, sent: SentAt) -> Option<u8>
    ensures { result ≡ on_line line (λ one. one.byte) sent }
{
    if sent.line == line {
        return Some(sent.byte);
    }
    None
}

/// The step that sent the byte of a line at a place, among bytes that were sent, or how many places are left after all of these.
pub(crate) fn seek(line: SerialLine, sent: &[SentAt], place: u64) -> Result<u32, u64>
    ensures { Seeks (steps_on line sent.now) place result }
{
    let mut left = place;
    for one in sent {
        if one.line != line {
            continue;
        }
        if left == 0 {
            return Ok(one.step);
        }
        left -= 1;
    }
    Err(left)
}
