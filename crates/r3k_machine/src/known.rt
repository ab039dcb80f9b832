//! Words that are decoded before they are run.

ghost use Rattle.std.specs.Prelude.{IfSome};
ghost use Rattle.r3k_machine.specs.Known.{HasEffectOf, IsDecoded, IsStop};

use r3k_decode::{Insn, decode};
use r3k_table::mnemonic::Mnemonic;
use r3k_word::field::field;

// The word of `break`.
const BREAK: u32 = 0xD;

// An instruction that does the same: an addition for `nop` and moves. So a third of what kernels run goes one way, and the processor
// guesses more often right what comes next.
fn plain(insn: Insn) -> Insn
    ensures { HasEffectOf insn result }
{
    match insn.mnemonic() {
        Mnemonic::Sll => {
            if insn.sa() != 0 {
                return insn;
            }
            Insn::addiu(insn.rd(), insn.rt(), 0)
        }
        Mnemonic::Addu => {
            if insn.rt().number() != 0 {
                return insn;
            }
            Insn::addiu(insn.rd(), insn.rs(), 0)
        }
        Mnemonic::Or => {
            if insn.rt().number() != 0 {
                return insn;
            }
            Insn::addiu(insn.rd(), insn.rs(), 0)
        }
        _ => insn,
    }
}

/// An instruction that does what a word says, unless that is none, or one of coprocessor 0 that is for translation entries.
#[cold]
#[inline(never)]
pub fn decoded(word: u32) -> Option<Insn>
    ensures { IfSome result (λ insn. IsDecoded word insn) }
{
    let insn = decode(word)?;
    if field::<31, 26>(word) == 16
        && !matches!(
            insn.mnemonic(),
            Mnemonic::Mfc0 | Mnemonic::Mtc0 | Mnemonic::Rfe
        )
    {
        return None;
    }
    Some(plain(insn))
}

/// The instruction that stands for a word that is not decoded: it traps.
pub fn stop() -> Insn
    ensures { IsStop result }
{
    match decode(BREAK) {
        Some(insn) => insn,
        None => unreachable!(),
    }
}
