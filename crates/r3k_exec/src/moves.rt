//! Moves from and to HI and LO.

ghost use Rattle.std.specs.Prelude.{◌≡◌};
ghost use Rattle.r3k_exec.specs.Effects.{mfhi_effect, mflo_effect, mthi_effect, mtlo_effect};

use crate::operands::{Effect, Operands};
use r3k_decode::Insn;

/// Move from HI.
#[inline]
pub(crate) fn mfhi(insn: &Insn, operands: Operands) -> Effect
    ensures { result ≡ mfhi_effect insn.now operands }
{
    Effect::Write {
        register: insn.rd(),
        value: operands.hi,
    }
}

/// Move from LO.
#[inline]
pub(crate) fn mflo(insn: &Insn, operands: Operands) -> Effect
    ensures { result ≡ mflo_effect insn.now operands }
{
    Effect::Write {
        register: insn.rd(),
        value: operands.lo,
    }
}

/// Move to HI.
#[inline]
pub(crate) fn mthi(_insn: &Insn, operands: Operands) -> Effect
    ensures { result ≡ mthi_effect _insn.now operands }
{
    Effect::WriteHi { value: operands.rs }
}

/// Move to LO.
#[inline]
pub(crate) fn mtlo(_insn: &Insn, operands: Operands) -> Effect
    ensures { result ≡ mtlo_effect _insn.now operands }
{
    Effect::WriteLo { value: operands.rs }
}
