//! Shifts.

ghost use Rattle.std.specs.Prelude.{◌≡◌, IsTrue};
ghost use Rattle.r3k_decode.specs.Fields.{fields_at};
ghost use Rattle.r3k_exec.specs.Effects.{sll_effect, srl_effect, sra_effect, sllv_effect, srlv_effect, srav_effect};

use crate::operands::{Effect, Operands};
use r3k_decode::Insn;

/// Shift left logical.
#[inline]
pub(crate) fn sll(insn: &Insn, operands: Operands) -> Effect
    requires { IsTrue (fields_at insn.now.row).sa }
    ensures { result ≡ sll_effect insn.now operands }
{
    Effect::Write {
        register: insn.rd(),
        value: operands.rt << insn.shift(),
    }
}

/// Shift right logical.
#[inline]
pub(crate) fn srl(insn: &Insn, operands: Operands) -> Effect
    requires { IsTrue (fields_at insn.now.row).sa }
    ensures { result ≡ srl_effect insn.now operands }
{
    Effect::Write {
        register: insn.rd(),
        value: operands.rt >> insn.shift(),
    }
}

/// Shift right arithmetic: the sign is copied.
#[inline]
pub(crate) fn sra(insn: &Insn, operands: Operands) -> Effect
    requires { IsTrue (fields_at insn.now.row).sa }
    ensures { result ≡ sra_effect insn.now operands }
{
    Effect::Write {
        register: insn.rd(),
        value: (operands.rt.cast_signed() >> insn.shift()).cast_unsigned(),
    }
}

/// Shift left logical variable.
#[inline]
pub(crate) fn sllv(insn: &Insn, operands: Operands) -> Effect
    ensures { result ≡ sllv_effect insn.now operands }
{
    Effect::Write {
        register: insn.rd(),
        value: operands.rt << (operands.rs % 32),
    }
}

/// Shift right logical variable.
#[inline]
pub(crate) fn srlv(insn: &Insn, operands: Operands) -> Effect
    ensures { result ≡ srlv_effect insn.now operands }
{
    Effect::Write {
        register: insn.rd(),
        value: operands.rt >> (operands.rs % 32),
    }
}

/// Shift right arithmetic variable.
#[inline]
pub(crate) fn srav(insn: &Insn, operands: Operands) -> Effect
    ensures { result ≡ srav_effect insn.now operands }
{
    Effect::Write {
        register: insn.rd(),
        value: (operands.rt.cast_signed() >> (operands.rs % 32)).cast_unsigned(),
    }
}
