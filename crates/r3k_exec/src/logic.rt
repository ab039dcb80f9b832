//! Bitwise operations, comparisons, and the load of an upper immediate.

ghost use Rattle.std.specs.Prelude.{◌≡◌, IsTrue};
ghost use Rattle.r3k_decode.specs.Fields.{fields_at};
ghost use Rattle.r3k_exec.specs.Effects.{and_effect, or_effect, xor_effect, nor_effect, slt_effect, sltu_effect, slti_effect, sltiu_effect, andi_effect, ori_effect, xori_effect, lui_effect};

use crate::immediate::extended;
use crate::operands::{Effect, Operands};
use r3k_decode::Insn;

/// And.
#[inline]
pub(crate) fn and(insn: &Insn, operands: Operands) -> Effect
    ensures { result ≡ and_effect insn.now operands }
{
    Effect::Write {
        register: insn.rd(),
        value: operands.rs & operands.rt,
    }
}

/// Or.
#[inline]
pub(crate) fn or(insn: &Insn, operands: Operands) -> Effect
    ensures { result ≡ or_effect insn.now operands }
{
    Effect::Write {
        register: insn.rd(),
        value: operands.rs | operands.rt,
    }
}

/// Exclusive or.
#[inline]
pub(crate) fn xor(insn: &Insn, operands: Operands) -> Effect
    ensures { result ≡ xor_effect insn.now operands }
{
    Effect::Write {
        register: insn.rd(),
        value: operands.rs ^ operands.rt,
    }
}

/// Nor.
#[inline]
pub(crate) fn nor(insn: &Insn, operands: Operands) -> Effect
    ensures { result ≡ nor_effect insn.now operands }
{
    Effect::Write {
        register: insn.rd(),
        value: !(operands.rs | operands.rt),
    }
}

/// Set on less than.
#[inline]
pub(crate) fn slt(insn: &Insn, operands: Operands) -> Effect
    ensures { result ≡ slt_effect insn.now operands }
{
    Effect::Write {
        register: insn.rd(),
        value: u32::from(operands.rs.cast_signed() < operands.rt.cast_signed()),
    }
}

/// Set on less than unsigned.
#[inline]
pub(crate) fn sltu(insn: &Insn, operands: Operands) -> Effect
    ensures { result ≡ sltu_effect insn.now operands }
{
    Effect::Write {
        register: insn.rd(),
        value: u32::from(operands.rs < operands.rt),
    }
}

/// Set on less than immediate.
#[inline]
pub(crate) fn slti(insn: &Insn, operands: Operands) -> Effect
    requires { IsTrue (fields_at insn.now.row).imm }
    ensures { result ≡ slti_effect insn.now operands }
{
    Effect::Write {
        register: insn.rt(),
        value: u32::from(operands.rs.cast_signed() < extended(insn).cast_signed()),
    }
}

/// Set on less than immediate unsigned: the immediate is sign-extended all the same.
#[inline]
pub(crate) fn sltiu(insn: &Insn, operands: Operands) -> Effect
    requires { IsTrue (fields_at insn.now.row).imm }
    ensures { result ≡ sltiu_effect insn.now operands }
{
    Effect::Write {
        register: insn.rt(),
        value: u32::from(operands.rs < extended(insn)),
    }
}

/// And immediate, zero-extended.
#[inline]
pub(crate) fn andi(insn: &Insn, operands: Operands) -> Effect
    requires { IsTrue (fields_at insn.now.row).imm }
    ensures { result ≡ andi_effect insn.now operands }
{
    Effect::Write {
        register: insn.rt(),
        value: operands.rs & u32::from(insn.immediate()),
    }
}

/// Or immediate, zero-extended.
#[inline]
pub(crate) fn ori(insn: &Insn, operands: Operands) -> Effect
    requires { IsTrue (fields_at insn.now.row).imm }
    ensures { result ≡ ori_effect insn.now operands }
{
    Effect::Write {
        register: insn.rt(),
        value: operands.rs | u32::from(insn.immediate()),
    }
}

/// Exclusive or immediate, zero-extended.
#[inline]
pub(crate) fn xori(insn: &Insn, operands: Operands) -> Effect
    requires { IsTrue (fields_at insn.now.row).imm }
    ensures { result ≡ xori_effect insn.now operands }
{
    Effect::Write {
        register: insn.rt(),
        value: operands.rs ^ u32::from(insn.immediate()),
    }
}

/// Load upper immediate.
#[inline]
pub(crate) fn lui(insn: &Insn, _operands: Operands) -> Effect
    requires { IsTrue (fields_at insn.now.row).imm }
    ensures { result ≡ lui_effect insn.now _operands }
{
    Effect::Write {
        register: insn.rt(),
        value: u32::from(insn.immediate()) << 16,
    }
}
