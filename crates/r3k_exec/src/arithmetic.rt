//! Sums, differences, products and quotients.

ghost use Rattle.std.specs.Prelude.{◌≡◌, IsTrue};
ghost use Rattle.r3k_decode.specs.Fields.{fields_at};
ghost use Rattle.r3k_exec.specs.Effects.{mult_effect, multu_effect, div_effect, divu_effect, add_effect, addu_effect, sub_effect, subu_effect, addi_effect, addiu_effect, write_hi_lo, write_if_some};

use crate::immediate::extended;
use crate::operands::{Effect, Operands, Trap};
use r3k_decode::{Insn, Register};
use r3k_word::arithmetic::{
    self as word, HiLo, checked_add, checked_subtract, division, product, signed_division,
    signed_product, subtract,
};

// Writes what did not overflow.
#[inline]
fn write_or_trap(register: Register, value: Option<u32>) -> Effect
    ensures { result ≡ write_if_some register value }
{
    match value {
        Some(value) => Effect::Write { register, value },
        None => Effect::Trap(Trap::Overflow),
    }
}

// Writes both halves of a product, or quotient and remainder.
#[inline]
fn write_hi_lo(both: HiLo) -> Effect
    ensures { result ≡ write_hi_lo both }
{
    Effect::WriteHiLo {
        hi: both.hi,
        lo: both.lo,
    }
}

/// Multiply: the 64-bit product of the signed readings.
#[inline]
pub(crate) fn mult(_insn: &Insn, operands: Operands) -> Effect
    ensures { result ≡ mult_effect _insn.now operands }
{
    write_hi_lo(signed_product(operands.rs, operands.rt))
}

/// Multiply unsigned.
#[inline]
pub(crate) fn multu(_insn: &Insn, operands: Operands) -> Effect
    ensures { result ≡ multu_effect _insn.now operands }
{
    write_hi_lo(product(operands.rs, operands.rt))
}

/// Divide: quotient and remainder of the signed readings.
#[inline]
pub(crate) fn div(_insn: &Insn, operands: Operands) -> Effect
    ensures { result ≡ div_effect _insn.now operands }
{
    write_hi_lo(signed_division(operands.rs, operands.rt))
}

/// Divide unsigned.
#[inline]
pub(crate) fn divu(_insn: &Insn, operands: Operands) -> Effect
    ensures { result ≡ divu_effect _insn.now operands }
{
    write_hi_lo(division(operands.rs, operands.rt))
}

/// Add: Ov on signed overflow.
#[inline]
pub(crate) fn add(insn: &Insn, operands: Operands) -> Effect
    ensures { result ≡ add_effect insn.now operands }
{
    write_or_trap(insn.rd(), checked_add(operands.rs, operands.rt))
}

/// Add unsigned: no trap.
#[inline]
pub(crate) fn addu(insn: &Insn, operands: Operands) -> Effect
    ensures { result ≡ addu_effect insn.now operands }
{
    Effect::Write {
        register: insn.rd(),
        value: word::add(operands.rs, operands.rt),
    }
}

/// Subtract: Ov on signed overflow.
#[inline]
pub(crate) fn sub(insn: &Insn, operands: Operands) -> Effect
    ensures { result ≡ sub_effect insn.now operands }
{
    write_or_trap(insn.rd(), checked_subtract(operands.rs, operands.rt))
}

/// Subtract unsigned: no trap.
#[inline]
pub(crate) fn subu(insn: &Insn, operands: Operands) -> Effect
    ensures { result ≡ subu_effect insn.now operands }
{
    Effect::Write {
        register: insn.rd(),
        value: subtract(operands.rs, operands.rt),
    }
}

/// Add immediate: Ov on signed overflow.
#[inline]
pub(crate) fn addi(insn: &Insn, operands: Operands) -> Effect
    requires { IsTrue (fields_at insn.now.row).imm }
    ensures { result ≡ addi_effect insn.now operands }
{
    write_or_trap(insn.rt(), checked_add(operands.rs, extended(insn)))
}

/// Add immediate unsigned: no trap.
#[inline]
pub(crate) fn addiu(insn: &Insn, operands: Operands) -> Effect
    requires { IsTrue (fields_at insn.now.row).imm }
    ensures { result ≡ addiu_effect insn.now operands }
{
    Effect::Write {
        register: insn.rt(),
        value: word::add(operands.rs, extended(insn)),
    }
}
