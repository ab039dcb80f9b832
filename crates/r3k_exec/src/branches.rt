//! Branches and jumps. The instruction after each of them stands in its delay slot.

ghost use Rattle.std.specs.Prelude.{◌≡◌, IsTrue};
ghost use Rattle.r3k_decode.specs.Fields.{fields_at};
ghost use Rattle.r3k_exec.specs.Effects.{jr_effect, jalr_effect, bltz_effect, bgez_effect, bltzal_effect, bgezal_effect, j_effect, jal_effect, beq_effect, bne_effect, blez_effect, bgtz_effect, taken_target, has_sign_bit, return_address_of};
ghost use Rattle.r3k_exec.specs.declared.operands.Effect.TheVariants.{Jump, JumpAndLink};

use crate::operands::{Effect, Operands};
use r3k_decode::target::{branch_target, jump_target};
use r3k_decode::{Insn, Register};
use r3k_word::arithmetic::add;

// Whether the signed reading of a word is below 0.
#[inline]
fn is_negative(word: u32) -> bool
    ensures { result ≡ has_sign_bit word }
{
    word >= 1 << 31
}

// The address after the delay slot.
#[inline]
fn return_address(pc: u32) -> u32
    ensures { result ≡ return_address_of pc }
{
    add(pc, 8)
}

// Where a branch goes, if it is taken.
#[inline]
fn taken_target(taken: bool, insn: &Insn, operands: Operands) -> Option<u32>
    requires { IsTrue (fields_at insn.now.row).imm }
    ensures { result ≡ taken_target taken insn.now operands }
{
    if taken {
        Some(branch_target(operands.pc, insn.immediate()))
    } else {
        None
    }
}

// A branch, taken or not.
#[inline]
fn branch(taken: bool, insn: &Insn, operands: Operands) -> Effect
    requires { IsTrue (fields_at insn.now.row).imm }
    ensures { result ≡ Jump (taken_target taken insn.now operands) }
{
    Effect::Jump {
        target: taken_target(taken, insn, operands),
    }
}

// A branch that links, taken or not.
#[inline]
fn branch_and_link(taken: bool, insn: &Insn, operands: Operands) -> Effect
    requires { IsTrue (fields_at insn.now.row).imm }
    ensures { result ≡ JumpAndLink (taken_target taken insn.now operands) 31 (return_address_of operands.pc) }
{
    Effect::JumpAndLink {
        target: taken_target(taken, insn, operands),
        register: Register::new(31),
        value: return_address(operands.pc),
    }
}

/// Jump register.
#[inline]
pub(crate) fn jr(_insn: &Insn, operands: Operands) -> Effect
    ensures { result ≡ jr_effect _insn.now operands }
{
    Effect::Jump {
        target: Some(operands.rs),
    }
}

/// Jump and link register: to rs as it was read.
#[inline]
pub(crate) fn jalr(insn: &Insn, operands: Operands) -> Effect
    ensures { result ≡ jalr_effect insn.now operands }
{
    Effect::JumpAndLink {
        target: Some(operands.rs),
        register: insn.rd(),
        value: return_address(operands.pc),
    }
}

/// Branch on less than zero.
#[inline]
pub(crate) fn bltz(insn: &Insn, operands: Operands) -> Effect
    requires { IsTrue (fields_at insn.now.row).imm }
    ensures { result ≡ bltz_effect insn.now operands }
{
    branch(is_negative(operands.rs), insn, operands)
}

/// Branch on greater than or equal to zero.
#[inline]
pub(crate) fn bgez(insn: &Insn, operands: Operands) -> Effect
    requires { IsTrue (fields_at insn.now.row).imm }
    ensures { result ≡ bgez_effect insn.now operands }
{
    branch(!is_negative(operands.rs), insn, operands)
}

/// Branch on less than zero and link, taken or not.
#[inline]
pub(crate) fn bltzal(insn: &Insn, operands: Operands) -> Effect
    requires { IsTrue (fields_at insn.now.row).imm }
    ensures { result ≡ bltzal_effect insn.now operands }
{
    branch_and_link(is_negative(operands.rs), insn, operands)
}

/// Branch on greater than or equal to zero and link, taken or not.
#[inline]
pub(crate) fn bgezal(insn: &Insn, operands: Operands) -> Effect
    requires { IsTrue (fields_at insn.now.row).imm }
    ensures { result ≡ bgezal_effect insn.now operands }
{
    branch_and_link(!is_negative(operands.rs), insn, operands)
}

/// Jump.
#[inline]
pub(crate) fn j(insn: &Insn, operands: Operands) -> Effect
    requires { IsTrue (fields_at insn.now.row).index }
    ensures { result ≡ j_effect insn.now operands }
{
    Effect::Jump {
        target: Some(jump_target(operands.pc, insn.target())),
    }
}

/// Jump and link.
#[inline]
pub(crate) fn jal(insn: &Insn, operands: Operands) -> Effect
    requires { IsTrue (fields_at insn.now.row).index }
    ensures { result ≡ jal_effect insn.now operands }
{
    Effect::JumpAndLink {
        target: Some(jump_target(operands.pc, insn.target())),
        register: Register::new(31),
        value: return_address(operands.pc),
    }
}

/// Branch on equal.
#[inline]
pub(crate) fn beq(insn: &Insn, operands: Operands) -> Effect
    requires { IsTrue (fields_at insn.now.row).imm }
    ensures { result ≡ beq_effect insn.now operands }
{
    branch(operands.rs == operands.rt, insn, operands)
}

/// Branch on not equal.
#[inline]
pub(crate) fn bne(insn: &Insn, operands: Operands) -> Effect
    requires { IsTrue (fields_at insn.now.row).imm }
    ensures { result ≡ bne_effect insn.now operands }
{
    branch(operands.rs != operands.rt, insn, operands)
}

/// Branch on less than or equal to zero.
#[inline]
pub(crate) fn blez(insn: &Insn, operands: Operands) -> Effect
    requires { IsTrue (fields_at insn.now.row).imm }
    ensures { result ≡ blez_effect insn.now operands }
{
    branch(operands.rs == 0 || is_negative(operands.rs), insn, operands)
}

/// Branch on greater than zero.
#[inline]
pub(crate) fn bgtz(insn: &Insn, operands: Operands) -> Effect
    requires { IsTrue (fields_at insn.now.row).imm }
    ensures { result ≡ bgtz_effect insn.now operands }
{
    branch(
        !(operands.rs == 0 || is_negative(operands.rs)),
        insn,
        operands,
    )
}
