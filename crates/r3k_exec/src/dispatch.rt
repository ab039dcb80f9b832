//! The effect of an instruction, by its name.

ghost use Rattle.std.specs.Prelude.{◌≡◌};
ghost use Rattle.r3k_table.specs.Mnemonics.{number_of};
ghost use Rattle.r3k_exec.specs.Effects.{effect_of};

use crate::arithmetic::{add, addi, addiu, addu, div, divu, mult, multu, sub, subu};
use crate::branches::{beq, bgez, bgezal, bgtz, blez, bltz, bltzal, bne, j, jal, jalr, jr};
use crate::control::{break_, mfc0, mtc0, rfe, syscall, tlbp, tlbr, tlbwi, tlbwr};
use crate::logic::{and, andi, lui, nor, or, ori, slt, slti, sltiu, sltu, xor, xori};
use crate::moves::{mfhi, mflo, mthi, mtlo};
use crate::operands::{Effect, Operands};
use crate::shifts::{sll, sllv, sra, srav, srl, srlv};
use crate::transfers::{lb, lbu, lh, lhu, lw, lwl, lwr, sb, sh, sw, swl, swr};
use r3k_decode::Insn;
use r3k_table::mnemonic::Mnemonic;
use r3k_table::rows;

macro_rules! by_name {
    (($name:ident, $insn:ident, $operands:ident) $(($mnemonic:ident, $function:ident, $mask:literal, $value:literal, $shape:ident))*) => {
        match $name {
            $(Mnemonic::$mnemonic => $function($insn, $operands),)*
        }
    };
}

/// What an instruction does with the values that it reads.
#[inline(always)]
pub fn effect(insn: &Insn, operands: Operands) -> Effect
    ensures { result ≡ effect_of insn.now operands }
{
    effect_by_name(insn.mnemonic(), insn, operands)
}

/// The same, where its name is at hand before all else of it.
#[inline(always)]
pub fn effect_by_name(name: Mnemonic, insn: &Insn, operands: Operands) -> Effect
    requires { number_of name ≡ insn.now.row }
    ensures { result ≡ effect_of insn.now operands }
{
    rows!(all by_name (name, insn, operands))
}
