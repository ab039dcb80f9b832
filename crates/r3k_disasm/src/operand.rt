//! How operands are written.

ghost use Rattle.std.specs.Prelude.{◌≡◌, ◌+◌, ◌≤◌, ◌++◌, length, sum_by};
ghost use Rattle.arrayvec.specs.ArrayString.{array_string_len};
ghost use Rattle.r3k_disasm.specs.Instruction.{operand_text, operands_text, register_text, hexadecimal_text, most_bytes};

use crate::number::{Text, push_decimal, push_hexadecimal, push_signed};
use r3k_decode::target::{branch_target, jump_target};
use r3k_decode::{Insn, Register};
use r3k_table::operand::Operand;

/// Appends the operands of an instruction at an address, the first of them after a separator, and each other one after a comma
/// and a blank.
pub fn push_operands(
    text: &mut Text,
    separator: &str,
    address: u32,
    insn: &Insn,
    operands: &[Operand],
)
    requires separator { length separator.now ≤ 2 }
    requires room { array_string_len text.old + sum_by most_bytes operands.now ≤ 40 }
    ensures { text.new.bytes ≡
        text.old.bytes ++ operands_text separator.now address insn.now operands.now }
{
    if let [first, rest @ ..] = operands {
        text.push_str(separator);
        push_operand(text, address, insn, *first);
        push_operands(text, ", ", address, insn, rest);
    }
}

// Appends an operand of an instruction at an address.
fn push_operand(text: &mut Text, address: u32, insn: &Insn, operand: Operand)
    requires { array_string_len text.old + most_bytes operand ≤ 42 }
    ensures bytes { text.new.bytes ≡ text.old.bytes ++ operand_text address insn.now operand }
    ensures room { array_string_len text.new + 2 ≤ array_string_len text.old + most_bytes operand }
{
    match operand {
        Operand::Rs => push_register(text, insn.rs()),
        Operand::Rt => push_register(text, insn.rt()),
        Operand::Rd => push_register(text, insn.rd()),
        Operand::Control => {
            text.push_str("c");
            push_decimal(text, u32::from(insn.rd().number()));
        }
        Operand::Sa => push_decimal(text, u32::from(insn.sa())),
        Operand::Code => push_decimal(text, insn.code()),
        Operand::Signed => push_signed(text, insn.imm()),
        Operand::Unsigned => push_word(text, 4, u32::from(insn.imm())),
        Operand::Branch => push_word(text, 8, branch_target(address, insn.imm())),
        Operand::Jump => push_word(text, 8, jump_target(address, insn.index())),
        Operand::Based => {
            push_signed(text, insn.imm());
            text.push_str("(");
            push_register(text, insn.rs());
            text.push_str(")");
        }
    }
}

// Appends a register.
fn push_register(text: &mut Text, register: Register)
    requires { array_string_len text.old + 8 ≤ 40 }
    ensures bytes { text.new.bytes ≡ text.old.bytes ++ register_text register }
    ensures room { array_string_len text.new ≤ array_string_len text.old + 8 }
{
    text.push_str("r");
    push_decimal(text, u32::from(register.number()));
}

/// Appends 0x and the lowest `count` hexadecimal digits of a number.
pub fn push_word(text: &mut Text, count: u32, number: u32)
    requires { array_string_len text.old + (2 + count) ≤ 40 }
    ensures bytes { text.new.bytes ≡ text.old.bytes ++ hexadecimal_text count number }
    ensures len { array_string_len text.new ≡ array_string_len text.old + (2 + count) }
{
    text.push_str("0x");
    push_hexadecimal(text, count, number);
}
