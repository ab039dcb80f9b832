//! The text of a word.

ghost use Rattle.std.specs.Prelude.{◌≡◌, ◌≤◌, length, slice_get, IsSomeAnd};
ghost use Rattle.r3k_table.specs.Table.{instructions};
ghost use Rattle.r3k_table.specs.Mnemonics.{number_of};
ghost use Rattle.r3k_disasm.specs.Instruction.{text_of};

use crate::operand::{push_operands, push_word};
use arrayvec::ArrayString;
use r3k_decode::decode;
use r3k_table::mnemonic::Mnemonic;
use r3k_table::operand::operands;
use r3k_table::row::Shape;
use r3k_table::{row_name, rows};

macro_rules! by_name {
    (($instruction:ident) $(($mnemonic:ident, $name:ident, $mask:literal, $value:literal, $shape:ident))*) => {
        match $instruction {
            $(Mnemonic::$mnemonic => (row_name!($name), Shape::$shape),)*
        }
    };
}

// The name and the shape of an instruction.
fn name_and_shape(mnemonic: Mnemonic) -> (&'static str, Shape)
    ensures row { IsSomeAnd (slice_get instructions (number_of mnemonic))
        (λ r. (r.name ≡ result.0.now) × (r.shape ≡ result.1)) }
    ensures short { length result.0.now ≤ 7 }
{
    rows!(all by_name (mnemonic))
}

/// The text of a word at an address: the name of its row and its operands, or `.word` and the word where it has no row.
pub fn text(address: u32, word: u32) -> ArrayString<40>
    ensures { result.bytes ≡ text_of address word }
{
    let mut text = ArrayString::new();
    match decode(word) {
        None => {
            text.push_str(".word ");
            push_word(&mut text, 8, word);
        }
        Some(insn) => {
            let (name, shape) = name_and_shape(insn.mnemonic());
            text.push_str(name);
            push_operands(&mut text, " ", address, &insn, operands(shape));
        }
    }
    text
}
