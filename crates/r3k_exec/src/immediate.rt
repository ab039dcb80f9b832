//! The immediate of an instruction.

ghost use Rattle.std.specs.Prelude.{◌≡◌, IsTrue};
ghost use Rattle.r3k_decode.specs.Fields.{fields_at};
ghost use Rattle.r3k_word.specs.Word.{sign_extended};

use r3k_decode::Insn;

/// The immediate, sign-extended.
#[inline]
pub(crate) fn extended(insn: &Insn) -> u32
    requires { IsTrue (fields_at insn.now.row).imm }
    ensures { result ≡ sign_extended 16 insn.now.imm }
{
    i32::from(insn.immediate().cast_signed()).cast_unsigned()
}
