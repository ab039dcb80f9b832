//! Where branches and jumps go.

ghost use Rattle.std.specs.Prelude.{◌≡◌, ◌<◌, ◌^◌};
ghost use Rattle.r3k_decode.specs.Target.{branch_target_of, jump_target_of};

use r3k_word::arithmetic::add;
use r3k_word::field::with_field;

/// The target of a branch at an address.
#[inline]
pub fn branch_target(address: u32, imm: u16) -> u32
    ensures { result ≡ branch_target_of address imm }
{
    let offset = i32::from(imm.cast_signed()).cast_unsigned() << 2;
    add(add(address, 4), offset)
}

/// The target of a jump at an address.
#[inline]
pub fn jump_target(address: u32, index: u32) -> u32
    requires { index < 2 ^ 26 }
    ensures { result ≡ jump_target_of address index }
{
    with_field::<27, 0>(add(address, 4), index << 2)
}
