//! Decoding and encoding by the table.

ghost use Rattle.std.specs.Prelude.{◌≡◌};
ghost use Rattle.std.specs.Option.{option_map};
ghost use Rattle.r3k_table.specs.Mnemonics.{number_of};
ghost use Rattle.r3k_decode.specs.Decoding.{operation_of, word_of};
ghost use Rattle.r3k_decode.specs.Jump.{special_rows, regimm_rows, cop0_rows, other_rows, candidate_of, picked, said_at};

use crate::insn::Insn;
use r3k_table::mnemonic::Mnemonic;
use r3k_table::row::Shape;
use r3k_table::rows;

// The bits of the major opcode, and those that distinguish the rows of a group of major opcodes.
const OPCODE: u32 = 0xFC00_0000;

const SPECIAL: u32 = 0xFC00_003F;

const REGIMM: u32 = 0xFC1F_0000;

const COP0: u32 = 0xFFE0_003F;

macro_rules! by_value {
    (($bits:ident) $(($mnemonic:ident, $name:ident, $mask:literal, $value:literal, $shape:ident))*) => {
        match $bits {
            $($value => Some(Mnemonic::$mnemonic),)*
            _ => None,
        }
    };
}

#[inline(always)]
fn special(bits: u32) -> Option<Mnemonic>
    ensures { option_map number_of result ≡ picked special_rows bits }
{
    rows!(special by_value (bits))
}

#[inline(always)]
fn regimm(bits: u32) -> Option<Mnemonic>
    ensures { option_map number_of result ≡ picked regimm_rows bits }
{
    rows!(regimm by_value (bits))
}

#[inline(always)]
fn cop0(bits: u32) -> Option<Mnemonic>
    ensures { option_map number_of result ≡ picked cop0_rows bits }
{
    rows!(cop0 by_value (bits))
}

#[inline(always)]
fn other(bits: u32) -> Option<Mnemonic>
    ensures { option_map number_of result ≡ picked other_rows bits }
{
    rows!(other by_value (bits))
}

// The only instruction whose row a word may match.
#[inline(always)]
fn candidate(word: u32) -> Option<Mnemonic>
    ensures { option_map number_of result ≡ candidate_of word }
{
    match word & OPCODE {
        0 => special(word & SPECIAL),
        0x0400_0000 => regimm(word & REGIMM),
        0x4000_0000 => cop0(word & COP0),
        opcode => other(opcode),
    }
}

macro_rules! if_matches {
    (($word:ident, $found:ident) $(($mnemonic:ident, $name:ident, $mask:literal, $value:literal, $shape:ident))*) => {
        match $found {
            $(Mnemonic::$mnemonic => {
                if $word & $mask == $value {
                    Some(Insn::read(Mnemonic::$mnemonic, Shape::$shape, $word))
                } else {
                    None
                }
            })*
        }
    };
}

// What a word says as an instruction of this name, if it matches its row.
#[inline(always)]
fn read_by(mnemonic: Mnemonic, word: u32) -> Option<Insn>
    ensures { result ≡ said_at word (number_of mnemonic) }
{
    rows!(all if_matches (word, mnemonic))
}

/// The instruction that a word says: its row in the table and its operands, or `None` exactly where it has no row.
#[inline(always)]
#[tactic(auto, using(crate::proofs::Jumps::jumped))]
pub fn decode(word: u32) -> Option<Insn>
    ensures { result ≡ operation_of word }
{
    let mnemonic = candidate(word)?;
    read_by(mnemonic, word)
}

macro_rules! by_name {
    (($insn:ident) $(($mnemonic:ident, $name:ident, $mask:literal, $value:literal, $shape:ident))*) => {
        match $insn.mnemonic() {
            $(Mnemonic::$mnemonic => $value + $insn.placed(Shape::$shape),)*
        }
    };
}

/// The word of an instruction: the value of its row, with its fields where they stand.
pub fn encode(insn: &Insn) -> u32
    ensures { result ≡ word_of insn.now }
{
    rows!(all by_name (insn))
}
