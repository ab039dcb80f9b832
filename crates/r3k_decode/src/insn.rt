//! An instruction of the table.

ghost use Rattle.std.specs.Prelude.{◌≡◌, ◌<◌, ◌≤◌};
ghost use Rattle.r3k_table.specs.Table.{instructions};
ghost use Rattle.r3k_table.specs.Mnemonics.{number_of};
ghost use Rattle.r3k_decode.specs.Fields.{fields_at};
ghost use Rattle.r3k_decode.specs.Kept.{kept};

use crate::register::Register;
use r3k_table::mnemonic::Mnemonic;
use r3k_table::row::{Fields, Shape};
use r3k_table::rows;
use r3k_word::field::field;
use std::marker::Model;

/// An instruction: its mnemonic, and its fields. Each field fits its width, and is 0 where the shape of its row lacks it. It is small, as
/// many are kept.
#[derive(Clone, Copy, Debug)]
pub struct Insn {
    mnemonic: Mnemonic,
    rs: u8,
    rt: u8,
    rd: u8,
    // The one of `sa`, `imm`, `index` and `code` that it has, or 0.
    rest: u32,
}

impl Model for Insn {
    ghost use Rattle.r3k_decode.specs.Operation.{Operation, IsOperation};
    ghost use Rattle.r3k_decode.specs.Seen.{operation, inside, inside_again, IsInside};

    ghost Value = { Operation };

    ghost view = { operation };

    ghost invariant = { IsInside };

    ghost inverse = { inside };

    ghost inverse_ok = { inside_again };
}

// A field that an instruction has. One that it lacks is 0.
#[inline]
fn kept(has: bool, field: u32) -> u32
    ensures value { result ≡ kept has field }
    ensures within { result ≤ field }
{
    if has { field } else { 0 }
}

macro_rules! by_shape {
    (($mnemonic:ident) $(($name:ident, $text:ident, $mask:literal, $value:literal, $shape:ident))*) => {
        match $mnemonic {
            $(Mnemonic::$name => Shape::$shape,)*
        }
    };
}

// The fields that an instruction of this name has.
fn fields(mnemonic: Mnemonic) -> Fields
    ensures { result ≡ fields_at (number_of mnemonic) }
{
    let shape = rows!(all by_shape (mnemonic));
    shape.fields()
}

impl Insn {
    ghost use Rattle.std.specs.Prelude.{◌^◌, slice_get, IsSomeAnd, IsTrue};
    ghost use Rattle.r3k_decode.specs.Operation.{addiu_of, read_as, placed};

    /// What a word says as an instruction of this row and shape.
    #[inline]
    pub(crate) fn read(mnemonic: Mnemonic, shape: Shape, word: u32) -> Insn
        requires { IsSomeAnd (slice_get instructions (number_of mnemonic)) (λ r. r.shape ≡ shape) }
        ensures { result ≡ read_as (number_of mnemonic) shape word }
    {
        let has = shape.fields();
        Insn {
            mnemonic,
            rs: kept(has.rs, field::<25, 21>(word)) as u8,
            rt: kept(has.rt, field::<20, 16>(word)) as u8,
            rd: kept(has.rd, field::<15, 11>(word)) as u8,
            rest: kept(has.sa, field::<10, 6>(word))
                + kept(has.imm, field::<15, 0>(word))
                + kept(has.index, field::<25, 0>(word))
                + kept(has.code, field::<25, 6>(word)),
        }
    }

    /// The instruction `addiu rt, rs, imm`.
    pub fn addiu(rt: Register, rs: Register, imm: u16) -> Insn
        ensures { result ≡ addiu_of rt rs imm }
    {
        Insn {
            mnemonic: Mnemonic::Addiu,
            rs: rs.number(),
            rt: rt.number(),
            rd: 0,
            rest: u32::from(imm),
        }
    }

    /// Its fields where they stand in a word, by its row's shape.
    #[inline]
    pub(crate) fn placed(&self, shape: Shape) -> u32
        ensures value { result ≡ placed shape self.now }
        ensures within { result < 2 ^ 28 }
    {
        let has = shape.fields();
        let insn = *self;
        (kept(has.rs, u32::from(insn.rs)) << 21)
            + (kept(has.rt, u32::from(insn.rt)) << 16)
            + (kept(has.rd, u32::from(insn.rd)) << 11)
            + (kept(has.sa, u32::from(insn.sa())) << 6)
            + kept(has.imm, u32::from(insn.imm()))
            + kept(has.index, insn.index())
            + (kept(has.code, insn.code()) << 6)
    }

    /// Its mnemonic.
    #[inline]
    pub fn mnemonic(&self) -> Mnemonic
        ensures { number_of result ≡ self.now.row }
    {
        self.mnemonic
    }

    /// The field `rs`, bits 25 to 21.
    #[inline]
    pub fn rs(&self) -> Register
        ensures { result ≡ self.now.rs }
    {
        Register::new(self.rs)
    }

    /// The field `rt`, bits 20 to 16.
    #[inline]
    pub fn rt(&self) -> Register
        ensures { result ≡ self.now.rt }
    {
        Register::new(self.rt)
    }

    /// The field `rd`, bits 15 to 11.
    #[inline]
    pub fn rd(&self) -> Register
        ensures { result ≡ self.now.rd }
    {
        Register::new(self.rd)
    }

    /// The field `sa`, bits 10 to 6.
    pub fn sa(&self) -> u8
        ensures value { result ≡ self.now.sa }
        ensures within { result < 32 }
    {
        kept(fields(self.mnemonic).sa, self.rest) as u8
    }

    /// The same, of an instruction that has it.
    #[inline]
    pub fn shift(&self) -> u8
        requires { IsTrue (fields_at self.now.row).sa }
        ensures value { result ≡ self.now.sa }
        ensures within { result < 32 }
    {
        self.rest as u8
    }

    /// The field `imm`, bits 15 to 0.
    pub fn imm(&self) -> u16
        ensures { result ≡ self.now.imm }
    {
        kept(fields(self.mnemonic).imm, self.rest) as u16
    }

    /// The same, of an instruction that has it.
    #[inline]
    pub fn immediate(&self) -> u16
        requires { IsTrue (fields_at self.now.row).imm }
        ensures { result ≡ self.now.imm }
    {
        self.rest as u16
    }

    /// The field `index` of a jump, bits 25 to 0.
    pub fn index(&self) -> u32
        ensures value { result ≡ self.now.index }
        ensures within { result < 2 ^ 26 }
    {
        kept(fields(self.mnemonic).index, self.rest)
    }

    /// The same, of an instruction that has it.
    #[inline]
    pub fn target(&self) -> u32
        requires { IsTrue (fields_at self.now.row).index }
        ensures value { result ≡ self.now.index }
        ensures within { result < 2 ^ 26 }
    {
        self.rest
    }

    /// The field `code` of a trap, bits 25 to 6.
    pub fn code(&self) -> u32
        ensures value { result ≡ self.now.code }
        ensures within { result < 2 ^ 20 }
    {
        kept(fields(self.mnemonic).code, self.rest)
    }
}
