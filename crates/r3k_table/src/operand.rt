//! How the operands of an instruction are written.

ghost use Rattle.std.specs.Prelude.{◌≡◌};
ghost use Rattle.r3k_table.specs.Operands.{operands_of};

use crate::row::Shape;

/// An operand of an instruction, as it is written.
#[derive(Clone, Copy, Debug, PartialEq, Eq)]
pub enum Operand {
    /// The register in the field `rs`.
    Rs,
    /// The register in the field `rt`.
    Rt,
    /// The register in the field `rd`.
    Rd,
    /// The register of coprocessor 0 in the field `rd`.
    Control,
    /// The field `sa`.
    Sa,
    /// The field `code`.
    Code,
    /// The field `imm` as a signed number.
    Signed,
    /// The field `imm` as an unsigned number.
    Unsigned,
    /// The target of a branch, given by the field `imm`.
    Branch,
    /// The target of a jump, given by the field `index`.
    Jump,
    /// The field `imm` as a signed number, and the register in the field `rs` in parentheses.
    Based,
}

/// The operands of a shape, in the order in which they are written.
pub fn operands(shape: Shape) -> &'static [Operand]
    ensures { result.now ≡ operands_of shape }
{
    match shape {
        Shape::A => &[Operand::Rd, Operand::Rt, Operand::Sa],
        Shape::B => &[Operand::Rd, Operand::Rt, Operand::Rs],
        Shape::C => &[Operand::Rs],
        Shape::D => &[Operand::Rd, Operand::Rs],
        Shape::E => &[Operand::Code],
        Shape::F => &[Operand::Rd],
        Shape::G => &[Operand::Rs, Operand::Rt],
        Shape::H => &[Operand::Rd, Operand::Rs, Operand::Rt],
        Shape::I => &[Operand::Rs, Operand::Branch],
        Shape::K => &[Operand::Jump],
        Shape::L => &[Operand::Rs, Operand::Rt, Operand::Branch],
        Shape::M => &[Operand::Rt, Operand::Rs, Operand::Signed],
        Shape::N => &[Operand::Rt, Operand::Rs, Operand::Unsigned],
        Shape::O => &[Operand::Rt, Operand::Unsigned],
        Shape::P => &[Operand::Rt, Operand::Based],
        Shape::Q => &[Operand::Rt, Operand::Control],
        Shape::Z => &[],
    }
}
