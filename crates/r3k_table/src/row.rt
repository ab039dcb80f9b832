//! What a row of the table holds.

ghost use Rattle.std.specs.Prelude.{◌≡◌};
ghost use Rattle.r3k_table.specs.Fields.{fields_of};

/// Which fields an instruction has, and how its operands are written.
#[derive(Clone, Copy, Debug, PartialEq, Eq)]
pub enum Shape {
    /// `rd, rt, sa`
    A,
    /// `rd, rt, rs`
    B,
    /// `rs`
    C,
    /// `rd, rs`
    D,
    /// `code`
    E,
    /// `rd`
    F,
    /// `rs, rt`
    G,
    /// `rd, rs, rt`
    H,
    /// `rs, target`
    I,
    /// `target`
    K,
    /// `rs, rt, target`
    L,
    /// `rt, rs, simm`
    M,
    /// `rt, rs, uimm`
    N,
    /// `rt, uimm`
    O,
    /// `rt, simm(rs)`
    P,
    /// `rt, cD`, a register of coprocessor 0 in the place of `rd`
    Q,
    /// no operands
    Z,
}

/// Which fields of a word an instruction has.
#[derive(Clone, Copy, Debug, PartialEq, Eq)]
pub struct Fields {
    pub rs: bool,
    pub rt: bool,
    pub rd: bool,
    pub sa: bool,
    pub imm: bool,
    pub index: bool,
    pub code: bool,
}

/// No field.
const NONE: Fields = Fields {
    rs: false,
    rt: false,
    rd: false,
    sa: false,
    imm: false,
    index: false,
    code: false,
};

impl Shape {
    /// The fields that hold its operands.
    #[inline]
    pub fn fields(self) -> Fields
        ensures { result ≡ fields_of self }
    {
        match self {
            Shape::A => Fields {
                rt: true,
                rd: true,
                sa: true,
                ..NONE
            },
            Shape::B | Shape::H => Fields {
                rs: true,
                rt: true,
                rd: true,
                ..NONE
            },
            Shape::C => Fields { rs: true, ..NONE },
            Shape::D => Fields {
                rs: true,
                rd: true,
                ..NONE
            },
            Shape::E => Fields { code: true, ..NONE },
            Shape::F => Fields { rd: true, ..NONE },
            Shape::G => Fields {
                rs: true,
                rt: true,
                ..NONE
            },
            Shape::I => Fields {
                rs: true,
                imm: true,
                ..NONE
            },
            Shape::K => Fields {
                index: true,
                ..NONE
            },
            Shape::L | Shape::M | Shape::N | Shape::P => Fields {
                rs: true,
                rt: true,
                imm: true,
                ..NONE
            },
            Shape::O => Fields {
                rt: true,
                imm: true,
                ..NONE
            },
            Shape::Q => Fields {
                rt: true,
                rd: true,
                ..NONE
            },
            Shape::Z => NONE,
        }
    }
}

/// An instruction: the words whose bits under `mask` are `value`.
#[derive(Clone, Copy, Debug)]
pub struct Row {
    pub mask: u32,
    pub value: u32,
    pub name: &'static str,
    pub shape: Shape,
}
