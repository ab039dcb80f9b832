//! The list of instructions, in one macro.

ghost use Rattle.std.specs.Prelude.{◌≡◌, map};
ghost use Rattle.r3k_table.specs.Table.{instructions};
ghost use Rattle.r3k_table.specs.View.{view};

use crate::row::{Row, Shape};

/// Expands to `then!` of the arguments and the rows of a group: `special` (major opcode 0), `regimm` (major opcode 1),
/// `cop0` (major opcode 16), `other`, or `all` in the order of [`ROWS`]. A row stands as its variant of
/// `Mnemonic`, its name, its mask, its value and its shape.
#[macro_export]
macro_rules! rows {
    ($group:ident $then:ident $args:tt) => {
        $crate::rows_of! { $group $then $args
            special [
                (Sll, sll, 0xFFE0_003F, 0x0000_0000, A)
                (Srl, srl, 0xFFE0_003F, 0x0000_0002, A)
                (Sra, sra, 0xFFE0_003F, 0x0000_0003, A)
                (Sllv, sllv, 0xFC00_07FF, 0x0000_0004, B)
                (Srlv, srlv, 0xFC00_07FF, 0x0000_0006, B)
                (Srav, srav, 0xFC00_07FF, 0x0000_0007, B)
                (Jr, jr, 0xFC1F_FFFF, 0x0000_0008, C)
                (Jalr, jalr, 0xFC1F_07FF, 0x0000_0009, D)
                (Syscall, syscall, 0xFC00_003F, 0x0000_000C, E)
                (Break, break_, 0xFC00_003F, 0x0000_000D, E)
                (Mfhi, mfhi, 0xFFFF_07FF, 0x0000_0010, F)
                (Mflo, mflo, 0xFFFF_07FF, 0x0000_0012, F)
                (Mthi, mthi, 0xFC1F_FFFF, 0x0000_0011, C)
                (Mtlo, mtlo, 0xFC1F_FFFF, 0x0000_0013, C)
                (Mult, mult, 0xFC00_FFFF, 0x0000_0018, G)
                (Multu, multu, 0xFC00_FFFF, 0x0000_0019, G)
                (Div, div, 0xFC00_FFFF, 0x0000_001A, G)
                (Divu, divu, 0xFC00_FFFF, 0x0000_001B, G)
                (Add, add, 0xFC00_07FF, 0x0000_0020, H)
                (Addu, addu, 0xFC00_07FF, 0x0000_0021, H)
                (Sub, sub, 0xFC00_07FF, 0x0000_0022, H)
                (Subu, subu, 0xFC00_07FF, 0x0000_0023, H)
                (And, and, 0xFC00_07FF, 0x0000_0024, H)
                (Or, or, 0xFC00_07FF, 0x0000_0025, H)
                (Xor, xor, 0xFC00_07FF, 0x0000_0026, H)
                (Nor, nor, 0xFC00_07FF, 0x0000_0027, H)
                (Slt, slt, 0xFC00_07FF, 0x0000_002A, H)
                (Sltu, sltu, 0xFC00_07FF, 0x0000_002B, H)
            ]
            regimm [
                (Bltz, bltz, 0xFC1F_0000, 0x0400_0000, I)
                (Bgez, bgez, 0xFC1F_0000, 0x0401_0000, I)
                (Bltzal, bltzal, 0xFC1F_0000, 0x0410_0000, I)
                (Bgezal, bgezal, 0xFC1F_0000, 0x0411_0000, I)
            ]
            other [
                (J, j, 0xFC00_0000, 0x0800_0000, K)
                (Jal, jal, 0xFC00_0000, 0x0C00_0000, K)
                (Beq, beq, 0xFC00_0000, 0x1000_0000, L)
                (Bne, bne, 0xFC00_0000, 0x1400_0000, L)
                (Blez, blez, 0xFC1F_0000, 0x1800_0000, I)
                (Bgtz, bgtz, 0xFC1F_0000, 0x1C00_0000, I)
                (Addi, addi, 0xFC00_0000, 0x2000_0000, M)
                (Addiu, addiu, 0xFC00_0000, 0x2400_0000, M)
                (Slti, slti, 0xFC00_0000, 0x2800_0000, M)
                (Sltiu, sltiu, 0xFC00_0000, 0x2C00_0000, M)
                (Andi, andi, 0xFC00_0000, 0x3000_0000, N)
                (Ori, ori, 0xFC00_0000, 0x3400_0000, N)
                (Xori, xori, 0xFC00_0000, 0x3800_0000, N)
                (Lui, lui, 0xFFE0_0000, 0x3C00_0000, O)
            ]
            cop0 [
                (Mfc0, mfc0, 0xFFE0_07FF, 0x4000_0000, Q)
                (Mtc0, mtc0, 0xFFE0_07FF, 0x4080_0000, Q)
                (Tlbr, tlbr, 0xFFFF_FFFF, 0x4200_0001, Z)
                (Tlbwi, tlbwi, 0xFFFF_FFFF, 0x4200_0002, Z)
                (Tlbwr, tlbwr, 0xFFFF_FFFF, 0x4200_0006, Z)
                (Tlbp, tlbp, 0xFFFF_FFFF, 0x4200_0008, Z)
                (Rfe, rfe, 0xFFFF_FFFF, 0x4200_0010, Z)
            ]
            other [
                (Lb, lb, 0xFC00_0000, 0x8000_0000, P)
                (Lh, lh, 0xFC00_0000, 0x8400_0000, P)
                (Lwl, lwl, 0xFC00_0000, 0x8800_0000, P)
                (Lw, lw, 0xFC00_0000, 0x8C00_0000, P)
                (Lbu, lbu, 0xFC00_0000, 0x9000_0000, P)
                (Lhu, lhu, 0xFC00_0000, 0x9400_0000, P)
                (Lwr, lwr, 0xFC00_0000, 0x9800_0000, P)
                (Sb, sb, 0xFC00_0000, 0xA000_0000, P)
                (Sh, sh, 0xFC00_0000, 0xA400_0000, P)
                (Swl, swl, 0xFC00_0000, 0xA800_0000, P)
                (Sw, sw, 0xFC00_0000, 0xAC00_0000, P)
                (Swr, swr, 0xFC00_0000, 0xB800_0000, P)
            ]
        }
    };
}

/// Picks the rows of a group for [`rows!`].
#[macro_export]
macro_rules! rows_of {
    (special $then:ident $args:tt special [$($row:tt)*] $($rest:tt)*) => {
        $then! { $args $($row)* }
    };
    (regimm $then:ident $args:tt special $a:tt regimm [$($row:tt)*] $($rest:tt)*) => {
        $then! { $args $($row)* }
    };
    (cop0 $then:ident $args:tt special $a:tt regimm $b:tt other $c:tt cop0 [$($row:tt)*] $($rest:tt)*) => {
        $then! { $args $($row)* }
    };
    (other $then:ident $args:tt special $a:tt regimm $b:tt other [$($row:tt)*] cop0 $d:tt other [$($last:tt)*]) => {
        $then! { $args $($row)* $($last)* }
    };
    (all $then:ident $args:tt $($group:ident [$($row:tt)*])*) => {
        $then! { $args $($($row)*)* }
    };
}

/// The name of a row as text. `break` is a word of the language, so its row is written `break_`.
#[macro_export]
macro_rules! row_name {
    (break_) => {
        "break"
    };
    ($name:ident) => {
        stringify!($name)
    };
}

macro_rules! table {
    (() $(($mnemonic:ident, $name:ident, $mask:literal, $value:literal, $shape:ident))*) => {
        [$(Row { mask: $mask, value: $value, name: row_name!($name), shape: Shape::$shape }),*]
    };
}

/// The instructions, in the order of the manual.
pub static ROWS: [Row; 65] = rows!(all table ());

/// The table: [`ROWS`], which is that of the definition.
pub fn table() -> &'static [Row; 65]
    ensures { map view result.now ≡ instructions }
{
    &ROWS
}
