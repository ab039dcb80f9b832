//! The board's control and status register: its bits as masks.

ghost use Rattle.std.specs.Prelude.{◌≡◌, ◌≤◌};
ghost use Rattle.dz_serial.specs.Bits.{flag_of};

/// The enable of line 0. Those of the other seven lines are the bits above it.
pub(crate) const ENABLE: u32 = 0x0001_0000;

/// Among the lines, that of the serial part.
pub(crate) const SERIAL_LINE: u8 = 0x80;

/// Among the lines, the external ones.
pub(crate) const LINE_0: u8 = 1;

pub(crate) const LINE_1: u8 = 2;

pub(crate) const LINE_2: u8 = 4;

/// In the lanes of a store: the lowest byte of the word is covered.
pub(crate) const BYTE_0: u8 = 1;

/// In the lanes of a store: the byte of the enables is covered.
pub(crate) const BYTE_2: u8 = 4;

/// The bits of a mask where `set`, or else 0.
#[inline]
pub(crate) fn flag(mask: u8, set: bool) -> u8
    ensures value { result ≡ flag_of mask set }
    ensures fits { result ≤ mask }
{
    if set { mask } else { 0 }
}
