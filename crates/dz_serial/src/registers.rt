//! The registers: their offsets, and their bits as masks.

ghost use Rattle.std.specs.Prelude.{◌≡◌, ◌≤◌};
ghost use Rattle.dz_serial.specs.Bits.{flag_of};

/// Offset of the control and status register.
pub const CSR: u32 = 0;

/// Offset of the receiver buffer, which is read.
pub const RBUF: u32 = 8;

/// Offset of the line parameters, which are written.
pub(crate) const LPR: u32 = 8;

/// Offset of the transmitter control register.
pub const TCR: u32 = 16;

/// Offset of the modem status, which is read as 0.
pub const MSR: u32 = 24;

/// Offset of the transmitter data, which is written.
pub(crate) const TDR: u32 = 24;

/// In CSR: line TLINE waits for a byte to send.
pub(crate) const TRDY: u32 = 0x8000;

/// In CSR: TRDY raises the interrupt line.
pub(crate) const TIE: u32 = 0x4000;

/// In CSR: the lower of the two bits of TLINE.
pub(crate) const TLINE: u32 = 0x0100;

/// In CSR: the silo is not empty.
pub(crate) const RDONE: u32 = 0x0080;

/// In CSR: RDONE raises the interrupt line.
pub(crate) const RIE: u32 = 0x0040;

/// In CSR: master scan enable.
pub(crate) const MSE: u32 = 0x0020;

/// In CSR: returns the part to reset.
pub(crate) const CLR: u32 = 0x0010;

/// In CSR: maintenance mode, without effect.
pub(crate) const MAINT: u32 = 0x0008;

/// In RBUF: there is a character.
pub(crate) const DVAL: u32 = 0x8000;

/// In RBUF: bytes of the line were lost just before this one.
pub(crate) const OERR: u32 = 0x4000;

/// In RBUF: the character has a framing error.
pub(crate) const FERR: u32 = 0x2000;

/// In RBUF: the lower of the two bits of the character's line.
pub(crate) const RX_LINE: u32 = 0x0100;

/// In LPR: turns the receiver on.
pub(crate) const RX_ENABLE: u32 = 0x1000;

/// In TCR: each line may send.
pub(crate) const LINE_0: u32 = 1;

pub(crate) const LINE_1: u32 = 2;

pub(crate) const LINE_2: u32 = 4;

pub(crate) const LINE_3: u32 = 8;

/// In the lanes of a write: the lowest byte of the word, and the one above it, are covered.
pub(crate) const BYTE_0: u8 = 1;

pub(crate) const BYTE_1: u8 = 2;

/// The bits of a mask where `set`, or else 0.
#[inline]
pub(crate) fn flag(mask: u32, set: bool) -> u32
    ensures value { result ≡ flag_of mask set }
    ensures fits { result ≤ mask }
{
    if set { mask } else { 0 }
}
