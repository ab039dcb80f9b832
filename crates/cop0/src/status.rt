//! Status and Cause: their bits, what an exception does to them, and where handlers stand.

ghost use Rattle.std.specs.Prelude.{◌≡◌};
ghost use Rattle.cop0.specs.Exception.{vector_of};
ghost use Rattle.cop0.specs.Status.{pushed, popped, caused};

use crate::exception::{Exc, ExcCode};
use r3k_word::field::{field, with_field};

/// In Status, CU0: coprocessor 0 is usable in user mode.
pub(crate) const CU0: u32 = 0x1000_0000;

/// In Status, BEV: handlers stand in ROM.
pub(crate) const BEV: u32 = 0x0040_0000;

/// In Status, TS: several entries matched an address.
pub(crate) const TS: u32 = 0x0020_0000;

/// In Status, CM: the last load of the isolated cache missed.
pub(crate) const CM: u32 = 0x0008_0000;

/// In Status, SwC: the isolated cache is the second array.
pub(crate) const SWC: u32 = 0x0002_0000;

/// In Status, IsC: loads and stores go to the isolated cache.
pub(crate) const ISC: u32 = 0x0001_0000;

/// In Status, KUc: the processor is in user mode.
pub(crate) const KUC: u32 = 0x0000_0002;

/// In Status, IEc: interrupts are enabled.
pub(crate) const IEC: u32 = 0x0000_0001;

/// In Cause the pending interrupts, and in Status their masks.
pub(crate) const INTERRUPTS: u32 = 0x0000_FF00;

/// In Cause, BD: the instruction stood in a delay slot.
pub(crate) const BD: u32 = 0x8000_0000;

/// The handler of user misses, and that of all else.
pub(crate) const USER_MISS_VECTOR: u32 = 0x8000_0000;

pub(crate) const GENERAL_VECTOR: u32 = 0x8000_0080;

/// The same in ROM.
pub(crate) const ROM_USER_MISS_VECTOR: u32 = 0xBFC0_0100;

pub(crate) const ROM_GENERAL_VECTOR: u32 = 0xBFC0_0180;

/// Status when an exception is taken: the previous mode and enable become the old ones, the present ones the previous, and
/// the present ones are kernel mode with interrupts off.
#[inline]
pub(crate) fn pushed(status: u32) -> u32
    ensures { result ≡ pushed status }
{
    with_field::<5, 0>(status, field::<3, 0>(status) << 2)
}

/// Status after a return from an exception.
#[inline]
pub(crate) fn popped(status: u32) -> u32
    ensures { result ≡ popped status }
{
    with_field::<3, 0>(status, field::<5, 2>(status))
}

/// Cause when an exception is taken. The pending interrupts stay.
#[inline]
pub(crate) fn caused(cause: u32, delay: bool, code: ExcCode) -> u32
    ensures { result ≡ caused cause delay code }
{
    (if delay { BD } else { 0 })
        + (code.coprocessor() << 28)
        + (cause & INTERRUPTS)
        + (code.number() << 2)
}

/// Where the handler stands: in ROM as long as BEV is 1.
#[inline]
pub(crate) fn vector(status: u32, refill: bool) -> u32
    ensures { result ≡ vector_of status refill }
{
    match (status & BEV != 0, refill) {
        (true, true) => ROM_USER_MISS_VECTOR,
        (true, false) => ROM_GENERAL_VECTOR,
        (false, true) => USER_MISS_VECTOR,
        (false, false) => GENERAL_VECTOR,
    }
}
