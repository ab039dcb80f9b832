//! The numbers of the registers, and the bits of each that a write changes.

pub const INDEX: u8 = 0;

pub const RANDOM: u8 = 1;

pub const ENTRY_LO: u8 = 2;

pub const CONTEXT: u8 = 4;

pub const BAD_VADDR: u8 = 8;

pub const ENTRY_HI: u8 = 10;

pub const STATUS: u8 = 12;

pub const CAUSE: u8 = 13;

pub const EPC: u8 = 14;

/// The processor's revision, which is constant.
pub const PRID: u8 = 15;

/// Index: the place of an entry.
pub(crate) const INDEX_MASK: u32 = 0x0000_3F00;

/// EntryLo: PFN, N, D, V and G, the fields of an entry.
pub(crate) const ENTRY_LO_MASK: u32 = 0xFFFF_FF00;

/// Context: PTEBase.
pub(crate) const CONTEXT_MASK: u32 = 0xFFE0_0000;

/// EntryHi: VPN and PID, the fields of an entry.
pub(crate) const ENTRY_HI_MASK: u32 = 0xFFFF_FFC0;

/// Status: all its bits but TS and CM.
pub(crate) const STATUS_MASK: u32 = 0x1047_FF3F;

/// Cause: the two software interrupts.
pub(crate) const CAUSE_MASK: u32 = 0x0000_0300;

/// What PRId reads.
pub(crate) const REVISION: u32 = 0x0000_0220;
