//! The widths of loads and stores, and the bytes of the aligned word that each picks or covers. Bytes stand in
//! little-endian order.

ghost use Rattle.std.specs.Prelude.{◌≡◌, ◌<◌, ◌%◌};
ghost use Rattle.r3k_exec.specs.Access.{covering, loaded, is_aligned_load, is_aligned_store, merged_left, merged_right, stored};

use r3k_word::field::sign;

/// What a load makes of the aligned word that its address stands in. The last two merge it with the register.
#[derive(Clone, Copy, Debug, PartialEq, Eq)]
pub enum LoadKind {
    /// lb
    Byte,
    /// lbu
    ByteUnsigned,
    /// lh
    Half,
    /// lhu
    HalfUnsigned,
    /// lw
    Word,
    /// lwl
    Left,
    /// lwr
    Right,
}

/// Which bytes of a register a store puts into which of the aligned word that its address stands in.
#[derive(Clone, Copy, Debug, PartialEq, Eq)]
pub enum StoreKind {
    /// sb
    Byte,
    /// sh
    Half,
    /// sw
    Word,
    /// swl
    Left,
    /// swr
    Right,
}

/// A word of which some bytes are stored: bit k of `lanes` says that byte k is covered. The others are 0.
#[derive(Clone, Copy, Debug, PartialEq, Eq)]
pub struct Covered {
    pub word: u32,
    pub lanes: u8,
}

impl LoadKind {
    /// Whether a load of this kind may have this address.
    #[inline]
    pub fn is_aligned(self, address: u32) -> bool
        ensures { result ≡ is_aligned_load self address }
    {
        match self {
            LoadKind::Half | LoadKind::HalfUnsigned => address % 2 == 0,
            LoadKind::Word => address % 4 == 0,
            _ => true,
        }
    }

    /// What a load of this kind at this address gives of the aligned word there. Those that merge keep bytes of `kept`, the
    /// register's value.
    #[inline(always)]
    pub fn loaded(self, address: u32, word: u32, kept: u32) -> u32
        ensures { result ≡ loaded self (address % 4) word kept }
    {
        // Most are of words.
        match self {
            LoadKind::Word => word,
            _ => self.any_loaded(address, word, kept),
        }
    }

    // The same, for any kind.
    #[inline]
    fn any_loaded(self, address: u32, word: u32, kept: u32) -> u32
        ensures { result ≡ loaded self (address % 4) word kept }
    {
        let byte = address % 4;
        let down = word >> (8 * byte);
        match self {
            LoadKind::Byte => sign::<8>(down & 0xFF),
            LoadKind::ByteUnsigned => down & 0xFF,
            LoadKind::Half => sign::<16>(down & 0xFFFF),
            LoadKind::HalfUnsigned => down & 0xFFFF,
            LoadKind::Word => word,
            LoadKind::Left => left(byte, word, kept),
            LoadKind::Right => right(byte, word, kept),
        }
    }
}

// The low bytes of the word on top, and the others kept.
#[inline]
fn left(byte: u32, word: u32, kept: u32) -> u32
    requires { byte < 4 }
    ensures { result ≡ merged_left byte word kept }
{
    match byte {
        0 => (word << 24) + (kept & 0x00FF_FFFF),
        1 => (word << 16) + (kept & 0xFFFF),
        2 => (word << 8) + (kept & 0xFF),
        _ => word,
    }
}

// The high bytes of the word below, and the others kept.
#[inline]
fn right(byte: u32, word: u32, kept: u32) -> u32
    requires { byte < 4 }
    ensures { result ≡ merged_right byte word kept }
{
    match byte {
        0 => word,
        1 => (word >> 8) + (kept >> 24 << 24),
        2 => (word >> 16) + (kept >> 16 << 16),
        _ => (word >> 24) + (kept >> 8 << 8),
    }
}

impl StoreKind {
    /// Whether a store of this kind may have this address.
    #[inline]
    pub fn is_aligned(self, address: u32) -> bool
        ensures { result ≡ is_aligned_store self address }
    {
        match self {
            StoreKind::Half => address % 2 == 0,
            StoreKind::Word => address % 4 == 0,
            _ => true,
        }
    }

    /// What a store of this kind of a register's value puts into the aligned word of this address. Bytes that would stand after
    /// the word are dropped.
    #[inline(always)]
    pub fn stored(self, address: u32, value: u32) -> Covered
        ensures { result ≡ stored self (address % 4) value }
    {
        match self {
            StoreKind::Word => covering(value, 15),
            _ => self.any_stored(address, value),
        }
    }

    // The same, for any kind.
    #[inline]
    fn any_stored(self, address: u32, value: u32) -> Covered
        ensures { result ≡ stored self (address % 4) value }
    {
        let byte = address % 4;
        match self {
            StoreKind::Byte => covering((value % 0x100) << (8 * byte), 1 << byte),
            StoreKind::Half => covering((value % 0x1_0000) << (8 * byte), (3 << byte) % 16),
            StoreKind::Word => covering(value, 15),
            StoreKind::Left => covering(value >> (24 - 8 * byte), (2 << byte) - 1),
            StoreKind::Right => covering(value << (8 * byte), 16 - (1 << byte)),
        }
    }
}

#[inline]
fn covering(word: u32, lanes: u8) -> Covered
    ensures { result ≡ covering word lanes }
{
    Covered { word, lanes }
}
