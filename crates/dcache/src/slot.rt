//! A slot of the isolated cache, and where an address finds its own.

ghost use Rattle.std.specs.Prelude.{◌≡◌, ◌<◌};
ghost use Rattle.dcache.specs.Arrays.{place_of, tag_of};

/// The slots of an array, of one word each.
pub const SLOTS: u32 = 16_384;

/// The bytes after which addresses share a slot again, with the next tag.
pub const TAG_BYTES: u32 = 4 * SLOTS;

/// A slot: its word, the tag of the word's address, and whether both are valid.
#[derive(Clone, Copy, Debug, PartialEq, Eq)]
pub struct Slot {
    pub word: u32,
    pub tag: u16,
    pub valid: bool,
}

/// The number of the slot of a physical address.
#[inline]
pub(crate) fn place(address: u32) -> usize
    ensures value { result ≡ place_of address }
    ensures within { result < SLOTS }
{
    (address / 4 % SLOTS) as usize
}

/// The tag of a physical address.
#[inline]
pub(crate) fn tag(address: u32) -> u16
    ensures { result ≡ tag_of address }
{
    (address / TAG_BYTES) as u16
}
