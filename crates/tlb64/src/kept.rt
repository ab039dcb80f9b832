//! Lookups that are kept, so that an access to a page that was looked up before searches nothing.

ghost use Rattle.std.specs.Prelude.{◌≡◌, ◌<◌};
ghost use Rattle.tlb64.specs.Kept.{tag_of};

use r3k_word::field::field;

/// A lookup that found just one entry: the tag of the page and the process that were looked up, and EntryLo.
#[derive(Clone, Copy, Debug)]
pub(crate) struct Kept {
    pub tag: u32,
    pub lo: u32,
}

/// The lookups that are kept: those of data, and after them those of fetches.
pub(crate) const KEPT: usize = 16;

/// Nothing is kept: no lookup has this tag.
pub(crate) const NOTHING: Kept = Kept { tag: 0xFFF, lo: 0 };

/// The page of an address and the process of EntryHi as one number.
#[inline(always)]
pub(crate) fn tag(address: u32, hi: u32) -> u32
    ensures { result ≡ tag_of address hi }
{
    field::<31, 12>(address) * 4096 + field::<11, 6>(hi)
}

/// Where the lookup of an address is kept.
#[inline(always)]
pub(crate) fn slot(is_fetch: bool, address: u32) -> usize
    ensures { result < KEPT }
{
    let page = field::<31, 12>(address) as usize % 8;
    if is_fetch { 8 + page } else { page }
}
