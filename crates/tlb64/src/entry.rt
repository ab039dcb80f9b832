//! A translation entry, and what a lookup finds.

use r3k_word::field::field;

/// In EntryLo, G: the entry is of every process.
pub const GLOBAL: u32 = 0x0000_0100;

/// A translation entry: EntryHi, with VPN 31..12 and PID 11..6, and EntryLo, with PFN 31..12, N 11,
/// D 10, V 9 and G 8.
#[derive(Clone, Copy, Debug, PartialEq, Eq)]
pub struct Entry {
    pub hi: u32,
    pub lo: u32,
}

/// What a lookup finds: the lowest entry that matches, its place from 0 to 63, and whether more
/// than one matches.
#[derive(Clone, Copy, Debug, PartialEq, Eq)]
pub struct Found {
    pub index: u32,
    pub entry: Entry,
    pub several: bool,
}

impl Entry {
    ghost use Rattle.std.specs.Prelude.{◌≡◌};
    ghost use Rattle.tlb64.specs.Entries.{matches};

    /// Whether the entry is for the page of a virtual address, and global or of the process `pid`.
    #[inline]
    pub(crate) fn matches(&self, address: u32, pid: u32) -> bool
        ensures { result ≡ matches address pid self.now }
    {
        field::<31, 12>(self.hi) == field::<31, 12>(address)
            && (self.lo & GLOBAL != 0 || field::<11, 6>(self.hi) == pid)
    }
}
