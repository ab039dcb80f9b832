//! The meaning of an address.

ghost use Rattle.std.specs.Prelude.{◌<◌, ◌≡◌, false, true, IfSome, Ok};
ghost use Rattle.tlb64.specs.Kept.{IsSole};
ghost use Rattle.r3k_machine.specs.declared.address.Segment.TheVariants.{Mapped};
ghost use Rattle.r3k_machine.specs.Address.{address_error, answer_of_entry, answer_of_low, found_for, lets_through, low_of, meaning, met, miss, segment_of, several_of, where_at, with_several};

use crate::exception::Exception;
use crate::state::Core;
use cop0::number::ENTRY_HI;
use r3k_word::bits::merge;
use r3k_word::field::field;

/// The first address of kseg0, which is unmapped and cacheable. Below it lies kuseg, which is mapped.
pub const KSEG0: u32 = 0x8000_0000;

/// The first address of kseg1, which is unmapped and uncached.
pub const KSEG1: u32 = 0xA000_0000;

/// The first address of kseg2, which is mapped.
pub const KSEG2: u32 = 0xC000_0000;

/// In EntryLo, N: the page is uncached.
pub(crate) const UNCACHED: u32 = 0x800;

/// In EntryLo, D: the page is dirty, which means that it may be written.
pub(crate) const DIRTY: u32 = 0x400;

/// In EntryLo, V: the entry is valid.
pub(crate) const VALID: u32 = 0x200;

/// In an address, the offset in its page.
pub(crate) const OFFSET: u32 = 0xFFF;

/// What an address is used for.
#[derive(Clone, Copy, Debug, PartialEq, Eq)]
pub(crate) enum Use {
    Fetch,
    Load,
    Store,
}

/// A physical address, and whether it is cacheable.
#[derive(Clone, Copy, Debug, PartialEq, Eq)]
pub(crate) struct Physical {
    pub(crate) address: u32,
    pub(crate) cacheable: bool,
}

/// Where an address lies.
#[derive(Clone, Copy, Debug, PartialEq, Eq)]
pub(crate) enum Segment {
    /// It is misaligned, or not for user mode.
    Forbidden,
    /// In kseg0 or kseg1.
    Unmapped(Physical),
    /// In kuseg or kseg2.
    Mapped,
}

/// Where an address leads a load of one byte.
#[derive(Clone, Copy, Debug, PartialEq, Eq)]
pub enum Where {
    /// To a physical address that is cacheable.
    Cached(u32),
    /// To one that is not.
    Uncached(u32),
    /// To AdEL.
    Adel,
    /// To TLBL, at the handler for user misses.
    Refill,
    /// To TLBL, at the general handler.
    Tlbl,
}

impl Use {
    // The exception of a forbidden address.
    #[inline(always)]
    fn address_error(self, address: u32) -> Exception
        ensures { result ≡ address_error self address }
    {
        match self {
            Use::Fetch | Use::Load => Exception::AddressErrorLoad(address),
            Use::Store => Exception::AddressErrorStore(address),
        }
    }

    // The exception of an address without a valid entry.
    #[inline(always)]
    fn miss(self, address: u32, refill: bool) -> Exception
        ensures { result ≡ miss self address refill }
    {
        match self {
            Use::Fetch | Use::Load => Exception::TlbLoad { address, refill },
            Use::Store => Exception::TlbStore { address, refill },
        }
    }

    // Whether an entry with this EntryLo lets the access through.
    #[inline(always)]
    fn is_let_through(self, lo: u32) -> bool
        ensures { result ≡ lets_through self lo }
    {
        match self {
            Use::Fetch | Use::Load => true,
            Use::Store => lo & DIRTY != 0,
        }
    }
}

// What the entry of its page, which has this EntryLo, makes of an address.
#[inline(always)]
fn by_entry(access: Use, address: u32, lo: u32) -> Result<Physical, Exception>
    ensures { result ≡ answer_of_entry access address lo }
{
    if lo & VALID == 0 {
        return Err(access.miss(address, false));
    }
    if !access.is_let_through(lo) {
        return Err(Exception::Modification(address));
    }
    Ok(Physical {
        address: merge(OFFSET, lo, address),
        cacheable: lo & UNCACHED == 0,
    })
}

// What a lookup makes of an address, by EntryLo of what it found.
#[inline(always)]
fn by_low(access: Use, address: u32, low: Option<u32>) -> Result<Physical, Exception>
    ensures { result ≡ answer_of_low access address low }
{
    match low {
        Some(lo) => by_entry(access, address, lo),
        None => Err(access.miss(address, address < KSEG0)),
    }
}

impl Core {
    // Where an address lies.
    #[inline(always)]
    pub(crate) fn segment(&self, aligned: bool, address: u32) -> Segment
        ensures { result ≡ segment_of self.now.cop0 aligned address }
    {
        if !aligned || self.cop0().in_user_mode() && address >= KSEG0 {
            return Segment::Forbidden;
        }
        if address >= KSEG0 && address < KSEG2 {
            return Segment::Unmapped(Physical {
                address: address & 0x1FFF_FFFF,
                cacheable: address < KSEG1,
            });
        }
        Segment::Mapped
    }

    // EntryLo of the entry of a mapped address, if there is one. TS is set where several match.
    #[inline(never)]
    fn looked_up(&mut self, access: Use, address: u32) -> Option<u32>
        ensures low { result ≡ low_of (found_for self.old address) }
        ensures core { self.new ≡ with_several self.old (several_of (found_for self.old address)) }
    {
        let hi = self.processor.cop0.read(ENTRY_HI);
        let found = self.tlb.translate(access == Use::Fetch, address, hi)?;
        if found.several {
            self.processor.cop0.set_ts();
        }
        Some(found.entry.lo)
    }

    // The same, without a search where the page was looked up before. It is one number, so that a step that needs no search
    // pays little for the call.
    #[inline(always)]
    fn entry_low(&mut self, access: Use, address: u32) -> Option<u32>
        ensures low { result ≡ low_of (found_for self.old address) }
        ensures core { self.new ≡ with_several self.old (several_of (found_for self.old address)) }
    {
        match self.kept_low(access, address) {
            Some(lo) => Some(lo),
            None => self.looked_up(access, address),
        }
    }

    // What a mapped address means.
    #[inline(always)]
    fn mapped(&mut self, access: Use, address: u32) -> Result<Physical, Exception>
        ensures answer { result ≡ answer_of_low access address (low_of (found_for self.old address)) }
        ensures core { self.new ≡ with_several self.old (several_of (found_for self.old address)) }
    {
        let low = self.entry_low(access, address);
        by_low(access, address, low)
    }

    /// The physical address that an address means, or its exception.
    #[tactic(auto, unfolding(crate::specs::Address::meaning))]
    #[inline(always)]
    pub(crate) fn physical(
        &mut self,
        access: Use,
        aligned: bool,
        address: u32,
    ) -> Result<Physical, Exception>
        ensures answer { result ≡ (meaning self.old access aligned address).answer }
        ensures core { self.new ≡ met self.old (meaning self.old access aligned address) }
    {
        match self.segment(aligned, address) {
            Segment::Forbidden => Err(access.address_error(address)),
            Segment::Unmapped(physical) => Ok(physical),
            Segment::Mapped => self.mapped(access, address),
        }
    }

    // EntryLo of the one entry of a mapped address. It is searched for where the page was not looked up before.
    #[inline(always)]
    fn sole_low(&mut self, access: Use, address: u32) -> Option<u32>
        ensures low { IfSome result (IsSole self.old.entries address self.old.cop0.entry_hi) }
        ensures core { self.new ≡ self.old }
    {
        match self.kept_low(access, address) {
            Some(lo) => Some(lo),
            None => self.searched_low(access, address),
        }
    }

    // The same, by a search.
    #[inline(never)]
    pub(crate) fn searched_low(&mut self, access: Use, address: u32) -> Option<u32>
        ensures low { IfSome result (IsSole self.old.entries address self.old.cop0.entry_hi) }
        ensures core { self.new ≡ self.old }
    {
        let hi = self.processor.cop0.read(ENTRY_HI);
        let found = self.tlb.translate(access == Use::Fetch, address, hi)?;
        if found.several {
            return None;
        }
        Some(found.entry.lo)
    }

    /// The physical address that an address means, where that is no exception and sets no TS. It changes nothing.
    #[tactic(auto, unfolding(crate::specs::Address::meaning))]
    #[inline(always)]
    pub(crate) fn found(&mut self, access: Use, aligned: bool, address: u32) -> Option<Physical>
        ensures answer { IfSome result (λ physical. meaning self.old access aligned address ≡ record { several = false; answer = Ok physical }) }
        ensures core { self.new ≡ self.old }
    {
        match self.segment(aligned, address) {
            Segment::Forbidden => None,
            Segment::Unmapped(physical) => Some(physical),
            Segment::Mapped => {
                let lo = self.sole_low(access, address)?;
                self.through(access, aligned, address, lo)
            }
        }
    }

    /// EntryLo of the one entry of a mapped address, if its page was looked up before. It searches nothing.
    #[inline(always)]
    pub(crate) fn kept_low(&self, access: Use, address: u32) -> Option<u32>
        ensures { IfSome result (IsSole self.now.entries address self.now.cop0.entry_hi) }
    {
        let hi = self.cop0().read(ENTRY_HI);
        self.tlb.kept(access == Use::Fetch, address, hi)
    }

    /// The physical address that a mapped address means, by EntryLo of its one entry.
    #[tactic(auto, unfolding(crate::specs::Address::meaning))]
    #[inline(always)]
    pub(crate) fn through(
        &self,
        access: Use,
        aligned: bool,
        address: u32,
        lo: u32,
    ) -> Option<Physical>
        requires mapped { segment_of self.now.cop0 aligned address ≡ Mapped }
        requires sole { IsSole self.now.entries address self.now.cop0.entry_hi lo }
        ensures { IfSome result (λ physical. meaning self.now access aligned address ≡ record { several = false; answer = Ok physical }) }
    {
        by_entry(access, address, lo).ok()
    }

    // What an address means for a load of one byte.
    #[tactic(auto, unfolding(crate::specs::Address::meaning))]
    fn answer(&self, address: u32) -> Result<Physical, Exception>
        ensures { result ≡ (meaning self.now Use.Load true address).answer }
    {
        match self.segment(true, address) {
            Segment::Forbidden => Err(Use::Load.address_error(address)),
            Segment::Unmapped(physical) => Ok(physical),
            Segment::Mapped => {
                let process = field::<11, 6>(self.cop0().read(ENTRY_HI));
                let found = self.tlb.lookup(address, process);
                by_low(Use::Load, address, found.map(|found| found.entry.lo))
            }
        }
    }

    /// Where an address leads a load of one byte. It changes nothing.
    pub fn where_is(&self, address: u32) -> Where
        ensures { result ≡ where_at self.now address }
    {
        match self.answer(address) {
            Ok(physical) if physical.cacheable => Where::Cached(physical.address),
            Ok(physical) => Where::Uncached(physical.address),
            Err(Exception::TlbLoad { refill: true, .. }) => Where::Refill,
            Err(Exception::TlbLoad { refill: false, .. }) => Where::Tlbl,
            Err(_) => Where::Adel,
        }
    }
}
