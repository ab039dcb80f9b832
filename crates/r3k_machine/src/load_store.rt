//! Fetching, loading and storing.

ghost use Rattle.std.specs.Prelude.{◌≡◌, ◌*◌, ◌/◌, ◌%◌, ℕ, IfOk, IfSome};
ghost use Rattle.r3k_exec.specs.Access.{stored};
ghost use Rattle.r3k_machine.specs.Address.{met};
ghost use Rattle.kn02_bus.specs.Region.{region_of};
ghost use Rattle.r3k_word.specs.Layout.{place_of_word};
ghost use Rattle.r3k_word.specs.Word.{merged};
ghost use Rattle.r3k_machine.specs.LoadStore.{after_load_over_bus, after_store_over_bus, core_after_load, core_after_store, fetched, lane_mask, loaded_from, loaded_over_bus, meaning_of_fetch, ram_word, stored_over_bus, stored_to, word_at, words_after, words_with};
ghost use Rattle.r3k_machine.specs.Reports.{DifferAt, IsPage, IsRamWord};

use crate::address::{Physical, Segment, Use};
use crate::exception::Exception;
use crate::memory::Mem;
use crate::state::Core;
use dz_serial::Sent;
use r3k_exec::{Covered, LoadKind, StoreKind};
use r3k_word::bits::merge;
use r3k_word::layout::{PAGE_BYTES, page_of, place_of};

/// A word of memory and the page that it stands in.
#[derive(Clone, Copy)]
pub(crate) struct Word {
    pub(crate) word: u32,
    pub(crate) page: u32,
}

/// A word that was loaded, and its page, unless it comes from a device or the isolated cache.
#[derive(Clone, Copy)]
pub(crate) struct Loaded {
    pub(crate) word: u32,
    pub(crate) page: Option<u32>,
}

/// What a store did: the address of the word of RAM that it went into, and the byte that the serial part sent for it.
#[derive(Clone, Copy)]
pub(crate) struct Stored {
    pub(crate) address: Option<u32>,
    pub(crate) sent: Option<Sent>,
}

// The word of RAM or ROM that a physical address lies in.
#[inline]
fn word_at<M: Mem>(memory: &M, physical: u32) -> Option<Word>
    ensures word { result ≡ word_at M.ram (M.words memory.now) physical }
    ensures page { IfSome result (λ w. IsPage M.ram w.page) }
{
    let place = place_of(memory.ram_pages(), physical / 4 * 4)?;
    Some(Word {
        word: memory.word(place),
        page: page_of(place) as u32,
    })
}

// The bits of the bytes that these lanes cover.
#[inline]
fn lane_mask(lanes: u8) -> u32
    ensures { result ≡ lane_mask lanes }
{
    match lanes % 16 {
        0 => 0,
        1 => 0xFF,
        2 => 0xFF00,
        3 => 0xFFFF,
        4 => 0x00FF_0000,
        5 => 0x00FF_00FF,
        6 => 0x00FF_FF00,
        7 => 0x00FF_FFFF,
        8 => 0xFF00_0000,
        9 => 0xFF00_00FF,
        10 => 0xFF00_FF00,
        11 => 0xFF00_FFFF,
        12 => 0xFFFF_0000,
        13 => 0xFFFF_00FF,
        14 => 0xFFFF_FF00,
        _ => 0xFFFF_FFFF,
    }
}

// A word after a store into those of its bytes that these lanes cover.
#[inline(always)]
fn with_bytes(old: u32, lanes: u8, new: u32) -> u32
    ensures { result ≡ merged (lane_mask lanes) old new }
{
    // Most stores are of words.
    if lanes == 15 {
        return new;
    }
    merge(lane_mask(lanes), old, new)
}

// Stores into the word of RAM that a physical address lies in, and gives the address of that word, if there is one.
#[inline(always)]
pub(crate) fn put<M: Mem>(memory: &mut M, physical: u32, covered: Covered) -> Option<u32>
    ensures address { result ≡ ram_word M.ram physical }
    ensures words { M.words memory.new ≡ words_with (M.words memory.old) (ram_word M.ram physical) covered }
    ensures within { IfSome result (IsRamWord M.ram) }
    ensures differ { DifferAt result (M.words memory.old) (M.words memory.new) }
    ensures opened { (page : ℕ) → M.is_open memory.new page ≡ M.is_open memory.old page }
{
    if physical / PAGE_BYTES >= memory.ram_pages() {
        return None;
    }
    let place = (physical / 4) as usize;
    let word = with_bytes(memory.word(place), covered.lanes, covered.word);
    memory.set_word(place, word);
    Some(physical / 4 * 4)
}

/// Fetches the instruction at the PC.
#[tactic(auto, unfolding(crate::specs::Address::meaning))]
#[inline]
pub(crate) fn fetch<M: Mem>(core: &mut Core, memory: &M) -> Result<Word, Exception>
    ensures word { result ≡ fetched M.ram (M.words memory.now) core.old }
    ensures page { IfOk result (λ w. IsPage M.ram w.page) }
    ensures core { core.new ≡ met core.old (meaning_of_fetch core.old) }
{
    let address = core.pc();
    let aligned = address % 4 == 0;
    let physical = match core.segment(aligned, address) {
        Segment::Unmapped(physical) => physical.address,
        _ => core.physical(Use::Fetch, aligned, address)?.address,
    };
    word_at(memory, physical).ok_or(Exception::BusErrorFetch)
}

// Loads over the bus: the word of RAM or ROM that a physical address lies in, or else that of a device.
#[inline]
fn load_over_bus<M: Mem>(core: &mut Core, memory: &M, physical: u32) -> Result<Loaded, Exception>
    ensures word { result ≡ loaded_over_bus (M.words memory.now) core.old (region_of M.ram physical)
        (place_of_word M.ram (physical / 4 * 4)) }
    ensures page { IfOk result (λ loaded. IfSome loaded.page (IsPage M.ram)) }
    ensures core { core.new ≡ after_load_over_bus core.old (region_of M.ram physical)
        (place_of_word M.ram (physical / 4 * 4)) }
{
    let pages = memory.ram_pages();
    if let Some(place) = place_of(pages, physical / 4 * 4) {
        return Ok(Loaded {
            word: memory.word(place),
            page: Some(page_of(place) as u32),
        });
    }
    match core.load_device(physical, pages) {
        Some(word) => Ok(Loaded { word, page: None }),
        None => Err(Exception::BusErrorLoad),
    }
}

/// Loads the word that the address lies in.
#[tactic(auto, unfolding(crate::specs::Address::meaning))]
#[inline]
pub(crate) fn load<M: Mem>(
    core: &mut Core,
    memory: &M,
    kind: LoadKind,
    address: u32,
) -> Result<Loaded, Exception>
    ensures word { result ≡ loaded_from M.ram (M.words memory.now) core.old kind address }
    ensures page { IfOk result (λ loaded. IfSome loaded.page (IsPage M.ram)) }
    ensures core { core.new ≡ core_after_load M.ram core.old kind address }
{
    let aligned = kind.is_aligned(address);
    let physical = match core.segment(aligned, address) {
        Segment::Unmapped(Physical { address, cacheable }) => Physical { address, cacheable },
        _ => core.physical(Use::Load, aligned, address)?,
    };
    if core.is_isolated(physical) {
        return Ok(Loaded {
            word: core.load_isolated(physical.address),
            page: None,
        });
    }
    load_over_bus(core, memory, physical.address)
}

// Stores over the bus: into the word of RAM that a physical address lies in, or else to a device.
#[inline]
fn store_over_bus<M: Mem>(
    core: &mut Core,
    memory: &mut M,
    physical: u32,
    covered: Covered,
) -> Stored
    ensures stored { result ≡ stored_over_bus core.old (region_of M.ram physical) covered
        (ram_word M.ram physical) }
    ensures core { core.new ≡ after_store_over_bus core.old (region_of M.ram physical) covered
        (ram_word M.ram physical) }
    ensures words { M.words memory.new ≡ words_with (M.words memory.old) (ram_word M.ram physical) covered }
    ensures within { IfSome result.address (IsRamWord M.ram) }
    ensures differ { DifferAt result.address (M.words memory.old) (M.words memory.new) }
{
    match put(memory, physical, covered) {
        Some(address) => Stored {
            address: Some(address),
            sent: None,
        },
        None => Stored {
            address: None,
            sent: core.store_device(physical, memory.ram_pages(), covered),
        },
    }
}

/// Stores a register's value, or the part of it that the kind says.
#[tactic(auto, unfolding(crate::specs::Address::meaning))]
#[inline]
pub(crate) fn store<M: Mem>(
    core: &mut Core,
    memory: &mut M,
    kind: StoreKind,
    address: u32,
    value: u32,
) -> Result<Stored, Exception>
    ensures stored { result ≡ stored_to M.ram core.old kind address value }
    ensures core { core.new ≡ core_after_store M.ram core.old kind address value }
    ensures words { M.words memory.new ≡ words_after (M.words memory.old)
        (stored_to M.ram core.old kind address value) (stored kind (address % 4) value) }
    ensures within { IfOk result (λ stored. IfSome stored.address (IsRamWord M.ram)) }
    ensures differ { IfOk result (λ stored. DifferAt stored.address (M.words memory.old) (M.words memory.new)) }
{
    let aligned = kind.is_aligned(address);
    let physical = match core.segment(aligned, address) {
        Segment::Unmapped(Physical { address, cacheable }) => Physical { address, cacheable },
        _ => core.physical(Use::Store, aligned, address)?,
    };
    if core.is_isolated(physical) {
        core.store_isolated(kind, physical.address, value);
        return Ok(Stored {
            address: None,
            sent: None,
        });
    }
    Ok(store_over_bus(core, memory, physical.address, kind.stored(address, value)))
}
