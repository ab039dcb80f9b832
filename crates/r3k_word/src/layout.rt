//! Where the words of RAM and ROM stand: their physical addresses, and their places in one list of all words.

ghost use Rattle.std.specs.Prelude.{◌≡◌, ◌<◌, ◌≤◌};
ghost use Rattle.r3k_word.specs.Layout.{word_count_of, place_of_word, address_of_place, page_of_place};

/// Words in a page.
pub const PAGE_WORDS: u32 = 1024;

/// Bytes in a page.
pub const PAGE_BYTES: u32 = 4096;

/// The most pages of RAM that a machine may have.
pub const MAX_RAM_PAGES: u32 = 8192;

/// The physical address of ROM.
pub const ROM_START: u32 = 0x1FC0_0000;

/// Pages of ROM.
pub const ROM_PAGES: u32 = 64;

/// Bytes of ROM.
pub const ROM_BYTES: u32 = 0x4_0000;

/// How many words RAM and ROM have together.
#[inline]
pub fn word_count(ram_pages: u32) -> usize
    ensures { result ≡ word_count_of ram_pages }
{
    (ram_pages as usize + ROM_PAGES as usize) * PAGE_WORDS as usize
}

/// The place of the word at this physical address in the list of all words, or `None` if no word of RAM or ROM has
/// this address.
#[inline]
pub fn place_of(ram_pages: u32, address: u32) -> Option<usize>
    ensures { result ≡ place_of_word ram_pages address }
{
    if address % 4 != 0 {
        return None;
    }
    if address / PAGE_BYTES < ram_pages {
        return Some(address as usize / 4);
    }
    if address < ROM_START || address >= ROM_START + ROM_BYTES {
        return None;
    }
    Some(ram_pages as usize * PAGE_WORDS as usize + (address - ROM_START) as usize / 4)
}

/// The physical address of the word at a place.
#[inline]
pub fn address_of(ram_pages: u32, place: usize) -> u32
    requires pages { ram_pages ≤ MAX_RAM_PAGES }
    requires within { place < word_count_of ram_pages }
    ensures { result ≡ address_of_place ram_pages place }
{
    let ram_words = ram_pages as usize * PAGE_WORDS as usize;
    if place < ram_words {
        4 * place as u32
    } else {
        ROM_START + 4 * (place - ram_words) as u32
    }
}

/// The page of a place: the pages of RAM come first, then those of ROM.
#[inline]
pub fn page_of(place: usize) -> usize
    ensures { result ≡ page_of_place place }
{
    place / PAGE_WORDS as usize
}
