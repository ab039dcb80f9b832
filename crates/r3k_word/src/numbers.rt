//! The numbers of the layout of memory (KN02 system module): nothing runs here.

ghost use Rattle.std.specs.Prelude.{◌≡◌};
ghost use Rattle.r3k_word.specs.declared.layout.TheConstants.{PAGE_WORDS, PAGE_BYTES, MAX_RAM_PAGES, ROM_START, ROM_PAGES, ROM_BYTES};

/// How large a page is, how many of RAM a machine has at most, and where ROM stands and how large it is.
pub fn layout_numbers()
    ensures page_words { PAGE_WORDS ≡ 1024 }
    ensures page_bytes { PAGE_BYTES ≡ 4096 }
    ensures max_ram_pages { MAX_RAM_PAGES ≡ 8192 }
    ensures rom_start { ROM_START ≡ 0x1FC0_0000 }
    ensures rom_pages { ROM_PAGES ≡ 64 }
    ensures rom_bytes { ROM_BYTES ≡ 0x4_0000 }
{}
