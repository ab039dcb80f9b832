//! The numbers of addresses (Kane and Heinrich, chapters 4 and 6): nothing runs here.

ghost use Rattle.std.specs.Prelude.{◌≡◌, ◌^◌};
ghost use Rattle.r3k_machine.specs.declared.address.TheConstants.{KSEG0, KSEG1, KSEG2, UNCACHED, DIRTY, VALID, OFFSET};
ghost use Rattle.r3k_machine.specs.declared.state.TheConstants.{RESET_PC};

/// Where the segments begin; the places of N, D and V in EntryLo, and the bits of an address that are its offset in a page; and the PC
/// at reset.
pub fn address_numbers()
    ensures kseg0 { KSEG0 ≡ 0x8000_0000 }
    ensures kseg1 { KSEG1 ≡ 0xA000_0000 }
    ensures kseg2 { KSEG2 ≡ 0xC000_0000 }
    ensures uncached { UNCACHED ≡ 2 ^ 11 }
    ensures dirty { DIRTY ≡ 2 ^ 10 }
    ensures valid { VALID ≡ 2 ^ 9 }
    ensures offset { OFFSET ≡ 0xFFF }
    ensures reset_pc { RESET_PC ≡ 0xBFC0_0000 }
{}
