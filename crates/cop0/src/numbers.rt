//! The numbers of coprocessor 0 (Kane and Heinrich, chapters 4 to 6; the write masks and PRId are own): nothing runs here.

ghost use Rattle.std.specs.Prelude.{◌≡◌, ◌^◌};
ghost use Rattle.cop0.specs.declared.number.TheConstants.{INDEX, RANDOM, ENTRY_LO, CONTEXT, BAD_VADDR, ENTRY_HI, STATUS, CAUSE, EPC, PRID, INDEX_MASK, ENTRY_LO_MASK, CONTEXT_MASK, ENTRY_HI_MASK, STATUS_MASK, CAUSE_MASK, REVISION};
ghost use Rattle.cop0.specs.declared.status.TheConstants.{CU0, BEV, TS, CM, SWC, ISC, KUC, IEC, INTERRUPTS, BD, USER_MISS_VECTOR, GENERAL_VECTOR, ROM_USER_MISS_VECTOR, ROM_GENERAL_VECTOR};

/// The numbers of the registers; the bits of each that a write changes, and what PRId reads; the bits of Status and Cause, each by its
/// place, and those of the interrupts; and where handlers stand.
pub fn cop0_numbers()
    ensures index { INDEX ≡ 0 }
    ensures random { RANDOM ≡ 1 }
    ensures entry_lo { ENTRY_LO ≡ 2 }
    ensures context { CONTEXT ≡ 4 }
    ensures bad_vaddr { BAD_VADDR ≡ 8 }
    ensures entry_hi { ENTRY_HI ≡ 10 }
    ensures status { STATUS ≡ 12 }
    ensures cause { CAUSE ≡ 13 }
    ensures epc { EPC ≡ 14 }
    ensures prid { PRID ≡ 15 }
    ensures index_mask { INDEX_MASK ≡ 0x0000_3F00 }
    ensures entry_lo_mask { ENTRY_LO_MASK ≡ 0xFFFF_FF00 }
    ensures context_mask { CONTEXT_MASK ≡ 0xFFE0_0000 }
    ensures entry_hi_mask { ENTRY_HI_MASK ≡ 0xFFFF_FFC0 }
    ensures status_mask { STATUS_MASK ≡ 0x1047_FF3F }
    ensures cause_mask { CAUSE_MASK ≡ 0x0000_0300 }
    ensures revision { REVISION ≡ 0x0000_0220 }
    ensures cu0 { CU0 ≡ 2 ^ 28 }
    ensures bev { BEV ≡ 2 ^ 22 }
    ensures ts { TS ≡ 2 ^ 21 }
    ensures cm { CM ≡ 2 ^ 19 }
    ensures swc { SWC ≡ 2 ^ 17 }
    ensures isc { ISC ≡ 2 ^ 16 }
    ensures kuc { KUC ≡ 2 ^ 1 }
    ensures iec { IEC ≡ 2 ^ 0 }
    ensures interrupts { INTERRUPTS ≡ 0x0000_FF00 }
    ensures bd { BD ≡ 2 ^ 31 }
    ensures user_miss_vector { USER_MISS_VECTOR ≡ 0x8000_0000 }
    ensures general_vector { GENERAL_VECTOR ≡ 0x8000_0080 }
    ensures rom_user_miss_vector { ROM_USER_MISS_VECTOR ≡ 0xBFC0_0100 }
    ensures rom_general_vector { ROM_GENERAL_VECTOR ≡ 0xBFC0_0180 }
{}
