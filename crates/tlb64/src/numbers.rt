//! The number of a translation entry (Kane and Heinrich, chapter 4): nothing runs here.

ghost use Rattle.std.specs.Prelude.{◌≡◌, ◌^◌};
ghost use Rattle.tlb64.specs.declared.entry.TheConstants.{GLOBAL};

/// The place of G in EntryLo.
pub fn tlb_numbers()
    ensures global { GLOBAL ≡ 2 ^ 8 }
{}
