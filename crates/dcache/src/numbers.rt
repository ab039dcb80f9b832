//! The numbers of the isolated cache (own): nothing runs here.

ghost use Rattle.std.specs.Prelude.{◌≡◌};

use crate::slot::{SLOTS, TAG_BYTES};

/// An array has 16,384 slots of four bytes each, and as many bytes have one tag.
pub fn cache_numbers()
    ensures slots { SLOTS ≡ 16384 }
    ensures tag_bytes { TAG_BYTES ≡ 65536 }
{}
