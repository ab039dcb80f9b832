//! Laws of the physical map and of quiet ticks: nothing runs here.

ghost use Rattle.std.specs.Prelude.{◌≡◌, ℕ, Bool, ◌+◌, ◌-◌, ◌*◌, ◌/◌, ◌≤◌, Some, None};
ghost use Rattle.r3k_word.specs.Layout.{place_of_word};
ghost use Rattle.kn02_bus.specs.Region.{region_of};
ghost use Rattle.kn02_bus.specs.declared.region.Region.TheVariants as region;
ghost use Rattle.kn02_bus.specs.declared.region.Device.TheVariants as device;
ghost use Rattle.kn02_bus.specs.State.{BusState};
ghost use Rattle.kn02_bus.specs.Lines.{lines_of};
ghost use Rattle.kn02_bus.specs.Access.{csr_of, loaded, after_load};
ghost use Rattle.kn02_bus.specs.Tick.{arrived, arrived_framing, wired};
ghost use Rattle.kn02_bus.specs.Quiet.{after, passed, quiet_of, steady_word};

use crate::region::Device;
use r3k_word::layout::{PAGE_WORDS, ROM_START};

/// RAM and ROM are where the words of memory stand. There is no word where a device is, or nothing.
pub fn region_laws()
    ensures ram { (pages address : ℕ) → region_of pages address ≡ region.Ram →
        place_of_word pages (address / 4 * 4) ≡ Some (address / 4) }
    ensures rom { (pages address : ℕ) → region_of pages address ≡ region.Rom →
        place_of_word pages (address / 4 * 4) ≡ Some (pages * PAGE_WORDS + (address - ROM_START) / 4) }
    ensures device { (pages address : ℕ) (device : Device) → region_of pages address ≡ region.Device device →
        place_of_word pages (address / 4 * 4) ≡ None }
    ensures unassigned { (pages address : ℕ) → region_of pages address ≡ region.Unassigned →
        place_of_word pages (address / 4 * 4) ≡ None }
{}

/// In quiet ticks the parts do nothing but count. Ticks may be taken in parts: after a part of the quiet ticks the rest are quiet.
/// The interrupt lines and CSR stay as they are. A byte that arrives (with a framing error or without), an external line that gets
/// its level and a read of the serial part neither see those ticks nor end them. A register that is steady reads the same all the while,
/// and a load leaves it as it is.
pub fn quiet_laws()
    ensures passes { (bus : BusState) (n : ℕ) → n ≤ quiet_of bus → after n bus ≡ passed n bus }
    ensures in_parts { (bus : BusState) (m n : ℕ) → after (m + n) bus ≡ after m (after n bus) }
    ensures stays_quiet { (bus : BusState) (m n : ℕ) → m + n ≤ quiet_of bus → m ≤ quiet_of (after n bus) }
    ensures lines { (bus : BusState) (n : ℕ) → n ≤ quiet_of bus → lines_of (after n bus) ≡ lines_of bus }
    ensures csr { (bus : BusState) (n : ℕ) → n ≤ quiet_of bus → csr_of (after n bus) ≡ csr_of bus }
    ensures arrival { (bus : BusState) (n line byte : ℕ) → n ≤ quiet_of bus →
        after n (arrived bus line byte) ≡ arrived (after n bus) line byte }
    ensures quiet_arrival { (bus : BusState) (line byte : ℕ) →
        quiet_of (arrived bus line byte) ≡ quiet_of bus }
    ensures framing { (bus : BusState) (n line byte : ℕ) → n ≤ quiet_of bus →
        after n (arrived_framing bus line byte) ≡ arrived_framing (after n bus) line byte }
    ensures quiet_framing { (bus : BusState) (line byte : ℕ) →
        quiet_of (arrived_framing bus line byte) ≡ quiet_of bus }
    ensures wire { (bus : BusState) (n k : ℕ) (level : Bool) →
        after n (wired bus k level) ≡ wired (after n bus) k level }
    ensures quiet_wire { (bus : BusState) (k : ℕ) (level : Bool) →
        quiet_of (wired bus k level) ≡ quiet_of bus }
    ensures word { (bus : BusState) (n offset : ℕ) → n ≤ quiet_of bus →
        loaded (after n bus) (device.Serial offset) ≡ loaded bus (device.Serial offset) }
    ensures read { (bus : BusState) (n offset : ℕ) → n ≤ quiet_of bus →
        after n (after_load bus (device.Serial offset)) ≡ after_load (after n bus) (device.Serial offset) }
    ensures quiet_read { (bus : BusState) (offset : ℕ) →
        quiet_of (after_load bus (device.Serial offset)) ≡ quiet_of bus }
    ensures steady { (bus : BusState) (n word : ℕ) (device : Device) → n ≤ quiet_of bus → steady_word bus device ≡ Some word →
        (loaded (after n bus) device ≡ word) × (after_load (after n bus) device ≡ after n bus) }
{
    dz_serial::quiet_laws();
    mc146818::quiet_laws();
}
