//! Quiet ticks: those that only count. A caller that owes the part ticks passes many of them at once.

ghost use Rattle.std.specs.Prelude.{◌≡◌, ◌≢◌, ℕ, ◌+◌, ◌-◌, ◌<◌, ◌≤◌};
ghost use Rattle.dz_serial.specs.Serial.{Serial};
ghost use Rattle.dz_serial.specs.Scan.{ticked};
ghost use Rattle.dz_serial.specs.Reads.{interrupt_line_of};
ghost use Rattle.dz_serial.specs.Quiet.{after, passed, quiet_line, quiet_of};

use crate::dz::Dz;
use crate::line::SerialLine;

/// The number that stands for all ticks to come.
pub(crate) const FOREVER: u32 = u32::MAX;

impl Dz {
    /// How many ticks from now only count: the next one after these raises TRDY. It is the greatest
    /// `u32` where no tick will.
    #[tactic(auto, unfolding(crate::specs::Quiet::quiet_of))]
    pub fn quiet(&self) -> u32
        ensures { result ≡ quiet_of self.now }
    {
        if !self.mse || self.trdy {
            return FOREVER;
        }
        let served = self.last_served;
        let first = self.quiet_line(served.up(1));
        let second = self.quiet_line(served.up(2));
        let third = self.quiet_line(served.up(3));
        first.min(second.min(third.min(self.quiet_line(served))))
    }

    /// How many ticks pass before the one after which a line can take a byte.
    fn quiet_line(&self, line: SerialLine) -> u32
        ensures { result ≡ quiet_line self.now line }
    {
        let place = line.index();
        if self.enabled[place] {
            u32::from(self.busy[place].saturating_sub(1))
        } else {
            FOREVER
        }
    }

    /// Counts `ticks` ticks at once: each busy count falls by as many, to 0 at the least. Quiet ticks do
    /// nothing more.
    pub fn pass(&mut self, ticks: u32)
        ensures { self.new ≡ passed ticks self.old }
    {
        let [a, b, c, d] = self.busy;
        self.busy = [
            left_of(a, ticks),
            left_of(b, ticks),
            left_of(c, ticks),
            left_of(d, ticks),
        ];
    }
}

/// What is left of a busy count after `ticks` ticks.
fn left_of(count: u16, ticks: u32) -> u16
    ensures { result ≡ count - ticks }
{
    u32::from(count).saturating_sub(ticks) as u16
}

/// Quiet ticks do nothing but count, and raise no interrupt; the tick after them does more. Ticks
/// may be taken in parts: after a part of the quiet ticks the rest are quiet.
pub fn quiet_laws()
    ensures passes { (s : Serial) (n : ℕ) → n ≤ quiet_of s → after n s ≡ passed n s }
    ensures line { (s : Serial) (n : ℕ) → n ≤ quiet_of s →
        interrupt_line_of (after n s) ≡ interrupt_line_of s }
    ensures greatest { (s : Serial) → quiet_of s < FOREVER →
        ticked (passed (quiet_of s) s) ≢ passed (quiet_of s + 1) s }
    ensures next { (s : Serial) (n : ℕ) → after (n + 1) s ≡ ticked (after n s) }
    ensures in_parts { (s : Serial) (m n : ℕ) → after (m + n) s ≡ after m (after n s) }
    ensures passed_in_parts { (s : Serial) (m n : ℕ) → passed m (passed n s) ≡ passed (m + n) s }
    ensures stays_quiet { (s : Serial) (m n : ℕ) → m + n ≤ quiet_of s → m ≤ quiet_of (passed n s) }
{}
