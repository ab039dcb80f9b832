//! Quiet ticks: those that only count. A caller that owes the clock ticks passes many of them at once.

ghost use Rattle.std.specs.Prelude.{◌≡◌, ◌≢◌, ℕ, ◌+◌, ◌<◌, ◌≤◌};
ghost use Rattle.mc146818.specs.Clock.{ClockState, requests_interrupt};
ghost use Rattle.mc146818.specs.Divider.{second_of};
ghost use Rattle.mc146818.specs.Second.{after};
ghost use Rattle.mc146818.specs.Tick.{ticked};
ghost use Rattle.mc146818.specs.Quiet.{next_period, next_second, passed, quiet_flag, quiet_of};

use crate::clock::Clock;
use crate::registers::PF;

/// The number that stands for all ticks to come.
pub(crate) const FOREVER: u32 = u32::MAX;

impl Clock {
    /// How many ticks from now only count: the next one after these ends the second or sets PF. It
    /// is the greatest `u32` where the divider does not run.
    #[tactic(auto, unfolding(crate::specs::Quiet::quiet_of))]
    pub fn quiet(&self) -> u32
        ensures { result ≡ quiet_of self.now }
    {
        if self.runs() {
            self.divider.quiet_second().min(self.quiet_flag())
        } else if self.divider.is_zero() {
            FOREVER
        } else {
            0
        }
    }

    // How many ticks pass before the one that sets PF.
    fn quiet_flag(&self) -> u32
        ensures { result ≡ quiet_flag self.now }
    {
        if self.flags & PF != 0 {
            FOREVER
        } else {
            self.divider.quiet_period(self.rate())
        }
    }

    /// How many ticks there are up to the one that ends the second, with it. There is none where the divider does not run.
    pub fn next_second(&self) -> Option<u32>
        ensures { result ≡ next_second self.now }
    {
        if self.runs() {
            Some(self.divider.left_in_second())
        } else {
            None
        }
    }

    /// How many ticks there are up to the one that ends a period, with it. There is none where the divider does not run, or has no
    /// period.
    pub fn next_period(&self) -> Option<u32>
        ensures { result ≡ next_period self.now }
    {
        if self.runs() {
            self.divider.left_in_period(self.rate())
        } else {
            None
        }
    }

    /// Counts `ticks` ticks at once, all of them quiet.
    #[tactic(auto, unfolding(crate::specs::Quiet::quiet_of))]
    pub fn pass(&mut self, ticks: u32)
        requires { ticks ≤ quiet_of self.old }
        ensures { self.new ≡ passed ticks self.old }
    {
        if self.runs() {
            self.divider.pass(ticks);
        }
    }
}

/// Quiet ticks do nothing but count: time, flags and interrupt stay; the tick after them does more.
/// Ticks may be taken in parts: after a part of the quiet ticks the rest are quiet.
pub fn quiet_laws()
    ensures passes { (clock : ClockState) (n : ℕ) → n ≤ quiet_of clock → after n clock ≡ passed n clock }
    ensures line { (clock : ClockState) (n : ℕ) → n ≤ quiet_of clock →
        requests_interrupt (after n clock) ≡ requests_interrupt clock }
    ensures time { (clock : ClockState) (n : ℕ) → n ≤ quiet_of clock →
        (after n clock).time ≡ clock.time }
    ensures flags { (clock : ClockState) (n : ℕ) → n ≤ quiet_of clock →
        (after n clock).flags ≡ clock.flags }
    ensures greatest { (clock : ClockState) → clock.divider < second_of clock.unit →
        quiet_of clock < FOREVER → ticked (passed (quiet_of clock) clock) ≢ passed (quiet_of clock + 1) clock }
    ensures next { (clock : ClockState) (n : ℕ) → after (n + 1) clock ≡ ticked (after n clock) }
    ensures in_parts { (clock : ClockState) (m n : ℕ) → after (m + n) clock ≡ after m (after n clock) }
    ensures passed_in_parts { (clock : ClockState) (m n : ℕ) →
        passed m (passed n clock) ≡ passed (m + n) clock }
    ensures stays_quiet { (clock : ClockState) (m n : ℕ) → m + n ≤ quiet_of clock →
        m ≤ quiet_of (passed n clock) }
{}
