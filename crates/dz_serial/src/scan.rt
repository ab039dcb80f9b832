//! The scanner: it looks for a line that can take a byte to send.

ghost use Rattle.std.specs.Prelude.{◌≡◌};
ghost use Rattle.dz_serial.specs.Scan.{counted_down, is_ready, next_ready, scanned, ticked};

use crate::dz::Dz;
use crate::line::SerialLine;

impl Dz {
    /// A tick: each busy count above 0 falls by one. Then, if MSE is 1 and TRDY 0, the first of the
    /// four lines upward from the one after the last served (cyclic) that is enabled and not busy
    /// becomes TLINE, and TRDY becomes 1.
    #[inline]
    #[tactic(auto, unfolding(crate::specs::Scan::ticked))]
    pub fn tick(&mut self)
        ensures { self.new ≡ ticked self.old }
    {
        self.count_down();
        self.scan();
    }

    /// Each busy count above 0 falls by one.
    #[inline]
    fn count_down(&mut self)
        ensures { self.new ≡ counted_down self.old }
    {
        let [a, b, c, d] = self.busy;
        if a != 0 || b != 0 || c != 0 || d != 0 {
            self.busy = [
                a.saturating_sub(1),
                b.saturating_sub(1),
                c.saturating_sub(1),
                d.saturating_sub(1),
            ];
        }
    }

    /// The scanner goes on, if MSE is 1 and TRDY 0.
    #[inline]
    fn scan(&mut self)
        ensures { self.new ≡ scanned self.old }
    {
        if self.mse
            && !self.trdy
            && let Some(line) = self.next_ready()
        {
            self.tline = line;
            self.trdy = true;
        }
    }

    /// The line that the scanner comes to, if any is ready.
    #[inline]
    fn next_ready(&self) -> Option<SerialLine>
        ensures { result ≡ next_ready self.now }
    {
        let served = self.last_served;
        let first = served.up(1);
        let second = served.up(2);
        let third = served.up(3);
        if self.is_ready(first) {
            Some(first)
        } else if self.is_ready(second) {
            Some(second)
        } else if self.is_ready(third) {
            Some(third)
        } else if self.is_ready(served) {
            Some(served)
        } else {
            None
        }
    }

    /// Whether a line is enabled and sends no byte.
    #[inline]
    fn is_ready(&self, line: SerialLine) -> bool
        ensures { result ≡ is_ready self.now line }
    {
        self.enabled[line.index()] && self.busy[line.index()] == 0
    }
}
