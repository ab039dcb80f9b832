//! The divider: it counts the ticks of a second, 8192 units of them.
//!
//! No tick divides: the count is kept as whole units and the ticks beyond them. So it is a multiple
//! of 2^k units just where no tick is beyond and the low k bits of the units are 0.

ghost use Rattle.std.specs.Prelude.{◌≡◌, ℕ, ◌<◌, ◌≤◌, ◌==◌, ◌↔◌, IsTrue, ◌+◌, ◌-◌, ◌*◌, ◌%◌, ◌^◌};
ghost use Rattle.mc146818.specs.Divider.{second_of, next_count, period_of, ends_at, is_near_end};
ghost use Rattle.mc146818.specs.Quiet.{left_of, quiet_second, quiet_period};

use crate::quiet::FOREVER;
use std::marker::Model;

/// Units in a second.
const UNITS: u16 = 8192;

/// The units of a second after which an update is announced.
const NEAR_END: u16 = 8190;

/// The count of a second's ticks: whole units, the ticks beyond them, and the ticks of a unit.
#[derive(Clone, Copy, Debug)]
pub struct Divider {
    units: u16,
    ticks: u16,
    unit: u16,
}

impl Model for Divider {
    ghost use Rattle.std.specs.Prelude.{ℕ, ◌+◌, ◌*◌, ◌/◌, ◌%◌, ◌<◌};
    ghost use Rattle.mc146818.specs.Divider.{Ticks};
    ghost use Rattle.mc146818.specs.declared.divider.TheConstants.{UNITS};
    ghost use Rattle.std.proofs.lemmas.Nat.{div-mul-add, mod-mul-add};

    ghost Value = { Ticks };

    ghost view = { λ d. record { count = d.units * d.unit + d.ticks; unit = d.unit } };

    ghost invariant = { λ d. (d.units < UNITS) × (d.ticks < d.unit) };

    ghost inverse = { λ t. record { units = t.count / t.unit; ticks = t.count % t.unit; unit = t.unit } };

    ghost inverse_ok = { λ d h i. record {
      units = div-mul-add d.units d.unit d.ticks h.1 i;
      ticks = mod-mul-add d.units d.unit d.ticks h.1 i;
      unit = d.unit;
    } };
}

impl Divider {
    /// The divider at the beginning of a second.
    pub fn new(unit: u16) -> Divider
        requires { 1 ≤ unit }
        ensures { result ≡ record { count = 0; unit = unit } }
    {
        Divider {
            units: 0,
            ticks: 0,
            unit,
        }
    }

    /// Whether both dividers stand at the same count of the same unit.
    pub fn is_same(&self, other: &Divider) -> bool
        ensures { IsTrue result ↔ (self.now ≡ other.now) }
    {
        self.units == other.units && self.ticks == other.ticks && self.unit == other.unit
    }

    /// Counts a tick. Reports whether whole units have passed.
    #[inline]
    pub fn advance(&mut self) -> bool
        ensures count { self.new ≡ record self.old { count = next_count self.old.unit self.old.count } }
        ensures whole { IsTrue result ↔ (self.new.count % self.new.unit ≡ 0) }
        ensures unit { 1 ≤ self.new.unit }
    {
        self.ticks += 1;
        if self.ticks < self.unit {
            return false;
        }
        self.ticks = 0;
        self.units += 1;
        if self.units == UNITS {
            self.units = 0;
        }
        true
    }

    /// Puts it back to the beginning of a second.
    #[inline]
    pub fn clear(&mut self)
        ensures { self.new ≡ record self.old { count = 0 } }
    {
        self.units = 0;
        self.ticks = 0;
    }

    /// Whether it stands at the beginning of a second.
    #[inline]
    pub fn is_zero(&self) -> bool
        ensures { result ≡ (self.now.count == 0) }
    {
        self.units == 0 && self.ticks == 0
    }

    /// Whether a period of this rate ends.
    #[inline]
    pub fn ends_period(&self, rate: u32) -> bool
        requires { rate < 16 }
        ensures { result ≡ ends_at (period_of self.now.unit rate) self.now.count }
    {
        match rate {
            0 => false,
            1 => self.is_multiple(5),
            2 => self.is_multiple(6),
            _ => self.is_multiple(rate - 3),
        }
    }

    // Whether the count is a multiple of 2^power units.
    #[inline]
    fn is_multiple(&self, power: u32) -> bool
        requires { power < 13 }
        ensures { IsTrue result ↔ (self.now.count % (self.now.unit * 2 ^ power) ≡ 0) }
    {
        self.ticks == 0 && self.units & ((1 << power) - 1) == 0
    }

    /// Whether the end of the second is near.
    #[inline]
    pub fn is_near_end(&self) -> bool
        ensures { result ≡ is_near_end self.now.unit self.now.count }
    {
        self.units >= NEAR_END
    }

    // How many ticks have passed in this second.
    fn count(&self) -> u32
        ensures value { result ≡ self.now.count }
        ensures within { result < second_of self.now.unit }
    {
        u32::from(self.units) * u32::from(self.unit) + u32::from(self.ticks)
    }

    /// How many ticks pass before the one that ends the second.
    pub fn quiet_second(&self) -> u32
        ensures { result ≡ quiet_second self.now.unit self.now.count }
    {
        u32::from(UNITS) * u32::from(self.unit) - 1 - self.count()
    }

    /// How many ticks there are up to the one that ends the second, with it.
    pub fn left_in_second(&self) -> u32
        ensures { result ≡ second_of self.now.unit - self.now.count }
    {
        u32::from(UNITS) * u32::from(self.unit) - self.count()
    }

    /// How many ticks there are up to the one that ends a period of this rate, with it.
    pub fn left_in_period(&self, rate: u32) -> Option<u32>
        requires { rate < 16 }
        ensures { result ≡ left_of self.now.count (period_of self.now.unit rate) }
    {
        match rate {
            0 => None,
            1 => Some(self.left_in_multiple(5)),
            2 => Some(self.left_in_multiple(6)),
            _ => Some(self.left_in_multiple(rate - 3)),
        }
    }

    // How many ticks there are up to the one that makes the count a multiple of 2^power units, with it.
    fn left_in_multiple(&self, power: u32) -> u32
        requires { power < 13 }
        ensures { let period = self.now.unit * 2 ^ power in result ≡ period - self.now.count % period }
    {
        let period = u32::from(self.unit) << power;
        period - self.count() % period
    }

    /// How many ticks pass before the one that ends a period of this rate.
    pub fn quiet_period(&self, rate: u32) -> u32
        requires { rate < 16 }
        ensures { result ≡ quiet_period (period_of self.now.unit rate) self.now.count }
    {
        match rate {
            0 => FOREVER,
            1 => self.quiet_multiple(5),
            2 => self.quiet_multiple(6),
            _ => self.quiet_multiple(rate - 3),
        }
    }

    // How many ticks pass before the one that makes the count a multiple of 2^power units.
    fn quiet_multiple(&self, power: u32) -> u32
        requires { power < 13 }
        ensures { let period = self.now.unit * 2 ^ power in result ≡ period - 1 - self.now.count % period }
    {
        let period = u32::from(self.unit) << power;
        period - 1 - self.count() % period
    }

    /// Counts `ticks` ticks at once, none of which ends the second.
    pub fn pass(&mut self, ticks: u32)
        requires { ticks ≤ quiet_second self.old.unit self.old.count }
        ensures { self.new ≡ record self.old { count = self.old.count + ticks } }
    {
        let count = self.count() + ticks;
        let unit = u32::from(self.unit);
        self.units = (count / unit) as u16;
        self.ticks = (count % unit) as u16;
    }
}
