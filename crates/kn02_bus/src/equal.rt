//! When two buses are equal, and how one is printed: ticks that its parts owe make no difference.

ghost use Rattle.std.specs.Prelude.{◌≡◌};

use crate::bus::Bus;
use crate::parts::Parts;
use std::fmt::{self, Debug};

impl Bus {
    // The parts as they are now.
    pub(crate) fn now(&self) -> Parts
        ensures { result ≡ self.now }
    {
        let mut parts = self.parts.copy();
        parts.pass(self.schedule.owed());
        parts
    }
}

impl PartialEq for Bus {
    ghost use Rattle.std.specs.Prelude.{◌≡◌, ◌↔◌, IsTrue};
    ghost use Rattle.std.specs.Cmp.{decided, partial_equiv_from_equiv};
    ghost use Rattle.kn02_bus.specs.Same.{is_same, is_same_decides};

    ghost eq = { is_same };

    ghost laws = { partial_equiv_from_equiv (decided is_same is_same_decides) };

    /// Whether all that both hold is equal.
    fn eq(&self, other: &Bus) -> bool
        ensures value { result ≡ is_same self.now other.now }
        ensures equal { IsTrue result ↔ (self.now ≡ other.now) }
    {
        self.now() == other.now()
    }
}

impl Eq for Bus {
    ghost use Rattle.std.specs.Cmp.{decided};
    ghost use Rattle.kn02_bus.specs.Same.{is_same, is_same_decides};

    ghost laws = { decided is_same is_same_decides };
}

impl Debug for Bus {
    /// Writes the parts as they are now.
    fn fmt<W: fmt::Write>(&self, f: &mut fmt::Formatter<W>) -> fmt::Result {
        let now = self.now();
        f.debug_struct("Bus")
            .field("serial", &now.serial)
            .field("clock", &now.clock)
            .field("enables", &now.enables)
            .field("levels", &now.levels)
            .finish()
    }
}
