//! Numbers in the range that a command allows.

use input_log::MAX_TIME;
use std::marker::Model;

/// A number from `LEAST` to `MOST`.
#[derive(Clone, Copy, Debug, PartialEq, Eq)]
pub struct Bounded<const LEAST: u64, const MOST: u64> {
    number: u64,
}

/// The number of a register of the processor.
pub type RegisterNumber = Bounded<0, 31>;

/// The number of a register that instructions write: those of the processor, 32 for HI, and 33 for LO.
pub type WrittenNumber = Bounded<0, 33>;

/// The number of a translation entry.
pub type EntryNumber = Bounded<0, 63>;

/// An address.
pub type Address = Bounded<0, 0xffff_ffff>;

/// A word of memory.
pub type WordValue = Bounded<0, 0xffff_ffff>;

/// The number of a line of the serial part.
pub type LineNumber = Bounded<0, 3>;

/// A byte that arrives at a line.
pub type ByteValue = Bounded<0, 255>;

/// The number of an external line.
pub type WireNumber = Bounded<0, 2>;

/// The level of an external line.
pub type Level = Bounded<0, 1>;

/// The step of an event of the log: one that begins at a position below the greatest.
pub type EventTime = Bounded<0, { MAX_TIME }>;

/// How many words a reply shows.
pub type WordCount = Bounded<1, 32>;

/// How many bytes a reply shows at most.
pub type ByteCount = Bounded<1, 256>;

/// How many events a reply shows at most.
pub type EventCount = Bounded<1, 32>;

/// How many steps are followed.
pub type TraceCount = Bounded<1, 64>;

/// Which jumps are asked for: 0 for calls, returns and exceptions, 1 for all.
pub type JumpKind = Bounded<0, 1>;

/// How many jumps a reply shows at most.
pub type JumpCount = Bounded<1, 64>;

/// How many stores a reply shows at most.
pub type StoreCount = Bounded<1, 32>;

/// How many steps that sent a byte a reply shows at most.
pub type FindCount = Bounded<1, 64>;

/// How many positions a reply shows.
pub type PositionCount = Bounded<1, 64>;

/// How many steps one position is from the next.
pub type Distance = Bounded<1, { u64::MAX }>;

/// How many steps a search runs at most.
pub type StepCount = Bounded<1, 1_048_576>;

/// A number that is no larger than a word of 64 bits, and has no other limit.
pub type AnyNumber = Bounded<0, { u64::MAX }>;

impl<const LEAST: u64, const MOST: u64> Model for Bounded<LEAST, MOST> {
    ghost use Rattle.std.specs.Prelude.{ℕ, ◌≤◌};

    ghost Value = { ℕ };

    ghost view = { λ bounded. bounded.number };

    ghost invariant = { λ bounded. (LEAST ≤ bounded.number) × (bounded.number ≤ MOST) };

    ghost inverse = { λ number. record { number = number } };
}

impl<const LEAST: u64, const MOST: u64> Bounded<LEAST, MOST> {
    ghost use Rattle.std.specs.Prelude.{◌≡◌, ◌≤◌};
    ghost use Rattle.std.specs.Option.{SomeIff};

    /// The number, unless it is out of the range.
    pub fn new(number: u64) -> Option<Bounded<LEAST, MOST>>
        ensures { SomeIff result ((LEAST ≤ number) × (number ≤ MOST)) number }
    {
        if LEAST <= number && number <= MOST {
            Some(Bounded { number })
        } else {
            None
        }
    }

    /// The number.
    pub fn get(self) -> u64
        ensures value { result ≡ self.entry }
        ensures least { LEAST ≤ result }
        ensures most { result ≤ MOST }
    {
        self.number
    }
}
