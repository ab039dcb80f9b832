//! A source and a sink over memory, for tests.
ghost use Rattle.std.specs.Prelude.{◌≡◌, ◌⊎◌, ◌<◌, ◌≤◌, [], ◌∷◌, ◌++◌, ℕ, length, take, drop, Some, None, Ok, IfOk, IsFalse, IsTrue, MatchResult, OnErr, false, true};
ghost use Rattle.std.specs.Io.KnownBytes.{Appends, Consumes, IsAtEnd, Keeps};
ghost use Rattle.wb_io.specs.Calls.{call};
ghost use Rattle.wb_io.specs.Plan.{IsUpset, given_count, good_after, left_after, taken_count, reported_left};
ghost use Rattle.wb_io.specs.declared.plan.Upset.TheVariants.{Fails, TakesNone};

use crate::calls::Calls;
use crate::sink::Sink;
use crate::source::{Failed, Source};
use std::alloc::{AllocError, Global};
use std::marker::Model;

/// How a write is upset.
#[derive(Clone, Copy, Debug, PartialEq, Eq)]
pub enum Upset {
    /// It fails.
    Fails,
    /// It takes no byte.
    TakesNone,
}

/// A source that gives its bytes once or for ever, and a sink with room for a number of bytes, which takes none once it is full.
/// One read and one write may be upset. All memory is taken when it is made.
#[derive(Drop)]
pub struct Plan {
    input: Vec<u8>,
    for_ever: bool,
    // How many bytes of the input were given, since it began anew.
    given: usize,
    // How many reads are good before one fails, if one does.
    good_reads: Option<u64>,
    written: Vec<u8>,
    room: usize,
    // How many writes are good before one is upset, if one is, and how.
    good_writes: Option<u64>,
    upset: Upset,
    // The most bytes that a call gives or takes.
    piece: usize,
    reads: Calls,
    writes: Calls,
}

impl Model for Plan {
    ghost use Rattle.std.specs.Prelude.{◌<◌, ◌≤◌, drop, vec_len, vec_capacity};
    ghost use Rattle.wb_io.specs.Plan.{Planned};

    ghost Value = { Planned };

    ghost view = { λ p. record {
      input = p.input.items;
      for_ever = p.for_ever;
      left = drop p.given p.input.items;
      good_reads = p.good_reads;
      written = p.written.items;
      room = p.room;
      good_writes = p.good_writes;
      upset = p.upset;
      piece = p.piece;
      reads = p.reads.list;
      writes = p.writes.list;
    } };

    ghost invariant = { λ p. (p.given ≤ vec_len p.input) × (vec_len p.written ≤ p.room)
        × (p.room ≤ vec_capacity p.written) × (0 < p.piece) };
}

impl Plan {
    /// A plan that gives these bytes once, has room for `room` bytes, and moves at most `piece` bytes a call. No call is upset. All
    /// its memory is taken here.
    pub fn new(alloc: Global, input: &[u8], piece: usize, room: usize) -> Result<Plan, AllocError>
        requires { 0 < piece }
        ensures { IfOk result (λ plan.
            plan ≡ record {
              input = input.now;
              for_ever = false;
              left = input.now;
              good_reads = None;
              written = [];
              room = room;
              good_writes = None;
              upset = Fails;
              piece = piece;
              reads = [];
              writes = [];
            }) }
    {
        Ok(Plan {
            input: Vec::from_slice(alloc, input)?,
            for_ever: false,
            given: 0,
            good_reads: None,
            written: Vec::with_capacity(alloc, room)?,
            room,
            good_writes: None,
            upset: Upset::Fails,
            piece,
            reads: Calls::none(),
            writes: Calls::none(),
        })
    }

    /// Makes the plan begin again once it has given all.
    pub fn give_for_ever(&mut self)
        ensures { self.new ≡ record self.old { for_ever = true } }
    {
        self.for_ever = true;
    }

    /// Makes one read fail, after `after` good ones.
    pub fn fail_read(&mut self, after: u64)
        ensures { self.new ≡ record self.old { good_reads = Some after } }
    {
        self.good_reads = Some(after);
    }

    /// Upsets one write, after `after` good ones.
    pub fn upset_write(&mut self, after: u64, upset: Upset)
        ensures { self.new ≡ record self.old { good_writes = Some after; upset = upset } }
    {
        self.good_writes = Some(after);
        self.upset = upset;
    }

    /// The bytes that are left to read before the plan ends or begins again.
    pub fn left(&self) -> &[u8]
        ensures { result.now ≡ self.now.left }
    {
        &self.input[self.given..]
    }

    // The place of the next byte after `count` more: the first one, where these are the last and the plan gives for ever.
    fn place_after(&self, count: usize) -> usize
        requires { count ≤ length self.now.left }
        ensures left { drop result self.now.input ≡ left_after self.now count }
        ensures within { result ≤ length self.now.input }
    {
        let place = self.given + count;
        if self.for_ever && place == self.input.len() {
            return 0;
        }
        place
    }

    /// The bytes that were written.
    pub fn written(&self) -> &[u8]
        ensures { result.now ≡ self.now.written }
    {
        self.written.as_slice()
    }
}

impl Source for Plan {
    ghost use Rattle.wb_io.specs.Plan.{Planned, reported_left};

    ghost left = { λ plan. reported_left plan };

    ghost reads = { λ plan. plan.reads };

    fn read(&mut self, buffer: &mut [u8]) -> Result<usize, Failed>
        ensures answer { MatchResult result
            (λ count. (¬ IsUpset self.old.good_reads) × (count ≡ given_count self.old (length buffer.old)))
            (λ _. IsUpset self.old.good_reads) }
        ensures copied { MatchResult result
            (λ count. buffer.new ≡ take count self.old.left ++ drop count buffer.old)
            (λ _. buffer.new ≡ buffer.old) }
        ensures plan { self.new ≡ record self.old {
          left = self.new.left;
          good_reads = good_after self.old.good_reads;
          reads = self.old.reads ++ call (length buffer.old) result buffer.new ∷ [];
        } }
        ensures left { MatchResult result
            (λ count. self.new.left ≡ left_after self.old count)
            (λ _. self.new.left ≡ self.old.left) }

        // As each source:
        ensures called { self.new.reads ≡ self.old.reads ++ call (length buffer.old) result buffer.new ∷ [] }
        ensures within { IfOk result (λ count. count ≤ length buffer.old) }
        ensures gives { MatchResult result
            (λ count. Consumes (reported_left self.old) (reported_left self.new) (take count buffer.new))
            (λ _. Keeps (reported_left self.old) (reported_left self.new)) }
        ensures rest { IfOk result (λ count. drop count buffer.new ≡ drop count buffer.old) }
        ensures end { IfOk result (λ count.
            count ≡ 0 → 0 < length buffer.old → IsAtEnd (reported_left self.new)) }
        ensures untouched { OnErr result (buffer.new ≡ buffer.old) }
    {
        if is_upset(&mut self.good_reads) {
            self.reads = self.reads.failed(buffer.len());
            return Err(Failed);
        }
        let left = &self.input[self.given..];
        let count = buffer.len().min(self.piece).min(left.len());
        buffer[..count].copy_from_slice(&left[..count]);
        self.given = self.place_after(count);
        self.reads = self.reads.moved(buffer.len(), &buffer[..count]);
        Ok(count)
    }
}

impl Sink for Plan {
    ghost written = { λ plan. Some plan.written };

    ghost writes = { λ plan. plan.writes };

    fn write(&mut self, bytes: &[u8]) -> Result<usize, Failed>
        ensures answer { MatchResult result
            (λ count. ((¬ IsUpset self.old.good_writes) × (count ≡ taken_count self.old (length bytes.now)))
            ⊎ (IsUpset self.old.good_writes × (self.old.upset ≡ TakesNone) × (count ≡ 0)))
            (λ _. IsUpset self.old.good_writes × (self.old.upset ≡ Fails)) }
        ensures plan { self.new ≡ record self.old {
          written = self.new.written;
          good_writes = good_after self.old.good_writes;
          writes = self.old.writes ++ call (length bytes.now) result bytes.now ∷ [];
        } }
        ensures written { MatchResult result
            (λ count. self.new.written ≡ self.old.written ++ take count bytes.now)
            (λ _. self.new.written ≡ self.old.written) }

        // As each sink:
        ensures called { self.new.writes ≡ self.old.writes ++ call (length bytes.now) result bytes.now ∷ [] }
        ensures within { IfOk result (λ count. count ≤ length bytes.now) }
        ensures takes { MatchResult result
            (λ count. Appends (Some self.old.written) (Some self.new.written) (take count bytes.now))
            (λ _. Keeps (Some self.old.written) (Some self.new.written)) }
    {
        if is_upset(&mut self.good_writes) {
            return match self.upset {
                Upset::Fails => {
                    self.writes = self.writes.failed(bytes.len());
                    Err(Failed)
                }
                Upset::TakesNone => {
                    self.writes = self.writes.moved(bytes.len(), &[]);
                    Ok(0)
                }
            };
        }
        let count = bytes
            .len()
            .min(self.piece)
            .min(self.room - self.written.len());
        self.written
            .extend_from_slice(&bytes[..count])
            .map_err(|_| Failed)?;
        self.writes = self.writes.moved(bytes.len(), &bytes[..count]);
        Ok(count)
    }
}

// Whether the next call is upset. Good calls are counted from the next one on.
fn is_upset(good: &mut Option<u64>) -> bool
    ensures upset { IsTrue result → IsUpset good.old }
    ensures not { IsFalse result → ¬ IsUpset good.old }
    ensures after { good.new ≡ good_after good.old }
{
    match *good {
        None => false,
        Some(0) => {
            *good = None;
            true
        }
        Some(calls) => {
            *good = Some(calls - 1);
            false
        }
    }
}
