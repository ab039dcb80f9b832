//! How the reads of a reader and the calls of a writer follow each other.
ghost use Rattle.std.specs.Prelude.{◌≡◌, ◌<◌, ◌≤◌, List, [], ◌∷◌, ◌++◌, length, take, drop, IfOk, MatchResult, OnErr};
ghost use Rattle.std.specs.Borrow.{ftrue};
ghost use Rattle.std.specs.Io.KnownBytes.{Consumes, IsAtEnd, Keeps};
ghost use Rattle.wb_io.specs.Calls.{call};

use crate::sink::Sink;
use crate::source::{Failed, Source};
use std::marker::{Model, PhantomData};

/// What two values were at some times, the oldest first. Clauses alone read it: it takes no memory.
#[derive(Drop)]
pub(crate) struct Seen<A, B> {
    of: PhantomData<(A, B)>,
    pub ghost list: { List (A × B) },
}

impl<A, B> Model for Seen<A, B> {
    ghost also_owns = { λ _. ftrue };
}

impl<A, B> Seen<A, B> {
    /// At no time.
    pub(crate) fn never() -> Seen<A, B>
        ensures { result.list ≡ [] }
    {
        Seen { of: PhantomData }
    }

    /// And now.
    pub(crate) fn and(&self, first: &A, second: &B) -> Seen<A, B>
        ensures { result.list ≡ self.now.list ++ (first.now, second.now) ∷ [] }
    {
        Seen { of: PhantomData }
    }
}

/// The order of a reader's and a writer's calls: for each read that was made through it, the calls that both had got
/// before. Clauses alone see it: it takes no memory.
#[derive(Drop)]
pub struct Order<R: Source, W: Sink> {
    found: Seen<R, W>,
}

impl<R: Source, W: Sink> Model for Order<R, W> {
    ghost use Rattle.std.specs.Prelude.{List, map};
    ghost use Rattle.wb_io.specs.Calls.{Moment};

    ghost Value = { List Moment };

    ghost view = { λ order. map (λ both. record { reads = R.reads both.0; writes = W.writes both.1 }) order.found.list };
}

impl<R: Source, W: Sink> Order<R, W> {
    /// No read was made.
    pub fn new() -> Order<R, W>
        ensures { result ≡ [] }
    {
        Order {
            found: Seen::never(),
        }
    }

    /// Makes a read, and notes which calls the reader and the writer had got before it.
    #[tactic(auto, using(crate::proofs::CallLemmas::map_append_one))]
    pub fn read(&mut self, reader: &mut R, writer: &W, buffer: &mut [u8]) -> Result<usize, Failed>
        ensures noted { self.new ≡ self.old ++ record { reads = R.reads reader.old; writes = W.writes writer.now } ∷ [] }

        // As each source:
        ensures called { R.reads reader.new ≡ R.reads reader.old ++ call (length buffer.old) result buffer.new ∷ [] }
        ensures within { IfOk result (λ count. count ≤ length buffer.old) }
        ensures gives { MatchResult result
            (λ count. Consumes (R.left reader.old) (R.left reader.new) (take count buffer.new))
            (λ _. Keeps (R.left reader.old) (R.left reader.new)) }
        ensures end { IfOk result (λ count.
            count ≡ 0 → 0 < length buffer.old → IsAtEnd (R.left reader.new)) }
        ensures rest { IfOk result (λ count. drop count buffer.new ≡ drop count buffer.old) }
        ensures untouched { OnErr result (buffer.new ≡ buffer.old) }
    {
        self.found = self.found.and(reader, writer);
        reader.read(buffer)
    }
}
