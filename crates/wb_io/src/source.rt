//! Where the bytes of a run come from.
ghost use Rattle.std.specs.Prelude.{◌≡◌, ℕ, ◌<◌, ◌≤◌, List, [], ◌∷◌, ◌++◌, Option, length, take, drop};
ghost use Rattle.std.specs.Prelude.{IfOk, MatchResult, OnErr};
ghost use Rattle.std.specs.Io.KnownBytes.{Consumes, IsAtEnd, Keeps};
ghost use Rattle.wb_io.specs.Calls.{Call, call};

use crate::calls::Calls;
use std::io::Read;

/// A call of a reader or a writer failed. The cause is not reported.
#[derive(Clone, Copy, Debug, PartialEq, Eq)]
pub struct Failed;

/// A reader that reports its calls, and that may report the bytes that are left. Clauses alone see both.
pub trait Source {
    /// The bytes that are left to read, or `None` where they are not reported.
    ghost left: { Self → Option (List ℕ) };

    /// The calls that were made, the oldest first. Each reports the room of its buffer, and the bytes that it gave or
    /// that it failed.
    ghost reads: { Self → List Call };

    /// Puts the next bytes at the front of the buffer, and gives their number. If it is none for a buffer
    /// with room, none are left. A failed call gives nothing.
    fn read(&mut self, buffer: &mut [u8]) -> Result<usize, Failed>
        ensures called { reads self.new ≡ reads self.old ++ call (length buffer.old) result buffer.new ∷ [] }
        ensures within { IfOk result (λ count. count ≤ length buffer.old) }
        ensures gives { MatchResult result
            (λ count. Consumes (left self.old) (left self.new) (take count buffer.new))
            (λ _. Keeps (left self.old) (left self.new)) }
        ensures end { IfOk result (λ count.
            count ≡ 0 → 0 < length buffer.old → IsAtEnd (left self.new)) }
        ensures rest { IfOk result (λ count. drop count buffer.new ≡ drop count buffer.old) }
        ensures untouched { OnErr result (buffer.new ≡ buffer.old) };
}

/// The most bytes that are asked of a reader at once.
pub const PIECE_BYTES: usize = 4096;

/// A reader of std's as a source. It asks the reader once a call, for at most 4096 bytes, and makes no second try.
#[derive(Drop)]
pub struct FromRead<R> {
    reader: R,
    reads: Calls,
}

impl<R: Read> FromRead<R> {
    /// A source of what the reader gives.
    pub fn new(reader: R) -> FromRead<R>
        ensures left { ⟦<FromRead<R> as Source>⟧.left result ≡ R.remaining reader }
        ensures reads { ⟦<FromRead<R> as Source>⟧.reads result ≡ [] }
    {
        FromRead {
            reader,
            reads: Calls::none(),
        }
    }
}

impl<R: Read> Source for FromRead<R> {
    ghost left = { λ source. R.remaining source.reader };

    ghost reads = { λ source. source.reads.list };

    fn read(&mut self, buffer: &mut [u8]) -> Result<usize, Failed> {
        // A reader of std's may write past the bytes that it gives, so it reads into a piece.
        let mut piece = [0u8; PIECE_BYTES];
        let room = buffer.len().min(PIECE_BYTES);
        match self.reader.read(&mut piece[..room]) {
            Ok(count) => {
                buffer[..count].copy_from_slice(&piece[..count]);
                self.reads = self.reads.moved(buffer.len(), &buffer[..count]);
                Ok(count)
            }
            Err(_) => {
                self.reads = self.reads.failed(buffer.len());
                Err(Failed)
            }
        }
    }
}
