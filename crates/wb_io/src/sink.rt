//! Where the text of a run goes.
ghost use Rattle.std.specs.Prelude.{◌≡◌, ℕ, ◌≤◌, List, [], ◌∷◌, ◌++◌, Option, length, take, IfOk, MatchResult};
ghost use Rattle.std.specs.Io.KnownBytes.{Appends, Keeps};
ghost use Rattle.wb_io.specs.Calls.{Call, call};

use crate::calls::Calls;
use crate::source::Failed;
use std::io::Write;

/// A writer that reports its calls, and that may report the bytes that it holds. Clauses alone see both.
pub trait Sink {
    /// The bytes that were written so far, or `None` where they are not reported.
    ghost written: { Self → Option (List ℕ) };

    /// The calls that were made, the oldest first. Each reports how many bytes it was given, and those that it took or
    /// that it failed.
    ghost writes: { Self → List Call };

    /// Takes a front of the bytes, and gives its length. A failed call takes nothing.
    fn write(&mut self, bytes: &[u8]) -> Result<usize, Failed>
        ensures called { writes self.new ≡ writes self.old ++ call (length bytes.now) result bytes.now ∷ [] }
        ensures within { IfOk result (λ count. count ≤ length bytes.now) }
        ensures takes { MatchResult result
            (λ count. Appends (written self.old) (written self.new) (take count bytes.now))
            (λ _. Keeps (written self.old) (written self.new)) };
}

/// A writer of std's as a sink. It calls the writer once a call. What the writer keeps back in a buffer counts as written,
/// so give it a writer without one.
#[derive(Drop)]
pub struct ToWrite<W> {
    writer: W,
    writes: Calls,
}

impl<W: Write> ToWrite<W> {
    /// A sink into the writer.
    pub fn new(writer: W) -> ToWrite<W>
        ensures written { ⟦<ToWrite<W> as Sink>⟧.written result ≡ W.contents writer }
        ensures writes { ⟦<ToWrite<W> as Sink>⟧.writes result ≡ [] }
    {
        ToWrite {
            writer,
            writes: Calls::none(),
        }
    }
}

impl<W: Write> Sink for ToWrite<W> {
    ghost written = { λ sink. W.contents sink.writer };

    ghost writes = { λ sink. sink.writes.list };

    fn write(&mut self, bytes: &[u8]) -> Result<usize, Failed> {
        match self.writer.write(bytes) {
            Ok(count) => {
                self.writes = self.writes.moved(bytes.len(), &bytes[..count]);
                Ok(count)
            }
            Err(_) => {
                self.writes = self.writes.failed(bytes.len());
                Err(Failed)
            }
        }
    }
}
