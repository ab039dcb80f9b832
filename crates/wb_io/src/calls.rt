// The calls of a reader or a writer. They are tied to nothing in memory, so what is said of them binds code that is generic
// over a source or a sink.
ghost use Rattle.std.specs.Prelude.{◌≡◌, List, [], ◌∷◌, ◌++◌, Some, None};
ghost use Rattle.std.specs.Coded.{coded_list};
ghost use Rattle.wb_io.specs.Calls.{Call, call_code};
ghost use Rattle.std.specs.Borrow.{ftrue};

use std::marker::Model;

/// The calls so far, the oldest first. Clauses alone read them: they take no memory, and may be any number.
#[derive(Drop)]
pub(crate) struct Calls {
    pub ghost list: { List Call } by { coded_list call_code },
}

impl Model for Calls {
    ghost also_owns = { λ _. ftrue };
}

impl Calls {
    /// No call.
    pub(crate) fn none() -> Calls
        ensures { result.list ≡ [] }
    {
        Calls {}
    }

    /// One more call, which was asked for `asked` bytes and moved these.
    pub(crate) fn moved(&self, asked: usize, bytes: &[u8]) -> Calls
        ensures { result.list ≡ self.now.list ++ record { asked = asked; moved = Some bytes.now } ∷ [] }
    {
        Calls {}
    }

    /// One more call, which was asked for `asked` bytes and failed.
    pub(crate) fn failed(&self, asked: usize) -> Calls
        ensures { result.list ≡ self.now.list ++ record { asked = asked; moved = None } ∷ [] }
    {
        Calls {}
    }
}
