//! The part of a script line that has come so far.
use arrayvec::ArrayVec;
use std::marker::Model;

/// The bytes of a line before its line feed has come. Those after the first 258 are dropped: a line of that length is
/// refused, whatever follows.
#[derive(Drop)]
pub(crate) struct LineBuffer {
    kept: ArrayVec<u8, 258>,
}

impl Model for LineBuffer {
    ghost use Rattle.std.specs.Prelude.{List, ℕ};
    ghost use Rattle.workbench.specs.LineBuffer.{HasNoFeed};

    ghost Value = { List ℕ };

    ghost view = { λ line. line.kept.items };

    ghost invariant = { λ line. HasNoFeed line.kept.items };
}

impl LineBuffer {
    ghost use Rattle.std.specs.Prelude.{◌≡◌, ◌≢◌, ◌++◌, ◌∷◌, [], ◌<◌, length, if◌then◌else◌, nat_lt};
    ghost use Rattle.workbench.specs.LineBuffer.{HasNoFeed};

    /// Nothing of a line.
    pub(crate) fn new() -> LineBuffer
        ensures { result ≡ [] }
    {
        LineBuffer {
            kept: ArrayVec::new(),
        }
    }

    /// The bytes that were kept.
    pub(crate) fn bytes(&self) -> &[u8]
        ensures kept { result.now ≡ self.now }
        ensures no_feed { HasNoFeed result.now }
    {
        self.kept.as_slice()
    }

    /// Takes one more byte.
    #[tactic(auto, using(crate::proofs::Feeds::no_feed_push))]
    pub(crate) fn push(&mut self, byte: u8)
        requires { byte ≢ 10 }
        ensures kept { self.new ≡ (if nat_lt (length self.old) 258 then self.old ++ byte ∷ [] else self.old) }
        ensures no_feed { HasNoFeed self.old }
    {
        if !self.kept.is_full() {
            self.kept.push(byte);
        }
    }

    /// Forgets the line.
    pub(crate) fn clear(&mut self)
        ensures { self.new ≡ [] }
    {
        self.kept.clear();
    }
}
