//! An edit of the log.

use crate::event::Kind;

/// An edit of a log. An event is named by its number, counted from 0.
#[derive(Clone, Copy, Debug, PartialEq, Eq)]
pub enum Edit {
    /// An event is added after all events of its time or an earlier one.
    Add {
        time: u64,
        kind: Kind,
        line: u8,
        byte: u8,
    },
    /// An event is deleted.
    Delete {
        place: u64,
    },
    /// An event gets another byte.
    Set {
        place: u64,
        byte: u8,
    },
    /// An event is deleted, and added again at another time.
    Move {
        place: u64,
        time: u64,
    },
    /// The events of the times `from` to `to - 1` are erased.
    Erase {
        from: u64,
        to: u64,
    },
}
