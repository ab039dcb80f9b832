//! An event of the log.

ghost use Rattle.std.specs.Prelude.{◌≡◌, ◌↔◌, IsTrue};

use std::marker::Model;

/// What kind of event comes from outside.
#[derive(Clone, Copy, Debug, Default, PartialEq, Eq)]
pub enum Kind {
    /// A byte arrives at a serial line.
    #[default]
    Byte,
    /// A byte arrives at a serial line with a framing error.
    Framing,
    /// An external line gets a level.
    Wire,
}

impl Kind {
    ghost use Rattle.input_log.specs.Event.{max_line, max_byte};

    /// The greatest line of an event of this kind: 3 of a serial line, 2 of an external one.
    pub fn max_line(self) -> u8
        ensures { result ≡ max_line self }
    {
        match self {
            Kind::Byte | Kind::Framing => 3,
            Kind::Wire => 2,
        }
    }

    /// The greatest byte of an event of this kind: 255 of a serial line, 1 of an external one.
    pub fn max_byte(self) -> u8
        ensures { result ≡ max_byte self }
    {
        match self {
            Kind::Byte | Kind::Framing => 255,
            Kind::Wire => 1,
        }
    }
}

/// What comes from outside in the step `time`: a byte, with or without a framing error, at a line of the serial part, which
/// is at most 3; or a level, 0 or 1, of an external line, which is at most 2.
#[derive(Clone, Copy, Debug, Default, PartialEq, Eq)]
pub struct Event {
    pub time: u64,
    pub kind: Kind,
    pub line: u8,
    pub byte: u8,
}

impl Model for Event {
    ghost use Rattle.std.specs.Prelude.{◌≤◌};
    ghost use Rattle.input_log.specs.Event.{LogEvent, max_line, max_byte};

    ghost Value = { LogEvent };

    ghost view = { λ event. record { time = event.time; kind = event.kind; line = event.line; byte = event.byte } };

    ghost invariant = { λ event. (event.line ≤ max_line event.kind) × (event.byte ≤ max_byte event.kind) };

    ghost inverse = { λ event. record { time = event.time; kind = event.kind; line = event.line; byte = event.byte } };
}

/// Whether two lists of events are equal.
pub fn same_events(a: &[Event], b: &[Event]) -> bool
    ensures { IsTrue result ↔ (a.now ≡ b.now) }
{
    a == b
}
