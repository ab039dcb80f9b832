//! The log: a list of events in order of time, searched by halving.

ghost use Rattle.std.specs.Prelude.{◌≡◌, [], List};
ghost use Rattle.input_log.specs.Event.{LogEvent};
ghost use Rattle.input_log.specs.Log.{IsLog, AreInOrder, AreWithin, window_of};

use crate::event::Event;
use std::alloc::Global;
use std::marker::Model;

/// The events of a run, in order of time. Events of equal time arrive in the order of the log.
#[derive(Debug, Drop)]
pub struct Log {
    pub(crate) events: Vec<Event>,
}

impl Model for Log {
    ghost Value = { List LogEvent };

    ghost view = { λ log. log.events.items };

    ghost invariant = { λ log. IsLog log.events.items };
}

impl Log {
    /// The log without events. It takes no memory.
    pub fn new(alloc: Global) -> Log
        ensures { result ≡ [] }
    {
        Log {
            events: Vec::new(alloc),
        }
    }

    /// All events, in order.
    pub fn events(&self) -> &[Event]
        ensures all { result.now ≡ self.now }
        ensures log { IsLog result.now }
    {
        &self.events
    }

    /// The events of the times `from` to `to - 1`, in order: none where `from` is `to` or above it.
    /// They are found by halving, without memory.
    pub fn window(&self, from: u64, to: u64) -> &[Event]
        ensures events { result.now ≡ window_of from to self.now }
        ensures in_order { AreInOrder result.now }
        ensures within { AreWithin from to result.now }
    {
        window_in(&self.events, from, to)
    }
}

// The events of a window, where all are in order of time.
fn window_in(events: &[Event], from: u64, to: u64) -> &[Event]
    requires { AreInOrder events.now }
    ensures { result.now ≡ window_of from to events.now }
{
    let start = events.partition_point(|event| event.time < from);
    let later = &events[start..];
    let end = later.partition_point(|event| event.time < to);
    &later[..end]
}
