//! A run's way along the events of a window.

ghost use Rattle.std.specs.Prelude.{◌≡◌, ◌≤◌, All, length, nat_le, nat_lt};
ghost use Rattle.std.specs.List.{prefix_len};
ghost use Rattle.input_log.specs.Log.{AreInOrder};

use crate::event::Event;
use std::marker::Model;

/// Events in order of time, for a run that goes along them step by step.
#[derive(Debug, Drop)]
pub struct Cursor<'a> {
    rest: &'a [Event],
    // No event that is left is before this time.
    next_time: u64,
}

impl<'a> Model for Cursor<'a> {
    ghost use Rattle.std.specs.Prelude.{List, All, ◌≤◌};
    ghost use Rattle.input_log.specs.Event.{LogEvent};
    ghost use Rattle.input_log.specs.Log.{AreInOrder};

    ghost Value = { List LogEvent };

    ghost view = { λ cursor. cursor.rest.now };

    ghost invariant = { λ cursor. AreInOrder cursor.rest.now
        × All (λ event. cursor.next_time ≤ event.time) cursor.rest.now };
}

impl<'a> Cursor<'a> {
    ghost use Rattle.std.specs.Prelude.{◌≡◌, ◌+◌, ◌<◌, ◌≤◌, [], ℕ, List};
    ghost use Rattle.input_log.specs.Event.{LogEvent};
    ghost use Rattle.input_log.specs.Log.{AreInOrder, window_of, later_than};

    /// The way along events that are in order of time.
    pub fn new(events: &'a [Event]) -> Cursor<'a>
        requires { AreInOrder events.now }
        ensures { result ≡ events.now }
    {
        Cursor {
            rest: events,
            next_time: first_time(events),
        }
    }

    /// The events of a time. It goes past them, and so past all of earlier times.
    #[inline]
    pub fn next(&mut self, time: u64) -> &'a [Event]
        ensures events { result.now ≡ window_of time (time + 1) self.old }
        ensures left { self.new ≡ later_than time self.old }
        // What is left is the window from this time on, and the events given are those of this time in the log.
        ensures of_log { (to : ℕ) (log : List LogEvent) → time < to → self.old ≡ window_of time to log →
            result.now ≡ window_of time (time + 1) log }
        ensures left_of_log { (to : ℕ) (log : List LogEvent) → self.old ≡ window_of time to log →
            self.new ≡ window_of (time + 1) to log }
    {
        if time < self.next_time {
            return &[];
        }
        self.take(time)
    }

    /// For how many times from this one on no event is left, as far as it sees.
    #[inline]
    pub fn free(&self, time: u64) -> u64
        ensures { (k : ℕ) → k < result → window_of (time + k) (time + k + 1) self.now ≡ [] }
    {
        self.next_time.saturating_sub(time)
    }

    // The events of a time where an event may be of this time or before it.
    #[cold]
    fn take(&mut self, time: u64) -> &'a [Event]
        ensures events { result.now ≡ window_of time (time + 1) self.old }
        ensures left { self.new ≡ later_than time self.old }
    {
        let (_, later) = self.rest.split_at(count_before(self.rest, time));
        let (events, rest) = later.split_at(count_up_to(later, time));
        self.rest = rest;
        self.next_time = first_time(rest);
        events
    }
}

// How many events stand before those of a time or later ones.
fn count_before(events: &[Event], time: u64) -> usize
    ensures count { result ≡ prefix_len (λ event. nat_lt event.time time) events.now }
    ensures bound { result ≤ length events.now }
{
    events.iter().take_while(|event| event.time < time).count()
}

// How many events stand before those of later times.
fn count_up_to(events: &[Event], time: u64) -> usize
    ensures count { result ≡ prefix_len (λ event. nat_le event.time time) events.now }
    ensures bound { result ≤ length events.now }
{
    events.iter().take_while(|event| event.time <= time).count()
}

// The first event's time, or else the greatest number.
fn first_time(events: &[Event]) -> u64
    requires { AreInOrder events.now }
    ensures { All (λ event. result ≤ event.time) events.now }
{
    events.first().map_or(u64::MAX, |event| event.time)
}
