//! Edits of a log. A refused edit leaves the log as it was.

ghost use Rattle.std.specs.Prelude.{◌≡◌, ◌<◌, ◌≤◌, length, slice_get};
ghost use Rattle.std.specs.List.{insert, remove, remove_range};
ghost use Rattle.input_log.specs.Edits.{up_to, without};
ghost use Rattle.input_log.specs.Log.{AreInOrder, earlier_than};

use crate::edit::Edit;
use crate::event::{Event, Kind};
use crate::limits::{MAX_EVENTS, MAX_POSITION, MAX_TIME};
use crate::log::Log;
use refusal::Fault;

impl Log {
    ghost use Rattle.std.specs.Prelude.{◌≡◌, ◌<◌, ◌≤◌, length, IfOk, IfErr};
    ghost use Rattle.refusal.specs.declared.fault.Fault.TheVariants.{NoEvent};
    ghost use Rattle.refusal.specs.Given.{Changes, ChangesOrLacks};
    ghost use Rattle.input_log.specs.declared.event.Kind.TheVariants.{Byte, Framing, Wire};
    ghost use Rattle.input_log.specs.Edits.{ChangesBy, adding, deleting, edited, erasing, event_place, moving, setting, time_of, times_of, up_to, without};

    /// Makes an edit, and reports the number that the event then has which it adds, sets or moves. Its refusals are those of
    /// the call that it makes.
    pub fn edit(&mut self, edit: Edit) -> Result<Option<usize>, Fault>
        ensures log { ChangesBy edit (edited edit self.old) self.old self.new result }
        ensures place { IfOk result (λ place. place ≡ event_place edit self.old) }
    {
        match edit {
            Edit::Add {
                time,
                kind,
                line,
                byte,
            } => Ok(Some(self.put(time, kind, line, byte)?)),
            Edit::Delete { place } => {
                self.del(place)?;
                Ok(None)
            }
            Edit::Set { place, byte } => {
                self.set(place, byte)?;
                Ok(Some(place as usize))
            }
            Edit::Move { place, time } => Ok(Some(self.move_to(place, time)?)),
            Edit::Erase { from, to } => {
                self.erase(from, to)?;
                Ok(None)
            }
        }
    }

    /// The first and the last time that an edit may change: no event of another time is other after it.
    pub fn times_of(&self, edit: Edit) -> (u64, u64)
        ensures { result ≡ times_of edit self.now }
    {
        match edit {
            Edit::Add { time, .. } => (time, time),
            Edit::Delete { place } | Edit::Set { place, .. } => {
                let time = self.time_at(place);
                (time, time)
            }
            Edit::Move { place, time } => {
                let old = self.time_at(place);
                (old.min(time), old.max(time))
            }
            Edit::Erase { from, to } => (from, to),
        }
    }

    // The time of the event of a number, or 0 where there is none.
    fn time_at(&self, place: u64) -> u64
        ensures { result ≡ time_of (slice_get self.now place) }
    {
        match self.events.get(place as usize) {
            Some(event) => event.time,
            None => 0,
        }
    }

    /// Adds the arrival of a byte after all events of its time or an earlier one, and reports its number. Events are
    /// numbered from 0. `Range` if the line is above 3, the time above 1,099,511,627,774, or the log full; else `Memory` if
    /// memory ran out.
    pub fn add(&mut self, time: u64, line: u8, byte: u8) -> Result<usize, Fault>
        ensures log { ChangesOrLacks (adding (record { time = time; kind = Byte; line = line; byte = byte }) self.old)
            self.old self.new result }
        ensures place { IfOk result (λ place. place ≡ length (up_to time self.old)) }
    {
        self.put(time, Kind::Byte, line, byte)
    }

    /// Adds the arrival of a byte with a framing error, as `add` does that of a byte.
    pub fn ferr(&mut self, time: u64, line: u8, byte: u8) -> Result<usize, Fault>
        ensures log { ChangesOrLacks (adding (record { time = time; kind = Framing; line = line; byte = byte }) self.old)
            self.old self.new result }
        ensures place { IfOk result (λ place. place ≡ length (up_to time self.old)) }
    {
        self.put(time, Kind::Framing, line, byte)
    }

    /// Adds a level, 0 or 1, of an external line, 0 to 2, as `add` does a byte. `Range` also if there is no such line or
    /// level.
    pub fn wire(&mut self, time: u64, line: u8, level: u8) -> Result<usize, Fault>
        ensures log { ChangesOrLacks (adding (record { time = time; kind = Wire; line = line; byte = level }) self.old)
            self.old self.new result }
        ensures place { IfOk result (λ place. place ≡ length (up_to time self.old)) }
    {
        self.put(time, Kind::Wire, line, level)
    }

    // Adds an event after all events of its time or an earlier one, and reports its number.
    fn put(&mut self, time: u64, kind: Kind, line: u8, byte: u8) -> Result<usize, Fault>
        ensures log { ChangesOrLacks (adding (record { time = time; kind = kind; line = line; byte = byte }) self.old)
            self.old self.new result }
        ensures place { IfOk result (λ place. place ≡ length (up_to time self.old)) }
    {
        if line > kind.max_line()
            || byte > kind.max_byte()
            || time > MAX_TIME
            || self.events.len() >= MAX_EVENTS
        {
            return Err(Fault::Range);
        }
        let place = place_after(&self.events, time);
        let event = Event {
            time,
            kind,
            line,
            byte,
        };
        if self.events.insert(place, event).is_err() {
            return Err(Fault::Memory);
        }
        Ok(place)
    }

    /// Deletes the event of a number. `NoEvent` if there is none. It takes no memory.
    #[tactic(auto, using(crate::proofs::Editing::log_removed, crate::proofs::Editing::deleted))]
    pub fn del(&mut self, place: u64) -> Result<(), Fault>
        ensures { Changes (deleting place self.old) self.old self.new result }
    {
        let index = self.index_of(place)?;
        self.events.remove(index);
        Ok(())
    }

    /// Gives the event of a number another byte. `NoEvent` if there is none, `Range` if it is the level of an external line
    /// and the byte is above 1. It takes no memory.
    pub fn set(&mut self, place: u64, byte: u8) -> Result<(), Fault>
        ensures { Changes (setting place byte self.old) self.old self.new result }
    {
        let index = self.index_of(place)?;
        let event = self.events[index];
        if byte > event.kind.max_byte() {
            return Err(Fault::Range);
        }
        self.events[index] = Event { byte, ..event };
        Ok(())
    }

    /// Moves the event of a number to another time, after all other events of that time or an earlier one, and reports its
    /// new number. `Range` if the time is above 1,099,511,627,774; else `NoEvent` if there is no such event. It takes no
    /// memory.
    pub fn move_to(&mut self, place: u64, time: u64) -> Result<usize, Fault>
        ensures log { Changes (moving place time self.old) self.old self.new result }
        ensures place { IfOk result (λ to. to ≡ length (up_to time (without place self.old))) }
    {
        if time > MAX_TIME {
            return Err(Fault::Range);
        }
        let from = self.index_of(place)?;
        let to = place_of_moved(&self.events, from, time);
        let event = self.events[from];
        relocate(&mut self.events, from, to, Event { time, ..event });
        Ok(to)
    }

    /// Erases the events of the times `from` to `to - 1`. `Range` if `from` is above `to`, or `to` above 1,099,511,627,775. It
    /// takes no memory.
    pub fn erase(&mut self, from: u64, to: u64) -> Result<(), Fault>
        ensures { Changes (erasing from to self.old) self.old self.new result }
    {
        if from > to || to > MAX_POSITION {
            return Err(Fault::Range);
        }
        let start = place_at(&self.events, from);
        let end = place_at(&self.events, to);
        close_gap(&mut self.events, start, end);
        Ok(())
    }

    // Where the event of a number stands, if there is one.
    fn index_of(&self, place: u64) -> Result<usize, Fault>
        ensures found { IfOk result (λ index. (index ≡ place) × (index < length self.now)) }
        ensures missing { IfErr result (λ fault. (fault ≡ NoEvent) × (length self.now ≤ place)) }
    {
        if place < self.events.len() as u64 {
            Ok(place as usize)
        } else {
            Err(Fault::NoEvent)
        }
    }
}

// How many events are of earlier times, found by halving.
fn place_at(events: &[Event], time: u64) -> usize
    requires { AreInOrder events.now }
    ensures place { result ≡ length (earlier_than time events.now) }
    ensures bound { result ≤ length events.now }
{
    events.partition_point(|event| event.time < time)
}

// How many events are of this time or an earlier one, found by halving.
fn place_after(events: &[Event], time: u64) -> usize
    requires { AreInOrder events.now }
    ensures place { result ≡ length (up_to time events.now) }
    ensures bound { result ≤ length events.now }
{
    events.partition_point(|event| event.time <= time)
}

// How many of the other events are of this time or an earlier one.
fn place_of_moved(events: &[Event], from: usize, time: u64) -> usize
    requires order { AreInOrder events.now }
    requires from_in { from < length events.now }
    ensures place { result ≡ length (up_to time (without from events.now)) }
    ensures bound { result < length events.now }
{
    let after = place_after(events, time);
    let event = events[from];
    if event.time <= time { after - 1 } else { after }
}

// Takes out the event of one place and puts another in at a place of what is left. What lies between moves by one.
fn relocate(events: &mut Vec<Event>, from: usize, to: usize, event: Event)
    requires from_in { from < length events.old.items }
    requires to_in { to < length events.old.items }
    ensures { events.new.items ≡ insert (remove events.old.items from) to event }
{
    if from < to {
        events.copy_within(from + 1..to + 1, from);
    } else {
        events.copy_within(to..from, to + 1);
    }
    events[to] = event;
}

// Takes out the events from one place up to another. What stands after them moves down at once.
fn close_gap(events: &mut Vec<Event>, start: usize, end: usize)
    requires in_order { start ≤ end }
    requires end_in { end ≤ length events.old.items }
    ensures { events.new.items ≡ remove_range events.old.items start end }
{
    let len = events.len();
    events.copy_within(end..len, start);
    events.truncate(len - (end - start));
}
