//! The log format, read from left to right.

ghost use Rattle.std.specs.Prelude.{◌<◌, List, IfOk, Ok, IsOk, IsErrOf};
ghost use Rattle.input_log.specs.Event.{LogEvent};
ghost use Rattle.input_log.specs.Log.{IsLog};
ghost use Rattle.input_log.specs.Spelling.{IsSpelled};
ghost use Rattle.r3k_word.specs.Reading.{ReadsAs};
ghost use Rattle.input_log.specs.Reading.{ReadsOrLacks, event_at, events_at, log_at, HasEvent};

use crate::event::Event;
use crate::fault::{LogFault, LogKind};
use crate::format::{Version, read_byte, read_count, read_kind, read_time, read_version};
use crate::log::Log;
use std::alloc::Global;

/// An event after one of the time `last`, and the bytes after it.
#[tactic(auto, unfolding(crate::specs::Reading::event_at))]
fn read_event(version: Version, last: u64, bytes: &[u8]) -> Result<(Event, &[u8]), LogKind>
    ensures { ReadsAs (λ x. (x.0, x.1.now)) result (event_at version last bytes.now) }
{
    let (time, rest) = read_time(version, bytes)?;
    if time < last || time > version.last_time() {
        return Err(LogKind::Time);
    }
    let (kind, rest) = read_kind(version, rest)?;
    let (line, rest) = read_byte(rest)?;
    if line > kind.max_line() {
        return Err(LogKind::Line);
    }
    let (byte, rest) = read_byte(rest)?;
    if byte > kind.max_byte() {
        return Err(LogKind::Value);
    }
    let event = Event {
        time,
        kind,
        line,
        byte,
    };
    Ok((event, rest))
}

/// `count` events, and the bytes after them.
fn read_events(
    alloc: Global,
    version: Version,
    count: u32,
    bytes: &[u8],
) -> Result<(Vec<Event>, &[u8]), LogFault>
    ensures value { ReadsOrLacks (λ x. (x.0.items, x.1.now)) result (events_at version count 0 bytes.now) }
    ensures memory { IsErrOf result LogFault.Memory → (0 < count) × IsOk (event_at version 0 bytes.now) }
{
    let mut events = Vec::new(alloc);
    let mut last = 0;
    let mut rest = bytes;
    for _ in 0..count {
        let (event, after) = match read_event(version, last, rest) {
            Ok(read) => read,
            Err(kind) => return Err(LogFault::Bad(kind)),
        };
        last = event.time;
        rest = after;
        events.push(event)?;
    }
    Ok((events, rest))
}

/// The log that all of the bytes are.
#[tactic(auto, unfolding(crate::specs::Reading::log_at))]
fn read_all(alloc: Global, bytes: &[u8]) -> Result<Log, LogFault>
    ensures exact { ReadsOrLacks (λ log. log) result (log_at bytes.now) }
    ensures memory { IsErrOf result LogFault.Memory → HasEvent bytes.now }
{
    let (version, rest) = read_version(bytes)?;
    let (count, rest) = read_count(rest)?;
    let (events, rest) = read_events(alloc, version, count, rest)?;
    if !rest.is_empty() {
        return Err(LogFault::Bad(LogKind::Extra));
    }
    Ok(Log { events })
}

/// The log that all of the bytes spell: eight bytes of magic, which name the version, the number of events in
/// four bytes, and then each event. In version one an event is its time in four bytes, its line and its byte, and is the
/// arrival of a byte. In version two it is its time in eight bytes, its kind, its line and its byte. Numbers are
/// little-endian; kind, line and byte are a byte each.
pub fn read_log(alloc: Global, bytes: &[u8]) -> Result<Log, LogFault>
    // What is read is spelled so in a version with room for it, and keeps what each log keeps.
    ensures found { IfOk result (λ log. IsSpelled bytes.now log × IsLog log) }
    // What is spelled so is read, unless memory runs out.
    ensures only { (log : List LogEvent) → IsLog log → IsSpelled bytes.now log →
        ReadsOrLacks (λ log. log) result (Ok log) }
    // Which fault it is: the first from left to right.
    ensures exact { ReadsOrLacks (λ log. log) result (log_at bytes.now) }
    // Memory is asked for only where an event is there.
    ensures memory { IsErrOf result LogFault.Memory → HasEvent bytes.now }
{
    read_all(alloc, bytes)
}
