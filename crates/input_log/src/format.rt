//! The versions of the log's format, and the fields that it is made of.

ghost use Rattle.std.specs.Prelude.{◌≡◌};
ghost use Rattle.r3k_word.specs.Reading.{ReadsAs};
ghost use Rattle.input_log.specs.Reading.{byte_at, version_at, count_at, time_at, kind_at};

use crate::event::Kind;
use crate::fault::LogKind;
use crate::limits::{MAX_EVENTS, MAX_TIME};
use r3k_word::reading::{read_bytes, read_number};

/// A version of the log's format.
#[derive(Clone, Copy, Debug, PartialEq, Eq)]
pub enum Version {
    /// All events are bytes, and each time has four bytes.
    One,
    /// Each event has a kind, and a time of eight bytes.
    Two,
}

/// The first eight bytes of a log in version one.
pub const MAGIC_ONE: [u8; 8] = *b"R3KLOG1\n";

/// The first eight bytes of a log in version two.
pub const MAGIC_TWO: [u8; 8] = *b"R3KLOG2\n";

/// How many bytes stand before the events.
pub const HEADER_BYTES: usize = 12;

/// The greatest time of an event in version one.
pub const LAST_TIME_ONE: u64 = 4_294_967_294;

impl Version {
    ghost use Rattle.std.specs.Prelude.{◌≡◌, length};
    ghost use Rattle.input_log.specs.Event.{LogEvent};
    ghost use Rattle.input_log.specs.Spelling.{magic_of, last_time, event_bytes};

    /// The first eight bytes of a log.
    pub fn magic(self) -> [u8; 8]
        ensures { result ≡ magic_of self }
    {
        match self {
            Version::One => MAGIC_ONE,
            Version::Two => MAGIC_TWO,
        }
    }

    /// How many bytes an event has.
    pub fn event_bytes(self) -> usize
        ensures { (event : LogEvent) → result ≡ length (event_bytes self event) }
    {
        match self {
            Version::One => 6,
            Version::Two => 11,
        }
    }

    /// The greatest time of an event.
    pub fn last_time(self) -> u64
        ensures { result ≡ last_time self }
    {
        match self {
            Version::One => LAST_TIME_ONE,
            Version::Two => MAX_TIME,
        }
    }
}

/// One byte, and the bytes after it.
pub fn read_byte(bytes: &[u8]) -> Result<(u8, &[u8]), LogKind>
    ensures { ReadsAs (λ x. (x.0, x.1.now)) result (byte_at bytes.now) }
{
    match bytes {
        [byte, rest @ ..] => Ok((*byte, rest)),
        [] => Err(LogKind::Short),
    }
}

/// The version that the first eight bytes name, and the bytes after them.
#[tactic(auto, unfolding(crate::specs::Reading::version_at))]
pub fn read_version(bytes: &[u8]) -> Result<(Version, &[u8]), LogKind>
    ensures { ReadsAs (λ x. (x.0, x.1.now)) result (version_at bytes.now) }
{
    let (magic, rest) = read_bytes(LogKind::Short, 8, bytes)?;
    if magic == MAGIC_ONE.as_slice() {
        Ok((Version::One, rest))
    } else if magic == MAGIC_TWO.as_slice() {
        Ok((Version::Two, rest))
    } else {
        Err(LogKind::Magic)
    }
}

/// The number of events, and the bytes after it.
#[tactic(auto, unfolding(crate::specs::Reading::count_at))]
pub fn read_count(bytes: &[u8]) -> Result<(u32, &[u8]), LogKind>
    ensures { ReadsAs (λ x. (x.0, x.1.now)) result (count_at bytes.now) }
{
    let (count, rest) = read_number(LogKind::Short, bytes)?;
    if count as usize > MAX_EVENTS {
        return Err(LogKind::Count);
    }
    Ok((count, rest))
}

/// A time, and the bytes after it.
#[tactic(auto, unfolding(crate::specs::Reading::time_at))]
pub fn read_time(version: Version, bytes: &[u8]) -> Result<(u64, &[u8]), LogKind>
    ensures { ReadsAs (λ x. (x.0, x.1.now)) result (time_at version bytes.now) }
{
    let (low, rest) = read_number(LogKind::Short, bytes)?;
    match version {
        Version::One => Ok((u64::from(low), rest)),
        Version::Two => {
            let (high, rest) = read_number(LogKind::Short, rest)?;
            Ok((u64::from(low) + (u64::from(high) << 32), rest))
        }
    }
}

/// A kind, and the bytes after it. In version one none is spelled.
#[tactic(auto, unfolding(crate::specs::Reading::kind_at))]
pub fn read_kind(version: Version, bytes: &[u8]) -> Result<(Kind, &[u8]), LogKind>
    ensures { ReadsAs (λ x. (x.0, x.1.now)) result (kind_at version bytes.now) }
{
    match version {
        Version::One => Ok((Kind::Byte, bytes)),
        Version::Two => {
            let (number, rest) = read_byte(bytes)?;
            let kind = match number {
                0 => Kind::Byte,
                1 => Kind::Framing,
                2 => Kind::Wire,
                _ => return Err(LogKind::Kind),
            };
            Ok((kind, rest))
        }
    }
}
