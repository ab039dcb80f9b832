//! The log format, written.

ghost use Rattle.std.specs.Prelude.{◌≡◌, ◌++◌, flat_map, IfOk, OnOk, All, IsTrue};
ghost use Rattle.r3k_word.specs.Word.{bytes_of};
ghost use Rattle.input_log.specs.Spelling.{event_bytes, has_room, spelling, version_for, kind_number, Fits};

use crate::event::{Event, Kind};
use crate::format::{HEADER_BYTES, LAST_TIME_ONE, Version};
use crate::log::Log;
use byteorder::{ByteOrder, LittleEndian};
use std::alloc::{AllocError, Global};

/// The first version that has room for all events.
fn version_for(events: &[Event]) -> Version
    ensures { result ≡ version_for events.now }
{
    for event in events {
        if event.kind != Kind::Byte || event.time > LAST_TIME_ONE {
            return Version::Two;
        }
    }
    Version::One
}

/// The number of a kind.
fn kind_number(kind: Kind) -> u8
    ensures { result ≡ kind_number kind }
{
    match kind {
        Kind::Byte => 0,
        Kind::Framing => 1,
        Kind::Wire => 2,
    }
}

/// Appends a number of 32 bits.
fn push_number(bytes: &mut Vec<u8>, number: u32) -> Result<(), AllocError>
    ensures { OnOk result (bytes.new.items ≡ bytes.old.items ++ bytes_of number) }
{
    let mut field = [0; 4];
    LittleEndian::write_u32(&mut field, number);
    bytes.extend_from_slice(&field)
}

/// Appends an event.
fn push_event(bytes: &mut Vec<u8>, version: Version, event: Event) -> Result<(), AllocError>
    requires { IsTrue (has_room version event) }
    ensures { OnOk result (bytes.new.items ≡ bytes.old.items ++ event_bytes version event) }
{
    match version {
        Version::One => push_number(bytes, event.time as u32)?,
        Version::Two => {
            push_number(bytes, (event.time % (1 << 32)) as u32)?;
            push_number(bytes, (event.time >> 32) as u32)?;
            bytes.push(kind_number(event.kind))?;
        }
    }
    bytes.push(event.line)?;
    bytes.push(event.byte)?;
    Ok(())
}

/// Appends events.
fn push_events(bytes: &mut Vec<u8>, version: Version, events: &[Event]) -> Result<(), AllocError>
    requires { Fits version events.now }
    ensures { OnOk result (bytes.new.items ≡ bytes.old.items ++ flat_map (event_bytes version) events.now) }
{
    for event in events {
        push_event(bytes, version, *event)?;
    }
    Ok(())
}

/// The bytes of a log in the log format: in version one where every event is the arrival of a byte and no time is above
/// 4,294,967,294, else in version two.
pub fn write_log(alloc: Global, log: &Log) -> Result<Vec<u8>, AllocError>
    ensures { IfOk result (λ bytes. bytes.items ≡ spelling log.now) }
{
    let version = version_for(&log.events);
    let size = HEADER_BYTES + version.event_bytes() * log.events.len();
    let mut bytes = Vec::with_capacity(alloc, size)?;
    bytes.extend_from_slice(&version.magic())?;
    push_number(&mut bytes, log.events.len() as u32)?;
    push_events(&mut bytes, version, &log.events)?;
    Ok(bytes)
}
