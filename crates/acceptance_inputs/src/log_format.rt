//! The versions of the log format, and windows of a log.
use crate::same::{same, same_at};
use crate::tables::{changed, rows};
use input_log::{Cursor, Event, Log, LogFault, LogKind, read_log, write_log};
use samples::{number, plain, shown};
use std::alloc::{AllocError, Global};
use std::process::Abort;
use std::test::Fail;

// No event.
const NONE: [u8; 12] = *b"R3KLOG1\n\0\0\0\0";

// One event: in step 70 line 0 gets 0x41.
const ONE: [u8; 18] = *b"R3KLOG1\n\x01\0\0\0\x46\0\0\0\0\x41";

/// In step 4 line 3 gets 0xff; in step 5 line 0 gets 1, and then line 1 gets 2.
pub const THREE: [u8; 30] = *b"R3KLOG1\n\x03\0\0\0\
\x04\0\0\0\x03\xff\
\x05\0\0\0\0\x01\
\x05\0\0\0\x01\x02";

// In the last step that version one has room for line 3 gets 0.
const LAST: [u8; 18] = *b"R3KLOG1\n\x01\0\0\0\xfe\xff\xff\xff\x03\0";

// The same events as in `ONE` and `LAST` in version two, and that of `ONE` as a framing error.
const ONE_IN_TWO: [u8; 23] = *b"R3KLOG2\n\x01\0\0\0\x46\0\0\0\0\0\0\0\0\0\x41";

const LAST_IN_TWO: [u8; 23] = *b"R3KLOG2\n\x01\0\0\0\xfe\xff\xff\xff\0\0\0\0\0\x03\0";

const FRAMING: [u8; 23] = *b"R3KLOG2\n\x01\0\0\0\x46\0\0\0\0\0\0\0\x01\0\x41";

/// In step 4 line 3 gets 0xff with a framing error; in step 5 external line 2 gets level 1, and then line 3 gets 2; in step
/// 4,294,967,294 external line 0 gets level 0.
pub const MIXED: [u8; 56] = *b"R3KLOG2\n\x04\0\0\0\
\x04\0\0\0\0\0\0\0\x01\x03\xff\
\x05\0\0\0\0\0\0\0\x02\x02\x01\
\x05\0\0\0\0\0\0\0\0\x03\x02\
\xfe\xff\xff\xff\0\0\0\0\x02\0\0";

/// The time, kind, line and byte of each event.
pub fn fields_of(alloc: Global, events: &[Event]) -> Result<String, Fail> {
    if events.is_empty() {
        return Ok(plain(alloc, "empty")?);
    }
    let mut fields = Vec::new(alloc);
    for event in events {
        fields.push((event.time, event.kind, event.line, event.byte))?;
    }
    Ok(shown(alloc, &fields)?)
}

// Compares events with the time, kind, line and byte of each.
fn has_events(rt: &(impl Abort + AllocGlobal), events: &[Event], wanted: &str) -> Result<(), Fail> {
    let found = fields_of(rt.alloc(), events)?;
    same(rt, &found, &plain(rt.alloc(), wanted)?);
    Ok(())
}

// Compares the bytes that a log is written as.
fn writes(rt: &(impl Abort + AllocGlobal), log: &Log, bytes: &[u8]) -> Result<(), Fail> {
    same(rt, &write_log(rt.alloc(), log)?.as_slice(), &bytes);
    Ok(())
}

// The fault of a log, or `None`.
fn fault(alloc: Global, bytes: &[u8]) -> Result<String, AllocError> {
    shown(alloc, &read_log(alloc, bytes).err())
}

// Logs as they are read, their events, and as they are written: in version one where that has room for them.
#[test]
fn written_again(rt: HostRuntime) -> Result<(), Fail> {
    let mixed = "4 Framing 3 255, 5 Wire 2 1, 5 Byte 3 2, 4294967294 Wire 0 0";
    for (bytes, events, written) in [
        (NONE.as_slice(), "empty", NONE.as_slice()),
        (&ONE, "70 Byte 0 0x41", &ONE),
        (&THREE, "4 Byte 3 255, 5 Byte 0 1, 5 Byte 1 2", &THREE),
        (&FRAMING, "70 Framing 0 0x41", &FRAMING),
        (&MIXED, mixed, &MIXED),
        (b"R3KLOG2\n\0\0\0\0", "empty", &NONE),
        (&ONE_IN_TWO, "70 Byte 0 0x41", &ONE),
        (&LAST_IN_TWO, "4294967294 Byte 3 0", &LAST),
    ] {
        let log = read_log(rt.alloc(), bytes)?;
        has_events(&rt, log.events(), events)?;
        writes(&rt, &log, written)?;
    }
    writes(&rt, &Log::new(rt.alloc()), &NONE)
}

// One event that is no byte is enough for version two, and without it version one is written again. A byte after the last time of version
// one is enough too.
#[test]
fn version_of_an_edited_log(rt: HostRuntime) -> Result<(), Fail> {
    let mut log = Log::new(rt.alloc());
    log.ferr(70, 0, 0x41)?;
    writes(&rt, &log, &FRAMING)?;
    log.add(70, 0, 0x41)?;
    log.del(0)?;
    writes(&rt, &log, &ONE)?;
    log.wire(71, 1, 1)?;
    let both = *b"R3KLOG2\n\x02\0\0\0\x46\0\0\0\0\0\0\0\0\0\x41\x47\0\0\0\0\0\0\0\x02\x01\x01";
    writes(&rt, &log, &both)?;
    let mut log = Log::new(rt.alloc());
    log.add(4_294_967_295, 0, 1)?;
    let late = *b"R3KLOG2\n\x01\0\0\0\xff\xff\xff\xff\0\0\0\0\0\0\x01";
    writes(&rt, &log, &late)?;
    same(&rt, &read_log(rt.alloc(), &late)?.events(), &log.events());
    Ok(())
}

// 5,000 events, of which event N is in step N, are read, edited and written. By hand: an event that is added in step 4097 comes to place
// 4098, after which each event is one place further. That of step 4499 moves from place 4500 to the place after that of step 4096. Of
// the 405 steps from 4095 on, 406 events are erased. What has a framing error then is written in version two, and read again.
#[test]
fn five_thousand_events(rt: HostRuntime) -> Result<(), Fail> {
    let bytes = event_a_step(rt.alloc())?;
    let mut log = read_log(rt.alloc(), &bytes)?;
    writes(&rt, &log, &bytes)?;
    has_events(
        &rt,
        log.window(4095, 4097),
        "4095 Byte 0 255, 4096 Byte 0 0",
    )?;
    let places = (log.add(4097, 0, 7)?, log.move_to(4500, 4096)?);
    same(&rt, &places, &(4098, 4097));
    let moved = "4096 Byte 0 0, 4096 Byte 0 147, 4097 Byte 0 1, 4097 Byte 0 7";
    has_events(&rt, log.window(4096, 4098), moved)?;
    log.erase(4095, 4500)?;
    log.ferr(4499, 3, 1)?;
    log.set(4094, 9)?;
    log.del(0)?;
    same(&rt, &log.events().len(), &4595);
    let around = "4093 Byte 0 253, 4094 Byte 0 9, 4499 Framing 3 1, 4500 Byte 0 148";
    has_events(&rt, log.window(4093, 4501), around)?;
    let written = write_log(rt.alloc(), &log)?;
    let again = read_log(rt.alloc(), &written)?;
    same(&rt, &again.events(), &log.events());
    Ok(())
}

// In each of the steps from 0 to 4,999 line 0 gets the step's low byte.
fn event_a_step(alloc: Global) -> Result<Vec<u8>, AllocError> {
    let mut bytes = b"R3KLOG1\n\x88\x13\0\0".to_vec(alloc)?;
    for step in 0..5000u32 {
        let time = step.to_le_bytes();
        bytes.extend_from_slice(&time)?;
        bytes.extend_from_slice(&[0, time[0]])?;
    }
    Ok(bytes)
}

#[test]
fn too_few_bytes_and_too_many(rt: HostRuntime) -> Result<(), Fail> {
    for bytes in [ONE.as_slice(), &THREE, &FRAMING, &MIXED] {
        for end in 0..bytes.len() {
            let fault = read_log(rt.alloc(), &bytes[..end]).err();
            same_at(&rt, &end, &fault, &Some(LogFault::Bad(LogKind::Short)));
        }
        let mut longer = bytes.to_vec(rt.alloc())?;
        longer.push(0)?;
        let fault = read_log(rt.alloc(), &longer).err();
        same(&rt, &fault, &Some(LogFault::Bad(LogKind::Extra)));
    }
    Ok(())
}

#[test]
fn first_fault(rt: HostRuntime) -> Result<(), Fail> {
    for (log, table) in [(THREE.as_slice(), OF_THREE), (&MIXED, OF_MIXED)] {
        for (change, wanted) in &rows(rt.alloc(), table)? {
            let bytes = changed(rt.alloc(), log, change.as_str())?;
            same_at(&rt, &change, &fault(rt.alloc(), &bytes)?, wanted);
        }
    }
    Ok(())
}

// Changes of a byte of `THREE`, which has 30, and of `MIXED`, which has 56, and the fault.
const OF_THREE: &str = "
0 0x52 30; 12 5 30; 18 4 30 = None / 7 0xd 30; 7 0xd 8 = Some Bad Magic / 10 0x10 30; 10 0x10 12 = Some Bad Count
8 0 30; 8 2 30 = Some Bad Extra / 15 0xff 30; 12 6 30; 18 3 30; 18 3 22; 24 4 30 = Some Bad Time
16 4 30; 16 4 17; 22 4 30; 22 4 23; 28 4 29 = Some Bad Line
7 0xd 7; 10 0x10 11; 8 4 30; 16 4 16; 18 3 21 = Some Bad Short
";

const OF_MIXED: &str = "
12 5 56; 20 0 56; 31 1 56; 32 1 56; 33 0 56 = None / 6 0x33 56; 6 0x33 8 = Some Bad Magic
10 0x10 56; 10 0x10 12 = Some Bad Count / 8 3 56 = Some Bad Extra / 12 6 56; 12 6 31; 17 1 56; 19 1 20 = Some Bad Time
20 3 56; 20 0xff 56; 20 3 21 = Some Bad Kind / 21 4 56; 43 4 56 = Some Bad Line
// in version one, where byte 22 is the line of the second event
6 0x31 56 = Some Bad Line
// an external line 3
20 2 56; 20 2 22; 32 3 56; 32 3 33 = Some Bad Line / 33 2 56; 33 2 34; 55 0xff 56 = Some Bad Value
6 0x33 7; 10 0x10 11; 8 5 56; 12 6 30; 19 1 19; 20 3 20; 20 2 21; 32 3 32; 33 2 33 = Some Bad Short
";

#[test]
fn order_of_faults(rt: HostRuntime) -> Result<(), Fail> {
    for (log, wanted) in &rows(rt.alloc(), LOGS)? {
        let (magic, digits) = log.split_once(' ').ok_or("no bytes")?;
        let mut bytes = Vec::new(rt.alloc());
        bytes.extend_from_slice(magic.as_bytes())?;
        bytes.push(b'\n')?;
        for byte in digits.split_whitespace() {
            bytes.push(u8::from_str_radix(byte, 16)?)?;
        }
        same_at(&rt, &log, &fault(rt.alloc(), &bytes)?, wanted);
    }
    Ok(())
}

// Logs, with what follows their first line in hexadecimal, and the fault.
const LOGS: &str = "
// 1,048,577 events, and one less
R3KLOG1 01 00 10 00; R3KLOG2 01 00 10 00 = Some Bad Count
R3KLOG1 00 00 10 00; R3KLOG2 00 00 10 00 = Some Bad Short
// the time is judged before the line
R3KLOG1 01 00 00 00 ff ff ff ff 04 00; R3KLOG1 01 00 00 00 ff ff ff ff = Some Bad Time
R3KLOG1 01 00 00 00 fe ff ff ff 04 00 = Some Bad Line
R3KLOG1 01 00 00 00 fe ff ff ff 03 00 = None
// in version two the time, then the kind, the line and the value, and then what is left
R3KLOG2 01 00 00 00 ff ff ff ff ff ff ff ff 03 04 02 00 = Some Bad Time
R3KLOG2 01 00 00 00 fe ff ff ff 00 00 00 00 03 04 02 00 = Some Bad Kind
R3KLOG2 01 00 00 00 fe ff ff ff 00 00 00 00 02 03 02 00 = Some Bad Line
R3KLOG2 01 00 00 00 fe ff ff ff 00 00 00 00 02 02 02 00 = Some Bad Value
R3KLOG2 01 00 00 00 fe ff ff ff 00 00 00 00 02 02 01 00 = Some Bad Extra
";

// The greatest time of version two is that of the last step, and each version has its own.
#[test]
fn last_time(rt: HostRuntime) -> Result<(), Fail> {
    let times = "0; 4294967294; 4294967295; 1099511627774 = None
1099511627775; 1099511627776; 18446744073709551615 = Some Bad Time";
    for (time, wanted) in &rows(rt.alloc(), times)? {
        let mut bytes = b"R3KLOG2\n\x01\0\0\0".to_vec(rt.alloc())?;
        bytes.extend_from_slice(&number(time.as_str())?.to_le_bytes())?;
        bytes.extend_from_slice(b"\0\0\x41")?;
        same_at(&rt, &time, &fault(rt.alloc(), &bytes)?, wanted);
    }
    Ok(())
}

#[test]
fn windows(rt: HostRuntime) -> Result<(), Fail> {
    let log = read_log(rt.alloc(), &THREE)?;
    has_events(&rt, log.window(4, 5), "4 Byte 3 255")?;
    has_events(&rt, log.window(5, 6), "5 Byte 0 1, 5 Byte 1 2")?;
    has_events(&rt, log.window(5, 5), "empty")?;
    has_events(&rt, log.window(6, 4), "empty")?;
    same(&rt, &log.window(0, u64::MAX), &log.events());
    // The way along a window.
    let mut cursor = Cursor::new(log.window(2, 9));
    has_events(&rt, cursor.next(2), "empty")?;
    has_events(&rt, cursor.next(3), "empty")?;
    has_events(&rt, cursor.next(4), "4 Byte 3 255")?;
    has_events(&rt, cursor.next(5), "5 Byte 0 1, 5 Byte 1 2")?;
    has_events(&rt, cursor.next(5), "empty")?;
    has_events(&rt, cursor.next(6), "empty")?;
    has_events(&rt, cursor.next(u64::MAX), "empty")?;
    // What is before the time is passed over.
    let mut cursor = Cursor::new(log.events());
    has_events(&rt, cursor.next(5), "5 Byte 0 1, 5 Byte 1 2")?;
    has_events(&rt, cursor.next(4), "empty")
}
