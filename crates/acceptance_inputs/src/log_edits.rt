//! Edits of a log.
use crate::log_format::{MIXED, THREE, fields_of};
use crate::same::{same, same_at};
use crate::tables::numbers;
use input_log::{Log, read_log};
use refusal::Fault;
use samples::{plain, shown};
use std::alloc::Global;
use std::test::Fail;

#[test]
fn edits(rt: HostRuntime) -> Result<(), Fail> {
    for list in LISTS.split("\n$ ").skip(1) {
        let (head, rows) = list.split_once('\n').ok_or("nothing is done")?;
        let (_, begin) = head.split_once(": ").ok_or("no log")?;
        let mut log = log_of(rt.alloc(), begin)?;
        for row in rows.lines().filter(|row| !row.starts_with("#")) {
            for edit in row.split("; ").filter(|edit| !edit.is_empty()) {
                let (edit, wanted) = edit.split_once(" = ").ok_or("nothing is wanted")?;
                if edit == "again" {
                    log = log_of(rt.alloc(), begin)?;
                } else {
                    let found = edited(rt.alloc(), &mut log, edit)?;
                    same_at(&rt, &(head, edit), &found, &plain(rt.alloc(), wanted)?);
                }
            }
        }
    }
    Ok(())
}

// The log in which a list begins. A full one has 1,048,576 events, all of step 0, line 0 and byte 0.
fn log_of(alloc: Global, begin: &str) -> Result<Log, Fail> {
    match begin {
        "mixed" => Ok(read_log(alloc, &MIXED)?),
        "three" => Ok(read_log(alloc, &THREE)?),
        "full" => {
            let mut bytes = b"R3KLOG1\n\0\0\x10\0".to_vec(alloc)?;
            for _ in 0..1_048_576 {
                bytes.extend_from_slice(&[0; 6])?;
            }
            Ok(read_log(alloc, &bytes)?)
        }
        "empty" => Ok(Log::new(alloc)),
        _ => Err("no log".into()),
    }
}

// The answer to an edit, or the log's events, or how many they are.
fn edited(alloc: Global, log: &mut Log, edit: &str) -> Result<String, Fail> {
    let (name, words) = edit.split_once(' ').unwrap_or((edit, ""));
    Ok(match (name, numbers(alloc, words)?.as_slice()) {
        ("add" | "ferr" | "wire", [time, line, byte]) => {
            let (line, byte) = (u8::try_from(*line)?, u8::try_from(*byte)?);
            let place = match name {
                "add" => log.add(*time, line, byte),
                "ferr" => log.ferr(*time, line, byte),
                _ => log.wire(*time, line, byte),
            };
            shown(alloc, &place)?
        }
        ("del", [place]) => shown(alloc, &log.del(*place))?,
        ("set", [place, byte]) => shown(alloc, &log.set(*place, u8::try_from(*byte)?))?,
        ("move", [place, time]) => shown(alloc, &log.move_to(*place, *time))?,
        ("erase", [from, to]) => shown(alloc, &log.erase(*from, *to))?,
        ("log", []) => fields_of(alloc, log.events())?,
        ("count", []) => shown(alloc, &log.events().len())?,
        _ => return Err("no edit".into()),
    })
}

// Edits, with `; ` between, each with its answer, `log` with the events, and `count` with their number. A list begins with its name and
// with its log, which `again` brings back: an empty one, that of `THREE`, that of `MIXED`, or a full one.
const LISTS: &str = "
$ adds after the events of its time: empty
add 5 0 1 = Ok 0; add 5 3 2 = Ok 1; add 4 0 3 = Ok 0; add 4294967294 0 255 = Ok 3; add 0 1 0 = Ok 0; add 5 0 4 = Ok 4
log = 0 Byte 1 0, 4 Byte 0 3, 5 Byte 0 1, 5 Byte 3 2, 5 Byte 0 4, 4294967294 Byte 0 255

$ adds each kind: empty
add 5 0 0xff = Ok 0; ferr 5 3 0xff = Ok 1; wire 5 2 1 = Ok 2; wire 4 0 0 = Ok 0; ferr 1099511627774 0 0 = Ok 4; wire 1099511627774 1 0 = Ok 5
ferr 0 1 2 = Ok 0
log = 0 Framing 1 2, 4 Wire 0 0, 5 Byte 0 255, 5 Framing 3 255, 5 Wire 2 1, 1099511627774 Framing 0 0, 1099511627774 Wire 1 0

$ edits of each kind: empty
# An event is set, moved and deleted as a byte is, and keeps its kind.
add 4 3 1 = Ok 0; ferr 5 3 2 = Ok 1; wire 6 2 1 = Ok 2; set 0 255 = Ok; set 1 255 = Ok; set 2 0 = Ok
log = 4 Byte 3 255, 5 Framing 3 255, 6 Wire 2 0
set 2 1 = Ok; move 2 4 = Ok 1; move 2 3 = Ok 0; move 1 9 = Ok 2
log = 3 Framing 3 255, 4 Wire 2 1, 9 Byte 3 255
del 1 = Ok; del 0 = Ok; log = 9 Byte 3 255

$ refused edits of each kind: mixed
# Events 1 and 3 are levels.
wire 0 3 0 = Err Range; wire 0 0 2 = Err Range; wire 0 255 255 = Err Range; wire 1099511627775 0 0 = Err Range
wire 18446744073709551615 2 1 = Err Range; ferr 0 4 0 = Err Range; ferr 1099511627775 0 0 = Err Range; ferr 18446744073709551615 255 0 = Err Range
set 1 2 = Err Range; set 3 255 = Err Range; set 4 0 = Err NoEvent; set 4 2 = Err NoEvent; set 18446744073709551615 255 = Err NoEvent
log = 4 Framing 3 255, 5 Wire 2 1, 5 Byte 3 2, 4294967294 Wire 0 0

$ erases: mixed
again = Ok; erase 0 0 = Ok; log = 4 Framing 3 255, 5 Wire 2 1, 5 Byte 3 2, 4294967294 Wire 0 0
again = Ok; erase 5 5 = Ok; log = 4 Framing 3 255, 5 Wire 2 1, 5 Byte 3 2, 4294967294 Wire 0 0
again = Ok; erase 1099511627775 1099511627775 = Ok; log = 4 Framing 3 255, 5 Wire 2 1, 5 Byte 3 2, 4294967294 Wire 0 0
again = Ok; erase 0 4 = Ok; log = 4 Framing 3 255, 5 Wire 2 1, 5 Byte 3 2, 4294967294 Wire 0 0
again = Ok; erase 6 4294967294 = Ok; log = 4 Framing 3 255, 5 Wire 2 1, 5 Byte 3 2, 4294967294 Wire 0 0
again = Ok; erase 4 5 = Ok; log = 5 Wire 2 1, 5 Byte 3 2, 4294967294 Wire 0 0
again = Ok; erase 5 6 = Ok; log = 4 Framing 3 255, 4294967294 Wire 0 0
again = Ok; erase 0 6 = Ok; log = 4294967294 Wire 0 0; again = Ok; erase 4 4294967294 = Ok; log = 4294967294 Wire 0 0
again = Ok; erase 5 4294967294 = Ok; log = 4 Framing 3 255, 4294967294 Wire 0 0
again = Ok; erase 5 1099511627775 = Ok; log = 4 Framing 3 255
again = Ok; erase 4294967294 1099511627775 = Ok; log = 4 Framing 3 255, 5 Wire 2 1, 5 Byte 3 2
again = Ok; erase 0 1099511627775 = Ok; log = empty; again = Ok; erase 4 1099511627775 = Ok; log = empty
again = Ok; erase 0 4294967295 = Ok; log = empty; erase 0 1099511627775 = Ok; log = empty

$ refused erasing: mixed
erase 1 0 = Err Range; erase 6 5 = Err Range; erase 1099511627775 0 = Err Range; erase 0 1099511627776 = Err Range
erase 1099511627776 1099511627776 = Err Range; erase 0 18446744073709551615 = Err Range
erase 18446744073709551615 18446744073709551615 = Err Range; erase 18446744073709551615 0 = Err Range
log = 4 Framing 3 255, 5 Wire 2 1, 5 Byte 3 2, 4294967294 Wire 0 0

$ takes out and changes: three
set 1 255 = Ok; log = 4 Byte 3 255, 5 Byte 0 255, 5 Byte 1 2
del 2 = Ok; log = 4 Byte 3 255, 5 Byte 0 255; del 0 = Ok; log = 5 Byte 0 255
del 0 = Ok; log = empty

$ moves: empty
# The events of the times 1, 2, 2, 3 are moved, one at a time, each from where the move before left them.
add 1 0 10 = Ok 0; add 2 0 20 = Ok 1; add 2 0 21 = Ok 2; add 3 0 30 = Ok 3
# The last of its time stays.
move 2 2 = Ok 2; log = 1 Byte 0 10, 2 Byte 0 20, 2 Byte 0 21, 3 Byte 0 30
# The first of its time comes after the other.
move 1 2 = Ok 2; log = 1 Byte 0 10, 2 Byte 0 21, 2 Byte 0 20, 3 Byte 0 30
# Forward to the end.
move 0 4294967294 = Ok 3; log = 2 Byte 0 21, 2 Byte 0 20, 3 Byte 0 30, 4294967294 Byte 0 10
# Backward, after the events of the new time.
move 3 2 = Ok 2; log = 2 Byte 0 21, 2 Byte 0 20, 2 Byte 0 10, 3 Byte 0 30
# To another time between the same neighbours, and to the front.
move 3 7 = Ok 3; move 3 0 = Ok 0; log = 0 Byte 0 30, 2 Byte 0 21, 2 Byte 0 20, 2 Byte 0 10

$ refused edits: three
# The range comes first.
add 0 4 0 = Err Range; add 1099511627775 0 0 = Err Range; add 18446744073709551615 255 0 = Err Range; move 0 1099511627775 = Err Range
del 3 = Err NoEvent; set 3 0 = Err NoEvent; move 3 1099511627774 = Err NoEvent; move 3 1099511627775 = Err Range
del 4294967296 = Err NoEvent; set 4294967296 0 = Err NoEvent; move 4294967296 1099511627774 = Err NoEvent; move 4294967296 1099511627775 = Err Range
del 18446744073709551615 = Err NoEvent; set 18446744073709551615 0 = Err NoEvent; move 18446744073709551615 1099511627774 = Err NoEvent
move 18446744073709551615 1099511627775 = Err Range
log = 4 Byte 3 255, 5 Byte 0 1, 5 Byte 1 2

$ takes no event more: full
# A move takes no room.
add 0 0 1 = Err Range; ferr 0 0 1 = Err Range; wire 0 0 1 = Err Range; move 0 1 = Ok 1048575; del 1048575 = Ok; wire 0 0 1 = Ok 1048575
add 0 0 1 = Err Range; wire 0 0 1 = Err Range; count = 1048576; erase 0 1 = Ok; count = 0; add 0 0 1 = Ok 0
";

// Where an allocation fails, as in a run with failing ones, the log is as it was, and the next call may succeed.
#[test]
fn refused_growth(rt: HostRuntime) -> Result<(), Fail> {
    let mut log = Log::new(rt.alloc());
    for time in 0..9 {
        let mut place = log.add(time, 0, 7);
        if let Err(fault) = &place {
            same(&rt, fault, &Fault::Memory);
            same(&rt, &(log.events().len() as u64), &time);
            place = log.add(time, 0, 7);
        }
        same(&rt, &(place? as u64), &time);
    }
    Ok(())
}
