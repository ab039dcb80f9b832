//! Texts of replies at their ends. All others stand in dialogues.
ghost use Rattle.std.specs.Prelude.{◌≤◌};

use crate::same::same;
use arrayvec::ArrayVec;
use input_log::{Event, Kind};
use refusal::Fault::{Memory, NoEvent, NotFound, NotMemory, Range, Syntax, TooFar, Unaligned};
use std::process::Abort;
use std::test::Fail;
use wb_text::{EntryNumber, LineNumber, RegisterNumber, Reply, Where, Writer, reply_text};

fn shows(rt: &impl Abort, reply: &Reply, wanted: &str) {
    same(rt, &reply_text(reply).as_slice(), &wanted.as_bytes());
}

#[test]
fn numbers(rt: HostRuntime) -> Result<(), Fail> {
    let number = EntryNumber::new(63).ok_or("63")?;
    let (hi, lo) = (0x1040, 0xabc0_0f00);
    let text = "tlb 63 0x00001040 0xabc00f00\n";
    shows(&rt, &Reply::Entry { number, hi, lo }, text);
    shows(&rt, &Reply::Where(Where::AddressError), "where adel\n");
    let number = RegisterNumber::new(31).ok_or("31")?;
    let value = 0xffff_ffff;
    shows(&rt, &Reply::Register { number, value }, "r31 0xffffffff\n");
    shows(&rt, &Reply::Event(1_048_575), "event 1048575\n");
    shows(&rt, &Reply::Left(u64::MAX), "log 18446744073709551615\n");
    shows(&rt, &Reply::Writer(Writer::Step(0)), "writer 0\n");
    let last = Writer::Step(u64::MAX);
    shows(&rt, &Reply::Writer(last), "writer 18446744073709551615\n");
    shows(&rt, &Reply::Found(4_294_967_294), "find 4294967294\n");
    shows(
        &rt,
        &Reply::Position(u64::MAX),
        "pos 18446744073709551615\n",
    );
    shows(&rt, &Reply::Nothing, "");
    Ok(())
}

#[test]
fn bytes_of_a_line(rt: HostRuntime) -> Result<(), Fail> {
    let none = console(u64::MAX, ArrayVec::new())?;
    shows(&rt, &none, "console 2 18446744073709551615 none\n");
    let mut bytes = ArrayVec::new();
    bytes.push(0x41);
    bytes.push(0x09);
    bytes.push(0xef);
    shows(&rt, &console(5, bytes)?, "console 2 5 4109ef\n");
    let text = reply_text(&console(300, ArrayVec::from([0xa5; 256]))?);
    assert!(rt; text.as_slice().starts_with(b"console 2 300 a5a5a5"));
    assert!(rt; text.as_slice().ends_with(b"a5\n"));
    same(&rt, &text.len(), &527);
    Ok(())
}

fn console(total: u64, bytes: ArrayVec<u8, 256>) -> Result<Reply, Fail> {
    let line = LineNumber::new(2).ok_or("2")?;
    Ok(Reply::Console { line, total, bytes })
}

#[test]
fn events_of_the_log(rt: HostRuntime) {
    shows(&rt, &log(0, u64::MAX, ArrayVec::new()), "log 0\n");
    let last = byte(4_294_967_294, 3, 0x0a);
    let mut events = ArrayVec::new();
    events.push(byte(70, 0, 0x41));
    events.push(last);
    let text = "log 9\n7 70 0 0x41\n8 4294967294 3 0x0a\n";
    shows(&rt, &log(9, 7, events), text);
    let many = log(1_048_576, u64::MAX - 15, ArrayVec::from([last; 32]));
    let text = reply_text(&many);
    let first_lines = b"log 1048576\n18446744073709551600 4294967294 3 0x0a\n";
    assert!(rt; text.as_slice().starts_with(first_lines));
    let last_lines = b"\n14 4294967294 3 0x0a\n15 4294967294 3 0x0a\n";
    assert!(rt; text.as_slice().ends_with(last_lines));
}

fn log(total: u64, first: u64, events: ArrayVec<Event, 32>) -> Reply {
    Reply::Log {
        total,
        first,
        events,
    }
}

fn byte(time: u64, line: u8, byte: u8) -> Event
    requires { line ≤ 3 }
{
    Event {
        time,
        kind: Kind::Byte,
        line,
        byte,
    }
}

#[test]
fn refusals(rt: HostRuntime) -> Result<(), Fail> {
    for fault in [
        Memory, Syntax, Range, NoEvent, Unaligned, NotMemory, TooFar, NotFound,
    ] {
        let text = format!(in rt.alloc(); "{fault}\n")?;
        shows(&rt, &Reply::Fault(fault), text.as_str());
    }
    Ok(())
}
