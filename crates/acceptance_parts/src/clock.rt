//! The clock on its own.
use crate::lists::{Part, plays, within};
use mc146818::Clock;
use mc146818::registers::{DAY, HOURS, MINUTES, MONTH, REGISTER_B, SECONDS, WEEKDAY, YEAR};
use std::test::Fail;

// The registers of the time, in the order of its fields.
const TIME: [u8; 7] = [SECONDS, MINUTES, HOURS, WEEKDAY, DAY, MONTH, YEAR];

// Clauses on a clock. Register 10 is A, 11 B, 12 C and 13 D.
//
//     start U B ..                one with a unit and the 12 bytes of an image's start
//     at B S M H W D O Y          one whose divider runs, with a second of 8192 ticks: register B and the time
//     time S M H W D O Y          what the registers of the time read
//     tick N, pass N, quiet N     ticks; at most N that only count; how many of them there are
//     write R B, reads R B ..     a register is written; what those from one on read
//     ram R S                     the registers from one up to another read 0, and hold what is written
//     interrupts V                whether the clock asks for an interrupt
impl Part for Clock {
    fn begin() -> Clock {
        Clock::new([0, 0, 0, 0, 0, 0, 1, 1, 1, 0, 0x20, 0x06], 1)
    }

    fn copy_from(&mut self, other: &Clock) {
        self.assign(other);
    }

    fn clause(&mut self, name: &str, numbers: &[u32]) -> Result<bool, Fail> {
        Ok(does(self, name, numbers)? || is_so(self, name, numbers)?)
    }
}

// Does what is said, and answers whether something is.
fn does(clock: &mut Clock, name: &str, numbers: &[u32]) -> Result<bool, Fail> {
    match (name, numbers) {
        ("start", [unit, bytes @ ..]) => *clock = started(*unit, bytes)?,
        ("at", [b, time @ ..]) => *clock = running(*b, time)?,
        ("tick", [ticks]) => tick(clock, *ticks),
        ("pass", [ticks]) => clock.pass((*ticks).min(clock.quiet())),
        ("write", [register, byte]) => write(clock, *register, *byte)?,
        _ => return Ok(false),
    }
    Ok(true)
}

// A clock with a unit and the bytes of an image's start.
fn started(unit: u32, bytes: &[u32]) -> Result<Clock, Fail> {
    let mut start = [0; 12];
    for (byte, number) in start.iter_mut().zip(bytes) {
        *byte = u8::try_from(*number)?;
    }
    if start[10] >= 128 || start[11] % 2 != 0 {
        return Err("no start".into());
    }
    Ok(Clock::new(start, within(unit, 1, 65_535)?))
}

// A clock whose divider runs, with register B and a time.
fn running(b: u32, time: &[u32]) -> Result<Clock, Fail> {
    let mut clock = Clock::begin();
    for (register, byte) in TIME.iter().zip(time) {
        write(&mut clock, *register as u32, *byte)?;
    }
    write(&mut clock, REGISTER_B as u32, b)?;
    Ok(clock)
}

fn tick(clock: &mut Clock, ticks: u32) {
    for _ in 0..ticks {
        clock.tick();
    }
}

// Whether the clock is as is said.
fn is_so(clock: &mut Clock, name: &str, numbers: &[u32]) -> Result<bool, Fail> {
    Ok(match (name, numbers) {
        ("reads", [first, wants @ ..]) => reads(clock, *first, wants),
        ("time", wants) => wants.len() == 7 && has_time(clock, wants),
        ("ram", [first, last]) => is_ram(clock, *first, *last)?,
        ("quiet", [want]) => clock.quiet() == *want,
        ("interrupts", [want]) => clock.interrupts() as u32 == *want,
        _ => false,
    })
}

// Whether the registers from one on read these bytes.
fn reads(clock: &mut Clock, first: u32, wants: &[u32]) -> bool {
    let mut pairs = (first..64).zip(wants);
    pairs.all(|(register, want)| read(clock, register) == *want)
}

fn has_time(clock: &mut Clock, wants: &[u32]) -> bool {
    let mut pairs = TIME.iter().zip(wants);
    pairs.all(|(register, want)| read(clock, *register as u32) == *want)
}

fn write(clock: &mut Clock, register: u32, byte: u32) -> Result<(), Fail> {
    clock.write(within(register, 0, 63)? as u8, u8::try_from(byte)?);
    Ok(())
}

// The byte of a register below 64.
fn read(clock: &mut Clock, register: u32) -> u32 {
    clock.read(register.min(63) as u8) as u32
}

// Whether the registers from one up to another read 0, and hold what is written.
fn is_ram(clock: &mut Clock, first: u32, last: u32) -> Result<bool, Fail> {
    for register in first..=last {
        if read(clock, register) != 0 {
            return Ok(false);
        }
        write(clock, register, register ^ 0xFF)?;
    }
    Ok((first..=last).all(|register| read(clock, register) == register ^ 0xFF))
}

// Each byte of the alarm: equal to the new time, "don't care", equal to another time (of the seconds the one before the update), or just
// below "don't care".
#[test]
fn alarms(rt: HostRuntime) -> Result<(), Fail> {
    let silent = [0x55, 0x33, 0x13, 0xBF];
    for seconds in [0x56, 0xC0, 0xFF, 0x55, 0xBF] {
        for minutes in [0x34, 0xC0, 0xFF, 0x33, 0xBF] {
            for hours in [0x12, 0xC0, 0xFF, 0x13, 0xBF] {
                let bytes = [seconds, minutes, hours];
                let rings = !bytes.iter().any(|byte| silent.contains(byte));
                let (asks, flags) = if rings { (1, 0xB0) } else { (0, 0x10) };
                let alarm = format!(in rt.alloc();
                    "
$ alarm
at 0x22 0x55 0x34 0x12 1 1 1 1, write 1 {seconds}, write 3 {minutes}, write 5 {hours}
tick 8192, interrupts {asks}, reads 12 {flags}"
                )?;
                plays::<Clock>(&rt, alarm.as_str())?;
            }
        }
    }
    Ok(())
}

#[test]
fn lists(rt: HostRuntime) -> Result<(), Fail> {
    plays::<Clock>(&rt, LISTS)
}

const LISTS: &str = "
$ a leap day, and an update in progress
start 1 0x59 0 0x59 0 0x23 0 7 0x28 2 4 0x20 2
tick 8189, reads 10 0x20, tick 1, reads 10 0xa0, tick 2, reads 0 0 0 0 0 0 0 1 0x29 2 4, reads 12 0x30, reads 12 0

$ a century's last second
start 1 0x3b 0 0x3b 0 0x8b 0 7 0x1f 0x0c 0x63 0x20 4
tick 8192, reads 0 0 0 0 0 0x0c 0 1 1 1 0, reads 12 0x10

$ a periodic interrupt
start 1 0 0 0 0 0 0 1 1 1 0 0x23 0x46
tick 1, interrupts 1, reads 12 0xc0, reads 12 0, interrupts 0

$ the ends of month $3, with register B %1
# The day before the last one, the last one, the month, and the month and the year of the day after it.
| 30 | 31 | 1 | 2 | 1
| 27 | 28 | 2 | 3 | 1
| 30 | 31 | 3 | 4 | 1
| 29 | 30 | 4 | 5 | 1
| 30 | 31 | 5 | 6 | 1
| 29 | 30 | 6 | 7 | 1
| 30 | 31 | 7 | 8 | 1
| 30 | 31 | 8 | 9 | 1
| 29 | 30 | 9 | 10 | 1
| 30 | 31 | 10 | 11 | 1
| 29 | 30 | 11 | 12 | 1
| 30 | 31 | 12 | 1 | 2
# In both number formats and both hour modes the last hour and the first one, in 12 hours 11 with PM and 12, and how numbers begin.
/ 0x02 | 0x23 | 0 | 0x
/ 0x00 | 0x91 | 0x12 | 0x
/ 0x06 | 23 | 0 | 0
/ 0x04 | 0x8b | 12 | 0
at %1 %459 %459 %2 7 %4$1 %4$3 1, tick 8192, time 0 0 %3 1 %4$2 %4$3 1
at %1 %459 %459 %2 7 %4$2 %4$3 1, tick 8192, time 0 0 %3 1 1 %4$4 $5

$ a second after $2, with register B $1
# By hand, from the rules of the calendar, of the hour modes and of fields past their ends.
# Leap years.
| 0x02 | 0x59 0x59 0x23 1 0x28 2 0x96 | 0 0 0 2 0x29 2 0x96
| 0x02 | 0x59 0x59 0x23 2 0x29 2 0x96 | 0 0 0 3 1 3 0x96
| 0x02 | 0x59 0x59 0x23 3 0x28 2 0 | 0 0 0 4 0x29 2 0
| 0x02 | 0x59 0x59 0x23 4 0x28 2 0x99 | 0 0 0 5 1 3 0x99
| 0x06 | 0x3b 0x3b 0x17 5 0x1c 2 0x4c | 0 0 0 6 0x1d 2 0x4c
# A century's last second.
| 0x02 | 0x59 0x59 0x23 6 0x31 0x12 0x99 | 0 0 0 7 1 1 0
| 0x04 | 0x3b 0x3b 0x8b 7 0x1f 0x0c 0x63 | 0 0 0x0c 1 1 1 0
# 12 hours: noon, and the hours after noon and midnight.
| 0x04 | 0x3b 0x3b 0x0b 1 1 1 1 | 0 0 0x8c 1 1 1 1
| 0x04 | 0x3b 0x3b 0x8c 1 1 1 1 | 0 0 0x81 1 1 1 1
| 0x00 | 0x59 0x59 0x12 1 1 1 1 | 0 0 1 1 1 1 1
| 0x00 | 0x59 0x59 0x89 1 1 1 1 | 0 0 0x90 1 1 1 1
# Within a minute, an hour and a day.
| 0x02 | 9 0x59 0x23 1 1 1 1 | 0x10 0x59 0x23 1 1 1 1
| 0x06 | 9 0x3b 0x17 1 1 1 1 | 0x0a 0x3b 0x17 1 1 1 1
| 0x02 | 0x59 0x19 0x23 1 1 1 1 | 0 0x20 0x23 1 1 1 1
| 0x02 | 0x59 0x59 9 1 1 1 1 | 0 0 0x10 1 1 1 1
# Fields past their ends, a BCD digit above 9, and no such month.
| 0x02 | 0xff 0x61 0x24 0 0x32 0x13 0xa0 | 0 0 0 1 1 1 0
| 0x02 | 0x1a 0 0 1 1 1 1 | 0x21 0 0 1 1 1 1
| 0x04 | 0x3b 0x3b 0x8d 1 1 1 1 | 0 0 0x81 1 1 1 1
| 0x06 | 0x3b 0x3b 0x17 1 0x1e 0 1 | 0 0 0 2 0x1f 0 1
at $1 $2, tick 8192, time $3

$ periodic rate $1, with a unit of %1
# The rates of a time base of 32,768 Hz: 256 Hz, 128 Hz, and 8,192 Hz down to 2 Hz, as one tick less than a period of each unit. At 2 Hz the
# second ends with the second period.
| 0x21 | 31 | 95 | 0xc0
| 0x22 | 63 | 191 | 0xc0
| 0x23 | 0 | 2 | 0xc0
| 0x24 | 1 | 5 | 0xc0
| 0x25 | 3 | 11 | 0xc0
| 0x26 | 7 | 23 | 0xc0
| 0x27 | 15 | 47 | 0xc0
| 0x28 | 31 | 95 | 0xc0
| 0x29 | 63 | 191 | 0xc0
| 0x2a | 127 | 383 | 0xc0
| 0x2b | 255 | 767 | 0xc0
| 0x2c | 511 | 1535 | 0xc0
| 0x2d | 1023 | 3071 | 0xc0
| 0x2e | 2047 | 6143 | 0xc0
| 0x2f | 4095 | 12287 | 0xd0
/ 1 | $2
/ 3 | $3
start %1 0 0 0 0 0 0 1 1 1 0 0x20 0x42, write 10 $1, tick %2, interrupts 0, tick 1, reads 12 0xc0
tick %2, interrupts 0, tick 1, reads 12 $4, tick %2, interrupts 0, tick 1, reads 12 0xc0

$ no periodic rate
at 0x42 0 0 0 0 0 0 0, tick 8192, reads 12 0x10

$ a divider that is held by $1
# It stands at 0, and a second later than its start there is an update.
| 0x00
| 0x10
| 0x30
| 0x60
| 0x70
at 0x02 0x55 0 0 1 1 1 1, tick 8191, write 10 $1, reads 10 $1, tick 10000, reads 12 0, write 10 0x2f, tick 8191
# PF, and then UF.
reads 10 0xaf, reads 12 0x40, write 10 0x20, tick 1, reads 12 0x10, reads 0 0x56

$ a unit of 3
start 3 0 0 0 0 0 0 1 1 1 0 0x20 6
tick 24569, reads 10 0x20, tick 1, reads 10 0xa0, tick 5, reads 12 0, tick 1, reads 12 0x10

$ SET
# It holds the time while the divider runs on, and clears UIE where it becomes 1: register B with UIE, and with SET; then with both, and
# with UIE again.
at 0x12 0x55 0 0 1 1 1 1, tick 8191, write 11 0x92, reads 11 0x82, reads 10 0x20, tick 8192, reads 0 0x55, reads 12 0
write 11 0x92, reads 11 0x92, write 11 0x12, reads 10 0xa0, tick 1, reads 0 0x56, interrupts 1, reads 12 0x90

$ writes
# C and D are read only, as are UIP and daylight saving; the 50 bytes of RAM are all held.
at 0x02 0 0 0 0 0 0 0, write 12 0xff, reads 12 0, tick 8192, write 12 0, write 13 0, reads 12 0x10, reads 13 0x80
write 10 0xff, reads 10 0x7f, write 11 0xff, reads 11 0xee, ram 14 63

$ equality
# The divider is part of a clock, and so is the unit.
start 2 0 0 0 0 0 0 1 1 1 0 0x20 6, mark, same, swap, tick 1, other, swap, mark, same
swap, start 1 0 0 0 0 0 0 1 1 1 0 0x20 6, other, swap, mark, write 63 1, other

$ quiet seconds
# How many ticks pass before the second's end, also with SET and with the greatest unit. The ticks of a divider that is held are all quiet.
at 0x02 0x55 0 0 1 1 1 1, quiet 8191, tick 1, quiet 8190, pass 8190, quiet 0, reads 10 0xa0, reads 0 0x55, tick 1
reads 0 0x56, quiet 8191
# SET, and a divider that is held and runs again.
write 11 0x82, quiet 8191, write 10 0, quiet 0xffffffff, pass 0xffffffff, write 10 0x20, quiet 8191
start 65535 0 0 0 0 0 0 1 1 1 0 0x20 6, quiet 536862719

$ quiet periods
# How many ticks pass before PF is set, with a unit of 3 ticks: by the rate, a period is 96 ticks, 192, 3 or up to 12,288. Where PF is set
# already the second's end comes next.
start 3 0 0 0 0 0 0 1 1 1 0 0x20 0x42, write 10 0x20, quiet 24575, write 10 0x21, quiet 95, write 10 0x22, quiet 191
write 10 0x23, quiet 2, write 10 0x24, quiet 5, write 10 0x2f, quiet 12287
pass 200, quiet 12087, write 10 0x21, quiet 87, pass 87, interrupts 0, quiet 0, tick 1, interrupts 1, quiet 24287
reads 12 0xc0, quiet 95
";
