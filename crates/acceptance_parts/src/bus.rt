//! The bus on its own: its regions, and its devices by their registers.
use crate::lists::{Part, cases, numbers_of, plays, within};
use crate::same::same_at;
use crate::serial_part::{RBUF, TDR, line_of, sent_on};
use kn02_bus::{Bus, Device, Lines, Region};
use samples::shown;
use std::process::Abort;
use std::test::Fail;

const START: [u8; 12] = [0x59, 0, 0x59, 0, 0x23, 0, 7, 0x28, 2, 4, 0x20, 2];

// Clauses on a bus, which begins with byte time 16. The serial part's registers are 0 CSR, 8 RBUF and LPR, 16 TCR and 24 TDR, at their
// offsets, and the clock's 10 A, 11 B and 12 C:
//
//     new T, zeros T U            one with a byte time; one with a unit too, whose clock starts with zeros
//     csr W, enable W L           what the board's CSR reads; a store into the bytes of these lanes
//     reads O W, write O W L      what a register of the serial part reads; a store into one, which sends nothing
//     rbuf W .., counts W X       what RBUF reads in turn; all from W to X
//     sends W L I B               a store into TDR, which sends byte B on line I
//     clock R W .., set R W L     what the clock's registers from one on read; a store into one
//     receive I B, framing I B    a byte arrives on line I, or one with a framing error
//     many I N                    the bytes from 0 up to N arrive
//     wire K V                    the level of external line K
//     lines B C                   whether the lines of the board and of the clock interrupt
//     tick N
impl Part for Bus {
    fn begin() -> Bus {
        Bus::new(16, START, 1)
    }

    fn copy_from(&mut self, other: &Bus) {
        self.assign(other);
    }

    fn clause(&mut self, name: &str, numbers: &[u32]) -> Result<bool, Fail> {
        Ok(does(self, name, numbers)? || stores(self, name, numbers)? || is_so(self, name, numbers))
    }
}

// Does what is said, and answers whether something is.
fn does(bus: &mut Bus, name: &str, numbers: &[u32]) -> Result<bool, Fail> {
    match (name, numbers) {
        ("new", [time]) => *bus = Bus::new(within(*time, 1, 65_535)?, START, 1),
        ("zeros", [time, unit]) => {
            let (time, unit) = (within(*time, 1, 65_535)?, within(*unit, 1, 65_535)?);
            *bus = Bus::new(time, [0; 12], unit);
        }
        ("receive", [line, byte]) => bus.receive(line_of(*line)?, u8::try_from(*byte)?),
        ("framing", [line, byte]) => bus.receive_framing(line_of(*line)?, u8::try_from(*byte)?),
        ("many", [line, count]) => {
            for byte in 0..*count {
                bus.receive(line_of(*line)?, u8::try_from(byte)?);
            }
        }
        ("wire", [line, level]) => bus.wire(within(*line, 0, 2)? as u8, *level != 0),
        ("tick", [ticks]) => {
            for _ in 0..*ticks {
                bus.tick();
            }
        }
        _ => return Ok(false),
    }
    Ok(true)
}

// Whether a store is said, and sends what is said.
fn stores(bus: &mut Bus, name: &str, numbers: &[u32]) -> Result<bool, Fail> {
    let (device, word, lanes, sent) = match (name, numbers) {
        ("enable", [word, lanes]) => (Device::Csr, word, lanes, None),
        ("write", [offset, word, lanes]) => (Device::Serial(*offset), word, lanes, None),
        ("set", [number, word, lanes]) => (register(*number), word, lanes, None),
        ("sends", [word, lanes, line, byte]) => {
            (Device::Serial(TDR), word, lanes, sent_on(*line, *byte)?)
        }
        _ => return Ok(false),
    };
    Ok(bus.store(device, *word, u8::try_from(*lanes)?) == sent)
}

// Whether the bus is as is said.
fn is_so(bus: &mut Bus, name: &str, numbers: &[u32]) -> bool {
    match (name, numbers) {
        ("csr", [want]) => bus.load(Device::Csr) == *want,
        ("reads", [offset, want]) => bus.load(Device::Serial(*offset)) == *want,
        ("rbuf", wants) => wants.iter().all(|want| next_byte(bus) == *want),
        ("counts", [first, last]) => (*first..=*last).all(|want| next_byte(bus) == want),
        ("clock", [first, wants @ ..]) => has_clock(bus, *first, wants),
        ("lines", [board, clock]) => {
            let (board, clock) = (*board != 0, *clock != 0);
            bus.lines() == Lines { board, clock }
        }
        _ => false,
    }
}

// What RBUF reads.
fn next_byte(bus: &mut Bus) -> u32 {
    bus.load(Device::Serial(RBUF))
}

// Whether the clock's registers from one on read these bytes.
fn has_clock(bus: &mut Bus, first: u32, wants: &[u32]) -> bool {
    let mut pairs = (first..64).zip(wants);
    pairs.all(|(number, want)| bus.load(register(number)) == *want)
}

// A register of the clock, by its address.
fn register(number: u32) -> Device {
    match Region::of(0x1FE8_0000u32.wrapping_add(number.wrapping_mul(4)), 16) {
        Region::Device(device) => device,
        _ => Device::Csr,
    }
}

#[test]
fn lists(rt: HostRuntime) -> Result<(), Fail> {
    plays::<Bus>(&rt, LISTS)
}

const LISTS: &str = "
$ full silo
# Two buses with the same history are equal, and so is a third that takes it over.
swap, zeros 1 2, swap, write 8 0x1000 15, write 0 0x20 15, many 0 65, other, mark, same, reads 0 0x00a0, rbuf 0x8000, other
receive 0 0x41, counts 0x8001 0x803f, rbuf 0xc041 0

$ an update of the time at the end of a second, with its interrupt
tick 8189, clock 10 0x20, tick 1, clock 10 0xa0
# UIE, by byte 0 alone.
set 11 0x12 14, clock 11 2, set 11 0xffffff12 1, clock 11 0x12, tick 1, lines 0 0, tick 1, lines 0 1
clock 0 0 0 0 0 0 0 1 0x29 2 4, clock 12 0xb0, clock 12 0, lines 0 0

$ CSR
# Byte 2 has the enables, bit 7 is the serial part's line, and both together interrupt.
new 3, enable 0xffffffff 11, csr 0, enable 0xffffffff 15, csr 0x00ff0000, lines 0 0
# TIE and MSE, and line 1.
write 16 2 1, write 0 0x4020 3, csr 0x00ff0000, tick 1, csr 0x00ff0080, lines 1 0, enable 0x007f0000 4, csr 0x007f0080, lines 0 0
enable 0x00800000 4, lines 1 0
# The byte goes out, and the line is busy for three ticks.
write 24 0x1241 14, sends 0x1241 1 1 0x41, csr 0x00800000, tick 2, lines 0 0, tick 1, reads 0 0xc120, lines 1 0

$ external line $1
# It rises, is set again and falls. It counts from when its enable comes, and no other enable makes it count.
| 0 | 1 | 0x0001 | 0x00fe
| 1 | 2 | 0x0002 | 0x00fd
| 2 | 4 | 0x0004 | 0x00fb
csr 0, wire $1 0, same, wire $1 1, csr $2, other, mark, wire $1 1, same, enable $40000 15, csr $4000$2, lines 0 0
enable $30000 15, csr $3000$2, lines 1 0, wire $1 1, lines 1 0, wire $1 0, csr $30000, lines 0 0, wire $1 1, lines 1 0

$ external and serial lines, with enables stored into lanes $1
# Each interrupts as long as it is up and enabled. TIE and MSE, and line 1.
| 4
| 12
| 15
write 16 2 1, write 0 0x4020 3, tick 1, wire 1 1
enable 0 $1, csr 0x00000082, lines 0 0, enable 0x007d0000 $1, csr 0x007d0082, lines 0 0
enable 0x00020000 $1, csr 0x00020082, lines 1 0, enable 0x00800000 $1, csr 0x00800082, lines 1 0
enable 0x00820000 $1, csr 0x00820082, lines 1 0, wire 1 0, csr 0x00820080, lines 1 0
wire 1 1, sends 0x41 1 1 0x41, csr 0x00820002, lines 1 0, wire 1 0, csr 0x00820000, lines 0 0

$ levels stay when the serial part is cleared, when bits 2 to 0 of CSR are stored, and over ticks
write 8 0x1000 15, write 0 0x60 15, receive 0 0x41, wire 0 1, wire 2 1, enable 0x00040000 15, csr 0x00040085
# CLR.
write 0 0x10 15, reads 0 0, csr 0x00040005, lines 1 0, enable 0xffffffff 15, csr 0x00ff0005, enable 0 1, csr 0x00ff0005
tick 100, clock 12 0, csr 0x00ff0005, lines 1 0

$ a byte with a framing error raises the serial part's line as any byte does
enable 0x00800000 15, write 0 0x60 15, framing 2 0x41, csr 0x00800000, write 8 0x1002 15, framing 2 0x42
csr 0x00800080, lines 1 0, rbuf 0xa242 0, lines 0 0

$ looks
# The same tick is the same, whether the clock was read before or not, and whether a level was set before a tick or after it.
tick 9, clock 0 0x59, tick 9, swap, tick 17, other, tick 1, same, swap, wire 1 1, tick 9, swap, tick 9, other, wire 1 1, same, alike
";

// The first and the last address of each part, and those beside them, by the pages of RAM.
#[test]
fn regions(rt: HostRuntime) -> Result<(), Fail> {
    for (pages, places, wanted) in &cases(rt.alloc(), REGIONS)? {
        regions_are(&rt, *pages, *places, wanted)?;
    }
    Ok(())
}

// Whether addresses have this region on a machine with so many pages of RAM.
fn regions_are(
    rt: &(impl Abort + AllocGlobal),
    pages: &str,
    places: &str,
    wanted: &String,
) -> Result<(), Fail> {
    let pages = u32::from_str_radix(pages, 10)?;
    for place in &numbers_of(rt.alloc(), places)? {
        let region = shown(rt.alloc(), &Region::of(*place, pages))?;
        same_at(rt, place, &region, wanted);
    }
    Ok(())
}

const REGIONS: &str = "16: 0 0xffff = Ram; 0x10000 = Unassigned
8192: 0x01ffffff = Ram; 0x02000000 = Unassigned
2048: 0x1fc00000 0x1fc3ffff = Rom; 0x1fbfffff 0x1fc40000 0x1fdfffff 0x1fe00020 0x1fe7ffff 0x1fe80100 0x1fefffff = Unassigned
2048: 0x1fe00000 = Device Serial 0; 0x1fe0000b = Device Serial 8; 0x1fe0001f = Device Serial 28
2048: 0x1fe80000 = Device Clock ClockRegister number 0; 0x1fe8002a = Device Clock ClockRegister number 10
2048: 0x1fe800ff = Device Clock ClockRegister number 63; 0x1ff00000 0x1ff00003 = Device Csr; 0x1ff00004 0xffffffff = Unassigned";
