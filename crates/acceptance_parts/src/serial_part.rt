//! The serial part by example. Bits of CSR in hexadecimal: TRDY 8000, TIE 4000, TLINE 0300, RDONE 80, RIE 40, MSE 20, CLR 10, MAINT 8. Of
//! RBUF: DVAL 8000, OERR 4000, FERR 2000, line 0300.
use crate::lists::{Part, plays, within};
use dz_serial::{Dz, Sent, SerialLine};
use std::test::Fail;

const CSR: u32 = 0;

// RBUF is read and LPR written.
pub const RBUF: u32 = 8;

const TCR: u32 = 16;

pub const TDR: u32 = 24;

// Clauses on a serial part, which begins with byte time 16:
//
//     new T, started T E          one with a byte time; with MSE 1, all receivers on and these lines enabled
//     csr W, tcr W, reads O W     what a register reads
//     rbuf W .., counts W X       what RBUF reads in turn; all from W to X
//     write O W L                 a store at an offset into the bytes of these lanes, which sends nothing
//     sends W L I B               a store into TDR, which sends byte B on line I
//     turn W I B                  a tick, and such a store into all bytes
//     receive I B, framing I B    a byte arrives on line I, or one with a framing error
//     many I N, again I N B       the bytes from 0 up to N arrive; one N times
//     tick N, pass N, quiet N     ticks, ticks that only count, and how many of them there are
//     interrupts V                whether the part asks for an interrupt
impl Part for Dz {
    fn begin() -> Dz {
        Dz::new(16)
    }

    fn copy_from(&mut self, other: &Dz) {
        self.assign(other);
    }

    fn clause(&mut self, name: &str, numbers: &[u32]) -> Result<bool, Fail> {
        Ok(does(self, name, numbers)? || is_so(self, name, numbers))
    }
}

// Does what is said, and answers whether something is, and whether it sent what is said.
fn does(dz: &mut Dz, name: &str, numbers: &[u32]) -> Result<bool, Fail> {
    match (name, numbers) {
        ("new", [time]) => *dz = Dz::new(within(*time, 1, 65_535)?),
        ("started", [time, lines]) => {
            *dz = Dz::new(within(*time, 1, 65_535)?);
            for line in 0..4 {
                dz.write(RBUF, 0x1000 + line, 15);
            }
            dz.write(TCR, *lines, 15);
            dz.write(CSR, 0x20, 15);
        }
        ("write", [offset, word, lanes]) => {
            return Ok(dz.write(*offset, *word, u8::try_from(*lanes)?).is_none());
        }
        ("sends", [word, lanes, line, byte]) => {
            let sent = dz.write(TDR, *word, u8::try_from(*lanes)?);
            return Ok(sent == sent_on(*line, *byte)?);
        }
        ("turn", [word, line, byte]) => {
            dz.tick();
            return Ok(dz.write(TDR, *word, 15) == sent_on(*line, *byte)?);
        }
        ("receive", [line, byte]) => dz.receive(line_of(*line)?, u8::try_from(*byte)?),
        ("framing", [line, byte]) => dz.receive_framing(line_of(*line)?, u8::try_from(*byte)?),
        ("many", [line, count]) => {
            for byte in 0..*count {
                dz.receive(line_of(*line)?, u8::try_from(byte)?);
            }
        }
        ("again", [line, count, byte]) => {
            for _ in 0..*count {
                dz.receive(line_of(*line)?, u8::try_from(*byte)?);
            }
        }
        ("tick", [ticks]) => {
            for _ in 0..*ticks {
                dz.tick();
            }
        }
        ("pass", [ticks]) => dz.pass(*ticks),
        _ => return Ok(false),
    }
    Ok(true)
}

// Whether the part is as is said.
fn is_so(dz: &mut Dz, name: &str, numbers: &[u32]) -> bool {
    match (name, numbers) {
        ("csr", [want]) => dz.read(CSR) == *want,
        ("tcr", [want]) => dz.read(TCR) == *want,
        ("reads", [offset, want]) => dz.read(*offset) == *want,
        ("rbuf", wants) => wants.iter().all(|want| dz.read(RBUF) == *want),
        ("counts", [first, last]) => (*first..=*last).all(|want| dz.read(RBUF) == want),
        ("quiet", [want]) => dz.quiet() == *want,
        ("interrupts", [want]) => dz.interrupts() as u32 == *want,
        _ => false,
    }
}

/// A line, by its number.
pub fn line_of(number: u32) -> Result<SerialLine, Fail> {
    Ok(SerialLine::new(within(number, 0, 3)? as u8))
}

/// A byte that is sent on a line.
pub fn sent_on(line: u32, byte: u32) -> Result<Option<Sent>, Fail> {
    Ok(Some(Sent {
        line: line_of(line)?,
        byte: u8::try_from(byte)?,
    }))
}

#[test]
fn lists(rt: HostRuntime) -> Result<(), Fail> {
    plays::<Dz>(&rt, LISTS)
}

const LISTS: &str = "
$ full silo $1
# The byte after the lost one has OERR, and FERR if it has a framing error.
| receive 0 0x41 | 0xc041
| framing 0 0x41 | 0xe041
write 8 0x1000 15, write 0 0x20 15, many 0 65, csr 0x00a0, rbuf 0x8000, $1, counts 0x8001 0x803f, rbuf $2 0

$ overrun, with $1 lost
# The next byte of line 2 that is stored has OERR, and the one after that has not. Line 1 lost none.
| 1
| 2
| 64
started 16 0, many 0 64, again 2 $1 0xee, counts 0x8000 0x8002, receive 1 0x11, receive 2 0x22, receive 2 0x33
counts 0x8003 0x803f, rbuf 0x8111 0xc222 0x8233 0

$ receivers
receive 1 0x41, write 0 0x20 15, receive 1 0x42, write 8 0x1001 14, receive 1 0x43, write 8 0x1001 3
receive 0 0x44, receive 1 0x45, write 8 0x1001 1, receive 1 0x46, rbuf 0x8145 0

$ framing errors
# One is ignored with MSE 0 or its receiver off. A full silo loses it, and the next byte that is stored from its line has OERR and no FERR.
write 8 0x1001 15, framing 1 0x41, write 0 0x20 15, framing 0 0x42, csr 0x0020, rbuf 0, framing 1 0x43
receive 1 0x44, csr 0x00a0, rbuf 0xa143 0x8144 0
many 1 64, framing 1 0xee, rbuf 0x8100, receive 1 0x45, counts 0x8101 0x813f, rbuf 0xc145 0

$ silos that differ in a framing error alone
started 16 0, mark, framing 3 0xff, swap, receive 3 0xff, other, swap, mark, same, swap, rbuf 0xa3ff

$ scan order
# With byte time 3 a line is free again at the third tick after it sent, so four lines take turns.
started 3 0xf, turn 5 1 5, turn 6 2 6, turn 7 3 7, turn 8 0 8, turn 9 1 9, turn 10 2 10, turn 11 3 11, turn 12 0 12
# Lines 0 and 2 alone. Line 0 sent just now, and line 2 at the third tick before this one.
write 16 5 15, tick 1, csr 0x8220, tcr 5

$ all busy
# With byte time 6 the four lines that sent at the first four ticks are all busy at the fifth and sixth, and line 1 is free at the seventh.
started 6 0xf, turn 0x123 1 0x23, turn 0x123 2 0x23, turn 0x123 3 0x23, turn 0x123 0 0x23
tick 1, write 24 0 15, tick 1, write 24 0 15, turn 0 1 0

$ busy counts
# One line with byte time 3 is ready again at the third tick after a byte, with MSE 0 in between too.
started 3 4, turn 1 2 1, tick 1, write 24 2 15, write 0 0 15, tick 1, write 24 3 15, write 0 0x20 15, turn 4 2 4
started 1 4, turn 0 2 0, turn 1 2 1, turn 2 2 2

$ transmit without TRDY
started 16 2, mark, write 24 0x41 15, same, tick 1, csr 0x8120, mark, write 24 0x41 14, same
sends 0x41 1 1 0x41, write 24 0x42 1

$ disabling the line
started 16 3, tick 1, csr 0x8120, write 16 0 14, csr 0x8120, write 16 0xfa 1, csr 0x8120, tcr 0xa, write 16 1 1
csr 0x0120, tick 1, csr 0x8020

$ covered bytes of CSR: lanes $1 and the others, $3
| 0 | 0 | 15
| 1 | 0x68 | 14
| 2 | 0x4000 | 13
| 3 | 0x4068 | 12
| 12 | 0 | 3
| 15 | 0x4068 | 0
write 0 0xffffffef $1, csr $2, write 0 0 $3, csr $2, write 0 0 $1, csr 0

$ clear
started 5 0xf, write 0 0x4068 15, many 3 65, turn 0x41 1 0x41, tick 1, csr 0xc2e8
# CLR in a byte that is not covered does nothing.
write 0 0x4010 2, csr 0xc2e8, write 0 0x4078 15, csr 0, tcr 0
mark, new 5, same, new 6, other

$ scan enable off
# With MSE 0 the silo is empty, nothing is ready, and the mark of the lost byte is gone.
started 16 8, many 0 65, tick 1, csr 0x83a0, write 0 0 2, csr 0x83a0, write 0 0 1, csr 0x0300, rbuf 0, tick 1
receive 0 0x41, csr 0x0300, write 0 0x20 1, receive 0 0x42, rbuf 0x8042

$ interrupt line
started 16 1, tick 1, receive 0 0x41, write 0 0x20 15, interrupts 0, write 0 0x4020 15, interrupts 1
write 0 0x60 15, interrupts 1, write 0 0x4060 15, interrupts 1, sends 0x41 1 0 0x41, interrupts 1, rbuf 0x8041
interrupts 0

$ other words
started 16 0xf, tick 1, receive 1 0x41, mark, reads 4 0, reads 12 0, reads 20 0, reads 24 0, reads 28 0
write 4 0xffffffff 15, write 12 0xffffffff 15, write 20 0xffffffff 15, write 28 0xffffffff 15, same, tcr 0xf

$ quiet ticks
# How many ticks pass before TRDY rises, by the busy counts. With byte time 5 a line that sent is ready at the fifth tick after it; with
# byte time 6 line 1, which sent first of the four, at the third tick after line 0 did.
started 5 4, quiet 0, tick 1, quiet 0xffffffff, sends 0x41 15 2 0x41, quiet 4, tick 1, quiet 3, pass 3, quiet 0
csr 0x0220, tick 1, csr 0x8220
started 6 0xf, turn 0x41 1 0x41, turn 0x41 2 0x41, turn 0x41 3 0x41, turn 0x41 0 0x41, quiet 2, pass 2, turn 0x42 1 0x42
# Line 2 is free at the next tick, and line 3 at the one after it.
quiet 0, write 16 0xb 15, quiet 1

$ quiet for ever
# No tick raises TRDY with no line enabled or with MSE 0. The counts fall nevertheless, to 0 at the least.
started 9 0, quiet 0xffffffff, write 16 2 15, turn 0x41 1 0x41, write 0 0 15, quiet 0xffffffff, pass 7
write 0 0x20 15, quiet 1, pass 0xffffffff, quiet 0, turn 0x42 1 0x42
";
