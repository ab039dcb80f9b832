//! The control registers by hand: numbers 0 Index, 1 Random, 2 EntryLo, 4 Context, 8 BadVAddr, 10 EntryHi, 12 Status, 13
//! Cause, 14 EPC, 15 PRId.
use crate::lists::{Part, plays, within};
use cop0::{Cop0, Coprocessor, Exc, ExcCode};
use std::test::Fail;

// Clauses on the control registers:
//
//     reads N W .., write N W     what those from one on read; one is written
//     all W                       a word is written into each
//     break V, call V, unusable V, miss V, user-miss V, modification A V, misaligned A V
//                                 an exception of the instruction at 0xBFC00010, some with an address, and its vector: a breakpoint, a
//                                 system call in a delay slot, coprocessor 2, a load without an entry, and for the handler of user misses
//     rfe, fall N                 the return from an exception; Random falls
//     sample B C, wanted V        the interrupt lines of the board and the clock; whether an interrupt is wanted
//     probed, probed I            a probe finds no entry, or one
//     loaded H L, ts, cm V        an entry is read; TS and CM of Status are set
impl Part for Cop0 {
    fn begin() -> Cop0 {
        Cop0::new()
    }

    fn copy_from(&mut self, other: &Cop0) {
        self.assign(other);
    }

    fn clause(&mut self, name: &str, numbers: &[u32]) -> Result<bool, Fail> {
        Ok(enters(self, name, numbers) || does(self, name, numbers)? || is_so(self, name, numbers))
    }
}

// Enters an exception, if the clause names one. Returns whether its vector is the last number.
fn enters(cop0: &mut Cop0, name: &str, numbers: &[u32]) -> bool {
    let [numbers @ .., vector] = numbers else {
        return false;
    };
    match exception_of(name, numbers.first().copied()) {
        Some(exception) => cop0.enter(exception) == *vector,
        None => false,
    }
}

// Makes the call that a clause names. Returns whether it names one.
fn does(cop0: &mut Cop0, name: &str, numbers: &[u32]) -> Result<bool, Fail> {
    match (name, numbers) {
        ("write", [number, word]) => cop0.write(u8::try_from(*number)?, *word),
        ("all", [word]) => write_all(cop0, *word),
        ("rfe", []) => cop0.rfe(),
        ("fall", [falls]) => fall(cop0, *falls),
        ("sample", [board, clock]) => cop0.sample(*board != 0, *clock != 0),
        ("probed", []) => cop0.probed(None),
        ("probed", [index]) => cop0.probed(Some(within(*index, 0, 63)?)),
        ("loaded", [hi, lo]) => cop0.loaded(*hi, *lo),
        ("ts", []) => cop0.set_ts(),
        ("cm", [miss]) => cop0.set_cm(*miss != 0),
        _ => return Ok(false),
    }
    Ok(true)
}

// Returns whether what a clause states holds.
fn is_so(cop0: &Cop0, name: &str, numbers: &[u32]) -> bool {
    match (name, numbers) {
        ("reads", [first, wants @ ..]) => {
            let mut pairs = (*first..32).zip(wants);
            pairs.all(|(number, want)| cop0.read(number.min(31) as u8) == *want)
        }
        ("wanted", [want]) => cop0.wanted() as u32 == *want,
        _ => false,
    }
}

fn write_all(cop0: &mut Cop0, word: u32) {
    for number in 0..16 {
        cop0.write(number, word);
    }
}

fn fall(cop0: &mut Cop0, falls: u32) {
    for _ in 0..falls {
        cop0.fall();
    }
}

// An exception of the instruction at 0xBFC00010, with the address that it has.
fn exception_of(name: &str, bad: Option<u32>) -> Option<Exc> {
    let code = match name {
        "break" => ExcCode::Breakpoint,
        "call" => ExcCode::SystemCall,
        "unusable" => ExcCode::CoprocessorUnusable(Coprocessor::Cp2),
        "miss" | "user-miss" => ExcCode::TlbLoad,
        "modification" => ExcCode::Modification,
        "misaligned" => ExcCode::AddressLoad,
        _ => return None,
    };
    Some(Exc {
        code,
        pc: 0xBFC0_0010,
        delay: name == "call",
        bad,
        mapped: name == "modification",
        refill: name == "user-miss",
    })
}

#[test]
fn lists(rt: HostRuntime) -> Result<(), Fail> {
    plays::<Cop0>(&rt, LISTS)
}

const LISTS: &str = "
$ reset
reads 0 0 0x3f00 0 0 0 0 0 0 0 0 0 0 0x00400000 0 0 0x0220, reads 31 0

$ write masks
# All bits written over zeros, and zeros over them.
all 0xffffffff, reads 0 0x3f00 0x3f00 0xffffff00 0 0xffe00000 0 0 0 0 0 0xffffffc0 0 0x1047ff3f 0x0300 0 0x0220
all 0, reads 0 0 0x3f00 0 0 0 0 0 0 0 0 0 0 0 0 0 0x0220

$ a system call in a delay slot
write 12 0x00400001, call 0xbfc00180, reads 12 0x00400004 0x80000020 0xbfc0000c, reads 8 0

$ vectors, with BEV in $1
| 0x00400000 | miss | 0xbfc00180
| 0x00400000 | user-miss | 0xbfc00100
| 0 | miss | 0x80000080
| 0 | user-miss | 0x80000000
write 12 $1, $2 $3, reads 14 0xbfc00010

$ addresses
# A store to page 0x12345 that is not dirty, with PTEBase and a PID set before.
write 4 0x80200000, write 10 0x0040, modification 0x12345678 0xbfc00180
reads 8 0x12345678, reads 4 0x80248d14, reads 10 0x12345040, reads 13 4
# An address error loads BadVAddr alone.
misaligned 0x80000001 0xbfc00180, reads 8 0x80000001, reads 4 0x80248d14, reads 10 0x12345040, reads 13 0x10

$ modes and interrupts
# Mode bits 11 01 10: entry gives 01 10 00, and the return 01 01 10.
write 12 0x36, break 0x80000080, reads 12 0x18, rfe, reads 12 0x16
# IE with the mask of line 10 alone. Cause has the breakpoint's code too.
write 12 0x0401, wanted 0, sample 0 1, reads 13 0x0824, wanted 0, sample 1 0, reads 13 0x0424, wanted 1, write 12 0x0400, wanted 0
# CpU of coprocessor 2 keeps the pending interrupt.
unusable 0x80000080, reads 13 0x2000042c

$ Random falls
fall 55, reads 1 0x0800, fall 1, reads 1 0x3f00

$ translation and caches
probed, reads 0 0x80000000, probed 63, reads 0 0x3f00, loaded 0x12345fff 0xabcdefff, reads 10 0x12345fc0, reads 2 0xabcdef00
ts, cm 1, reads 12 0x00680000, cm 0, reads 12 0x00600000, other, mark, same
";
