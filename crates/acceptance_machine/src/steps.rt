//! The machine step by step: values by hand from the manual's rules.
use crate::machine::plays;
use std::test::Fail;

#[test]
fn steps(rt: HostRuntime) -> Result<(), Fail> {
    plays(&rt, LISTS)
}

const LISTS: &str = "
$ Instructions that take an exception: the upper and the lower half of r9, the instruction, Cause but for its delay mark, and the bad
# address that it leaves. In turn AdEL of a word and of a halfword, AdES of both, the same in kuseg, where no entry matters, DBE just
# past 16 pages of RAM and where no part of the board is, Sys, Bp, RI of opcode 63 and of opcode 16, CpU of coprocessors 1 to 3, and Ov.
| 0x8000 | 2 | lw r10, 0(r9) | 0x10 | 0x80000002
| 0x8000 | 0x100 | lhu r10, 1(r9) | 0x10 | 0x80000101
| 0xa000 | 1 | sw r10, 4(r9) | 0x14 | 0xa0000005
| 0x8000 | 3 | sh r10, 0(r9) | 0x14 | 0x80000003
| 0 | 0x5000 | lw r10, 1(r9) | 0x10 | 0x5001
| 0 | 0x5000 | sh r10, 1(r9) | 0x14 | 0x5001
| 0xa001 | 0 | lbu r10, 0(r9) | 0x1c | 0
| 0xbfe0 | 0 | lw r10, 32(r9) | 0x1c | 0
| 0 | 0 | syscall 0 | 0x20 | 0
| 0 | 0 | break 5 | 0x24 | 0
| 0 | 0 | .word 0xffffffff | 0x28 | 0
| 0 | 0 | .word 0x42000011 | 0x28 | 0
| 0 | 0 | .word 0x44000000 | 0x1000002c | 0
| 0 | 0 | .word 0xc8000000 | 0x2000002c | 0
| 0 | 0 | .word 0xec000000 | 0x3000002c | 0
| 0x7fff | 0xffff | addi r10, r9, 1 | 0x30 | 0
# Each stands at 0xBFC00018, alone and in the delay slot of a branch, with BEV 1 and 0. Status holds IEp and IEc, which move up.
/ sll r0, r0, 0 | 0 | 0xbfc00018 | 0 | 64 | 0xbfc00180 | 0xbfc00184 | 0x00400014
/ sll r0, r0, 0 | 0 | 0xbfc00018 | 0 | 0 | 0x80000080 | 0x80000084 | 0x14
/ beq r0, r0, 0x1fc00038 | 1 | 0xbfc00014 | 0x80000000 | 64 | 0xbfc00180 | 0xbfc00184 | 0x00400014
/ beq r0, r0, 0x1fc00038 | 1 | 0xbfc00014 | 0x80000000 | 0 | 0x80000080 | 0x80000084 | 0x14
lui r8, %5; ori r8, r8, 5; mtc0 r8, c12; lui r9, $1; ori r9, r9, $2; %1; $3
-- run 6, pc 0xbfc00018, delay %2, run 1, touched 16 none, stored none, taken %6 %3 $4+%4, next %7, delay 0
status %8, badvaddr $5, context 0, entryhi 0, register 10 0

$ A fetch that faults, after jr r9 and its delay slot, and in the delay slot of j
| 0xbfc0 | 0x102 | 0xbfc00102 | 0xbfc000fe | 0x10 | 0xbfc00102
| 0xa001 | 0 | 0xa0010000 | 0xa000fffc | 0x18 | 0
| 0xbfe0 | 0 | 0xbfe00000 | 0xbfdffffc | 0x18 | 0
/ sll r0, r0, 0 | $3 | 0 | 64 | 0xbfc00180
/ sll r0, r0, 0 | $3 | 0 | 0 | 0x80000080
/ j 0x1fc00000 | $4 | 0x80000000 | 64 | 0xbfc00180
/ j 0x1fc00000 | $4 | 0x80000000 | 0 | 0x80000080
lui r8, %4; mtc0 r8, c12; lui r9, $1; ori r9, r9, $2; jr r9; %1
-- run 6, pc $3, run 1, touched none none, taken %5 %2 $5+%3, badvaddr $6

$ An interrupt by Cause bit 9, with BEV 1 and 0. Bit 8 is not enabled
| 64 | 0xbfc00180 | 0x00400204
| 0 | 0x80000080 | 0x204
lui r8, $1; ori r8, r8, 0x201; mtc0 r8, c12; addiu r9, r0, 0x300; mtc0 r9, c13
-- run 5, pc 0xbfc00014, run 1, touched none none, taken $2 0xbfc00014 0x300, status $3

$ What the handler of an interrupt in place of step 5 sees, and its return. The handler stores 0 into Cause
lui r8, 0x40; ori r8, r8, 0x101; mtc0 r8, c12; addiu r9, r0, 256; mtc0 r9, c13; addiu r10, r0, 7
.org 0x1fc00180; mtc0 r0, c13; mfc0 r26, c14; sll r0, r0, 0; jr r26; rfe
-- run 6, pc 0xbfc00180, register 10 0, status 0x00400104, epc 0xbfc00014
run 5, pc 0xbfc00014, status 0x00400101, cause 0, run 1, register 10 7

$ The registers that instructions write: 34 is HI and LO, 32 HI, 33 LO. A load counts at its own step, also where the next instruction
# writes its register too. A store, a move to coprocessor 0, writes of r0, a nop and an overflow write none
lui r2, 0x8000; mult r2, r2; mthi r2; mtlo r2; mfhi r3; mflo r3; lw r4, 0(r2); addiu r4, r0, 1; mfc0 r5, c12; sw r4, 0(r2); mtc0 r0, c13
sll r0, r0, 0; addiu r0, r0, 5; jal 0x1fc0003c; sll r0, r0, 0; addi r6, r2, -1
-- writes 2 34 32 33 3 3 4 4 5 0 0 0 0 31 0 0, pc 0xbfc00180

$ A pending load, and then an exception of each part of the step: the value lands
| syscall 0
| .word 0xffffffff
| lw r2, 1(r1)
| sw r2, 0(r0)
lui r1, 0xbfc0; lw r2, 0(r1); $1
-- run 2, load 2 0x3c01bfc0, register 2 0, run 1, pc 0xbfc00180, register 2 0x3c01bfc0, load none

$ The word at 0x100 is 0x44332211, r2 is loaded with 0xAABBCCDD and still in its slot: lwl and lwr merge with that value
| lwl | 0x2211ccdd
| lwr | 0xaa443322
lui r1, 0x8000; lui r3, 0x4433; ori r3, r3, 0x2211; sw r3, 0x100(r1); lui r3, 0xaabb; ori r3, r3, 0xccdd; sw r3, 0x104(r1)
lw r2, 0x104(r1); $1 r2, 0x101(r1)
-- run 9, register 2 0xaabbccdd, load 2 $2, run 1, register 2 $2

$ An unaligned word is loaded by lwr and lwl in a row, the second of which merges with the first in the slot
lui r1, 0x8000; lui r3, 0x4433; ori r3, r3, 0x2211; sw r3, 0x100(r1); sw r3, 0x104(r1); lwr r2, 0x102(r1); lwl r2, 0x105(r1)
sll r0, r0, 0; swr r2, 0x202(r1); swl r2, 0x205(r1)
-- run 8, register 2 0x22114433, run 2, ram 0x200 0x44330000 0x2211

$ Stores of each width to RAM, and of a word to ROM, past RAM and to where no part of the board is. A fault of translation touches the
# page of its fetch alone.
lui r1, 0xa000; lui r2, 0x1234; ori r2, r2, 0x5678; sb r2, 0x2003(r1); sh r2, 0x2002(r1); sw r2, 0x3004(r1); lui r3, 0xbfc0
sw r2, 0(r3); lui r3, 0xa001; sw r2, 0(r3); lui r3, 0xbfe0; sw r2, 32(r3); lw r4, 0x3004(r1); lw r5, 0(r0)
-- run 4, stored 0x2000, touched 16 2, ram 0x2000 0x78000000
run 1, stored 0x2000, touched 16 2, ram 0x2000 0x56780000
run 1, stored 0x3004, touched 16 3, ram 0x3004 0x12345678
run 2, stored none, touched 16 none, run 2, stored none, touched 16 none, run 2, stored none, touched 16 none, pc 0xbfc00030
run 1, stored none, touched 16 3, run 1, stored none, touched 16 none

$ few instructions: $1
# What mfc0 reads is there one instruction late. Into r0 it leaves the slot empty.
| mfc0 r2, c15; addu r3, r2, r0; addu r4, r2, r0; mfc0 r0, c15 | run 1, load 2 0x220, run 2, register 3 0 0x220, run 1, load none
# What mtc0 writes is seen by the next step: it reads it, or fetches in user mode, which is an address error of kseg1.
| lui r1, 0x8000; mtc0 r1, c4; mfc0 r2, c4; sll r0, r0, 0 | run 2, context 0x80000000, run 2, register 2 0x80000000
| ori r1, r0, 2; mtc0 r1, c12 | run 2, pc 0xbfc00008, run 1, taken 0x80000080 0xbfc00008 0x10, badvaddr 0xbfc00008, status 8
# Random is 63 at position 0, 62 at 1, 8 at 55, and 63 again at 56; step 0 reads 63.
| mfc0 r2, c1 | random 0x3f00, run 1, load 2 0x3f00, random 0x3e00, run 54, random 0x800, run 1, random 0x3f00
# A branch that is not taken: its successor is in a delay slot all the same.
| bne r0, r0, 0x1fc00010; sll r0, r0, 0 | run 1, pc 0xbfc00004, next 0xbfc00008, delay 1, run 1, delay 0
# A branch in the delay slot of a jump with link. r31 is the address after the slot, one instruction of the jump's target is run, and then the
# branch's target follows, by its own address.
| jal 0x1fc00010; beq r0, r0, 0x1fc00014 | run 2, register 31 0xbfc00008, pc 0xbfc00010, next 0xbfc00014, run 1, pc 0xbfc00014, delay 0
# jalr with equal registers goes to r4 as it was read, and then r4 is the link.
| lui r4, 0xbfc0; ori r4, r4, 0x40; jalr r4, r4; sll r0, r0, 0 | run 4, pc 0xbfc00040, register 4 0xbfc00010
$1
-- $2
";
