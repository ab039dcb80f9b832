//! The registers of the serial part, of the board and of the clock, read by loads of each width at each byte: values by hand
//! from the specifications of the parts.
use crate::machine::plays;
use std::test::Fail;

#[test]
fn loads(rt: HostRuntime) -> Result<(), Fail> {
    plays(&rt, LISTS)
}

const LISTS: &str = "
$ The periodic flag is up from step 31 on: a load of any width at any byte of C takes it, and the next load finds 0. The load
# runs in step 36, before the next period ends in step 63.
| lw r5, 48(r1) | 0x40
| lh r5, 48(r1) | 0x40
| lhu r5, 50(r1) | 0
| lb r5, 48(r1) | 0x40
| lbu r5, 49(r1) | 0
| lb r5, 51(r1) | 0
| lwl r5, 49(r1) | 0x00400000
| lwr r5, 51(r1) | 0
.clock 0 0 0 0 0 0 1 1 1 0 0x21 0x02; lui r1, 0xbfe8; .org 0x1fc00090; $1; lw r6, 48(r1)
-- run 38, landed 5 $2 0

$ UIP is up from tick 8190 on until the update, in tick 8192; step 8188 is tick 8189
lui r1, 0xbfe8; .org 0x1fc07ff0; lw r5, 40(r1); lb r6, 40(r1); lbu r7, 40(r1); lhu r8, 40(r1)
-- run 8192, landed 5 0x20 0xffffffa0 0xa0 0x20

$ Start: every load of the word at r1, in 31 steps: lw into r8, lh and lhu of bytes 0 and 2 into r9 to r12, lb and lbu of bytes 0 to 3
# into r13 to r20, lwl and lwr of each byte into r21 to r28, which are 0xaabbccdd before, and the word once more into r29.
lui r21, 0xaabb; ori r21, r21, 0xccdd; addu r22, r21, r0; addu r23, r21, r0; addu r24, r21, r0; addu r25, r21, r0
addu r26, r21, r0; addu r27, r21, r0; addu r28, r21, r0; lw r8, 0(r1); lh r9, 0(r1); lh r10, 2(r1); lhu r11, 0(r1)
lhu r12, 2(r1); lb r13, 0(r1); lb r14, 1(r1); lb r15, 2(r1); lb r16, 3(r1); lbu r17, 0(r1); lbu r18, 1(r1); lbu r19, 2(r1)
lbu r20, 3(r1); lwl r21, 0(r1); lwl r22, 1(r1); lwl r23, 2(r1); lwl r24, 3(r1); lwr r25, 0(r1); lwr r26, 1(r1)
lwr r27, 2(r1); lwr r28, 3(r1); lw r29, 0(r1)

$ CSR with TRDY, TIE, TLINE 2, RDONE, RIE, MSE and MAINT: 0x8000 + 0x4000 + 0x0200 + 0x80 + 0x40 + 0x20 + 0x08 = 0xc2e8. Line
# 2 may send, and a byte of line 0 is there.
lui r1, 0xbfe0; addiu r2, r0, 0x1000; sw r2, 8(r1); addiu r2, r0, 4; sw r2, 16(r1); addiu r2, r0, 0x4068; sw r2, 0(r1); <start>
-- run 7, receive 0:0x41, run 30, landed 8 0xc2e8, landed 9 0xffffc2e8 0 0xc2e8 0, landed 13 0xffffffe8 0xffffffc2 0 0 0xe8 0xc2 0 0
landed 21 0xe8bbccdd 0xc2e8ccdd 0x00c2e8dd 0xc2e8 0xc2e8 0xaa0000c2 0xaabb0000 0xaabbcc00, landed 29 0xc2e8

$ 21 bytes 0xc1 of line 2: each load of RBUF takes one, whatever its width and byte, and the last finds none
lui r1, 0xbfe0; addiu r2, r0, 0x1002; sw r2, 8(r1); addiu r2, r0, 0x20; sw r2, 0(r1); addiu r1, r1, 8; <start>
-- run 6, receive 21*2:0xc1, run 30, landed 8 0x82c1, landed 9 0xffff82c1 0 0x82c1 0, landed 13 0xffffffc1 0xffffff82 0 0 0xc1 0x82 0 0
landed 21 0xc1bbccdd 0x82c1ccdd 0x0082c1dd 0x82c1 0x82c1 0xaa000082 0xaabb0000 0xaabbcc00, landed 29 0

$ Words of a byte alone: TCR gives back bits 3 to 0 of 0xfffd, and the last register of the clock's RAM holds 0xc5
| lui r1, 0xbfe0; ori r1, r1, 16; ori r2, r0, 0xfffd; sw r2, 0(r1) | 0d | 0xd
| lui r1, 0xbfe8; ori r1, r1, 252; addiu r2, r0, 0xc5; sb r2, 0(r1) | c5 | 0xffffffc5
$1; <start>
-- run 35, landed 8 0x$2, landed 9 0x$2 0 0x$2 0, landed 13 $3 0 0 0 0x$2 0 0 0
landed 21 0x$2bbccdd 0x00$2ccdd 0x$2dd 0x$2 0x$2 0xaa000000 0xaabb0000 0xaabbcc00, landed 29 0x$2

$ The board's word with enables 0xa5, the line of the serial part, which has a byte, and lines 0 and 2 up: 0x00a50085. A store into
# its lower half changes nothing.
lui r1, 0xbff0; lui r2, 0x00a5; ori r2, r2, 0xfff8; sw r2, 0(r1); lui r3, 0xbfe0; addiu r2, r0, 0x1000; sw r2, 8(r3)
addiu r2, r0, 0x60; sw r2, 0(r3); <start>
-- run 9, receive w0:1 w2:1 0:0x41, run 30, landed 8 0x00a50085, landed 9 0x85 0xa5 0x85 0xa5
landed 13 0xffffff85 0 0xffffffa5 0 0x85 0 0xa5 0
landed 21 0x85bbccdd 0x0085ccdd 0xa50085dd 0x00a50085 0x00a50085 0xaa00a500 0xaabb00a5 0xaabbcc00, landed 29 0x00a50085

$ MSR, and the four words without a register after a store, which changes neither CSR nor TCR
| 24 | sll r0, r0, 0
| 4 | sw r3, 0(r1)
| 12 | sw r3, 0(r1)
| 20 | sw r3, 0(r1)
| 28 | sw r3, 0(r1)
lui r2, 0xbfe0; addiu r3, r0, 5; sw r3, 16(r2); addiu r3, r0, -1; addiu r1, r2, $1; $2; lw r30, 16(r2); lw r31, 0(r2); <start>
-- run 39, landed 8 13*0, landed 21 0x00bbccdd 0xccdd 0xdd 0 0 0xaa000000 0xaabb0000 0xaabbcc00 0 5 0
";
