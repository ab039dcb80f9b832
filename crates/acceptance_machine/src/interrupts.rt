//! Interrupts of the serial part and of the clock, with handlers: values by hand from the specifications of the parts and of the
//! processor.
use crate::machine::plays;
use std::test::Fail;

#[test]
fn interrupts(rt: HostRuntime) -> Result<(), Fail> {
    plays(&rt, LISTS)
}

const LISTS: &str = "
$ The clock's line alone at position 32, with these B and Status: Cause, PC and then what C gives, to a load in the next step
| 0x42 | 0x0801 | 0x800 | 0xbfc00180 | 0xc0
| 0x42 | 0x0401 | 0x800 | 0xbfc00080 | 0xc0
| 0x42 | 0x0800 | 0x800 | 0xbfc00080 | 0xc0
| 0x02 | 0x0801 | 0 | 0xbfc00080 | 0x40
.clock 0 0 0 0 0 0 1 1 1 0 0x21 $1; lui r1, 0xbfe8; lui r6, 64; ori r6, r6, $2; mtc0 r6, c12
.org 0x1fc00080; lw r5, 48(r1); .org 0x1fc00180; lw r5, 48(r1)
-- run 32, cause $3, pc $4, run 1, landed 5 $5

$ A handler of the clock notes what C gives from 0x100 on. The period is 4096 ticks, an update comes each 8192, and the alarm is for
# second 1 of any minute and hour. With PIE the handler runs four times: PF; PF, AF and UF; PF; PF and UF. With AIE alone it runs once,
# and with UIE alone twice; what is not enabled is up all the same.
| 0x72 | 0xc0 0xf0 0xc0 0xd0 0
| 0x42 | 0xc0 0xf0 0xc0 0xd0 0
| 0x22 | 0xf0 0 0 0 0
| 0x12 | 0xf0 0xd0 0 0 0
| 0x02 | 0 0 0 0 0
.clock 0 1 0 0xff 0 0xc0 1 1 1 0 0x2f $1; lui r1, 0xbfe8; lui r2, 0xa000; lui r6, 64; ori r6, r6, 0x0801; mtc0 r6, c12
j 0x1fc00014; sll r0, r0, 0
.org 0x1fc00180; lw r8, 48(r1); addiu r2, r2, 4; sw r8, 252(r2); mfc0 r27, c14; sll r0, r0, 0; jr r27; rfe
-- run 16400, ram 0x100 $2

$ Start, in eleven steps: line 7 of the board enabled, the receiver of line 0 on, RIE and MSE, and in Status the masks of both lines and IEc
lui r1, 0xbfe0; lui r2, 0xbff0; lui r3, 128; sw r3, 0(r2); addiu r4, r0, 4096; sw r4, 8(r1); addiu r5, r0, 96; sw r5, 0(r1)
lui r6, 64; ori r6, r6, 0x0c01; mtc0 r6, c12

$ Where the mask lacks the line, IEc is 0, or the board does not enable the line, nothing is taken; Cause shows the line but for the last,
# from the position after the byte's step on.
| 513 | 128 | 0x400
| 1024 | 128 | 0x400
| 1025 | 64 | 0
lui r3, $2; sw r3, 0(r2); lui r6, 64; ori r6, r6, $1; mtc0 r6, c12; j 0x1fc00040; sll r0, r0, 0
-- run 16, cause 0, receive 0:0x41, cause $3, run 3, cause $3, pc 0xbfc00040

$ The clock's period ends with tick 32, in step 31, in which a byte arrives too; the loop is in its delay slot, as in each odd
# step. After the load of C the clock's line is down, and after that of RBUF the board's.
.clock 0 0 0 0 0 0 1 1 1 0 0x21 0x42; lui r7, 0xbfe8; j 0x1fc00030; sll r0, r0, 0
.org 0x1fc00180; mfc0 r8, c13; lw r9, 48(r7); mfc0 r10, c13; lw r11, 8(r1); mfc0 r12, c13
-- run 31, cause 0, receive 0:0x41, pc 0xbfc00180, epc 0xbfc00030, run 5, landed 8 0x80000c00 0xc0 0x80000400 0x8041 0x80000000

$ An interrupt in place of a store to TDR, in step 13: nothing is sent. The handler takes the byte and returns, and the store
# is run in step 19; r4 ends in 0x00.
addiu r5, r0, 1; sw r5, 16(r1); sw r4, 24(r1); .org 0x1fc00180; lw r7, 8(r1); mfc0 r27, c14; sll r0, r0, 0; jr r27; rfe
-- run 13, receive 0:0x41, sent none, epc 0xbfc00034, sends 5*none, landed 7 0x8041, sends 0:0

$ An interrupt with a load of word 5 pending: it lands, and the instruction after it does not run
lui r8, 0xa000; lw r7, 256(r8); addiu r7, r0, 9; .org 0x100; .word 5
-- run 13, load 7 5, receive 0:0x41, load none, register 7 5, epc 0xbfc00034

$ A fetch that would be misaligned or where no memory would be, in step 15, after jr and its delay slot: in the step in which a byte
# arrives, and in one without.
| 2 | 0xbfe00002 | 0x10
| 0 | 0xbfe00000 | 0x18
/ run 15, receive 0:0x41, taken 0xbfc00180 $2 0x400, badvaddr 0
/ run 16, taken 0xbfc00180 $2 $3
lui r8, 0xbfe0; ori r8, r8, $1; jr r8; sll r0, r0, 0
-- %1

$ An instruction that would be an exception, in the step in which a byte arrives: the interrupt is taken in its place, with its address,
# and nothing of the exception is seen. In a step without a byte the exception has its own Cause.
| syscall 0 | 0x20
| break 0 | 0x24
| .word 0xffffffff | 0x28
| .word 0x44000000 | 0x1000002c
| lw r7, 10(r1) | 0x10
| sw r4, 25(r1) | 0x14
| lw r7, 4096(r0) | 0x08
| sw r4, 4096(r0) | 0x0c
| lw r7, 32(r1) | 0x1c
| add r7, r1, r2 | 0x30
/ run 11, receive 0:0x41, touched none none, taken 0xbfc00180 0xbfc0002c 0x400, badvaddr 0
/ run 12, cause $2
$1
-- %1
";
