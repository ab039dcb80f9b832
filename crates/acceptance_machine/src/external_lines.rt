//! External lines of the board, step by step, and their interrupts: values by hand from the specifications of the board and of the
//! processor.
use crate::machine::plays;
use std::test::Fail;

#[test]
fn external_lines(rt: HostRuntime) -> Result<(), Fail> {
    plays(&rt, LISTS)
}

const LISTS: &str = "
$ Of the levels that one step gives a line the last stands: what was between is seen neither in CSR nor in Cause. A store of the word or
# of byte 0 leaves the levels.
| w0:1 w0:0 w0:0 | 0x00070000 | 0
| w0:1 w0:0 w0:1 | 0x00070001 | 0x400
| w0:0 w0:1 w0:1 | 0x00070001 | 0x400
| w0:1 0:0x41 w0:0 | 0x00070000 | 0
| w1:1 w0:1 w0:0 | 0x00070002 | 0x400
| w0:1 w1:1 w2:1 | 0x00070007 | 0x400
lui r2, 0xbff0; lui r3, 7; ori r3, r3, 0xfff8; sw r3, 0(r2); lw r4, 0(r2); sb r3, 0(r2); lw r5, 0(r2)
-- run 4, receive $1, cause $3, run 1, cause $3, run 1, landed 4 $2 $2

$ The clock's period ends with tick 32, in step 31. Line 0 rises in the step before it, in that step and in the one after it;
# the loop is in its delay slot in each odd step. Status has the mask of the board's line alone.
| 30 | 0 | 0x400
| 31 | 0 | 0x80000c00
| 32 | 0x800 | 0xc00
.clock 0 0 0 0 0 0 1 1 1 0 0x21 0x42; lui r2, 0xbff0; lui r3, 1; sw r3, 0(r2); lui r6, 64; ori r6, r6, 0x0401; mtc0 r6, c12
j 0x1fc00018; sll r0, r0, 0
-- run $1, cause $2, receive w0:1, touched none none, taken 0xbfc00180 0xbfc00018 $3, status 0x00400404, delay 0

$ Start: line 1 is enabled, and Status has the mask of the board's line and IEc. From step 7 on the loop is in its delay slot in each
# even step.
lui r2, 0xbff0; lui r1, 0xa000; lui r3, 2; sw r3, 0(r2); lui r6, 64; ori r6, r6, 0x0401; mtc0 r6, c12; j 0x1fc0001c; sll r0, r0, 0

$ A handler that disables the line: steps 21 to 28 note CSR and take the enable away, so that the level interrupts once
.org 0x1fc00180; lw r8, 0(r2); addiu r9, r9, 1; sw r8, 0x100(r1); sw r0, 0(r2); mfc0 r27, c14; sll r0, r0, 0; jr r27; rfe
-- run 20, receive w1:1, taken 0xbfc00180 0xbfc0001c 0x80000400, run 8, pc 0xbfc0001c, cause 0x80000000
receive w1:0, receive w1:1, run 30, ram 0x100 0x00020002, register 9 1

$ A handler that waits until the line falls takes 5 steps and leaves the level: it is entered in steps 20, 26, 32 and 38, and from step 40
# on, in which the line falls, no more.
.org 0x1fc00180; addiu r9, r9, 1; mfc0 r27, c14; sll r0, r0, 0; jr r27; rfe
-- run 20, receive w1:1, epc 0xbfc0001c, run 5, pc 0xbfc0001c, run 1, pc 0xbfc00180
run 13, receive w1:0, run 3, pc 0xbfc0001c, run 20, pc 0xbfc0001c, register 9 4
";
