//! More bytes than the silo holds, and the serial part through each segment: values by hand from the specifications of the serial
//! part and of the processor.
use crate::machine::plays;
use std::test::Fail;

#[test]
fn silo(rt: HostRuntime) -> Result<(), Fail> {
    plays(&rt, LISTS)
}

const LISTS: &str = "
$ Start: the receivers of lines 0 to 2, and the scanner, in 9 steps
lui r1, 0xbfe0; addiu r4, r0, 0x1000; sw r4, 8(r1); addiu r4, r0, 0x1001; sw r4, 8(r1); addiu r4, r0, 0x1002; sw r4, 8(r1)
addiu r5, r0, 0x20; sw r5, 0(r1)

$ 70 bytes in one step: the silo keeps the first 64, and loses three of line 0 and three of line 1. Then the next byte that is
# kept of each of these lines has OERR, once; a byte of line 2 has none. All steps from then on run lw r5, 8(r1), so that each
# makes room for a byte of the next: of the first two that come then the first has room, and the second has not.
81*lw r5, 8(r1)
-- run 9, receive 0:0x30 62*0:0x41 0:0x31 3*0:0x41 3*1:0x41, landed 5 0x8030, receive 2:0x41 0:0x41, landed 5 0x8041
receive 0:0x33, landed 5 0x8041, receive 1:0x34, landed 5 0x8041, receive 1:0x35, landed 5 0x8041, receive 0:0x36, landed 5 0x8041
gives 5 57*0x8041 0x8031 0x8241 0xc033 0xc134 0x8135 0x8036 0 0

$ Framing errors before MSE is set, in step 8 and before, and of line 3, whose receiver is off, are no characters. One of line 2 is
81*lw r5, 8(r1)
-- receive f0:0x41, run 7, receive f0:0x41, receive f3:0x41, landed 5 0, receive f3:0x41 f2:0x41, landed 5 0xa241, gives 5 0

$ The silo is full, and a framing error of line 0 is lost. A load then makes room. The next byte of the line that arrives, with a
# framing error or without, is read by one load of each kind, when the others are out: it has OERR, and FERR for its own error
# alone.
| f0:0xc1 | lw r6, 8(r1) | 0xe0c1
| f0:0xc1 | lh r6, 8(r1) | 0xffffe0c1
| f0:0xc1 | lhu r6, 8(r1) | 0xe0c1
| f0:0xc1 | lb r6, 8(r1) | 0xffffffc1
| f0:0xc1 | lbu r6, 8(r1) | 0xc1
| f0:0xc1 | lb r6, 9(r1) | 0xffffffe0
| f0:0xc1 | lbu r6, 9(r1) | 0xe0
| 0:0xc1 | lw r6, 8(r1) | 0xc0c1
| 0:0xc1 | lb r6, 9(r1) | 0xffffffc0
64*lw r5, 8(r1); $2; lw r5, 8(r1)
-- run 9, receive 64*0:0x41 f0:0x41, receive $1, gives 5 62*0x8041, run 1, landed 6 $3, gives 5 0

$ 65 bytes, of which one is lost: once a store leaves MSE 0, the silo and the mark are gone. A store that covers bytes 1 to 3
# alone leaves MSE and the silo.
swr r0, 1(r1); lw r6, 8(r1); sb r0, 0(r1); sb r5, 0(r1); lw r7, 8(r1); lw r8, 8(r1)
-- run 9, receive 65*0:0x41, run 3, receive 0:0x41, run 1, landed 6 0x8041 0x8041 0

$ A load of RBUF into r0 takes a byte, and a misaligned one takes none: it is AdEL
lw r0, 8(r1); lw r6, 10(r1); .org 0x1fc00180; lw r7, 8(r1); lw r8, 8(r1)
-- run 9, receive 0:0x41 0:0x42, run 1, cause 0x10, badvaddr 0xbfe0000a, run 2, landed 7 0x8042 0

$ Start: entries for the page of the serial part, in 36 steps: 0x2000, cacheable; 0x3000, uncached by N; 0xc0000000, cacheable; and 0x4000
# without D. Then, in 6 more, their addresses in r6 to r9, IsC in r10, and the page in kseg0 in r11.
entry 0 | 0 | 0x2000 | 0x1fe0 | 0x0700
entry 0x100 | 0 | 0x3000 | 0x1fe0 | 0x0f00
entry 0x200 | 0xc000 | 0 | 0x1fe0 | 0x0700
entry 0x300 | 0 | 0x4000 | 0x1fe0 | 0x0300
ori r6, r0, 0x2000; ori r7, r0, 0x3000; lui r8, 0xc000; ori r9, r0, 0x4000; lui r10, 0x0041; lui r11, 0x9fe0

$ Loads through each of the first three and through kseg0, and with IsC again but for the third: what is cacheable goes to its slot,
# which is empty, and takes no byte.
addiu r5, r0, 0x1000; sw r5, 8(r7); addiu r5, r0, 0x20; sw r5, 0(r7); lw r12, 8(r6); lbu r13, 8(r7); lhu r14, 8(r8); lhu r15, 8(r11)
mtc0 r10, c12; lw r16, 8(r6); lw r17, 8(r11); lw r18, 8(r7)
-- run 46, receive 0:0x41 0:0x42 0:0x43 0:0x44 0:0x45, run 6, touched 16 none
run 1, landed 12 0x8041 0x42 0x8043 0x8044 0 0 0x8045

$ Line 1 may send. A store to TDR sends through 0x2000, 0x3000, 0xc0000000 and kseg0, each time as the byte time of 1 is over;
# with IsC only the uncached one does, and through the entry without D it is Mod and sends nothing.
.bytetime 1; addiu r5, r0, 2; sw r5, 16(r7); addiu r5, r0, 0x20; sw r5, 0(r7); sw r6, 24(r6); sw r7, 24(r7); sb r8, 24(r8)
sh r11, 24(r11); mtc0 r10, c12; sw r6, 24(r6); sw r11, 24(r11); sb r5, 24(r7); sw r5, 24(r9)
-- run 46, sends 1:0 1:0 1:0 1:0 none none none 1:0x20 none, cause 4, badvaddr 0x4018
";
