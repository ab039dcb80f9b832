//! The registers of the serial part, of the board and of the clock, written by stores of each width at each byte: values by
//! hand from the specifications of the parts.
use crate::machine::plays;
use std::test::Fail;

#[test]
fn register_stores(rt: HostRuntime) -> Result<(), Fail> {
    plays(&rt, LISTS)
}

const LISTS: &str = "
$ What each store of r3, 0x41424344, brings to byte 0 and to byte 2 of the word at r1. swl brings the top bytes of r3 to byte 0 and on, up
# to the byte that it names; swr brings the low bytes to that byte and on.
# To TDR: line 3 may send and has TRDY, 0x8320. A store that covers byte 0 sends it and takes TRDY for 16 ticks, another does nothing.
# To TCR, which has line 3 before, and afterwards the low four bits of what came to byte 0.
# To a register of the clock's RAM, which is 0x11 before, and afterwards what came to byte 0.
# To the board's enables, which are 0x11 before, and afterwards what came to byte 2. Its other bytes stay 0.
# To CSR, which has MSE alone before, of r3 as 0x28604068: its bytes have, from the lowest, RIE, MSE and MAINT; RIE, or TIE in byte 1;
# RIE and MSE, or TIE in byte 1; MSE and MAINT.
# To LPR, with the receivers of lines 0 and 1 on, of r3 as 0x01041002. LPR needs byte 0: its low two bits are the line, and the
# receiver is bit 4 of byte 1, which counts as 0 where it is not covered. As a whole it is line 2 on, and by swl line 1 off, line 0
# off (bit 2 of 0x04 is no part of the line) and line 0 off. Then a byte of each line arrives.
| sw r3, 0(r1) | 3:0x44 | 0x0320 | 4 | 0x44 | 0x00420000 | 0x4068 | 0x8041 0x8142 0x8243
| sh r3, 0(r1) | 3:0x44 | 0x0320 | 4 | 0x44 | 0x00110000 | 0x4068 | 0x8041 0x8142 0x8243
| sh r3, 2(r1) | none | 0x8320 | 8 | 0x11 | 0x00440000 | 0x0020 | 0x8041 0x8142 0
| sb r3, 0(r1) | 3:0x44 | 0x0320 | 4 | 0x44 | 0x00110000 | 0x0068 | 0x8041 0x8142 0
| sb r3, 1(r1) | none | 0x8320 | 8 | 0x11 | 0x00110000 | 0x4020 | 0x8041 0x8142 0
| sb r3, 2(r1) | none | 0x8320 | 8 | 0x11 | 0x00440000 | 0x0020 | 0x8041 0x8142 0
| sb r3, 3(r1) | none | 0x8320 | 8 | 0x11 | 0x00110000 | 0x0020 | 0x8041 0x8142 0
| swl r3, 0(r1) | 3:0x41 | 0x0320 | 1 | 0x41 | 0x00110000 | 0x0028 | 0x8041 0 0
| swl r3, 1(r1) | 3:0x42 | 0x0320 | 2 | 0x42 | 0x00110000 | 0x0060 | 0x8142 0 0
| swl r3, 2(r1) | 3:0x43 | 0x0320 | 3 | 0x43 | 0x00410000 | 0x4040 | 0x8142 0 0
| swl r3, 3(r1) | 3:0x44 | 0x0320 | 4 | 0x44 | 0x00420000 | 0x4068 | 0x8041 0x8142 0x8243
| swr r3, 0(r1) | 3:0x44 | 0x0320 | 4 | 0x44 | 0x00420000 | 0x4068 | 0x8041 0x8142 0x8243
| swr r3, 1(r1) | none | 0x8320 | 8 | 0x11 | 0x00430000 | 0x4020 | 0x8041 0x8142 0
| swr r3, 2(r1) | none | 0x8320 | 8 | 0x11 | 0x00440000 | 0x0020 | 0x8041 0x8142 0
| swr r3, 3(r1) | none | 0x8320 | 8 | 0x11 | 0x00110000 | 0x0020 | 0x8041 0x8142 0
/ addiu r2, r0, 8; sw r2, 16(r4); addiu r1, r4, 24 | 0(r4) | run 13, sent $2, run 1, landed 5 $3
/ addiu r2, r0, 8; addiu r1, r4, 16; sw r2, 0(r1) | 0(r1) | run 14, landed 5 $4
/ lui r1, 0xbfe8; addiu r1, r1, 56; addiu r2, r0, 0x11; sw r2, 0(r1) | 0(r1) | run 15, landed 5 $5
/ lui r1, 0xbff0; lui r2, 0x0011; sw r2, 0(r1) | 0(r1) | run 14, landed 5 $6
/ lui r3, 0x2860; ori r3, r3, 0x4068; addu r1, r4, r0 | 0(r1) | run 14, landed 5 $7
/ lui r3, 0x0104; ori r3, r3, 0x1002; addiu r1, r4, 8 | 0(r1) | run 13, receive 0:0x41 1:0x42 2:0x43 3:0x44, run 2, landed 5 $8
lui r4, 0xbfe0; addiu r2, r0, 0x1000; sw r2, 8(r4); addiu r2, r0, 0x1001; sw r2, 8(r4); addiu r2, r0, 0x20; sw r2, 0(r4)
lui r3, 0x4142; ori r3, r3, 0x4344; %1; $1; lw r5, %2; lw r6, %2; lw r7, %2
-- %3

$ Bytes of line parameters, with the same receivers on. r2 is 0x1001 and r4 0x10: byte 0 alone turns its line off, and another byte does
# nothing.
| sb r2, 0(r1) | 0x8041 0 0
| sb r0, 0(r1) | 0x8142 0 0
| sb r0, 1(r1) | 0x8041 0x8142 0
| sb r4, 2(r1) | 0x8041 0x8142 0
| sb r4, 3(r1) | 0x8041 0x8142 0
lui r1, 0xbfe0; addiu r2, r0, 0x20; sw r2, 0(r1); addiu r2, r0, 0x1000; sw r2, 8(r1); addiu r2, r0, 0x1001; sw r2, 8(r1)
addiu r4, r0, 0x10; addiu r1, r1, 8; $1; lw r8, 0(r1); lw r9, 0(r1); lw r10, 0(r1)
-- run 10, receive 0:0x41 1:0x42 2:0x43 3:0x44, run 2, landed 8 $2

$ Line 0 may send, and CSR has TIE, RIE, MSE and MAINT, so that it reads 0xc068 with TRDY. CLR in byte 0 returns all to reset,
# whatever else is written; 0x10 in another byte is no CLR, and in byte 1 clears TIE. All bits but CLR leave what is read
# only.
| sll r0, r0, 0 | 0xc068 | 1
| sb r5, 0(r1) | 0 | 0
| sh r4, 0(r1) | 0 | 0
| sw r4, 0(r1) | 0 | 0
| swl r3, 0(r1) | 0 | 0
| sb r5, 1(r1) | 0x8068 | 1
| swr r5, 1(r1) | 0x8068 | 1
| sb r5, 2(r1) | 0xc068 | 1
| sb r5, 3(r1) | 0xc068 | 1
| sw r6, 0(r1) | 0xc068 | 1
lui r1, 0xbfe0; addiu r2, r0, 1; sw r2, 16(r1); addiu r2, r0, 0x4068; sw r2, 0(r1); lui r3, 0x1000; ori r4, r0, 0xfff8
addiu r5, r0, 0x10; addiu r6, r0, -17; $1; lw r8, 0(r1); lw r9, 16(r1)
-- run 12, landed 8 $2 $3

$ 0xff to every register of the clock up to the first byte of RAM. Time and alarms keep it; A has no UIP, with DV 7; B has no
# DSE and, as SET goes up, no UIE, which a second store sets; C and D take nothing.
lui r1, 0xbfe8; addiu r2, r0, 0xff; sb r2, 0(r1); sb r2, 4(r1); sb r2, 8(r1); sb r2, 12(r1); sb r2, 16(r1); sb r2, 20(r1)
sb r2, 24(r1); sb r2, 28(r1); sb r2, 32(r1); sb r2, 36(r1); sb r2, 40(r1); sb r2, 44(r1); sb r2, 48(r1); sb r2, 52(r1)
sb r2, 56(r1); lw r8, 0(r1); lw r9, 4(r1); lw r10, 8(r1); lw r11, 12(r1); lw r12, 16(r1); lw r13, 20(r1); lw r14, 24(r1)
lw r15, 28(r1); lw r16, 32(r1); lw r17, 36(r1); lw r18, 40(r1); lw r19, 44(r1); lw r20, 48(r1); lw r21, 52(r1); lw r22, 56(r1)
sb r2, 44(r1); lw r23, 44(r1)
-- run 34, landed 8 10*0xff, landed 18 0x7f 0xee 0 0x80 0xff 0xfe
";
