//! Words and texts of an independent assembler and disassembler.

/// The words from 0x1FC00000 on that GNU as makes of each instruction, with operands at the bounds of their fields and
/// between them, and their texts as GNU objdump prints them, spelled as in source: a line for each, its word in hexadecimal
/// digits and its text. `bench/vectors` wrote this file.
pub const VECTORS: &str = "\
001f0040 sll r0, r31, 1
0001fc00 sll r31, r1, 16
00100d40 sll r1, r16, 21
001d8240 sll r16, r29, 9
0006e800 sll r29, r6, 0
000037c0 sll r6, r0, 31
001f0042 srl r0, r31, 1
0001fc02 srl r31, r1, 16
00100d42 srl r1, r16, 21
001d8242 srl r16, r29, 9
0006e802 srl r29, r6, 0
000037c2 srl r6, r0, 31
001f0043 sra r0, r31, 1
0001fc03 sra r31, r1, 16
00100d43 sra r1, r16, 21
001d8243 sra r16, r29, 9
0006e803 sra r29, r6, 0
000037c3 sra r6, r0, 31
003f0004 sllv r0, r31, r1
0201f804 sllv r31, r1, r16
03b00804 sllv r1, r16, r29
00dd8004 sllv r16, r29, r6
0006e804 sllv r29, r6, r0
03e03004 sllv r6, r0, r31
003f0006 srlv r0, r31, r1
0201f806 srlv r31, r1, r16
03b00806 srlv r1, r16, r29
00dd8006 srlv r16, r29, r6
0006e806 srlv r29, r6, r0
03e03006 srlv r6, r0, r31
003f0007 srav r0, r31, r1
0201f807 srav r31, r1, r16
03b00807 srav r1, r16, r29
00dd8007 srav r16, r29, r6
0006e807 srav r29, r6, r0
03e03007 srav r6, r0, r31
00000008 jr r0
03e00008 jr r31
00200008 jr r1
02000008 jr r16
03a00008 jr r29
00c00008 jr r6
00000011 mthi r0
03e00011 mthi r31
00200011 mthi r1
02000011 mthi r16
03a00011 mthi r29
00c00011 mthi r6
00000013 mtlo r0
03e00013 mtlo r31
00200013 mtlo r1
02000013 mtlo r16
03a00013 mtlo r29
00c00013 mtlo r6
00000010 mfhi r0
0000f810 mfhi r31
00000810 mfhi r1
00008010 mfhi r16
0000e810 mfhi r29
00003010 mfhi r6
00000012 mflo r0
0000f812 mflo r31
00000812 mflo r1
00008012 mflo r16
0000e812 mflo r29
00003012 mflo r6
03e00009 jalr r0, r31
0020f809 jalr r31, r1
02000809 jalr r1, r16
03a08009 jalr r16, r29
00c0e809 jalr r29, r6
00003009 jalr r6, r0
001f0018 mult r0, r31
03e10018 mult r31, r1
00300018 mult r1, r16
021d0018 mult r16, r29
03a60018 mult r29, r6
00c00018 mult r6, r0
001f0019 multu r0, r31
03e10019 multu r31, r1
00300019 multu r1, r16
021d0019 multu r16, r29
03a60019 multu r29, r6
00c00019 multu r6, r0
001f001a div r0, r31
03e1001a div r31, r1
0030001a div r1, r16
021d001a div r16, r29
03a6001a div r29, r6
00c0001a div r6, r0
001f001b divu r0, r31
03e1001b divu r31, r1
0030001b divu r1, r16
021d001b divu r16, r29
03a6001b divu r29, r6
00c0001b divu r6, r0
0000000c syscall 0
03ffffcc syscall 1048575
0000004c syscall 1
0200000c syscall 524288
0169694c syscall 370085
02970f0c syscall 678972
0000000d break 0
03ffffcd break 1048575
0000004d break 1
0200000d break 524288
0169694d break 370085
02970f0d break 678972
03e10020 add r0, r31, r1
0030f820 add r31, r1, r16
021d0820 add r1, r16, r29
03a68020 add r16, r29, r6
00c0e820 add r29, r6, r0
001f3020 add r6, r0, r31
03e10021 addu r0, r31, r1
0030f821 addu r31, r1, r16
021d0821 addu r1, r16, r29
03a68021 addu r16, r29, r6
00c0e821 addu r29, r6, r0
001f3021 addu r6, r0, r31
03e10022 sub r0, r31, r1
0030f822 sub r31, r1, r16
021d0822 sub r1, r16, r29
03a68022 sub r16, r29, r6
00c0e822 sub r29, r6, r0
03df3022 sub r6, r30, r31
03e10023 subu r0, r31, r1
0030f823 subu r31, r1, r16
021d0823 subu r1, r16, r29
03a68023 subu r16, r29, r6
00c0e823 subu r29, r6, r0
03df3023 subu r6, r30, r31
03e10024 and r0, r31, r1
0030f824 and r31, r1, r16
021d0824 and r1, r16, r29
03a68024 and r16, r29, r6
00c0e824 and r29, r6, r0
001f3024 and r6, r0, r31
03e10025 or r0, r31, r1
0030f825 or r31, r1, r16
021d0825 or r1, r16, r29
03a68025 or r16, r29, r6
00c0e825 or r29, r6, r0
001f3025 or r6, r0, r31
03e10026 xor r0, r31, r1
0030f826 xor r31, r1, r16
021d0826 xor r1, r16, r29
03a68026 xor r16, r29, r6
00c0e826 xor r29, r6, r0
001f3026 xor r6, r0, r31
03e10027 nor r0, r31, r1
0030f827 nor r31, r1, r16
021d0827 nor r1, r16, r29
03a68027 nor r16, r29, r6
00c0e827 nor r29, r6, r0
001f3027 nor r6, r0, r31
03e1002a slt r0, r31, r1
0030f82a slt r31, r1, r16
021d082a slt r1, r16, r29
03a6802a slt r16, r29, r6
00c0e82a slt r29, r6, r0
001f302a slt r6, r0, r31
03e1002b sltu r0, r31, r1
0030f82b sltu r31, r1, r16
021d082b sltu r1, r16, r29
03a6802b sltu r16, r29, r6
00c0e82b sltu r29, r6, r0
001f302b sltu r6, r0, r31
04008000 bltz r0, 0x1fbe02a4
07e07fff bltz r31, 0x1fc202a4
0420ffff bltz r1, 0x1fc002a8
06000001 bltz r16, 0x1fc002b4
07a08005 bltz r29, 0x1fbe02c8
04c00000 bltz r6, 0x1fc002b8
04018000 bgez r0, 0x1fbe02bc
07e17fff bgez r31, 0x1fc202bc
0421ffff bgez r1, 0x1fc002c0
06010001 bgez r16, 0x1fc002cc
07a18005 bgez r29, 0x1fbe02e0
04c10000 bgez r6, 0x1fc002d0
04108000 bltzal r0, 0x1fbe02d4
07d07fff bltzal r30, 0x1fc202d4
0430ffff bltzal r1, 0x1fc002d8
06100001 bltzal r16, 0x1fc002e4
07b08005 bltzal r29, 0x1fbe02f8
04d00000 bltzal r6, 0x1fc002e8
04118000 bgezal r0, 0x1fbe02ec
07d17fff bgezal r30, 0x1fc202ec
0431ffff bgezal r1, 0x1fc002f0
06110001 bgezal r16, 0x1fc002fc
07b18005 bgezal r29, 0x1fbe0310
04d10000 bgezal r6, 0x1fc00300
18008000 blez r0, 0x1fbe0304
1be07fff blez r31, 0x1fc20304
1820ffff blez r1, 0x1fc00308
1a000001 blez r16, 0x1fc00314
1ba08005 blez r29, 0x1fbe0328
18c00000 blez r6, 0x1fc00318
1c008000 bgtz r0, 0x1fbe031c
1fe07fff bgtz r31, 0x1fc2031c
1c20ffff bgtz r1, 0x1fc00320
1e000001 bgtz r16, 0x1fc0032c
1fa08005 bgtz r29, 0x1fbe0340
1cc00000 bgtz r6, 0x1fc00330
08000000 j 0x10000000
0bffffff j 0x1ffffffc
08000001 j 0x10000004
0a000000 j 0x18000000
0aa51234 j 0x1a9448d0
0955edcb j 0x1557b72c
0c000000 jal 0x10000000
0fffffff jal 0x1ffffffc
0c000001 jal 0x10000004
0e000000 jal 0x18000000
0ea51234 jal 0x1a9448d0
0d55edcb jal 0x1557b72c
101f7fff beq r0, r31, 0x1fc20360
13e1ffff beq r31, r1, 0x1fc00364
10300001 beq r1, r16, 0x1fc00370
121d8005 beq r16, r29, 0x1fbe0384
13a60000 beq r29, r6, 0x1fc00374
10c08000 beq r6, r0, 0x1fbe0378
141f7fff bne r0, r31, 0x1fc20378
17e1ffff bne r31, r1, 0x1fc0037c
14300001 bne r1, r16, 0x1fc00388
161d8005 bne r16, r29, 0x1fbe039c
17a60000 bne r29, r6, 0x1fc0038c
14c08000 bne r6, r0, 0x1fbe0390
23e07fff addi r0, r31, 32767
203fffff addi r31, r1, -1
22010001 addi r1, r16, 1
23b08005 addi r16, r29, -32763
20dd0000 addi r29, r6, 0
20068000 addi r6, r0, -32768
27e07fff addiu r0, r31, 32767
243fffff addiu r31, r1, -1
26010001 addiu r1, r16, 1
27b08005 addiu r16, r29, -32763
24dd0000 addiu r29, r6, 0
24068000 addiu r6, r0, -32768
2be07fff slti r0, r31, 32767
283fffff slti r31, r1, -1
2a010001 slti r1, r16, 1
2bb08005 slti r16, r29, -32763
28dd0000 slti r29, r6, 0
28068000 slti r6, r0, -32768
2fe07fff sltiu r0, r31, 32767
2c3fffff sltiu r31, r1, -1
2e010001 sltiu r1, r16, 1
2fb08005 sltiu r16, r29, -32763
2cdd0000 sltiu r29, r6, 0
2c068000 sltiu r6, r0, -32768
33e08000 andi r0, r31, 0x8000
303f0001 andi r31, r1, 0x0001
32017fff andi r1, r16, 0x7fff
33b08005 andi r16, r29, 0x8005
30dd0000 andi r29, r6, 0x0000
3006ffff andi r6, r0, 0xffff
37e08000 ori r0, r31, 0x8000
343f0001 ori r31, r1, 0x0001
36017fff ori r1, r16, 0x7fff
37b08005 ori r16, r29, 0x8005
34dd0000 ori r29, r6, 0x0000
3406ffff ori r6, r0, 0xffff
3be08000 xori r0, r31, 0x8000
383f0001 xori r31, r1, 0x0001
3a017fff xori r1, r16, 0x7fff
3bb08005 xori r16, r29, 0x8005
38dd0000 xori r29, r6, 0x0000
3806ffff xori r6, r0, 0xffff
3c00ffff lui r0, 0xffff
3c1f8000 lui r31, 0x8000
3c010001 lui r1, 0x0001
3c107fff lui r16, 0x7fff
3c1d8005 lui r29, 0x8005
3c060000 lui r6, 0x0000
4000f800 mfc0 r0, c31
401f0800 mfc0 r31, c1
40018000 mfc0 r1, c16
4010e800 mfc0 r16, c29
401d3000 mfc0 r29, c6
40060000 mfc0 r6, c0
4080f800 mtc0 r0, c31
409f0800 mtc0 r31, c1
40818000 mtc0 r1, c16
4090e800 mtc0 r16, c29
409d3000 mtc0 r29, c6
40860000 mtc0 r6, c0
42000001 tlbr
42000002 tlbwi
42000006 tlbwr
42000008 tlbp
42000010 rfe
80208000 lb r0, -32768(r1)
821f7fff lb r31, 32767(r16)
83a1ffff lb r1, -1(r29)
80d00001 lb r16, 1(r6)
801d8005 lb r29, -32763(r0)
83e60000 lb r6, 0(r31)
84208000 lh r0, -32768(r1)
861f7fff lh r31, 32767(r16)
87a1ffff lh r1, -1(r29)
84d00001 lh r16, 1(r6)
841d8005 lh r29, -32763(r0)
87e60000 lh r6, 0(r31)
88208000 lwl r0, -32768(r1)
8a1f7fff lwl r31, 32767(r16)
8ba1ffff lwl r1, -1(r29)
88d00001 lwl r16, 1(r6)
881d8005 lwl r29, -32763(r0)
8be60000 lwl r6, 0(r31)
8c208000 lw r0, -32768(r1)
8e1f7fff lw r31, 32767(r16)
8fa1ffff lw r1, -1(r29)
8cd00001 lw r16, 1(r6)
8c1d8005 lw r29, -32763(r0)
8fe60000 lw r6, 0(r31)
90208000 lbu r0, -32768(r1)
921f7fff lbu r31, 32767(r16)
93a1ffff lbu r1, -1(r29)
90d00001 lbu r16, 1(r6)
901d8005 lbu r29, -32763(r0)
93e60000 lbu r6, 0(r31)
94208000 lhu r0, -32768(r1)
961f7fff lhu r31, 32767(r16)
97a1ffff lhu r1, -1(r29)
94d00001 lhu r16, 1(r6)
941d8005 lhu r29, -32763(r0)
97e60000 lhu r6, 0(r31)
98208000 lwr r0, -32768(r1)
9a1f7fff lwr r31, 32767(r16)
9ba1ffff lwr r1, -1(r29)
98d00001 lwr r16, 1(r6)
981d8005 lwr r29, -32763(r0)
9be60000 lwr r6, 0(r31)
a0208000 sb r0, -32768(r1)
a21f7fff sb r31, 32767(r16)
a3a1ffff sb r1, -1(r29)
a0d00001 sb r16, 1(r6)
a01d8005 sb r29, -32763(r0)
a3e60000 sb r6, 0(r31)
a4208000 sh r0, -32768(r1)
a61f7fff sh r31, 32767(r16)
a7a1ffff sh r1, -1(r29)
a4d00001 sh r16, 1(r6)
a41d8005 sh r29, -32763(r0)
a7e60000 sh r6, 0(r31)
a8208000 swl r0, -32768(r1)
aa1f7fff swl r31, 32767(r16)
aba1ffff swl r1, -1(r29)
a8d00001 swl r16, 1(r6)
a81d8005 swl r29, -32763(r0)
abe60000 swl r6, 0(r31)
ac208000 sw r0, -32768(r1)
ae1f7fff sw r31, 32767(r16)
afa1ffff sw r1, -1(r29)
acd00001 sw r16, 1(r6)
ac1d8005 sw r29, -32763(r0)
afe60000 sw r6, 0(r31)
b8208000 swr r0, -32768(r1)
ba1f7fff swr r31, 32767(r16)
bba1ffff swr r1, -1(r29)
b8d00001 swr r16, 1(r6)
b81d8005 swr r29, -32763(r0)
bbe60000 swr r6, 0(r31)
";
