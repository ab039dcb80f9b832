//! Translation step by step: values by hand from the manual's rules.
use crate::machine::plays;
use std::test::Fail;

#[test]
fn translation(rt: HostRuntime) -> Result<(), Fail> {
    plays(&rt, LISTS)
}

const LISTS: &str = "
$ At reset all entries match page 0 and none is valid: it is TLBL or TLBS at the general handler, and TS is set
| lw | 8
| sw | 12
$1 r2, 0(r0)
-- run 1, touched 16 none, taken 0xbfc00180 0xbfc00000 $2, unmapped 0, status 0x00600000

$ An instruction whose own fetch met several entries reads TS: page 0 is made valid in entry 0, and has mfc0 r2, c12
entry 0 | 0 | 0 | 0 | 0x1200
lui r4, 0xa000; lui r5, 0x4002; ori r5, r5, 0x6000; sw r5, 0x1000(r4); jr r0; sll r0, r0, 0
-- run 15, pc 0, status 0x00400000, run 1, touched 1 none, load 2 0x00600000

$ A store to a page that is not dirty; its handler sets D in the entry, and the store is made again. The entry takes 9 steps
entry 0x200 | 0 | 0x3000 | 0 | 0x2200
ori r10, r0, 0x1234; sw r10, 0x3008(r0)
.org 0x1fc00180; tlbp; tlbr; mfc0 r26, c2; sll r0, r0, 0; ori r26, r26, 0x400; mtc0 r26, c2; tlbwi; mfc0 r26, c14
sll r0, r0, 0; jr r26; rfe
-- run 11, taken 0xbfc00180 0xbfc00028 4, unmapped 0x3008, run 11, pc 0xbfc00028, hi 2 0x3000, lo 2 0x2600
run 1, stored 0x2008, ram 0x2008 0x1234

$ tlbwr in step 4 and in step 58: Random is 63 - 4, and, as step 56 begins with 63 again, 63 - 2. tlbr reads what was written; Index
# takes bits 13 to 8 alone, so that the last one reads entry 0.
ori r1, r0, 0x6fc0; mtc0 r1, c10; ori r2, r0, 0x7f00; mtc0 r2, c2; tlbwr
.org 0x1fc000e8; tlbwr; ori r3, r0, 63; mtc0 r3, c0; tlbr
-- run 5, hi 59 0x6fc0, lo 59 0x7f00, hi 61 0, lo 61 0
run 54, hi 61 0x6fc0, lo 61 0x7f00, hi 60 0, lo 60 0, entrylo 0x7f00, run 3, entryhi 0, entrylo 0

$ Page 2 of process 1 is physical page 1, of process 2 page 2; page 3 is of all. lw through both, and with another process
entry 0x100 | 0 | 0x2040 | 0 | 0x1200
entry 0x200 | 0 | 0x2080 | 0 | 0x2200
entry 0x300 | 0 | 0x3040 | 0 | 0x3300
lw r10, 0x3000(r0); ori r1, r0, 0x80; mtc0 r1, c10; lw r10, 0x2000(r0); ori r1, r0, 0x40; mtc0 r1, c10; lw r10, 0x2000(r0)
lw r10, 0x3000(r0); ori r1, r0, 0xc0; mtc0 r1, c10; lw r10, 0x3000(r0); lw r10, 0x2000(r0)
-- run 28, touched 16 3, run 3, touched 16 2, run 3, touched 16 1, run 1, touched 16 3, run 3, touched 16 3
run 1, touched 16 none, pc 0xbfc00100, entryhi 0x20c0

$ Where addresses lead through entries, in kernel mode and then in user mode, at 0x2000
entry 0x100 | 0 | 0x2000 | 0 | 0x1200
entry 0x200 | 0 | 0x3000 | 0x1234 | 0x5a00
entry 0x300 | 0xc000 | 0x3000 | 0xffff | 0xf200
ori r8, r0, 8; mtc0 r8, c12; ori r4, r0, 0x2000; jr r4; rfe
-- run 27, where 0x2003 cached 0x1003, where 0x3fff uncached 0x12345fff, where 0xc0003001 cached 0xfffff001
run 5, where 0x2003 cached 0x1003, where 0x80000010 adel, where 0xc0003001 adel, where 0x5000 refill

$ Start, in 36 steps: page 2 is valid and dirty, page 3 valid, page 4 neither but dirty, in kseg2 page 0xc0002 is invalid
entry 0x100 | 0 | 0x2000 | 0 | 0x1600
entry 0x200 | 0 | 0x3000 | 0 | 0x2200
entry 0x300 | 0 | 0x4000 | 0 | 0x3400
entry 0x400 | 0xc000 | 0x2000 | 0 | 0x3400

$ A store and a load through the entry of page 2, to 0x1004 in page 1
ori r10, r0, 0x1234; sw r10, 0x2004(r0); lw r11, 0x2004(r0); sll r0, r0, 0
-- run 38, stored 0x1004, touched 16 1, run 1, touched 16 1, run 1, ram 0x1004 0x1234, register 11 0x1234

$ Probes of page 2, of page 9, and of page 2 once entry 7 is of it too
ori r1, r0, 0x2000; mtc0 r1, c10; tlbp; ori r1, r0, 0x9000; mtc0 r1, c10; tlbp; ori r1, r0, 0x2000; mtc0 r1, c10
ori r3, r0, 0x700; mtc0 r3, c0; tlbwi; tlbp
-- run 39, index 0x100, run 3, index 0x80000000, status 0x00400000, run 6, index 0x100, status 0x00600000

$ Faults of loads and stores: the upper and the lower half of the address, the address, the instruction, Cause but for its delay mark, and
# the handler with BEV 1 and 0, which may be that of user misses. Each stands outside a delay slot and in that of a branch, at 0xBFC000A4,
# after 36 words of entries and 5 more.
| 0 | 0x4000 | 0x4000 | lw | 0x8 | 0xbfc00180 | 0x80000080
| 0 | 0x1000 | 0x1000 | lw | 0x8 | 0xbfc00100 | 0x80000000
| 0 | 0x5003 | 0x5003 | lb | 0x8 | 0xbfc00100 | 0x80000000
| 0x7fff | 0xf001 | 0x7ffff001 | lwl | 0x8 | 0xbfc00100 | 0x80000000
| 0xc000 | 0 | 0xc0000000 | lw | 0x8 | 0xbfc00180 | 0x80000080
| 0xc000 | 0x2000 | 0xc0002000 | lw | 0x8 | 0xbfc00180 | 0x80000080
| 0xffff | 0xf000 | 0xfffff000 | lw | 0x8 | 0xbfc00180 | 0x80000080
| 0 | 0x3000 | 0x3000 | sw | 0x4 | 0xbfc00180 | 0x80000080
| 0 | 0x3003 | 0x3003 | sb | 0x4 | 0xbfc00180 | 0x80000080
| 0 | 0x4002 | 0x4002 | sh | 0xc | 0xbfc00180 | 0x80000080
| 0 | 0x5001 | 0x5001 | swr | 0xc | 0xbfc00100 | 0x80000000
| 0xc000 | 0x3000 | 0xc0003000 | sw | 0xc | 0xbfc00180 | 0x80000080
/ sll r0, r0, 0 | 0xbfc000a4 | 0 | 64 | $6
/ sll r0, r0, 0 | 0xbfc000a4 | 0 | 0 | $7
/ beq r0, r0, 0x1fc000c4 | 0xbfc000a0 | 0x80000000 | 64 | $6
/ beq r0, r0, 0x1fc000c4 | 0xbfc000a0 | 0x80000000 | 0 | $7
lui r8, %4; mtc0 r8, c12; lui r9, $1; ori r9, r9, $2; %1; $4 r10, 0(r9)
-- run 42, touched 16 none, stored none, taken %5 %2 $5+%3, unmapped $3

$ A jump to a page that is invalid, to one without an entry, and to both in kseg2
| 0 | 0x4000 | 0x4000 | 0xbfc00180
| 0 | 0x5000 | 0x5000 | 0xbfc00100
| 0xc000 | 0x2000 | 0xc0002000 | 0xbfc00180
| 0xc000 | 0x3000 | 0xc0003000 | 0xbfc00180
lui r9, $1; ori r9, r9, $2; jr r9
-- run 41, touched none none, taken $4 $3 8, unmapped $3

$ User programs of a word in page 2, with r9 0x80000000: mfc0 r2, c15, tlbwi, a word of opcode 16 without a row, lw r2, 0(r9), sw r2,
# 4(r9), lb r2, 2(r9), syscall, and jr r9, whose target cannot be fetched. Each with its exception's step, the page that this fetched
# from, EPC, Cause and the bad address.
| 0x4002 | 0x7800 | 1 | 1 | 0x2000 | 0x2c | 0
| 0x4200 | 2 | 1 | 1 | 0x2000 | 0x2c | 0
| 0x4200 | 0x11 | 1 | 1 | 0x2000 | 0x2c | 0
| 0x8d22 | 0 | 1 | 1 | 0x2000 | 0x10 | 0x80000000
| 0xad22 | 4 | 1 | 1 | 0x2000 | 0x14 | 0x80000004
| 0x8122 | 2 | 1 | 1 | 0x2000 | 0x10 | 0x80000002
| 0 | 0xc | 1 | 1 | 0x2000 | 0x20 | 0
| 0x120 | 8 | 3 | none | 0x80000000 | 0x10 | 0x80000000
lui r4, 0xa000; lui r5, $1; ori r5, r5, $2; sw r5, 0x1000(r4); ori r8, r0, 8; mtc0 r8, c12; lui r9, 0x8000; ori r4, r0, 0x2000
jr r4; rfe
-- run 46, pc 0x2000, status 2, run $3, touched $4 none, taken 0x80000080 $5 $6, badvaddr $7, status 8
";
