//! Runs of two bytes, or with and without a byte, that differ in one thing where the second span starts. There neither is taken for
//! the other. From the first span on at whose start all is equal, both are one.
use crate::lists::plays;
use std::test::Fail;

#[test]
fn meetings(rt: HostRuntime) -> Result<(), Fail> {
    plays(&rt, OPENS, LISTS)
}

// A step for each word from the start of ROM on, and none of them goes back. Base addresses of the serial part, RAM, the clock,
// RAM by the cache, and the board's register; entry 0 is of page 0x10, all others are of page 0; line 0 receives and sends. Step 48
// reads the byte into r6.
const OPENS: &str =
    "lui r1, 0xbfe0; lui r8, 0xa000; lui r9, 0xbfe8; lui r10, 0x8000; lui r2, 0xbff0; lui r3, 1; mtc0 r3, c10; tlbwi
mtc0 r0, c10; addiu r4, r0, 4096; sw r4, 8(r1); addiu r4, r0, 1; sw r4, 16(r1); addiu r4, r0, 32; sw r4, 0(r1)
.org 0x1fc000c0
lw r6, 8(r1); sll r0, r0, 0; andi r6, r6, 255";

// Rows of a thing have the steps from 51 on in which a byte, in r6, makes a difference; those from 64 on that take it away; the byte's
// time; and two bytes. Steps 61 and 62 leave nothing else of the byte. Two runs with these logs of the first span differ where the second
// span starts, and are equal where it ends. So a record of the second span of one run is not taken in the other, and one of the third is.
// Nothing else differed, as no step looked at the difference except to take it away. A timeline of eight spans whose byte is changed runs
// the first span, as its event is another, and the second, as its start is, and takes the other six, as they were.
const LISTS: &str = "
$ one thing differs: $1
# Of the processor.
| a register | addu r12, r6, r0 | addu r12, r0, r0 | 40 | 0x41 | 0x42
| HI | mthi r6 | mthi r0 | 40 | 0x41 | 0x42
| LO | mtlo r6 | mtlo r0 | 40 | 0x41 | 0x42
# Step 63 loads the byte of step 60 into r12, which lands in step 64.
| the load slot | .org 0x1fc000fc; lw r12, 8(r1) | sll r0, r0, 0; addu r12, r0, r0 | 60 | 0x41 | 0x42
# Step 63 of one run is a branch that is not taken, in front of the word at which the other run's jump of step 62 arrives.
| the delay mark | beq r6, r0, 0x1fc00400; .org 0x1fc000fc; bne r0, r0, 0x1fc00100; .org 0x1fc00424; j 0x1fc00100 |  | 40 | 0x41 | 0
# The other run has a branch after that jump: from the same word it goes on elsewhere, and back to step 67 of the first.
| the next PC | beq r6, r0, 0x1fc00400; .org 0x1fc000fc; bne r0, r0, 0x1fc00100; .org 0x1fc00424; j 0x1fc00100; beq r0, r0, 0x1fc00500; .org 0x1fc00500; j 0x1fc0010c |  | 40 | 0x41 | 0
| a translation entry | sll r7, r6, 12; mtc0 r7, c10; tlbwi; mtc0 r0, c10 | tlbwi | 40 | 0x41 | 0x42
# sw of a byte with the cache isolated; then of 0 into a slot by two tags; then sb into the slot or an empty one beside it,
# which leaves it valid or not.
| the word of a slot | lui r7, 65; mtc0 r7, c12; sw r6, 64(r10); lui r7, 64; mtc0 r7, c12 | lui r7, 65; mtc0 r7, c12; sw r0, 64(r10); lui r7, 64; mtc0 r7, c12 | 40 | 0x41 | 0x42
| the tag of a slot | lui r7, 65; mtc0 r7, c12; sll r7, r6, 16; addu r7, r7, r10; sw r0, 64(r7); lui r7, 64; mtc0 r7, c12 | lui r7, 65; mtc0 r7, c12; sw r0, 64(r10); lui r7, 64; mtc0 r7, c12 | 40 | 1 | 2
| the mark of a slot | lui r7, 65; mtc0 r7, c12; sw r0, 64(r10); addu r7, r6, r10; sb r0, 0(r7); lui r7, 64; mtc0 r7, c12 | lui r7, 65; mtc0 r7, c12; sw r0, 64(r10); lui r7, 64; mtc0 r7, c12 | 40 | 64 | 68
# Control registers.
| Index | sll r7, r6, 8; mtc0 r7, c0 | mtc0 r0, c0 | 40 | 1 | 2
| EntryLo | sll r7, r6, 12; mtc0 r7, c2 | mtc0 r0, c2 | 40 | 1 | 2
| Context | sll r7, r6, 21; mtc0 r7, c4 | mtc0 r0, c4 | 40 | 1 | 2
| EntryHi | sll r7, r6, 12; mtc0 r7, c10 | mtc0 r0, c10 | 40 | 1 | 2
# Interrupts are off.
| the mask of Status | lui r7, 64; sll r6, r6, 8; addu r7, r7, r6; mtc0 r7, c12 | lui r7, 64; mtc0 r7, c12 | 40 | 1 | 2
| Cause | sll r7, r6, 8; mtc0 r7, c13 | mtc0 r0, c13 | 40 | 1 | 2
# With EntryHi 0 tlbp finds 63 entries and sets TS; with page 0x41 it finds none. Then it finds entry 0 alone in both runs, and
# from step 64 on several ones in both.
| TS | sll r7, r6, 12; mtc0 r7, c10; tlbp; mtc0 r3, c10; tlbp; mtc0 r0, c10 | tlbp | 40 | 0 | 0x41
# Of a device.
# Step 52 stores into TDR, or after the part, where nothing is: the line is busy from then on for 16 ticks, so up to position
# 69, or not at all. Step 53 turns the line off, which clears TRDY.
| the busy count of a line | addu r7, r1, r6; sw r0, 0(r7); sw r0, 16(r1) |  | 40 | 24 | 32
# Nobody reads the byte of step 60 before step 64.
| the silo |  | lw r0, 8(r1) | 60 | 0x41 | 0x42
# MSE with and without RIE; no byte is there.
| RIE | sw r6, 0(r1) | sw r4, 0(r1) | 40 | 0x20 | 0x60
# The receiver of line 0 is turned off, or that of line 1, which is off.
| a receiver | sw r6, 8(r1) | addiu r7, r0, 4096; sw r7, 8(r1) | 40 | 0 | 1
# Line 0 may send, or lines 0 and 1.
| a line's enable | sw r6, 16(r1) | addiu r7, r0, 1; sw r7, 16(r1) | 40 | 1 | 3
| the board's enables | sb r6, 2(r2) | sb r0, 2(r2) | 40 | 0x40 | 0x80
# Bits 6 to 4 of register A are 2 as before, or 0, which sets the divider back; in step 53 they are 2 in both runs.
| the clock's divider | sb r6, 40(r9); addiu r7, r0, 32; sb r7, 40(r9) | sb r0, 40(r9); addiu r7, r0, 32; sb r7, 40(r9) | 40 | 32 | 0
| the clock's seconds | sb r6, 0(r9) | sb r0, 0(r9) | 40 | 1 | 2
| the clock's alarm | sb r6, 4(r9) | sb r0, 4(r9) | 40 | 1 | 2
# Register B with and without UIE; no second ends.
| UIE of the clock | sb r6, 44(r9) | sb r0, 44(r9) | 40 | 0x06 | 0x16
| the clock's RAM | sb r6, 252(r9) | sb r0, 252(r9) | 40 | 1 | 2
# Words of memory, and the core does not.
| a word | sb r6, 256(r8) | sw r0, 256(r8) | 40 | 0x41 | 0x42
| the words of two pages | sll r7, r6, 12; addu r7, r7, r8; sw r8, 0(r7) | sw r0, 0x1000(r8); sw r0, 0x2000(r8) | 40 | 1 | 2
| a page that one run stored into | sll r7, r6, 12; addu r7, r7, r8; sw r8, 0(r7) | sw r0, 0x1000(r8) | 40 | 1 | 255
<source>
$2
.org 0x1fc000f4
addu r6, r0, r0; addu r7, r0, r0
.org 0x1fc00100
$3
--
byte $4 0 $5, record 0 0, log, byte $4 0 $6, record 0 0
# Places 1 and 2 are where the first span ends, 3 is where the second one ends, 4 where the third does, and 5 where the second span of
# the other run ends.
log, record 1 1, put, record 3 2, put, record 2 1, differ 5 3, taken 1 = 1, taken 2, taken 5 = 2, add $4 $5, word 512 0 = 0, costs = 512
set 0 $6, word 512 0 = 0, costs = 128, set 0 $5, word 512 0 = 0, costs = 128

$ TS after the byte $1
# The bits of Status that a run of TS sets, and one that does not: TS is bit 21, beside BEV, bit 22.
| 0 | 0x00600000
| 0x41 | 0x00400000
<source>
sll r7, r6, 12; mtc0 r7, c10; tlbp; mtc0 r3, c10; tlbp; mtc0 r0, c10
.org 0x1fc000f4
addu r6, r0, r0; addu r7, r0, r0
.org 0x1fc00100
tlbp
--
byte 40 0 $1, run 0 64, status = $2

$ bytes of the silo differ: $1
# The silo takes 64 bytes of step 16, where line 0 receives; the next one is lost, and marks its line. Step 48 reads a byte; then the silo
# has 63, and the mark stays. A byte of step 56 comes after the load of step 48. CLR, bit 4, returns the part to reset.
| the mark of a lost byte | bytes 64 16 0 0x41 | bytes 65 16 0 0x41
| a framing error in the silo | byte 56 0 0x41 | framing 56 0 0x41
<source>
.org 0x1fc000f4
addu r6, r0, r0; addu r7, r0, r0
.org 0x1fc00100
addiu r7, r0, 16; sw r7, 0(r1); addu r7, r0, r0
--
$2, record 0 0, log, $3, record 0 0, log, record 1 1, put, record 3 2, put, record 2 1, differ 5 3, taken 1 = 1, taken 2, taken 5 = 2
# A timeline in which a byte is lost. One more leaves the mark as it is.
burst 64 16 0x41, word 512 0 = 0, costs = 512, add 16 0x41, word 512 0 = 0, costs = 128, add 16 0x41, word 512 0 = 0, costs = 64

$ Random
# Register A of the clock is 0, so that its divider stands at 0; then the program goes round two words. Random falls from 63 to 8 and
# starts anew: it is 55 at position 64, 53 at 66, and 55 again at 120, where all is as at 64. At one position it is the same in all runs.
lui r1, 0xbfe8; sb r0, 40(r1); j 0x1fc00008; sll r0, r0, 0
--
run 0 64, random = 0x3700, keep, run 64 2, random = 0x3500, keep, run 66 54, keep, record 1 1, put, taken 1 = 1, taken 2, taken 3 = 1

$ late meetings: $1
# A timeline of nine spans whose byte stands in r12 from step 51 on. Step 447 is the last one before the last span, so that only that
# span is taken where it takes the byte away. Where step 448 does, the runs meet a span later. Where no step does, they never meet.
| .org 0x1fc006fc; addu r12, r0, r0 | 448 | 0
| .org 0x1fc00700; addu r12, r0, r0 | 512 | 0
|  | 512 | 64
<source>
addu r12, r6, r0
.org 0x1fc000f4
addu r6, r0, r0; addu r7, r0, r0
.org 0x1fc00100
$1
--
add 40 0x41, word 576 0 = 0, costs = 576, set 0 0x42, word 512 0 = 0, costs = $2, word 576 0 = 0, costs = $3
";
