//! What queries cost: the steps that a timeline of the echo program runs, in spans of 64 steps. By hand: the loop has turns of 11
//! steps from step 9 on, a byte is read in the first step of the next turn, and sent 8 steps later with a byte time of 16 steps. Each
//! turn stores RBUF in the word 0x100, and 0 in the word 0x104 for a byte.
use crate::lists::plays;
use samples::ECHO;
use std::test::Fail;

#[test]
fn queries(rt: HostRuntime) -> Result<(), Fail> {
    plays(&rt, ECHO, LISTS)
}

const LISTS: &str = "
$ edited echo
# A byte of step 70 costs its span alone: the runs are equal from position 128 on.
--
writer 256 0x100 = Step 253, costs = 256, writer 256 0x104 = Never, console 256 = 0, costs = 0, add 70 0x41, costs = 0
writer 256 0x104 = Step 81, costs = 64, writer 256 0x100 = Step 253, console 256 = 1 0x41, sender 256 0 0 = 83, sender 256 0 1 = NotFound
costs = 0

$ search by spans
# A search passes the spans of records in which the PC is never in the page of the address. The program is in its first page up to
# step 9, and then in its second one alone.
--
writer 256 0x100 = Step 253, costs = 256, next 0 0xbfc02000 256 = NotFound, next 100 0xbfc00ffc 156 = NotFound, costs = 0
next 0 0xbfc00ffc 256 = NotFound, costs = 64, next 20 0xbfc01000 20 = 31, costs-at-most 64 = true
# The span after these has no record.
next 128 0xbfc02000 192 = NotFound, costs = 64

$ followed steps
# Steps are followed from the start of the position's span on.
--
writer 256 0x100 = Step 253, costs = 256, trace 130 3 = 3, costs-at-most 5 = true, trace 130 0 = Range, trace 130 65 = Range
trace 1099511627775 1 = TooFar, costs = 0
# The branch of a turn is its step 4, and the jump back its step 9. No step after the last jump is run, and none at the last position.
jumps 130 1 3 = 146, costs-at-most 18 = true, jumps 130 1 0 = Range, jumps 130 1 65 = Range, costs = 0
jumps 1099511627775 1 3 = 1099511627775, jumps 1099511627776 1 3 = TooFar, costs = 0

$ two edits
# Two bytes cost two spans, and one deleted its own.
--
writer 256 0x100 = Step 253, writer 256 0x104 = Never, console 256 = 0, costs = 256, add 70 0x41, add 200 0x42
writer 256 0x104 = Step 213, costs = 128, console 256 = 2 0x41 0x42, sender 256 0 0 = 83, sender 256 0 1 = 215
writer 256 0x100 = Step 253, costs = 0, del 1, writer 256 0x104 = Step 81, costs = 64, console 256 = 1 0x41, costs = 0

$ taken back
# Of four pasts each is kept: what is taken back, or set to and fro, runs no span again.
--
pasts 4, writer 256 0x100 = Step 253, costs = 256, add 70 0x41, writer 256 0x104 = Step 81, costs = 64, del 0, writer 256 0x104 = Never
console 256 = 0, writer 256 0x100 = Step 253, costs = 0, add 70 0x41, writer 256 0x104 = Step 81, console 256 = 1 0x41, costs = 0
set 0 0x42, console 256 = 1 0x42, costs = 64, set 0 0x41, console 256 = 1 0x41, sender 256 0 0 = 83, costs = 0
set 0 0x42, console 256 = 1 0x42, costs = 0

$ two edits of four pasts
# The byte that is deleted leaves the span that was run before it came.
--
pasts 4, writer 256 0x100 = Step 253, writer 256 0x104 = Never, console 256 = 0, costs = 256, add 70 0x41, add 200 0x42
writer 256 0x104 = Step 213, costs = 128, console 256 = 2 0x41 0x42, sender 256 0 0 = 83, sender 256 0 1 = 215
writer 256 0x100 = Step 253, costs = 0, del 1, writer 256 0x104 = Step 81, costs = 0, console 256 = 1 0x41, costs = 0

$ a fifth past
# Of the four that are kept of the second span the one used least recently gives way: that of 0x41, then that without a byte.
--
pasts 4, console 256 = 0, costs = 256, add 70 0x41, console 256 = 1 0x41, costs = 64, set 0 0x42, console 256 = 1 0x42, costs = 64
set 0 0x43, console 256 = 1 0x43, costs = 64, del 0, console 256 = 0, costs = 0, add 70 0x44, console 256 = 1 0x44, costs = 64
set 0 0x42, console 256 = 1 0x42, costs = 0, set 0 0x43, console 256 = 1 0x43, costs = 0, set 0 0x41, console 256 = 1 0x41, costs = 64
set 0 0x44, console 256 = 1 0x44, costs = 0, del 0, console 256 = 0, costs = 64

$ two pasts of one
# Where one is kept, each past drops the other.
--
pasts 1, console 256 = 0, costs = 256, add 70 0x41, console 256 = 1 0x41, costs = 64, del 0, console 256 = 0, costs = 64

$ framing over echo
# A framing error in place of the byte of step 70 costs its span alone, and so does the byte in place of the error. RBUF, as
# step 77 stores it, has FERR.
--
writer 256 0x104 = Never, costs = 256, add 70 0x41, writer 256 0x104 = Step 81, costs = 64, del 0, ferr 70 0x41
writer 256 0x104 = Step 81, costs = 64, console 256 = 1 0x41, costs = 0, word 78 0x100 = 0xa041, costs = 14, del 0, add 70 0x41
writer 256 0x104 = Step 81, costs = 64, word 78 0x100 = 0x8041, costs = 14

$ external line
# An external line, of which the program makes nothing: the runs differ in its level, from the span in which it rises up to the end
# of the span in which it falls.
--
console 256 = 0, costs = 256, wire 70 1 1, wire 90 1 0, console 256 = 0, costs = 64, del 1, console 256 = 0, costs = 192
# What it costs up to the fall stands.
wire 140 1 0, console 256 = 0, costs = 128
# A level that is set again.
wire 150 1 0, console 256 = 0, costs = 64

$ erased bytes
# Bytes of steps 70 and 130 are erased at once, and that of step 200 stays, whose span costs nothing.
--
writer 256 0x104 = Never, costs = 256, add 70 0x41, add 130 0x43, add 200 0x42, writer 256 0x104 = Step 213, costs = 192
console 256 = 3 0x41 0x43 0x42, erase 131 70 = Range, console 256 = 3 0x41 0x43 0x42, costs = 0, erase 70 131, events = 1, costs = 0
writer 256 0x104 = Step 213, costs = 128, console 256 = 1 0x42, sender 256 0 0 = 215, erase 0 0, events = 1, console 256 = 1 0x42
costs = 0

$ erasing between spans
# Of eight spans the second, third, fourth and sixth have a byte each. Erasing costs the spans whose bytes it takes, and neither
# those before them nor those after them.
--
console 512 = 0, costs = 512, add 70 0x41, add 130 0x42, add 200 0x43, add 330 0x44, console 512 = 4 0x41 0x42 0x43 0x44, costs = 256
erase 128 256, events = 2, console 512 = 2 0x41 0x44, costs = 128, sender 512 0 1 = 347
# No byte is left between the two.
erase 71 330, events = 2, console 512 = 2 0x41 0x44, costs = 0, erase 70 71, events = 1, console 512 = 1 0x44, costs = 64
erase 0 1099511627775, events = 0, console 512 = 0, costs = 64
# Erased before anything is asked, an event costs nothing.
add 70 0x41, wire 330 0 1, erase 70 331, events = 0, console 512 = 0, costs = 0

$ patches
# A patched word that the first span overwrites costs only that span. So does a word of the start, whose page is carried over.
--
writer 256 0x100 = Step 253, costs = 256, patch 0x100 0x1234, costs = 0, writer 256 0x100 = Step 253, costs-at-most 64 = true
word 11 0x100 = 0x1234, costs-at-most 11 = true, writer 11 0x100 = Image, costs-at-most 11 = true, word 12 0x100 = 0
costs-at-most 12 = true, writer 12 0x100 = Step 11, costs-at-most 12 = true, patch 0x1fc00010 0x24050011, costs = 0
writer 256 0x100 = Step 253, costs-at-most 64 = true, word 256 0x1fc00010 = 0x24050011, patch 0x1fe00000 0 = NotMemory
patch 0x102 0 = Unaligned

$ meeting in the load slot
# At position 384 the runs differ in the load slot alone, so the next span is run too.
--
writer 512 0x104 = Never, costs = 512, add 383 0x41, writer 512 0x104 = Step 389, costs-at-most 128 = true, sender 512 0 0 = 391
console 512 = 1 0x41, costs = 0

$ first and last step of a span
# A byte in the first step of a span is read there; one in the last is in the silo where the next span starts.
--
console 512 = 0, costs = 512, add 64 0x41, sender 512 0 0 = 72, costs = 64, del 0, add 63 0x41, sender 512 0 0 = 72, costs = 128, del 0
add 127 0x41, sender 512 0 0 = 138, costs = 192

$ undone edits
# An edit and its undoing cost nothing where nothing was asked between, and else the span again.
--
console 256 = 0, costs = 256, add 70 0x41, del 0, console 256 = 0, costs = 0, patch 0x100 7, patch 0x100 0, console 256 = 0, costs = 0
add 70 0x41, console 256 = 1 0x41, costs = 64, del 0, console 256 = 0, costs = 64

$ edit after the position
# An edit after the position that is asked costs nothing there.
--
console 512 = 0, costs = 512, add 300 0x41, console 256 = 0, costs = 0, console 300 = 0, costs-at-most 44 = true
# The line is busy up to step 330, so the next span starts otherwise too.
sender 512 0 0 = 314, costs = 128

$ going on
# A query inside a span that comes again, or goes on from there, runs at most what is between.
--
word 100 0x100 = 0, costs = 100, word 100 0x100 = 0, costs = 0, word 110 0x100 = 0, costs = 10, word 109 0x100 = 0
costs-at-most 45 = true, word 64 0x100 = 0, costs = 0

$ reports inside a span
# What steps reported up to a position inside a span is at hand until the position is another: what was sent, and who wrote words and
# registers. By hand: the 27th turn begins in step 295, which loads r6. Step 297 stores it, and step 298 shifts it into r7. Steps 1 and 2
# wrote r8 and r4, and none wrote r2.
--
console 300 = 0, costs = 300, console 300 = 0, sender 300 0 0 = NotFound, writer 300 0x100 = Step 297, writer 300 0x104 = Never
regwriter 300 6 = 295, regwriter 300 7 = 298, regwriter 300 8 = 1, regwriter 300 4 = 2, regwriter 300 2 = NotFound, costs = 0
# Elsewhere in the span it runs the steps from the start of the span on, also where it stood at that position before.
regwriter 297 6 = 295, costs = 41, regwriter 297 7 = 287, writer 297 0x100 = Step 286, console 297 = 0, costs = 0
writer 300 0x100 = Step 297, costs = 44, regwriter 300 34 = Range, regwriter 1099511627776 6 = TooFar, costs = 0
# A byte of step 290 is read in step 295 and sent in step 303; the turn stores 0 in step 301.
add 290 0x41, sender 310 0 0 = 303, costs = 54, sender 310 0 0 = 303, console 310 = 1 0x41, writer 310 0x104 = Step 301
regwriter 310 6 = 306, costs = 0

$ refusals cost nothing
# What is refused before it is asked runs no step.
--
word 1099511627776 0x100 = TooFar, writer 256 0x102 = Unaligned, sender 256 4 0 = Range, next 256 0xbfc01000 0 = Range, costs = 0
";
