//! Spans that are carried over: their start differs only in pages that they do not touch, so they are not run again. The counts are by
//! hand, in spans of 64 steps. The loop of the echo program stores into the first page of RAM and is fetched from the second page of ROM.
//! The steps before it, 0 to 8, are fetched from the first page of ROM. Position 256 is where the fifth span starts. 0x3000 is a word of
//! RAM that the echo program never touches, nor its page.
use crate::lists::plays;
use samples::ECHO;
use std::test::Fail;

#[test]
fn carried_spans(rt: HostRuntime) -> Result<(), Fail> {
    plays(&rt, ECHO, LISTS)
}

const LISTS: &str = "
$ patched start
# The fifth word of ROM is fetched in step 4. Once the first span was run nothing else differs, so its page is carried over.
--
writer 256 0x100 = Step 253, costs = 256, patch 0x1fc00010 0x24050011, writer 256 0x100 = Step 253, costs = 64
word 256 0x1fc00010 = 0x24050011, costs = 0

$ patched loop
# The loop stores into another word. It fetches from the patched page, so all of its spans are run.
--
writer 256 0x100 = Step 253, costs = 256, patch 0x1fc01008 0xad060108, writer 256 0x100 = Never, costs = 256, writer 256 0x108 = Step 253
costs = 0

$ untouched page
# A page that no step touches costs nothing, patched and patched back. It is shown as it was patched, at positions of any span.
--
word 256 0x3000 = 0, costs = 256, patch 0x3000 7, word 256 0x3000 = 7, writer 256 0x3000 = Image, writer 256 0x100 = Step 253, costs = 0
word 250 0x3000 = 7, costs = 58, word 100 0x3000 = 7, costs = 36, patch 0x3000 0, word 256 0x3000 = 0, writer 256 0x3000 = Image
costs = 0

$ page that is fetched from
# A word in the page of the loop that is never fetched itself. Each span fetches from that page, and again when it is patched
# back.
--
writer 256 0x100 = Step 253, costs = 256, patch 0x1fc01100 5, writer 256 0x100 = Step 253, costs = 256, patch 0x1fc01100 0
writer 256 0x100 = Step 253, costs = 256, word 256 0x1fc01100 = 0, costs = 0

$ pages that are stored into and loaded from
# Pages that are only stored into, and only loaded from, are touched by every span; another one by none.
# The loop loads from the third page of RAM and stores into the second, in turns of 4 steps, all from the first page of ROM.
lui r8, 0xa000; addiu r9, r8, 0x2000; sw r0, 0x1000(r8); lw r10, 0(r9); j 0x1fc00008; sll r0, r0, 0
--
word 256 0x1000 = 0, costs = 256, patch 0x1004 1, word 256 0x1004 = 1, costs = 256, patch 0x2004 2, word 256 0x2004 = 2, costs = 256
patch 0x3000 3, word 256 0x3000 = 3, costs = 0, writer 256 0x1004 = Image, writer 256 0x1000 = Step 254, costs = 0

$ one of two pages
# Of two patched pages the spans touch one. Its word is stored into by step 11, so that after the first span only the other page
# differs.
--
writer 256 0x100 = Step 253, costs = 256, patch 0x3000 7, patch 0x100 9, word 256 0x3000 = 7, costs = 64, word 11 0x100 = 9, costs = 11
writer 256 0x100 = Step 253, costs = 0

$ overwritten difference
# The patched word is stored into by step 81, for the byte of step 70: the first two spans are run, and after them all is as it
# was.
--
add 70 0x41, writer 256 0x104 = Step 81, costs = 256, patch 0x104 5, writer 256 0x104 = Step 81, costs = 128, word 256 0x104 = 0
costs = 0, word 80 0x104 = 5, writer 80 0x104 = Image, costs = 32

$ patch and edit
# A patch of an untouched page and a byte of step 70 together: the byte costs its span, and the page is carried over all of them.
--
writer 256 0x104 = Never, costs = 256, patch 0x3000 7, add 70 0x41, writer 256 0x104 = Step 81, costs = 64, console 256 = 1 0x41
sender 256 0 0 = 83, word 256 0x3000 = 7, costs = 0, del 0, writer 256 0x104 = Never, costs = 64, console 256 = 0, word 256 0x3000 = 7
costs = 0

$ reported by carried spans
# Last writers and bytes sent before, in and after spans that were carried over, with bytes of steps 70 and 200.
--
add 70 0x41, add 200 0x42, console 256 = 2 0x41 0x42, costs = 256, patch 0x3000 7, console 256 = 2 0x41 0x42, sender 256 0 0 = 83
sender 256 0 1 = 215, sender 256 0 2 = NotFound, writer 256 0x104 = Step 213, costs = 0, writer 200 0x104 = Step 81, costs = 8
console 84 = 1 0x41, costs = 20, console 83 = 0, costs = 19

$ page that is entered later
# Spans before the one that enters the patched page are carried over; from that one on they are run.
# 40 turns of 3 steps in the first page of ROM, from step 1 on; then, from step 123 on, a loop in the second.
addiu r1, r0, 40; addiu r1, r1, -1; bgtz r1, 0x1fc00004; sll r0, r0, 0; j 0x1fc01000; sll r0, r0, 0
.org 0x1fc01000
j 0x1fc01000; sll r0, r0, 0
--
word 256 0x3000 = 0, costs = 256, patch 0x1fc01100 5, word 64 0x1fc01100 = 5, costs = 0, word 256 0x1fc01100 = 5, costs = 192
";
