//! States inside spans that are kept: what queries cost at them and near them, on the echo program in spans of 64 steps.
use crate::lists::plays;
use samples::ECHO;
use std::test::Fail;

#[test]
fn states_inside_spans(rt: HostRuntime) -> Result<(), Fail> {
    plays(&rt, ECHO, LISTS)
}

const LISTS: &str = "
$ keeps no recent states
# A second query of the state at a position inside a span runs no step; it would if no state were kept. By hand: a turn begins at
# position 97, and another at 64.
--
word 100 0x100 = 0, costs = 100, pc 70 = 0xbfc01024, costs = 6, word 100 0x100 = 0, pc 100 = 0xbfc0100c, word 70 0x100 = 0
pc 70 = 0xbfc01024, costs = 0

$ ninth position
# Of nine positions the one that was asked for longest ago costs steps again: from the nearest one that is kept.
--
word 73 0x100 = 0, costs = 73, word 72 0x100 = 0, costs = 8, word 71 0x100 = 0, costs = 7, word 70 0x100 = 0, costs = 6, word 69 0x100 = 0
costs = 5, word 68 0x100 = 0, costs = 4, word 67 0x100 = 0, costs = 3, word 66 0x100 = 0, costs = 2, word 65 0x100 = 0, costs = 1
word 72 0x100 = 0, costs = 0, word 73 0x100 = 0, costs = 1
# 72 was asked for again, so 71 made room for 73.
word 72 0x100 = 0, costs = 0, word 71 0x100 = 0, costs = 1

$ start of a span
# A position at which a span starts takes no room among the eight.
--
word 72 0x100 = 0, costs = 72, word 71 0x100 = 0, costs = 7, word 70 0x100 = 0, costs = 6, word 69 0x100 = 0, costs = 5, word 68 0x100 = 0
costs = 4, word 67 0x100 = 0, costs = 3, word 66 0x100 = 0, costs = 2, word 65 0x100 = 0, costs = 1, word 128 0x100 = 0, costs = 64
word 64 0x100 = 0, word 128 0x100 = 0, word 72 0x100 = 0, costs = 0

$ nearest below
# A query goes on from where the machine stands or from a state that is kept, whichever is nearer below.
--
word 100 0x100 = 0, costs = 100, word 70 0x100 = 0, costs = 6
# From 100.
next 102 0xbfc01000 20 = 108, costs = 8
# From 108, where the machine stands.
word 109 0x100 = 0, costs = 1
# From 70.
word 99 0x100 = 0, costs = 29

$ states after edits
# An edit or a patch forgets the states that are kept. By hand: a byte of step 70 has a turn store 0 in step 81.
--
patch 0x104 7, word 100 0x104 = 7, costs = 100, add 3000 0x41, word 100 0x104 = 7, costs = 36, word 100 0x104 = 7, costs = 0, set 0 0x42
word 100 0x104 = 7, costs = 36, patch 0x8000 1, word 100 0x104 = 7, costs = 36, add 70 0x41, word 100 0x104 = 0, costs = 36, del 0
word 100 0x104 = 7, costs = 36

$ states after other edits
# A framing error, a level and erasing forget them too, also where no event is erased, and a refused range does not.
--
word 100 0x100 = 0, costs = 100, ferr 3000 0x41, word 100 0x100 = 0, costs = 36, wire 3000 2 1, word 100 0x100 = 0, costs = 36
erase 1 0 = Range, word 100 0x100 = 0, costs = 0, erase 0 0, events = 2, word 100 0x100 = 0, costs = 36, erase 3000 3001, events = 0
word 100 0x100 = 0, costs = 36
";
