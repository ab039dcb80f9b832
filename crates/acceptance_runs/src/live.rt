//! The machine that runs, its record and its boundaries: the echo program in spans of 64 steps, values by hand.
use crate::lists::plays;
use samples::ECHO;
use std::test::Fail;

#[test]
fn runs(rt: HostRuntime) -> Result<(), Fail> {
    plays(&rt, ECHO, LISTS)
}

const LISTS: &str = "
$ at reset
--
stands = 0xbfc00000 0, then = 0xbfc00004 false
# The first and the last word of the program.
memory 16384 = 0x3c01bfe0, memory 17420 = 0x0bf00400, holds, reports = sent dirty touched

$ four spans
# The loop has turns of 11 steps from step 9 on, and stores in the third step of each. The last store of each span is that of
# step 55, 121, 187 and 253.
--
run 0 64, stands = 0xbfc01000 64, holds, reports = 0x40:55 sent dirty 0 touched 0 16 17, run 64 64, stands = 0xbfc01030 128
reports = 0x40:57 sent dirty 0 touched 0 17, run 128 64, stands = 0xbfc01028 192, reports = 0x40:59 sent dirty 0 touched 0 17, run 192 64
stands = 0xbfc01014 256, reports = 0x40:61 sent dirty 0 touched 0 17, then = 0xbfc01024 true, holds

$ bytes of the log
# Bytes of steps 70 and 200 are taken in steps 81 and 213 and sent in steps 83 and 215; the last stores of RBUF stay the same.
--
byte 70 0 0x41, byte 200 0 0x42, run 0 64, reports = 0x40:55 sent dirty 0 touched 0 16 17, run 64 64
reports = 0x40:57 0x41:17 sent 0:0x41:19 dirty 0 touched 0 17, run 128 64, reports = 0x40:59 sent dirty 0 touched 0 17, run 192 64
reports = 0x40:61 0x41:21 sent 0:0x42:23 dirty 0 touched 0 17, stands = 0xbfc01014 256, holds

$ spans of any length
# Step 77 stores RBUF with the byte, and step 88 RBUF of an empty silo. A run of no step changes nothing, and the first 11 store
# nothing.
--
byte 70 0 0x41, run 0 0, stands = 0xbfc00000 0, holds, reports = sent dirty touched, run 0 11, reports = sent dirty touched 16 17, run 11 1
reports = 0x40:0 sent dirty 0 touched 0 17, run 12 52, run 64 14, stands = 0xbfc0100c 78, holds = 0x40:0x8041
reports = 0x40:13 sent dirty 0 touched 0 17, run 78 11, holds, reports = 0x40:10 0x41:3 sent 0:0x41:5 dirty 0 touched 0 17

$ back and again
# A machine that goes back runs the same steps again, and counts them.
--
record 0 0, load 0, stands = 0xbfc00000 64, holds, record 0 0, stands = 0xbfc01000 128, differ 1 2
reports = 0x40:55 sent dirty 0 touched 0 16 17

$ from reset twice
# The second run takes the same words as the first.
--
run 0 64, stands = 0xbfc01000 64, reports = 0x40:55 sent dirty 0 touched 0 16 17, holds, keep, load 0, stands = 0xbfc00000 64, run 0 64
stands = 0xbfc01000 128, reports = 0x40:55 sent dirty 0 touched 0 16 17, holds, keep, load 0, stands = 0xbfc00000 128

$ two ways on
# From a boundary on without and with a byte: at 128 nothing of it is left.
--
run 0 64, keep, run 64 64, reports = 0x40:57 sent dirty 0 touched 0 17, keep, load 1, byte 70 0 0x41, run 64 64
reports = 0x40:57 0x41:17 sent 0:0x41:19 dirty 0 touched 0 17, stands = 0xbfc01030 192, keep, differ 2 3, differ 1 3 = core

$ kept words
# A boundary keeps its words when the machine goes on. Only pages that a step stored into may differ.
<source>
.org 0x100
.word 0x1234
--
record 0 0, kept 0 0x40 = 0x1234, kept 1 0x40 = 0, differ 0 1 = core 0, load 0, stands = 0xbfc00000 64, memory 0x40 = 0x1234, load 1
stands = 0xbfc01000 64, memory 0x40 = 0

$ stored and equal
# What is stored is 0 as before, until a byte is there.
--
record 0 0, differ 0 1 = core, byte 70 0 0x41, run 64 14, keep, differ 1 2 = core 0, kept 2 0x40 = 0x8041

$ visits
# The PC is at the loop after 9 steps, after 11 more, and not in between; where it stands already does not count.
--
visit 0 0 0xbfc01000 = None, visit 0 8 0xbfc01000 = None, stands = 0xbfc00020 8, reports = sent dirty touched 16
visit 8 64 0xbfc01000 = Some 1, stands = 0xbfc01000 9, keep, visit 9 10 0xbfc01000 = None, stands = 0xbfc01034 19
reports = 0x40:2 sent dirty 0 touched 0 17, load 1, visit 9 11 0xbfc01000 = Some 11, stands = 0xbfc01000 30
reports = 0x40:2 sent dirty 0 touched 0 17

$ visits from reset
# From reset in one go; then an address where no instruction of the program stands, and one on the path of a byte: that of step 70
# has the program come to the store of 0 in step 81.
--
visit 0 64 0xbfc01000 = Some 9, stands = 0xbfc01000 9, reports = sent dirty touched 16, visit 9 55 0xbfc02000 = None, stands = 0xbfc01000 64
byte 70 0 0x41, visit 64 64 0xbfc01018 = Some 17, stands = 0xbfc01018 81, reports = 0x40:13 sent dirty 0 touched 0 17
";
