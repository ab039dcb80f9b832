//! The record of a span and the records that are kept: values by hand. In the echo program turn i of the loop begins at step 9 + 11 * i,
//! stores RBUF in its third step, and for a byte 0 in its seventh, and sends it in its ninth.
use crate::lists::plays;
use samples::ECHO;
use std::test::Fail;

#[test]
fn records(rt: HostRuntime) -> Result<(), Fail> {
    plays(&rt, ECHO, LISTS)
}

const LISTS: &str = "
$ first span
# The first span of the echo program, without events: turn 4 stores in step 55, and turn 5 begins after the span. These have no
# writer: the words beside the one that is stored into, an address of no word, one of ROM, and the first one past RAM. What is
# stored is 0, as before.
--
record 0 0, stands = 0xbfc01000 64, starts 0, fact = 0 sent dirty 0 touched 0 16 17
writers 0x100 0xfc 0x104 0x102 0x1fc00000 0x10000 = 55 none none none none none, load 0, stands = 0xbfc00000 64, load 1
stands = 0xbfc01000 64, differ 1 0 = core

$ spans with bytes
# Spans that start where others end, with bytes of steps 70 and 200. By hand: the second span has the stores of step 121, its
# last one of RBUF, and 81, and the byte sent in step 83; the third has the store of step 187 and no event; the fourth those of
# steps 253 and 213, and the byte of step 215.
--
byte 70 0 0x41, byte 200 0 0x42, record 0 0, starts 0, fact = 0 sent dirty 0 touched 0 16 17, writers 0x100 0x104 = 55 none
record 1 1, stands = 0xbfc01030 128, starts 1, fact = 1 70 Byte 0 0x41 sent 0:0x41:19 dirty 0 touched 0 17, writers 0x100 0x104 = 57 17
record 2 2, starts 2, fact = 2 sent dirty 0 touched 0 17, writers 0x100 0x104 = 59 none, record 3 3, starts 3
fact = 3 200 Byte 0 0x42 sent 0:0x42:23 dirty 0 touched 0 17, writers 0x100 0x104 = 61 21

$ stores into pages
# Stores into several pages: the page that is only loaded from is touched, and one that is stored into is dirty though its
# words stay. After the program there is no word, which is no operation.
# Steps 4 to 10 store into page 15, page 3, byte 3 of a word of page 1, load from page 5, store into ROM, which has no effect,
# into page 3 again, and into bytes 2 and 3 of the word of page 1. r8 has zeros in its low half.
lui r8, 0xa000; ori r9, r8, 0x5000; ori r10, r8, 0xf000; lui r11, 0xbfc0; sw r8, 0(r10); sw r8, 0x3000(r8)
sb r8, 0x1003(r8); lw r2, 0(r9); sw r8, 0(r11); sw r8, 0x3000(r8); sh r8, 0x1002(r8)
--
record 0 0, stands = 0xbfc00100 64, starts 0, fact = 0 sent dirty 1 3 15 touched 1 3 5 15 16
writers 0x1000 0x3000 0x5000 0xf000 0x1fc00000 = 10 9 none 4 none, holds = 0xc00:0xa0000000 0x3c00:0xa0000000, differ 0 1 = core 3 15

$ record of the first span
# A record is taken only for its own span: not with one more event, and not from a start with another core, as that of its end,
# where all words are the same. A machine that is made anew starts where this one did.
--
records, taken 0, record 0 0, put, records = 0, taken 0 = 0, byte 5 0 0x41, taken 0, differ 0 1 = core, log, taken 1, reset
taken 2 = 0

$ record with an event
# A record with an event is taken for that event alone.
--
byte 70 0 0x41, record 0 0, record 1 1, put, taken 1 = 1, log, taken 1, log, byte 70 0 0x41, byte 70 0 0x41, taken 1, log
byte 71 0 0x41, taken 1, log, byte 70 1 0x41, taken 1, log, byte 70 0 0x42, taken 1

$ record with an event: $1
# It is taken for one of its kind alone.
| byte 70 0 1 | framing 70 0 1 | level 70 0 1
| framing 70 0 1 | level 70 0 1 | byte 70 0 1
| level 70 0 1 | byte 70 0 1 | framing 70 0 1
--
record 0 0, $1, record 1 1, put, taken 1 = 1, log, $2, taken 1, log, $3, taken 1, log, taken 1

$ valid records
# The valid records are counted from the first on. One that is no longer valid is kept.
--
record 0 0, put, record 1 1, put, valid = 0, join, valid = 1, join, valid = 2, truncate 5, valid = 2, records = 0 1, truncate 2, valid = 2
records = 0 1, truncate 1, valid = 1, records = 0 1, truncate 3, valid = 1, records = 0 1, truncate 0, valid = 0, records = 0 1
taken 0 = 0

$ records apart
# Records of any order of numbers: none is kept between them.
--
record 0 70, put, record 0 2, put, records = 2 70, taken 0 = 2 70, record 0 0, put, valid = 0, records = 0 2 70, taken 0 = 0 2 70

$ word $1 of the start is another
# The first span touches pages 0, 16 and 17. It neither reads nor writes some of these words.
| 0 | 0
| 0x80 | 0
| 1023 | 0
| 16384 | 16
| 17407 | 16
| 17408 | 17
| 18431 | 17
--
record 0 0, put, poke 0 $1 7, taken 2, near 0 2 $2 = false false

$ word $1 of the start, of a page that is not touched, is another
# Pages beside those, and the last ones of RAM and of ROM, where 0 stands.
| 1024 | 1
| 5120 | 5
| 16383 | 15
| 18432 | 18
| 81919 | 79
--
record 0 0, put, poke 0 $1 7, taken 2, near 0 2 $2 = false true, poke 0 $1 0, taken 3 = 0, near 0 3 $2 = true true

$ nearly and not
# A span nearly applies with its own events and core alone, and only where it is kept. Its end has the same words and another core.
--
near 0 0 = false false, record 0 0, put, near 0 0 = true true, near 1 0 = false false, near 0 1 0 = false false
# The receiver is not on yet: nothing comes of this byte, but the events differ.
byte 5 0 0x41, near 0 0 = false false

$ linked records
# Two spans, one after the other, are linked until either is put anew.
--
link, links = 0, record 0 0, put, links, records = 0 1, link, links = 0, record 1 1, put, links, records = 0 1

$ greatest count
# The count of steps stays at its greatest value, 18446744073709551615. No public call can make a machine that has made that many.
--
counted 0 64 = 64, counted 18446744073709551550 64 = 18446744073709551614, counted 18446744073709551551 64 = 18446744073709551615
counted 18446744073709551552 64 = 18446744073709551615, counted 18446744073709551615 1 = 18446744073709551615
counted 18446744073709551615 0 = 18446744073709551615, counted 18446744073709551615 4294967295 = 18446744073709551615
";
