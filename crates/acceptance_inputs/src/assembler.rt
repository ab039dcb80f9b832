//! The assembler on its own: words of source, every fault alone and before those that come after it, numbers and targets at
//! their bounds, places, lines and their ends.
use crate::image_format::{CLOCK, has_constants, has_words, writes};
use crate::same::{same, same_at};
use crate::tables::rows;
use asm_line::kind::AsmKind;
use r3k_asm::{AsmFault, assemble};
use r3k_disasm::text;
use r3k_image::Image;
use r3k_table::rows::table;
use samples::{LOAD_SLOT, shown};
use std::alloc::{AllocError, Global};
use std::process::Abort;
use std::test::Fail;

const START: u32 = 0x1FC0_0000;

// The kind of a source's fault, with its line.
fn fault(alloc: Global, source: &str) -> Option<(u64, AsmKind)> {
    match assemble(alloc, source.as_bytes()) {
        Err(AsmFault::Bad { line, kind }) => Some((line, kind)),
        _ => None,
    }
}

fn image(rt: &impl Abort, alloc: Global, source: &str) -> Image {
    assemble(alloc, source.as_bytes()).expect(rt, source)
}

// The word that a source sets at the start of ROM.
fn first_word(rt: &impl Abort, alloc: Global, source: &str) -> Option<u32> {
    image(rt, alloc, source).word(START)
}

/// The load slot: a word in RAM, and four instructions in ROM.
#[test]
fn load_slot(rt: HostRuntime) -> Result<(), Fail> {
    let source =
        ".org 0x100\n.word 5\n.org 0x1fc00000\nlui r1, 0xa000\nlw r2, 256(r1)\naddu r3, r2, r0\naddu r4, r2, r0\n";
    writes(&rt, &image(&rt, rt.alloc(), source), &LOAD_SLOT)
}

// Sources, and the word that each of them sets at the start of ROM.
const WORDS: &str = "
// a branch counts from its delay slot, over 2^32 too; both ends of its reach
beq r0, r0, 0x1fc20000 = 0x10007fff / beq r0, r0, 0x1fbe0004 = 0x10008000 / beq r0, r0, 0x1fc00004 = 0x10000000
bgez r7, 532676632 = 0x04e10005
// a jump keeps the low 28 bits of its target
j 0x1fc00000 = 0x0bf00000 / j 0x1ffffffc; j 0xfffffffc = 0x0bffffff / j 0x10000000 = 0x08000000 / jal 0 = 0x0c000000
// words, in each form of a number
.word 0 = 0 / .word 4294967295; .word 0xffffffff = 0xffffffff / .word 0xDEADbeef = 0xdeadbeef
.word 00000000000000000000000000012; .word 0x000000000000000000000000c = 12
// signed numbers
addiu r31, r0, -32768; addiu r31, r0, -0x8000 = 0x241f8000 / addiu r31, r0, 32767; addiu r31, r0, 0x7fff = 0x241f7fff
addiu r31, r0, -1; addiu r31, r0, -0x1 = 0x241fffff / addiu r31, r0, -0; addiu r31, r0, -0x0 = 0x241f0000
addiu r31, r0, 00000000000000000000005 = 0x241f0005 / lw r2, -32768(r1) = 0x8c228000 / lw r2, 32767(r1) = 0x8c227fff
lw r2, -0x8000(r1) = 0x8c228000 / lw r2, 0x7fff(r1) = 0x8c227fff
// unsigned numbers
ori r1, r2, 65535; ori r1, r2, 0xFfFf = 0x3441ffff / ori r1, r2, 0 = 0x34410000 / lui r1, 0xffff = 0x3c01ffff
lui r1, 0 = 0x3c010000 / sll r0, r0, 0 = 0 / sll r1, r2, 31; sll r1, r2, 0x1f = 0x00020fc0 / syscall 0 = 0x0000000c
break 1048575; break 0xfffff = 0x03ffffcd
// each shape's operands in their fields
sra r1, r2, 3 = 0x000208c3 / srav r1, r2, r3 = 0x00620807 / jr r31 = 0x03e00008 / jalr r31, r2 = 0x0040f809
mfhi r7 = 0x00003810 / mult r1, r2 = 0x00220018 / nor r10, r20, r30 = 0x029e5027 / bgezal r1, 0x1fc00008 = 0x04310001
bne r1, r2, 0x1fc00000 = 0x1422ffff / addiu r3, r9, 7 = 0x25230007 / andi r3, r9, 7 = 0x31230007
sw r2, 4(r29) = 0xafa20004 / mtc0 r1, c12 = 0x40816000 / mfc0 r31, c0 = 0x401f0000 / tlbwr = 0x42000006
rfe = 0x42000010
// registers at their bounds
addu r0, r9, r10 = 0x012a0021 / addu r31, r29, r30 = 0x03bef821
// blanks, comments, ends of lines
\tlw\tr2\t,\t-4\t(\tr29\t)\t;   lw   r2 , -4 ( r29 )  ; lw r2,-4(r29); lw r2,-4(r29)# = 0x8fa2fffc
rfe# returns; rfe # returns\r; rfe # a # b; rfe|; rfe\r|; rfe \t\r|; |\r| \t\r|# j nowhere\r|rfe|| = 0x42000010
// labels: a register's or an instruction's name, one of 1 byte, one of 32
j _|_:; j r1|r1:; j lui| lui: # here; j Abcdefghijklmnopqrstuvwxyz_01234|Abcdefghijklmnopqrstuvwxyz_01234:| = 0x0bf00001
here:|j here = 0x0bf00000 / j a|A:|.org 0x40|a: = 0x08000010
";

#[test]
fn words(rt: HostRuntime) -> Result<(), Fail> {
    for (source, wanted) in &rows(rt.alloc(), WORDS)? {
        let word = first_word(&rt, rt.alloc(), source.as_str());
        let wanted = format!(in rt.alloc(); "Some {wanted}")?;
        same_at(&rt, &source, &shown(rt.alloc(), &word)?, &wanted);
    }
    Ok(())
}

// Sources with one fault, the line of the fault, and its kind.
const FAULTS: &str = "
// an unknown mnemonic or directive, whatever follows
foo; foo%; foo r1, 4294967296; x :; ADDU r1, r2, r3; addx r1, r2, r3; ad r1, r2, r3; r1; break_ 1; nop; .foo = 1 Name
.foo 1 2 3; .foo 4294967296; .foo:; .; . org 1; .Org 1; .words 1; Abcdefghijklmnopqrstuvwxyz_012345 = 1 Name
// another form: at the begin of a line
123; 1x:; , r1; : tlbr; %; - tlbr; \x0btlbr; \rtlbr; \0 = 1 Syntax
// after the name
addu,r1; addu; addu%; add :; x: nor r1, r2, r3; x: y:; x::; addu: r1, r2, r3; Abcdefghijklmnopqrstuvwxyz_012345: = 1 Syntax
.org; .org:; .org,1 = 1 Syntax
// between the parts
addiu r2 r2, 5; addiu r2,, r2, 5; addiu , r2, r2, 5; addiu r2, r2, - 5; addiu r2, r2, --5; addiu r2, r2, +5 = 1 Syntax
addiu r2, r2, r3; addiu r2, 5, r2; addu r1, r2, 3; addu r32, r0, r0; addu r01, r0, r0; addu r, r0, r0 = 1 Syntax
addu R9, r0, r0; addu c1, r0, r0; addu $1, r0, r0; mfc0 r1, c32; mfc0 r1, r12; lw r1, 4(r2; lw r1, 4 r2) = 1 Syntax
lw r1, (r2); lw r1, 4; lw r1, 4(5); lw r1, x(r2); j a-b; j -4; j; j 1x; j Abcdefghijklmnopqrstuvwxyz_012345 = 1 Syntax
// words that are no numbers, and signs where none may stand
.word 0x; .word 0X10; .word 0x1g; .word 12a; .word 1_0; .word +1; .word -1; .word -0; .word x; .org -0 = 1 Syntax
.bytetime -1; ori r2, r2, -0; sll r2, r2, -1; break -1 = 1 Syntax
// at the end of a line
tlbr r1; tlbr,; tlbr\r; tlbr\r\r|; tlbr \r |; addu r1, r2, r3,; addu r1, r2, r3, r4; addu r1, r2, r3 % = 1 Syntax
addiu r2, r2; addiu r2, r2,; lw r1, 4(r2) 5; j 4 4; .word 1 2; .word 1,; .clock 0 0 0 0 0 0 1 1 1 0 0x20 = 1 Syntax
.clock 0 0 0 0 0 0 1 1 1 0 0x20 6 0; .clock 0, 0 0 0 0 0 1 1 1 0 0x20 6; .clock 0 0 0 0 0 0 1 1 1 0 0x20 -6 = 1 Syntax
// the form of a whole line comes before its numbers
addiu r2, r2, 40000, 5; sll r2, r2, 32 5; .word 4294967296 1; .clock 256 0 0 0 0 0 1 1 1 0 0x20 = 1 Syntax
// numbers one past their bounds, in each form
addiu r2, r2, 40000; addiu r1, r1, 32768; addiu r1, r1, 0x8000; addiu r1, r1, -32769; addiu r1, r1, -0x8001 = 1 Number
addiu r1, r1, 4294967296; addiu r1, r1, -4294967296; addiu r1, r1, 18446744073709551616; lw r1, 32768(r2) = 1 Number
lw r1, 0x8000(r2); lw r1, -32769(r2); ori r1, r1, 65536; ori r1, r1, 0x10000; lui r1, 0x10000; sll r1, r1, 32 = 1 Number
sll r1, r1, 0x20; break 1048576; syscall 0x100000; j 4294967296; beq r0, r0, 0x100000000; .word 4294967296 = 1 Number
.word 0x100000000; .word 99999999999999999999999999999999; .word 0xffffffffffffffffffffffffffffffff = 1 Number
.org 4294967296; .org 0x100000000; .bytetime 0; .bytetime 65536; .unit 0; .unit 0x10000 = 1 Number
.clock 256 0 0 0 0 0 1 1 1 0 0x20 6; .clock 0 0 0 0 0 0 1 1 1 0x100 0x20 6; .clock 0 0 0 0 0 0 1 1 1 0 0x80 6 = 1 Number
.clock 0 0 0 0 0 0 1 1 1 0 0x20 7; .clock 0 0 0 0 0 0 1 1 1 0 0x20 256 = 1 Number
// again: a label, and each directive that may stand once
x:|x: = 2 Twice / x:|.org 0|y:| x: # here = 4 Twice / .bytetime 1|.bytetime 1 = 2 Twice
.unit 1|tlbr|.unit 2 = 3 Twice
.clock 0 0 0 0 0 0 1 1 1 0 0x20 6|.clock 0 0 0 0 0 0 1 1 1 0 0x20 6 = 2 Twice
.unit 1|.unit 1 1 = 2 Syntax / .unit 1|.unit 65536|.unit 1 = 2 Number
// places: no multiple of 4; out of RAM, before ROM, out of ROM, and the last address
.org 1|tlbr; .org 0x1fc00002|.word 1; .org 0x2000000|tlbr = 2 Place / .org 0x1fffffc|tlbr|tlbr = 3 Place
.org 0x1fbffffc|tlbr = 2 Place / .org 0x1fc3fffc|tlbr|tlbr = 3 Place
.org 0x1fc40000|.word 1; .org 0xffffffff|.word 1; .org 0xfffffffc|.word 1 = 2 Place
// words that are set already
.word 1|.org 0x1fc00000|.word 1 = 3 Overlap / .org 8|tlbr|.org 0|tlbr|tlbr|tlbr|tlbr = 6 Overlap
tlbr|.org 0x1fc00000|tlbr = 3 Overlap
// targets: a label that is not there, one that is no word, and branches one word past both ends
j nowhere = 1 Label / X:|j x = 2 Label / j tlbr|tlbr = 1 Label
j 1; jal 2; j 0xffffffff; beq r0, r0, 0x1fc00003; beq r0, r0, 0x1fc20004; beq r0, r0, 0x1fbe0000; beq r0, r0, 0 = 1 Reach
j x|.org 2|x: = 1 Reach / tlbr|blez r1, x|.org 0x1fc20008|x: = 2 Reach
// a line with two faults, where no word may be or where one is already: the earlier kind is reported
.org 0|.word 1|.org 2|foo 1, 2; .org 0|.word 1|.org 0|foo 1, 2; .org 0|.word 1|.org 2|foo nowhere = 4 Name
.org 0|.word 1|.org 0|foo nowhere = 4 Name
.org 0|.word 1|.org 2|j 2 2; .org 0|.word 1|.org 0|j 2 2; .org 0|.word 1|.org 2|j nowhere,; .org 0|.word 1|.org 0|j nowhere, = 4 Syntax
.org 0|.word 1|.org 2|addiu r1, r1; .org 0|.word 1|.org 0|addiu r1, r1 = 4 Syntax
.org 0|.word 1|.org 2|addiu r1, r1, 32768; .org 0|.word 1|.org 0|addiu r1, r1, 32768; .org 0|.word 1|.org 2|.word 4294967296 = 4 Number
.org 0|.word 1|.org 0|.word 4294967296; .org 0|.word 1|.org 2|j 4294967298; .org 0|.word 1|.org 0|j 4294967298 = 4 Number
.org 0|.word 1|.org 2|j nowhere; .org 0|.word 1|.org 2|j 2 = 4 Place
.org 0|.word 1|.org 0|j nowhere; .org 0|.word 1|.org 0|j 2 = 4 Overlap
// a fault of the second pass before one of the first
j nowhere|foo = 2 Name
";

#[test]
fn faults(rt: HostRuntime) -> Result<(), Fail> {
    for (source, wanted) in &rows(rt.alloc(), FAULTS)? {
        let fault = fault(rt.alloc(), source.as_str());
        let wanted = format!(in rt.alloc(); "Some {wanted}")?;
        same_at(&rt, &source, &shown(rt.alloc(), &fault)?, &wanted);
    }
    Ok(())
}

// Lines with a fault, after `.org 0`, `.word 1`, `x:` and `.org 8`: how many there are, of which the last has it; its kind;
// and whether only the second pass finds it.
static FAULTY_LINES: [(&str, u64, AsmKind, bool); 8] = [
    ("foo\n", 1, AsmKind::Name, false),
    ("addu\n", 1, AsmKind::Syntax, false),
    (".word 4294967296\n", 1, AsmKind::Number, false),
    ("x:\n", 1, AsmKind::Twice, false),
    (".org 2\ntlbr\n", 2, AsmKind::Place, false),
    (".org 0\ntlbr\n", 2, AsmKind::Overlap, false),
    ("j nowhere\n", 1, AsmKind::Label, true),
    ("j 2\n", 1, AsmKind::Reach, true),
];

/// Of two faults the one in the earlier line is reported, but one of the first pass before any of the second.
#[test]
fn faults_in_two_lines(rt: HostRuntime) -> Result<(), Fail> {
    for (first, count, kind, linked) in &FAULTY_LINES {
        for (second, others, other, other_linked) in &FAULTY_LINES {
            let mut source = ".org 0\n.word 1\nx:\n.org 8\n".to_string(rt.alloc())?;
            source.push_str(first)?;
            source.push_str(second)?;
            let expected = if *linked && !*other_linked {
                (4 + *count + *others, *other)
            } else {
                (4 + *count, *kind)
            };
            let found = fault(rt.alloc(), source.as_str());
            same_at(&rt, &source, &found, &Some(expected));
        }
    }
    Ok(())
}

/// Places in both memories, labels before and after their use, and each constant, up to its bounds.
#[test]
fn places_and_constants(rt: HostRuntime) -> Result<(), Fail> {
    let source =
        ".org 0x100\n.word 5\n.org 0x1fc00000\nstart:\nlw r2, 256(r1) # a word\r\nj end\nbeq r1, r0, start
end:\naddiu r2, r2, -1\n.bytetime 2\n.unit 3\n.clock 1 2 3 4 5 6 7 8 9 10 0x20 6";
    let words =
        "0x100 5; 0x104 none; 0x1fc00000 0x8c220100; 0x1fc00004 0x0bf00003; 0x1fc00008 0x1020fffd; \
0x1fc0000c 0x2442ffff; 0x1fc00010 none";
    let first = image(&rt, rt.alloc(), source);
    has_words(&rt, &first, words)?;
    has_constants(&rt, &first, 2, 3, &[1, 2, 3, 4, 5, 6, 7, 8, 9, 10, 0x20, 6]);

    let source =
        "start:\nbne r1, r0, start\nj end\n.org 0x10\nlow:\n.word 1\n.org 0x1fffffc\ntlbr\n.org 0x1fc3fffc\nend:
rfe\n.org 4294967295\n.org 0\nbeq r0, r0, 0xfffffffc\nj low
.bytetime 65535\n.unit 0xffff\n.clock 1 2 3 4 5 6 7 8 9 255 0x7f 254";
    let words = "0x1fc00000 0x1420ffff; 0x1fc00004 0x0bf0ffff; 0x1fc00008 none; 0x10 1; 0x14 none; \
0x01fffffc 0x42000001; 0x1fc3fffc 0x42000010; 0 0x1000fffe; 4 0x08000004";
    let second = image(&rt, rt.alloc(), source);
    has_words(&rt, &second, words)?;
    let clock = [1, 2, 3, 4, 5, 6, 7, 8, 9, 255, 0x7F, 254];
    has_constants(&rt, &second, 65535, 65535, &clock);
    Ok(())
}

/// A source of nothing sets no word, and has the constants of a raw ROM.
#[test]
fn empty_source(rt: HostRuntime) -> Result<(), Fail> {
    for source in ["", "\n", "#", "x:", " \t\r\n\r\n", ".org 0x1fc40000"] {
        let image = image(&rt, rt.alloc(), source);
        has_words(&rt, &image, "0x1fc00000 none")?;
        has_constants(&rt, &image, 16, 1, &CLOCK);
    }
    Ok(())
}

/// Branches to a label at both ends of their reach.
#[test]
fn reach_of_labels(rt: HostRuntime) -> Result<(), Fail> {
    let source =
        ".org 0x1fbe0008\nlow:\n.org 0x1fc00004\nbltz r1, low\nbgtz r1, high\n.org 0x1fc20008\nhigh:";
    let image = image(&rt, rt.alloc(), source);
    has_words(&rt, &image, "0x1fc00004 0x04208000; 0x1fc00008 0x1c207fff")
}

/// Words that fill ROM, and one more.
#[test]
fn full_rom(rt: HostRuntime) -> Result<(), Fail> {
    let mut source = String::new(rt.alloc());
    for _ in 0..32_768 {
        source.push_str(".word 1\ntlbr\n")?;
    }
    let image = image(&rt, rt.alloc(), source.as_str());
    has_words(&rt, &image, "0x1fc3fff8 1; 0x1fc3fffc 0x42000001")?;
    source.push_str("rfe\n")?;
    let found = fault(rt.alloc(), source.as_str());
    same(&rt, &found, &Some((65_537, AsmKind::Place)));
    Ok(())
}

// Whether a word's text at the start of ROM assembles to the word.
fn comes_back(alloc: Global, word: u32) -> bool {
    match assemble(alloc, text(START, word).as_bytes()) {
        Ok(image) => image.word(START) == Some(word),
        Err(_) => false,
    }
}

// What the low 26 bits of a word may be, with each field at its least and its greatest, beside them, and about its middle.
fn corners(alloc: Global) -> Result<Vec<u32>, AllocError> {
    let mut corners = Vec::new(alloc);
    for index in [0, 1, 0x01FF_FFFF, 0x0200_0000, 0x03FF_FFFE, 0x03FF_FFFF] {
        corners.push(index)?;
    }
    for code in [1, 0x7_FFFF, 0x8_0000, 0xF_FFFF] {
        corners.push(code << 6)?;
    }
    for rs in [0, 1, 16, 31] {
        for rt in [0, 1, 16, 31] {
            let registers = rs << 21 | rt << 16;
            for imm in [0, 1, 0x7FFF, 0x8000, 0xFFFE, 0xFFFF] {
                corners.push(registers | imm)?;
            }
            for rd in [0, 1, 16, 31] {
                for sa in [0, 1, 16, 31] {
                    corners.push(registers | rd << 11 | sa << 6)?;
                }
            }
        }
    }
    Ok(corners)
}

/// Each row's text assembles back, at all corners of its fields.
#[test]
fn text_assembles_back(rt: HostRuntime) -> Result<(), Fail> {
    let corners = corners(rt.alloc())?;
    for row in table() {
        for corner in &corners {
            let word = row.value | (*corner & !row.mask);
            assert!(rt; comes_back(rt.alloc(), word), "{word:08x}");
        }
    }
    for word in [1, 0x4200_0011, 0x4400_0000, 0xFFFF_FFFF] {
        assert!(rt; comes_back(rt.alloc(), word), "{word:08x}");
    }
    Ok(())
}
