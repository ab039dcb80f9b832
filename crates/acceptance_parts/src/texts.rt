//! Words as text, and back.
use crate::same::same_at;
use crate::vectors::VECTORS;
use r3k_asm::assemble;
use r3k_disasm::text;
use r3k_table::rows::table;
use std::test::Fail;

// Each vector both ways. Each row of the table has one.
#[test]
fn words_and_texts(rt: HostRuntime) -> Result<(), Fail> {
    let mut words = Vec::new(rt.alloc());
    let mut source = String::new(rt.alloc());
    for line in VECTORS.lines() {
        let (word, text) = line.split_once(' ').ok_or("no text")?;
        words.push(u32::from_str_radix(word, 16)?)?;
        source.push_str(text)?;
        source.push_str("\n")?;
    }
    let image = assemble(rt.alloc(), source.as_bytes())?;
    let mut address = 0x1FC0_0000;
    for (word, wanted) in words.iter().zip(source.as_str().lines()) {
        same_at(&rt, word, &text(address, *word).as_str(), &wanted);
        same_at(&rt, &wanted, &image.word(address), &Some(*word));
        address = address.wrapping_add(4);
    }
    for row in table() {
        let found = words.iter().any(|word| word & row.mask == row.value);
        same_at(&rt, &row.name, &found, &true);
    }
    Ok(())
}

// Words at addresses and their texts, with numbers and targets at their bounds: by hand from the table and the texts of its shapes.
#[test]
fn corners(rt: HostRuntime) {
    for (address, word, expected) in [
        (0x1FC0_1010, 0x04E1_0004, "bgez r7, 0x1fc01024"),
        (0x1FC0_0000, 0x0000_0000, "sll r0, r0, 0"),
        (0x0000_0000, 0x1000_FFFE, "beq r0, r0, 0xfffffffc"),
        (0xFFFF_FFFC, 0x1000_0000, "beq r0, r0, 0x00000000"),
        (0x1FC0_0000, 0x1000_7FFF, "beq r0, r0, 0x1fc20000"),
        (0x1FC0_0000, 0x1000_8000, "beq r0, r0, 0x1fbe0004"),
        (0x0FFF_FFF8, 0x0BFF_FFFF, "j 0x0ffffffc"),
        (0x0FFF_FFFC, 0x0BFF_FFFF, "j 0x1ffffffc"),
        (0x1FC0_0000, 0x241F_8000, "addiu r31, r0, -32768"),
        (0x1FC0_0000, 0x241F_FFFF, "addiu r31, r0, -1"),
        (0x1FC0_0000, 0x241F_7FFF, "addiu r31, r0, 32767"),
        (0x1FC0_0000, 0x343F_000F, "ori r31, r1, 0x000f"),
        (0x1FC0_0000, 0x3C01_A000, "lui r1, 0xa000"),
        (0x1FC0_0000, 0x8C22_0100, "lw r2, 256(r1)"),
        (0x1FC0_0000, 0x03FF_FFCD, "break 1048575"),
        (0x1FC0_0000, 0x4200_0010, "rfe"),
        (0x1FC0_0000, 0x4200_0011, ".word 0x42000011"),
        (0x1FC0_0000, 0x0000_0001, ".word 0x00000001"),
        (0x1FC0_0000, 0xDEAD_BEEF, ".word 0xdeadbeef"),
    ] {
        same_at(&rt, &word, &text(address, word).as_str(), &expected);
    }
}
