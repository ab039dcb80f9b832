//! What instructions do with the values that they read: values by hand from the manual.
use crate::lists::{cases, numbers_of};
use crate::same::same_at;
use r3k_asm::assemble;
use r3k_decode::decode;
use r3k_exec::{Effect, Operands, effect};
use samples::plain;
use std::alloc::Global;
use std::test::Fail;

#[test]
fn effects(rt: HostRuntime) -> Result<(), Fail> {
    let alloc = rt.alloc();
    for table in EFFECTS.split("\n$ ").skip(1) {
        let (head, table) = table.split_once('\n').ok_or("no table")?;
        for (source, values, wanted) in &cases(alloc, table)? {
            let values = numbers_of(alloc, *values)?;
            let found = done(alloc, *source, values.as_slice())?;
            let wanted = plain(alloc, format!(in alloc; "{head} {wanted}")?.as_str())?;
            same_at(&rt, &(*source, values.as_slice()), &found, &wanted);
        }
    }
    Ok(())
}

// What an instruction does with these values of rs and rt, where HI is 0x11 and LO is 0x22. With the word in memory too, what it moves.
fn done(alloc: Global, source: &str, values: &[u32]) -> Result<String, Fail> {
    let [rs, rt, memory @ ..] = values else {
        return Err("no value of rt".into());
    };
    let word = assemble(alloc, source.as_bytes())?
        .word(0x1FC0_0000)
        .ok_or("no word")?;
    let operands = Operands {
        rs: *rs,
        rt: *rt,
        hi: 0x11,
        lo: 0x22,
        pc: 0xBFC0_0000,
    };
    let effect = effect(&decode(word).ok_or("no instruction")?, operands);
    let text = match (effect, memory) {
        (Effect::Load { kind, address, .. }, [word]) => {
            let loaded = kind
                .is_aligned(address)
                .then_some(kind.loaded(address, *word, *rt));
            format!(in alloc; "loaded {loaded:?}")?
        }
        (
            Effect::Store {
                kind,
                address,
                value,
            },
            [_],
        ) => {
            let stored = kind
                .is_aligned(address)
                .then_some(kind.stored(address, value));
            format!(in alloc; "stored {stored:?}")?
        }
        _ => format!(in alloc; "{effect:?}")?,
    };
    // A register counts as its number.
    let text = text.as_str().replace(alloc, "Register { number: ", "")?;
    Ok(plain(alloc, text.as_str())?)
}

// Instructions, each with values of rs and rt, and the word in memory of some. What each of a table does begins with the table's head.
const EFFECTS: &str = "
$ WriteHiLo
# HI has the remainder, and LO the quotient.
div r5, r6: 7 0 = hi 7 lo 0xffffffff; 0 0 = hi 0 lo 0xffffffff; 0xfffffff9 0 = hi 0xfffffff9 lo 1
div r5, r6: 0x80000000 0xffffffff = hi 0 lo 0x80000000; 7 0xfffffffe = hi 1 lo 0xfffffffd; 0xfffffff9 2 = hi 0xffffffff lo 0xfffffffd
divu r5, r6: 7 0 = hi 7 lo 0xffffffff; 0x80000000 0xffffffff = hi 0x80000000 lo 0; 0xfffffff9 2 = hi 1 lo 0x7ffffffc
# Products of -1 by -1 and by 1, -7 by 3, and both ends of the signed numbers; then the same as unsigned ones.
mult r5, r6: 3 5 = hi 0 lo 15; 0xffffffff 0xffffffff = hi 0 lo 1; 0xffffffff 1 = hi 0xffffffff lo 0xffffffff
mult r5, r6: 0xfffffff9 3 = hi 0xffffffff lo 0xffffffeb; 3 0xfffffff9 = hi 0xffffffff lo 0xffffffeb; 0 0x80000000 = hi 0 lo 0
mult r5, r6: 0x80000000 0x80000000 = hi 0x40000000 lo 0; 0x80000000 0xffffffff = hi 0 lo 0x80000000
mult r5, r6: 0x80000000 1 = hi 0xffffffff lo 0x80000000; 0x80000000 2 = hi 0xffffffff lo 0
mult r5, r6: 0x7fffffff 0x7fffffff = hi 0x3fffffff lo 1; 0x7fffffff 0x80000000 = hi 0xc0000000 lo 0x80000000
multu r5, r6: 3 5 = hi 0 lo 15; 0xffffffff 0xffffffff = hi 0xfffffffe lo 1; 0xffffffff 1 = hi 0 lo 0xffffffff
multu r5, r6: 0x80000000 0x80000000 = hi 0x40000000 lo 0; 0x80000000 2 = hi 1 lo 0; 0 0xffffffff = hi 0 lo 0
multu r5, r6: 0x80000000 0xffffffff = hi 0x7fffffff lo 0x80000000; 0xffffffff 0x80000000 = hi 0x7fffffff lo 0x80000000

$ WriteHi value
mthi r5: 5 6 = 5; 0xffffffff 0 = 0xffffffff

$ WriteLo value
mtlo r5: 5 6 = 5; 0xffffffff 0 = 0xffffffff

$ Trap
add r3, r5, r6: 0x7fffffff 1 = Overflow; 0x80000000 0xffffffff = Overflow
addi r6, r5, 1: 0x7fffffff 0 = Overflow
addi r6, r5, -1: 0x80000000 0 = Overflow
sub r3, r5, r6: 0 0x80000000 = Overflow; 0x80000000 1 = Overflow

$ Write register 3 value
mfhi r3: 5 6 = 0x11; 0xffffffff 0 = 0x11
mflo r3: 5 6 = 0x22; 0xffffffff 0 = 0x22
add r3, r5, r6: 0x7fffffff 0 = 0x7fffffff; 0x80000000 0 = 0x80000000
sub r3, r5, r6: 0xffffffff 0x80000000 = 0x7fffffff; 0x80000001 1 = 0x80000000
addu r3, r5, r6: 0x7fffffff 1 = 0x80000000; 0xffffffff 1 = 0; 5 7 = 12
subu r3, r5, r6: 7 5 = 2; 5 7 = 0xfffffffe; 0 1 = 0xffffffff; 0x80000000 1 = 0x7fffffff; 0x7fffffff 0xffffffff = 0x80000000
# By a register, only the low five bits of rs count.
sll r3, r6, 0: 0xffffffff 0x80000001 = 0x80000001
sll r3, r6, 4: 0xffffffff 0x90000018 = 0x00000180
sll r3, r6, 31: 0 3 = 0x80000000
sllv r3, r6, r5: 4 0x90000018 = 0x00000180; 31 3 = 0x80000000; 0 0x80000001 = 0x80000001
sllv r3, r6, r5: 32 0x90000018 = 0x90000018; 33 0x90000018 = 0x20000030; 0xffffffff 3 = 0x80000000; 0xffffffe4 0x90000018 = 0x00000180
srl r3, r6, 4: 0 0x80000010 = 0x08000001
srlv r3, r6, r5: 4 0x80000010 = 0x08000001; 31 0x80000010 = 1; 0 0x80000010 = 0x80000010
srlv r3, r6, r5: 32 0x80000010 = 0x80000010; 0xffffffe1 0x80000010 = 0x40000008; 0xffffffff 0x80000010 = 1
sra r3, r6, 4: 0 0x80000010 = 0xf8000001
srav r3, r6, r5: 0xffffffe1 0x80000000 = 0xc0000000; 32 0x80000000 = 0x80000000
and r3, r5, r6: 0xf0f0f0f0 0x0ff0ffff = 0x00f0f0f0; 0xffffffff 0 = 0; 0xffffffff 0x80000001 = 0x80000001
or r3, r5, r6: 0xf0f0f0f0 0x0000ffff = 0xf0f0ffff; 0 0 = 0; 0x80000000 1 = 0x80000001
xor r3, r5, r6: 0xf0f0f0f0 0x0000ffff = 0xf0f00f0f; 0xffffffff 0xffffffff = 0; 0x80000000 1 = 0x80000001
nor r3, r5, r6: 0xf0f0f0f0 0x0000ffff = 0x0f0f0000
slt r3, r5, r6: 0xffffffff 0 = 1
sltu r3, r5, r6: 0xffffffff 0 = 0

$ Write register 6 value
addi r6, r5, 1: 0x7ffffffe 0 = 0x7fffffff
addi r6, r5, -1: 0x80000001 0 = 0x80000000
# Constants of and, or and xor are extended with zeros.
slti r6, r5, -1: 0xfffffffe 0 = 1
sltiu r6, r5, -1: 5 0 = 1
andi r6, r5, 0x8000: 0xffffffff 0 = 0x8000
xori r6, r5, 0xffff: 0xf0f0f0f0 0 = 0xf0f00f0f; 0xffffffff 0xffffffff = 0xffff0000
xori r6, r5, 0x8000: 0 0xffffffff = 0x8000; 0xffff8000 0 = 0xffff0000

$ Jump target
# beq and bne 32763 words back, the others to the delay slot or to the word after it.
beq r5, r6, 0x1fbe0018: 9 9 = Some 0xbfbe0018; 9 8 = None
bne r5, r6, 0x1fbe0018: 9 9 = None; 9 8 = Some 0xbfbe0018; 0 0x80000000 = Some 0xbfbe0018; 0xffffffff 0xffffffff = None
blez r5, 0x1fc00004: 0 0 = Some 0xbfc00004
bgtz r5, 0x1fc00004: 0 0 = None; 0x80000000 0 = None
bltz r5, 0x1fc00008: 0 0 = None; 0x80000000 0 = Some 0xbfc00008; 0xffffffff 0 = Some 0xbfc00008; 0x7fffffff 0x80000000 = None
bgez r5, 0x1fc00008: 0 0 = Some 0xbfc00008; 0x80000000 0 = None; 0xffffffff 0 = None; 0x7fffffff 0x80000000 = Some 0xbfc00008

$ JumpAndLink target
# A branch that is not taken links as well.
bgezal r5, 0x1fc00008: 0x80000000 0 = None register 31 value 0xbfc00008; 0 0 = Some 0xbfc00008 register 31 value 0xbfc00008
bltzal r5, 0x1fbe0018: 0 0 = None register 31 value 0xbfc00008; 0x7fffffff 0 = None register 31 value 0xbfc00008
bltzal r5, 0x1fbe0018: 0x80000000 0 = Some 0xbfbe0018 register 31 value 0xbfc00008
bltzal r5, 0x1fbe0018: 0xffffffff 0 = Some 0xbfbe0018 register 31 value 0xbfc00008
jal 0x0fc00000: 0 0 = Some 0xbfc00000 register 31 value 0xbfc00008
jalr r31, r5: 0x80001234 0 = Some 0x80001234 register 31 value 0xbfc00008

$ Load kind
lwl r6, 1(r5): 0x100 1 = Left register 6 address 0x101

$ loaded Some
lwl r6, 0(r5): 0x100 0xaabbccdd 0x44332211 = 0x11bbccdd; 0x101 0xaabbccdd 0x44332211 = 0x2211ccdd
lwl r6, 0(r5): 0x102 0xaabbccdd 0x44332211 = 0x332211dd; 0x103 0xaabbccdd 0x44332211 = 0x44332211
lwr r6, 0(r5): 0x100 0xaabbccdd 0x44332211 = 0x44332211; 0x101 0xaabbccdd 0x44332211 = 0xaa443322
lwr r6, 0(r5): 0x102 0xaabbccdd 0x44332211 = 0xaabb4433; 0x103 0xaabbccdd 0x44332211 = 0xaabbcc44
lb r6, 0(r5): 0x101 0x5a5a5a5a 0x8081f2f3 = 0xfffffff2
lbu r6, 0(r5): 0x103 0x5a5a5a5a 0x8081f2f3 = 0x80
lh r6, 0(r5): 0x102 0x5a5a5a5a 0x8081f2f3 = 0xffff8081
lhu r6, 0(r5): 0x100 0x5a5a5a5a 0x8081f2f3 = 0xf2f3
lw r6, 0(r5): 0x100 0x5a5a5a5a 0x8081f2f3 = 0x8081f2f3

$ stored Some Covered
# The word with the value, and the bytes that are covered.
sb r6, 0(r5): 0x102 0xaabbccdd 0 = word 0x00dd0000 lanes 4
sh r6, 0(r5): 0x102 0xaabbccdd 0 = word 0xccdd0000 lanes 12
sw r6, 0(r5): 0x100 0xaabbccdd 0 = word 0xaabbccdd lanes 15
swl r6, 0(r5): 0x100 0xaabbccdd 0 = word 0xaa lanes 1; 0x101 0xaabbccdd 0 = word 0xaabb lanes 3
swl r6, 0(r5): 0x102 0xaabbccdd 0 = word 0x00aabbcc lanes 7; 0x103 0xaabbccdd 0 = word 0xaabbccdd lanes 15
swr r6, 0(r5): 0x100 0xaabbccdd 0 = word 0xaabbccdd lanes 15; 0x101 0xaabbccdd 0 = word 0xbbccdd00 lanes 14
swr r6, 0(r5): 0x102 0xaabbccdd 0 = word 0xccdd0000 lanes 12; 0x103 0xaabbccdd 0 = word 0xdd000000 lanes 8

$ loaded
lh r6, 0(r5): 0x101 0x5a5a5a5a 0x8081f2f3 = None
lw r6, 0(r5): 0x102 0x5a5a5a5a 0x8081f2f3 = None

$ stored
sw r6, 0(r5): 0x102 0xaabbccdd 0 = None
";
