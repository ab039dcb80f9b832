//! The isolated cache step by step, and copies of the processor: values by hand from the manual's rules. In Status BEV is 0x00400000,
//! CM 0x00080000, SwC 0x00020000 and IsC 0x00010000.
use crate::machine::{Machine, plays};
use r3k_decode::Register;
use r3k_machine::DelayedLoad;
use std::test::Fail;

#[test]
fn isolated_caches(rt: HostRuntime) -> Result<(), Fail> {
    plays(&rt, LISTS)
}

const LISTS: &str = "
$ Start: slot 16 holds 0x44332211 of address 0x40, and r5 is 0xAABBCCDD. r4 has the next tag
lui r1, 0x8000; lui r3, 0x4433; ori r3, r3, 0x2211; lui r5, 0xaabb; ori r5, r5, 0xccdd; lui r2, 0x41; mtc0 r2, c12
sw r3, 64(r1); lui r4, 0x8001

$ loads of words: $1
# Loads into r0 set and clear CM too.
| lw r0, 64(r4); lw r0, 64(r1) | 10 | status 0x00490000 | status 0x00410000 | pc 0xbfc00030
# A store takes the slot over: the next load by the first tag misses, and has the word. A misaligned load is AdEL.
| sw r5, 64(r4); lw r6, 64(r1); lw r6, 64(r4); lw r6, 65(r1) | 11 | load 6 0xaabbccdd, status 0x00490000 | status 0x00410000 | pc 0xbfc00180
$1
-- run $2, $3, run 1, $4, run 1, $5

$ With SwC too the second array is empty. Without IsC it is memory; the write mask leaves CM
lui r2, 0x43; mtc0 r2, c12; lw r6, 64(r1); mtc0 r0, c12; sw r5, 64(r1)
-- run 12, load 6 0, status 0x004b0000, run 1, status 0x00080000, run 1, stored 0x40, ram 0x40 0xaabbccdd

$ An uncached load is of memory, and CM stays. So is a fetch with IsC
lui r6, 0xa000; lw r7, 64(r6); lui r8, 0x9fc0; jr r8; sll r0, r0, 0
-- run 11, touched 16 0, load 7 0, status 0x00410000, where 0x80000040 cached 0x40
run 3, pc 0x9fc00000, run 1, touched 16 none, pc 0x9fc00004

$ The store has stayed in the slot. The load misses by the next tag, or hits, and has the word
| lb r5, 65 | 0x22
| lbu r5, 65 | 0x22
| lh r5, 66 | 0x4433
| lhu r5, 66 | 0x4433
| lw r5, 64 | 0x44332211
| lwl r5, 65 | 0x2211ccdd
| lwr r5, 65 | 0xaa443322
| lb r5, 67 | 0x44
/ r4 | 0x00490000
/ r1 | 0x00410000
$1(%1); sll r0, r0, 0; $1(r1)
-- run 8, stored none, touched 16 none, run 2, touched 16 none, load 5 $2, status %2, ram 0x40 0

$ After a store of a part the slot's word stays and is no longer valid, also where all four bytes are stored. CM is not its to set
| sb r5, 65(r1)
| sh r5, 66(r1)
| swl r5, 67(r1)
| swr r5, 64(r1)
$1; lw r6, 64(r1)
-- run 10, stored none, status 0x00410000, run 1, load 6 0x44332211, status 0x00490000, ram 0x40 0
";

// A copy is equal until one of the two makes a step, and assigned it is equal again: also its slots and its load slot. Of the
// three steps the first is the store into a slot, and the last the load.
#[test]
fn copies(rt: HostRuntime) -> Result<(), Fail> {
    let source =
        "lui r1, 0x8000; lui r3, 0x4433; lui r2, 0x41; mtc0 r2, c12; sw r3, 64(r1); lui r4, 0x8001; lw r6, 64(r1)";
    let mut machine = Machine::boot(rt.alloc(), source)?;
    machine.run(4);
    let mut copy = machine.core.copy(rt.alloc())?;
    for steps in [1, 2] {
        assert!(rt; copy == machine.core);
        machine.run(steps);
        assert!(rt; copy != machine.core);
        copy.assign(&machine.core);
    }
    assert!(rt; copy == machine.core);
    let load = Some(DelayedLoad::new(Register::new(6), 0x4433_0000));
    assert_eq!(rt; copy.load(), load);
    Ok(())
}
