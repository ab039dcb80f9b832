//! Devices reached by loads and stores, and their interrupts, step by step: values by hand from the specifications of the parts.
use crate::machine::{Machine, plays};
use samples::ECHO;
use std::test::Fail;

#[test]
fn devices(rt: HostRuntime) -> Result<(), Fail> {
    plays(&rt, LISTS)
}

const LISTS: &str = "
$ All four lines may send: the scan begins at line 1. Each store of TDR sends on the next line, the fifth finds all busy, and
# 16 ticks after the first store line 1 takes a byte again. TIE lets TRDY raise the board's line.
lui r1, 0xbfe0; addiu r4, r0, 15; sw r4, 16(r1); lui r2, 0xbff0; lui r3, 128; sw r3, 0(r2); addiu r5, r0, 16416; sw r5, 0(r1)
addiu r6, r0, 0x41; sw r6, 24(r1); sw r6, 24(r1); sw r6, 24(r1); sw r6, 24(r1); sw r6, 24(r1)
-- run 8, cause 0, run 1, cause 0x400, sends 1:0x41 2:0x41 3:0x41 0:0x41 none, cause 0, run 11, cause 0, run 1, cause 0x400

$ The clock's registers stand in byte 0 of their words. The update interrupt is on its line, Cause bit 11, until C is read
lui r1, 0xbfe8; addiu r2, r0, 22; sw r2, 44(r1); sb r2, 45(r1); lw r3, 44(r1); lbu r4, 45(r1); j 0x1fc00018; sll r0, r0, 0
-- run 8191, landed 3 0x16 0, cause 0, run 1, cause 0x800
";

// What a step of the echo program sends and stores, where a byte arrives in step 70, and where none does.
#[test]
fn echo(rt: HostRuntime) -> Result<(), Fail> {
    let mut machine = Machine::boot(rt.alloc(), ECHO)?;
    let mut silent = Machine::boot(rt.alloc(), ECHO)?;
    for step in 0u32..256 {
        let turn = if step > 0 && step % 11 == 0 {
            "run 1, sent none, stored 0x100"
        } else {
            "run 1, sent none, stored none"
        };
        let asked = match step {
            70 => "receive 0:0x41, sent none, stored none",
            81 => "run 1, sent none, stored 0x104",
            83 => "run 1, sent 0:0x41, stored none",
            _ => turn,
        };
        machine.play(&rt, rt.alloc(), "echo", asked)?;
        silent.play(&rt, rt.alloc(), "no byte", turn)?;
    }
    machine.play(&rt, rt.alloc(), "echo", "ram 0x100 0")?;
    // The runs meet: nothing of the byte is left.
    assert!(rt; machine.core == silent.core);
    Ok(())
}
