//! Lines of a script, by example.
use crate::same::{same, same_at};
use crate::tables::rows;
use samples::plain;
use std::alloc::Global;
use std::test::Fail;
use wb_text::{RegisterNumber, parse_line};

// What a line says, where a bounded number is its number.
fn said(alloc: Global, line: &[u8]) -> Result<String, Fail> {
    let text = format!(in alloc; "{:?}", parse_line(line))?;
    let text = text.replace(alloc, "Bounded { number: ", "")?;
    Ok(plain(alloc, text.as_str())?)
}

#[test]
fn lines(rt: HostRuntime) -> Result<(), Fail> {
    for (line, wanted) in &rows(rt.alloc(), LINES)? {
        let found = said(rt.alloc(), line.as_bytes())?;
        same_at(&rt, &line, &found, wanted);
    }
    Ok(())
}

// Lines, and the command that each of them says, or its refusal. Which bounds of `erase` are positions is judged later.
const LINES: &str = "
pos = Ok Some Pos / regs\r = Ok Some Regs /  quit\t = Ok Some Quit
\tgoto \t 0x1F = Ok Some Goto 31 / goto 0007 = Ok Some Goto 7 / goto 18446744073709551615 = Ok Some Goto 18446744073709551615
goto 0xffffffffffffffff = Ok Some Goto 18446744073709551615
step 1 = Ok Some Step 1
back 0x20\r = Ok Some Back 32
step 18446744073709551615 = Ok Some Step 18446744073709551615
back 18446744073709551616 = Err Range
step; step -1; back 1 2 = Err Syntax
visit 0xbfc01000 10 = Ok Some Visit address 0xbfc01000 limit 10
visit 4294967295 0x100000\r = Ok Some Visit address 0xffffffff limit 1048576
visit 0 0; visit 0 1048577; visit 0x100000000 1 = Err Range
visit 0x100000000 x; visit 0x100000000; visit x 0; visit; visit 0 0 0 = Err Syntax
reg 2 = Ok Some Reg 2 / reg 0x1f = Ok Some Reg 31 / cp0 = Ok Some Cp0
reg 32; reg 18446744073709551616 = Err Range
reg 32 1; reg r2; cp0 1 = Err Syntax
mem 0xfffffffc 32 = Ok Some Mem address 0xfffffffc count 32
dis 4294967292 0x20 = Ok Some Dis address 0xfffffffc count 32
where 0xfffffffc = Ok Some Where 0xfffffffc
tlb 64; where 0x100000000; mem 0x100000000 1; mem 0 0; dis 0 33 = Err Range
where; mem 0x100000000 x; mem 0x100000000; dis 0; dis x 33; dis 0 1 1 = Err Syntax
console 3 18446744073709551615 256 = Ok Some Console line 3 from 18446744073709551615 count 256
console 0 0x10 1 = Ok Some Console line 0 from 16 count 1
log 7 32 = Ok Some Log from 7 count 32 / log 18446744073709551615 1 = Ok Some Log from 18446744073709551615 count 1
console 4 0 8; console 0 0 0; console 0 0 257; console 0 18446744073709551616 8; log 0 0; log 0 33 = Err Range
log 18446744073709551616 1 = Err Range
console 4 0 x; console 4 x 8; console x 0 257; console 4 0; console 4 0 8 0; log x 33; log 18446744073709551616 x = Err Syntax
log 18446744073709551616; log 0 33 1 = Err Syntax
find 0 1 = Ok Some Find line 0 place 1 / find 3 18446744073709551615 = Ok Some Find line 3 place 18446744073709551615
writer 0x1fc00000 = Ok Some Writer 0x1fc00000 / \twriter 4294967295  = Ok Some Writer 0xffffffff
find 4 0; find 0 18446744073709551616; writer 0x100000000 = Err Range
find 4 x; find 4; find x 18446744073709551616; find 4 0 8; writer 0x100000000 1; writer; writer r2 = Err Syntax
stores 0x1fc00000 32 = Ok Some Stores address 0x1fc00000 count 32 / stores 0 1 = Ok Some Stores address 0 count 1
finds 3 18446744073709551615 64 = Ok Some Finds line 3 place 18446744073709551615 count 64
regwriter 33 = Ok Some RegisterWriter 33 / regwriter 0 = Ok Some RegisterWriter 0 / devices = Ok Some Devices
pcs 18446744073709551615 64 = Ok Some Pcs distance 18446744073709551615 count 64 / pcs 1 1 = Ok Some Pcs distance 1 count 1
stores 0x100000000 1; stores 0 0; stores 0 33; finds 4 0 1; finds 0 0 0; finds 0 0 65; regwriter 34; pcs 0 1; pcs 1 0 = Err Range
pcs 1 65; pcs 18446744073709551616 1 = Err Range
stores 0; stores 0 33 1; finds 4 0; finds 4 0 1 1; regwriter; regwriter 34 1; regwriter hi; pcs 0; pcs 0 1 1; devices 0 = Err Syntax
trace 1 = Ok Some Trace 1 / trace 0x40 = Ok Some Trace 64
trace 0; trace 65 = Err Range
trace; trace 65 1; trace x = Err Syntax
jumps 0 1 = Ok Some Jumps kind 0 count 1 / jumps 0x1 64 = Ok Some Jumps kind 1 count 64
jumps 2 1; jumps 0 0; jumps 1 65 = Err Range
jumps; jumps 2; jumps 0 1 1; jumps 2 x = Err Syntax
add 70 0 0x41 = Ok Some Add time 70 line 0 byte 0x41 / add 0xfffffffffe 3 255 = Ok Some Add time 1099511627774 line 3 byte 255
del 1 = Ok Some Del 1 / del 18446744073709551615 = Ok Some Del 18446744073709551615
set 2 0x41 = Ok Some Set event 2 byte 0x41 / set 18446744073709551615 0xff = Ok Some Set event 18446744073709551615 byte 255
move 1 70 = Ok Some Move event 1 time 70
move 0xffffffffffffffff 1099511627774 = Ok Some Move event 18446744073709551615 time 1099511627774
ferr 70 3 255 = Ok Some Ferr time 70 line 3 byte 255 / \tferr 0xfffffffffe  3 0xff  = Ok Some Ferr time 1099511627774 line 3 byte 255
wire 70 2 1 = Ok Some Wire time 70 line 2 level 1 / wire 1099511627774 0x0 0 = Ok Some Wire time 1099511627774 line 0 level 0
ferr 1099511627775 0 1; ferr 18446744073709551616 0 1; ferr 0 4 1; ferr 0 0 256; wire 1099511627775 0 1; wire 0 3 1 = Err Range
wire 0 0 2; wire 0 18446744073709551616 0 = Err Range
ferr 0 4 x; ferr 0 4; ferr 0 0 1 1; ferr; wire 0 3 x; wire 0 3; wire 0 0 -1; wire 0 0 1 1; wires 0 0 1 = Err Syntax
erase 70 131 = Ok Some Erase from 70 to 131 / erase 131 0x46 = Ok Some Erase from 131 to 70
erase 0 18446744073709551615\r = Ok Some Erase from 0 to 18446744073709551615
erase 18446744073709551616 0; erase 0 18446744073709551616 = Err Range
erase 18446744073709551616 x; erase 18446744073709551616; erase 0 1 2; erase -1 0; erase = Err Syntax
add 1099511627775 0 1; add 0 4 1; add 0 0 256; del 18446744073709551616; set 0 256; set 18446744073709551616 0 = Err Range
move 0 1099511627775; move 18446744073709551616 0 = Err Range
add 1099511627775 4; add 1099511627775 x 1; add 0 4 x; add x 0 256; add 0 0 1 1; del 18446744073709551616 1; del; del -1 = Err Syntax
delete 1; set 0 256 0; set 18446744073709551616 x; set x 256; set 0; move 1; move x 1099511627775 = Err Syntax
move 18446744073709551616 x; move 0 0 0 = Err Syntax
patch 0x1fc00010 0x24050011 = Ok Some Patch address 0x1fc00010 word 0x24050011
patch 4294967295 4294967295 = Ok Some Patch address 0xffffffff word 0xffffffff
patch 0x100000000 0; patch 0x102 0x100000000 = Err Range
patch 0x100000000; patch 0x100000000 x; patch x 0x100000000; patch 0 0 0; patch 0 -1 = Err Syntax
 = Ok None
 \t\r = Ok None
 #goto = Ok None
pos\r\r = Err Syntax
goto 18446744073709551616; goto 0x10000000000000000 = Err Range
reg; POS; pos 1; pos #; goto; goto 0X10; goto +1; goto -1; goto 1_0; goto 0x; goto 18446744073709551616 x = Err Syntax";

#[test]
fn long_lines(rt: HostRuntime) -> Result<(), Fail> {
    for (line, wanted) in [
        ([b' '; 256].as_slice(), "Ok None"),
        (&[b' '; 257], "Err Syntax"),
    ] {
        let found = said(rt.alloc(), line)?;
        same_at(&rt, &line.len(), &found, &plain(rt.alloc(), wanted)?);
    }
    let last = RegisterNumber::new(31).map(|number| number.get());
    same(&rt, &last, &Some(31));
    same(&rt, &RegisterNumber::new(32), &None);
    Ok(())
}
